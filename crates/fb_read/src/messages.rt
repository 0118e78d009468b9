//! Size-prefixed buffers, one after the other.
ghost use Rattle.std.specs.Prelude.{◌≡◌, ◌++◌, length, Some, IfOk, IfErr, MatchOption};
ghost use Rattle.fb_value.specs.Messages.{IsMessage, whole_rules};
ghost use Rattle.fb_value.specs.Rules.{first_failing};

use crate::numbers::u32_at;
use fb_value::ReadFault;

/// The first message of a stream of size-prefixed buffers, its size prefix included, and what follows it.
///
/// None where the stream has ended. `Short` where fewer than four bytes are left, and `OutOfBounds` at 0 where the
/// count is more than what follows it: then the stream is cut, or more of it is to be read. What the message holds
/// isn't checked.
#[tactic(auto, unfolding(fb_value::specs::Rules::first_failing))]
pub fn split_prefixed(bytes: &[u8]) -> Result<Option<(&[u8], &[u8])>, ReadFault>
    ensures message { IfOk result (λ found. MatchOption found (length bytes.now ≡ 0)
        (λ parts. IsMessage parts.0.now × (bytes.now ≡ parts.0.now ++ parts.1.now))) }
    ensures cut { IfErr result (λ f. first_failing (whole_rules bytes.now) ≡ Some f) }
{
    if bytes.is_empty() {
        return Ok(None);
    }
    if bytes.len() < 4 {
        return Err(ReadFault::Short(bytes.len() as u64));
    }
    let end = 4 + u32_at(bytes, 0) as usize;
    if bytes.len() < end {
        return Err(ReadFault::OutOfBounds(0));
    }
    Ok(Some(bytes.split_at(end)))
}
