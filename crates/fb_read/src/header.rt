//! The rules of a buffer's front: its count, if it has one, and its header.
ghost use Rattle.std.specs.Prelude.{◌≡◌, ◌≤◌, ◌<◌, ◌+◌, ◌^◌, List, length, MatchResult, OnOk};
ghost use Rattle.std.specs.Prelude.{IfOk, None, Some, Err};
ghost use Rattle.fb_value.specs.Rules.{Rule, first_failing};
ghost use Rattle.fb_value.specs.Holds.{header_rules, prefix_rules, front_of, front_fault, checked_identifier};
ghost use Rattle.fb_read.specs.Walks.{IsBufferOf};

use crate::buffer::Buffer;
use crate::numbers::u32_at;
use fb_layout::{Layout, layout_is_well_made};
use fb_value::{Limits, MOST_BYTES, ReadFault};

#[tactic(auto, unfolding(fb_value::specs::Rules::first_failing))]
fn check_identified(bytes: &[u8], front: usize, identifier: [u8; 4]) -> Result<(), ReadFault>
    requires low { front ≤ 4 }
    ensures rules { MatchResult result
        (λ _. first_failing (header_rules front bytes.now (Some identifier)) ≡ None)
        (λ f. first_failing (header_rules front bytes.now (Some identifier)) ≡ Some f) }
    ensures short { OnOk result (length bytes.now < 2 ^ 31) }
    ensures long { OnOk result (front + 4 ≤ length bytes.now) }
    ensures rule { result ≡ Err ReadFault.Memory → ⊥ }
{
    let at = front + 4;
    if bytes.len() < front + 8 {
        return Err(ReadFault::Short(bytes.len() as u64));
    }
    if bytes.len() > MOST_BYTES {
        return Err(ReadFault::TooLong(MOST_BYTES as u64));
    }
    if &bytes[at..at + 4] != identifier.as_slice() {
        return Err(ReadFault::WrongIdentifier(at as u64));
    }
    Ok(())
}

/// Checks the rules of a header from a position on.
#[tactic(auto, unfolding(fb_value::specs::Rules::first_failing))]
fn check_header(bytes: &[u8], front: usize, identifier: Option<[u8; 4]>) -> Result<(), ReadFault>
    requires low { front ≤ 4 }
    ensures rules { MatchResult result
        (λ _. first_failing (header_rules front bytes.now identifier) ≡ None)
        (λ f. first_failing (header_rules front bytes.now identifier) ≡ Some f) }
    ensures short { OnOk result (length bytes.now < 2 ^ 31) }
    ensures long { OnOk result (front + 4 ≤ length bytes.now) }
    ensures rule { result ≡ Err ReadFault.Memory → ⊥ }
{
    match identifier {
        Some(identifier) => check_identified(bytes, front, identifier),
        None if bytes.len() < front + 4 => Err(ReadFault::Short(bytes.len() as u64)),
        None if bytes.len() > MOST_BYTES => Err(ReadFault::TooLong(MOST_BYTES as u64)),
        None => Ok(()),
    }
}

/// Checks that a size prefix is the length of what follows it, before other rules are.
#[tactic(auto, unfolding(fb_value::specs::Rules::first_failing))]
fn check_prefix(bytes: &[u8]) -> Result<(), ReadFault>
    ensures rules { MatchResult result
        (λ _. (others : List Rule) → first_failing (prefix_rules bytes.now others) ≡ first_failing others)
        (λ f. (others : List Rule) → first_failing (prefix_rules bytes.now others) ≡ Some f) }
    ensures rule { result ≡ Err ReadFault.Memory → ⊥ }
{
    if bytes.len() < 4 {
        return Err(ReadFault::Short(bytes.len() as u64));
    }
    let end = 4 + u32_at(bytes, 0) as usize;
    if bytes.len() < end {
        return Err(ReadFault::OutOfBounds(0));
    }
    if bytes.len() > end {
        return Err(ReadFault::OutOfBounds(end as u64));
    }
    Ok(())
}

/// Checks the rules of a buffer's front.
#[tactic(auto, unfolding(fb_value::specs::Holds::header_fault, fb_value::specs::Holds::prefixed_fault))]
pub fn check_front(
    bytes: &[u8],
    identifier: Option<[u8; 4]>,
    prefixed: bool,
) -> Result<(), ReadFault>
    ensures rules { MatchResult result
        (λ _. front_fault prefixed bytes.now identifier ≡ None)
        (λ f. front_fault prefixed bytes.now identifier ≡ Some f) }
    ensures short { OnOk result (length bytes.now < 2 ^ 31) }
    ensures long { OnOk result (front_of prefixed + 4 ≤ length bytes.now) }
    ensures rule { result ≡ Err ReadFault.Memory → ⊥ }
{
    if !prefixed {
        return check_header(bytes, 0, identifier);
    }
    check_prefix(bytes)?;
    check_header(bytes, 4, identifier)
}

/// The identifier that is checked.
pub fn identifier_of(layout: &Layout, raw: bool) -> Option<[u8; 4]>
    ensures { result ≡ checked_identifier layout.now raw }
{
    if raw {
        None
    } else {
        layout.schema().identifier()
    }
}

impl<'a> Buffer<'a> {
    /// A buffer with a front that keeps its rules: the header, and the size prefix before it where it is `prefixed`.
    ///
    /// `raw` skips the file identifier check.
    #[inline(always)]
    #[tactic(auto, using(crate::proofs::buffer::AlignmentsArePositive::layout_sizes))]
    pub fn checked(
        layout: &'a Layout,
        bytes: &'a [u8],
        limits: Limits,
        raw: bool,
        prefixed: bool,
    ) -> Result<Buffer<'a>, ReadFault>
        ensures front { MatchResult result
            (λ _. front_fault prefixed bytes.now (checked_identifier layout.now raw) ≡ None)
            (λ f. front_fault prefixed bytes.now (checked_identifier layout.now raw) ≡ Some f) }
        ensures buffer { IfOk result (IsBufferOf layout.now bytes.now limits) }
        ensures long { IfOk result (λ _. front_of prefixed + 4 ≤ length bytes.now) }
        ensures rule { result ≡ Err ReadFault.Memory → ⊥ }
    {
        layout_is_well_made(layout);
        check_front(bytes, identifier_of(layout, raw), prefixed)?;
        Ok(Buffer {
            layout,
            bytes,
            most_depth: limits.most_depth(),
            most_cells: limits.most_cells(),
        })
    }
}
