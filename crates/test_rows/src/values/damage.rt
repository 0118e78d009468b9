//! What both readers make of a buffer that is damaged: each of its fronts, and each other value of
//! each of its bytes.
use crate::values::Case;
use crate::values::readings::{ReadRefusal, value_in};
use crate::values::texts::is_printed_alike;
use fb_value::ReadFault;
use std::alloc::AllocError;

/// The least number of a reader's fault.
const FIRST_FAULT: u8 = 50;

/// How many damaged buffers still hold a value, how many each fault refuses, the sum of the
/// offsets that the faults name, how many are read in two ways, and how many hold a value and print
/// as something else than its text or the place of its union without a name.
#[derive(Drop)]
struct Damage {
    held: u64,
    refused: [u64; 15],
    offsets: u64,
    apart: u64,
    odd: u64,
}

impl Damage {
    fn none() -> Damage {
        Damage {
            held: 0,
            refused: [0; 15],
            offsets: 0,
            apart: 0,
            odd: 0,
        }
    }

    /// Counts what one damaged buffer is refused with.
    fn refuse(&mut self, fault: ReadFault) {
        let place = usize::from(fault.number().saturating_sub(FIRST_FAULT));
        if let Some(count) = self.refused.get_mut(place) {
            *count = count.saturating_add(1);
        }
        let offset = fault.offset().unwrap_or(0);
        self.offsets = self.offsets.saturating_add(offset);
    }

    /// Reads one damaged buffer, and counts what comes of it.
    fn count(&mut self, case: &Case, bytes: &[u8], raw: bool) {
        match value_in(case, bytes, raw) {
            Ok(value) if is_printed_alike(case, bytes, raw, false, &value) => {
                self.held = self.held.saturating_add(1);
            }
            Ok(_) => self.odd = self.odd.saturating_add(1),
            Err(ReadRefusal::Fault(fault)) => self.refuse(fault),
            Err(ReadRefusal::Apart) => self.apart = self.apart.saturating_add(1),
        }
    }

    /// Every front of a buffer but the whole.
    fn cut(&mut self, case: &Case, bytes: &[u8], raw: bool) {
        for end in 0..bytes.len() {
            self.count(case, &bytes[..end], raw);
        }
    }

    /// Each other value of one byte. Afterwards the byte is as it was.
    fn change(&mut self, case: &Case, bytes: &mut [u8], place: usize, raw: bool) {
        for by in 0..=255u8 {
            let Some(byte) = bytes.get_mut(place) else {
                return;
            };
            *byte = byte.wrapping_add(1);
            if by < 255 {
                self.count(case, bytes, raw);
            }
        }
    }

    fn write_refused(&self, line: &mut String) -> Result<(), AllocError> {
        let mut number = u64::from(FIRST_FAULT);
        for count in &self.refused {
            if *count > 0 {
                write!(line, ", {count} of {number}")?;
            }
            number = number.saturating_add(1);
        }
        Ok(())
    }

    fn write(&self, line: &mut String) -> Result<(), AllocError> {
        write!(line, "{} held", self.held)?;
        self.write_refused(line)?;
        write!(line, ", offsets {}", self.offsets)?;
        if self.apart > 0 {
            write!(line, ", {} that the readers differ on", self.apart)?;
        }
        if self.odd > 0 {
            write!(line, ", {} that print otherwise than their value", self.odd)?;
        }
        Ok(())
    }
}

/// Writes what comes of each damage of a buffer.
pub(crate) fn try_damaged(
    case: &Case,
    bytes: &mut [u8],
    raw: bool,
    line: &mut String,
) -> Result<(), AllocError> {
    let mut damage = Damage::none();
    damage.cut(case, bytes, raw);
    for place in 0..bytes.len() {
        damage.change(case, bytes, place, raw);
    }
    damage.write(line)
}
