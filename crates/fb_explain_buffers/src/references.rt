//! The offset in a buffer by which a path leads to its place.
use fb_read::Step;

fn number_at(bytes: &[u8], at: usize) -> Option<[u8; 4]> {
    bytes.get(at..)?.first_chunk::<4>().copied()
}

/// The position of what a table has in a slot.
fn slot_position(bytes: &[u8], table: usize, slot: u16) -> Option<usize> {
    let back = i64::from(i32::from_le_bytes(number_at(bytes, table)?));
    let vtable = i64::try_from(table).ok()?.checked_sub(back)?;
    let entry = usize::try_from(vtable)
        .ok()?
        .checked_add(4 + 2 * usize::from(slot))?;
    match bytes.get(entry..)? {
        [low, high, ..] => table.checked_add(usize::from(u16::from_le_bytes([*low, *high]))),
        _ => None,
    }
}

/// The position that a step leads to.
fn position_after(bytes: &[u8], at: usize, step: Step) -> Option<usize> {
    match step {
        Step::Reference => at.checked_add(u32::from_le_bytes(number_at(bytes, at)?) as usize),
        Step::Slot(_, slot) => slot_position(bytes, at, slot),
        Step::Element(index) => at
            .checked_add(4)?
            .checked_add((index as usize).checked_mul(4)?),
    }
}

/// The position of the offset that is a path's last step, from that of the root's; `None` if another step is the last.
pub(crate) fn last_reference(bytes: &[u8], root: usize, steps: &[Step]) -> Option<usize> {
    let [before @ .., Step::Reference] = steps else {
        return None;
    };
    let mut at = root;
    for step in before {
        at = position_after(bytes, at, *step)?;
    }
    Some(at)
}
