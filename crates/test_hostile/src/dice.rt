//! Numbers that look random, and buffers that are damaged by them.

/// Bytes that sizes, offsets and codes turn at.
const EDGES: [u8; 10] = [0, 1, 2, 3, 4, 8, 127, 128, 254, 255];

/// Numbers that look random; the same seed gives the same ones.
#[derive(Drop)]
pub(crate) struct Dice {
    state: u64,
}

impl Dice {
    pub(crate) fn new(seed: u64) -> Dice {
        Dice { state: seed }
    }

    /// A number below `count`; 0 where there is none.
    fn below(&mut self, count: usize) -> usize {
        let next = self.state.wrapping_mul(6_364_136_223_846_793_005);
        self.state = next.wrapping_add(1_442_695_040_888_963_407);
        let drawn = (self.state >> 33) as usize;
        if count == 0 { 0 } else { drawn % count }
    }

    fn byte(&mut self) -> u8 {
        (self.below(256) & 0xff) as u8
    }

    fn edge(&mut self) -> u8 {
        let place = self.below(EDGES.len());
        EDGES.get(place).copied().unwrap_or(0)
    }

    /// Changes one byte, copies four bytes elsewhere or cuts the end off.
    fn change(&mut self, bytes: &mut Vec<u8>) {
        let place = self.below(bytes.len());
        let by = match self.below(16) {
            0 => {
                bytes.truncate(place);
                return;
            }
            1..=4 => self.edge(),
            5..=7 => self.byte(),
            8 | 9 => byte_at(bytes, place).wrapping_add(1),
            10 | 11 => byte_at(bytes, place).wrapping_sub(1),
            _ => {
                let from = self.below(bytes.len());
                copy_word(bytes, from & !3, place & !3);
                return;
            }
        };
        set_byte(bytes, place, by);
    }

    /// Damages a buffer in up to four places.
    pub(crate) fn damage(&mut self, bytes: &mut Vec<u8>) {
        for _ in 0..self.below(4) {
            self.change(bytes);
        }
        self.change(bytes);
    }
}

fn byte_at(bytes: &Vec<u8>, place: usize) -> u8 {
    bytes.get(place).copied().unwrap_or(0)
}

fn set_byte(bytes: &mut Vec<u8>, place: usize, by: u8) {
    if let Some(byte) = bytes.get_mut(place) {
        *byte = by;
    }
}

fn copy_word(bytes: &mut Vec<u8>, from: usize, to: usize) {
    for k in 0..4usize {
        let byte = byte_at(bytes, from.saturating_add(k));
        set_byte(bytes, to.saturating_add(k), byte);
    }
}
