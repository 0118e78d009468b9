//! A walk over a text by blocks of 64 bytes: where brackets, commas and colons are, outside strings. The bit tricks are
//! simdjson's (Langdale and Lemire).
ghost use Rattle.std.specs.Prelude.{◌≤◌, length};

use std::simd::prelude::*;

pub(crate) const BLOCK: usize = 64;

const EVEN: u64 = 0x5555_5555_5555_5555;

/// What one block tells the next, and how many brackets are open.
#[derive(Clone, Copy)]
pub(crate) struct BlockWalk {
    pub(crate) is_escaped: bool,
    pub(crate) in_string: bool,
    pub(crate) open: usize,
}

/// What a block has outside the brackets that are opened from the walk's start on, as bits.
#[derive(Clone, Copy)]
pub(crate) struct Outside {
    /// The bytes that are wanted, before the end.
    pub(crate) wanted: u64,
    /// The bracket that closes one which was open before the walk.
    pub(crate) end: Option<usize>,
}

impl Outside {
    /// The first of all these bytes.
    #[inline(always)]
    pub(crate) fn first(self) -> Option<usize> {
        if self.wanted != 0 {
            Some(self.wanted.trailing_zeros() as usize)
        } else {
            self.end
        }
    }
}

/// The lowest `count` bits.
pub(crate) fn lowest(count: usize) -> u64 {
    !u64::MAX.checked_shl(count.min(BLOCK) as u32).unwrap_or(0)
}

#[inline(always)]
fn equal_to(block: u8x64, byte: u8) -> u64 {
    block.simd_eq(u8x64::splat(byte)).to_bitmask()
}

/// The commas of a block.
#[inline(always)]
pub(crate) fn commas(block: u8x64) -> u64 {
    equal_to(block, b',')
}

/// The brackets and braces of a block. Other bytes that are among these, as `y`, aren't outside the strings of a JSON
/// text.
#[inline(always)]
pub(crate) fn brackets(block: u8x64) -> u64 {
    equal_to(block | u8x64::splat(0x26), 0x7f)
}

/// Those of a block that open.
#[inline(always)]
pub(crate) fn opening(block: u8x64) -> u64 {
    equal_to(block | u8x64::splat(0x20), b'{')
}

/// A bit is set where the number of bits up to it, itself counted, is odd.
#[inline(always)]
fn prefix_xor(bits: u64) -> u64 {
    let a = bits ^ (bits << 1);
    let b = a ^ (a << 2);
    let c = b ^ (b << 4);
    let d = c ^ (c << 8);
    let e = d ^ (d << 16);
    e ^ (e << 32)
}

impl BlockWalk {
    /// Where the walk begins.
    pub(crate) const START: BlockWalk = BlockWalk {
        is_escaped: false,
        in_string: false,
        open: 0,
    };

    /// The bytes that follow an odd run of backslashes.
    #[inline(always)]
    fn escaped(&mut self, backslashes: u64) -> u64 {
        let before = self.is_escaped as u64;
        let follows = (backslashes << 1) | before;
        if backslashes & follows == 0 {
            self.is_escaped = backslashes >> 63 == 1;
            return follows;
        }
        let live = backslashes & !before;
        let follows = (live << 1) | before;
        let odd_starts = live & !EVEN & !follows;
        let (even_runs, is_escaped) = odd_starts.overflowing_add(live);
        self.is_escaped = is_escaped;
        (EVEN ^ (even_runs << 1)) & follows
    }

    /// The bytes of a block that are in strings, their opening quotes counted.
    #[inline(always)]
    fn strings(&mut self, block: u8x64) -> u64 {
        let mut quotes = equal_to(block, b'"');
        if quotes == 0 && !self.in_string {
            // No backslash of a JSON text is outside its strings.
            return 0;
        }
        // Whether a backslash is there is sooner seen than where.
        if self.is_escaped || block.simd_eq(u8x64::splat(b'\\')).any() {
            quotes &= !self.escaped(equal_to(block, b'\\'));
        }
        let before = 0u64.wrapping_sub(self.in_string as u64);
        if quotes == 0 {
            return before;
        }
        let inside = prefix_xor(quotes) ^ before;
        self.in_string = inside >> 63 == 1;
        inside
    }

    /// Goes over a block: the bytes that are outside strings.
    #[inline(always)]
    pub(crate) fn outside_strings(&mut self, block: u8x64) -> u64 {
        !self.strings(block)
    }

    /// Goes over a block, up to the byte that closes a bracket which was open before the walk.
    #[inline(always)]
    pub(crate) fn outside(&mut self, block: u8x64, wanted: u8) -> Outside {
        let inside = self.strings(block);
        if inside == u64::MAX {
            return Outside {
                wanted: 0,
                end: None,
            };
        }
        let curly = block | u8x64::splat(0x20);
        let opening = equal_to(curly, b'{') & !inside;
        let closing = equal_to(curly, b'}') & !inside;
        // One bracket stays open throughout, whichever of the others are opened and closed first.
        if (closing.count_ones() as usize) < self.open {
            self.open = self
                .open
                .wrapping_add(opening.count_ones() as usize)
                .wrapping_sub(closing.count_ones() as usize);
            return Outside {
                wanted: 0,
                end: None,
            };
        }
        self.scan_brackets(opening, closing, equal_to(block, wanted) & !inside)
    }

    /// Scans the brackets of a block for those outside the brackets that are opened from here on.
    #[inline(always)]
    fn scan_brackets(&mut self, opening: u64, closing: u64, wanted: u64) -> Outside {
        let mut found = 0;
        let mut live = if self.open == 0 { u64::MAX } else { 0 };
        let mut rest = opening | closing;
        for _ in 0..rest.count_ones() {
            let bit = rest & rest.wrapping_neg();
            let before = bit.wrapping_sub(1);
            if self.open == 0 {
                found |= wanted & live & before;
                live = 0;
            }
            if opening & bit != 0 {
                self.open = self.open.wrapping_add(1);
            } else if self.open == 0 {
                return Outside {
                    wanted: found,
                    end: Some(bit.trailing_zeros() as usize),
                };
            } else {
                self.open = self.open.wrapping_sub(1);
                if self.open == 0 {
                    live = !(bit | before);
                }
            }
            rest ^= bit;
        }
        Outside {
            wanted: found | wanted & live,
            end: None,
        }
    }
}

/// The 64 bytes from `at` on, or those that are left, filled up with spaces.
#[inline(always)]
pub(crate) fn block_at(text: &[u8], at: usize) -> u8x64
    requires { at ≤ length text.now }
{
    if text.len() - at >= BLOCK {
        u8x64::from_slice(&text[at..])
    } else {
        last_block(text, at)
    }
}

/// The bytes that are left from `at` on, filled up with spaces.
#[inline(never)]
pub(crate) fn last_block(text: &[u8], at: usize) -> u8x64
    requires { at ≤ length text.now }
{
    u8x64::load_or(&text[at..], u8x64::splat(b' '))
}
