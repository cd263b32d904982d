//! Numbers of a fixed sequence, the bytes of memory, and fields of descriptors, mostly near what is right.
ghost use Rattle.std.specs.Prelude.{◌≡◌, ◌⊎◌, ◌<◌};

use std::alloc::{AllocError, Global};
use test_text::next_number;

/// Where memory begins, and how many bytes it has.
pub const BEGIN: u64 = 0x1000;

pub const SIZE: usize = 0x400;

/// Where an indirect table may lie.
pub const INDIRECT: u64 = 0x1200;

// Where segments mostly lie.
const DATA: u64 = 0x1300;

/// Numbers of a fixed sequence.
#[derive(Drop)]
pub struct Numbers {
    state: u64,
}

impl Numbers {
    pub fn new(seed: u64) -> Numbers {
        Numbers { state: seed }
    }

    /// A number below another, or 0 if that is 0.
    pub fn below(&mut self, limit: u64) -> u64
        ensures { (result < limit) ⊎ (result ≡ 0) }
    {
        if limit == 0 {
            return 0;
        }
        next_number(&mut self.state) % limit
    }

    /// Whether one number in `many` is drawn.
    pub fn one_in(&mut self, many: u64) -> bool {
        self.below(many) == 0
    }
}

/// The bytes of all memory.
#[derive(Drop)]
pub struct Image {
    bytes: Vec<u8>,
}

impl Image {
    /// Bytes that depend on their place.
    pub fn new(alloc: Global) -> Result<Image, AllocError> {
        let bytes: Vec<u8> = (0..SIZE).map(|i| (i * 7 % 251) as u8).collect(alloc)?;
        Ok(Image { bytes })
    }

    pub fn as_slice(&self) -> &[u8] {
        self.bytes.as_slice()
    }

    /// The byte at an address, if there is one.
    pub fn byte(&self, addr: u64) -> Option<u8> {
        let offset = addr.checked_sub(BEGIN)?;
        self.bytes.get(offset as usize).copied()
    }

    /// Puts the lowest bytes of a number at an address.
    pub fn put(&mut self, addr: u64, value: u64, count: u64) {
        let mut rest = value;
        for i in 0..count {
            let offset = addr.wrapping_add(i).wrapping_sub(BEGIN);
            if let Some(byte) = self.bytes.get_mut(offset as usize) {
                *byte = (rest & 0xff) as u8;
            }
            rest >>= 8;
        }
    }
}

// Where a segment lies: mostly in memory, or at its end, or at the greatest addresses.
fn segment_addr(numbers: &mut Numbers) -> u64 {
    match numbers.below(24) {
        0 => u64::MAX - numbers.below(32),
        1 => BEGIN + SIZE as u64 - numbers.below(32),
        _ => DATA + numbers.below(0xc0),
    }
}

// Where an indirect table lies: mostly where descriptors are, or at the end of memory, or at the greatest addresses.
fn table_addr(numbers: &mut Numbers) -> u64 {
    match numbers.below(24) {
        0 => u64::MAX - numbers.below(24),
        1 => BEGIN + SIZE as u64 - numbers.below(48),
        2 => segment_addr(numbers),
        _ => INDIRECT + 8 * numbers.below(8),
    }
}

// How long a segment is: mostly short, or near 2^32.
fn segment_len(numbers: &mut Numbers) -> u64 {
    if numbers.one_in(24) {
        return 0xffff_ffff - numbers.below(4);
    }
    numbers.below(16)
}

// The length of an indirect table: mostly some descriptors.
fn indirect_len(numbers: &mut Numbers) -> u64 {
    match numbers.below(12) {
        0 => numbers.below(80),
        1 => 0x10_0000 - 16 + 8 * numbers.below(4),
        _ => 16 + 16 * numbers.below(5),
    }
}

/// The fields that descriptors of both kinds have.
#[derive(Clone, Copy)]
pub struct Fields {
    pub addr: u64,
    pub len: u64,
    pub flags: u64,
}

/// Draws these fields. One descriptor in a given number is indirect.
pub fn draw_fields(numbers: &mut Numbers, indirect: u64) -> Fields {
    let mut flags = 2 * u64::from(numbers.one_in(5)) + u64::from(numbers.below(8) < 4);
    let (mut addr, mut len) = (segment_addr(numbers), segment_len(numbers));
    if numbers.one_in(indirect) {
        flags = (flags & 2) + 4 + u64::from(numbers.one_in(8));
        len = indirect_len(numbers);
        addr = table_addr(numbers);
    }
    if numbers.one_in(64) {
        flags |= 8;
    }
    Fields { addr, len, flags }
}
