//! Packed rings of drawn fields.

use crate::draws::{BEGIN, INDIRECT, Image, Numbers, SIZE, draw_fields};
use virtio_queue::{PackedDriver, PackedQueue, QueueError, RingPosition};
use vm_memory_base::GuestAddress;

/// A ring: where it lies, its size, and where the device stands. The slots of `out` were popped and not returned.
#[derive(Clone, Copy)]
pub struct Setup {
    pub ring: u64,
    pub size: u16,
    pub avail: RingPosition,
    pub used: RingPosition,
    pub out: u16,
}

impl Setup {
    /// The device's half.
    pub fn queue(&self) -> Result<PackedQueue, QueueError> {
        let mut queue = PackedDriver::new(GuestAddress(self.ring), self.size)?.queue()?;
        let base = u32::from(self.avail.to_bits()) + u32::from(self.used.to_bits()) * 0x1_0000;
        queue.set_vring_base(base)?;
        Ok(queue)
    }
}

// Puts a descriptor, of which one in a given number is indirect, with AVAIL and USED as they are drawn.
fn put_descriptor(numbers: &mut Numbers, image: &mut Image, at: u64, indirect: u64) {
    let drawn = draw_fields(numbers, indirect);
    let mut flags = drawn.flags;
    flags |= 0x80 * numbers.below(2);
    flags |= 0x8000 * numbers.below(2);
    image.put(at, drawn.addr, 8);
    image.put(at.wrapping_add(8), drawn.len, 4);
    image.put(at.wrapping_add(12), numbers.below(65536), 2);
    image.put(at.wrapping_add(14), flags, 2);
}

// The position `count` slots before another. The count is at most the size.
fn back(size: u64, position: RingPosition, count: u64) -> RingPosition {
    let mut slot = u64::from(position.slot);
    let mut wrap = position.wrap;
    for _ in 0..count {
        if slot == 0 {
            slot = size;
            wrap = !wrap;
        }
        slot = slot.wrapping_sub(1);
    }
    RingPosition {
        slot: (slot & 0xffff) as u16,
        wrap,
    }
}

/// Writes a ring: its descriptors, of which the one that is popped next is mostly available.
pub fn write(numbers: &mut Numbers, image: &mut Image) -> Setup {
    let size = 1 + numbers.below(20);
    let ring = if numbers.one_in(40) {
        BEGIN + SIZE as u64 - 16 * numbers.below(20)
    } else {
        BEGIN
    };
    let avail = RingPosition {
        slot: numbers.below(size) as u16,
        wrap: numbers.one_in(2),
    };
    let out = if numbers.one_in(3) {
        numbers.below(size + 1)
    } else {
        0
    };
    for i in 0..size {
        put_descriptor(numbers, image, ring.wrapping_add(16 * i), 9);
    }
    for i in 0..8u64 {
        put_descriptor(numbers, image, INDIRECT.wrapping_add(16 * i), 24);
    }
    if !numbers.one_in(4) {
        let at = ring.wrapping_add(16 * u64::from(avail.slot));
        let low = u64::from(image.byte(at.wrapping_add(14)).unwrap_or(0)) & 0x7f;
        let marks = if avail.wrap { 0x80 } else { 0x8000 };
        image.put(at.wrapping_add(14), low + marks, 2);
    }
    Setup {
        ring,
        size: size as u16,
        avail,
        used: back(size, avail, out),
        out: out as u16,
    }
}
