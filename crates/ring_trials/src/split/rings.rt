//! Split rings of drawn fields.
ghost use Rattle.std.specs.Prelude.{◌<◌, ◌^◌};

use crate::draws::{BEGIN, INDIRECT, Image, Numbers, draw_fields};
use virtio_queue::{DriverQueue, Queue, QueueError};
use vm_memory_base::GuestAddress;

/// A ring: its size, and where its indices begin. Its areas lie where memory begins.
#[derive(Clone, Copy)]
pub struct Setup {
    pub size: u16,
    pub start: u16,
    pub avail_ring: u64,
}

impl Setup {
    /// The device's half.
    pub fn queue(&self) -> Result<Queue, QueueError> {
        let mut queue = DriverQueue::new(GuestAddress(BEGIN), self.size)?.queue()?;
        queue.set_next_avail(self.start);
        Ok(queue)
    }
}

// An index: mostly below a length, or just past it.
fn index(numbers: &mut Numbers, len: u64) -> u64
    requires { len < 2 ^ 32 }
{
    match numbers.below(64) {
        0 => len + numbers.below(2),
        1 => 65535 - numbers.below(2),
        _ => numbers.below(len),
    }
}

// Puts a descriptor of a table of `len`, of which one in a given number is indirect.
fn put_descriptor(numbers: &mut Numbers, image: &mut Image, at: u64, len: u64, indirect: u64)
    requires { len < 2 ^ 32 }
{
    let drawn = draw_fields(numbers, indirect);
    image.put(at, drawn.addr, 8);
    image.put(at.wrapping_add(8), drawn.len, 4);
    image.put(at.wrapping_add(12), drawn.flags, 2);
    image.put(at.wrapping_add(14), index(numbers, len), 2);
}

/// Writes a ring: its descriptors, its heads and its index.
pub fn write(numbers: &mut Numbers, image: &mut Image) -> Setup {
    let size = 1u64 << numbers.below(5);
    let start = match numbers.below(3) {
        0 => 65535 - numbers.below(8),
        1 => numbers.below(8),
        _ => numbers.below(65536),
    };
    let avail_ring = BEGIN + 16 * size;
    for i in 0..size {
        put_descriptor(numbers, image, BEGIN.wrapping_add(16 * i), size, 9);
        let slot = avail_ring.wrapping_add(4).wrapping_add(2 * i);
        image.put(slot, index(numbers, size), 2);
    }
    for i in 0..8u64 {
        let len = 1 + numbers.below(5);
        put_descriptor(numbers, image, INDIRECT.wrapping_add(16 * i), len, 24);
    }
    let ahead = match numbers.below(32) {
        0 => numbers.below(65536),
        1 => 0,
        2 => size + 1,
        _ => numbers.below(size + 1),
    };
    image.put(
        avail_ring.wrapping_add(2),
        start.wrapping_add(ahead) & 0xffff,
        2,
    );
    Setup {
        size: size as u16,
        start: start as u16,
        avail_ring,
    }
}
