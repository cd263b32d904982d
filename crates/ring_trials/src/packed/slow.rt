//! A slow reading of a packed ring, byte by byte, written apart from the queue.

use super::rings::Setup;
use crate::draws::Image;
use crate::reading::{fault_of, number};
use std::alloc::{AllocError, Global};
use virtio_queue::RingPosition;
use vm_memory_base::GuestAddress;
use vm_memory_device::Segment;

/// What a ring holds for a queue that pops: of a chain its id, how many slots it takes, and its segments.
#[derive(Drop)]
pub enum Outcome {
    Nothing,
    Chain(u16, u16, Vec<Segment>),
    Refused(&'static str),
}

// A descriptor.
#[derive(Clone, Copy)]
struct Descriptor {
    addr: u64,
    len: u64,
    id: u64,
    flags: u64,
}

impl Descriptor {
    fn segment(&self) -> Segment {
        Segment {
            addr: GuestAddress(self.addr),
            len: (self.len & 0xffff_ffff) as u32,
            writable: self.flags / 2 % 2 == 1,
        }
    }
}

// The descriptor at an address, or why it cannot be read.
fn descriptor_at(image: &Image, table: u64, index: u64) -> Result<Descriptor, &'static str> {
    let Some(at) = table.checked_add(index.wrapping_mul(16)) else {
        return Err("AddressOverflow");
    };
    if at > u64::MAX - 15 {
        return Err("AddressOverflow");
    }
    Ok(Descriptor {
        addr: number(image, at, 8)?,
        len: number(image, at.wrapping_add(8), 4)?,
        id: number(image, at.wrapping_add(12), 2)?,
        flags: number(image, at.wrapping_add(14), 2)?,
    })
}

// Adds the segments of an indirect table, or says what is wrong with it.
fn add_table(
    image: &Image,
    table: &Descriptor,
    segments: &mut Vec<Segment>,
) -> Result<Option<&'static str>, AllocError> {
    if table.flags % 2 == 1 {
        return Ok(Some("IndirectWithNext"));
    }
    if table.len == 0 || table.len % 16 > 0 || table.len > 16 * 65535 {
        return Ok(Some("InvalidIndirectTable"));
    }
    for index in 0..table.len / 16 {
        match descriptor_at(image, table.addr, index) {
            Ok(descriptor) => segments.push(descriptor.segment())?,
            Err(name) => return Ok(Some(name)),
        }
    }
    Ok(None)
}

// What the slots hold from the next one on.
fn chain(alloc: Global, image: &Image, setup: &Setup) -> Result<Outcome, AllocError> {
    let mut segments = Vec::new(alloc);
    let mut slot = u64::from(setup.avail.slot);
    let size = u64::from(setup.size);
    for count in 1..=size {
        if count + u64::from(setup.out) > size {
            break;
        }
        let descriptor = match descriptor_at(image, setup.ring, slot) {
            Ok(descriptor) => descriptor,
            Err(name) => return Ok(Outcome::Refused(name)),
        };
        if descriptor.flags / 4 % 2 == 1 {
            if let Some(name) = add_table(image, &descriptor, &mut segments)? {
                return Ok(Outcome::Refused(name));
            }
        } else {
            segments.push(descriptor.segment())?;
        }
        if descriptor.flags / 4 % 2 == 1 || descriptor.flags % 2 == 0 {
            if let Some(name) = fault_of(segments.as_slice()) {
                return Ok(Outcome::Refused(name));
            }
            let id = (descriptor.id & 0xffff) as u16;
            return Ok(Outcome::Chain(id, count as u16, segments));
        }
        slot = slot.wrapping_add(1);
        if slot == size {
            slot = 0;
        }
    }
    Ok(Outcome::Refused("DescriptorLoop"))
}

/// What a ring holds for a queue that pops.
pub fn popped(alloc: Global, image: &Image, setup: &Setup) -> Result<Outcome, AllocError> {
    let at = setup.ring.wrapping_add(16 * u64::from(setup.avail.slot));
    let flags = match number(image, at.wrapping_add(14), 2) {
        Ok(flags) => flags,
        Err(name) => return Ok(Outcome::Refused(name)),
    };
    let (avail, used) = (flags / 0x80 % 2, flags / 0x8000);
    let counter = u64::from(setup.avail.wrap);
    if avail != counter || used == counter {
        return Ok(Outcome::Nothing);
    }
    chain(alloc, image, setup)
}

/// The position after `count` steps from slot to slot.
pub fn steps(size: u16, position: RingPosition, count: u16) -> RingPosition {
    let mut place = position;
    for _ in 0..count {
        place.slot = place.slot.wrapping_add(1);
        if place.slot == size {
            place.slot = 0;
            place.wrap = !place.wrap;
        }
    }
    place
}

/// Whether an event is at one of the `count` positions from `from` on, step by step.
pub fn is_passed(size: u16, from: RingPosition, count: u16, event: RingPosition) -> bool {
    let mut place = from;
    for _ in 0..count {
        if place == event {
            return true;
        }
        place = steps(size, place, 1);
    }
    false
}

/// The 16 bytes of a slot after a chain of this id was returned in it.
pub fn used_bytes(image: &Image, at: u64, id: u16, wrap: bool, len: u32) -> [u8; 16] {
    let mut bytes = [0u8; 16];
    for (i, byte) in bytes.iter_mut().enumerate() {
        *byte = image.byte(at.wrapping_add(i as u64)).unwrap_or(0);
    }
    for (place, byte) in bytes[8..12].iter_mut().zip(len.to_le_bytes()) {
        *place = byte;
    }
    for (place, byte) in bytes[12..14].iter_mut().zip(id.to_le_bytes()) {
        *place = byte;
    }
    let (low, high) = if wrap { (0x80, 0x80) } else { (0, 0) };
    bytes[14] = low + if len > 0 { 2 } else { 0 };
    bytes[15] = high;
    bytes
}
