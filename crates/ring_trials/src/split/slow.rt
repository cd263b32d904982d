//! A slow reading of a ring, byte by byte, written apart from the queue.

use super::rings::Setup;
use crate::draws::{BEGIN, Image};
use crate::reading::{fault_of, number};
use std::alloc::{AllocError, Global};
use vm_memory_base::GuestAddress;
use vm_memory_device::Segment;

/// What a ring holds for a queue that pops.
#[derive(Drop)]
pub enum Outcome {
    Nothing,
    Chain(u16, Vec<Segment>),
    Refused(&'static str),
}

// A table that is followed: where it lies, its length, and which of its descriptors were seen.
#[derive(Drop)]
struct Table {
    addr: u64,
    len: u64,
    seen: Vec<u64>,
    inner: bool,
}

// What one descriptor leads to.
enum Step {
    Next(u64),
    Last,
    Into(u64, u64),
    Refused(&'static str),
}

// A descriptor of a table.
#[derive(Clone, Copy)]
struct Descriptor {
    addr: u64,
    len: u64,
    flags: u64,
    next: u64,
}

// The descriptor of an index, or why the table has none.
fn descriptor_at(image: &Image, table: &Table, index: u64) -> Result<Descriptor, &'static str> {
    if index >= table.len {
        return Err("InvalidDescriptorIndex");
    }
    if table.seen.iter().any(|i| *i == index) {
        return Err("DescriptorLoop");
    }
    let Some(at) = table.addr.checked_add(index.wrapping_mul(16)) else {
        return Err("AddressOverflow");
    };
    if at > u64::MAX - 15 {
        return Err("AddressOverflow");
    }
    Ok(Descriptor {
        addr: number(image, at, 8)?,
        len: number(image, at.wrapping_add(8), 4)?,
        flags: number(image, at.wrapping_add(12), 2)?,
        next: number(image, at.wrapping_add(14), 2)?,
    })
}

fn met(
    image: &Image,
    table: &Table,
    index: u64,
    segments: &mut Vec<Segment>,
) -> Result<Step, AllocError> {
    let Descriptor {
        addr,
        len,
        flags,
        next,
    } = match descriptor_at(image, table, index) {
        Ok(descriptor) => descriptor,
        Err(name) => return Ok(Step::Refused(name)),
    };
    let (has_next, writes, indirect) = (flags % 2 == 1, flags / 2 % 2 == 1, flags / 4 % 2 == 1);
    if indirect && table.inner {
        return Ok(Step::Refused("NestedIndirect"));
    }
    if indirect && has_next {
        return Ok(Step::Refused("IndirectWithNext"));
    }
    if indirect && (len == 0 || len % 16 > 0 || len > 16 * 65535) {
        return Ok(Step::Refused("InvalidIndirectTable"));
    }
    if indirect {
        return Ok(Step::Into(addr, len / 16));
    }
    segments.push(Segment {
        addr: GuestAddress(addr),
        len: (len & 0xffff_ffff) as u32,
        writable: writes,
    })?;
    Ok(if has_next {
        Step::Next(next)
    } else {
        Step::Last
    })
}

// The chain of a head.
fn chain(alloc: Global, image: &Image, setup: &Setup, head: u64) -> Result<Outcome, AllocError> {
    let mut segments = Vec::new(alloc);
    let mut table = Table {
        addr: BEGIN,
        len: u64::from(setup.size),
        seen: Vec::new(alloc),
        inner: false,
    };
    let mut index = head;
    for _ in 0..200_000u64 {
        match met(image, &table, index, &mut segments)? {
            Step::Next(next) => {
                table.seen.push(index)?;
                index = next;
            }
            Step::Last => break,
            Step::Into(addr, len) => {
                table = Table {
                    addr,
                    len,
                    seen: Vec::new(alloc),
                    inner: true,
                };
                index = 0;
            }
            Step::Refused(name) => return Ok(Outcome::Refused(name)),
        }
    }
    if let Some(name) = fault_of(segments.as_slice()) {
        return Ok(Outcome::Refused(name));
    }
    Ok(Outcome::Chain((head & 0xffff) as u16, segments))
}

/// What a ring holds for a queue that pops.
pub fn popped(alloc: Global, image: &Image, setup: &Setup) -> Result<Outcome, AllocError> {
    let index = match number(image, setup.avail_ring.wrapping_add(2), 2) {
        Ok(index) => index,
        Err(name) => return Ok(Outcome::Refused(name)),
    };
    let start = u64::from(setup.start);
    let size = u64::from(setup.size);
    // How many heads are there: the index counts modulo 65536.
    let mut ahead = 65536;
    for count in 0..=size {
        if ahead > size && (start + count) % 65536 == index {
            ahead = count;
        }
    }
    if ahead == 0 {
        return Ok(Outcome::Nothing);
    }
    if ahead > size {
        return Ok(Outcome::Refused("InvalidAvailRingIndex"));
    }
    // A size is a power of two, so the lowest bits of an index are its slot.
    let slot = start & size.wrapping_sub(1);
    let at = setup.avail_ring.wrapping_add(4).wrapping_add(2 * slot);
    match number(image, at, 2) {
        Ok(head) => chain(alloc, image, setup, head),
        Err(name) => Ok(Outcome::Refused(name)),
    }
}

/// Puts the first bytes that can be read of segments into a buffer, up to the first that is not there. It returns how
/// many these are, and whether any was wanted.
pub fn readable_bytes(image: &Image, segments: &[Segment], buffer: &mut [u8; 64]) -> (usize, bool) {
    let mut count = 0usize;
    let mut wanted = false;
    for segment in segments {
        if segment.writable {
            break;
        }
        for i in 0..u64::from(segment.len) {
            let Some(place) = buffer.get_mut(count) else {
                return (count, wanted);
            };
            wanted = true;
            let Some(byte) = image.byte(segment.addr.0.wrapping_add(i)) else {
                return (count, wanted);
            };
            *place = byte;
            count = count.wrapping_add(1);
        }
    }
    (count, wanted)
}
