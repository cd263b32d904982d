//! Pops chains of packed rings as split.rt does. Then it returns chains in every order of four, in rings of many sizes,
//! and counts those of which the driver learned; and chains of up to as many descriptors as a ring or a table has.

mod orders;
mod rings;
mod slow;

use crate::draws::{BEGIN, Image, Numbers, SIZE};
use crate::ends::{RINGS, count, name_of, print, put};
use anyhow::bail;
use rings::Setup;
use slow::Outcome;
use std::alloc::Global;
use virtio_queue::{PackedBuffer, PackedQueue};
use vm_memory_base::GuestAddress;
use vm_memory_guest::{Bytes, GuestMemoryMmap, HostMemory};

// The ways in which a ring can end, by their names.
const ENDS: [&str; 13] = [
    "chain",
    "chain not returned",
    "none",
    "DescriptorLoop",
    "IndirectWithNext",
    "InvalidIndirectTable",
    "InvalidChain order",
    "InvalidChain length",
    "InvalidChain range",
    "GuestMemory",
    "AddressOverflow",
    "Memory",
    "other",
];

// Whether the slot that is used next has these bytes after a chain was returned, or none of it could be written.
fn is_returned(
    memory: &GuestMemoryMmap,
    host: &mut HostMemory<()>,
    image: &Image,
    setup: &Setup,
    queue: &mut PackedQueue,
    buffer: PackedBuffer,
) -> anyhow::Result<&'static str> {
    if !host.holds(memory) {
        bail!("the host does not hold the memory");
    }
    let len = u32::from(buffer.id % 3);
    // Chains that were popped before are returned first, as one.
    let before = PackedBuffer {
        id: 7,
        slots: setup.out,
    };
    if setup.out > 0 && queue.add_used(memory, host, before, 1).is_err() {
        return Ok("chain not returned");
    }
    if !host.holds(memory) || queue.add_used(memory, host, buffer, len).is_err() {
        return Ok("chain not returned");
    }
    let state = queue.state();
    if state.next_used != state.next_avail {
        bail!("a slot is left");
    }
    let at = setup.ring.wrapping_add(16 * u64::from(setup.avail.slot));
    let mut bytes = [0; 16];
    if !host.holds(memory) {
        bail!("the host does not hold the memory");
    }
    memory.read_slice(host, &mut bytes, GuestAddress(at))?;
    let wanted = slow::used_bytes(image, at, buffer.id, setup.avail.wrap, len);
    if bytes != wanted {
        bail!("a used slot has other bytes");
    }
    Ok("chain")
}

// How a ring ends, if a queue and the slow reading agree.
fn end_of(
    alloc: Global,
    memory: &GuestMemoryMmap,
    host: &mut HostMemory<()>,
    image: &Image,
    setup: &Setup,
) -> anyhow::Result<&'static str> {
    let mut queue = setup.queue()?;
    if !host.holds(memory) {
        bail!("the host does not hold the memory");
    }
    let answer = queue.pop_descriptor_chain(alloc, memory, host);
    let stands = queue.state().next_avail;
    match (slow::popped(alloc, image, setup)?, answer) {
        (Outcome::Nothing, Ok(None)) => {
            if stands != setup.avail {
                bail!("the device moved on with no chain");
            }
            Ok("none")
        }
        (Outcome::Refused(name), Err(error)) => {
            if stands != setup.avail || name != name_of(&error) {
                bail!("another refusal");
            }
            Ok(name)
        }
        (Outcome::Chain(id, slots, segments), Ok(Some((buffer, chain)))) => {
            if stands != slow::steps(setup.size, setup.avail, slots) {
                bail!("the device stands elsewhere");
            }
            if buffer != (PackedBuffer { id, slots }) || chain.segments() != segments.as_slice() {
                bail!("another chain");
            }
            is_returned(memory, host, image, setup, &mut queue, buffer)
        }
        _ => bail!("the queue and the slow reading differ"),
    }
}

// Counts how rings end.
fn try_all(
    alloc: Global,
    host: &mut HostMemory<()>,
    memory: &GuestMemoryMmap,
    counts: &mut [u64; 13],
) -> anyhow::Result<()> {
    let mut numbers = Numbers::new(1);
    let mut image = Image::new(alloc)?;
    for _ in 0..RINGS {
        let setup = rings::write(&mut numbers, &mut image);
        put(host, memory, &image)?;
        let end = end_of(alloc, memory, host, &image, &setup)?;
        count(&ENDS, counts, end)?;
    }
    Ok(())
}

/// Tries packed rings, and prints how many ended in each way, and then how many chains and events went as they should.
pub fn run(rt: &impl Print, alloc: Global) -> anyhow::Result<()> {
    let mut host = HostMemory::new(alloc);
    let ranges = [(GuestAddress(BEGIN), SIZE)];
    let memory = GuestMemoryMmap::from_ranges(alloc, &mut host, &ranges)?;
    let mut counts = [0; 13];
    try_all(alloc, &mut host, &memory, &mut counts)?;
    println!(rt; "packed rings")?;
    print(rt, &ENDS, &counts)?;
    for size in orders::SIZES {
        let count = orders::all(alloc, size)?;
        println!(rt; "size {size}: {count} chains in every order")?;
    }
    let (chains, tables) = orders::long(alloc)?;
    println!(rt; "{chains} chains of many slots, {tables} of many rows")?;
    let events = orders::events(alloc)?;
    println!(rt; "{events} events")?;
    Ok(())
}
