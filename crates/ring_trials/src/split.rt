//! Pops chains of split rings that a hostile driver might have written, and compares each answer with a slow reading of
//! the same bytes, which is written apart.

mod rings;
mod slow;

use crate::draws::{BEGIN, Image, Numbers, SIZE};
use crate::ends::{RINGS, count, name_of, print, put};
use anyhow::bail;
use rings::Setup;
use slow::{Outcome, readable_bytes};
use std::alloc::Global;
use vm_memory_base::GuestAddress;
use vm_memory_device::{Chain, Segment};
use vm_memory_guest::{GuestMemoryMmap, HostMemory};

// The ways in which a ring can end, by their names.
const ENDS: [&str; 15] = [
    "chain",
    "none",
    "InvalidAvailRingIndex",
    "InvalidDescriptorIndex",
    "DescriptorLoop",
    "IndirectWithNext",
    "NestedIndirect",
    "InvalidIndirectTable",
    "InvalidChain order",
    "InvalidChain length",
    "InvalidChain range",
    "GuestMemory",
    "AddressOverflow",
    "Memory",
    "other",
];

// How many bytes segments have that are written, or not.
fn total(segments: &[Segment], writable: bool) -> u64 {
    let mut sum = 0u64;
    for segment in segments {
        if segment.writable == writable {
            sum = sum.wrapping_add(u64::from(segment.len));
        }
    }
    sum
}

// Whether a chain has these segments, as far as its reader and its writer tell.
fn is_chain_of(
    memory: &GuestMemoryMmap,
    host: &HostMemory<()>,
    image: &Image,
    chain: &Chain,
    segments: &[Segment],
) -> bool {
    let mut reader = chain.reader();
    let readable = total(segments, false);
    let writable = total(segments, true);
    if reader.left() as u64 != readable || chain.writer().left() as u64 != writable {
        return false;
    }
    if !host.holds(memory) {
        return false;
    }
    let mut buffer = [0; 64];
    let mut expected = [0; 64];
    let (count, wanted) = readable_bytes(image, segments, &mut expected);
    match reader.read(memory, host, &mut buffer) {
        Ok(read) => read == count && buffer.get(..count) == expected.get(..count),
        Err(_) => count == 0 && wanted,
    }
}

// How a ring ends, if a queue and the slow reading agree.
fn end_of(
    alloc: Global,
    memory: &GuestMemoryMmap,
    host: &HostMemory<()>,
    image: &Image,
    setup: &Setup,
) -> anyhow::Result<Option<&'static str>> {
    let mut queue = setup.queue()?;
    if !host.holds(memory) {
        bail!("the host does not hold the memory");
    }
    let answer = queue.pop_descriptor_chain(alloc, memory, host);
    let moved = queue.next_avail() == setup.start.wrapping_add(1);
    let stayed = queue.next_avail() == setup.start;
    let agrees = match (slow::popped(alloc, image, setup)?, answer) {
        (Outcome::Nothing, Ok(None)) => stayed.then_some("none"),
        (Outcome::Refused(name), Err(error)) => {
            (stayed && name == name_of(&error)).then_some(name)
        }
        (Outcome::Chain(head, segments), Ok(Some((popped, chain)))) => {
            let same = is_chain_of(memory, host, image, &chain, segments.as_slice());
            (moved && head == popped && same).then_some("chain")
        }
        _ => None,
    };
    Ok(agrees)
}

// Counts how rings end.
fn try_all(
    alloc: Global,
    host: &mut HostMemory<()>,
    memory: &GuestMemoryMmap,
    counts: &mut [u64; 15],
) -> anyhow::Result<()> {
    let mut numbers = Numbers::new(1);
    let mut image = Image::new(alloc)?;
    for number in 0..RINGS {
        let setup = rings::write(&mut numbers, &mut image);
        put(host, memory, &image)?;
        let Some(end) = end_of(alloc, memory, host, &image, &setup)? else {
            bail!("ring {number}: the queue and the slow reading differ");
        };
        count(&ENDS, counts, end)?;
    }
    Ok(())
}

/// Tries split rings, and prints how many ended in each way.
pub fn run(rt: &impl Print, alloc: Global) -> anyhow::Result<()> {
    let mut host = HostMemory::new(alloc);
    let ranges = [(GuestAddress(BEGIN), SIZE)];
    let memory = GuestMemoryMmap::from_ranges(alloc, &mut host, &ranges)?;
    let mut counts = [0; 15];
    try_all(alloc, &mut host, &memory, &mut counts)?;
    println!(rt; "split rings")?;
    print(rt, &ENDS, &counts)
}
