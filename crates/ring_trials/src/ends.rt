//! What the trials of both kinds share: how many rings there are, the names of the ways in which they end, and counts.

use crate::draws::{BEGIN, Image};
use anyhow::{Context, bail};
use virtio_queue::QueueError;
use vm_memory_base::GuestAddress;
use vm_memory_device::ChainFault;
use vm_memory_guest::{Bytes, GuestMemoryMmap, HostMemory};

/// The rings of each kind.
pub const RINGS: u64 = 1_000_000;

/// The name of an error.
pub fn name_of(error: &QueueError) -> &'static str {
    match error {
        QueueError::InvalidAvailRingIndex => "InvalidAvailRingIndex",
        QueueError::InvalidDescriptorIndex => "InvalidDescriptorIndex",
        QueueError::DescriptorLoop => "DescriptorLoop",
        QueueError::IndirectWithNext => "IndirectWithNext",
        QueueError::NestedIndirect => "NestedIndirect",
        QueueError::InvalidIndirectTable => "InvalidIndirectTable",
        QueueError::InvalidChain(ChainFault::Order) => "InvalidChain order",
        QueueError::InvalidChain(ChainFault::TooLong) => "InvalidChain length",
        QueueError::InvalidChain(ChainFault::Range) => "InvalidChain range",
        QueueError::GuestMemory(_) => "GuestMemory",
        QueueError::AddressOverflow => "AddressOverflow",
        QueueError::Memory => "Memory",
        _ => "other",
    }
}

/// Puts the bytes of a ring into memory.
pub fn put(
    host: &mut HostMemory<()>,
    memory: &GuestMemoryMmap,
    image: &Image,
) -> anyhow::Result<()> {
    if !host.holds(memory) {
        bail!("the host does not hold the memory");
    }
    memory.write_slice(host, image.as_slice(), GuestAddress(BEGIN))?;
    Ok(())
}

/// Counts that a ring ended in a way, by its name.
pub fn count(ends: &[&'static str], counts: &mut [u64], end: &'static str) -> anyhow::Result<()> {
    let place = ends.iter().position(|name| *name == end);
    let place = place.context("each end has a name")?;
    if let Some(count) = counts.get_mut(place) {
        *count = count.wrapping_add(1);
    }
    Ok(())
}

/// Prints how many rings ended in each way.
pub fn print(rt: &impl Print, ends: &[&'static str], counts: &[u64]) -> anyhow::Result<()> {
    for (name, count) in ends.iter().zip(counts.iter()) {
        println!(rt; "{name} {count}")?;
    }
    Ok(())
}
