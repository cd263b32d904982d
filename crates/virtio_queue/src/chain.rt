//! Chains: what following `next` from a head gives.
ghost use Rattle.std.specs.Prelude.{◌≡◌, Ok, [], Result};
ghost use Rattle.virtio_queue.specs.Available.{indirect_len};
ghost use Rattle.virtio_queue.specs.Looks.{Follows};
ghost use Rattle.virtio_queue.specs.Popping.{chain_from, following, segments_from, table_after};
ghost use Rattle.virtio_queue.specs.Rings.{and_then};

use crate::descriptor::Descriptor;
use crate::error::QueueError;
use crate::looks::Looks;
use crate::state::QueueState;
use std::alloc::Global;
use std::mem;
use vm_memory_device::{Chain, Segment};

// Follows `next` from an index in a table of `len` descriptors, and appends the segments of direct ones. Returns the
// indirect descriptor that ends them, if one does.
#[inline(always)]
fn follow<L: Looks>(
    looks: &mut L,
    table: u64,
    len: u16,
    first: u16,
    segments: &mut Vec<Segment>,
) -> Result<Option<Descriptor>, QueueError>
    ensures { Follows L.looks (following table len len segments.old.items first) looks.old
        (and_then result (λ end. Ok (record { segments = segments.new.items; indirect = end }))) looks.new }
{
    let mut index = first;
    for _step in 0..len {
        if index >= len {
            return Err(QueueError::InvalidDescriptorIndex);
        }
        let descriptor = looks.row(table, index)?;
        if descriptor.refers_to_indirect_table() {
            return Ok(Some(descriptor));
        }
        if segments.push(descriptor.segment()).is_err() {
            return Err(QueueError::Memory);
        }
        if !descriptor.has_next() {
            return Ok(None);
        }
        index = descriptor.next;
    }
    if index >= len {
        return Err(QueueError::InvalidDescriptorIndex);
    }
    Err(QueueError::DescriptorLoop)
}

// How many descriptors an indirect table has.
pub(crate) fn indirect_len(descriptor: &Descriptor) -> Result<u16, QueueError>
    ensures { result ≡ indirect_len descriptor.now }
{
    if descriptor.has_next() {
        return Err(QueueError::IndirectWithNext);
    }
    if descriptor.len == 0 || descriptor.len % 16 != 0 || descriptor.len / 16 > 0xffff {
        return Err(QueueError::InvalidIndirectTable);
    }
    Ok((descriptor.len / 16) as u16)
}

// Adds the segments of an indirect table.
#[inline(always)]
fn follow_indirect<L: Looks>(
    looks: &mut L,
    descriptor: &Descriptor,
    segments: &mut Vec<Segment>,
) -> Result<(), QueueError>
    ensures { Follows L.looks (table_after segments.old.items descriptor.now) looks.old
        (and_then result (λ _. Ok segments.new.items)) looks.new }
{
    let len = indirect_len(descriptor)?;
    match follow(looks, descriptor.addr, len, 0, segments)? {
        None => Ok(()),
        Some(_) => Err(QueueError::NestedIndirect),
    }
}

// Puts the segments of the chain of a head in place of those of a list.
#[inline(always)]
fn put_segments<L: Looks>(
    segments: &mut Vec<Segment>,
    looks: &mut L,
    state: &QueueState,
    head: u16,
) -> Result<(), QueueError>
    ensures { Follows L.looks (segments_from state.now head) looks.old
        (and_then result (λ _. Ok segments.new.items)) looks.new }
{
    segments.clear();
    let table = state.desc_table;
    let Some(descriptor) = follow(looks, table, state.size, head, segments)? else {
        return Ok(());
    };
    follow_indirect(looks, &descriptor, segments)?;
    Ok(())
}

// The chain of a head, which takes the list.
#[inline(always)]
pub(crate) fn chain_at<L: Looks>(
    alloc: Global,
    list: &mut Vec<Segment>,
    looks: &mut L,
    state: &QueueState,
    head: u16,
) -> Result<Chain, QueueError>
    ensures { Follows L.looks (chain_from state.now head) looks.old result looks.new }
{
    put_segments(list, looks, state, head)?;
    match Chain::new(mem::replace(list, Vec::new(alloc))) {
        Ok(chain) => Ok(chain),
        Err(fault) => Err(QueueError::InvalidChain(fault)),
    }
}
