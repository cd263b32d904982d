//! Chains: what a ring gives from a slot on.
ghost use Rattle.std.specs.Prelude.{◌≡◌, ◌⊎◌, ◌-◌, ◌*◌, ◌<◌, ◌≤◌, ◌^◌, Ok, [], None, Some, Result, IfOk, IsTrue};
ghost use Rattle.vm_memory_base.specs.declared.iotlb.Permissions.TheVariants.{Read};
ghost use Rattle.vm_memory_guest.specs.Host.{shape_of, Holds};
ghost use Rattle.virtio_queue.specs.Fields.{Answers, MayWant};
ghost use Rattle.virtio_queue.specs.Looks.{Follows};
ghost use Rattle.virtio_queue.specs.Packed.{are_positions, slots_out};
ghost use Rattle.virtio_queue.specs.PackedPopping.{chain_known, last_after, listing, rows_after, with_known};
ghost use Rattle.virtio_queue.specs.PackedRing.{packed_at};
ghost use Rattle.virtio_queue.specs.Rings.{and_then};

use super::descriptor::PackedDescriptor;
use super::position::{slot_after, slots_out};
use super::state::{PackedBuffer, PackedState};
use crate::chain::indirect_len;
use crate::error::QueueError;
use crate::fields::descriptor_at;
use crate::looks::Looks;
use std::alloc::Global;
use std::mem;
use vm_memory_base::Bitmap;
use vm_memory_device::{Chain, Segment};
use vm_memory_guest::{GuestMemory, HostMemory};

// The descriptor in a slot of a ring, or of an indirect table.
#[inline]
pub(super) fn packed_at<M: GuestMemory, B: Bitmap>(
    mem: &M,
    host: &HostMemory<B>,
    ring: u64,
    slot: u16,
) -> Result<PackedDescriptor, QueueError>
    requires { Holds (shape_of host.now) (M.names mem.now) }
    ensures { let m = M.memory mem.now in
        Answers (MayWant m host.now ring (16 * slot) 16 Read) (packed_at m host.now ring slot) result }
{
    Ok(PackedDescriptor::of_split(descriptor_at(mem, host, ring, slot)?))
}

// A descriptor, with the flags that were found before it.
#[inline(always)]
fn with_flags(flags: u16, descriptor: PackedDescriptor) -> PackedDescriptor
    ensures { result ≡ with_known (Some flags) descriptor }
{
    PackedDescriptor {
        flags,
        ..descriptor
    }
}

// Appends the segments of the descriptors from the next slot on, up to the last one of the chain. Returns this one, and
// how many descriptors the chain has, at most `room`. The flags of the first one are known.
fn list<L: Looks>(
    looks: &mut L,
    state: &PackedState,
    room: u16,
    flags: u16,
    segments: &mut Vec<Segment>,
) -> Result<(PackedDescriptor, u16), QueueError>
    requires slot { state.now.next_avail.slot < state.now.size }
    ensures lists { let q = state.now in Follows L.looks
        (listing q.desc_ring q.size room segments.old.items 0 q.next_avail.slot (Some flags)) looks.old
        (and_then result (λ p. Ok (record { segments = segments.new.items; last = p.0; slots = p.1 }))) looks.new }
    ensures within { IfOk result (λ p. (0 < p.1) × (p.1 ≤ room)) }
{
    if room == 0 {
        return Err(QueueError::DescriptorLoop);
    }
    let begin = looks.row(state.desc_ring, state.next_avail.slot)?;
    let first = with_flags(flags, PackedDescriptor::of_split(begin));
    if first.is_last() {
        return Ok((first, 1));
    }
    if segments.push(first.segment()).is_err() {
        return Err(QueueError::Memory);
    }
    let mut slot = slot_after(state.size, state.next_avail.slot);
    for count in 1..room {
        let descriptor = PackedDescriptor::of_split(looks.row(state.desc_ring, slot)?);
        if descriptor.is_last() {
            return Ok((descriptor, count + 1));
        }
        if segments.push(descriptor.segment()).is_err() {
            return Err(QueueError::Memory);
        }
        slot = slot_after(state.size, slot);
    }
    Err(QueueError::DescriptorLoop)
}

// Appends the segments of the first `len` descriptors of an indirect table.
fn add_rows<L: Looks>(
    looks: &mut L,
    table: u64,
    len: u16,
    segments: &mut Vec<Segment>,
) -> Result<(), QueueError>
    ensures { Follows L.looks (rows_after table len segments.old.items 0) looks.old
        (and_then result (λ _. Ok segments.new.items)) looks.new }
{
    for index in 0..len {
        let descriptor = PackedDescriptor::of_split(looks.row(table, index)?);
        if segments.push(descriptor.segment()).is_err() {
            return Err(QueueError::Memory);
        }
    }
    Ok(())
}

// Adds the segments of the last descriptor of a chain: its own, or those of its table.
pub(super) fn add_last<L: Looks>(
    looks: &mut L,
    last: &PackedDescriptor,
    segments: &mut Vec<Segment>,
) -> Result<(), QueueError>
    ensures { Follows L.looks (last_after segments.old.items last.now) looks.old
        (and_then result (λ _. Ok segments.new.items)) looks.new }
{
    if last.is_indirect() {
        let len = indirect_len(&last.plain())?;
        return add_rows(looks, last.addr, len, segments);
    }
    if segments.push(last.segment()).is_err() {
        return Err(QueueError::Memory);
    }
    Ok(())
}

// The chain that begins where the device pops next, whose flags are known, and what it is returned by. It takes the
// list.
pub(super) fn next_chain<L: Looks>(
    alloc: Global,
    segments: &mut Vec<Segment>,
    looks: &mut L,
    state: &PackedState,
    flags: u16,
) -> Result<(PackedBuffer, Chain), QueueError>
    requires fits { state.now.size ≤ 2 ^ 15 }
    requires positions { let q = state.now in IsTrue (are_positions q.size q.next_avail q.next_used) }
    ensures chain { Follows L.looks (chain_known state.now flags) looks.old result looks.new }
    ensures slots { let q = state.now in IfOk result (λ p. (0 < p.0.slots)
        × (p.0.slots ≤ q.size - slots_out q.size q.next_avail q.next_used)) }
{
    segments.clear();
    let room = state.size - slots_out(state.size, state.next_avail, state.next_used);
    let (last, slots) = list(looks, state, room, flags, segments)?;
    add_last(looks, &last, segments)?;
    match Chain::new(mem::replace(segments, Vec::new(alloc))) {
        Ok(chain) => Ok((PackedBuffer { id: last.id, slots }, chain)),
        Err(fault) => Err(QueueError::InvalidChain(fault)),
    }
}
