//! Copies of the descriptors of the next chain, as they lie in the ring.
ghost use Rattle.std.specs.Prelude.{◌≡◌, ◌+◌, ◌-◌, ◌<◌, ◌≤◌, [], Ok, Some, false, true, length, IfOk};
ghost use Rattle.vm_memory_guest.specs.Host.{shape_of, Holds};
ghost use Rattle.virtio_queue.specs.Fields.{Answers};
ghost use Rattle.virtio_queue.specs.Looks.{Follows, MayWantAny, answer};
ghost use Rattle.virtio_queue.specs.Packed.{slots_out};
ghost use Rattle.virtio_queue.specs.PackedCopies.{copied, copies_after, copying};
ghost use Rattle.virtio_queue.specs.PackedPopping.{with_known};
ghost use Rattle.virtio_queue.specs.Rings.{and_then};

use super::PackedQueue;
use super::descriptor::{PackedDescriptor, is_available};
use super::position::{slot_after, slots_out};
use super::state::PackedState;
use crate::error::QueueError;
use crate::looks::{Lent, Looks};
use vm_memory_base::Bitmap;
use vm_memory_guest::{GuestMemory, HostMemory};

// A descriptor, with the flags that were found before it, if they were.
#[inline]
fn with_known(known: Option<u16>, descriptor: PackedDescriptor) -> PackedDescriptor
    ensures { result ≡ with_known known descriptor }
{
    match known {
        Some(flags) => PackedDescriptor {
            flags,
            ..descriptor
        },
        None => descriptor,
    }
}

// Appends the descriptors from the next slot on, up to the last one of the chain, at most `room`. The flags of the
// first one are known.
fn add_copies<L: Looks>(
    looks: &mut L,
    state: &PackedState,
    room: u16,
    flags: u16,
    list: &mut Vec<PackedDescriptor>,
) -> Result<(), QueueError>
    requires slot { state.now.next_avail.slot < state.now.size }
    ensures copies { let q = state.now in Follows L.looks
        (copies_after q.desc_ring q.size room list.old.items q.next_avail.slot (Some flags)) looks.old
        (and_then result (λ _. Ok list.new.items)) looks.new }
    ensures more { IfOk result (λ _. length list.old.items < length list.new.items) }
    ensures within { IfOk result (λ _. length list.new.items ≤ length list.old.items + room) }
{
    let mut slot = state.next_avail.slot;
    let mut known = Some(flags);
    for _count in 0..room {
        let row = looks.row(state.desc_ring, slot)?;
        let descriptor = with_known(known, PackedDescriptor::of_split(row));
        if list.push(descriptor).is_err() {
            return Err(QueueError::Memory);
        }
        if descriptor.is_last() {
            return Ok(());
        }
        slot = slot_after(state.size, slot);
        known = None;
    }
    Err(QueueError::DescriptorLoop)
}

impl PackedQueue {
    /// Copies the descriptors of the next chain, as they lie in the ring, into a list that is used again: what it held
    /// is lost. It returns whether there is a chain. The queue's place stays: `chain_of_copies` makes the chain, and
    /// `set_next_avail` goes past it, over as many slots as there are copies. The id of the last copy is that of the
    /// chain.
    ///
    /// No indirect table is read. The errors are those that popping the chain has up to there.
    pub fn next_copies<M: GuestMemory, B: Bitmap>(
        &self,
        list: &mut Vec<PackedDescriptor>,
        mem: &M,
        host: &HostMemory<B>,
    ) -> Result<bool, QueueError>
        requires { Holds (shape_of host.now) (M.names mem.now) }
        ensures copies { let m = M.memory mem.now in let t = copying self.now.state in
            Answers (MayWantAny m host.now t) (answer m host.now t) (copied result list.new.items) }
        ensures slots { let q = self.now.state in result ≡ Ok true → (0 < length list.new.items)
            × (length list.new.items ≤ q.size - slots_out q.size q.next_avail q.next_used) }
        ensures none { result ≡ Ok false → list.new.items ≡ [] }
    {
        let near = self.hints.of_packed_pop(self.state.desc_ring);
        let mut lent = Lent {
            mem,
            host,
            near: &near,
        };
        let found = self.next_copies_from(list, &mut lent);
        self.hints.keep_packed_pop(&near);
        found
    }

    /// As `next_copies`, from memory that a driver may write meanwhile. Whatever it writes: this looks at the flags of
    /// the next slot, and then at each descriptor of the chain, in this order and each once, and the copies are what
    /// these looks found. The flags of the first one are those that say that it is available.
    pub fn next_copies_from<L: Looks>(
        &self,
        list: &mut Vec<PackedDescriptor>,
        looks: &mut L,
    ) -> Result<bool, QueueError>
        ensures looks { Follows L.looks (copying self.now.state) looks.old (copied result list.new.items) looks.new }
        ensures slots { let q = self.now.state in result ≡ Ok true → (0 < length list.new.items)
            × (length list.new.items ≤ q.size - slots_out q.size q.next_avail q.next_used) }
        ensures none { result ≡ Ok false → list.new.items ≡ [] }
    {
        list.clear();
        if !self.state.ready {
            return Err(QueueError::QueueNotReady);
        }
        let next = self.state.next_avail;
        let flags = match looks.word(self.state.desc_ring, 16 * u64::from(next.slot) + 14) {
            Ok(flags) => flags,
            Err(error) => return Err(error),
        };
        if !is_available(flags, next.wrap) {
            return Ok(false);
        }
        self.barrier.acquire_release_barrier();
        let size = self.state.size;
        let room = size - slots_out(size, next, self.state.next_used);
        match add_copies(looks, &self.state, room, flags, list) {
            Ok(()) => Ok(true),
            Err(error) => Err(error),
        }
    }
}
