//! What the driver makes available: the next chain of the ring.
ghost use Rattle.std.specs.Prelude.{◌≡◌, ◌+◌, ◌*◌, None, Ok, true, false};
ghost use Rattle.vm_memory_guest.specs.Host.{shape_of, Holds};
ghost use Rattle.virtio_queue.specs.Fields.{Answers};
ghost use Rattle.virtio_queue.specs.Looks.{Follows};
ghost use Rattle.virtio_queue.specs.Packed.{with_state};
ghost use Rattle.virtio_queue.specs.PackedPopping.{MayWantChain, popping};
ghost use Rattle.virtio_queue.specs.PackedRing.{after_pop, has_next, popped};

use super::PackedQueue;
use super::chain::next_chain;
use super::descriptor::is_available;
use super::state::PackedBuffer;
use crate::error::QueueError;
use crate::looks::{Lent, Looks};
use std::alloc::Global;
use vm_memory_base::Bitmap;
use vm_memory_device::{Chain, Segment};
use vm_memory_guest::{GuestMemory, HostMemory};

impl PackedQueue {
    /// The next chain that the driver has made available, with what it is returned by, or `None` if there is none. Its
    /// place moves on over the slots of the chain, and stays if there is none or it is refused.
    ///
    /// The first thing that is wrong is refused, in the order of README.md, "Packed queues". After an error a device
    /// has to be reset: the next call finds the same error as long as the driver leaves it there.
    ///
    /// Leaves open: `Memory` for each chain whose first descriptor can be read. The position stays, so the chain is not
    /// lost.
    #[inline(always)]
    pub fn pop_descriptor_chain<M: GuestMemory, B: Bitmap>(
        &mut self,
        alloc: Global,
        mem: &M,
        host: &HostMemory<B>,
    ) -> Result<Option<(PackedBuffer, Chain)>, QueueError>
        requires { Holds (shape_of host.now) (M.names mem.now) }
        ensures popped { let m = M.memory mem.now in let q = self.old.state in
            Answers (MayWantChain m host.now q) (popped m host.now q) result }
        ensures none { result ≡ Ok None → has_next (M.memory mem.now) host.now self.old.state ≡ Ok false }
        ensures moved { self.new ≡ with_state self.old (after_pop self.old.state result) }
    {
        let mut list = Vec::new(alloc);
        self.pop_into(alloc, &mut list, mem, host)
    }

    /// As `pop_descriptor_chain`, in a list that is used again, such as that of a chain that was
    /// returned (`Chain::into_segments`). A chain takes the list and leaves an empty one. What it held is lost.
    #[inline(always)]
    pub fn pop_into<M: GuestMemory, B: Bitmap>(
        &mut self,
        alloc: Global,
        list: &mut Vec<Segment>,
        mem: &M,
        host: &HostMemory<B>,
    ) -> Result<Option<(PackedBuffer, Chain)>, QueueError>
        requires { Holds (shape_of host.now) (M.names mem.now) }
        ensures popped { let m = M.memory mem.now in let q = self.old.state in
            Answers (MayWantChain m host.now q) (popped m host.now q) result }
        ensures none { result ≡ Ok None → has_next (M.memory mem.now) host.now self.old.state ≡ Ok false }
        ensures moved { self.new ≡ with_state self.old (after_pop self.old.state result) }
    {
        let near = self.hints.of_packed_pop(self.state.desc_ring);
        let mut lent = Lent {
            mem,
            host,
            near: &near,
        };
        let found = self.pop_from(alloc, list, &mut lent);
        self.hints.keep_packed_pop(&near);
        found
    }

    /// As `pop_into`, from memory that a driver may write meanwhile. Whatever it writes: this looks at the
    /// flags of the next slot, and then at each descriptor of the chain, in this order and each once, and what it
    /// returns is what these looks found. The flags of the first descriptor are those that say that it is available.
    #[inline(never)]
    pub fn pop_from<L: Looks>(
        &mut self,
        alloc: Global,
        list: &mut Vec<Segment>,
        looks: &mut L,
    ) -> Result<Option<(PackedBuffer, Chain)>, QueueError>
        ensures looks { Follows L.looks (popping self.old.state) looks.old result looks.new }
        ensures moved { self.new ≡ with_state self.old (after_pop self.old.state result) }
    {
        if !self.state.ready {
            return Err(QueueError::QueueNotReady);
        }
        let next = self.state.next_avail;
        // Not by `?`, which clears and copies the whole of an error each time.
        let flags = match looks.word(self.state.desc_ring, 16 * u64::from(next.slot) + 14) {
            Ok(flags) => flags,
            Err(error) => return Err(error),
        };
        if !is_available(flags, next.wrap) {
            return Ok(None);
        }
        self.barrier.acquire_release_barrier();
        match next_chain(alloc, list, looks, &self.state, flags) {
            Ok((buffer, chain)) => {
                let size = self.state.size;
                self.state.next_avail = next.moved(size, buffer.slots);
                Ok(Some((buffer, chain)))
            }
            Err(error) => Err(error),
        }
    }
}
