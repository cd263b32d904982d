//! What the driver publishes: the available ring, and the chains of its heads.
ghost use Rattle.std.specs.Prelude.{◌≡◌, ◌<◌, true, None, Ok};
ghost use Rattle.vm_memory_guest.specs.Host.{shape_of, Holds};
ghost use Rattle.virtio_queue.specs.Available.{MayWantIdx, after_pop, avail_idx, popped};
ghost use Rattle.virtio_queue.specs.Fields.{Answers};
ghost use Rattle.virtio_queue.specs.Looks.{Follows, index_of, word};
ghost use Rattle.virtio_queue.specs.Popping.{MayWantChain, next_head, popping};
ghost use Rattle.virtio_queue.specs.State.{with_state};

use super::Queue;
use super::barrier::BarrierWord;
use crate::chain::chain_at;
use crate::error::QueueError;
use crate::hints::Near;
use crate::looks::{Lent, Looks};
use crate::state::QueueState;
use std::alloc::Global;
use vm_memory_base::Bitmap;
use vm_memory_device::{Chain, Segment};
use vm_memory_guest::{GuestMemory, HostMemory};

// The head that is popped next, if the driver has published one.
#[inline(always)]
fn next_head<L: Looks>(
    looks: &mut L,
    state: &QueueState,
    barrier: &BarrierWord,
) -> Result<Option<u16>, QueueError>
    requires some { 0 < state.now.size }
    ensures head { Follows L.looks (next_head state.now) looks.old result looks.new }
    ensures none { let q = state.now in result ≡ Ok None
        → (q.ready ≡ true) × L.looks looks.old (word q.avail_ring 2) (Ok q.next_avail) looks.new }
{
    if !state.ready {
        return Err(QueueError::QueueNotReady);
    }
    let ahead = looks
        .word(state.avail_ring, 2)?
        .wrapping_sub(state.next_avail);
    if ahead == 0 {
        return Ok(None);
    }
    if ahead > state.size {
        return Err(QueueError::InvalidAvailRingIndex);
    }
    let slot = state.next_avail % state.size;
    barrier.acquire_release_barrier();
    let head = looks.word(state.avail_ring, 4 + 2 * u64::from(slot))?;
    Ok(Some(head))
}

impl Queue {
    /// The driver's index in the available ring: how many heads it has published, modulo 2^16.
    pub fn avail_idx<M: GuestMemory, B: Bitmap>(
        &self,
        mem: &M,
        host: &HostMemory<B>,
    ) -> Result<u16, QueueError>
        requires { Holds (shape_of host.now) (M.names mem.now) }
        ensures { let m = M.memory mem.now in let q = self.now.state in
            Answers (MayWantIdx m host.now q) (avail_idx m host.now q) result }
    {
        let near = Near::of_words(&self.hints.driver);
        let mut lent = Lent {
            mem,
            host,
            near: &near,
        };
        let found = self.avail_idx_from(&mut lent);
        self.hints.driver.set(&near.words);
        found
    }

    /// As `avail_idx`, from memory that a driver may write meanwhile.
    #[inline]
    pub fn avail_idx_from<L: Looks>(&self, looks: &mut L) -> Result<u16, QueueError>
        ensures { let q = self.now.state in
            Follows L.looks (index_of q.ready q.avail_ring) looks.old result looks.new }
    {
        if !self.state.ready {
            return Err(QueueError::QueueNotReady);
        }
        looks.word(self.state.avail_ring, 2)
    }

    /// The next chain that the driver has published, with its head, or `None` if there is none. Its place moves on
    /// by one if there is a chain, and stays otherwise.
    ///
    /// The first thing that is wrong is refused, in the order of README.md, "Popping". After an error a device
    /// has to be reset: the next call finds the same error as long as the driver leaves it there.
    ///
    /// Leaves open: `Memory` for each chain whose head's descriptor, or the first one of its indirect table, has a
    /// segment. The place stays, so the chain is not lost.
    pub fn pop_descriptor_chain<M: GuestMemory, B: Bitmap>(
        &mut self,
        alloc: Global,
        mem: &M,
        host: &HostMemory<B>,
    ) -> Result<Option<(u16, Chain)>, QueueError>
        requires { Holds (shape_of host.now) (M.names mem.now) }
        ensures popped { let m = M.memory mem.now in let q = self.old.state in
            Answers (MayWantChain m host.now q) (popped m host.now q) result }
        ensures none { let q = self.old.state in
            result ≡ Ok None → avail_idx (M.memory mem.now) host.now q ≡ Ok q.next_avail }
        ensures moved { self.new ≡ with_state self.old (after_pop self.old.state result) }
    {
        let mut list = Vec::new(alloc);
        self.pop_into(alloc, &mut list, mem, host)
    }

    /// As `pop_descriptor_chain`, in a list that is used again, such as that of a chain that was
    /// returned (`Chain::into_segments`). A chain takes the list and leaves an empty one. What it held is lost.
    #[inline(always)]
    pub fn pop_into<M: GuestMemory, B: Bitmap>(
        &mut self,
        alloc: Global,
        list: &mut Vec<Segment>,
        mem: &M,
        host: &HostMemory<B>,
    ) -> Result<Option<(u16, Chain)>, QueueError>
        requires { Holds (shape_of host.now) (M.names mem.now) }
        ensures popped { let m = M.memory mem.now in let q = self.old.state in
            Answers (MayWantChain m host.now q) (popped m host.now q) result }
        ensures none { let q = self.old.state in
            result ≡ Ok None → avail_idx (M.memory mem.now) host.now q ≡ Ok q.next_avail }
        ensures moved { self.new ≡ with_state self.old (after_pop self.old.state result) }
    {
        let near = self.hints.of_split_pop(self.state.desc_table);
        let mut lent = Lent {
            mem,
            host,
            near: &near,
        };
        let found = self.pop_from(alloc, list, &mut lent);
        self.hints.keep_split_pop(&near);
        found
    }

    /// As `pop_into`, from memory that a driver may write meanwhile. Whatever it writes: this looks at the
    /// driver's index, at the slot of the next head, and then at each descriptor of the chain, in this order and each
    /// once, and what it returns is what these looks found.
    #[inline(always)]
    pub fn pop_from<L: Looks>(
        &mut self,
        alloc: Global,
        list: &mut Vec<Segment>,
        looks: &mut L,
    ) -> Result<Option<(u16, Chain)>, QueueError>
        ensures looks { Follows L.looks (popping self.old.state) looks.old result looks.new }
        ensures none { let q = self.old.state in result ≡ Ok None
            → (q.ready ≡ true) × L.looks looks.old (word q.avail_ring 2) (Ok q.next_avail) looks.new }
        ensures moved { self.new ≡ with_state self.old (after_pop self.old.state result) }
    {
        let Some(head) = next_head(looks, &self.state, &self.barrier)? else {
            return Ok(None);
        };
        let chain = chain_at(alloc, list, looks, &self.state, head)?;
        self.state.next_avail = self.state.next_avail.wrapping_add(1);
        Ok(Some((head, chain)))
    }
}
