//! Queues of either kind.
ghost use Rattle.std.specs.Prelude.{◌≡◌, ℕ, None, Ok, false, OnOk};
ghost use Rattle.vm_memory_guest.specs.Host.{shape_of, Holds};
ghost use Rattle.virtio_queue.specs.Again.{again};
ghost use Rattle.virtio_queue.specs.Any.{AddsUsed, Disables, Enables, HasNone, MayWantChain, MayWantNeeds};
ghost use Rattle.virtio_queue.specs.Any.{MayWantValid, Offers, Waits, after_asked, after_pop, after_used, asking};
ghost use Rattle.virtio_queue.specs.Any.{at_next, disabling, enabling, has_event_idx, max_size_of, needs_notification};
ghost use Rattle.virtio_queue.specs.Any.{next_avail_of, past, popped, popping, returning, unset, valid, with_event_idx};
ghost use Rattle.virtio_queue.specs.Any.{with_ready};
ghost use Rattle.virtio_queue.specs.Fields.{Answers};
ghost use Rattle.virtio_queue.specs.Looks.{Follows, MayWantAny, answer};
ghost use Rattle.virtio_queue.specs.declared.packed.state.PackedBuffer.{PackedBuffer};

use crate::error::QueueError;
use crate::looks::Looks;
use crate::packed::{PackedBuffer, PackedDescriptor, PackedQueue, RingPosition};
use crate::queue::Queue;
use crate::stores::Stores;
use std::alloc::Global;
use vm_memory_base::Bitmap;
use vm_memory_device::{Chain, Segment};
use vm_memory_guest::{GuestMemory, HostMemory};

/// A virtqueue of either kind, for devices whose driver chooses it by VIRTIO_F_RING_PACKED.
///
/// Each call does what the call of that name of [`Queue`] or [`PackedQueue`] does, and is proved to. A chain is
/// returned by what it was popped with: that of a split queue is its head, and one slot.
///
/// ```text
/// let mut queue = AnyQueue::Split(Queue::new(128)?);
/// while let Some((buffer, chain)) = queue.pop_descriptor_chain(alloc, &memory, &host)? {
///     let len = serve(&memory, &mut host, &chain)?;
///     queue.add_used(&memory, &mut host, buffer, len)?;
/// }
/// ```
#[derive(Drop)]
pub enum AnyQueue {
    /// A split virtqueue.
    Split(Queue),
    /// A packed virtqueue.
    Packed(PackedQueue),
}

impl AnyQueue {
    /// The greatest size that the device allows.
    #[inline]
    pub fn max_size(&self) -> u16
        ensures { result ≡ max_size_of self.now }
    {
        match self {
            AnyQueue::Split(queue) => queue.max_size(),
            AnyQueue::Packed(queue) => queue.max_size(),
        }
    }

    /// Resets it to a queue of its kind that nobody has set up.
    pub fn reset(&mut self)
        ensures { self.new ≡ unset self.old }
    {
        match self {
            AnyQueue::Split(queue) => queue.reset(),
            AnyQueue::Packed(queue) => queue.reset(),
        }
    }

    /// Sets whether the driver has enabled the queue.
    pub fn set_ready(&mut self, ready: bool)
        ensures { self.new ≡ with_ready self.old ready }
    {
        match self {
            AnyQueue::Split(queue) => queue.set_ready(ready),
            AnyQueue::Packed(queue) => queue.set_ready(ready),
        }
    }

    /// Whether the driver accepted EVENT_IDX.
    #[inline]
    pub fn event_idx_enabled(&self) -> bool
        ensures { result ≡ has_event_idx self.now }
    {
        match self {
            AnyQueue::Split(queue) => queue.event_idx_enabled(),
            AnyQueue::Packed(queue) => queue.event_idx_enabled(),
        }
    }

    /// Sets whether the driver accepted EVENT_IDX.
    pub fn set_event_idx(&mut self, enabled: bool)
        ensures { self.new ≡ with_event_idx self.old enabled }
    {
        match self {
            AnyQueue::Split(queue) => queue.set_event_idx(enabled),
            AnyQueue::Packed(queue) => queue.set_event_idx(enabled),
        }
    }

    /// Whether its areas lie whole in memory, and the device may access them.
    pub fn is_valid<M: GuestMemory, B: Bitmap>(
        &self,
        mem: &M,
        host: &HostMemory<B>,
    ) -> Result<bool, QueueError>
        requires { Holds (shape_of host.now) (M.names mem.now) }
        ensures { let m = M.memory mem.now in
            Answers (MayWantValid m host.now self.now) (valid m host.now self.now) result }
    {
        match self {
            AnyQueue::Split(queue) => queue.is_valid(mem, host),
            AnyQueue::Packed(queue) => queue.is_valid(mem, host),
        }
    }

    /// The next chain that the driver has made available, with what it is returned by, or `None` if there is none.
    #[inline(always)]
    pub fn pop_descriptor_chain<M: GuestMemory, B: Bitmap>(
        &mut self,
        alloc: Global,
        mem: &M,
        host: &HostMemory<B>,
    ) -> Result<Option<(PackedBuffer, Chain)>, QueueError>
        requires { Holds (shape_of host.now) (M.names mem.now) }
        ensures popped { let m = M.memory mem.now in
            Answers (MayWantChain m host.now self.old) (popped m host.now self.old) result }
        ensures none { result ≡ Ok None → HasNone (M.memory mem.now) host.now self.old }
        ensures moved { self.new ≡ after_pop self.old result }
    {
        let mut list = Vec::new(alloc);
        self.pop_into(alloc, &mut list, mem, host)
    }

    /// As `pop_descriptor_chain`, in a list that is used again, such as that of a chain that was
    /// returned (`Chain::into_segments`). A chain takes the list and leaves an empty one. What it held is lost.
    #[inline(always)]
    pub fn pop_into<M: GuestMemory, B: Bitmap>(
        &mut self,
        alloc: Global,
        list: &mut Vec<Segment>,
        mem: &M,
        host: &HostMemory<B>,
    ) -> Result<Option<(PackedBuffer, Chain)>, QueueError>
        requires { Holds (shape_of host.now) (M.names mem.now) }
        ensures popped { let m = M.memory mem.now in
            Answers (MayWantChain m host.now self.old) (popped m host.now self.old) result }
        ensures none { result ≡ Ok None → HasNone (M.memory mem.now) host.now self.old }
        ensures moved { self.new ≡ after_pop self.old result }
    {
        match self {
            AnyQueue::Split(queue) => match queue.pop_into(alloc, list, mem, host) {
                Ok(Some((id, chain))) => Ok(Some((PackedBuffer { id, slots: 1 }, chain))),
                Ok(None) => Ok(None),
                Err(error) => Err(error),
            },
            AnyQueue::Packed(queue) => queue.pop_into(alloc, list, mem, host),
        }
    }

    /// As `pop_into`, from memory that a driver may write meanwhile.
    #[inline(always)]
    pub fn pop_from<L: Looks>(
        &mut self,
        alloc: Global,
        list: &mut Vec<Segment>,
        looks: &mut L,
    ) -> Result<Option<(PackedBuffer, Chain)>, QueueError>
        ensures looks { Follows L.looks (popping self.old) looks.old result looks.new }
        ensures moved { self.new ≡ after_pop self.old result }
    {
        match self {
            AnyQueue::Split(queue) => match queue.pop_from(alloc, list, looks) {
                Ok(Some((id, chain))) => Ok(Some((PackedBuffer { id, slots: 1 }, chain))),
                Ok(None) => Ok(None),
                Err(error) => Err(error),
            },
            AnyQueue::Packed(queue) => queue.pop_from(alloc, list, looks),
        }
    }

    /// A chain that was popped before the device was started again, and not returned: that of a head, if the queue is
    /// split, and that of these descriptors, as they lay in the ring, if it is packed. The queue's place stays. The
    /// chain takes the list, and leaves an empty one.
    pub fn chain_again<M: GuestMemory, B: Bitmap>(
        &self,
        alloc: Global,
        list: &mut Vec<Segment>,
        mem: &M,
        host: &HostMemory<B>,
        head: u16,
        descriptors: &[PackedDescriptor],
    ) -> Result<Chain, QueueError>
        requires { Holds (shape_of host.now) (M.names mem.now) }
        ensures { let m = M.memory mem.now in let t = again self.now head descriptors.now in
            Answers (MayWantAny m host.now t) (answer m host.now t) result }
    {
        match self {
            AnyQueue::Split(queue) => queue.chain_of_head(alloc, list, mem, host, head),
            AnyQueue::Packed(queue) => queue.chain_of_copies(alloc, list, mem, host, descriptors),
        }
    }

    /// As `chain_again`, from memory that a driver may write meanwhile.
    pub fn chain_again_from<L: Looks>(
        &self,
        alloc: Global,
        list: &mut Vec<Segment>,
        looks: &mut L,
        head: u16,
        descriptors: &[PackedDescriptor],
    ) -> Result<Chain, QueueError>
        ensures { Follows L.looks (again self.now head descriptors.now) looks.old result looks.new }
    {
        match self {
            AnyQueue::Split(queue) => queue.chain_of_head_from(alloc, list, looks, head),
            AnyQueue::Packed(queue) => queue.chain_of_copies_from(alloc, list, looks, descriptors),
        }
    }

    /// Returns a chain, with the number of bytes written to it.
    #[inline(always)]
    pub fn add_used<M: GuestMemory, B: Bitmap>(
        &mut self,
        mem: &M,
        host: &mut HostMemory<B>,
        buffer: PackedBuffer,
        len: u32,
    ) -> Result<(), QueueError>
        requires { Holds (shape_of host.old) (M.names mem.now) }
        ensures added { AddsUsed B.marks (M.memory mem.now) self.old buffer len host.old result host.new }
        ensures moved { self.new ≡ after_used self.old buffer result }
        ensures shape { shape_of host.new ≡ shape_of host.old }
    {
        match self {
            AnyQueue::Split(queue) => queue.add_used(mem, host, buffer.id, len),
            AnyQueue::Packed(queue) => queue.add_used(mem, host, buffer, len),
        }
    }

    /// As `add_used`, in memory that a driver may write meanwhile.
    #[inline(always)]
    pub fn add_used_in<H, S: Stores<H>>(
        &mut self,
        mem: &S,
        host: &mut H,
        buffer: PackedBuffer,
        len: u32,
    ) -> Result<(), QueueError>
        requires { S.held mem.now host.old }
        ensures stores { Follows (S.steps mem.now) (returning self.old buffer len) host.old result host.new }
        ensures moved { self.new ≡ after_used self.old buffer result }
        ensures held { S.held mem.now host.new }
    {
        match self {
            AnyQueue::Split(queue) => queue.add_used_in(mem, host, buffer.id, len),
            AnyQueue::Packed(queue) => queue.add_used_in(mem, host, buffer, len),
        }
    }

    /// Whether the driver has to be notified of what was returned since the last call of this.
    #[inline(always)]
    pub fn needs_notification<M: GuestMemory, B: Bitmap>(
        &mut self,
        mem: &M,
        host: &HostMemory<B>,
    ) -> Result<bool, QueueError>
        requires { Holds (shape_of host.now) (M.names mem.now) }
        ensures needs { let m = M.memory mem.now in
            Answers (MayWantNeeds m host.now self.old) (needs_notification m host.now self.old) result }
        ensures asked { self.new ≡ after_asked self.old result }
    {
        match self {
            AnyQueue::Split(queue) => queue.needs_notification(mem, host),
            AnyQueue::Packed(queue) => queue.needs_notification(mem, host),
        }
    }

    /// As `needs_notification`, from memory that a driver may write meanwhile.
    #[inline(always)]
    pub fn needs_notification_from<L: Looks>(&mut self, looks: &mut L) -> Result<bool, QueueError>
        ensures looks { Follows L.looks (asking self.old) looks.old result looks.new }
        ensures asked { self.new ≡ after_asked self.old result }
    {
        match self {
            AnyQueue::Split(queue) => queue.needs_notification_from(looks),
            AnyQueue::Packed(queue) => queue.needs_notification_from(looks),
        }
    }

    /// Asks the driver to notify the device of the next chain. It returns whether there is one by then.
    #[inline(always)]
    pub fn enable_notification<M: GuestMemory, B: Bitmap>(
        &self,
        mem: &M,
        host: &mut HostMemory<B>,
    ) -> Result<bool, QueueError>
        requires { Holds (shape_of host.old) (M.names mem.now) }
        ensures enabled { Enables B.marks (M.memory mem.now) self.now host.old result host.new }
        ensures offers { OnOk result (Offers (M.memory mem.now) host.new self.now) }
        ensures waits { result ≡ Ok false → Waits (M.memory mem.now) host.new self.now }
        ensures shape { shape_of host.new ≡ shape_of host.old }
    {
        match self {
            AnyQueue::Split(queue) => queue.enable_notification(mem, host),
            AnyQueue::Packed(queue) => queue.enable_notification(mem, host),
        }
    }

    /// As `enable_notification`, in memory that a driver may write meanwhile.
    #[inline(always)]
    pub fn enable_notification_in<H, S: Stores<H>>(
        &self,
        mem: &S,
        host: &mut H,
    ) -> Result<bool, QueueError>
        requires { S.held mem.now host.old }
        ensures stores { Follows (S.steps mem.now) (enabling self.now) host.old result host.new }
        ensures held { S.held mem.now host.new }
    {
        match self {
            AnyQueue::Split(queue) => queue.enable_notification_in(mem, host),
            AnyQueue::Packed(queue) => queue.enable_notification_in(mem, host),
        }
    }

    /// Asks the driver not to notify the device.
    #[inline(always)]
    pub fn disable_notification<M: GuestMemory, B: Bitmap>(
        &self,
        mem: &M,
        host: &mut HostMemory<B>,
    ) -> Result<(), QueueError>
        requires { Holds (shape_of host.old) (M.names mem.now) }
        ensures disabled { Disables B.marks (M.memory mem.now) self.now host.old result host.new }
        ensures shape { shape_of host.new ≡ shape_of host.old }
    {
        match self {
            AnyQueue::Split(queue) => queue.disable_notification(mem, host),
            AnyQueue::Packed(queue) => queue.disable_notification(mem, host),
        }
    }

    /// As `disable_notification`, in memory that a driver may write meanwhile.
    #[inline(always)]
    pub fn disable_notification_in<H, S: Stores<H>>(
        &self,
        mem: &S,
        host: &mut H,
    ) -> Result<(), QueueError>
        requires { S.held mem.now host.old }
        ensures stores { Follows (S.steps mem.now) (disabling self.now) host.old result host.new }
        ensures held { S.held mem.now host.new }
    {
        match self {
            AnyQueue::Split(queue) => queue.disable_notification_in(mem, host),
            AnyQueue::Packed(queue) => queue.disable_notification_in(mem, host),
        }
    }

    /// Where the next chain is popped, as a number of 16 bits: the index of the entry of the available ring, or a slot
    /// with its wrap counter in bit 15. `go_back` takes it.
    #[inline(always)]
    pub fn next_avail(&self) -> u16
        ensures next { result ≡ next_avail_of self.now }
        ensures back { (buffer : PackedBuffer) → at_next (past self.now buffer) result ≡ self.now }
    {
        match self {
            AnyQueue::Split(queue) => queue.next_avail(),
            AnyQueue::Packed(queue) => queue.next_avail().to_bits(),
        }
    }

    /// What `next_avail` returns after the next chain was popped, if that takes so many slots of a packed queue. One of
    /// a split queue takes one entry, whatever this number is.
    #[inline]
    pub fn next_after(&self, slots: u16) -> u16
        ensures { (id : ℕ) → result ≡ next_avail_of (past self.now (record { id = id; slots = slots })) }
    {
        match self {
            AnyQueue::Split(queue) => queue.next_avail().wrapping_add(1),
            AnyQueue::Packed(queue) => queue.next_avail().bits_after(queue.size(), slots),
        }
    }

    /// Makes the chain at this place the next one. A packed queue that cannot stand there stays where it is.
    pub fn go_back(&mut self, next_avail: u16)
        ensures { self.new ≡ at_next self.old next_avail }
    {
        match self {
            AnyQueue::Split(queue) => queue.set_next_avail(next_avail),
            AnyQueue::Packed(queue) => {
                let _ = queue.set_next_avail(RingPosition::from_bits(next_avail));
            }
        }
    }
}
