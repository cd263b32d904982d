//! Guest memory as the calls of a ring find it, which a guest may write at any moment.
ghost use Rattle.std.specs.Prelude.{◌≡◌, ◌<◌, ℕ, IfOk, MatchOption, Some, fold, length};
ghost use Rattle.vm_memory_base.specs.Table.{Set, Invalidate, says};
ghost use Rattle.vm_memory_guest.specs.Host.{Holds, shape_of};
ghost use Rattle.virtio_queue.specs.Any.{after_asked, after_pop, after_used};
ghost use Rattle.virtio_queue.specs.PackedCopies.{copied};
ghost use Rattle.virtio_blk.specs.Steps.{FitsOn};
ghost use Rattle.vhost_iotlb.specs.Kept.{IsReal};
ghost use Rattle.vhost_backend.specs.RingMarks.{marked_through, range_marked};
ghost use Rattle.vhost_backend.specs.RingMemory.{ByLooks, ChangesTable, HoldsAll, Logs, MemoryStep, Returned};
ghost use Rattle.vhost_backend.specs.RingMemory.{adds_used, begins, enables, finds_copies, finishes, forgets, keeps};
ghost use Rattle.vhost_backend.specs.RingMemory.{marks, reads_used};
ghost use Rattle.vhost_backend.specs.RingMemory.{marks_ring, needs, pops, pops_again, reads_flags, reads_region};
ghost use Rattle.vhost_backend.specs.RingMemory.{tracks};

use crate::page_list::PageList;
use crate::region::{Region, RegionBytes};
use std::alloc::{AllocError, Global};
use vhost_inflight::Store;
use vhost_iotlb::Kept;
use virtio_blk::{DeviceLimits, Fetches, Puts, Request, begin, begin_from, finish, finish_from};
use virtio_queue::{
    AnyQueue, Looks, PackedBuffer, PackedDescriptor, PackedQueue, Queue, QueueError, Stores,
};
use vm_memory_base::{Bitmap, GuestAddress, Iotlb, IotlbIterator, MappedRange, Permissions};
use vm_memory_device::{Chain, Segment};
use vm_memory_guest::{GuestMemory, GuestMemoryResult, HostMemory, TlbId};

/// Guest memory in which a call marks pages and keeps ranges of a ring, while a driver may write it.
pub trait Marks {
    /// A mark, or a range that is kept or forgotten: what was there before it, what it returned, and what is there
    /// after it.
    ghost logs: { Self → (s : MemoryStep) → Returned s → Self → Type 0 };

    /// Marks each page that has one of `len` bytes so far after an address.
    fn mark(&mut self, base: u64, offset: u64, len: u64)
        ensures { logs self.old (marks base offset len) tt self.new };

    /// Marks each page that has one of `len` bytes of a ring so far after an address of it.
    fn mark_ring(&mut self, base: u64, offset: u64, len: u64)
        ensures { logs self.old (marks_ring base offset len) tt self.new };

    /// Has a range of the ring's addresses lead on.
    fn keep(&mut self, k: Kept) -> Result<(), AllocError>
        requires { IsReal k }
        ensures { logs self.old (keeps k) result self.new };

    /// Has a range of the ring's addresses lead nowhere.
    fn forget(&mut self, k: Kept) -> Result<(), AllocError>
        requires { IsReal k }
        ensures { logs self.old (forgets k) result self.new };

    /// A copy of at most so many bytes of the region of requests in flight.
    fn read_region(
        &mut self,
        alloc: Global,
        offset: usize,
        len: usize,
    ) -> Result<RegionBytes, AllocError>
        ensures { logs self.old (reads_region offset len) result self.new };

    /// Stores to the region.
    fn track(&mut self, store: Store)
        ensures { logs self.old (tracks store) tt self.new };
}

/// Guest memory on which a ring takes its steps.
///
/// A ghost member says what is known of a step. A call that is generic over this trait knows no more of memory than
/// what its steps returned, and the fact that they were taken.
pub trait RingMemory<H> {
    /// A step: what lay in memory before it, what it returned, and what lies there after it.
    ghost steps: { Self → H → (s : MemoryStep) → Returned s → H → Type 0 };

    /// Such memory is there.
    ghost held: { Self → H → Type 0 };

    /// The next chain that the driver has published, if there is one, in a list that is used again. A chain leaves an
    /// empty one.
    fn pop(
        &self,
        host: &mut H,
        alloc: Global,
        list: &mut Vec<Segment>,
        queue: &mut AnyQueue,
    ) -> Result<Option<(PackedBuffer, Chain)>, QueueError>
        requires { held self.now host.old }
        ensures step { steps self.now host.old (pops queue.old) result host.new }
        ensures moved { queue.new ≡ after_pop queue.old result }
        ensures held { held self.now host.new };

    /// Returns a chain, to which `len` bytes were written.
    fn add_used(
        &self,
        host: &mut H,
        queue: &mut AnyQueue,
        buffer: PackedBuffer,
        len: u32,
    ) -> Result<(), QueueError>
        requires { held self.now host.old }
        ensures step { steps self.now host.old (adds_used queue.old buffer len) result host.new }
        ensures moved { queue.new ≡ after_used queue.old buffer result }
        ensures held { held self.now host.new };

    /// Whether the driver has to be notified.
    fn needs_notification(&self, host: &mut H, queue: &mut AnyQueue) -> Result<bool, QueueError>
        requires { held self.now host.old }
        ensures step { steps self.now host.old (needs queue.old) result host.new }
        ensures asked { queue.new ≡ after_asked queue.old result }
        ensures held { held self.now host.new };

    /// Asks the driver to notify of the next chain, and returns whether there is one by then.
    fn enable_notification(&self, host: &mut H, queue: &AnyQueue) -> Result<bool, QueueError>
        requires { held self.now host.old }
        ensures step { steps self.now host.old (enables queue.now) result host.new }
        ensures held { held self.now host.new };

    /// The index of the entry of the used ring that is written next, as it lies there.
    fn used_idx(&self, host: &mut H, queue: &Queue) -> Result<u16, QueueError>
        requires { held self.now host.old }
        ensures step { steps self.now host.old (reads_used queue.now) result host.new }
        ensures held { held self.now host.new };

    /// What the chain of a request asks for.
    fn begin(&self, host: &mut H, terms: DeviceLimits, chain: &Chain) -> GuestMemoryResult<Request>
        requires { held self.now host.old }
        ensures step { steps self.now host.old (begins terms chain.now) result host.new }
        ensures fits { IfOk result (λ request. FitsOn terms.sectors request) }
        ensures held { held self.now host.new };

    /// Writes the status of a request, and returns how many bytes were written to its chain.
    fn finish(
        &self,
        host: &mut H,
        chain: &Chain,
        status: u8,
        moved: usize,
    ) -> GuestMemoryResult<u32>
        requires { held self.now host.old }
        ensures step { steps self.now host.old (finishes chain.now status moved) result host.new }
        ensures held { held self.now host.new };

    /// Marks in the log each page that has one of `len` bytes so far after an address.
    fn mark(&self, host: &mut H, base: u64, offset: u64, len: u64)
        requires { held self.now host.old }
        ensures step { steps self.now host.old (marks base offset len) tt host.new }
        ensures held { held self.now host.new };

    /// Marks in the log each page that has one of `len` bytes of the ring so far after an address of it.
    fn mark_ring(&self, host: &mut H, base: u64, offset: u64, len: u64)
        requires { held self.now host.old }
        ensures step { steps self.now host.old (marks_ring base offset len) tt host.new }
        ensures held { held self.now host.new };

    /// Has a range of the ring's addresses lead on, if a table translates these. `AllocError` if an allocation fails.
    fn keep(&self, host: &mut H, k: Kept) -> Result<(), AllocError>
        requires held { held self.now host.old }
        requires real { IsReal k }
        ensures step { steps self.now host.old (keeps k) result host.new }
        ensures held { held self.now host.new };

    /// Has a range of the ring's addresses lead nowhere, if a table translates these. `AllocError` if an allocation
    /// fails.
    fn forget(&self, host: &mut H, k: Kept) -> Result<(), AllocError>
        requires held { held self.now host.old }
        requires real { IsReal k }
        ensures step { steps self.now host.old (forgets k) result host.new }
        ensures held { held self.now host.new };

    /// A chain that was in flight when the back end was started, in a list that is used again: that of a head of a
    /// split queue, and that of these descriptors of a packed one. The queue stays where it is.
    fn pop_again(
        &self,
        host: &mut H,
        alloc: Global,
        list: &mut Vec<Segment>,
        queue: &AnyQueue,
        head: u16,
        descriptors: &[PackedDescriptor],
    ) -> Result<Chain, QueueError>
        requires { held self.now host.old }
        ensures step { steps self.now host.old (pops_again queue.now head descriptors.now) result host.new }
        ensures held { held self.now host.new };

    /// A copy of at most so many bytes of the region of requests in flight, each read once.
    fn read_region(
        &self,
        host: &mut H,
        alloc: Global,
        offset: usize,
        len: usize,
    ) -> Result<RegionBytes, AllocError>
        requires { held self.now host.old }
        ensures step { steps self.now host.old (reads_region offset len) result host.new }
        ensures held { held self.now host.new };

    /// Stores to the region, after what was stored before and before what is stored later.
    fn track(&self, host: &mut H, store: Store)
        requires { held self.now host.old }
        ensures step { steps self.now host.old (tracks store) tt host.new }
        ensures held { held self.now host.new };

    /// Has a list have the descriptors of the next chain of a packed queue, and returns whether there is one. The queue
    /// stays where it is.
    fn next_copies(
        &self,
        host: &mut H,
        list: &mut Vec<PackedDescriptor>,
        queue: &PackedQueue,
    ) -> Result<bool, QueueError>
        requires { held self.now host.old }
        ensures step { steps self.now host.old (finds_copies queue.now) (copied result list.new.items) host.new }
        ensures held { held self.now host.new };

    /// The flags that lie in a slot of a packed queue.
    fn flags_at(&self, host: &mut H, queue: &PackedQueue, slot: u16) -> Result<u16, QueueError>
        requires { held self.now host.old }
        ensures step { steps self.now host.old (reads_flags queue.now slot) result host.new }
        ensures held { held self.now host.new };
}

/// Host memory, and the pages that were changed and are to be marked in the log.
#[derive(Drop)]
pub struct Logged<B> {
    /// The memory.
    pub host: HostMemory<B>,
    /// The pages.
    pub pages: PageList,
    /// The region of requests in flight.
    pub region: Region,
}

// Marks the pages of a range of guest addresses, which goes on at 0 after the last address.
fn mark_range(pages: &mut PageList, range: MappedRange)
    ensures { pages.new ≡ range_marked pages.old (record { base = range.base.0; len = range.length }) }
{
    let base = range.base.0;
    let len = range.length as u64;
    let past = if base.checked_add(len).is_none() {
        base.wrapping_add(len)
    } else {
        0
    };
    pages.mark(base, 0, len - past);
    pages.mark(0, 0, past);
}

fn mark_ranges(pages: &mut PageList, found: IotlbIterator<'_>)
    ensures { pages.new ≡ fold range_marked pages.old found.entry }
{
    for range in found {
        mark_range(pages, range);
    }
}

// Marks the pages that a range of I/O addresses leads to, if each may be written. If not, nothing was stored there.
fn mark_through(pages: &mut PageList, table: &Iotlb, iova: u64, len: u64)
    ensures { pages.new ≡ marked_through (says table.now) pages.old iova len }
{
    if let Ok(found) = table.lookup(GuestAddress(iova), len as usize, Permissions::Write) {
        mark_ranges(pages, found);
    }
}

// Maps a range in a table of a host.
fn keep_in<B>(host: &mut HostMemory<B>, table: TlbId, k: Kept) -> Result<(), AllocError>
    requires there { table.0 < length host.old.tables }
    requires real { IsReal k }
    ensures set { ChangesTable (Some table) (Set k.iova k.base k.len k.access) host.old result host.new }
    ensures shape { shape_of host.new ≡ shape_of host.old }
{
    let (iova, base) = (GuestAddress(k.iova), GuestAddress(k.base));
    let table = host.table_mut(table);
    match table.set_mapping(iova, base, k.len as usize, k.access) {
        Ok(()) => Ok(()),
        Err(_) => Err(AllocError),
    }
}

// Invalidates a range in a table of a host.
fn forget_in<B>(host: &mut HostMemory<B>, table: TlbId, k: Kept) -> Result<(), AllocError>
    requires there { table.0 < length host.old.tables }
    requires real { IsReal k }
    ensures forgotten { ChangesTable (Some table) (Invalidate k.iova k.len) host.old result host.new }
    ensures shape { shape_of host.new ≡ shape_of host.old }
{
    let table = host.table_mut(table);
    match table.invalidate_mapping(GuestAddress(k.iova), k.len as usize) {
        Ok(()) => Ok(()),
        Err(_) => Err(AllocError),
    }
}

/// Guest memory that is lent for a call, of which a contract says what it holds all the while: the memory that a ring's
/// addresses are of, and the one that those of its chains are.
#[derive(Drop)]
pub struct Lent<'a, M: GuestMemory, P: GuestMemory, K: GuestMemory> {
    /// The memory of the ring.
    pub ring: &'a M,
    /// Guest memory.
    pub guest: &'a P,
    /// The host's table that translates the ring's addresses, which are guest addresses if there is none.
    pub table: Option<TlbId>,
    /// Memory that is not used by the call, and is there after it.
    pub kept: &'a Option<K>,
}

impl<M: GuestMemory, P: GuestMemory, K: GuestMemory, B: Bitmap> RingMemory<Logged<B>>
    for Lent<'_, M, P, K> {
    ghost steps = { λ s old x r new.
        Logs B.marks (M.memory s.ring.now) (P.memory s.guest.now) s.table old x r new };

    ghost held = { λ s logged.
        HoldsAll (shape_of logged.host) (M.names s.ring.now) (P.names s.guest.now) s.table
        × MatchOption s.kept.now (Unit {0}) (λ memory. Holds (shape_of logged.host) (K.names memory)) };

    #[inline(always)]
    fn pop(
        &self,
        logged: &mut Logged<B>,
        alloc: Global,
        list: &mut Vec<Segment>,
        queue: &mut AnyQueue,
    ) -> Result<Option<(PackedBuffer, Chain)>, QueueError> {
        queue.pop_into(alloc, list, self.ring, &mut logged.host)
    }

    #[inline(always)]
    fn add_used(
        &self,
        logged: &mut Logged<B>,
        queue: &mut AnyQueue,
        buffer: PackedBuffer,
        len: u32,
    ) -> Result<(), QueueError> {
        queue.add_used(self.ring, &mut logged.host, buffer, len)
    }

    #[inline(always)]
    fn needs_notification(
        &self,
        logged: &mut Logged<B>,
        queue: &mut AnyQueue,
    ) -> Result<bool, QueueError> {
        queue.needs_notification(self.ring, &mut logged.host)
    }

    #[inline(always)]
    fn enable_notification(
        &self,
        logged: &mut Logged<B>,
        queue: &AnyQueue,
    ) -> Result<bool, QueueError> {
        queue.enable_notification(self.ring, &mut logged.host)
    }

    #[inline(always)]
    fn used_idx(&self, logged: &mut Logged<B>, queue: &Queue) -> Result<u16, QueueError> {
        queue.used_idx(self.ring, &mut logged.host)
    }

    #[inline(always)]
    fn begin(
        &self,
        logged: &mut Logged<B>,
        terms: DeviceLimits,
        chain: &Chain,
    ) -> GuestMemoryResult<Request> {
        begin(terms, self.guest, &mut logged.host, chain)
    }

    #[inline(always)]
    fn finish(
        &self,
        logged: &mut Logged<B>,
        chain: &Chain,
        status: u8,
        moved: usize,
    ) -> GuestMemoryResult<u32> {
        finish(self.guest, &mut logged.host, chain, status, moved)
    }

    #[inline(always)]
    fn mark(&self, logged: &mut Logged<B>, base: u64, offset: u64, len: u64) {
        logged.pages.mark(base, offset, len);
    }

    fn mark_ring(&self, logged: &mut Logged<B>, base: u64, offset: u64, len: u64) {
        let Some(table) = self.table else {
            return logged.pages.mark(base, offset, len);
        };
        if let Some(iova) = base.checked_add(offset) {
            mark_through(&mut logged.pages, logged.host.table(table), iova, len);
        }
    }

    fn keep(&self, logged: &mut Logged<B>, k: Kept) -> Result<(), AllocError> {
        match self.table {
            Some(table) => keep_in(&mut logged.host, table, k),
            None => Ok(()),
        }
    }

    fn forget(&self, logged: &mut Logged<B>, k: Kept) -> Result<(), AllocError> {
        match self.table {
            Some(table) => forget_in(&mut logged.host, table, k),
            None => Ok(()),
        }
    }

    fn pop_again(
        &self,
        logged: &mut Logged<B>,
        alloc: Global,
        list: &mut Vec<Segment>,
        queue: &AnyQueue,
        head: u16,
        descriptors: &[PackedDescriptor],
    ) -> Result<Chain, QueueError> {
        queue.chain_again(alloc, list, self.ring, &logged.host, head, descriptors)
    }

    fn read_region(
        &self,
        logged: &mut Logged<B>,
        alloc: Global,
        offset: usize,
        len: usize,
    ) -> Result<RegionBytes, AllocError> {
        logged.region.read(alloc, offset, len)
    }

    fn track(&self, logged: &mut Logged<B>, store: Store) {
        logged.region.store(store);
    }

    fn next_copies(
        &self,
        logged: &mut Logged<B>,
        list: &mut Vec<PackedDescriptor>,
        queue: &PackedQueue,
    ) -> Result<bool, QueueError> {
        queue.next_copies(list, self.ring, &logged.host)
    }

    fn flags_at(
        &self,
        logged: &mut Logged<B>,
        queue: &PackedQueue,
        slot: u16,
    ) -> Result<u16, QueueError> {
        queue.flags_at(self.ring, &logged.host, slot)
    }
}

/// Guest memory at which the calls look, to which they store, and in which they mark, while a guest may write it. This
/// is how their steps are known then.
#[derive(Drop)]
pub struct Looked<'a, S> {
    /// What it is stored by.
    pub stores: &'a S,
}

impl<L: Looks + Fetches + Puts + Marks, S: Stores<L>> RingMemory<L> for Looked<'_, S> {
    ghost steps = { λ s old x r new. ByLooks L.looks (S.steps s.stores.now) L.fetches L.puts L.logs old x r new };

    // It is there all the while.
    ghost held = { λ s guest. (g : L) → S.held s.stores.now g };

    fn pop(
        &self,
        guest: &mut L,
        alloc: Global,
        list: &mut Vec<Segment>,
        queue: &mut AnyQueue,
    ) -> Result<Option<(PackedBuffer, Chain)>, QueueError> {
        queue.pop_from(alloc, list, guest)
    }

    fn add_used(
        &self,
        guest: &mut L,
        queue: &mut AnyQueue,
        buffer: PackedBuffer,
        len: u32,
    ) -> Result<(), QueueError> {
        queue.add_used_in(self.stores, guest, buffer, len)
    }

    fn needs_notification(&self, guest: &mut L, queue: &mut AnyQueue) -> Result<bool, QueueError> {
        queue.needs_notification_from(guest)
    }

    fn enable_notification(&self, guest: &mut L, queue: &AnyQueue) -> Result<bool, QueueError> {
        queue.enable_notification_in(self.stores, guest)
    }

    fn used_idx(&self, guest: &mut L, queue: &Queue) -> Result<u16, QueueError> {
        queue.used_idx_from(guest)
    }

    fn begin(
        &self,
        guest: &mut L,
        terms: DeviceLimits,
        chain: &Chain,
    ) -> GuestMemoryResult<Request> {
        begin_from(terms, guest, chain)
    }

    fn finish(
        &self,
        guest: &mut L,
        chain: &Chain,
        status: u8,
        moved: usize,
    ) -> GuestMemoryResult<u32> {
        finish_from(guest, chain, status, moved)
    }

    fn mark(&self, guest: &mut L, base: u64, offset: u64, len: u64) {
        guest.mark(base, offset, len);
    }

    fn mark_ring(&self, guest: &mut L, base: u64, offset: u64, len: u64) {
        guest.mark_ring(base, offset, len);
    }

    fn keep(&self, guest: &mut L, k: Kept) -> Result<(), AllocError> {
        guest.keep(k)
    }

    fn forget(&self, guest: &mut L, k: Kept) -> Result<(), AllocError> {
        guest.forget(k)
    }

    fn pop_again(
        &self,
        guest: &mut L,
        alloc: Global,
        list: &mut Vec<Segment>,
        queue: &AnyQueue,
        head: u16,
        descriptors: &[PackedDescriptor],
    ) -> Result<Chain, QueueError> {
        queue.chain_again_from(alloc, list, guest, head, descriptors)
    }

    fn read_region(
        &self,
        guest: &mut L,
        alloc: Global,
        offset: usize,
        len: usize,
    ) -> Result<RegionBytes, AllocError> {
        guest.read_region(alloc, offset, len)
    }

    fn track(&self, guest: &mut L, store: Store) {
        guest.track(store);
    }

    fn next_copies(
        &self,
        guest: &mut L,
        list: &mut Vec<PackedDescriptor>,
        queue: &PackedQueue,
    ) -> Result<bool, QueueError> {
        queue.next_copies_from(list, guest)
    }

    fn flags_at(&self, guest: &mut L, queue: &PackedQueue, slot: u16) -> Result<u16, QueueError> {
        queue.flags_at_from(guest, slot)
    }
}
