//! Guest memory as a device's calls find it, which a guest may write at any moment.
ghost use Rattle.std.specs.Prelude.{◌≡◌, []};
ghost use Rattle.vm_memory_guest.specs.Host.{Holds, Shape, shape_of};
ghost use Rattle.virtio_queue.specs.Any.{after_asked, after_pop, after_used};
ghost use Rattle.vm_session.specs.MemorySteps.{ByLooks, MemoryStep, Returned, Still, adds_used, begins, disables};
ghost use Rattle.vm_session.specs.MemorySteps.{enables, finishes, needs, pops, reads_avail, reads_used};

use std::alloc::Global;
use virtio_blk::{DeviceLimits, Fetches, Puts, Request, begin, begin_from, finish, finish_from};
use virtio_queue::{AnyQueue, Looks, PackedBuffer, Queue, QueueError, Stores};
use vm_memory_base::Bitmap;
use vm_memory_device::{Chain, Segment};
use vm_memory_guest::{GuestMemory, GuestMemoryResult, HostMemory};

// Guest memory on which a device takes its steps: calls of a queue, and the beginning and the end of a block request.
//
// A ghost member says what is known of a step. A call of a session is generic over this trait, so it knows no more of
// memory than what its steps returned, and the fact that they were taken.
pub(crate) trait DeviceMemory<H> {
    // A step: what lay in memory before it, what it returned, and what lies there after it.
    ghost steps: { Self → H → (s : MemoryStep) → Returned s → H → Type 0 };

    // Such memory is there.
    ghost held: { Self → H → Type 0 };

    // What no step changes.
    ghost shape: { Self → H → Shape };

    fn pop(
        &self,
        host: &mut H,
        alloc: Global,
        list: &mut Vec<Segment>,
        queue: &mut AnyQueue,
    ) -> Result<Option<(PackedBuffer, Chain)>, QueueError>
        requires { held self.now host.old }
        ensures step { steps self.now host.old (pops queue.old) result host.new }
        ensures moved { queue.new ≡ after_pop queue.old result }
        ensures shape { shape self.now host.new ≡ shape self.now host.old };

    fn add_used(
        &self,
        host: &mut H,
        queue: &mut AnyQueue,
        buffer: PackedBuffer,
        len: u32,
    ) -> Result<(), QueueError>
        requires { held self.now host.old }
        ensures step { steps self.now host.old (adds_used queue.old buffer len) result host.new }
        ensures moved { queue.new ≡ after_used queue.old buffer result }
        ensures shape { shape self.now host.new ≡ shape self.now host.old };

    fn needs_notification(&self, host: &mut H, queue: &mut AnyQueue) -> Result<bool, QueueError>
        requires { held self.now host.old }
        ensures step { steps self.now host.old (needs queue.old) result host.new }
        ensures asked { queue.new ≡ after_asked queue.old result }
        ensures shape { shape self.now host.new ≡ shape self.now host.old };

    fn enable_notification(&self, host: &mut H, queue: &AnyQueue) -> Result<bool, QueueError>
        requires { held self.now host.old }
        ensures step { steps self.now host.old (enables queue.now) result host.new }
        ensures shape { shape self.now host.new ≡ shape self.now host.old };

    fn disable_notification(&self, host: &mut H, queue: &AnyQueue) -> Result<(), QueueError>
        requires { held self.now host.old }
        ensures step { steps self.now host.old (disables queue.now) result host.new }
        ensures shape { shape self.now host.new ≡ shape self.now host.old };

    fn avail_idx(&self, host: &mut H, queue: &Queue) -> Result<u16, QueueError>
        requires { held self.now host.old }
        ensures step { steps self.now host.old (reads_avail queue.now) result host.new }
        ensures shape { shape self.now host.new ≡ shape self.now host.old };

    fn used_idx(&self, host: &mut H, queue: &Queue) -> Result<u16, QueueError>
        requires { held self.now host.old }
        ensures step { steps self.now host.old (reads_used queue.now) result host.new }
        ensures shape { shape self.now host.new ≡ shape self.now host.old };

    fn begin(&self, host: &mut H, limits: DeviceLimits, chain: &Chain) -> GuestMemoryResult<Request>
        requires { held self.now host.old }
        ensures step { steps self.now host.old (begins limits chain.now) result host.new }
        ensures shape { shape self.now host.new ≡ shape self.now host.old };

    fn finish(
        &self,
        host: &mut H,
        chain: &Chain,
        status: u8,
        moved: usize,
    ) -> GuestMemoryResult<u32>
        requires { held self.now host.old }
        ensures step { steps self.now host.old (finishes chain.now status moved) result host.new }
        ensures shape { shape self.now host.new ≡ shape self.now host.old };
}

// Guest memory that is lent for a call, of which a contract says what it holds all the while.
#[derive(Drop)]
pub(crate) struct Lent<'a, M: GuestMemory> {
    pub(crate) mem: &'a M,
}

impl<M: GuestMemory, B: Bitmap> DeviceMemory<HostMemory<B>> for Lent<'_, M> {
    ghost steps = { λ s old x r new. Still B.marks (M.memory s.mem.now) old x r new };

    ghost held = { λ s host. Holds (shape_of host) (M.names s.mem.now) };

    ghost shape = { λ s host. shape_of host };

    #[inline(always)]
    fn pop(
        &self,
        host: &mut HostMemory<B>,
        alloc: Global,
        list: &mut Vec<Segment>,
        queue: &mut AnyQueue,
    ) -> Result<Option<(PackedBuffer, Chain)>, QueueError> {
        queue.pop_into(alloc, list, self.mem, host)
    }

    #[inline(always)]
    fn add_used(
        &self,
        host: &mut HostMemory<B>,
        queue: &mut AnyQueue,
        buffer: PackedBuffer,
        len: u32,
    ) -> Result<(), QueueError> {
        queue.add_used(self.mem, host, buffer, len)
    }

    #[inline(always)]
    fn needs_notification(
        &self,
        host: &mut HostMemory<B>,
        queue: &mut AnyQueue,
    ) -> Result<bool, QueueError> {
        queue.needs_notification(self.mem, host)
    }

    #[inline(always)]
    fn enable_notification(
        &self,
        host: &mut HostMemory<B>,
        queue: &AnyQueue,
    ) -> Result<bool, QueueError> {
        queue.enable_notification(self.mem, host)
    }

    #[inline(always)]
    fn disable_notification(
        &self,
        host: &mut HostMemory<B>,
        queue: &AnyQueue,
    ) -> Result<(), QueueError> {
        queue.disable_notification(self.mem, host)
    }

    #[inline(always)]
    fn avail_idx(&self, host: &mut HostMemory<B>, queue: &Queue) -> Result<u16, QueueError> {
        queue.avail_idx(self.mem, host)
    }

    #[inline(always)]
    fn used_idx(&self, host: &mut HostMemory<B>, queue: &Queue) -> Result<u16, QueueError> {
        queue.used_idx(self.mem, host)
    }

    #[inline(always)]
    fn begin(
        &self,
        host: &mut HostMemory<B>,
        limits: DeviceLimits,
        chain: &Chain,
    ) -> GuestMemoryResult<Request> {
        begin(limits, self.mem, host, chain)
    }

    #[inline(always)]
    fn finish(
        &self,
        host: &mut HostMemory<B>,
        chain: &Chain,
        status: u8,
        moved: usize,
    ) -> GuestMemoryResult<u32> {
        finish(self.mem, host, chain, status, moved)
    }
}

// Guest memory at which the calls look, and to which they store, while a guest may write it. This is how the steps are
// known then.
#[derive(Drop)]
pub(crate) struct Looked<'a, S> {
    pub(crate) stores: &'a S,
}

impl<L: Looks + Fetches + Puts, S: Stores<L>> DeviceMemory<L> for Looked<'_, S> {
    ghost steps = { λ s old x r new. ByLooks L.looks (S.steps s.stores.now) L.fetches L.puts old x r new };

    ghost held = { λ s guest. S.held s.stores.now guest };

    ghost shape = { λ s guest. record { blocks = []; spaces = 0; tables = 0 } };

    fn pop(
        &self,
        guest: &mut L,
        alloc: Global,
        list: &mut Vec<Segment>,
        queue: &mut AnyQueue,
    ) -> Result<Option<(PackedBuffer, Chain)>, QueueError> {
        queue.pop_from(alloc, list, guest)
    }

    fn add_used(
        &self,
        guest: &mut L,
        queue: &mut AnyQueue,
        buffer: PackedBuffer,
        len: u32,
    ) -> Result<(), QueueError> {
        queue.add_used_in(self.stores, guest, buffer, len)
    }

    fn needs_notification(&self, guest: &mut L, queue: &mut AnyQueue) -> Result<bool, QueueError> {
        queue.needs_notification_from(guest)
    }

    fn enable_notification(&self, guest: &mut L, queue: &AnyQueue) -> Result<bool, QueueError> {
        queue.enable_notification_in(self.stores, guest)
    }

    fn disable_notification(&self, guest: &mut L, queue: &AnyQueue) -> Result<(), QueueError> {
        queue.disable_notification_in(self.stores, guest)
    }

    fn avail_idx(&self, guest: &mut L, queue: &Queue) -> Result<u16, QueueError> {
        queue.avail_idx_from(guest)
    }

    fn used_idx(&self, guest: &mut L, queue: &Queue) -> Result<u16, QueueError> {
        queue.used_idx_from(guest)
    }

    fn begin(
        &self,
        guest: &mut L,
        limits: DeviceLimits,
        chain: &Chain,
    ) -> GuestMemoryResult<Request> {
        begin_from(limits, guest, chain)
    }

    fn finish(
        &self,
        guest: &mut L,
        chain: &Chain,
        status: u8,
        moved: usize,
    ) -> GuestMemoryResult<u32> {
        finish_from(guest, chain, status, moved)
    }
}
