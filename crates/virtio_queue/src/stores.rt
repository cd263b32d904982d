//! Stores into guest memory, which a driver may write at any moment.
ghost use Rattle.std.specs.Prelude.{◌+◌, ◌++◌, ◌^◌, ◌<◌, IfOk, Ok, Result};
ghost use Rattle.std.specs.Int.{w16, w32, to_le_bytes};
ghost use Rattle.vm_memory_base.specs.declared.iotlb.Permissions.{Permissions};
ghost use Rattle.vm_memory_base.specs.declared.iotlb.Permissions.TheVariants.{Read, Write};
ghost use Rattle.vm_memory_guest.specs.Host.{shape_of, Holds};
ghost use Rattle.virtio_queue.specs.Looks.{Given, IsAt, Step, Takes, loads, room, spot, stores, writes};
ghost use Rattle.virtio_queue.specs.declared.error.QueueError.{QueueError};

use crate::error::QueueError;
use crate::fields::{load_in, room_at, store_in, window_at, write_pair, write_rest};
use crate::hints::Hint;
use vm_memory_base::{Bitmap, Permissions};
use vm_memory_guest::laws::effects::{writes_keep_shapes, written_is_read_back};
use vm_memory_guest::laws::typed::loads_and_stores_are_by_bytes;
use vm_memory_guest::{GuestMemory, HostMemory, VolatileSlice};

/// Guest memory that a call writes and looks at, while a driver may write it. A call looks its places up first, so that
/// what it does there cannot be refused any more.
///
/// A ghost member says what is known of a step. A call that is generic over this trait knows no more of memory than
/// what its steps gave, and the fact that they were taken.
pub trait Stores<H> {
    /// A step: what lay in memory before it, what it gave or why nothing, and what lies there after it.
    ghost steps: { Self → H → (s : Step) → Result (Given s) QueueError → H → Type 0 };

    /// Such memory is there.
    ghost held: { Self → H → Type 0 };

    /// A place that was looked up may still be used.
    ghost leads: { Self → H → (s : Step) → Given s → Type 0 };

    /// Looks up where `size` bytes at `base + offset` lie.
    fn room(&self, host: &mut H, base: u64, offset: u64, size: u64) -> Result<u64, QueueError>
        requires held { held self.now host.old }
        requires some { 0 < size }
        requires near { offset + size < 2 ^ 32 }
        ensures step { steps self.now host.old (room base offset size) result host.new }
        ensures found { IfOk result (λ a. leads self.now host.new (room base offset size) a) }
        ensures stay { (s : Step) (x : Given s) → leads self.now host.old s x → leads self.now host.new s x }
        ensures held { held self.now host.new };

    /// Looks up where a number of 16 bits at `base + offset` is loaded or stored.
    fn spot(
        &self,
        host: &mut H,
        access: Permissions,
        base: u64,
        offset: u64,
    ) -> Result<VolatileSlice, QueueError>
        requires held { held self.now host.old }
        requires near { offset + 2 < 2 ^ 32 }
        ensures step { steps self.now host.old (spot access base offset) result host.new }
        ensures found { IfOk result (λ w. leads self.now host.new (spot access base offset) w) }
        ensures stay { (s : Step) (x : Given s) → leads self.now host.old s x → leads self.now host.new s x }
        ensures held { held self.now host.new };

    /// Writes two numbers of 32 bits at a place that was looked up, each byte once.
    fn write_pair(
        &self,
        host: &mut H,
        base: u64,
        offset: u64,
        addr: u64,
        first: u32,
        second: u32,
    ) -> Result<(), QueueError>
        requires held { held self.now host.old }
        requires found { leads self.now host.old (room base offset 8) addr }
        ensures step { steps self.now host.old
            (writes base offset (to_le_bytes w32 first ++ to_le_bytes w32 second)) result host.new }
        ensures stay { (s : Step) (x : Given s) → leads self.now host.old s x → leads self.now host.new s x }
        ensures held { held self.now host.new };

    /// Writes a number of 32 bits and one of 16 bits at a place that was looked up, each byte once.
    fn write_rest(
        &self,
        host: &mut H,
        base: u64,
        offset: u64,
        addr: u64,
        len: u32,
        id: u16,
    ) -> Result<(), QueueError>
        requires held { held self.now host.old }
        requires found { leads self.now host.old (room base offset 6) addr }
        ensures step { steps self.now host.old
            (writes base offset (to_le_bytes w32 len ++ to_le_bytes w16 id)) result host.new }
        ensures stay { (s : Step) (x : Given s) → leads self.now host.old s x → leads self.now host.new s x }
        ensures held { held self.now host.new };

    /// Stores a number of 16 bits at a place that was looked up, by one store.
    fn store(&self, host: &mut H, base: u64, offset: u64, window: &VolatileSlice, value: u16)
        requires held { held self.now host.old }
        requires found { leads self.now host.old (spot Write base offset) window.now }
        ensures step { steps self.now host.old (stores base offset value) (Ok tt) host.new }
        ensures stay { (s : Step) (x : Given s) → leads self.now host.old s x → leads self.now host.new s x }
        ensures held { held self.now host.new };

    /// Loads the number of 16 bits at a place that was looked up, by one load.
    fn load(&self, host: &mut H, base: u64, offset: u64, window: &VolatileSlice) -> u16
        requires held { held self.now host.old }
        requires found { leads self.now host.old (spot Read base offset) window.now }
        ensures step { steps self.now host.old (loads base offset) (Ok result) host.new }
        ensures stay { (s : Step) (x : Given s) → leads self.now host.old s x → leads self.now host.new s x }
        ensures held { held self.now host.new };
}

// Guest memory that is lent for a call, and that nobody else writes meanwhile.
#[derive(Drop)]
pub(crate) struct Whole<'a, M: GuestMemory> {
    pub(crate) mem: &'a M,
    // The hints of the area to which it stores, and of that at which it looks.
    pub(crate) stores: Hint,
    pub(crate) looks: Hint,
}

impl<M: GuestMemory, B: Bitmap> Stores<HostMemory<B>> for Whole<'_, M> {
    ghost steps = { λ whole old s given new. Takes B.marks (M.memory whole.mem.now) old s given new };

    ghost held = { λ whole host. Holds (shape_of host) (M.names whole.mem.now) };

    ghost leads = { λ whole host s x. IsAt (M.memory whole.mem.now) host s x };

    #[inline(always)]
    fn room(
        &self,
        host: &mut HostMemory<B>,
        base: u64,
        offset: u64,
        size: u64,
    ) -> Result<u64, QueueError> {
        let hinted = self.stores.near(self.mem);
        let found = room_at(&hinted, host, base, offset, size);
        self.stores.keep(&hinted);
        found
    }

    #[inline(always)]
    fn spot(
        &self,
        host: &mut HostMemory<B>,
        access: Permissions,
        base: u64,
        offset: u64,
    ) -> Result<VolatileSlice, QueueError> {
        let hint = match access {
            Permissions::Read => &self.looks,
            _ => &self.stores,
        };
        let hinted = hint.near(self.mem);
        let found = window_at(&hinted, host, base, offset, access);
        hint.keep(&hinted);
        found
    }

    #[inline(always)]
    fn write_pair(
        &self,
        host: &mut HostMemory<B>,
        base: u64,
        offset: u64,
        addr: u64,
        first: u32,
        second: u32,
    ) -> Result<(), QueueError> {
        writes_keep_shapes::<B>();
        let hinted = self.stores.near(self.mem);
        write_pair(&hinted, host, addr, first, second)
    }

    #[inline(always)]
    fn write_rest(
        &self,
        host: &mut HostMemory<B>,
        base: u64,
        offset: u64,
        addr: u64,
        len: u32,
        id: u16,
    ) -> Result<(), QueueError> {
        writes_keep_shapes::<B>();
        let hinted = self.stores.near(self.mem);
        write_rest(&hinted, host, addr, len, id)
    }

    #[inline(always)]
    fn store(
        &self,
        host: &mut HostMemory<B>,
        base: u64,
        offset: u64,
        window: &VolatileSlice,
        value: u16,
    ) {
        written_is_read_back();
        writes_keep_shapes::<B>();
        store_in(window, host, value);
    }

    #[inline(always)]
    fn load(
        &self,
        host: &mut HostMemory<B>,
        base: u64,
        offset: u64,
        window: &VolatileSlice,
    ) -> u16 {
        loads_and_stores_are_by_bytes::<()>();
        load_in(window, host)
    }
}
