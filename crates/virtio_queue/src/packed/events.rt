//! Notifications: when the driver has to be notified of used slots, and the device of available ones.
ghost use Rattle.std.specs.Prelude.{◌≡◌, ◌*◌, ◌<◌, ◌≤◌, ◌^◌, false, Ok, OnOk};
ghost use Rattle.vm_memory_guest.specs.Host.{shape_of, Holds};
ghost use Rattle.virtio_queue.specs.Fields.{Answers};
ghost use Rattle.virtio_queue.specs.Looks.{Follows, MayWantAny};
ghost use Rattle.virtio_queue.specs.PackedEvents.{Disables, EnablesIfReady, Offers, Waits, after_asked, count_of};
ghost use Rattle.virtio_queue.specs.PackedEvents.{disabling, enabling, is_passed, kick_flags, needing};
ghost use Rattle.virtio_queue.specs.PackedEvents.{needs_notification, wanting};

use super::PackedQueue;
use super::descriptor::is_available;
use super::position::RingPosition;
use super::state::PackedState;
use crate::error::QueueError;
use crate::hints::Near;
use crate::looks::{Lent, Looks};
use crate::queue::BarrierWord;
use crate::stores::{Stores, Whole};
use vm_memory_base::{Bitmap, Permissions};
use vm_memory_guest::laws::effects::{other_bytes_stay, writes_keep_shapes};
use vm_memory_guest::{GuestMemory, HostMemory};

/// The flags by which a side asks for a notification of each chain.
pub const VRING_PACKED_EVENT_FLAG_ENABLE: u16 = 0;

/// The flags by which a side asks for no notification.
pub const VRING_PACKED_EVENT_FLAG_DISABLE: u16 = 1;

/// The flags by which a side asks for a notification of the slot at the offset.
pub const VRING_PACKED_EVENT_FLAG_DESC: u16 = 2;

// A position as a count that goes on to twice the size.
#[inline]
fn count_of(size: u32, position: RingPosition) -> u32
    requires { size ≤ 2 ^ 15 }
    ensures count { result ≡ count_of size position }
    ensures below { position.slot < size → result < 2 * size }
{
    let slot = u32::from(position.slot);
    if position.wrap { slot } else { size + slot }
}

// Whether the position of an event is one of the `count` before the next one.
#[inline]
fn is_passed(size: u16, count: u32, next: RingPosition, event: RingPosition) -> bool
    requires fits { size ≤ 2 ^ 15 }
    requires slot { next.slot < size }
    ensures { result ≡ is_passed size count next event }
{
    if event.slot >= size {
        return true;
    }
    let size = u32::from(size);
    let next = count_of(size, next);
    let event = count_of(size, event);
    let between = if event < next {
        next - event
    } else {
        2 * size + next - event
    };
    between <= count
}

// Whether the driver wants to know of the last slots, if it is known how many are new.
#[inline(always)]
fn wants_notification<L: Looks>(
    looks: &mut L,
    state: &PackedState,
    added: Option<u32>,
    barrier: &BarrierWord,
) -> Result<bool, QueueError>
    requires fits { state.now.size ≤ 2 ^ 15 }
    requires slot { state.now.next_used.slot < state.now.size }
    ensures { Follows L.looks (wanting state.now added) looks.old result looks.new }
{
    let Some(count) = added else {
        return Ok(true);
    };
    let flags = looks.word(state.driver_area, 2)? % 4;
    if state.event_idx_enabled && flags == VRING_PACKED_EVENT_FLAG_DESC {
        barrier.acquire_release_barrier();
        let event = RingPosition::from_bits(looks.word(state.driver_area, 0)?);
        return Ok(is_passed(state.size, count, state.next_used, event));
    }
    Ok(flags != VRING_PACKED_EVENT_FLAG_DISABLE)
}

// The flags that a device writes to be notified.
#[inline]
fn kick_flags(state: &PackedState) -> u16
    ensures { result ≡ kick_flags state.now }
{
    if state.event_idx_enabled {
        VRING_PACKED_EVENT_FLAG_DESC
    } else {
        VRING_PACKED_EVENT_FLAG_ENABLE
    }
}

impl PackedQueue {
    /// Whether the driver has to be notified of what was returned since the last call of this. It has to if its flags
    /// ask for it, or, with event indices, if they lead to its offset and that is one of the slots that were used. An
    /// offset past the ring is taken for one of them. The first call after `from_state`, `set_size` or `set_vring_base`
    /// returns true.
    pub fn needs_notification<M: GuestMemory, B: Bitmap>(
        &mut self,
        mem: &M,
        host: &HostMemory<B>,
    ) -> Result<bool, QueueError>
        requires { Holds (shape_of host.now) (M.names mem.now) }
        ensures needs { let m = M.memory mem.now in
            Answers (MayWantAny m host.now (needing self.old)) (needs_notification m host.now self.old) result }
        ensures asked { self.new ≡ after_asked self.old result }
    {
        let near = Near::of_words(&self.hints.driver);
        let mut lent = Lent {
            mem,
            host,
            near: &near,
        };
        let found = self.needs_notification_from(&mut lent);
        self.hints.driver.set(&near.words);
        found
    }

    /// As `needs_notification`, from memory that a driver may write meanwhile. Whatever it writes: this looks at the
    /// driver's flags, and then, if these say so, at its offset, each once.
    #[inline]
    pub fn needs_notification_from<L: Looks>(&mut self, looks: &mut L) -> Result<bool, QueueError>
        ensures looks { Follows L.looks (needing self.old) looks.old result looks.new }
        ensures asked { self.new ≡ after_asked self.old result }
    {
        if !self.state.ready {
            return Err(QueueError::QueueNotReady);
        }
        self.barrier.full_barrier();
        let needs = wants_notification(looks, &self.state, self.added, &self.barrier)?;
        self.added = Some(0);
        Ok(needs)
    }

    /// Asks the driver to notify the device of the next chain: with event indices by the offset of its first slot, and
    /// else of each chain. It returns whether there is a chain by then. If there is, the device goes on popping, since
    /// the driver may not notify it of that. If there is not, it waits for the next one. All fields are looked up
    /// before one is written, so a call that is refused changes nothing.
    pub fn enable_notification<M: GuestMemory, B: Bitmap>(
        &self,
        mem: &M,
        host: &mut HostMemory<B>,
    ) -> Result<bool, QueueError>
        requires { Holds (shape_of host.old) (M.names mem.now) }
        ensures enabled { EnablesIfReady B.marks (M.memory mem.now) self.now.state host.old result host.new }
        ensures offers { OnOk result (Offers (M.memory mem.now) host.new self.now.state) }
        ensures waits { result ≡ Ok false → Waits (M.memory mem.now) host.new self.now.state }
        ensures shape { shape_of host.new ≡ shape_of host.old }
    {
        other_bytes_stay();
        writes_keep_shapes::<B>();
        let whole = Whole {
            mem,
            stores: self.hints.device.copied(),
            looks: self.hints.descriptors.copied(),
        };
        let done = self.enable_notification_in(&whole, host);
        self.hints.device.set(&whole.stores);
        self.hints.descriptors.set(&whole.looks);
        done
    }

    /// As `enable_notification`, in memory that a driver may write meanwhile. Whatever it writes: this looks all places
    /// up, stores the offset and then the flags, and then looks at the flags of the next slot, each once.
    #[inline]
    pub fn enable_notification_in<H, S: Stores<H>>(
        &self,
        mem: &S,
        host: &mut H,
    ) -> Result<bool, QueueError>
        requires { S.held mem.now host.old }
        ensures stores { Follows (S.steps mem.now) (enabling self.now.state) host.old result host.new }
        ensures held { S.held mem.now host.new }
    {
        if !self.state.ready {
            return Err(QueueError::QueueNotReady);
        }
        let state = &self.state;
        let area = state.device_area;
        let flags_at = 16 * u64::from(state.next_avail.slot) + 14;
        let offset = mem.spot(host, Permissions::Write, area, 0)?;
        let flags = mem.spot(host, Permissions::Write, area, 2)?;
        let next = mem.spot(host, Permissions::Read, state.desc_ring, flags_at)?;
        mem.store(host, area, 0, &offset, state.next_avail.to_bits());
        self.barrier.acquire_release_barrier();
        mem.store(host, area, 2, &flags, kick_flags(state));
        self.barrier.full_barrier();
        let found = mem.load(host, state.desc_ring, flags_at, &next);
        Ok(is_available(found, state.next_avail.wrap))
    }

    /// Asks the driver not to notify the device, also with event indices.
    pub fn disable_notification<M: GuestMemory, B: Bitmap>(
        &self,
        mem: &M,
        host: &mut HostMemory<B>,
    ) -> Result<(), QueueError>
        requires { Holds (shape_of host.old) (M.names mem.now) }
        ensures disabled { Disables B.marks (M.memory mem.now) self.now.state host.old result host.new }
        ensures shape { shape_of host.new ≡ shape_of host.old }
    {
        let whole = Whole {
            mem,
            stores: self.hints.device.copied(),
            looks: self.hints.descriptors.copied(),
        };
        let done = self.disable_notification_in(&whole, host);
        self.hints.device.set(&whole.stores);
        done
    }

    /// As `disable_notification`, in memory that a driver may write meanwhile.
    #[inline]
    pub fn disable_notification_in<H, S: Stores<H>>(
        &self,
        mem: &S,
        host: &mut H,
    ) -> Result<(), QueueError>
        requires { S.held mem.now host.old }
        ensures stores { Follows (S.steps mem.now) (disabling self.now.state) host.old result host.new }
        ensures held { S.held mem.now host.new }
    {
        if !self.state.ready {
            return Err(QueueError::QueueNotReady);
        }
        let area = self.state.device_area;
        let flags = mem.spot(host, Permissions::Write, area, 2)?;
        mem.store(host, area, 2, &flags, VRING_PACKED_EVENT_FLAG_DISABLE);
        Ok(())
    }
}
