//! Notifications: when the driver has to be notified of used entries, and the device of available ones.
ghost use Rattle.std.specs.Prelude.{◌≡◌, ◌<◌, ◌^◌, false, Ok, OnOk};
ghost use Rattle.vm_memory_guest.specs.Host.{shape_of, Holds};
ghost use Rattle.virtio_queue.specs.Fields.{Answers, stored_at};
ghost use Rattle.virtio_queue.specs.Looks.{Follows, MayWantAny};
ghost use Rattle.virtio_queue.specs.Notification.{Disables, EnablesIfReady, Waits, after_asked, disabling, enabling};
ghost use Rattle.virtio_queue.specs.Notification.{is_among, kick_offset, kick_value, needing, needs_notification};
ghost use Rattle.virtio_queue.specs.Notification.{wanting};

use super::Queue;
use crate::error::QueueError;
use crate::hints::Near;
use crate::looks::{Lent, Looks};
use crate::state::QueueState;
use crate::stores::{Stores, Whole};
use vm_memory_base::{Bitmap, Permissions};
use vm_memory_guest::{GuestMemory, HostMemory};

/// The flag of the available ring by which a driver suppresses notifications.
pub const VRING_AVAIL_F_NO_INTERRUPT: u16 = 1;

/// The flag of the used ring by which a device suppresses notifications.
pub const VRING_USED_F_NO_NOTIFY: u16 = 1;

// Whether an index is one of the `count` before the next one.
#[inline]
fn is_among(count: u32, next: u16, index: u16) -> bool
    ensures { result ≡ is_among count next index }
{
    u32::from(next.wrapping_sub(1).wrapping_sub(index)) < count
}

// Whether the driver wants to know of the last entries, if it is known how many are new.
#[inline(always)]
fn wants_notification<L: Looks>(
    looks: &mut L,
    state: &QueueState,
    added: Option<u32>,
) -> Result<bool, QueueError>
    ensures { Follows L.looks (wanting state.now added) looks.old result looks.new }
{
    let Some(count) = added else {
        return Ok(true);
    };
    if state.event_idx_enabled {
        let offset = 4 + 2 * u64::from(state.size);
        let event = looks.word(state.avail_ring, offset)?;
        return Ok(is_among(count, state.next_used, event));
    }
    let flags = looks.word(state.avail_ring, 0)?;
    Ok(flags & VRING_AVAIL_F_NO_INTERRUPT == 0)
}

// The offset in the used ring of what says when to notify the device.
#[inline]
fn kick_offset(state: &QueueState) -> u64
    ensures offset { result ≡ kick_offset state.now }
    ensures small { result < 2 ^ 20 }
{
    if state.event_idx_enabled {
        4 + 8 * u64::from(state.size)
    } else {
        0
    }
}

// What is written there to be notified.
#[inline]
fn kick_value(state: &QueueState) -> u16
    ensures { result ≡ kick_value state.now }
{
    if state.event_idx_enabled {
        state.next_avail
    } else {
        0
    }
}

impl Queue {
    /// Whether the driver has to be notified of what was added to the used ring since the last call of this. With event
    /// indices it has to if the index that it waits for is among these entries, and else if its flag does not
    /// forbid it. The first call after `from_state` or `set_next_used` returns true.
    pub fn needs_notification<M: GuestMemory, B: Bitmap>(
        &mut self,
        mem: &M,
        host: &HostMemory<B>,
    ) -> Result<bool, QueueError>
        requires { Holds (shape_of host.now) (M.names mem.now) }
        ensures needs { let m = M.memory mem.now in
            Answers (MayWantAny m host.now (needing self.old)) (needs_notification m host.now self.old) result }
        ensures asked { self.new ≡ after_asked self.old result }
    {
        let near = Near::of_words(&self.hints.driver);
        let mut lent = Lent {
            mem,
            host,
            near: &near,
        };
        let found = self.needs_notification_from(&mut lent);
        self.hints.driver.set(&near.words);
        found
    }

    /// As `needs_notification`, from memory that a driver may write meanwhile. Whatever it writes: this looks once, at
    /// the index that the driver waits for or at its flags.
    #[inline]
    pub fn needs_notification_from<L: Looks>(&mut self, looks: &mut L) -> Result<bool, QueueError>
        ensures looks { Follows L.looks (needing self.old) looks.old result looks.new }
        ensures asked { self.new ≡ after_asked self.old result }
    {
        if !self.state.ready {
            return Err(QueueError::QueueNotReady);
        }
        self.barrier.full_barrier();
        let needs = wants_notification(looks, &self.state, self.added)?;
        self.added = Some(0);
        Ok(needs)
    }

    /// Asks the driver to notify the device of what it publishes next: by `avail_event` with event indices, or else by
    /// clearing the flag. It returns whether there is more in the ring by then than was popped. If there is, the device
    /// goes on popping, since the driver may not notify it of that. If there is not, it waits for the next head. Both
    /// fields are looked up before one is written, so a call that is refused changes nothing.
    pub fn enable_notification<M: GuestMemory, B: Bitmap>(
        &self,
        mem: &M,
        host: &mut HostMemory<B>,
    ) -> Result<bool, QueueError>
        requires { Holds (shape_of host.old) (M.names mem.now) }
        ensures enabled { EnablesIfReady B.marks (M.memory mem.now) self.now.state host.old result host.new }
        ensures asks { let q = self.now.state in OnOk result
            (stored_at (M.memory mem.now) host.new q.used_ring (kick_offset q) ≡ Ok (kick_value q)) }
        ensures waits { result ≡ Ok false → Waits (M.memory mem.now) host.new self.now.state }
        ensures shape { shape_of host.new ≡ shape_of host.old }
    {
        let whole = Whole {
            mem,
            stores: self.hints.device.copied(),
            looks: self.hints.driver.copied(),
        };
        let done = self.enable_notification_in(&whole, host);
        self.hints.device.set(&whole.stores);
        self.hints.driver.set(&whole.looks);
        done
    }

    /// As `enable_notification`, in memory that a driver may write meanwhile. Whatever it writes: this looks both
    /// places up, asks for the notification, and then looks at the driver's index, each once.
    #[inline]
    pub fn enable_notification_in<H, S: Stores<H>>(
        &self,
        mem: &S,
        host: &mut H,
    ) -> Result<bool, QueueError>
        requires { S.held mem.now host.old }
        ensures stores { Follows (S.steps mem.now) (enabling self.now.state) host.old result host.new }
        ensures held { S.held mem.now host.new }
    {
        if !self.state.ready {
            return Err(QueueError::QueueNotReady);
        }
        let state = &self.state;
        let offset = kick_offset(state);
        let kick = mem.spot(host, Permissions::Write, state.used_ring, offset)?;
        let idx = mem.spot(host, Permissions::Read, state.avail_ring, 2)?;
        mem.store(host, state.used_ring, offset, &kick, kick_value(state));
        self.barrier.full_barrier();
        Ok(mem.load(host, state.avail_ring, 2, &idx) != state.next_avail)
    }

    /// Asks the driver not to notify the device. With event indices it does nothing: the driver notifies once, of the
    /// entry that the device waits for.
    pub fn disable_notification<M: GuestMemory, B: Bitmap>(
        &self,
        mem: &M,
        host: &mut HostMemory<B>,
    ) -> Result<(), QueueError>
        requires { Holds (shape_of host.old) (M.names mem.now) }
        ensures disabled { Disables B.marks (M.memory mem.now) self.now.state host.old result host.new }
        ensures shape { shape_of host.new ≡ shape_of host.old }
    {
        let whole = Whole {
            mem,
            stores: self.hints.device.copied(),
            looks: self.hints.driver.copied(),
        };
        let done = self.disable_notification_in(&whole, host);
        self.hints.device.set(&whole.stores);
        done
    }

    /// As `disable_notification`, in memory that a driver may write meanwhile.
    #[inline]
    pub fn disable_notification_in<H, S: Stores<H>>(
        &self,
        mem: &S,
        host: &mut H,
    ) -> Result<(), QueueError>
        requires { S.held mem.now host.old }
        ensures stores { Follows (S.steps mem.now) (disabling self.now.state) host.old result host.new }
        ensures held { S.held mem.now host.new }
    {
        if !self.state.ready {
            return Err(QueueError::QueueNotReady);
        }
        if self.state.event_idx_enabled {
            return Ok(());
        }
        let ring = self.state.used_ring;
        let flags = mem.spot(host, Permissions::Write, ring, 0)?;
        mem.store(host, ring, 0, &flags, VRING_USED_F_NO_NOTIFY);
        Ok(())
    }
}
