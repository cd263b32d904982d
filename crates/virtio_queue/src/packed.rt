//! Packed queues: their setup, and their state.
ghost use Rattle.std.specs.Prelude.{◌≡◌, ◌%◌, ◌^◌, ◌<◌, ◌&&◌, ◌==◌, nat_le, if◌then◌else◌, None, Some, Ok, Err, IsTrue};
ghost use Rattle.std.specs.Prelude.{MatchResult};
ghost use Rattle.virtio_queue.specs.Packed.{are_positions, at_base, base_of, is_packed_size, new_queue, new_state};
ghost use Rattle.virtio_queue.specs.Packed.{set_if, state_error, with_next_avail, with_size, with_state};

mod again;
mod available;
mod chain;
mod copies;
mod descriptor;
mod driver;
mod events;
mod flags;
mod position;
mod state;
mod used;

pub use self::descriptor::{PackedDescriptor, VRING_PACKED_DESC_F_AVAIL, VRING_PACKED_DESC_F_USED};
pub use self::driver::{PackedDriver, PackedField};
pub use self::events::{
    VRING_PACKED_EVENT_FLAG_DESC, VRING_PACKED_EVENT_FLAG_DISABLE, VRING_PACKED_EVENT_FLAG_ENABLE,
};
pub use self::position::RingPosition;
use self::position::are_positions;
pub use self::state::{PackedBuffer, PackedState};
use crate::error::QueueError;
use crate::hints::Hints;
use crate::queue::BarrierWord;
use std::marker::Model;
use vm_memory_base::GuestAddress;

/// A packed virtqueue, as the device sees it: the crate's README.md, "Packed queues".
///
/// It has the calls of a split [`Queue`](crate::Queue), and those return its errors, but `NestedIndirect`. A chain that
/// was popped is returned by what it was popped with.
///
/// ```text
/// while let Some((buffer, chain)) = queue.pop_descriptor_chain(alloc, &memory, &host)? {
///     let len = serve(&memory, &mut host, &chain)?;
///     queue.add_used(&memory, &mut host, buffer, len)?;
/// }
/// ```
#[derive(Drop)]
pub struct PackedQueue {
    state: PackedState,
    // How many slots were used since `needs_notification` was last asked, if it is known, and 65536 if more.
    added: Option<u32>,
    // What keeps its accesses of guest memory in order: the crate's README.md, "Order".
    barrier: BarrierWord,
    // Which regions its accesses ask first: the crate's README.md, "Hints".
    hints: Hints,
}

impl Model for PackedQueue {
    ghost use Rattle.virtio_queue.specs.Packed.{PackedVirtqueue, IsPackedState};

    ghost Value = { PackedVirtqueue };

    ghost view = { λ q. record { state = q.state; added = q.added } };

    ghost invariant = { λ q. IsPackedState q.state };
}

// Whether a size is 1 to 32768.
#[inline]
fn is_packed_size(size: u16) -> bool
    ensures { result ≡ is_packed_size size }
{
    size > 0 && size <= 0x8000
}

// The state of a queue that nobody has set up.
#[inline]
fn new_state(max_size: u16) -> PackedState
    ensures { result ≡ new_state max_size }
{
    PackedState {
        max_size,
        size: max_size,
        ready: false,
        desc_ring: 0,
        driver_area: 0,
        device_area: 0,
        next_avail: RingPosition::beginning(),
        next_used: RingPosition::beginning(),
        event_idx_enabled: false,
    }
}

// Why no queue can have this state, if that is so.
fn state_error(state: &PackedState) -> Option<QueueError>
    ensures { result ≡ state_error state.now }
{
    if !is_packed_size(state.max_size) {
        Some(QueueError::InvalidMaxSize)
    } else if !is_packed_size(state.size) || state.size > state.max_size {
        Some(QueueError::InvalidSize)
    } else if state.desc_ring % 16 != 0 {
        Some(QueueError::InvalidDescTableAlign)
    } else if state.driver_area % 4 != 0 {
        Some(QueueError::InvalidAvailRingAlign)
    } else if state.device_area % 4 != 0 {
        Some(QueueError::InvalidUsedRingAlign)
    } else if !are_positions(state.size, state.next_avail, state.next_used) {
        Some(QueueError::InvalidAvailRingIndex)
    } else {
        None
    }
}

impl PackedQueue {
    /// A queue in its reset state, with the maximum size. `InvalidMaxSize` if that is not 1 to 32768.
    pub fn new(max_size: u16) -> Result<PackedQueue, QueueError>
        ensures { result ≡
            if is_packed_size max_size then Ok (new_queue max_size) else Err QueueError.InvalidMaxSize }
    {
        if !is_packed_size(max_size) {
            return Err(QueueError::InvalidMaxSize);
        }
        Ok(PackedQueue {
            state: new_state(max_size),
            added: Some(0),
            barrier: BarrierWord::new(),
            hints: Hints::new(),
        })
    }

    /// A queue of this state. The first part that a queue cannot have is refused: `InvalidMaxSize`, `InvalidSize`,
    /// `InvalidDescTableAlign`, `InvalidAvailRingAlign` of the driver's area, `InvalidUsedRingAlign` of the device's
    /// area, `InvalidAvailRingIndex` of the positions, in this order. Which slots the driver was notified of is not
    /// part of a state, so the queue's first `needs_notification` is true.
    pub fn from_state(state: PackedState) -> Result<PackedQueue, QueueError>
        ensures { MatchResult result
            (λ queue. (queue ≡ record { state = state; added = None }) × (state_error state ≡ None))
            (λ e. state_error state ≡ Some e) }
    {
        if let Some(error) = state_error(&state) {
            return Err(error);
        }
        Ok(PackedQueue {
            state,
            added: None,
            barrier: BarrierWord::new(),
            hints: Hints::new(),
        })
    }

    /// Its state, from which a queue can be made again.
    #[inline]
    pub fn state(&self) -> PackedState
        ensures state { result ≡ self.now.state }
        ensures possible { state_error result ≡ None }
    {
        self.state
    }

    /// Resets it to what `new` gave: not ready, with the maximum size, at the beginning of the ring, and all else 0.
    pub fn reset(&mut self)
        ensures { self.new ≡ new_queue self.old.state.max_size }
    {
        self.state = new_state(self.state.max_size);
        self.added = Some(0);
    }

    /// The greatest size that the device allows.
    #[inline]
    pub fn max_size(&self) -> u16
        ensures { result ≡ self.now.state.max_size }
    {
        self.state.max_size
    }

    /// How many descriptors the ring has.
    #[inline]
    pub fn size(&self) -> u16
        ensures size { result ≡ self.now.state.size }
        ensures possible { IsTrue (is_packed_size result) }
    {
        self.state.size
    }

    /// Sets the size, and both positions to the beginning of the ring. `InvalidSize` if the size is not 1 to the
    /// greatest size.
    pub fn set_size(&mut self, size: u16) -> Result<(), QueueError>
        ensures { (result, self.new) ≡ set_if (is_packed_size size && nat_le size self.old.state.max_size)
            QueueError.InvalidSize self.old (with_size self.old size) }
    {
        if !is_packed_size(size) || size > self.state.max_size {
            return Err(QueueError::InvalidSize);
        }
        self.state.size = size;
        self.state.next_avail = RingPosition::beginning();
        self.state.next_used = RingPosition::beginning();
        self.added = None;
        Ok(())
    }

    /// Whether the driver has enabled the queue.
    #[inline]
    pub fn ready(&self) -> bool
        ensures { result ≡ self.now.state.ready }
    {
        self.state.ready
    }

    /// Sets whether the driver has enabled the queue.
    pub fn set_ready(&mut self, ready: bool)
        ensures { self.new ≡ with_state self.old (record self.old.state { ready = ready }) }
    {
        self.state.ready = ready;
    }

    /// Sets the address of the ring of descriptors. `InvalidDescTableAlign` if it is not a multiple of 16.
    pub fn try_set_desc_ring_address(&mut self, addr: GuestAddress) -> Result<(), QueueError>
        ensures { (result, self.new) ≡ set_if (addr.0 % 16 == 0) QueueError.InvalidDescTableAlign self.old
            (with_state self.old (record self.old.state { desc_ring = addr.0 })) }
    {
        if addr.0 % 16 != 0 {
            return Err(QueueError::InvalidDescTableAlign);
        }
        self.state.desc_ring = addr.0;
        Ok(())
    }

    /// Sets the address of the driver's event suppression structure, which is where a split queue has its available
    /// ring. `InvalidAvailRingAlign` if it is not a multiple of 4.
    pub fn try_set_driver_area_address(&mut self, addr: GuestAddress) -> Result<(), QueueError>
        ensures { (result, self.new) ≡ set_if (addr.0 % 4 == 0) QueueError.InvalidAvailRingAlign self.old
            (with_state self.old (record self.old.state { driver_area = addr.0 })) }
    {
        if addr.0 % 4 != 0 {
            return Err(QueueError::InvalidAvailRingAlign);
        }
        self.state.driver_area = addr.0;
        Ok(())
    }

    /// Sets the address of the device's event suppression structure, which is where a split queue has its used ring.
    /// `InvalidUsedRingAlign` if it is not a multiple of 4.
    pub fn try_set_device_area_address(&mut self, addr: GuestAddress) -> Result<(), QueueError>
        ensures { (result, self.new) ≡ set_if (addr.0 % 4 == 0) QueueError.InvalidUsedRingAlign self.old
            (with_state self.old (record self.old.state { device_area = addr.0 })) }
    {
        if addr.0 % 4 != 0 {
            return Err(QueueError::InvalidUsedRingAlign);
        }
        self.state.device_area = addr.0;
        Ok(())
    }

    /// Whether notifications may go by the offset of a descriptor.
    #[inline]
    pub fn event_idx_enabled(&self) -> bool
        ensures { result ≡ self.now.state.event_idx_enabled }
    {
        self.state.event_idx_enabled
    }

    /// Sets whether notifications may go by the offset of a descriptor.
    pub fn set_event_idx(&mut self, enabled: bool)
        ensures { self.new ≡ with_state self.old (record self.old.state { event_idx_enabled = enabled }) }
    {
        self.state.event_idx_enabled = enabled;
    }

    /// Where the next chain is popped.
    #[inline]
    pub fn next_avail(&self) -> RingPosition
        ensures next { result ≡ self.now.state.next_avail }
        ensures slot { result.slot < 2 ^ 15 }
        ensures possible { let q = self.now.state in IsTrue (are_positions q.size result q.next_used) }
    {
        self.state.next_avail
    }

    /// Sets where the next chain is popped: with the place of one that was popped, that is the next one again.
    /// `InvalidAvailRingIndex` if the slot is not in the ring, or more slots would be out than it has.
    pub fn set_next_avail(&mut self, next_avail: RingPosition) -> Result<(), QueueError>
        ensures { (result, self.new) ≡ set_if (are_positions self.old.state.size next_avail self.old.state.next_used)
            QueueError.InvalidAvailRingIndex self.old (with_next_avail self.old next_avail) }
    {
        if !are_positions(self.state.size, next_avail, self.state.next_used) {
            return Err(QueueError::InvalidAvailRingIndex);
        }
        self.state.next_avail = next_avail;
        Ok(())
    }

    /// Both positions as vhost's messages carry them: in the low half where the next chain is popped, in the high half
    /// where the next one is returned, each as a slot with its wrap counter in bit 15.
    #[inline]
    pub fn vring_base(&self) -> u32
        ensures { result ≡ base_of self.now.state }
    {
        let avail = u32::from(self.state.next_avail.to_bits());
        let used = u32::from(self.state.next_used.to_bits());
        avail + used * 0x1_0000
    }

    /// Sets both positions, as `vring_base` gives them. Which slots the driver was notified of is not known then, so
    /// the next `needs_notification` is true. `InvalidAvailRingIndex` if a slot is not in the ring, or more slots would
    /// be out than it has.
    pub fn set_vring_base(&mut self, base: u32) -> Result<(), QueueError>
        ensures { (result, self.new) ≡ at_base self.old base }
    {
        let avail = RingPosition::from_bits((base % 0x1_0000) as u16);
        let used = RingPosition::from_bits((base / 0x1_0000) as u16);
        if !are_positions(self.state.size, avail, used) {
            return Err(QueueError::InvalidAvailRingIndex);
        }
        self.state.next_avail = avail;
        self.state.next_used = used;
        self.added = None;
        Ok(())
    }
}
