//! The state of a packed queue as a plain value, and what a chain is returned by.

use super::position::RingPosition;

/// Everything that a packed queue keeps outside guest memory, as a plain value: to be stored, or sent to the host that
/// a machine moves to. `PackedQueue::state` gives it, and `PackedQueue::from_state` makes a queue of it.
#[derive(Clone, Copy, Debug, PartialEq, Eq)]
pub struct PackedState {
    /// The greatest size that the device allows.
    pub max_size: u16,
    /// How many descriptors the ring has.
    pub size: u16,
    /// Whether the driver has enabled the queue.
    pub ready: bool,
    /// The guest address of the ring of descriptors.
    pub desc_ring: u64,
    /// The guest address of the driver's event suppression structure.
    pub driver_area: u64,
    /// The guest address of the device's event suppression structure.
    pub device_area: u64,
    /// Where the next chain is popped.
    pub next_avail: RingPosition,
    /// Where the next chain is returned.
    pub next_used: RingPosition,
    /// Whether notifications may go by the offset of a descriptor.
    pub event_idx_enabled: bool,
}

/// What a chain is returned by. A chain may be returned before those that were popped in front of it.
#[derive(Clone, Copy, Debug, PartialEq, Eq)]
pub struct PackedBuffer {
    /// The driver's id for the chain, of which a device makes nothing.
    pub id: u16,
    /// How many slots of the ring the chain took.
    pub slots: u16,
}
