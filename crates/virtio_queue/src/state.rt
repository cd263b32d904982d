//! The state of a queue as a plain value.

/// Everything that a queue keeps outside guest memory, as a plain value: to be stored, or sent to the host that a
/// machine moves to. `Queue::state` gives it, and `Queue::from_state` makes a queue of it.
#[derive(Clone, Copy, Debug, PartialEq, Eq)]
pub struct QueueState {
    /// The greatest size that the device allows.
    pub max_size: u16,
    /// How many descriptors the table has, and how many entries each ring has.
    pub size: u16,
    /// Whether the driver has enabled the queue.
    pub ready: bool,
    /// The guest address of the table of descriptors.
    pub desc_table: u64,
    /// The guest address of the available ring.
    pub avail_ring: u64,
    /// The guest address of the used ring.
    pub used_ring: u64,
    /// How many chains were popped, modulo 2^16.
    pub next_avail: u16,
    /// How many entries were added to the used ring, modulo 2^16.
    pub next_used: u16,
    /// Whether notifications go by event indices rather than flags.
    pub event_idx_enabled: bool,
}
