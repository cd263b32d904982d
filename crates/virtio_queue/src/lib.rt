//! Virtqueues over guest memory, split and packed: what a device takes from a driver, and what it returns.
#![tactic(auto)]

mod any;
mod chain;
mod descriptor;
mod driver;
mod error;
pub mod examples;
mod fields;
mod hints;
pub mod laws;
mod looks;
mod packed;
pub mod packed_laws;
mod queue;
mod spare;
mod state;
mod stores;

pub use any::AnyQueue;
pub use descriptor::{Descriptor, VRING_DESC_F_INDIRECT, VRING_DESC_F_NEXT, VRING_DESC_F_WRITE};
pub use driver::{DriverQueue, QueueField};
pub use error::QueueError;
pub use looks::Looks;
pub use packed::{
    PackedBuffer, PackedDescriptor, PackedDriver, PackedField, PackedQueue, PackedState,
    RingPosition, VRING_PACKED_DESC_F_AVAIL, VRING_PACKED_DESC_F_USED,
    VRING_PACKED_EVENT_FLAG_DESC, VRING_PACKED_EVENT_FLAG_DISABLE, VRING_PACKED_EVENT_FLAG_ENABLE,
};
pub use queue::{Queue, VRING_AVAIL_F_NO_INTERRUPT, VRING_USED_F_NO_NOTIFY};
pub use spare::SpareLists;
pub use state::QueueState;
pub use stores::Stores;
