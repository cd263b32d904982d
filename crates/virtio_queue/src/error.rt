//! Why calls of a queue are refused.

use thiserror::Error;
use vm_memory_device::ChainFault;
use vm_memory_guest::GuestMemoryError;

/// Why a call of a queue was refused.
#[derive(Debug, Drop, Error)]
pub enum QueueError {
    /// The greatest size of a queue is 1 to 32768, and of a split one a power of two.
    #[error("invalid greatest size of a queue")]
    InvalidMaxSize,
    /// The size of a queue is 1 to the greatest, and of a split one a power of two.
    #[error("invalid size of a queue")]
    InvalidSize,
    /// The table of descriptors lies at a multiple of 16.
    #[error("descriptor table is not aligned")]
    InvalidDescTableAlign,
    /// The available ring lies at a multiple of 2, and the driver's area of a packed queue at one of 4.
    #[error("available ring is not aligned")]
    InvalidAvailRingAlign,
    /// The used ring lies at a multiple of 4, and so does the device's area of a packed queue.
    #[error("used ring is not aligned")]
    InvalidUsedRingAlign,
    /// The queue is not ready.
    #[error("queue is not ready")]
    QueueNotReady,
    /// A field of the queue lies past the greatest address.
    #[error("address overflow")]
    AddressOverflow,
    /// The driver's index is more than the queue's size ahead, or a packed queue cannot stand at these positions.
    #[error("invalid index of the available ring")]
    InvalidAvailRingIndex,
    /// A head or the next descriptor is at or past the length of its table, or a buffer took no slot of a packed queue,
    /// or more than are out.
    #[error("invalid descriptor index")]
    InvalidDescriptorIndex,
    /// A chain has more descriptors than its table: it is a loop.
    #[error("loop of descriptors")]
    DescriptorLoop,
    /// A descriptor leads to an indirect table and to a next descriptor.
    #[error("indirect descriptor with a next one")]
    IndirectWithNext,
    /// A descriptor of an indirect table leads to an indirect table.
    #[error("indirect table inside an indirect table")]
    NestedIndirect,
    /// The length of an indirect table is 0, not a multiple of 16, or above 65,535 descriptors.
    #[error("invalid length of an indirect table")]
    InvalidIndirectTable,
    /// The segments of the descriptors do not make a chain.
    #[error("invalid chain: {0}")]
    InvalidChain(ChainFault),
    /// The entry of the used ring does not lie whole in memory that may be written.
    #[error("used entry is not in memory")]
    InvalidUsedEntry,
    /// An access of guest memory was refused.
    #[error("{0}")]
    GuestMemory(GuestMemoryError),
    /// An allocation failed.
    #[error("out of memory")]
    Memory,
}

impl QueueError {
    ghost use Rattle.std.specs.Prelude.{◌≡◌};
    ghost use Rattle.virtio_queue.specs.Error.{of_access};

    // The error of a queue for one of an access. A call would keep each result in memory.
    #[inline(always)]
    pub(crate) fn of_access(error: GuestMemoryError) -> QueueError
        ensures { result ≡ of_access error }
    {
        match error {
            GuestMemoryError::Memory => QueueError::Memory,
            error => QueueError::GuestMemory(error),
        }
    }
}
