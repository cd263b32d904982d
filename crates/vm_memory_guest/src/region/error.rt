//! Why accesses of guest memory and layouts of regions are refused.

use thiserror::Error;
use vm_memory_base::{GuestAddress, IoError, IommuError, VolatileMemoryError};

/// Why an access of guest memory was refused.
#[derive(Debug, Drop, Error)]
pub enum GuestMemoryError {
    /// No region holds the address.
    #[error("Guest memory error: invalid guest address {}", .0.0)]
    InvalidGuestAddress(GuestAddress),
    /// A source or a sink failed.
    #[error("Guest memory error: {0}")]
    IOError(IoError),
    /// Fewer bytes were moved than the buffer has.
    #[error("Guest memory error: only used {completed} bytes in {expected} long buffer")]
    PartialBuffer { expected: usize, completed: usize },
    /// The access does not fit the region or the window.
    #[error("Guest memory error: invalid backend address")]
    InvalidBackendAddress,
    /// The region has no host bytes.
    #[error("Guest memory error: host virtual address not available")]
    HostAddressNotAvailable,
    /// A callback of `try_access` returned more than was left.
    #[error("The length returned by the callback passed to `try_access` is outside the address range.")]
    CallbackOutOfRange,
    /// A callback of `try_access` went past the greatest address.
    #[error("The address to be read by `try_access` is outside the address range")]
    GuestAddressOverflow,
    /// The translation was refused.
    #[error("IOMMU failed to translate guest address: {0}")]
    IommuError(IommuError),
    /// An allocation failed.
    #[error("out of memory")]
    Memory,
}

/// The result of an access of guest memory.
pub type GuestMemoryResult<T> = Result<T, GuestMemoryError>;

/// An access that does not fit its window does not fit the region. A count, a failure of a source or a sink, and a
/// failed allocation stay what they are.
impl From<VolatileMemoryError> for GuestMemoryError {
    ghost use Rattle.std.specs.Prelude.{◌≡◌};
    ghost use Rattle.vm_memory_guest.specs.Error.{of_window};

    ghost from_gives = { λ e r. r ≡ of_window e };

    fn from(e: VolatileMemoryError) -> GuestMemoryError {
        match e {
            VolatileMemoryError::OutOfBounds { .. }
            | VolatileMemoryError::Overflow { .. }
            | VolatileMemoryError::TooBig { .. }
            | VolatileMemoryError::Misaligned { .. } => GuestMemoryError::InvalidBackendAddress,
            VolatileMemoryError::IOError(error) => GuestMemoryError::IOError(error),
            VolatileMemoryError::PartialBuffer {
                expected,
                completed,
            } => GuestMemoryError::PartialBuffer {
                expected,
                completed,
            },
            VolatileMemoryError::Memory => GuestMemoryError::Memory,
        }
    }
}

/// Why regions do not make a layout.
#[derive(Debug, Drop, Error)]
pub enum GuestRegionCollectionError {
    /// There is no region.
    #[error("No memory region found")]
    NoMemoryRegion,
    /// A region reaches the next.
    #[error("Some of the memory regions intersect with each other")]
    MemoryRegionOverlap,
    /// A region starts above the next.
    #[error("The provided memory regions haven't been sorted")]
    UnsortedMemoryRegions,
    /// An allocation failed.
    #[error("out of memory")]
    Memory,
}
