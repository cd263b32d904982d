//! Why a packed queue does not start.
ghost use Rattle.std.specs.Prelude.{◌≡◌};

use std::alloc::AllocError;
use thiserror::Error;

/// Why a packed queue does not start on its region. Nothing is stored then.
#[derive(Clone, Copy, Debug, PartialEq, Eq, Error)]
pub enum PackedStartError {
    /// An allocation failed.
    #[error("out of memory")]
    Memory,
    /// The region has fewer bytes than its descriptors need.
    #[error("too short a region")]
    TooShort,
    /// The ring has more descriptors than the region.
    #[error("a ring larger than the region")]
    RingSize,
    /// The layout has another version.
    #[error("unknown version of the region")]
    Version,
    /// The region was written for another number of descriptors.
    #[error("a region for another number of descriptors")]
    DescNum,
    /// The used position is outside of the ring.
    #[error("a used position outside of the ring")]
    Position,
    /// The list of free entries leads outside of the region, or has no end.
    #[error("invalid list of free entries")]
    FreeList,
    /// An entry is neither in flight nor not.
    #[error("invalid mark of an entry in flight")]
    Mark,
    /// A count that no run reaches.
    #[error("invalid count of a chain in flight")]
    Counter,
    /// A chain of no entries, or chains of more than the ring has.
    #[error("invalid number of a chain's entries")]
    ChainLen,
    /// An entry of a chain is free, is of another chain too, or is outside of the region.
    #[error("an entry of a chain in flight that is not its own")]
    Shared,
    /// The last entry of a chain is another one.
    #[error("a chain in flight that ends elsewhere")]
    Last,
}

impl From<AllocError> for PackedStartError {
    ghost use Rattle.vhost_inflight.specs.declared.packed_error.PackedStartError.TheVariants.{Memory};

    ghost from_gives = { λ e r. r ≡ Memory };

    fn from(_: AllocError) -> PackedStartError {
        PackedStartError::Memory
    }
}
