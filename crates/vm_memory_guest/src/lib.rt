//! Host memory, windows of it, the regions of a guest, and guest memory.
#![tactic(auto)]

mod address_space;
mod atomic;
mod bytes;
mod collection;
pub mod examples;
mod guest_memory;
mod host;
pub mod laws;
mod mmap;
mod region;
mod volatile_memory;

pub use address_space::GuestAddressSpace;
pub use atomic::{
    GuestMemoryAtomic, GuestMemoryExclusiveGuard, GuestMemoryLoadGuard, GuestMemoryReader,
};
pub use bytes::Bytes;
pub use collection::GuestRegionCollection;
pub use guest_memory::backend::{GuestMemoryBackend, GuestMemoryBackendSliceIterator};
pub use guest_memory::hinted::Hinted;
pub use guest_memory::iter::RegionIter;
pub use guest_memory::stop_on_error::{GuestMemorySliceIterator, StopOnError};
pub use guest_memory::{GuestMemory, IommuMemorySliceIterator};
pub use host::address::HostAddress;
pub use host::block_bytes::{BlockBytes, HostPlace};
pub use host::{BlockId, HostMemory, HostShape, MmapRegionError, Named, SpaceId, TlbId};
pub use mmap::{FromRangesError, GuestMemoryMmap, GuestRegionMmap, MmapRegion};
pub use region::GuestMemoryRegion;
pub use region::bytes::GuestMemoryRegionBytes;
pub use region::error::{GuestMemoryError, GuestMemoryResult, GuestRegionCollectionError};
pub use volatile_memory::array::VolatileArrayRef;
pub use volatile_memory::reference::VolatileRef;
pub use volatile_memory::slice::VolatileSlice;
pub use volatile_memory::{VolatileMemory, compute_offset};
