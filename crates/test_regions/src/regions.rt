//! Regions of other kinds than a whole block below the greatest address.
ghost use Rattle.std.specs.Prelude.{◌+◌, ◌^◌, ◌<◌, ◌≤◌};
ghost use Rattle.vm_memory_guest.specs.Mmap.{mmap_region};

use std::sync::atomic::{AtomicUsize, Ordering};
use vm_memory_base::{BitmapId, BitmapRef, GuestAddress, GuestUsize, MemoryRegionAddress};
use vm_memory_guest::{
    GuestMemoryError, GuestMemoryRegion, GuestMemoryRegionBytes, GuestMemoryResult,
    GuestRegionMmap, HostShape, MmapRegion, Named, VolatileSlice,
};

/// A whole block at an address, which may end at the greatest one.
#[derive(Clone, Copy, Debug)]
pub struct MovedRegion {
    bytes: GuestRegionMmap,
    start: GuestAddress,
    ghost fits: { start.0 + (mmap_region bytes).len ≤ 2 ^ 64 },
}

/// Addresses without host bytes, which count how often they are asked for the first.
#[derive(Drop)]
pub struct BareRegion {
    start: GuestAddress,
    len: u64,
    asked: AtomicUsize,
    ghost some: { 0 < len },
    ghost short: { len < 2 ^ 64 },
    ghost fits: { start.0 + len ≤ 2 ^ 64 },
}

/// A region with bytes, or without.
#[derive(Drop)]
pub enum TestRegion {
    Moved(MovedRegion),
    Bare(BareRegion),
}

impl TestRegion {
    /// A whole block at an address, if it ends at the greatest one or before.
    pub fn moved(mapping: MmapRegion, start: GuestAddress) -> Option<TestRegion> {
        let bytes = GuestRegionMmap::new(mapping, GuestAddress(0))?;
        start.0.checked_add(bytes.len() - 1)?;
        Some(TestRegion::Moved(MovedRegion { bytes, start }))
    }

    /// Addresses without host bytes: one or more, which end at the greatest address or before.
    pub fn bare(start: GuestAddress, len: u64) -> Option<TestRegion> {
        start.0.checked_add(len.checked_sub(1)?)?;
        Some(TestRegion::Bare(BareRegion {
            start,
            len,
            asked: AtomicUsize::new(0),
        }))
    }

    /// How often it was asked for its first address. One with host bytes does not count that.
    pub fn asked(&self) -> usize {
        match self {
            TestRegion::Moved(_) => 0,
            TestRegion::Bare(region) => region.asked.load(Ordering::SeqCst),
        }
    }
}

impl Named for TestRegion {
    ghost use Rattle.vm_memory_guest.specs.Region.{region_names};
    ghost use Rattle.test_regions.specs.Regions.{test_region};

    ghost names = { λ r. region_names (test_region r) };

    fn held_by(&self, shape: &HostShape) -> bool {
        match self {
            TestRegion::Moved(region) => region.bytes.held_by(shape),
            TestRegion::Bare(_) => true,
        }
    }
}

impl GuestMemoryRegionBytes for TestRegion {}

impl GuestMemoryRegion for TestRegion {
    ghost use Rattle.std.specs.Prelude.{refl};
    ghost use Rattle.test_regions.specs.Regions.{test_region, test_fits};

    ghost region = { test_region };

    ghost fits = { test_fits };

    ghost names_place = { λ r. refl };

    fn len(&self) -> GuestUsize {
        match self {
            TestRegion::Moved(region) => region.bytes.len(),
            TestRegion::Bare(region) => region.len,
        }
    }

    fn start_addr(&self) -> GuestAddress {
        match self {
            TestRegion::Moved(region) => region.start,
            TestRegion::Bare(region) => {
                region.asked.fetch_add(1, Ordering::SeqCst);
                region.start
            }
        }
    }

    fn last_addr(&self) -> GuestAddress {
        match self {
            TestRegion::Moved(region) => GuestAddress(region.start.0 + (region.bytes.len() - 1)),
            TestRegion::Bare(region) => GuestAddress(region.start.0 + (region.len - 1)),
        }
    }

    fn bitmap(&self) -> BitmapRef {
        match self {
            TestRegion::Moved(region) => region.bytes.bitmap(),
            TestRegion::Bare(_) => BitmapRef {
                id: BitmapId::Block(0),
                base: 0,
            },
        }
    }

    fn get_slice(
        &self,
        offset: MemoryRegionAddress,
        count: usize,
    ) -> GuestMemoryResult<VolatileSlice> {
        match self {
            TestRegion::Moved(region) => region.bytes.get_slice(offset, count),
            TestRegion::Bare(_) => Err(GuestMemoryError::HostAddressNotAvailable),
        }
    }
}
