//! Regions over whole blocks of a host.
ghost use Rattle.std.specs.Prelude.{◌≡◌, ◌+◌, ◌^◌, ◌<◌, ◌≤◌, ◌↔◌, ◌⊎◌, List, [], ◌∷◌, ◌++◌, length};
ghost use Rattle.std.specs.Prelude.{Some, None, is_some, IsSome, IfSome, IfOk, IfErr, OnOk, OnErr, IsErrOf};
ghost use Rattle.std.specs.Prelude.{ℕ, MatchResult, map, flat_map, take, slice_get};
ghost use Rattle.vm_memory_guest.specs.Host as names;
ghost use Rattle.vm_memory_guest.specs.Host.{Name, shape_of, with_block, Holds, block_at, has_bytes};
ghost use Rattle.vm_memory_guest.specs.Collection.{regions_of};
ghost use Rattle.vm_memory_guest.specs.Mmap.{mmap_region, whole_window};
ghost use Rattle.vm_memory_guest.specs.Ranges.{range_error, range_refusal, range_region, range_regions};
ghost use Rattle.vm_memory_guest.specs.Ranges.{AllFit, FoundNoMemory, HasBlocks, refused_at};
ghost use Rattle.vm_memory_guest.specs.Region.{slice_from, layout_error, region_names};
ghost use Rattle.vm_memory_guest.specs.declared.mmap.FromRangesError.TheVariants as error;
ghost use Rattle.vm_memory_guest.specs.declared.mmap.GuestRegionMmap.{GuestRegionMmap};

use crate::collection::GuestRegionCollection;
use crate::host::{BlockId, HostMemory, HostShape, MmapRegionError, Named};
use crate::region::GuestMemoryRegion;
use crate::region::bytes::GuestMemoryRegionBytes;
use crate::region::error::{GuestMemoryError, GuestMemoryResult, GuestRegionCollectionError};
use crate::volatile_memory::VolatileMemory;
use crate::volatile_memory::slice::VolatileSlice;
use std::alloc::{AllocError, Global};
use std::marker::Model;
use std::sync::Arc;
use thiserror::Error;
use vm_memory_base::{
    BitmapId, BitmapRef, GuestAddress, GuestUsize, MemoryRegionAddress, NewBitmap,
    VolatileMemoryResult,
};

/// A whole block of a host: 1 to 2^63 - 1 bytes.
#[derive(Clone, Copy, Debug)]
pub struct MmapRegion {
    block: BlockId,
    size: usize,
    ghost some: { 0 < size },
    ghost bound: { size < 2 ^ 63 },
}

impl Model for MmapRegion {
    ghost use Rattle.vm_memory_guest.specs.Mmap.{WholeBlock};

    ghost Value = { WholeBlock };

    ghost view = { λ r. record { block = r.block.0; size = r.size; some = r.some; bound = r.bound } };

    ghost inverse = { λ b. record {
      block = record { 0 = b.block };
      size = b.size;
      some = b.some;
      bound = b.bound;
    } };
}

impl MmapRegion {
    /// Makes a block of `size` zeroed bytes in the host: `InvalidSize` for 0 or above 2^63 - 1, `Memory` if
    /// an allocation fails. A refusal changes nothing.
    pub fn new<B: NewBitmap + Drop>(
        host: &mut HostMemory<B>,
        size: usize,
    ) -> Result<MmapRegion, MmapRegionError>
        ensures block { IfOk result (λ r. r.block ≡ length host.old.blocks) }
        ensures size { IfOk result (λ r. r.size ≡ size) }
        ensures ok { OnOk result ((bitmap : B) × B.made size bitmap
            × (host.new ≡ with_block host.old size bitmap)) }
        ensures invalid { IsErrOf result MmapRegionError.InvalidSize ↔ ((size ≡ 0) ⊎ (2 ^ 63 ≤ size)) }
        ensures err { OnErr result (host.new ≡ host.old) }
        ensures held { IfOk result (λ r. Holds (shape_of host.new) (names.Place r.block 0 r.size ∷ [])) }
        ensures kept { (names : List Name) →
            Holds (shape_of host.old) names → Holds (shape_of host.new) names }
    {
        let block = host.new_block(size)?;
        Ok(MmapRegion { block, size })
    }

    /// The whole block of this number, if there is one that was not given back.
    pub fn of_block<B>(host: &HostMemory<B>, block: BlockId) -> Option<MmapRegion>
        ensures there { is_some result ≡ has_bytes (shape_of host.now) block.0 }
        ensures block { IfSome result (λ r. r.block ≡ block.0) }
        ensures size { IfSome result (λ r. r.size ≡ length (block_at host.now.blocks block.0)) }
        ensures held { IfSome result (λ r. Holds (shape_of host.now) (names.Place r.block 0 r.size ∷ [])) }
    {
        match host.shape().block_len(block) {
            Some(size) if size > 0 => Some(MmapRegion { block, size }),
            _ => None,
        }
    }

    /// The number of bytes.
    #[inline]
    pub fn size(&self) -> usize
        ensures { result ≡ self.now.size }
    {
        self.size
    }

    /// The view of the block's bitmap from the first byte on.
    #[inline]
    pub fn bitmap(&self) -> BitmapRef
        ensures { result ≡ (whole_window self.now).bitmap }
    {
        BitmapRef {
            id: BitmapId::Block(self.block.0),
            base: 0,
        }
    }

    // The window of `count` bytes from `offset` on, or `InvalidBackendAddress` where it passes the end.
    #[inline]
    fn window(&self, offset: u64, count: usize) -> GuestMemoryResult<VolatileSlice>
        ensures { result ≡
            slice_from (Some (record { block = self.now.block; offset = 0 })) self.now.size offset count }
    {
        if offset > self.size as u64 || count > self.size - offset as usize {
            return Err(GuestMemoryError::InvalidBackendAddress);
        }
        Ok(VolatileSlice::of_block(self.block, offset as usize, count))
    }
}

/// The bytes of the block, writes to which mark the block's bitmap.
impl VolatileMemory for MmapRegion {
    ghost use Rattle.vm_memory_guest.specs.Mmap.{whole_window};
    ghost use Rattle.vm_memory_guest.specs.lemmas.TypedFacts.{subslice-sized, subslice-whole};
    ghost use Rattle.vm_memory_guest.specs.Window.{subslice_of};

    ghost size = { λ r. r.size };

    ghost slice = { λ r. subslice_of (whole_window r) };

    #[inline]
    fn len(&self) -> usize {
        self.size
    }

    #[inline]
    fn get_slice(&self, offset: usize, count: usize) -> VolatileMemoryResult<VolatileSlice> {
        VolatileSlice::of_block(self.block, 0, self.size).subslice(offset, count)
    }

    ghost gives_all = { λ r. subslice-sized (whole_window r) };

    ghost gives_whole = { λ r. subslice-whole (whole_window r) };
}

/// A block of a host at a guest address. A block may lie at several addresses.
#[derive(Clone, Copy, Debug)]
pub struct GuestRegionMmap {
    mapping: MmapRegion,
    guest_base: GuestAddress,
    ghost fits: { guest_base.0 + mapping.size < 2 ^ 64 },
}

impl Model for GuestRegionMmap {
    ghost use Rattle.vm_memory_guest.specs.Mmap.{PlacedBlock};

    ghost Value = { PlacedBlock };

    ghost view = { λ r. record { start = r.guest_base.0; mapping = r.mapping; fits = r.fits } };

    ghost inverse = { λ b. record {
      mapping = b.mapping;
      guest_base = record { 0 = b.start };
      fits = b.fits;
    } };
}

impl GuestRegionMmap {
    /// The block at a guest address, or `None` exactly if the address plus the size passes 2^64 - 1.
    pub fn new(mapping: MmapRegion, guest_base: GuestAddress) -> Option<Self>
        ensures fits { IsSome result ↔ (guest_base.0 + mapping.size < 2 ^ 64) }
        ensures value { IfSome result (λ r. (r.start ≡ guest_base.0) × (r.mapping ≡ mapping)) }
    {
        guest_base.0.checked_add(mapping.size as u64)?;
        Some(GuestRegionMmap {
            mapping,
            guest_base,
        })
    }

    /// The shared block at a guest address, as `new` gives it.
    pub fn with_arc(mapping: Arc<MmapRegion>, guest_base: GuestAddress) -> Option<Self>
        ensures fits { IsSome result ↔ (guest_base.0 + mapping.value.size < 2 ^ 64) }
        ensures value { IfSome result (λ r. (r.start ≡ guest_base.0) × (r.mapping ≡ mapping.value)) }
    {
        GuestRegionMmap::new(*mapping, guest_base)
    }

    /// The block that has the bytes of the region.
    #[inline]
    pub fn get_mmap(&self) -> MmapRegion
        ensures { result ≡ self.now.mapping }
    {
        self.mapping
    }
}

impl Named for GuestRegionMmap {
    ghost use Rattle.vm_memory_guest.specs.Mmap.{mmap_region};
    ghost use Rattle.vm_memory_guest.specs.Region.{region_names};

    ghost names = { λ r. region_names (mmap_region r) };

    fn held_by(&self, shape: &HostShape) -> bool {
        shape.has_place(self.mapping.block, 0, self.mapping.size)
    }
}

impl GuestMemoryRegion for GuestRegionMmap {
    ghost use Rattle.std.specs.Prelude.{refl};
    ghost use Rattle.vm_memory_guest.specs.Mmap.{mmap_region, mmap_fits};

    ghost region = { mmap_region };

    ghost fits = { mmap_fits };

    ghost names_place = { λ r. refl };

    #[inline]
    fn len(&self) -> GuestUsize {
        self.mapping.size as u64
    }

    #[inline]
    fn start_addr(&self) -> GuestAddress {
        self.guest_base
    }

    #[inline]
    fn last_addr(&self) -> GuestAddress {
        GuestAddress(self.guest_base.0 + (self.mapping.size as u64 - 1))
    }

    #[inline]
    fn bitmap(&self) -> BitmapRef {
        self.mapping.bitmap()
    }

    #[inline]
    fn get_slice(
        &self,
        offset: MemoryRegionAddress,
        count: usize,
    ) -> GuestMemoryResult<VolatileSlice> {
        self.mapping.window(offset.0, count)
    }
}

/// Why ranges of addresses do not make guest memory.
#[derive(Debug, Drop, Error)]
pub enum FromRangesError {
    /// The regions do not make a layout.
    #[error("Error constructing guest region collection: {0}")]
    Collection(GuestRegionCollectionError),
    /// The block of a range was not made.
    #[error("Error setting up raw memory for guest region: {0}")]
    MmapRegion(MmapRegionError),
    /// The address plus the size passes 2^64 - 1.
    #[error("Combination of guest address and region length invalid (would overflow)")]
    InvalidGuestRegion,
}

impl From<GuestRegionCollectionError> for FromRangesError {
    ghost from_gives = { λ e r. r ≡ error.Collection e };

    fn from(e: GuestRegionCollectionError) -> FromRangesError {
        FromRangesError::Collection(e)
    }
}

impl From<MmapRegionError> for FromRangesError {
    ghost from_gives = { λ e r. r ≡ error.MmapRegion e };

    fn from(e: MmapRegionError) -> FromRangesError {
        FromRangesError::MmapRegion(e)
    }
}

impl GuestRegionMmap {
    /// Makes a block of `size` zeroed bytes in the host, at a guest address. The size is tested first, as in
    /// `MmapRegion::new`, and then that the address plus the size fits: `InvalidGuestRegion` if it does not.
    /// A failed allocation is `MmapRegion(Memory)`. No refusal adds a block.
    pub fn from_range<B: NewBitmap + Drop>(
        host: &mut HostMemory<B>,
        addr: GuestAddress,
        size: usize,
    ) -> Result<Self, FromRangesError>
        ensures region { MatchResult result
            (λ r. (range_error addr size ≡ None)
            × (mmap_region r ≡ range_region (length host.old.blocks) addr size))
            (λ e. e ≡ range_refusal addr size) }
        ensures ok { OnOk result ((bitmap : B) × B.made size bitmap
            × (host.new ≡ with_block host.old size bitmap)) }
        ensures err { OnErr result (host.new ≡ host.old) }
        ensures held { IfOk result (λ r. Holds (shape_of host.new) (region_names (mmap_region r))) }
        ensures kept { (names : List Name) →
            Holds (shape_of host.old) names → Holds (shape_of host.new) names }
    {
        if !HostShape::is_block_size(size) {
            return Err(FromRangesError::MmapRegion(MmapRegionError::InvalidSize));
        }
        if size as u64 > u64::MAX - addr.0 {
            return Err(FromRangesError::InvalidGuestRegion);
        }
        Ok(GuestRegionMmap {
            mapping: MmapRegion::new(host, size)?,
            guest_base: addr,
        })
    }
}

impl GuestMemoryRegionBytes for GuestRegionMmap {}

/// Guest memory made of blocks of a host.
pub type GuestMemoryMmap = GuestRegionCollection<GuestRegionMmap>;

impl GuestRegionCollection<GuestRegionMmap> {
    /// Guest memory of new blocks of zeroed bytes: each range is the first address and the size of one. The
    /// blocks are made in order, as `GuestRegionMmap::from_range` does, and then the regions are tested as in
    /// `from_regions`. A failed allocation of a block is `MmapRegion(Memory)`, one of a shared region or of the
    /// collection `Collection(Memory)`. The blocks before a refusal stay in the host, and nothing names them.
    ///
    /// Leaves open: a failed allocation for each range without a fault, and after each block. The blocks before it
    /// stay.
    pub fn from_ranges<B: NewBitmap + Drop>(
        alloc: Global,
        host: &mut HostMemory<B>,
        ranges: &[(GuestAddress, usize)],
    ) -> Result<Self, FromRangesError>
        ensures answer { let regions = range_regions (length host.old.blocks) ranges.now in
            (n : ℕ) × (n ≤ length ranges.now) × AllFit (take n ranges.now)
            × HasBlocks B.made (take n ranges.now) host.old host.new × MatchResult result
            (λ c. (n ≡ length ranges.now) × (layout_error regions ≡ None) × (map mmap_region c ≡ regions))
            (λ e. FoundNoMemory n e ⊎ (refused_at (slice_get ranges.now n) regions ≡ Some e)) }
        ensures held { IfOk result (λ c.
            Holds (shape_of host.new) (flat_map region_names (map mmap_region c))) }
        ensures kept { (names : List Name) →
            Holds (shape_of host.old) names → Holds (shape_of host.new) names }
    {
        let regions = ranges_in(alloc, host, ranges)?;
        Ok(GuestRegionCollection::from_arc_regions(regions)?)
    }
}

// The regions of ranges, over new blocks.
fn ranges_in<B: NewBitmap + Drop>(
    alloc: Global,
    host: &mut HostMemory<B>,
    ranges: &[(GuestAddress, usize)],
) -> Result<Vec<Arc<GuestRegionMmap>>, FromRangesError>
    ensures answer { let regions = range_regions (length host.old.blocks) ranges.now in
        (n : ℕ) × (n ≤ length ranges.now) × AllFit (take n ranges.now)
        × HasBlocks B.made (take n ranges.now) host.old host.new × MatchResult result
        (λ made. (n ≡ length ranges.now) × (map mmap_region (regions_of made) ≡ regions))
        (λ e. FoundNoMemory n e ⊎ ((n < length ranges.now)
        × (refused_at (slice_get ranges.now n) regions ≡ Some e))) }
    ensures held { IfOk result (λ made.
        Holds (shape_of host.new) (flat_map region_names (map mmap_region (regions_of made)))) }
    ensures kept { (names : List Name) →
        Holds (shape_of host.old) names → Holds (shape_of host.new) names }
{
    let mut regions = Vec::new(alloc);
    for range in ranges {
        add_range(alloc, host, *range, &mut regions)?;
    }
    Ok(regions)
}

// One region more, over a new block.
fn add_range<B: NewBitmap + Drop>(
    alloc: Global,
    host: &mut HostMemory<B>,
    range: (GuestAddress, usize),
    regions: &mut Vec<Arc<GuestRegionMmap>>,
) -> Result<(), FromRangesError>
    ensures ok { OnOk result ((range_error range.0 range.1 ≡ None)
        × ((bitmap : B) × B.made range.1 bitmap × (host.new ≡ with_block host.old range.1 bitmap))
        × ((r : GuestRegionMmap) × (regions_of regions.new ≡ regions_of regions.old ++ r ∷ [])
        × (mmap_region r ≡ range_region (length host.old.blocks) range.0 range.1)
        × Holds (shape_of host.new) (region_names (mmap_region r)))) }
    ensures err { IfErr result (λ e.
        ((host.new ≡ host.old) × (e ≡ range_refusal range.0 range.1))
        ⊎ ((e ≡ FromRangesError.Collection GuestRegionCollectionError.Memory) × (range_error range.0 range.1 ≡ None)
        × ((bitmap : B) × B.made range.1 bitmap × (host.new ≡ with_block host.old range.1 bitmap)))) }
    ensures kept { (names : List Name) →
        Holds (shape_of host.old) names → Holds (shape_of host.new) names }
{
    let region = GuestRegionMmap::from_range(host, range.0, range.1)?;
    match share(alloc, region, regions) {
        Ok(()) => Ok(()),
        Err(_) => Err(FromRangesError::Collection(GuestRegionCollectionError::Memory)),
    }
}

// One value more, to be shared.
fn share<R: Drop>(alloc: Global, value: R, values: &mut Vec<Arc<R>>) -> Result<(), AllocError>
    ensures ok { OnOk result (regions_of values.new ≡ regions_of values.old ++ value ∷ []) }
{
    values.push(Arc::new(alloc, value)?)?;
    Ok(())
}
