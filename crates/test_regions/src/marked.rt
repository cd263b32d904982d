//! A host whose block is marked by a marker of a bitmap that others harvest.
ghost use Rattle.std.specs.Prelude.{IfSome, IfOk};
ghost use Rattle.test_regions.specs.Markers.{IsMarkerOf, AreNewOf, AreMarkersOf};

use std::alloc::Global;
use std::sync::Arc;
use std::test::Fail;
use vm_memory_base::{GuestAddress, Marker, MarkerBitmap, TrackedBitmap};
use vm_memory_guest::{BlockId, GuestMemoryMmap, GuestRegionMmap, HostMemory, MmapRegion};

/// Takes the last of the markers.
pub fn next_marker(bitmap: &TrackedBitmap, markers: &mut Vec<Marker>) -> Option<Marker>
    requires { AreNewOf markers.old.items bitmap.now }
    ensures marker { IfSome result (λ m. IsMarkerOf m bitmap.now) }
    ensures others { AreNewOf markers.new.items bitmap.now }
{
    markers.pop()
}

pub type MarkedHost = HostMemory<MarkerBitmap>;

/// A host of one block of 0x400 bytes, which a marker of the bitmap marks.
pub fn marked_host(
    alloc: Global,
    bitmap: &Arc<TrackedBitmap>,
    marker: Marker,
) -> Result<MarkedHost, Fail>
    requires { IsMarkerOf marker bitmap.now.value }
    ensures { IfOk result (λ h. AreMarkersOf bitmap.now.value h.bitmaps) }
{
    let mut host = HostMemory::new(alloc);
    let marked = MarkerBitmap::new(bitmap.clone()?, marker);
    if host.new_block_with(0x400, marked).is_err() {
        return Err(Fail::new("allocation failed"));
    }
    Ok(host)
}

/// A memory of the block, from 0x1000 on.
pub fn memory_of_block(alloc: Global, host: &MarkedHost) -> Result<GuestMemoryMmap, Fail> {
    let block = MmapRegion::of_block(host, BlockId(0)).ok_or("there is no block")?;
    let region = GuestRegionMmap::new(block, GuestAddress(0x1000)).ok_or(
        "the region does not fit",
    )?;
    let regions = vec![in alloc; Arc::new(alloc, region)?]?;
    Ok(GuestMemoryMmap::from_arc_regions(regions)?)
}
