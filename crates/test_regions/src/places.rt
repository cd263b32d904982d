//! Regions by where they lie, memories of them, and a window.

use crate::regions::TestRegion;
use std::alloc::Global;
use std::sync::Arc;
use std::test::Fail;
use vm_memory_base::{GuestAddress, MemoryRegionAddress};
use vm_memory_guest::{
    Bytes, GuestMemoryRegion, GuestRegionCollection, GuestRegionMmap, HostMemory, MmapRegion,
    VolatileSlice,
};

/// A region of a test.
#[derive(Clone, Copy)]
pub enum Place {
    /// A new block of this many bytes, at an address.
    Block(u64, usize),
    /// The block before it, at another address.
    Again(u64),
    /// This many addresses without host bytes, from an address on.
    Bare(u64, u64),
}

/// Two regions with a hole between them.
pub const AROUND_A_HOLE: [Place; 2] = [Place::Block(0, 0x400), Place::Block(0x1000, 0x400)];

/// A region with bytes, and right after it one without.
pub const BEFORE_A_BARE_REGION: [Place; 2] = [Place::Block(0, 0x1000), Place::Bare(0x1000, 0x1000)];

/// The regions, and new blocks in the host for them.
pub fn regions_of(
    alloc: Global,
    host: &mut HostMemory<()>,
    places: &[Place],
) -> Result<Vec<Arc<TestRegion>>, Fail> {
    let mut regions = Vec::new(alloc);
    let mut before = None;
    for place in places {
        let region = match place {
            Place::Block(start, size) => {
                let block = MmapRegion::new(host, *size)?;
                before = Some(block);
                TestRegion::moved(block, GuestAddress(*start))
            }
            Place::Again(start) => {
                let block = before.ok_or("there is no block before")?;
                TestRegion::moved(block, GuestAddress(*start))
            }
            Place::Bare(start, len) => TestRegion::bare(GuestAddress(*start), *len),
        };
        let region = region.ok_or("the region does not fit")?;
        regions.push(Arc::new(alloc, region)?)?;
    }
    Ok(regions)
}

/// A memory of these regions.
pub fn memory_of(
    alloc: Global,
    host: &mut HostMemory<()>,
    places: &[Place],
) -> Result<GuestRegionCollection<TestRegion>, Fail> {
    let regions = regions_of(alloc, host, places)?;
    Ok(GuestRegionCollection::from_arc_regions(regions)?)
}

/// A window at 0x10 of a new block, part of a window that begins before it, that holds these bytes.
pub fn window_of(host: &mut HostMemory<()>, bytes: &[u8]) -> Result<VolatileSlice, Fail> {
    let mapping = MmapRegion::new(host, 0x100)?;
    let region = GuestRegionMmap::new(mapping, GuestAddress(0)).ok_or("the region does not fit")?;
    let outer = region.get_slice(MemoryRegionAddress(0xc), 0x40)?;
    let window = outer.subslice(4, bytes.len())?;
    if !host.holds(&window) {
        return Err(Fail::new("the host does not hold the window"));
    }
    window.write_slice(host, bytes, 0)?;
    Ok(window)
}
