//! Which regions make a layout.

use std::alloc::{AllocError, Global};
use std::sync::Arc;
use std::test::Fail;
use test_regions::{Place, TestRegion, regions_of};
use test_text::expect_text;
use vm_memory_base::GuestAddress;
use vm_memory_guest::{
    GuestMemoryBackend, GuestMemoryRegion, GuestRegionCollection, GuestRegionCollectionError,
    HostMemory,
};

type Layout = GuestRegionCollection<TestRegion>;

// Regions, and their number and for each of these the start of the region that holds its first address and of the one
// that holds the address before, or the error.
const LAYOUTS: [(&[Place], &str); 9] = [
    (&[], "NoMemoryRegion"),
    (
        &[Place::Block(0x1000, 0x1000), Place::Block(0x800, 0x1000)],
        "UnsortedMemoryRegions",
    ),
    (
        &[Place::Block(0, 0x1000), Place::Block(0, 0x1000)],
        "MemoryRegionOverlap",
    ),
    (
        &[Place::Block(0, 0x1000), Place::Block(0xfff, 0x1000)],
        "MemoryRegionOverlap",
    ),
    // The first two neighbours that are not in order decide.
    (
        &[
            Place::Block(0, 0x1000),
            Place::Block(0, 0x1000),
            Place::Block(0x3000, 0x1000),
            Place::Block(0x2000, 0x1000),
        ],
        "MemoryRegionOverlap",
    ),
    (
        &[
            Place::Block(0x3000, 0x1000),
            Place::Block(0x2000, 0x1000),
            Place::Block(0x2000, 0x1000),
        ],
        "UnsortedMemoryRegions",
    ),
    (&[Place::Block(0x10, 0x1000)], "1 Some(16) None;"),
    (
        &[Place::Block(0, 0x1000), Place::Block(0x1000, 0x1000)],
        "2 Some(0) None;Some(4096) Some(0);",
    ),
    (
        &[Place::Block(0, 0x1000), Place::Block(0x1001, 0x1000)],
        "2 Some(0) None;Some(4097) None;",
    ),
];

// The start of the region that holds an address.
fn home_of(layout: &Layout, addr: u64) -> Option<u64> {
    let region = layout.find_region(GuestAddress(addr))?;
    Some(region.start_addr().0)
}

fn layout_text(
    alloc: Global,
    made: &Result<Layout, GuestRegionCollectionError>,
    places: &[Place],
) -> Result<String, AllocError> {
    let layout = match made {
        Ok(layout) => layout,
        Err(error) => return format!(in alloc; "{error:?}"),
    };
    let mut text = format!(in alloc; "{} ", layout.num_regions())?;
    for place in places {
        let (Place::Block(start, _) | Place::Again(start) | Place::Bare(start, _)) = place;
        let at = home_of(layout, *start);
        let before = home_of(layout, start.wrapping_sub(1));
        write!(text, "{at:?} {before:?};")?;
    }
    Ok(text)
}

// Regions that are moved, that are shared, and a copy of the layout that these make.
#[test]
fn regions_make_a_layout_or_an_error(rt: HostRuntime) -> Result<(), Fail> {
    let alloc = rt.alloc();
    for (case, (places, wanted)) in LAYOUTS.iter().enumerate() {
        let mut host = HostMemory::new(alloc);
        let regions = regions_of(alloc, &mut host, places)?;
        let own = regions_of(alloc, &mut host, places)?;
        let own = own
            .into_iter()
            .filter_map(|region| Arc::into_inner(region))
            .collect(alloc)?;
        let made = GuestRegionCollection::from_regions(alloc, own);
        let text = layout_text(alloc, &made, places)?;
        expect_text(case, text.as_str(), wanted)?;
        let shared = GuestRegionCollection::from_arc_regions(regions);
        let text = layout_text(alloc, &shared, places)?;
        expect_text(case, text.as_str(), wanted)?;
        let copy = match shared {
            Ok(layout) => Ok(layout.clone()?),
            Err(error) => Err(error),
        };
        let text = layout_text(alloc, &copy, places)?;
        expect_text(case, text.as_str(), wanted)?;
    }
    Ok(())
}

#[test]
fn a_layout_begins_with_no_region(rt: HostRuntime) -> Result<(), Fail> {
    let none: Layout = GuestRegionCollection::new(rt.alloc());
    assert!(rt; none.num_regions() == 0 && home_of(&none, 0).is_none());
    assert!(rt; none.last_addr().0 == 0);
    assert!(rt; none.find_region_counted(GuestAddress(0)).1 == 0);
    let region = TestRegion::bare(GuestAddress(7), 3).ok_or("the region does not fit")?;
    let one = none.insert_region(Arc::new(rt.alloc(), region)?)?;
    assert!(rt; home_of(&one, 6).is_none() && home_of(&one, 9) == Some(7));
    assert!(rt; one.num_regions() == 1 && one.last_addr().0 == 9);
    assert!(rt; home_of(&one, 10).is_none() && none.num_regions() == 0);
    Ok(())
}
