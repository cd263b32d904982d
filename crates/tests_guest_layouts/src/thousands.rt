//! Layouts of a thousand regions, and of 70,000.

use std::sync::Arc;
use std::test::Fail;
use test_regions::TestRegion;
use vm_memory_base::GuestAddress;
use vm_memory_guest::{GuestMemoryBackend, GuestMemoryRegion, GuestRegionCollection};

// Whether searches for the first and the last of each 0x1000 addresses find each of the thousand regions but one, and
// none between, by at most ten probes.
fn finds_all_but(layout: &GuestRegionCollection<TestRegion>, left_out: u64) -> bool {
    (0..4002u64).all(|number| {
        let page = number / 2;
        let addr = GuestAddress(0x1000 * page + 0xfff * (number % 2));
        let (region, probes) = layout.find_region_counted(addr);
        let found = region.map(|region| region.last_addr().0);
        let searched = layout.find_region(addr).map(|region| region.last_addr().0);
        let is_there = page % 2 == 0 && page < 2000 && page / 2 != left_out;
        let wanted = is_there.then_some(0x1000 * page + 0xfff);
        probes <= 10 && found == wanted && searched == wanted
    })
}

// Regions of 0x1000 addresses, with as many addresses between any two. Making a layout asks a region for its start at
// most twice, and a search asks none.
#[test]
fn a_layout_of_a_thousand_regions_is_searched_and_changed(rt: HostRuntime) -> Result<(), Fail> {
    let mut regions = Vec::with_capacity(rt.alloc(), 1000)?;
    let mut again = Vec::with_capacity(rt.alloc(), 1000)?;
    for number in 0..1000u64 {
        let region = TestRegion::bare(GuestAddress(0x2000 * number), 0x1000);
        let region = Arc::new(rt.alloc(), region.ok_or("the region does not fit")?)?;
        again.push(region.clone()?)?;
        regions.push(region)?;
    }
    let layout = GuestRegionCollection::from_arc_regions(again)?;
    assert!(rt; regions.iter().all(|region| region.asked() <= 2));
    assert!(rt; finds_all_but(&layout, 1000));
    assert!(rt; regions.iter().all(|region| region.asked() <= 2));
    let copy = layout.clone()?;
    assert!(rt; copy.num_regions() == 1000 && finds_all_but(&copy, 1000));
    for number in [0u64, 499, 500, 501, 777, 999] {
        let start = GuestAddress(number.wrapping_mul(0x2000));
        let (rest, region) = copy.remove_region(start, 0x1000)?;
        assert!(rt;
            rest.num_regions() == 999 && finds_all_but(&rest, number),
            "{number}"
        );
        assert!(rt; region.start_addr() == start, "{number}");
        let again = rest.insert_region(region)?;
        assert!(rt;
            again.num_regions() == 1000 && finds_all_but(&again, 1000),
            "{number}"
        );
    }
    assert!(rt; layout.num_regions() == 1000 && finds_all_but(&layout, 1000));
    Ok(())
}

// Where an address is: the start of its region, and the offset there.
fn place_in<M: GuestMemoryBackend>(backend: &M, addr: GuestAddress) -> Option<(u64, u64)> {
    let (region, offset) = backend.to_region_addr(addr)?;
    Some((region.start_addr().0, offset.0))
}

// Whether a search near a region finds, for the first and the last of 0x1000 addresses, what a search without one
// finds.
fn finds_alike(layout: &GuestRegionCollection<TestRegion>, page: u64, hint: usize) -> bool {
    [0u64, 0xfff].iter().all(|offset| {
        let addr = GuestAddress(page.wrapping_mul(0x1000).wrapping_add(*offset));
        let (found, _) = layout.find_near(addr, hint);
        let place = found.map(|(region, offset)| (region.start_addr().0, offset.0));
        place == place_in(layout, addr)
    })
}

#[test]
fn a_hint_changes_no_answer(rt: HostRuntime) -> Result<(), Fail> {
    let all = (0..1000u64).filter_map(|number| TestRegion::bare(
        GuestAddress(number.wrapping_mul(0x2000)),
        0x1000,
    ));
    let regions: Vec<TestRegion> = all.collect(rt.alloc())?;
    let layout = GuestRegionCollection::from_regions(rt.alloc(), regions)?;
    for hint in [0usize, 1, 499, 500, 998, 999, 1000, usize::MAX] {
        assert!(rt;
            (0..2002u64).all(|page| finds_alike(&layout, page, hint)),
            "{hint}"
        );
    }
    Ok(())
}

// The region of the last access is asked alone, however many there are; one that does not hold the address is asked
// once before a search, which asks none.
#[test]
fn a_hint_asks_one_region(rt: HostRuntime) -> Result<(), Fail> {
    let mut regions = Vec::with_capacity(rt.alloc(), 1000)?;
    let mut again = Vec::with_capacity(rt.alloc(), 1000)?;
    for number in 0..1000u64 {
        let region = TestRegion::bare(GuestAddress(number.wrapping_mul(0x2000)), 0x1000);
        let region = Arc::new(rt.alloc(), region.ok_or("the region does not fit")?)?;
        again.push(region.clone()?)?;
        regions.push(region)?;
    }
    let layout = GuestRegionCollection::from_arc_regions(again)?;
    let before: Vec<usize> = regions
        .iter()
        .map(|region| region.asked())
        .collect(rt.alloc())?;
    let mut all_found = true;
    let mut hint = 0;
    for offset in 0..0x1000u64 {
        let addr = GuestAddress(offset.wrapping_add(0x2000 * 777));
        let (found, next) = layout.find_near(addr, hint);
        all_found = all_found && found.is_some();
        hint = next;
    }
    assert!(rt; all_found);
    for (number, region) in regions.iter().enumerate() {
        let asked_before = before.get(number).copied().unwrap_or(0);
        let asked = region.asked().wrapping_sub(asked_before);
        let wanted = if number == 777 {
            0xfff
        } else if number == 0 {
            1
        } else {
            0
        };
        assert!(rt; asked == wanted, "{number} {asked}");
    }
    Ok(())
}

// Whether a layout has so many regions of 0x10 addresses, one after the other from 0 on, and finds each by its last
// address.
fn has_each(layout: &GuestRegionCollection<TestRegion>, count: usize) -> bool {
    let is_each = (0..count).all(|number| {
        let start = (number as u64).wrapping_mul(0x10);
        let found = layout.find_region(GuestAddress(start.wrapping_add(0xf)));
        [layout.region_at(number), found]
            .iter()
            .all(|region| match region {
                Some(region) => region.start_addr().0 == start && region.len() == 0x10,
                None => false,
            })
    });
    is_each && layout.num_regions() == count && layout.region_at(count).is_none()
}

// They are moved into a layout, and one of them is taken out and put in again.
#[test]
fn a_layout_of_many_regions_is_made_and_changed(rt: HostRuntime) -> Result<(), Fail> {
    let all = (0..70_000u64).filter_map(|number| TestRegion::bare(
        GuestAddress(number.wrapping_mul(0x10)),
        0x10,
    ));
    let regions: Vec<TestRegion> = all.collect(rt.alloc())?;
    let layout = GuestRegionCollection::from_regions(rt.alloc(), regions)?;
    assert!(rt; has_each(&layout, 70_000) && layout.last_addr().0 == 0x11_16ff);
    let (rest, region) = layout.remove_region(GuestAddress(0x10_0000), 0x10)?;
    assert!(rt; rest.num_regions() == 69_999);
    assert!(rt; rest.find_region(GuestAddress(0x10_0000)).is_none());
    let again = rest.insert_region(region)?;
    assert!(rt; has_each(&again, 70_000) && has_each(&layout.clone()?, 70_000));
    Ok(())
}
