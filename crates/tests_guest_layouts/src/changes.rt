//! Layouts that are changed, one region at a time.

use std::test::Fail;
use test_regions::{Place, TestRegion, memory_of, regions_of};
use test_text::expect_text;
use vm_memory_base::GuestAddress;
use vm_memory_guest::{GuestMemoryBackend, GuestMemoryRegion, GuestRegionCollection, HostMemory};

type Layout = GuestRegionCollection<TestRegion>;

// A change of a layout of regions of 0x1000 bytes, by their starts.
#[derive(Clone, Copy)]
enum Change {
    Insert(u64),
    Remove(u64, u64),
}

use Change::{Insert, Remove};

// A change, the error, if it was refused, and the starts of the regions then.
type Changed = (Change, &'static str, &'static [u64]);

// Changes one after the other, of regions at 0 and 0x100000.
const CHANGES: [Changed; 13] = [
    (Insert(0x8000), "", &[0, 0x8000, 0x10_0000]),
    (Insert(0x4000), "", &[0, 0x4000, 0x8000, 0x10_0000]),
    (Insert(0xc000), "", &[0, 0x4000, 0x8000, 0xc000, 0x10_0000]),
    (
        Insert(0x8000),
        "MemoryRegionOverlap",
        &[0, 0x4000, 0x8000, 0xc000, 0x10_0000],
    ),
    (
        Insert(0x7001),
        "MemoryRegionOverlap",
        &[0, 0x4000, 0x8000, 0xc000, 0x10_0000],
    ),
    (
        Insert(0x8fff),
        "MemoryRegionOverlap",
        &[0, 0x4000, 0x8000, 0xc000, 0x10_0000],
    ),
    (
        Remove(0x8000, 0x800),
        "NoMemoryRegion",
        &[0, 0x4000, 0x8000, 0xc000, 0x10_0000],
    ),
    (
        Remove(0x7fff, 0x1000),
        "NoMemoryRegion",
        &[0, 0x4000, 0x8000, 0xc000, 0x10_0000],
    ),
    (Remove(0x8000, 0x1000), "", &[0, 0x4000, 0xc000, 0x10_0000]),
    (Remove(0, 0x1000), "", &[0x4000, 0xc000, 0x10_0000]),
    (Remove(0x10_0000, 0x1000), "", &[0x4000, 0xc000]),
    (Remove(0xc000, 0x1000), "", &[0x4000]),
    (Remove(0x4000, 0x1000), "", &[]),
];

// And of one region at 0x1000.
const TO_NONE: [Changed; 3] = [
    (Remove(0x1000, 0x800), "NoMemoryRegion", &[0x1000]),
    (Remove(0x1000, 0x1000), "", &[]),
    (Remove(0x1000, 0x1000), "NoMemoryRegion", &[]),
];

// Whether a layout has regions of these starts, by their numbers and by their addresses, and no more.
fn has_starts(layout: &Layout, starts: &[u64]) -> bool {
    let last = starts.last().map_or(0, |start| start.wrapping_add(0xfff));
    layout.num_regions() == starts.len()
        && layout.last_addr().0 == last
        && layout.region_at(starts.len()).is_none()
        && starts.iter().enumerate().all(|(number, start)| {
            let named = layout.region_at(number).map(|region| region.start_addr().0);
            let home = layout.find_region(GuestAddress(*start));
            named == Some(*start) && home.map(|region| region.start_addr().0) == named
        })
}

const LISTS: [(&[Place], &[Changed]); 2] = [
    (
        &[Place::Block(0, 0x1000), Place::Block(0x10_0000, 0x1000)],
        &CHANGES,
    ),
    (&[Place::Block(0x1000, 0x1000)], &TO_NONE),
];

#[test]
fn layouts_are_changed(rt: HostRuntime) -> Result<(), Fail> {
    for (places, changes) in LISTS {
        let mut host = HostMemory::new(rt.alloc());
        let mut layout = memory_of(rt.alloc(), &mut host, places)?;
        for (case, (change, error, starts)) in changes.iter().enumerate() {
            let next = match change {
                Insert(start) => {
                    let places = [Place::Block(*start, 0x1000)];
                    let mut regions = regions_of(rt.alloc(), &mut host, &places)?;
                    layout.insert_region(regions.pop().ok_or("there is no region")?)
                }
                Remove(base, size) => match layout.remove_region(GuestAddress(*base), *size) {
                    Ok((rest, region)) => {
                        assert!(rt; region.start_addr().0 == *base, "case {case}");
                        Ok(rest)
                    }
                    Err(error) => Err(error),
                },
            };
            match next {
                Ok(next) => {
                    expect_text(case, "", error)?;
                    layout = next;
                }
                Err(refused) => {
                    let text = format!(in rt.alloc(); "{refused:?}")?;
                    expect_text(case, text.as_str(), error)?;
                }
            }
            assert!(rt; has_starts(&layout, starts), "case {case}");
        }
    }
    Ok(())
}
