//! Layouts that a thread replaces while others read them, by snapshots and by readers, and regions that two threads add
//! in turn.

use crate::marks::meet;
use std::alloc::{AllocError, Global};
use std::sync::atomic::{AtomicBool, AtomicU64, AtomicUsize, Ordering};
use std::sync::{Arc, Wait};
use std::test::Fail;
use std::thread::{self, Threads};
use vm_memory::{
    GuestAddress, GuestAddressSpace, GuestMemoryAtomic, GuestMemoryBackend, GuestMemoryMmap,
    GuestMemoryReader, GuestMemoryRegion, GuestRegionMmap, HostMemory, Lends,
};

type Space = GuestMemoryAtomic<GuestMemoryMmap>;

type Reader = GuestMemoryReader<GuestMemoryMmap>;

// The ranges of the layout at first.
const TWO: [(GuestAddress, usize); 2] = [
    (GuestAddress(0), 0x1000),
    (GuestAddress(0x10_0000), 0x1000),
];

// What a reader saw: how many snapshots had two regions, how many had five, and how many had another number, changed,
// or were not to be had.
#[derive(Clone, Copy)]
struct Seen {
    twos: usize,
    fives: usize,
    wrong: usize,
}

// Reads until both layouts were seen, and so many snapshots, or one that is wrong.
fn watch<R: Wait>(rt: &R, alloc: Global, space: &Space, gate: &AtomicUsize) -> Seen {
    let mut seen = Seen {
        twos: 0,
        fives: 0,
        wrong: 0,
    };
    for number in 0..200_000usize {
        let is_enough = number >= 2000 && seen.twos > 0 && seen.fives > 0;
        if is_enough || seen.wrong > 0 {
            break;
        }
        let Ok(kept) = space.memory(rt, alloc) else {
            seen.wrong = seen.wrong.saturating_add(1);
            continue;
        };
        let count = kept.num_regions();
        thread::yield_now();
        match (count, kept.num_regions()) {
            (2, 2) => seen.twos = seen.twos.saturating_add(1),
            (5, 5) => seen.fives = seen.fives.saturating_add(1),
            _ => seen.wrong = seen.wrong.saturating_add(1),
        }
    }
    gate.fetch_add(1, Ordering::SeqCst);
    seen
}

// Replaces the layout in turn by one of five and by one of two regions, until two readers are done.
fn replace_in_turn<R: Wait>(
    rt: &R,
    alloc: Global,
    space: &Space,
    two: &GuestMemoryMmap,
    five: &GuestMemoryMmap,
    gate: &AtomicUsize,
) -> Result<(), AllocError> {
    for _ in 0..1_000_000 {
        if gate.load(Ordering::SeqCst) >= 2 {
            break;
        }
        space.lock(rt).replace(rt, alloc, five.clone()?)?;
        thread::yield_now();
        space.lock(rt).replace(rt, alloc, two.clone()?)?;
        thread::yield_now();
    }
    Ok(())
}

// What two readers see while a third thread replaces the layout.
fn seen_while_replaced<R: Sync + Threads + Wait>(
    rt: &R,
    alloc: Global,
    space: &Space,
    two: &GuestMemoryMmap,
    five: &GuestMemoryMmap,
) -> Result<[Seen; 2], AllocError> {
    let gate = AtomicUsize::new(0);
    let ((one, other), replaced) = thread::join(
        rt,
        || {
            thread::join(
                rt,
                || watch(rt, alloc, space, &gate),
                || watch(rt, alloc, space, &gate),
            )
        },
        || replace_in_turn(rt, alloc, space, two, five, &gate),
    );
    replaced?;
    Ok([one, other])
}

// A layout of two regions, and one of three more.
fn two_and_five(
    alloc: Global,
    host: &mut HostMemory<()>,
) -> Result<(GuestMemoryMmap, GuestMemoryMmap), Fail> {
    let two = GuestMemoryMmap::from_ranges(alloc, host, &TWO)?;
    let mut five = two.clone()?;
    for start in [0x8000, 0x4000, 0xc000] {
        let page = GuestRegionMmap::from_range(host, GuestAddress(start), 0x1000)?;
        five = five.insert_region(Arc::new(alloc, page)?)?;
    }
    Ok((two, five))
}

// Fails where a reader saw a snapshot that is wrong, or one of the layouts alone.
fn expect_both(seen: Seen) -> Result<(), Fail> {
    if seen.wrong > 0 || seen.twos == 0 || seen.fives == 0 {
        return Err(Fail::new(format_args!(
            "{} snapshots have two regions, {} five, and {} are wrong",
            seen.twos, seen.fives, seen.wrong
        )));
    }
    Ok(())
}

// Fails where the layout that there is has another number of regions.
fn expect_regions<R: Wait>(
    rt: &R,
    alloc: Global,
    space: &Space,
    wanted: usize,
) -> Result<(), Fail> {
    let count = space.memory(rt, alloc)?.num_regions();
    if count != wanted {
        return Err(Fail::new(format_args!("there are {count} regions, not {wanted}")));
    }
    Ok(())
}

fn expect_seen<R: Sync + Threads + Wait>(
    rt: &R,
    alloc: Global,
    two: &GuestMemoryMmap,
    five: &GuestMemoryMmap,
) -> Result<(), Fail> {
    let space = GuestMemoryAtomic::new(alloc, two.clone()?)?;
    let [one, other] = seen_while_replaced(rt, alloc, &space, two, five)?;
    expect_both(one)?;
    expect_both(other)?;
    expect_regions(rt, alloc, &space, 2)
}

/// Fails if a layout that is replaced is seen in part, is never seen, or changes in a snapshot.
pub fn expect_layouts<R: Sync + Threads + Wait>(rt: &R, alloc: Global) -> Result<(), Fail> {
    let mut host: HostMemory<()> = HostMemory::new(alloc);
    let (two, five) = two_and_five(alloc, &mut host)?;
    expect_seen(rt, alloc, &two, &five)
}

// Where the second regions of numbered layouts begin.
const FAR: u64 = 1 << 40;

// The layout of a number, which both of its regions tell by where they start.
fn numbered(
    alloc: Global,
    host: &mut HostMemory<()>,
    number: u64,
) -> Result<GuestMemoryMmap, AllocError> {
    let near = number.saturating_mul(0x10);
    let far = near.saturating_add(FAR);
    let ranges = [(GuestAddress(near), 0x10), (GuestAddress(far), 0x10)];
    GuestMemoryMmap::from_ranges(alloc, host, &ranges).map_err(|_| AllocError)
}

// The number of a layout, where it has two regions that tell the same one.
fn number_of(layout: &GuestMemoryMmap) -> Option<u64> {
    let near = layout.region_at(0)?.start_addr().0;
    let far = layout.region_at(1)?.start_addr().0;
    if layout.num_regions() == 2 && far.checked_sub(FAR) == Some(near) {
        Some(near / 0x10)
    } else {
        None
    }
}

// How often a thread looks at a flag before it replaces the next layout.
const PAUSE: usize = 2000;

// What threads tell each other: who has come, how many replacements were made, and that there will be no more.
#[derive(Drop)]
struct Progress {
    gate: AtomicUsize,
    made: AtomicU64,
    is_over: AtomicBool,
}

// Replaces the layout by those of the numbers from 1 on, so many times, and tells each replacement that was made. Then
// it waits for a moment, in which whoever missed the replacement can be found.
fn replace_each<R: Wait>(
    rt: &R,
    alloc: Global,
    space: &Space,
    mut host: HostMemory<()>,
    count: u64,
    progress: &Progress,
) -> Result<(), AllocError> {
    meet(&progress.gate, 4);
    for past in 0..count {
        let number = past.saturating_add(1);
        let layout = numbered(alloc, &mut host, number)?;
        space.lock(rt).replace(rt, alloc, layout)?;
        progress.made.store(number, Ordering::SeqCst);
        for _ in 0..PAUSE {
            if progress.is_over.load(Ordering::SeqCst) {
                break;
            }
        }
    }
    Ok(())
}

// The number of the layout that a reader lends.
fn lent_number<R: Wait>(rt: &R, reader: &mut Reader) -> Option<u64> {
    let layout = reader.memory(rt).ok()?;
    number_of(layout.lend())
}

// Asks a reader until no more replacements are made, and once more. Whether each layout that it lends is whole, no
// older than the one before, no older than the last whose replacement was told before the call, and at most one newer
// than the last that was told after the call.
fn lends_well<R: Wait>(rt: &R, reader: &mut Reader, progress: &Progress) -> bool {
    let mut last = 0;
    for _ in 0..u64::MAX {
        let is_over = progress.is_over.load(Ordering::SeqCst);
        let before = progress.made.load(Ordering::SeqCst);
        let Some(number) = lent_number(rt, reader) else {
            return false;
        };
        let next = progress.made.load(Ordering::SeqCst).saturating_add(1);
        if number < last || number < before || number > next {
            return false;
        }
        if is_over {
            return true;
        }
        last = number;
    }
    false
}

// Whether a reader lends well, once the others have come.
fn asks_well<R: Wait>(rt: &R, mut reader: Reader, progress: &Progress) -> bool {
    meet(&progress.gate, 4);
    lends_well(rt, &mut reader, progress)
}

// Makes readers, a few at a time, until no more replacements are made. Whether each lends a layout no older than the
// last whose replacement was told after the reader was made.
fn makes_readers<R: Wait>(
    rt: &R,
    alloc: Global,
    space: &Space,
    progress: &Progress,
) -> Result<bool, AllocError> {
    meet(&progress.gate, 4);
    for _ in 0..u64::MAX {
        let is_over = progress.is_over.load(Ordering::SeqCst);
        let mut readers = Vec::with_capacity(alloc, 8)?;
        for _ in 0..8 {
            readers.push(space.reader(rt)?)?;
        }
        let before = progress.made.load(Ordering::SeqCst);
        for mut reader in readers {
            match lent_number(rt, &mut reader) {
                Some(number) if number >= before => {}
                _ => return Ok(false),
            }
        }
        if is_over {
            break;
        }
    }
    Ok(true)
}

// Whether a reader asks well, and two threads make readers, at once.
fn three_ask_well<R: Sync + Threads + Wait>(
    rt: &R,
    alloc: Global,
    space: &Space,
    reader: Reader,
    progress: &Progress,
) -> Result<[bool; 3], AllocError> {
    let (one, (two, three)) = thread::join(
        rt,
        || asks_well(rt, reader, progress),
        || {
            thread::join(
                rt,
                || makes_readers(rt, alloc, space, progress),
                || makes_readers(rt, alloc, space, progress),
            )
        },
    );
    Ok([one, two?, three?])
}

// Whether three threads ask readers well while another replaces the layout so many times.
fn ask_well_while_replaced<R: Sync + Threads + Wait>(
    rt: &R,
    alloc: Global,
    space: &Space,
    host: HostMemory<()>,
    count: u64,
) -> Result<[bool; 3], AllocError> {
    let progress = Progress {
        gate: AtomicUsize::new(0),
        made: AtomicU64::new(0),
        is_over: AtomicBool::new(false),
    };
    let reader = space.reader(rt)?;
    let (replaced, asked) = thread::join(
        rt,
        || {
            let replaced = replace_each(rt, alloc, space, host, count, &progress);
            progress.is_over.store(true, Ordering::SeqCst);
            replaced
        },
        || three_ask_well(rt, alloc, space, reader, &progress),
    );
    replaced?;
    asked
}

// Fails where a reader lends another layout than that of a number.
fn expect_last<R: Wait>(rt: &R, reader: &mut Reader, number: u64) -> Result<(), Fail> {
    let last = lent_number(rt, reader);
    if last != Some(number) {
        return Err(Fail::new(format_args!("after {number} replacements a reader lends {last:?}")));
    }
    Ok(())
}

/// Fails if a reader lends a layout in part or an older one after a newer one, or misses one of this many replacements
/// that was made before its call: one that is asked without end, and those that two threads make.
pub fn expect_readers<R: Sync + Threads + Wait>(
    rt: &R,
    alloc: Global,
    count: u64,
) -> Result<(), Fail> {
    let mut host: HostMemory<()> = HostMemory::new(alloc);
    let space = GuestMemoryAtomic::new(alloc, numbered(alloc, &mut host, 0)?)?;
    let mut late = space.reader(rt)?;
    let asked = ask_well_while_replaced(rt, alloc, &space, host, count)?;
    if asked != [true; 3] {
        return Err(Fail::new(format_args!("that the readers ask well is {asked:?}")));
    }
    expect_last(rt, &mut late, count)
}

// Adds each region to the layout that there is, in a turn of its own.
fn add_in_turn<R: Wait>(
    rt: &R,
    alloc: Global,
    space: &Space,
    regions: &[Arc<GuestRegionMmap>],
    gate: &AtomicUsize,
) -> Result<(), AllocError> {
    meet(gate, 2);
    for region in regions {
        let turn = space.lock(rt);
        let now = space.memory(rt, alloc)?;
        let layout = now
            .lend()
            .insert_region(region.clone()?)
            .map_err(|_| AllocError)?;
        turn.replace(rt, alloc, layout)?;
    }
    Ok(())
}

// 200 new pages, of which each begins 0x4000 bytes after the start of the one before.
fn pages_from(
    alloc: Global,
    host: &mut HostMemory<()>,
    first: u64,
) -> Result<Vec<Arc<GuestRegionMmap>>, Fail> {
    let mut pages = Vec::new(alloc);
    for number in 0..200u64 {
        let start = first.saturating_add(number.saturating_mul(0x4000));
        let page = GuestRegionMmap::from_range(host, GuestAddress(start), 0x1000)?;
        pages.push(Arc::new(alloc, page)?)?;
    }
    Ok(pages)
}

/// Fails if a region that one of two threads adds is lost.
pub fn expect_added<R: Sync + Threads + Wait>(rt: &R, alloc: Global) -> Result<(), Fail> {
    let mut host: HostMemory<()> = HostMemory::new(alloc);
    let space = GuestMemoryAtomic::new(
        alloc,
        GuestMemoryMmap::from_ranges(alloc, &mut host, &TWO)?,
    )?;
    let one = pages_from(alloc, &mut host, 0x20_0000)?;
    let other = pages_from(alloc, &mut host, 0x20_2000)?;
    let gate = AtomicUsize::new(0);
    let (one, other) = thread::join(
        rt,
        || add_in_turn(rt, alloc, &space, one.as_slice(), &gate),
        || add_in_turn(rt, alloc, &space, other.as_slice(), &gate),
    );
    one?;
    other?;
    expect_regions(rt, alloc, &space, 402)
}
