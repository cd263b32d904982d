//! A `TrackedBitmap` that four threads mark while one harvests.
ghost use Rattle.test_regions.specs.Markers.{IsMarkerOf, IsHarvesterOf, AreNewOf};

use crate::marks::{DONE, HARVESTS, MET, Marks, Tally, Work, meet};
use std::alloc::Global;
use std::num::NonZeroUsize;
use std::sync::atomic::{AtomicUsize, Ordering};
use std::test::Fail;
use std::thread::{self, Threads};
use test_regions::next_marker;
use vm_memory::{Harvester, Marker, TrackedBitmap};

// Marks the pages of a thread.
fn marked(bitmap: &TrackedBitmap, mut marker: Marker, thread: usize, work: &Work) -> Marker
    requires { IsMarkerOf marker bitmap.now }
    ensures { IsMarkerOf result bitmap.now }
{
    meet(&work.gate, MET);
    for number in 0..work.marks.count(thread) {
        let (start, len) = work.marks.run_of(thread, number);
        bitmap.mark(&mut marker, start, len);
    }
    work.gate.fetch_add(1, Ordering::SeqCst);
    marker
}

fn marked_by_two<R: Sync + Threads>(
    rt: &R,
    bitmap: &TrackedBitmap,
    markers: (Marker, Marker),
    threads: (usize, usize),
    work: &Work,
) -> (Marker, Marker)
    requires { IsMarkerOf markers.0 bitmap.now × IsMarkerOf markers.1 bitmap.now }
    ensures { IsMarkerOf result.0 bitmap.now × IsMarkerOf result.1 bitmap.now }
{
    let (one, other) = markers;
    thread::join(
        rt,
        || -> Marker
            requires { IsMarkerOf one bitmap.now }
            ensures { IsMarkerOf result bitmap.entry.now }
        { marked(bitmap, one, threads.0, work) },
        || -> Marker
            requires { IsMarkerOf other bitmap.now }
            ensures { IsMarkerOf result bitmap.entry.now }
        { marked(bitmap, other, threads.1, work) },
    )
}

// Harvests until all threads have marked their pages.
fn harvested(
    alloc: Global,
    bitmap: &TrackedBitmap,
    harvest: (Harvester, Tally),
    gate: &AtomicUsize,
) -> (Harvester, Tally)
    requires { IsHarvesterOf harvest.0 bitmap.now }
    ensures { IsHarvesterOf result.0 bitmap.now }
{
    let (mut harvester, mut tally) = harvest;
    meet(gate, MET);
    for _ in 0..HARVESTS {
        if gate.load(Ordering::SeqCst) >= DONE {
            break;
        }
        match bitmap.get_and_reset(&mut harvester, alloc) {
            Ok(words) => tally.add_halves(
                alloc,
                words.as_slice(),
                gate.load(Ordering::SeqCst) < DONE,
            ),
            Err(_) => tally.failed = true,
        }
    }
    (harvester, tally)
}

// What one thread harvests while two mark. Their markers are joined.
fn harvested_beside_two<R: Sync + Threads>(
    rt: &R,
    alloc: Global,
    bitmap: &TrackedBitmap,
    harvest: (Harvester, Tally),
    markers: (Marker, Marker),
    work: &Work,
) -> (Harvester, Tally)
    requires harvest { IsHarvesterOf harvest.0 bitmap.now }
    requires markers { IsMarkerOf markers.0 bitmap.now × IsMarkerOf markers.1 bitmap.now }
    ensures { IsHarvesterOf result.0 bitmap.now }
{
    let ((one, other), (mut harvester, tally)) = thread::join(
        rt,
        || -> (Marker, Marker)
            requires { IsMarkerOf markers.0 bitmap.now × IsMarkerOf markers.1 bitmap.now }
            ensures { IsMarkerOf result.0 bitmap.entry.now × IsMarkerOf result.1 bitmap.entry.now }
        { marked_by_two(rt, bitmap, markers, (2, 3), work) },
        || -> (Harvester, Tally)
            requires { IsHarvesterOf harvest.0 bitmap.now }
            ensures { IsHarvesterOf result.0 bitmap.entry.now }
        { harvested(alloc, bitmap, harvest, &work.gate) },
    );
    bitmap.join(&mut harvester, one);
    bitmap.join(&mut harvester, other);
    (harvester, tally)
}

// What one thread harvests while four mark. Their markers are joined.
fn harvested_beside_four<R: Sync + Threads>(
    rt: &R,
    alloc: Global,
    bitmap: &TrackedBitmap,
    harvest: (Harvester, Tally),
    markers: ((Marker, Marker), (Marker, Marker)),
    work: &Work,
) -> (Harvester, Tally)
    requires harvest { IsHarvesterOf harvest.0 bitmap.now }
    requires one { IsMarkerOf markers.0.0 bitmap.now × IsMarkerOf markers.0.1 bitmap.now }
    requires other { IsMarkerOf markers.1.0 bitmap.now × IsMarkerOf markers.1.1 bitmap.now }
    ensures { IsHarvesterOf result.0 bitmap.now }
{
    let (one, other) = markers;
    let ((a, b), (mut harvester, tally)) = thread::join(
        rt,
        || -> (Marker, Marker)
            requires { IsMarkerOf one.0 bitmap.now × IsMarkerOf one.1 bitmap.now }
            ensures { IsMarkerOf result.0 bitmap.entry.now × IsMarkerOf result.1 bitmap.entry.now }
        { marked_by_two(rt, bitmap, one, (0, 1), work) },
        || -> (Harvester, Tally)
            requires harvest { IsHarvesterOf harvest.0 bitmap.now }
            requires other { IsMarkerOf other.0 bitmap.now × IsMarkerOf other.1 bitmap.now }
            ensures { IsHarvesterOf result.0 bitmap.entry.now }
        { harvested_beside_two(rt, alloc, bitmap, harvest, other, work) },
    );
    bitmap.join(&mut harvester, a);
    bitmap.join(&mut harvester, b);
    (harvester, tally)
}

// How many harvests took pages while threads marked. Fails where all harvests and what is left are not together just
// the pages that were marked.
fn expect_joined<R: Sync + Threads>(
    rt: &R,
    alloc: Global,
    bitmap: TrackedBitmap,
    harvester: Harvester,
    mut markers: Vec<Marker>,
    marks: &Marks,
) -> Result<usize, Fail>
    requires harvester { IsHarvesterOf harvester bitmap }
    requires markers { AreNewOf markers.items bitmap }
{
    let tally = Tally::new(alloc, marks.pages)?;
    let (Some(a), Some(b), Some(c), Some(d)) = (
        next_marker(&bitmap, &mut markers),
        next_marker(&bitmap, &mut markers),
        next_marker(&bitmap, &mut markers),
        next_marker(&bitmap, &mut markers),
    ) else {
        return Err(Fail::new("there are fewer than four markers"));
    };
    let work = Work {
        marks: *marks,
        gate: AtomicUsize::new(0),
    };
    let (harvester, mut tally) = harvested_beside_four(
        rt,
        alloc,
        &bitmap,
        (harvester, tally),
        ((a, b), (c, d)),
        &work,
    );
    match bitmap.close(harvester, alloc) {
        Ok(left) => tally.add_halves(alloc, left.as_slice(), false),
        Err(_) => return Err(Fail::new("allocation failed")),
    }
    tally.expect(marks, false)?;
    Ok(tally.taken)
}

/// How many harvests took pages while threads marked. Fails if a `TrackedBitmap`, marked by four threads while one
/// harvests, loses or invents a page, or gives one too often.
pub fn expect_tracked<R: Sync + Threads>(
    rt: &R,
    alloc: Global,
    marks: &Marks,
) -> Result<usize, Fail> {
    let (bitmap, harvester, markers) = TrackedBitmap::new(
        alloc,
        marks.pages,
        NonZeroUsize::MIN,
        4,
    )?;
    expect_joined(rt, alloc, bitmap, harvester, markers, marks)
}
