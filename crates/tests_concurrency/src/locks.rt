//! A bitmap that is harvested while another thread has the lock of its host.
ghost use Rattle.test_regions.specs.Markers.{IsMarkerOf, IsHarvesterOf};

use std::alloc::Global;
use std::num::NonZeroUsize;
use std::sync::atomic::{AtomicBool, Ordering};
use std::sync::{Arc, Mutex, Wait};
use std::test::Fail;
use std::thread::{self, Threads};
use test_regions::{MarkedHost, marked_host, memory_of_block, next_marker};
use vm_memory::{Bytes, GuestAddress, GuestMemoryMmap, Harvester, Marker, TrackedBitmap};

// What two threads tell each other: that one has the lock, and that the other harvested.
#[derive(Drop)]
struct Signals {
    locked: AtomicBool,
    harvested: AtomicBool,
}

// Whether a signal comes in so many turns.
fn comes(signal: &AtomicBool) -> bool {
    for _ in 0..100_000_000 {
        if signal.load(Ordering::SeqCst) {
            return true;
        }
    }
    false
}

// Writes, and keeps the lock of the host until the other thread harvested.
fn write_and_keep_the_lock<R: Wait>(
    rt: &R,
    host: &Mutex<MarkedHost>,
    memory: &GuestMemoryMmap,
    signals: &Signals,
) -> bool {
    let mut host = host.lock(rt);
    let wrote = host.holds(memory)
        && matches!(memory.write(&mut *host, &[7], GuestAddress(0x1123)), Ok(1));
    signals.locked.store(true, Ordering::SeqCst);
    comes(&signals.harvested) && wrote
}

// Whether a harvest takes the page that was written, while the other thread has the lock.
fn harvest_beside_the_lock(
    alloc: Global,
    bitmap: &TrackedBitmap,
    mut harvester: Harvester,
    signals: &Signals,
) -> bool
    requires { IsHarvesterOf harvester bitmap.now }
{
    let locked = comes(&signals.locked);
    let is_right = match bitmap.get_and_reset(&mut harvester, alloc) {
        Ok(words) => words.as_slice() == [0x4_0000, 0].as_slice(),
        Err(_) => false,
    };
    signals.harvested.store(true, Ordering::SeqCst);
    locked && is_right
}

// Whether a host that is locked is harvested.
fn is_harvested_while_locked<R: Sync + Threads + Wait>(
    rt: &R,
    alloc: Global,
    bitmap: &Arc<TrackedBitmap>,
    harvester: Harvester,
    marker: Marker,
) -> Result<bool, Fail>
    requires harvester { IsHarvesterOf harvester bitmap.now.value }
    requires marker { IsMarkerOf marker bitmap.now.value }
{
    let host = marked_host(alloc, bitmap, marker)?;
    let memory = memory_of_block(alloc, &host)?;
    let host = Mutex::new(host);
    let signals = Signals {
        locked: AtomicBool::new(false),
        harvested: AtomicBool::new(false),
    };
    let (harvested, kept) = thread::join(
        rt,
        || -> bool
            requires { IsHarvesterOf harvester bitmap.now.value }
        { harvest_beside_the_lock(alloc, &**bitmap, harvester, &signals) },
        || write_and_keep_the_lock(rt, &host, &memory, &signals),
    );
    Ok(harvested && kept)
}

#[test]
fn a_harvest_does_not_wait_for_the_lock_of_a_host(rt: HostRuntime) -> Result<(), Fail> {
    let size = NonZeroUsize::new(16).ok_or("a page has no bytes")?;
    let (bitmap, harvester, mut markers) = TrackedBitmap::new(rt.alloc(), 0x400, size, 1)?;
    let marker = next_marker(&bitmap, &mut markers).ok_or("there is no marker")?;
    let shared = Arc::new(rt.alloc(), bitmap)?;
    assert!(rt; is_harvested_while_locked(&rt, rt.alloc(), &shared, harvester, marker)?);
    Ok(())
}
