//! The threads that write a guest, and the lock that they share with the sender.

use crate::guest::{Host, Layout, digests_of, dirty_pages, write_page};
use crate::options::Load;
use rand_core::SeedableRng;
use rand_xoshiro::Xoshiro256PlusPlus;
use std::alloc::{AllocError, Global};
use std::sync::{Condvar, Mutex, Wait};
use std::time::{Clock, Duration, Instant};
use std::{io, thread};

/// How the writers are kept to their rate.
#[derive(Clone, Copy, PartialEq, Eq)]
pub enum Pace {
    /// By the clock.
    Clock,
    /// By what the sender counts: during each round they write this many pages, and then they wait for the next one.
    Count,
}

/// What the lock of a guest keeps.
#[derive(Drop)]
pub struct Running {
    pub host: Host,
    /// Whether the guest runs: no page is written if it does not.
    pub runs: bool,
    /// How many pages each writer may have written, if they are counted.
    pub due: u64,
    /// How many pages were written.
    pub written: u64,
}

/// A guest whose memory is written by several threads.
#[derive(Drop)]
pub struct Shared {
    pub running: Mutex<Running>,
    /// What is notified when writers may write on, or have written what they may.
    pub changed: Condvar,
    pub layout: Layout,
    pub load: Load,
}

// What counts as the speed of a connection, where the writes are counted: 128 MiB a second.
const COUNTED_SPEED: u64 = 0x800_0000;

// How many pages a writer writes at most before it lets the lock go.
const LOT: u64 = 64;

/// A guest that runs.
pub fn share(host: Host, layout: Layout, load: Load) -> Shared {
    Shared {
        running: Mutex::new(Running {
            host,
            runs: true,
            due: 0,
            written: 0,
        }),
        changed: Condvar::new(),
        layout,
        load,
    }
}

impl Shared {
    /// Stops the guest. No page is written from then on.
    pub fn stop<R: Wait>(&self, rt: &R) {
        let mut running = self.running.lock(rt);
        running.runs = false;
        drop(running);
        self.changed.notify_all();
    }

    /// How many pages are dirty.
    pub fn dirty<R: Wait>(&self, rt: &R, alloc: Global) -> Result<usize, AllocError> {
        let running = self.running.lock(rt);
        dirty_pages(alloc, &running.host, &self.layout)
    }

    /// How many pages were written.
    pub fn written<R: Wait>(&self, rt: &R) -> u64 {
        self.running.lock(rt).written
    }

    /// The SHA-256 of each block.
    pub fn digests<R: Wait>(&self, rt: &R, alloc: Global) -> Result<Vec<[u8; 32]>, AllocError> {
        let running = self.running.lock(rt);
        digests_of(alloc, &running.host, 0, self.layout.places.len())
    }

    // How many pages each writer writes beside a round of so many pages.
    fn share_beside(&self, pages: usize) -> u64 {
        let bytes = (pages as u64).saturating_mul(self.layout.page_size.get() as u64);
        let count = self.load.rate.saturating_mul(bytes) / COUNTED_SPEED;
        count.checked_div(self.load.threads).unwrap_or(0)
    }

    /// Lets the writers write what they write during a round of this many pages.
    pub fn release<R: Wait>(&self, rt: &R, pages: usize) {
        let count = self.share_beside(pages);
        let mut running = self.running.lock(rt);
        running.due = running.due.saturating_add(count);
        drop(running);
        self.changed.notify_all();
    }

    /// Waits until the writers have written what they may.
    pub fn await_writers<R: Wait>(&self, rt: &R) {
        let threads = self.load.threads;
        let running = self.changed.wait_while(
            rt,
            self.running.lock(rt),
            |running| running.written < running.due.saturating_mul(threads),
        );
        drop(running);
    }

    // Writes so many pages, unless the guest stands, and answers whether it runs.
    fn write_lot<R: Wait>(&self, rt: &R, rng: &mut Xoshiro256PlusPlus, count: u64) -> bool {
        let mut guard = self.running.lock(rt);
        let running = &mut *guard;
        if running.runs {
            write_pages(running, self, rng, count);
        }
        running.runs
    }

    // Waits until a writer that has written so many pages may write one more, and writes it. Answers whether the
    // guest runs.
    fn write_next<R: Wait>(&self, rt: &R, rng: &mut Xoshiro256PlusPlus, done: u64) -> bool {
        let mut guard = self.changed.wait_while(
            rt,
            self.running.lock(rt),
            |running| running.runs && running.due <= done,
        );
        let running = &mut *guard;
        if !running.runs {
            return false;
        }
        write_pages(running, self, rng, 1);
        let is_done = running.due <= done.saturating_add(1);
        drop(guard);
        if is_done {
            self.changed.notify_all();
        }
        true
    }
}

fn write_pages(running: &mut Running, shared: &Shared, rng: &mut Xoshiro256PlusPlus, count: u64) {
    for _ in 0..count {
        write_page(&mut running.host, &shared.layout, rng, shared.load.zeros);
    }
    running.written = running.written.saturating_add(count);
}

// How many pages one writer has to have written after this time.
fn due_after(load: &Load, time: Duration) -> u64 {
    let millis = time
        .as_secs()
        .saturating_mul(1000)
        .saturating_add(u64::from(time.subsec_millis()));
    let count = load.rate.saturating_mul(millis) / 1000;
    count.checked_div(load.threads).unwrap_or(0)
}

// Writes pages by the clock until the guest stops.
fn write_by_clock<R: Clock + Wait>(
    rt: &R,
    shared: &Shared,
    rng: &mut Xoshiro256PlusPlus,
) -> io::Result<()> {
    let start = Instant::now(rt)?;
    let mut done = 0u64;
    for _ in 0..u64::MAX {
        let due = due_after(&shared.load, start.elapsed(rt)?);
        let count = due.saturating_sub(done).min(LOT);
        if !shared.write_lot(rt, rng, count) {
            break;
        }
        done = done.saturating_add(count);
        if done >= due {
            thread::sleep(rt, Duration::from_millis(1));
        }
    }
    Ok(())
}

// Writes pages as the sender counts them until the guest stops.
fn write_by_count<R: Wait>(rt: &R, shared: &Shared, rng: &mut Xoshiro256PlusPlus) {
    for done in 0..u64::MAX {
        if !shared.write_next(rt, rng, done) {
            break;
        }
    }
}

/// What the writer of this number does. It ends when the guest stops, or if the clock cannot be read.
pub fn write_on<R: Clock + Wait>(rt: &R, shared: &Shared, writer: u64, pace: Pace) {
    let seed = shared.load.seed.wrapping_add(writer).wrapping_add(1);
    let mut rng = Xoshiro256PlusPlus::seed_from_u64(seed);
    match pace {
        Pace::Count => write_by_count(rt, shared, &mut rng),
        Pace::Clock => {
            let _ = write_by_clock(rt, shared, &mut rng);
        }
    }
}
