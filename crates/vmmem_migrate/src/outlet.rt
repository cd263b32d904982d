//! Bytes on their way to a socket: one thread copies pages while another writes what was copied before.

use crate::connection::{Connection, PATIENCE};
use live_migration::SendError;
use std::alloc::Global;
use std::io::{self, ErrorKind, Write};
use std::net::TcpStream;
use std::sync::{Condvar, Mutex, Wait};
use std::time::{Clock, Duration, Instant};
use std::{mem, thread};

// What waits to be written.
#[derive(Drop)]
struct Waiting {
    bytes: Vec<u8>,
    // Whether bytes that were taken are not written yet.
    is_busy: bool,
    is_closed: bool,
    has_failed: bool,
    // How many bytes were written.
    sent: u64,
}

/// Bytes that one thread puts and another writes.
#[derive(Drop)]
pub struct Outlet {
    waiting: Mutex<Waiting>,
    changed: Condvar,
}

impl Outlet {
    pub fn new(alloc: Global) -> Outlet {
        Outlet {
            waiting: Mutex::new(Waiting {
                bytes: Vec::new(alloc),
                is_busy: false,
                is_closed: false,
                has_failed: false,
                sent: 0,
            }),
            changed: Condvar::new(),
        }
    }

    /// Lets bytes wait to be written, and leaves none in the list, once what waited before is being written. `Failed`
    /// if the stream failed.
    pub fn put<R: Wait>(&self, rt: &R, bytes: &mut Vec<u8>) -> Result<(), SendError> {
        let mut waiting = self.changed.wait_while(
            rt,
            self.waiting.lock(rt),
            |waiting| !waiting.has_failed && !waiting.bytes.is_empty(),
        );
        if waiting.has_failed {
            return Err(SendError::Failed);
        }
        mem::swap(&mut waiting.bytes, bytes);
        drop(waiting);
        self.changed.notify_all();
        Ok(())
    }

    /// Waits until all bytes that were put are written. `Failed` if the stream failed.
    pub fn flush<R: Wait>(&self, rt: &R) -> Result<(), SendError> {
        let waiting = self.changed.wait_while(
            rt,
            self.waiting.lock(rt),
            |waiting| !waiting.has_failed && (waiting.is_busy || !waiting.bytes.is_empty()),
        );
        if waiting.has_failed {
            return Err(SendError::Failed);
        }
        Ok(())
    }

    /// How many bytes were written.
    pub fn sent<R: Wait>(&self, rt: &R) -> u64 {
        self.waiting.lock(rt).sent
    }

    /// Lets the thread that writes end.
    pub fn close<R: Wait>(&self, rt: &R) {
        let mut waiting = self.waiting.lock(rt);
        waiting.is_closed = true;
        drop(waiting);
        self.changed.notify_all();
    }

    // Takes the bytes that are written next, in place of an empty list. Answers whether there are any more.
    fn take<R: Wait>(&self, rt: &R, bytes: &mut Vec<u8>) -> bool {
        let mut waiting = self.changed.wait_while(
            rt,
            self.waiting.lock(rt),
            |waiting| waiting.bytes.is_empty() && !waiting.is_closed,
        );
        if waiting.is_closed {
            return false;
        }
        mem::swap(&mut waiting.bytes, bytes);
        waiting.is_busy = true;
        drop(waiting);
        self.changed.notify_all();
        true
    }

    // Says what became of the bytes that were taken.
    fn end<R: Wait>(&self, rt: &R, sent: u64, is_written: bool) {
        let mut waiting = self.waiting.lock(rt);
        waiting.is_busy = false;
        waiting.has_failed = !is_written;
        waiting.sent = sent;
        drop(waiting);
        self.changed.notify_all();
    }
}

// The time that so many bytes take if so many are sent in a second.
fn time_of(bytes: usize, limit: u64) -> Duration {
    let micros = (bytes as u64).saturating_mul(1_000_000);
    Duration::from_micros(micros.checked_div(limit).unwrap_or(0))
}

// Waits for a time, and answers when bytes may be written after these: not before they could have been sent.
fn wait_for<R: Clock + Wait>(
    rt: &R,
    next: Instant,
    bytes: usize,
    limit: u64,
) -> io::Result<Instant> {
    let now = Instant::now(rt)?;
    let left = next.duration_since(now);
    let start = if left.is_zero() { now } else { next };
    if !left.is_zero() {
        thread::sleep(rt, left);
    }
    match start.checked_add(time_of(bytes, limit)) {
        Some(next) => Ok(next),
        None => Err(io::Error::from(ErrorKind::InvalidInput)),
    }
}

// Writes what is put until the outlet is closed or the stream fails.
fn write_all<R: Clock + Wait>(
    rt: &R,
    alloc: Global,
    outlet: &Outlet,
    stream: &TcpStream,
    limit: Option<u64>,
) -> io::Result<()> {
    let mut connection = Connection::new(rt, stream, PATIENCE)?;
    let mut next = Instant::now(rt)?;
    let mut bytes = Vec::new(alloc);
    for _ in 0..u64::MAX {
        if !outlet.take(rt, &mut bytes) {
            break;
        }
        if let Some(limit) = limit {
            next = wait_for(rt, next, bytes.len(), limit)?;
        }
        connection.allow(PATIENCE)?;
        connection.write_all(bytes.as_slice())?;
        bytes.clear();
        outlet.end(rt, connection.sent(), true);
    }
    Ok(())
}

/// Writes what is put into an outlet to a stream, at most a number of bytes in a second, until it is closed.
pub fn write_out<R: Clock + Wait>(
    rt: &R,
    alloc: Global,
    outlet: &Outlet,
    stream: &TcpStream,
    limit: Option<u64>,
) {
    if write_all(rt, alloc, outlet, stream, limit).is_err() {
        outlet.end(rt, 0, false);
    }
}
