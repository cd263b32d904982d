//! The sending end.

use crate::connection::{Connection, PATIENCE, READY_PATIENCE, VERIFY_PATIENCE};
use crate::digests::{compare, read_digests, send_digests};
use crate::options::Sending;
use crate::outlet::{Outlet, write_out};
use crate::report::{
    Rounds, Row, micros_since, rate_of, tell_head, tell_no_headway, tell_pause, tell_progress,
    tell_row, tell_table, tell_writers,
};
use crate::writers::{Pace, Shared, write_on};
use anyhow::{Context, Result, anyhow, bail};
use live_migration::{Left, Options, Refusal, Reply, SendError, Sender};
use std::alloc::Global;
use std::io::{Read, Write};
use std::net::TcpStream;
use std::sync::Wait;
use std::thread::{self, Threads};
use std::time::{Clock, Instant};

// How many microseconds lie between two lines of a round.
const TELLING: u64 = 1_000_000;

// The sending end of a migration: its guest is written by other threads.
#[derive(Drop)]
struct SendingEnd<'a, R> {
    rt: &'a R,
    alloc: Global,
    shared: &'a Shared,
    asked: Sending<'a>,
    pace: Pace,
    connection: Connection<'a, R>,
    // What was copied goes through this list to the outlet, which another thread writes to the connection.
    copied: Vec<u8>,
    outlet: &'a Outlet,
    sender: Sender,
    rounds: Rounds,
    // When the last line was printed.
    told: Instant,
}

// A sender, and its header, which waits to be sent.
fn first_sender<R: Wait>(
    rt: &R,
    alloc: Global,
    shared: &Shared,
    options: Options,
) -> Result<(Sender, Vec<u8>), SendError> {
    let mut header = Vec::new(alloc);
    let running = shared.running.lock(rt);
    let places = shared.layout.places.as_slice();
    let sender = Sender::begin(alloc, &running.host, places, options, &mut header)?;
    Ok((sender, header))
}

// Waits for the receiver to be ready.
fn await_ready<R: Read>(sender: &mut Sender, reader: &mut R) -> Result<()> {
    match sender.ready(reader) {
        Ok(()) => Ok(()),
        Err(SendError::Failed) => bail!("the receiver was not ready in time"),
        Err(error) => Err(error.into()),
    }
}

impl<'a, R: Clock + Print + Wait> SendingEnd<'a, R> {
    // Takes the pages of the next block. The lock is held for this alone.
    fn harvest(&mut self) -> Result<usize, SendError> {
        let shared = self.shared;
        let mut guard = shared.running.lock(self.rt);
        let running = &mut *guard;
        self.sender.harvest(self.alloc, &mut running.host)
    }

    // Copies pages that wait. The lock is held for this alone.
    fn copy(&mut self) -> Result<usize, SendError> {
        let shared = self.shared;
        let running = shared.running.lock(self.rt);
        self.sender.copy_batch(&running.host)
    }

    // Copies and sends so many pages that wait: while some are copied, another thread writes those before them.
    fn send_waiting(&mut self, count: usize) -> Result<()> {
        let mut left = count;
        for _ in 0..u64::MAX {
            if left == 0 {
                break;
            }
            left = left.saturating_sub(self.copy()?);
            self.sender.take_batch(&mut self.copied)?;
            self.outlet.put(self.rt, &mut self.copied)?;
            self.tell_progress(left)?;
        }
        Ok(())
    }

    // Tells each second how many pages of a block are left to be copied, and the rate since the round began.
    fn tell_progress(&mut self, left: usize) -> Result<()> {
        if self.asked.times && micros_since(self.rt, self.told)? >= TELLING {
            self.told = Instant::now(self.rt)?;
            tell_progress(self.rt, left, self.outlet.sent(self.rt))?;
        }
        Ok(())
    }

    // Sends the pages of each block. Counted writers write from the last harvest on, so that it is decided what they
    // write before and after it.
    fn send_pages(&mut self, is_last: bool) -> Result<usize> {
        let blocks = self.shared.layout.places.len();
        let mut pages = 0usize;
        for number in 0..blocks {
            let count = self.harvest()?;
            pages = pages.saturating_add(count);
            let is_taken = number.saturating_add(1) == blocks;
            if is_taken && !is_last && self.pace == Pace::Count {
                self.shared.release(self.rt, pages);
            }
            self.send_waiting(count)?;
        }
        self.outlet.flush(self.rt)?;
        Ok(pages)
    }

    // How many bytes were sent.
    fn sent(&self) -> u64 {
        let copied = self.outlet.sent(self.rt);
        self.connection.sent().saturating_add(copied)
    }

    // What so many pages are to the policy.
    fn left_of(&self, pages: usize) -> Left {
        let page_size = self.shared.layout.page_size.get() as u64;
        Left {
            pages: pages as u64,
            bytes: (pages as u64).saturating_mul(page_size),
        }
    }

    // Sends what goes with the guest beside its memory: how many pages were written.
    fn send_state(&mut self) -> Result<()> {
        let state = self.shared.written(self.rt).to_le_bytes();
        self.sender
            .send_section(self.alloc, &mut self.connection, b"writers", &state)?;
        Ok(())
    }

    // Sends a round, and tells how many pages are dirty after it.
    fn send_round(&mut self, is_last: bool) -> Result<Row> {
        let start = Instant::now(self.rt)?;
        let before = self.sent();
        let pages = self.send_pages(is_last)?;
        self.connection.allow(PATIENCE)?;
        if is_last {
            self.send_state()?;
        } else if self.pace == Pace::Count {
            self.shared.await_writers(self.rt);
        }
        self.sender.end_round(self.alloc, &mut self.connection)?;
        Ok(Row {
            pages,
            bytes: self.sent().saturating_sub(before),
            micros: micros_since(self.rt, start)?,
            left: self.shared.dirty(self.rt, self.alloc)?,
        })
    }

    // Says that all was sent, and waits for the receiver's word that it has it.
    fn finish(&mut self) -> Result<()> {
        self.connection.allow(PATIENCE)?;
        self.sender.done(self.alloc, &mut self.connection)?;
        self.sender.accepted(&mut self.connection)?;
        Ok(())
    }

    // Rounds while the guest runs, and one while it stands. Answers when it stopped.
    fn send_rounds(&mut self) -> Result<Instant> {
        let all = self.shared.layout.pages;
        let times = self.asked.times;
        let mut left = all;
        tell_head(self.rt, times)?;
        for number in 0..u64::MAX {
            let start = Instant::now(self.rt)?;
            let rate = rate_of(self.rounds.rows.as_slice());
            let is_last = self.asked.policy.is_last(number, self.left_of(left), rate);
            if is_last {
                self.shared.stop(self.rt);
            }
            let row = self.send_round(is_last)?;
            tell_row(self.rt, self.alloc, times, number, (&row, all))?;
            self.rounds.rows.push(row)?;
            if is_last {
                return Ok(start);
            }
            if number > 0 && row.left >= left {
                tell_no_headway(self.rt, left)?;
            }
            left = row.left;
        }
        bail!("there were too many rounds")
    }

    // All up to the word of the receiver that it has the guest. Answers when the guest stopped.
    fn send_guest(&mut self) -> Result<Instant> {
        let start = self.send_rounds()?;
        self.finish()?;
        Ok(start)
    }

    // Gives the guest up.
    fn give_up(&mut self, start: Instant) -> Result<()> {
        self.connection.allow(PATIENCE)?;
        self.sender.go(&mut self.connection)?;
        self.rounds.pause = micros_since(self.rt, start)?;
        Ok(())
    }

    // Why the receiver refused, if it said so.
    fn refusal(&mut self) -> Option<Refusal> {
        self.connection.allow(1).ok()?;
        let mut bytes = [0; 8];
        self.connection.read_exact(&mut bytes).ok()?;
        match Reply::decode(bytes) {
            Some(Reply::Refused(refusal)) => Some(refusal),
            _ => None,
        }
    }

    // Makes all pages that were harvested dirty again, and tells how many are.
    fn keep(self) -> Result<usize> {
        let SendingEnd {
            rt,
            alloc,
            shared,
            sender,
            ..
        } = self;
        let mut guard = shared.running.lock(rt);
        let running = &mut *guard;
        sender.abort(&mut running.host);
        drop(guard);
        Ok(shared.dirty(rt, alloc)?)
    }

    // Compares the blocks of both ends, by their digests.
    fn verify(&mut self) -> Result<()> {
        let blocks = self.shared.layout.places.len();
        let ours = self.shared.digests(self.rt, self.alloc)?;
        self.connection.allow(VERIFY_PATIENCE)?;
        send_digests(&mut self.connection, ours.as_slice())?;
        let theirs = read_digests(self.alloc, &mut self.connection, blocks)?;
        compare(self.rt, self.alloc, ours.as_slice(), theirs.as_slice())
    }

    fn into_rounds(self) -> Rounds {
        let SendingEnd { rounds, .. } = self;
        rounds
    }

    // Tells that the guest is no longer here and what was moved, and compares it if that is asked.
    fn tell(&mut self) -> Result<()> {
        println!(self.rt; "the guest was given up")?;
        tell_table(self.rt, self.alloc, self.asked.times, &self.rounds)?;
        tell_pause(
            self.rt,
            self.alloc,
            self.asked.policy.stop,
            self.rounds.pause,
        )?;
        tell_writers(self.rt, &self.shared.load, self.shared.written(self.rt))?;
        if self.asked.verify {
            self.verify()?;
        }
        Ok(())
    }
}

// Says which blocks there are, and waits for the receiver to be ready.
fn begin<'a, R: Clock + Wait>(
    rt: &'a R,
    alloc: Global,
    shared: &'a Shared,
    ways: (&'a TcpStream, &'a Outlet),
    how: (Sending<'a>, Pace),
) -> Result<SendingEnd<'a, R>> {
    let (asked, pace) = how;
    let (stream, outlet) = ways;
    let (mut sender, header) = first_sender(rt, alloc, shared, asked.options)?;
    let mut connection = Connection::new(rt, stream, PATIENCE)?;
    connection.write_all(header.as_slice())?;
    connection.allow(READY_PATIENCE)?;
    await_ready(&mut sender, &mut connection)?;
    Ok(SendingEnd {
        rt,
        alloc,
        shared,
        asked,
        pace,
        connection,
        copied: Vec::new(alloc),
        outlet,
        sender,
        rounds: Rounds {
            rows: Vec::new(alloc),
            pause: 0,
        },
        told: Instant::now(rt)?,
    })
}

// Moves a guest, which others write meanwhile, and answers its rounds. Where it fails before the guest was given up,
// the guest is as it was.
fn migrate<R: Clock + Print + Wait>(
    rt: &R,
    alloc: Global,
    shared: &Shared,
    ways: (&TcpStream, &Outlet),
    how: (Sending<'_>, Pace),
) -> Result<Rounds> {
    let mut end = begin(rt, alloc, shared, ways, how).context("the guest stays here")?;
    match end.send_guest() {
        Err(error) => {
            let error = match end.refusal() {
                Some(refusal) => anyhow!("refused: {refusal}"),
                None => error,
            };
            let count = end.keep()?;
            Err(error.context(format_args!("the guest stays here, {count} of its pages dirty")))
        }
        Ok(start) => {
            end.give_up(start).context(
                "the guest was given up, and it is not known whether the receiver has leave to run it",
            )?;
            end.tell()?;
            Ok(end.into_rounds())
        }
    }
}

/// Starts the threads that write a guest, and moves it.
pub fn run<R: Clock + Print + Sync + Threads + Wait>(
    rt: &R,
    alloc: Global,
    shared: &Shared,
    stream: &TcpStream,
    how: (Sending<'_>, Pace),
) -> Result<Rounds> {
    let pace = how.1;
    let limit = how.0.bandwidth;
    let outlet = Outlet::new(alloc);
    let outlet = &outlet;
    thread::scope(thread::scope_env(), rt, move |scope| -> Result<Rounds> {
        let mut is_started = scope
            .spawn(move || write_out(rt, alloc, outlet, stream, limit))
            .is_ok();
        for writer in 0..shared.load.threads {
            if is_started {
                is_started = scope
                    .spawn(move || write_on(rt, shared, writer, pace))
                    .is_ok();
            }
        }
        let moved = if is_started {
            migrate(rt, alloc, shared, (stream, outlet), how)
        } else {
            Err(anyhow!("a thread could not be started"))
        };
        shared.stop(rt);
        outlet.close(rt);
        moved
    })
}
