//! What is printed of the rounds.

use crate::options::Load;
use anyhow::Result;
use live_migration::{Rate, Stop};
use std::alloc::{AllocError, Global};
use std::time::{Clock, Duration, Instant};

/// What a round moved.
#[derive(Clone, Copy)]
pub struct Row {
    /// The pages that were sent.
    pub pages: usize,
    /// The bytes of the stream.
    pub bytes: u64,
    /// How many microseconds it took.
    pub micros: u64,
    /// The pages that were dirty after it.
    pub left: usize,
}

/// The rounds of a migration. The last one is in the pause.
#[derive(Drop)]
pub struct Rounds {
    pub rows: Vec<Row>,
    /// How many microseconds the guest stood, from the last page that was written up to the leave to run it elsewhere.
    pub pause: u64,
}

// How many signs the bar of all pages has.
const BAR: usize = 32;

/// The microseconds since a time.
pub fn micros_since<R: Clock>(rt: &R, start: Instant) -> Result<u64> {
    Ok(micros_of(start.elapsed(rt)?))
}

fn micros_of(time: Duration) -> u64 {
    time.as_secs()
        .saturating_mul(1_000_000)
        .saturating_add(u64::from(time.subsec_micros()))
}

/// Microseconds, as milliseconds with one digit after the point.
pub fn millis_text(alloc: Global, micros: u64) -> Result<String, AllocError> {
    let whole = micros / 1000;
    let tenth = micros % 1000 / 100;
    format!(in alloc; "{whole}.{tenth}")
}

// A bar as long as a part of all pages is, and no shorter than one sign if there are any.
fn bar_of(alloc: Global, pages: usize, all: usize) -> Result<String, AllocError> {
    let mut bar = String::new(alloc);
    let signs = pages.saturating_mul(BAR).checked_div(all).unwrap_or(0);
    let least = usize::from(pages > 0);
    for _ in 0..signs.max(least).min(BAR) {
        bar.push('#')?;
    }
    Ok(bar)
}

/// The line above the rounds.
pub fn tell_head(rt: &impl Print, times: bool) -> Result<()> {
    if times {
        println!(rt; "round   pages sent        bytes         ms     MB/s   left behind")?;
    } else {
        println!(rt; "round   pages sent        bytes   left behind")?;
    }
    Ok(())
}

/// The line of a round of a guest with this many pages.
pub fn tell_row(
    rt: &impl Print,
    alloc: Global,
    times: bool,
    number: u64,
    row: (&Row, usize),
) -> Result<()> {
    let (row, all) = row;
    let bar = bar_of(alloc, row.pages, all)?;
    let bar = bar.as_str();
    let Row {
        pages,
        bytes,
        micros,
        left,
    } = *row;
    if times {
        let millis = millis_text(alloc, micros)?;
        let rate = bytes.checked_div(micros).unwrap_or(0);
        println!(rt;
            "{number:>5} {pages:>12} {bytes:>12} {:>10} {rate:>8} {left:>13}  {bar}",
            millis.as_str()
        )?;
    } else {
        println!(rt; "{number:>5} {pages:>12} {bytes:>12} {left:>13}  {bar}")?;
    }
    Ok(())
}

/// The line below a round that left no fewer pages than the one before it.
pub fn tell_no_headway(rt: &impl Print, before: usize) -> Result<()> {
    println!(rt; "      no headway: the round before left {before} pages")?;
    Ok(())
}

// How many rounds the rate is taken of.
const LAST: usize = 2;

/// What the last two rounds sent, and in how many microseconds.
pub fn rate_of(rows: &[Row]) -> Rate {
    let (_, _, bytes, micros) = sums(&rows[rows.len().saturating_sub(LAST)..]);
    Rate { bytes, micros }
}

/// The line of a round that goes on: how many pages of its block are left to be copied, and how many bytes were sent.
pub fn tell_progress(rt: &impl Print, left: usize, sent: u64) -> Result<()> {
    println!(rt; "      {left} pages of the block are left, {sent} bytes sent so far")?;
    Ok(())
}

/// The line of the pause beside what was allowed, if a time was.
pub fn tell_pause(rt: &impl Print, alloc: Global, stop: Stop, pause: u64) -> Result<()> {
    if let Stop::Within(micros) = stop {
        let took = millis_text(alloc, pause)?;
        let allowed = millis_text(alloc, micros)?;
        println!(rt;
            "the guest stood for {} ms, of {} ms that were allowed",
            took.as_str(),
            allowed.as_str()
        )?;
    }
    Ok(())
}

/// What came of a round, in how many microseconds.
#[derive(Clone, Copy)]
pub struct Came {
    pub round: u64,
    pub frames: u64,
    pub bytes: u64,
    pub micros: u64,
}

/// The line of a round at the receiver: what came of it so far, and at which rate, or all that came if it has ended.
pub fn tell_came(rt: &impl Print, came: Came, has_ended: bool) -> Result<()> {
    let Came {
        round,
        frames,
        bytes,
        micros,
    } = came;
    let rate = bytes.checked_div(micros).unwrap_or(0);
    let word = if has_ended { "ended" } else { "goes on" };
    println!(rt; "round {round} {word}: {frames} frames, {bytes} bytes, {rate} MB/s")?;
    Ok(())
}

/// How many bytes of memory are left to come in the first round, at most.
pub fn tell_left(rt: &impl Print, bytes: u64) -> Result<()> {
    println!(rt; "      at most {bytes} bytes are left of the first round")?;
    Ok(())
}

// The sums of rows: how many there are, their pages, their bytes and their microseconds.
fn sums(rows: &[Row]) -> (usize, usize, u64, u64) {
    let mut pages = 0usize;
    let mut bytes = 0u64;
    let mut micros = 0u64;
    for row in rows {
        pages = pages.saturating_add(row.pages);
        bytes = bytes.saturating_add(row.bytes);
        micros = micros.saturating_add(row.micros);
    }
    (rows.len(), pages, bytes, micros)
}

// A line of the table.
fn tell_sums(
    rt: &impl Print,
    alloc: Global,
    times: bool,
    name: &str,
    sums: (usize, usize, u64, u64),
) -> Result<()> {
    let (rounds, pages, bytes, micros) = sums;
    if times {
        let millis = millis_text(alloc, micros)?;
        println!(rt;
            "{name:<12} {rounds:>6} {pages:>12} {bytes:>12} {:>10}",
            millis.as_str()
        )?;
    } else {
        println!(rt; "{name:<12} {rounds:>6} {pages:>12} {bytes:>12}")?;
    }
    Ok(())
}

/// The table at the end: what went while the guest ran, in the pause, and in all.
pub fn tell_table(rt: &impl Print, alloc: Global, times: bool, rounds: &Rounds) -> Result<()> {
    let rows = rounds.rows.as_slice();
    let (count, pages, bytes, _) = sums(rows);
    let ran = sums(&rows[..rows.len().saturating_sub(1)]);
    let paused = (
        count.saturating_sub(ran.0),
        pages.saturating_sub(ran.1),
        bytes.saturating_sub(ran.2),
        rounds.pause,
    );
    let all = (count, pages, bytes, ran.3.saturating_add(rounds.pause));
    let end = if times { "         ms" } else { "" };
    println!(rt; "             rounds   pages sent        bytes{end}")?;
    tell_sums(rt, alloc, times, "while it ran", ran)?;
    tell_sums(rt, alloc, times, "in the pause", paused)?;
    tell_sums(rt, alloc, times, "in all", all)
}

/// The line of the writers.
pub fn tell_writers(rt: &impl Print, load: &Load, written: u64) -> Result<()> {
    let threads = load.threads;
    println!(rt; "{threads} threads wrote {written} pages meanwhile")?;
    Ok(())
}

/// The line of a block's digest, and whether it is that of the other end.
pub fn tell_digest(
    rt: &impl Print,
    alloc: Global,
    number: usize,
    ours: &[u8; 32],
    is_equal: bool,
) -> Result<()> {
    let digest = hex::encode(alloc, ours)?;
    let word = if is_equal { "equal" } else { "NOT EQUAL" };
    println!(rt; "block {number} {} {word}", digest.as_str())?;
    Ok(())
}
