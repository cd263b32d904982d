//! Streams that are made from a valid one by changes of bytes, lengths and order.

use crate::streams::{stream_of, told};
use std::alloc::Global;
use std::process::Abort;
use std::test::Fail;
use test_text::next_number;

const FRAMES: [&str; 9] = [
    "a",
    "4,1 4,11 4,0 8,0 x,0102030405",
    "4,2 4,c 4,1 8,0",
    "e,0",
    "4,1 4,f 4,1 8,0 x,070809",
    "4,4 4,3 x,02 x,6162",
    "e,1",
    "4,5 4,0",
    "4,6 4,0",
];

// What becomes of a stream: a change of a byte, bytes that are taken out or put in, or an early end.
fn changed(stream: &mut Vec<u8>, state: &mut u64) -> Result<(), Fail> {
    let len = stream.len();
    if len == 0 {
        return Ok(());
    }
    let at = next_number(state) as usize % len;
    match next_number(state) % 8 {
        0 => stream.truncate(at),
        1 => {
            stream.remove(at);
        }
        2 => stream.insert(at, (next_number(state) % 256) as u8)?,
        3 => stream[at] ^= 1,
        4 => stream[at] = 0,
        5 => stream[at] = 255,
        _ => stream[at] = (next_number(state) % 256) as u8,
    }
    Ok(())
}

// The frames in another order, or some twice or not at all.
fn shuffled(alloc: Global, state: &mut u64) -> Result<Vec<u8>, Fail> {
    let mut text = String::from_str(alloc, FRAMES[0])?;
    let from = 1 + next_number(state) as usize % (FRAMES.len() - 1);
    let to = 1 + next_number(state) as usize % (FRAMES.len() - 1);
    let kind = next_number(state) % 3;
    for i in 1..FRAMES.len() {
        let pick = match kind {
            // Two change places.
            0 if i == from => to,
            0 if i == to => from,
            // One comes in place of another.
            1 if i == from => to,
            _ => i,
        };
        text.push_str(" ")?;
        text.push_str(FRAMES[pick])?;
        // One comes twice.
        if kind == 2 && i == from {
            text.push_str(" ")?;
            text.push_str(FRAMES[to])?;
        }
    }
    stream_of(alloc, text.as_str())
}

// The outcomes, by name.
const OUTCOMES: [&str; 17] = [
    "Magic",
    "Version",
    "Options",
    "BlockCount",
    "BlockLength",
    "PageSize",
    "Place",
    "TooMuchMemory",
    "FrameKind",
    "FrameLength",
    "Block",
    "Page",
    "CutPage",
    "Order",
    "Digest",
    "Ended",
    "taken",
];

fn outcome_of(text: &str) -> Option<usize> {
    if text.starts_with('[') {
        return Some(OUTCOMES.len() - 1);
    }
    OUTCOMES.iter().position(|name| *name == text)
}

// Makes streams and counts what comes of them. A stream whose bytes were changed is taken only where it is the same up
// to go.
fn counted(
    alloc: Global,
    trials: usize,
    state: &mut u64,
    counts: &mut [usize; 17],
) -> Result<(), Fail> {
    let whole = stream_of(alloc, FRAMES.join(alloc, " ")?.as_str())?;
    for trial in 0..trials {
        let is_shuffled = next_number(state) % 4 == 0;
        let mut stream = if is_shuffled {
            shuffled(alloc, state)?
        } else {
            Vec::from_slice(alloc, whole.as_slice())?
        };
        if !is_shuffled || next_number(state) % 2 == 0 {
            changed(&mut stream, state)?;
        }
        let text = told(alloc, stream.as_slice())?;
        let Some(outcome) = outcome_of(text.as_str()) else {
            return Err(Fail::new(format_args!("trial {trial}: {text}")));
        };
        let is_whole = stream.starts_with(whole.as_slice());
        if outcome == OUTCOMES.len() - 1 && !is_shuffled && !is_whole {
            return Err(Fail::new(format_args!("trial {trial}: taken, {text}")));
        }
        if let Some(count) = counts.get_mut(outcome) {
            *count = count.saturating_add(1);
        }
    }
    Ok(())
}

// A tenth of the trials. Each outcome comes.
fn tried(rt: &(impl Print + Abort), alloc: Global, seed: u64) -> Result<(), Fail> {
    let mut counts = [0; 17];
    let mut state = seed;
    counted(alloc, 10_000, &mut state, &mut counts)?;
    for (name, count) in OUTCOMES.iter().zip(&counts) {
        println!(rt; "{name} {count}")?;
        assert!(rt; *count > 0, "{name} never came");
    }
    Ok(())
}

#[test]
fn changed_streams_1(rt: HostRuntime) -> Result<(), Fail> {
    tried(&rt, rt.alloc(), 61)
}

#[test]
fn changed_streams_2(rt: HostRuntime) -> Result<(), Fail> {
    tried(&rt, rt.alloc(), 62)
}

#[test]
fn changed_streams_3(rt: HostRuntime) -> Result<(), Fail> {
    tried(&rt, rt.alloc(), 63)
}

#[test]
fn changed_streams_4(rt: HostRuntime) -> Result<(), Fail> {
    tried(&rt, rt.alloc(), 64)
}

#[test]
fn changed_streams_5(rt: HostRuntime) -> Result<(), Fail> {
    tried(&rt, rt.alloc(), 65)
}

#[test]
fn changed_streams_6(rt: HostRuntime) -> Result<(), Fail> {
    tried(&rt, rt.alloc(), 66)
}

#[test]
fn changed_streams_7(rt: HostRuntime) -> Result<(), Fail> {
    tried(&rt, rt.alloc(), 67)
}

#[test]
fn changed_streams_8(rt: HostRuntime) -> Result<(), Fail> {
    tried(&rt, rt.alloc(), 68)
}

#[test]
fn changed_streams_9(rt: HostRuntime) -> Result<(), Fail> {
    tried(&rt, rt.alloc(), 69)
}

#[test]
fn changed_streams_10(rt: HostRuntime) -> Result<(), Fail> {
    tried(&rt, rt.alloc(), 70)
}
