//! What a receiver replies: that all came, after done, and nothing before.

use crate::cuts::Cut;
use crate::guests::{bytes_of, guest_of};
use crate::streams::{CASES, LIMIT, WHOLE, stream_of};
use live_migration::Receiver;
use std::alloc::Global;
use std::test::Fail;
use test_text::expect_text;
use vm_memory_base::NewBitmap;
use vm_memory_guest::{BlockId, HostMemory};

// How done comes after the end of a round.
const ENDS: [&str; 3] = ["e,0 4,5 4,0", "e,1 4,5 4,0", "n,1 4,5 4,0"];

// Receives a stream, in a host that has a block of four bytes, over a writer that takes so many bytes. What came of it,
// and what was replied.
fn received<B: NewBitmap + Drop>(
    alloc: Global,
    stream: &[u8],
    host: &mut HostMemory<B>,
    left: usize,
) -> Result<String, Fail> {
    let mut writer = Cut {
        bytes: Vec::new(alloc),
        left,
        is_interrupted: false,
    };
    let mut input = stream;
    let mut receiver = match Receiver::begin(alloc, &mut input, host, LIMIT) {
        Ok(receiver) => receiver,
        Err(refusal) => return Ok(format!(in alloc; "{refusal:?} []")?),
    };
    let outcome = receiver.receive(&mut input, &mut writer, host);
    if bytes_of(host, BlockId(0)) != [0, 0, 0, 0].as_slice() {
        return Ok(String::from_str(alloc, "another block changed")?);
    }
    let replied = writer.bytes.as_slice();
    Ok(match outcome {
        Ok(()) => format!(in alloc; "ok {replied:?}")?,
        Err(refusal) => format!(in alloc; "{refusal:?} {replied:?}")?,
    })
}

#[test]
fn replies_of_a_receiver(rt: HostRuntime) -> Result<(), Fail> {
    let alloc = rt.alloc();
    let stream = stream_of(alloc, WHOLE)?;
    // Done and go, the last two frames, have eight bytes each.
    for (left, cut, wanted) in [
        (usize::MAX, 17, "Ended []"),
        (usize::MAX, 16, "Ended []"),
        (usize::MAX, 9, "Ended []"),
        (usize::MAX, 8, "Ended [129, 0, 0, 0, 0, 0, 0, 0]"),
        (usize::MAX, 1, "Ended [129, 0, 0, 0, 0, 0, 0, 0]"),
        (usize::MAX, 0, "ok [129, 0, 0, 0, 0, 0, 0, 0]"),
        // The writer fails.
        (0, 0, "Failed []"),
        (3, 0, "Failed [129, 0, 0]"),
        (7, 0, "Failed [129, 0, 0, 0, 0, 0, 0]"),
        (8, 0, "ok [129, 0, 0, 0, 0, 0, 0, 0]"),
        (7, 9, "Ended []"),
    ] {
        let (mut host, _) = guest_of(alloc, &[(4, 1)])?;
        let bytes = stream
            .get(..stream.len().saturating_sub(cut))
            .unwrap_or(&[]);
        expect_text(
            cut,
            received(alloc, bytes, &mut host, left)?.as_str(),
            wanted,
        )?;
    }
    // That all came is said after done in its order, and not otherwise.
    for (case, (text, wanted)) in CASES.iter().enumerate() {
        let (mut host, _) = guest_of(alloc, &[(4, 1)])?;
        let stream = stream_of(alloc, text)?;
        let outcome = if wanted.starts_with("[") {
            "ok"
        } else {
            *wanted
        };
        let replied = if ENDS.iter().any(|end| text.contains(*end)) {
            "[129, 0, 0, 0, 0, 0, 0, 0]"
        } else {
            "[]"
        };
        let all = format!(in alloc; "{outcome} {replied}")?;
        expect_text(
            case,
            received(alloc, stream.as_slice(), &mut host, usize::MAX)?.as_str(),
            all.as_str(),
        )?;
    }
    Ok(())
}
