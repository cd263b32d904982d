//! The replies that a sender awaits: which bytes are ready and accepted, and what is read.

use live_migration::{Options, SendError, Sender};
use std::alloc::{AllocError, Global};
use std::io::{self, ErrorKind, Read};
use std::test::Fail;
use test_text::expect_text;
use vm_memory_base::ExclusiveBitmap;
use vm_memory_guest::HostMemory;

// What comes, what `ready` and what `accepted` makes of it, and how many bytes are left.
static CASES: [(&[u8], &str, &str, usize); 34] = [
    (&[128, 0, 0, 0, 0, 0, 0, 0], "ok", "Reply", 0),
    (&[128, 0, 0, 0, 0, 0, 0, 0, 129], "ok", "Reply", 1),
    (&[129, 0, 0, 0, 0, 0, 0, 0], "Reply", "ok", 0),
    (&[129, 0, 0, 0, 0, 0, 0, 0, 129, 0], "Reply", "ok", 2),
    // Refusals, by their places in the list.
    (&[130, 0, 0, 0, 1, 0, 0, 0], "Magic", "Magic", 0),
    (&[130, 0, 0, 0, 2, 0, 0, 0], "Version", "Version", 0),
    (&[130, 0, 0, 0, 3, 0, 0, 0], "BlockCount", "BlockCount", 0),
    (&[130, 0, 0, 0, 4, 0, 0, 0], "BlockLength", "BlockLength", 0),
    (&[130, 0, 0, 0, 5, 0, 0, 0], "PageSize", "PageSize", 0),
    (&[130, 0, 0, 0, 6, 0, 0, 0], "Place", "Place", 0),
    (
        &[130, 0, 0, 0, 7, 0, 0, 0, 8],
        "TooMuchMemory",
        "TooMuchMemory",
        1,
    ),
    (&[130, 0, 0, 0, 8, 0, 0, 0], "FrameKind", "FrameKind", 0),
    (&[130, 0, 0, 0, 9, 0, 0, 0], "FrameLength", "FrameLength", 0),
    (&[130, 0, 0, 0, 10, 0, 0, 0], "Block", "Block", 0),
    (&[130, 0, 0, 0, 11, 0, 0, 0], "Page", "Page", 0),
    (&[130, 0, 0, 0, 12, 0, 0, 0], "CutPage", "CutPage", 0),
    (&[130, 0, 0, 0, 13, 0, 0, 0], "Order", "Order", 0),
    (&[130, 0, 0, 0, 14, 0, 0, 0], "Digest", "Digest", 0),
    (&[130, 0, 0, 0, 15, 0, 0, 0], "Ended", "Ended", 0),
    (&[130, 0, 0, 0, 16, 0, 0, 0], "Failed", "Failed", 0),
    (&[130, 0, 0, 0, 17, 0, 0, 0], "Memory", "Memory", 0),
    (&[130, 0, 0, 0, 18, 0, 0, 0], "Options", "Options", 0),
    // What is no reply.
    (&[130, 0, 0, 0, 0, 0, 0, 0], "Reply", "Reply", 0),
    (&[130, 0, 0, 0, 19, 0, 0, 0], "Reply", "Reply", 0),
    (&[130, 0, 0, 0, 1, 1, 0, 0], "Reply", "Reply", 0),
    (&[128, 0, 0, 0, 1, 0, 0, 0], "Reply", "Reply", 0),
    (&[129, 0, 0, 0, 0, 0, 0, 1], "Reply", "Reply", 0),
    (&[0, 0, 0, 128, 0, 0, 0, 0], "Reply", "Reply", 0),
    (&[131, 0, 0, 0, 0, 0, 0, 0], "Reply", "Reply", 0),
    (&[0, 0, 0, 0, 0, 0, 0, 0, 0], "Reply", "Reply", 1),
    // Too few bytes.
    (&[], "stream", "stream", 0),
    (&[128], "stream", "stream", 0),
    (&[128, 0, 0, 0, 0, 0, 0], "stream", "stream", 0),
    (&[129, 0, 0, 0, 0, 0, 0], "stream", "stream", 0),
];

// Gives one byte at a time, and is interrupted before each.
#[derive(Drop)]
struct Slow<'a> {
    bytes: &'a [u8],
    is_interrupted: bool,
}

impl<'a> Read for Slow<'a> {
    fn read(&mut self, buf: &mut [u8]) -> io::Result<usize> {
        self.is_interrupted = !self.is_interrupted;
        if self.is_interrupted {
            return Err(io::Error::from(ErrorKind::Interrupted));
        }
        let count = buf.len().min(1);
        self.bytes.read(&mut buf[..count])
    }
}

// What came of a call, in a word.
fn told(alloc: Global, outcome: Result<(), SendError>) -> Result<String, AllocError> {
    match outcome {
        Ok(()) => String::from_str(alloc, "ok"),
        Err(SendError::Refused(refusal)) => format!(in alloc; "{refusal:?}"),
        Err(SendError::Failed) => String::from_str(alloc, "stream"),
        Err(error) => format!(in alloc; "{error:?}"),
    }
}

// A sender awaits ready. A second call reads nothing.
fn ready<R: Read>(alloc: Global, sender: &mut Sender, reader: &mut R) -> Result<String, Fail> {
    let text = told(alloc, sender.ready(reader))?;
    let again = told(alloc, sender.ready(reader))?;
    expect_text(0, again.as_str(), "Order")?;
    Ok(text)
}

// A sender without blocks awaits accepted, for which ready came. Nothing is sent before ready, accepted is not awaited
// before done, and the guest is given up only after accepted.
fn accepted<R: Read>(alloc: Global, sender: &mut Sender, reader: &mut R) -> Result<String, Fail> {
    let mut stream = Vec::new(alloc);
    let early = told(alloc, sender.end_round(alloc, &mut stream))?;
    expect_text(1, early.as_str(), "Order")?;
    sender.ready(&mut [128, 0, 0, 0, 0, 0, 0, 0].as_slice())?;
    let early = told(alloc, sender.accepted(reader))?;
    expect_text(2, early.as_str(), "Order")?;
    sender.end_round(alloc, &mut stream)?;
    sender.done(alloc, &mut stream)?;
    let text = told(alloc, sender.accepted(reader))?;
    let wanted = if text.as_str() == "ok" { "ok" } else { "Order" };
    let given = told(alloc, sender.go(&mut stream))?;
    expect_text(3, given.as_str(), wanted)?;
    Ok(text)
}

// What comes of ready and of accepted, where both come from the same reader made anew.
fn heard<R: Read>(alloc: Global, reader: &mut R, is_begun: bool) -> Result<String, Fail> {
    let host = HostMemory::<ExclusiveBitmap>::new(alloc);
    let mut header = Vec::new(alloc);
    let mut sender = Sender::begin(alloc, &host, &[], Options::default(), &mut header)?;
    if is_begun {
        ready(alloc, &mut sender, reader)
    } else {
        accepted(alloc, &mut sender, reader)
    }
}

#[test]
fn replies_are_heard(rt: HostRuntime) -> Result<(), Fail> {
    let alloc = rt.alloc();
    for (case, (bytes, ready, accepted, left)) in CASES.iter().enumerate() {
        for (is_begun, wanted) in [(true, *ready), (false, *accepted)] {
            let mut input = *bytes;
            expect_text(case, heard(alloc, &mut input, is_begun)?.as_str(), wanted)?;
            let mut slow = Slow {
                bytes: *bytes,
                is_interrupted: false,
            };
            expect_text(case, heard(alloc, &mut slow, is_begun)?.as_str(), wanted)?;
            assert!(rt;
                input.len() == *left && slow.bytes.len() == *left,
                "case {case}: {} and {} bytes are left",
                input.len(),
                slow.bytes.len()
            );
        }
    }
    Ok(())
}
