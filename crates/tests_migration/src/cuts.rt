//! Connections that are cut at each byte of a small migration, and the next try.

use crate::guests::{
    Host, are_equal, dirty_count, guest_of, hear_ready, put, send_pages, take_until,
};
use live_migration::{Options, Receiver, Reply, SendError, Sender, Stage};
use std::alloc::Global;
use std::io::{self, ErrorKind, Write};
use std::test::Fail;
use vm_memory_base::{ExactBitmap, GuestAddress, NewBitmap};
use vm_memory_guest::{BlockId, HostMemory};

/// Takes this many bytes, and then fails. Each other write is interrupted.
#[derive(Drop)]
pub(crate) struct Cut {
    pub(crate) bytes: Vec<u8>,
    pub(crate) left: usize,
    pub(crate) is_interrupted: bool,
}

impl Write for Cut {
    fn write(&mut self, buf: &[u8]) -> io::Result<usize> {
        self.is_interrupted = !self.is_interrupted;
        if self.is_interrupted {
            return Err(io::Error::from(ErrorKind::Interrupted));
        }
        let count = buf.len().min(self.left);
        if count == 0 && !buf.is_empty() {
            return Err(io::Error::from(ErrorKind::BrokenPipe));
        }
        self.bytes.extend_from_slice(&buf[..count])?;
        self.left -= count;
        Ok(count)
    }

    fn flush(&mut self) -> io::Result<()> {
        Ok(())
    }
}

// Two rounds, with a write between them, up to done.
fn send_all<B: ExactBitmap, W: Write>(
    alloc: Global,
    sender: &mut Sender,
    host: &mut HostMemory<B>,
    writer: &mut W,
) -> Result<(), SendError> {
    hear_ready(sender)?;
    send_pages(alloc, sender, host, 2, writer)?;
    sender.end_round(alloc, writer)?;
    put(host, BlockId(1), 0x101, 8);
    send_pages(alloc, sender, host, 2, writer)?;
    sender.send_section(alloc, writer, b"q", &[5])?;
    sender.end_round(alloc, writer)?;
    sender.done(alloc, writer)
}

// Whether a sender refuses every call that writes or reads its stream, and does neither.
fn sends_no_more(alloc: Global, sender: &mut Sender) -> bool {
    let mut stream = Vec::new(alloc);
    let replies = [128, 0, 0, 0, 0, 0, 0, 0, 129, 0, 0, 0, 0, 0, 0, 0];
    let mut input = replies.as_slice();
    let outcomes = [
        sender.ready(&mut input),
        sender.send_batch(&mut stream),
        sender.send_section(alloc, &mut stream, b"q", &[5]),
        sender.end_round(alloc, &mut stream),
        sender.done(alloc, &mut stream),
        sender.accepted(&mut input),
        sender.go(&mut stream),
    ];
    let all = outcomes
        .iter()
        .all(|outcome| matches!(outcome, Err(SendError::Order)));
    all && stream.is_empty() && input.len() == replies.len()
}

// Moves a guest to an empty host over a connection that is cut after so many bytes. Where it is cut, all pages that
// were harvested are dirty again. Answers whether it was not cut and the blocks are equal.
fn tried<B: ExactBitmap, C: NewBitmap + Drop>(
    alloc: Global,
    host: &mut HostMemory<B>,
    places: &[(BlockId, GuestAddress)],
    other: &mut HostMemory<C>,
    left: usize,
) -> Result<bool, Fail> {
    let mut cut = Cut {
        bytes: Vec::new(alloc),
        left,
        is_interrupted: false,
    };
    let options = Options { digests: true };
    let Ok(mut sender) = Sender::begin(alloc, host, places, options, &mut cut) else {
        return Ok(false);
    };
    if send_all(alloc, &mut sender, host, &mut cut).is_err() {
        if !sends_no_more(alloc, &mut sender) {
            return Err(Fail::new(format_args!("{left}: more is sent")));
        }
        sender.abort(host);
        return Ok(false);
    }
    let mut input = cut.bytes.as_slice();
    let mut receiver = Receiver::begin(alloc, &mut input, other, 0x10_0000)?;
    take_until(&mut receiver, input, other, Stage::Done)?;
    sender.accepted(&mut Reply::Accepted.encode().as_slice())?;
    Ok(are_equal(host, places, other, 0))
}

// The bytes of the whole stream: the header, the pages, of which the second block has one of zeros and one that is cut,
// the end of a round, that page again, a section, the end of the last round, and done.
const STREAM: usize = HEADER + FIRST_BLOCK + (20 + 20 + 0x80) + 44 + (20 + 0x80) + 11 + 44 + 8;

// The bytes of the header, and of the first round's pages of the first block: two of zeros, and one that is cut.
const HEADER: usize = 20 + 2 * 24;

const FIRST_BLOCK: usize = 20 + 20 + 21;

// How many pages of each block are dirty after a try that was cut after so many bytes: those of a block that was
// harvested are again, also what no one had written.
fn dirty_after(left: usize) -> (usize, usize) {
    if left < HEADER {
        (1, 1)
    } else if left < HEADER + FIRST_BLOCK {
        (3, 1)
    } else {
        (3, 2)
    }
}

// Answers whether a try was not cut. Where it was, fails if other pages are dirty than ought to be, or the next try
// does not move all to another empty host.
fn is_whole<B: ExactBitmap, C: NewBitmap + Drop>(
    alloc: Global,
    host: &mut HostMemory<B>,
    places: &[(BlockId, GuestAddress)],
    first: &mut HostMemory<C>,
    second: &mut HostMemory<C>,
    left: usize,
) -> Result<bool, Fail> {
    put(host, BlockId(0), 0x20, 3);
    put(host, BlockId(1), 0x17f, 4);
    if tried(alloc, host, places, first, left)? {
        return Ok(true);
    }
    let dirty = (
        dirty_count(host, alloc, BlockId(0))?,
        dirty_count(host, alloc, BlockId(1))?,
    );
    if dirty != dirty_after(left) {
        return Err(Fail::new(format_args!("{left}: {dirty:?} pages")));
    }
    if !tried(alloc, host, places, second, usize::MAX)? {
        return Err(Fail::new(format_args!("{left}: the next try")));
    }
    Ok(false)
}

#[test]
fn cut_connections_and_the_next_try(rt: HostRuntime) -> Result<(), Fail> {
    let alloc = rt.alloc();
    let mut cuts: usize = 0;
    for left in 0..0x1000 {
        let (mut host, places) = guest_of(alloc, &[(0x21, 0x10), (0x180, 0x100)])?;
        let (mut first, mut second) = (Host::new(alloc), Host::new(alloc));
        if is_whole(alloc, &mut host, &places, &mut first, &mut second, left)? {
            break;
        }
        cuts = cuts.saturating_add(1);
    }
    // Each byte of the stream was the first that was not sent.
    assert!(rt; cuts == STREAM, "{cuts} cuts");
    Ok(())
}
