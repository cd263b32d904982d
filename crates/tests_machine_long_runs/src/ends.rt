//! How scripts end: at a bad line, and where a read or a write fails.

use std::alloc::Global;
use std::io;
use std::io::{Read, Write};
use std::test::Fail;
use test_text::expect_text;
use vm_memory::{DriveFault, drive};

/// What a script tells.
pub fn told(alloc: Global, script: &[u8]) -> Result<String, Fail> {
    let mut input = script;
    let mut output = Vec::new(alloc);
    let outcome = drive(alloc, &mut input, &mut output);
    text_of(output, outcome)
}

// Replies, and after them the status and the text of a fault.
fn text_of(replies: Vec<u8>, outcome: Result<(), DriveFault>) -> Result<String, Fail> {
    let mut text = String::from_utf8(replies)?;
    if let Err(fault) = outcome {
        let status = fault.status();
        write!(text, "{status} {fault}")?;
    }
    Ok(text)
}

// Lines that are bad before the first command and after it, one for each way to be so. That every other is refused
// is the contract of `drive`.
const BAD_LINES: [&[u8]; 22] = [
    b"table 0",
    b"set 0 0 0 1 rwx",
    b"enable 0 ON",
    b"block  1 1",
    b" block 1 1",
    b"plain 0 ",
    b"plain 0\r",
    b"plain \xef\xbc\x90",
    b"fetch 0 0 1",
    b"plain",
    b"read 0 0 1 1",
    b"store 0 3 0 0",
    b"dirty region 0",
    b"block 1 0",
    b"plain +1",
    b"plain 0x",
    b"plain 0x00000000000000000",
    b"plain 18446744073709551616",
    b"write 0 0 012",
    b"from 0 0 4 g:01,",
    b"to 0 0 4 i:01",
    b"check 0 0 1 wr",
];

// The replies before a bad line, and the line's number, in a script that begins so.
const BEGINNINGS: [(&[u8], &str); 2] = [
    (b"block 1 1\n", "block 0\n1 line 2: bad line"),
    (
        b"# one\n\nblock 1 1\nregion 0 0\nlayout 0\n",
        "block 0\nregion 0\nlayout 0\n1 line 6: bad line",
    ),
];

#[test]
fn a_bad_line_ends_a_script_after_its_replies(rt: HostRuntime) -> Result<(), Fail> {
    for (beginning, wanted) in BEGINNINGS {
        for (number, line) in BAD_LINES.iter().enumerate() {
            let script = [beginning, line, b"\nplain 0\n".as_slice()].concat(rt.alloc())?;
            let text = told(rt.alloc(), script.as_slice())?;
            expect_text(number, text.as_str(), wanted)?;
        }
    }
    Ok(())
}

// What fails, once, or is interrupted.
#[derive(Clone, Copy)]
enum Failing {
    /// The read after 13 bytes and each write are interrupted so many times in a row.
    Interrupted(usize),
    /// A read, after this many bytes.
    Read(usize, io::ErrorKind),
    /// A write, after this many bytes were taken.
    Write(usize),
    /// Each flush.
    Flush,
}

// Gives its text a byte at a time.
#[derive(Drop)]
struct FailingReader<'a> {
    text: &'a [u8],
    at: usize,
    failing: Option<Failing>,
    // How often in a row it was interrupted.
    tries: usize,
}

impl<'a> Read for FailingReader<'a> {
    fn read(&mut self, buf: &mut [u8]) -> io::Result<usize> {
        if let Some(Failing::Read(cut, kind)) = self.failing {
            if self.at == cut {
                self.failing = None;
                return Err(io::Error::from(kind));
            }
        }
        if let Some(Failing::Interrupted(times)) = self.failing
            && self.at == 13
            && self.tries < times
        {
            self.tries = self.tries.saturating_add(1);
            return Err(io::Error::from(io::ErrorKind::Interrupted));
        }
        match (self.text.get(self.at), buf.first_mut()) {
            (Some(byte), Some(place)) => {
                *place = *byte;
                self.at = self.at.saturating_add(1);
                Ok(1)
            }
            _ => Ok(0),
        }
    }
}

// Takes three bytes at a time.
#[derive(Drop)]
struct FailingWriter {
    taken: Vec<u8>,
    failing: Option<Failing>,
    tries: usize,
}

impl Write for FailingWriter {
    fn write(&mut self, buf: &[u8]) -> io::Result<usize> {
        if let Some(Failing::Write(cut)) = self.failing {
            if self.taken.len() >= cut {
                self.failing = None;
                return Err(io::Error::from(io::ErrorKind::Other));
            }
        }
        if let Some(Failing::Interrupted(times)) = self.failing
            && self.tries < times
        {
            self.tries = self.tries.saturating_add(1);
            return Err(io::Error::from(io::ErrorKind::Interrupted));
        }
        self.tries = 0;
        let most = buf.len().min(3);
        self.taken.extend_from_slice(&buf[..most])?;
        Ok(most)
    }

    fn flush(&mut self) -> io::Result<()> {
        if matches!(self.failing, Some(Failing::Flush)) {
            return Err(io::Error::from(io::ErrorKind::Other));
        }
        Ok(())
    }
}

const TWO_BLOCKS: &[u8] = b"block 1 1\nblock 1 1\n";

const AND_A_BAD_LINE: &[u8] = b"block 1 1\nblock 1 1\nblock 1\n";

// What a script tells whose input or output fails. It has some lines so many times.
const FAILURES: [(usize, &[u8], Failing, &str); 20] = [
    // No reply comes before all of the input is read.
    (
        1,
        TWO_BLOCKS,
        Failing::Read(0, io::ErrorKind::Other),
        "2 read failed",
    ),
    (
        1,
        TWO_BLOCKS,
        Failing::Read(13, io::ErrorKind::Other),
        "2 read failed",
    ),
    (
        1,
        TWO_BLOCKS,
        Failing::Read(20, io::ErrorKind::BrokenPipe),
        "2 read failed",
    ),
    // A read that finds no memory is told as want of memory, and one that was interrupted is tried again.
    (
        1,
        TWO_BLOCKS,
        Failing::Read(13, io::ErrorKind::OutOfMemory),
        "3 out of memory",
    ),
    (
        1,
        TWO_BLOCKS,
        Failing::Read(13, io::ErrorKind::Interrupted),
        "block 0\nblock 1\n",
    ),
    // However often it was.
    (1, TWO_BLOCKS, Failing::Interrupted(1), "block 0\nblock 1\n"),
    (
        1,
        TWO_BLOCKS,
        Failing::Interrupted(64),
        "block 0\nblock 1\n",
    ),
    (
        1,
        TWO_BLOCKS,
        Failing::Interrupted(65),
        "block 0\nblock 1\n",
    ),
    (
        1,
        TWO_BLOCKS,
        Failing::Interrupted(100),
        "block 0\nblock 1\n",
    ),
    (
        1,
        AND_A_BAD_LINE,
        Failing::Interrupted(70_000),
        "block 0\nblock 1\n1 line 3: bad line",
    ),
    (1, TWO_BLOCKS, Failing::Write(0), "2 write failed"),
    (1, TWO_BLOCKS, Failing::Write(9), "block 0\nb2 write failed"),
    (
        1,
        TWO_BLOCKS,
        Failing::Flush,
        "block 0\nblock 1\n2 write failed",
    ),
    // Where a bad line follows, the write of the replies before it comes first.
    (1, AND_A_BAD_LINE, Failing::Write(0), "2 write failed"),
    (
        1,
        AND_A_BAD_LINE,
        Failing::Write(9),
        "block 0\nb2 write failed",
    ),
    (
        1,
        AND_A_BAD_LINE,
        Failing::Flush,
        "block 0\nblock 1\n2 write failed",
    ),
    // Replies that are written before the last of them is made. What a failed write left is not tried again.
    (5000, b"table\n", Failing::Write(0), "2 write failed"),
    (
        5000,
        b"table\n",
        Failing::Write(9),
        "table 0\nt2 write failed",
    ),
    (5000, b"plain 0\n", Failing::Write(0), "2 write failed"),
    (
        5000,
        b"plain 0\n",
        Failing::Write(9),
        "error NoS2 write failed",
    ),
];

#[test]
fn a_failed_read_or_write_ends_a_script(rt: HostRuntime) -> Result<(), Fail> {
    for (number, (times, lines, failing, wanted)) in FAILURES.iter().enumerate() {
        let mut script = Vec::new(rt.alloc());
        for _ in 0..*times {
            script.extend_from_slice(lines)?;
        }
        let mut input = FailingReader {
            text: script.as_slice(),
            at: 0,
            failing: Some(*failing),
            tries: 0,
        };
        let mut output = FailingWriter {
            taken: Vec::new(rt.alloc()),
            failing: Some(*failing),
            tries: 0,
        };
        let outcome = drive(rt.alloc(), &mut input, &mut output);
        let FailingWriter { taken, .. } = output;
        let text = text_of(taken, outcome)?;
        expect_text(number, text.as_str(), wanted)?;
    }
    Ok(())
}
