//! Sockets as sources and sinks.

use crate::told::{expect_passed, fills, reads, tell, writes};
use std::fmt::Write;
use std::io::ErrorKind;
use std::net::{Shutdown, TcpListener, TcpStream};
use std::os::unix::net::UnixStream;
use std::test::Fail;
use test_text::expect_text;
use vm_memory_base::{ReadVolatile, VolatileMemoryError, WriteVolatile};

// What is known of two connected sockets, the second of which is read.
#[derive(Clone, Copy)]
enum State {
    // Nothing was sent that was not read.
    Open,
    // So too, and the second does not wait.
    Idle,
    // It waits again.
    Waiting,
    // The first sends no more.
    Ended,
    // Nothing was sent, and the first does not wait.
    Empty,
    // The first took what it could, and sends no more.
    Full,
}

const FEW: &[State] = &[State::Open, State::Idle, State::Waiting, State::Ended];

const MANY: &[State] = &[State::Empty, State::Full];

// What is told of few bytes. Of many only their number is looked at.
const TOLD: &str = "\
Ok(2) Ok(2) [1, 2, 0, 0, 0]
WouldBlock [0, 0, 0, 0, 0]
touched 4 WouldBlock [0, 0, 0, 0, 0]
Ok(0) [0, 0, 0, 0, 0]
touched 0 UnexpectedEof [0, 0, 0, 0, 0]
BrokenPipe BrokenPipe
";

// The states that two sockets go through, and what is told then: by the sockets themselves, by references to them, and
// by references that are alone.
const CASES: [(u8, &[State], &str); 6] = [
    (0, FEW, TOLD),
    (1, FEW, TOLD),
    (2, FEW, TOLD),
    (3, MANY, ""),
    (4, MANY, ""),
    (5, MANY, ""),
];

// What was told, and how many bytes were taken of those that are offered to a socket that does not wait.
#[derive(Drop)]
struct Seen {
    out: String,
    taken: usize,
    bytes: Vec<u8>,
}

// Offers bytes until the sink would wait, and answers how many it told that it took.
fn offers<W: WriteVolatile>(sink: &mut W, bytes: &[u8]) -> Result<usize, Fail> {
    let mut told = 0usize;
    for _ in 0..256 {
        match sink.write_volatile(bytes) {
            Ok(count) => told = told.saturating_add(count),
            Err(VolatileMemoryError::IOError(error)) => {
                let full = error.kind() == ErrorKind::WouldBlock;
                return if full && 0 < told {
                    Ok(told)
                } else {
                    Err(Fail::from(error.into_inner()))
                };
            }
            Err(error) => return Err(Fail::from(error)),
        }
    }
    Err(Fail::new("the sink was never full"))
}

// What handles of two sockets in a state tell. Where other bytes come than were taken, up to the end, it fails.
fn go<W: WriteVolatile, S: ReadVolatile>(
    state: State,
    case: u8,
    sink: &mut W,
    source: &mut S,
    seen: &mut Seen,
) -> Result<(), Fail> {
    match state {
        State::Open => {
            expect_passed(case, sink, source)?;
            tell(&sink.write_volatile(&[1, 2]), &mut seen.out)?;
            write!(seen.out, " ")?;
            reads(source, &mut seen.out)
        }
        State::Idle => {
            reads(source, &mut seen.out)?;
            fills(source, &mut seen.out)
        }
        State::Waiting => Ok(()),
        State::Ended => {
            reads(source, &mut seen.out)?;
            fills(source, &mut seen.out)?;
            writes(sink, &mut seen.out)
        }
        State::Empty => {
            seen.taken = offers(sink, seen.bytes.as_slice())?;
            Ok(())
        }
        State::Full => {
            let mut came = 0usize;
            for _ in 0..1_000_000 {
                match source.read_volatile(seen.bytes.as_mut_slice())? {
                    0 if seen.taken == came => return Ok(()),
                    0 => return Err(Fail::new(format_args!("case {case}: {came} bytes came"))),
                    count => came = came.saturating_add(count),
                }
            }
            Err(Fail::new("the source never ended"))
        }
    }
}

#[test]
fn tcp_streams_tell_how_much_they_moved(rt: HostRuntime) -> Result<(), Fail> {
    let mut seen = Seen {
        out: String::new(rt.alloc()),
        taken: 0,
        bytes: vec![in rt.alloc(); 5u8; 1_000_003]?,
    };
    for (case, states, wanted) in CASES {
        let listener = TcpListener::bind(&rt, "127.0.0.1:0")?;
        let mut one = TcpStream::connect(&rt, listener.local_addr()?)?;
        let (mut other, _) = listener.accept()?;
        for state in states {
            match state {
                State::Open => expect_passed(9, &mut &other, &mut &one)?,
                State::Idle => other.set_nonblocking(true)?,
                State::Waiting => other.set_nonblocking(false)?,
                State::Empty => one.set_nonblocking(true)?,
                State::Ended | State::Full => one.shutdown(Shutdown::Write)?,
            }
            match case % 3 {
                0 => go(*state, case, &mut one, &mut other, &mut seen),
                1 => go(*state, case, &mut &one, &mut &other, &mut seen),
                _ => go(*state, case, &mut &mut one, &mut &mut other, &mut seen),
            }?;
        }
        expect_text(case as usize, seen.out.as_str(), wanted)?;
        seen.out.clear();
    }
    Ok(())
}

#[test]
fn unix_streams_tell_how_much_they_moved(rt: HostRuntime) -> Result<(), Fail> {
    let mut seen = Seen {
        out: String::new(rt.alloc()),
        taken: 0,
        bytes: vec![in rt.alloc(); 5u8; 1_000_003]?,
    };
    for (case, states, wanted) in CASES {
        let (mut one, mut other) = UnixStream::pair(&rt)?;
        for state in states {
            match state {
                State::Open => expect_passed(9, &mut &other, &mut &one)?,
                State::Idle => other.set_nonblocking(true)?,
                State::Waiting => other.set_nonblocking(false)?,
                State::Empty => one.set_nonblocking(true)?,
                State::Ended | State::Full => one.shutdown(Shutdown::Write)?,
            }
            match case % 3 {
                0 => go(*state, case, &mut one, &mut other, &mut seen),
                1 => go(*state, case, &mut &one, &mut &other, &mut seen),
                _ => go(*state, case, &mut &mut one, &mut &mut other, &mut seen),
            }?;
        }
        expect_text(case as usize, seen.out.as_str(), wanted)?;
        seen.out.clear();
    }
    Ok(())
}
