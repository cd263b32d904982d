//! A connection on which all that is awaited has a time, in which it comes as a whole.
ghost use Rattle.std.specs.Prelude.{◌<◌, IfOk};
ghost use Rattle.std.specs.Duration.{as_nanos};

use std::io::{self, ErrorKind, Read, Write};
use std::net::TcpStream;
use std::time::{Clock, Duration, Instant};

/// How many seconds a header, a frame or a reply may take.
pub const PATIENCE: u64 = 10;

/// How many seconds a receiver may take to make the memory.
pub const READY_PATIENCE: u64 = 60;

/// How many seconds an end may take for its digests.
pub const VERIFY_PATIENCE: u64 = 600;

/// A stream with a deadline. Each read and each write waits no longer than up to the deadline, however few bytes it
/// moves: so many small ones do not put it off.
#[derive(Drop)]
pub struct Connection<'a, R> {
    rt: &'a R,
    stream: &'a TcpStream,
    // None until something is moved: then it is so many seconds after that.
    until: Option<Instant>,
    patience: u64,
    sent: u64,
    received: u64,
}

// So many seconds from now.
fn after<R: Clock>(rt: &R, seconds: u64) -> io::Result<Instant> {
    match Instant::now(rt)?.checked_add(Duration::from_secs(seconds)) {
        Some(until) => Ok(until),
        None => Err(io::Error::from(ErrorKind::InvalidInput)),
    }
}

// The time that is left up to a deadline, of which less than a millisecond counts as none.
fn left_until<R: Clock>(rt: &R, until: Instant) -> io::Result<Duration>
    ensures { IfOk result (λ left. 0 < as_nanos left) }
{
    let left = until.duration_since(Instant::now(rt)?);
    if left.as_nanos() < 1_000_000 {
        return Err(io::Error::from(ErrorKind::TimedOut));
    }
    Ok(left)
}

impl<'a, R: Clock> Connection<'a, R> {
    /// What comes first has this many seconds from now.
    pub fn new(rt: &'a R, stream: &'a TcpStream, seconds: u64) -> io::Result<Connection<'a, R>> {
        Ok(Connection {
            rt,
            stream,
            until: Some(after(rt, seconds)?),
            patience: seconds,
            sent: 0,
            received: 0,
        })
    }

    /// What comes next has this many seconds from now, as a whole.
    pub fn allow(&mut self, seconds: u64) -> io::Result<()> {
        self.until = Some(after(self.rt, seconds)?);
        Ok(())
    }

    /// What comes next has this many seconds, as a whole, from when this end first waits for it. What is here already
    /// costs no look at the clock.
    pub fn allow_once_awaited(&mut self, seconds: u64) {
        self.until = None;
        self.patience = seconds;
    }

    /// How many bytes were written.
    pub fn sent(&self) -> u64 {
        self.sent
    }

    /// How many bytes were read.
    pub fn received(&self) -> u64 {
        self.received
    }

    /// Whether the time is over.
    pub fn is_late(&self) -> bool {
        match self.until {
            Some(until) => left_until(self.rt, until).is_err(),
            None => false,
        }
    }

    // The time that is left.
    fn left(&mut self) -> io::Result<Duration>
        ensures { IfOk result (λ left. 0 < as_nanos left) }
    {
        let until = match self.until {
            Some(until) => until,
            None => after(self.rt, self.patience)?,
        };
        self.until = Some(until);
        left_until(self.rt, until)
    }
}

impl<'a, R: Clock> Read for Connection<'a, R> {
    fn read(&mut self, buf: &mut [u8]) -> io::Result<usize> {
        let left = self.left()?;
        self.stream.set_read_timeout(Some(left))?;
        let mut stream = self.stream;
        let count = stream.read(buf)?;
        self.received = self.received.saturating_add(count as u64);
        Ok(count)
    }
}

impl<'a, R: Clock> Write for Connection<'a, R> {
    fn write(&mut self, buf: &[u8]) -> io::Result<usize> {
        let left = self.left()?;
        self.stream.set_write_timeout(Some(left))?;
        let mut stream = self.stream;
        let count = stream.write(buf)?;
        self.sent = self.sent.saturating_add(count as u64);
        Ok(count)
    }

    fn flush(&mut self) -> io::Result<()> {
        Ok(())
    }
}
