//! Files, sockets and the standard output as sources and sinks, whose bytes are not known. A try is one call with the
//! whole buffer, and returns what that call returned. No clause can say so: the clauses of `Read` and `Write` hold of
//! two calls, or of a part of the buffer, as well.
ghost use Rattle.std.specs.Prelude.{◌≡◌, None};
ghost use Rattle.vm_memory_base.specs.System.{ReadsOnce, WritesOnce, told_as};

use super::{IoError, ReadVolatile, VolatileMemoryError, VolatileMemoryResult, WriteVolatile};
use std::fs::File;
use std::io::{self, Read, Stdout, Write};
use std::net::TcpStream;
use std::os::unix::net::UnixStream;

/// A reader of the system, or one that a crate declares to be such: a source whose bytes are not known.
pub trait SystemSource: Read {}

impl SystemSource for File {}

impl SystemSource for &File {}

impl SystemSource for &mut File {}

impl SystemSource for TcpStream {}

impl SystemSource for &TcpStream {}

impl SystemSource for &mut TcpStream {}

impl SystemSource for UnixStream {}

impl SystemSource for &UnixStream {}

impl SystemSource for &mut UnixStream {}

/// A writer of the system, or one that a crate declares to be such: a sink whose bytes are not known.
pub trait SystemSink: Write {}

impl SystemSink for File {}

impl SystemSink for &File {}

impl SystemSink for &mut File {}

impl SystemSink for TcpStream {}

impl SystemSink for &TcpStream {}

impl SystemSink for &mut TcpStream {}

impl SystemSink for UnixStream {}

impl SystemSink for &UnixStream {}

impl SystemSink for &mut UnixStream {}

impl SystemSink for Stdout {}

impl SystemSink for &Stdout {}

// What the system answered: its count, or its error by kind.
fn told(answer: io::Result<usize>) -> VolatileMemoryResult<usize>
    ensures { result ≡ told_as answer }
{
    match answer {
        Ok(count) => Ok(count),
        Err(error) => Err(VolatileMemoryError::IOError(IoError::from(error))),
    }
}

impl<R: SystemSource> ReadVolatile for R {
    ghost source = { λ s. None };

    ghost known_left = { λ s. None };

    ghost reads = { ReadsOnce R.remaining };

    fn read_volatile(&mut self, buf: &mut [u8]) -> VolatileMemoryResult<usize> {
        told(self.read(buf))
    }

    fn known_left(&self) -> Option<usize> {
        None
    }
}

impl<W: SystemSink> WriteVolatile for W {
    ghost sink = { λ s. None };

    ghost taken = { λ s. None };

    ghost may_want = { λ s. ⊥ };

    ghost writes = { WritesOnce W.contents };

    fn write_volatile(&mut self, buf: &[u8]) -> VolatileMemoryResult<usize> {
        told(self.write(buf))
    }
}
