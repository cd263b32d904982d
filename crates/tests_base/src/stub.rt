//! A reader and writer that returns what it is set to, and notes what it was asked.

use std::io::{self, ErrorKind, Read, Write};
use vm_memory_base::{SystemSink, SystemSource};

/// Moves at most `most` bytes at a call. Once it moved `left` of them it returns the error, and then goes on. What it
/// gives are bytes of 7. It notes how often it was called, and the length of the last buffer.
#[derive(Clone, Copy, Drop)]
pub struct Stub {
    pub most: usize,
    pub left: usize,
    pub error: Option<ErrorKind>,
    pub calls: usize,
    pub asked: usize,
}

/// Moves all that it is asked to.
pub const STUB: Stub = Stub {
    most: usize::MAX,
    left: 0,
    error: None,
    calls: 0,
    asked: 0,
};

impl Stub {
    // How many of so many bytes it moves.
    fn turn(&mut self, len: usize) -> io::Result<usize> {
        self.calls = self.calls.saturating_add(1);
        self.asked = len;
        let Some(kind) = self.error else {
            return Ok(len.min(self.most));
        };
        if self.left == 0 {
            self.error = None;
            return Err(io::Error::from(kind));
        }
        let count = len.min(self.most).min(self.left);
        self.left = self.left.saturating_sub(count);
        Ok(count)
    }
}

impl Read for Stub {
    fn read(&mut self, buf: &mut [u8]) -> io::Result<usize> {
        let count = self.turn(buf.len())?.min(buf.len());
        buf[..count].fill(7);
        Ok(count)
    }
}

impl Write for Stub {
    fn write(&mut self, buf: &[u8]) -> io::Result<usize> {
        let count = self.turn(buf.len())?;
        Ok(count.min(buf.len()))
    }

    fn flush(&mut self) -> io::Result<()> {
        Ok(())
    }
}

impl SystemSource for Stub {}

impl SystemSink for Stub {}

/// Each kind of error that a reader or writer may answer.
pub const KINDS: [ErrorKind; 42] = [
    ErrorKind::NotFound,
    ErrorKind::PermissionDenied,
    ErrorKind::ConnectionRefused,
    ErrorKind::ConnectionReset,
    ErrorKind::HostUnreachable,
    ErrorKind::NetworkUnreachable,
    ErrorKind::ConnectionAborted,
    ErrorKind::NotConnected,
    ErrorKind::AddrInUse,
    ErrorKind::AddrNotAvailable,
    ErrorKind::NetworkDown,
    ErrorKind::BrokenPipe,
    ErrorKind::AlreadyExists,
    ErrorKind::WouldBlock,
    ErrorKind::NotADirectory,
    ErrorKind::IsADirectory,
    ErrorKind::DirectoryNotEmpty,
    ErrorKind::ReadOnlyFilesystem,
    ErrorKind::FilesystemLoop,
    ErrorKind::StaleNetworkFileHandle,
    ErrorKind::InvalidInput,
    ErrorKind::InvalidData,
    ErrorKind::TimedOut,
    ErrorKind::WriteZero,
    ErrorKind::StorageFull,
    ErrorKind::NotSeekable,
    ErrorKind::QuotaExceeded,
    ErrorKind::FileTooLarge,
    ErrorKind::ResourceBusy,
    ErrorKind::ExecutableFileBusy,
    ErrorKind::Deadlock,
    ErrorKind::CrossesDevices,
    ErrorKind::TooManyLinks,
    ErrorKind::InvalidFilename,
    ErrorKind::ArgumentListTooLong,
    ErrorKind::Interrupted,
    ErrorKind::Unsupported,
    ErrorKind::UnexpectedEof,
    ErrorKind::OutOfMemory,
    ErrorKind::InProgress,
    ErrorKind::Other,
    ErrorKind::Uncategorized,
];
