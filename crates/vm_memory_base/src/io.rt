//! Sources and sinks of bytes, and what accesses of windows return.
ghost use Rattle.std.specs.Prelude.{◌≡◌, ℕ, ◌≤◌, List, length, Option, IfOk, IfErr, OnOk, if◌then◌else◌, ⊤};
ghost use Rattle.std.specs.IoError.{error_kind};
ghost use Rattle.vm_memory_base.specs.Transfer.{Answer, Next, ReadsAs, FillsBy, is_short};
ghost use Rattle.vm_memory_base.specs.Transfer.{Sink, TakesAs, TakesOnce, SendsBy, Keeps, count_of};

mod in_memory;
mod scripted;
mod system;
mod turns;

pub use self::scripted::{ScriptSink, ScriptSource, SinkStep, SourceStep};
pub use self::system::{SystemSink, SystemSource};
use self::turns::read_again;
pub use self::turns::{RETRIES, is_interrupted, offer_again};
use std::fmt;
use std::io::{self, ErrorKind};
use std::marker::Model;
use thiserror::Error;

/// An error of `std::io`. Contracts see its kind.
#[derive(Drop)]
pub struct IoError {
    error: io::Error,
}

impl Model for IoError {
    ghost use Rattle.std.specs.IoError.{error_kind};
    ghost use Rattle.std.specs.declared.io.ErrorKind.{ErrorKind};

    ghost Value = { ErrorKind };

    ghost view = { λ e. error_kind e.error };
}

impl IoError {
    /// The error of a kind, and nothing else.
    pub fn of_kind(kind: ErrorKind) -> IoError
        ensures { result ≡ kind }
    {
        IoError {
            error: io::Error::from(kind),
        }
    }

    /// The kind of failure.
    pub fn kind(&self) -> ErrorKind
        ensures { result ≡ self.now }
    {
        self.error.kind()
    }

    /// The error as `std::io` has it.
    pub fn into_inner(self) -> io::Error
        ensures { error_kind result ≡ self }
    {
        self.error
    }
}

impl From<io::Error> for IoError {
    ghost from_gives = { λ e r. r ≡ error_kind e };

    fn from(error: io::Error) -> IoError {
        IoError { error }
    }
}

impl fmt::Display for IoError {
    fn fmt<W: fmt::Write>(&self, f: &mut fmt::Formatter<W>) -> fmt::Result {
        fmt::Display::fmt(&self.error, f)
    }
}

impl fmt::Debug for IoError {
    fn fmt<W: fmt::Write>(&self, f: &mut fmt::Formatter<W>) -> fmt::Result {
        fmt::Debug::fmt(&self.error, f)
    }
}

/// Why an access of a window was refused.
#[derive(Debug, Drop, Error)]
pub enum VolatileMemoryError {
    /// What was asked for ends past the window, or starts past it if the start is tested.
    #[error("address 0x{addr:x} is out of bounds")]
    OutOfBounds { addr: usize },
    /// The sum of the two is not a 64-bit number.
    #[error("address 0x{base:x} offset by 0x{offset:x} would overflow")]
    Overflow { base: usize, offset: usize },
    /// The product of the two, a number of bytes, is not a 64-bit number.
    #[error("{nelements} elements of size {size} would overflow a usize")]
    TooBig { nelements: usize, size: usize },
    /// The address is not a multiple of the alignment, in bytes.
    #[error("address 0x{addr:x} is not aligned to {alignment}")]
    Misaligned { addr: usize, alignment: usize },
    /// A source or a sink failed.
    #[error("{0}")]
    IOError(IoError),
    /// Fewer bytes were moved than the buffer has.
    #[error("only used {completed} bytes in {expected} long buffer")]
    PartialBuffer { expected: usize, completed: usize },
    /// An allocation failed.
    #[error("out of memory")]
    Memory,
}

/// The result of an access of a window.
pub type VolatileMemoryResult<T> = Result<T, VolatileMemoryError>;

/// Why a source did not fill what it was lent, and how much of it may have changed.
#[derive(Debug, Drop)]
pub struct ReadExactFault {
    /// How many leading bytes may have changed: those that were filled if the source ended, all after an error
    /// or an interrupted try, and none if the source refused at once.
    pub touched: usize,
    /// Why not all was filled.
    pub error: VolatileMemoryError,
}

/// A source of bytes, which fills memory that it is lent, or a part of it.
///
/// ```rust
/// use vm_memory_base::ReadVolatile;
///
/// let mut source: &[u8] = &[1, 2, 3];
/// let mut lent = [0u8; 2];
/// assert_eq!(rt; source.read_volatile(&mut lent).ok(), Some(2));
/// assert_eq!(rt; source, &[3]);
/// ```
pub trait ReadVolatile {
    // What it does next, where that is known.
    ghost source: { Self → Option (List Next) };

    // How many bytes it has left, where it looks before it fills a buffer.
    ghost known_left: { Self → Option ℕ };

    // What else is known of one read: of the source and the buffer before it, its answer, and both after it.
    ghost reads: { Self → List ℕ → Answer → List ℕ → Self → Type 0 } = { λ s old answer new t. ⊤ };

    /// Fills the beginning of the buffer, and returns how many bytes that is. For a buffer of some bytes, 0 is the
    /// end of the source. An error is the source's own, and may leave the buffer changed.
    ///
    /// Leaves open: which bytes a file or a socket gives, at most what was lent, and any I/O error at any time.
    fn read_volatile(&mut self, buf: &mut [u8]) -> VolatileMemoryResult<usize>
        ensures count { IfOk result (λ count. count ≤ length buf.old) }
        ensures tells { ReadsAs (source self.old) buf.old result buf.new (source self.new) }
        ensures reads { reads self.old buf.old result buf.new self.new };

    /// How many bytes it has left, if it checks before it fills a buffer. Then it refuses a longer buffer at
    /// once. Most sources do not check, and return `None`.
    fn known_left(&self) -> Option<usize>
        ensures { result ≡ known_left self.now };

    /// Fills the whole buffer by repeated reads. An interrupted read is made again, at most 64 times in a row. The
    /// 65th interruption is returned, and any other error at once. `UnexpectedEof` if the source ends early.
    final fn read_exact_volatile(&mut self, buf: &mut [u8]) -> Result<(), ReadExactFault>
        ensures touched { IfErr result (λ fault. fault.touched ≤ length buf.old) }
        ensures reads { FillsBy source reads known_left self.old buf.old result buf.new self.new }
    {
        let all = buf.len();
        if is_short(self.known_left(), all) {
            return Err(ended(0));
        }
        let mut interrupted = false;
        let mut done = 0;
        while done < all {
            match read_again(self, &mut buf[done..], &mut interrupted) {
                Ok(0) => return Err(ended(touched(interrupted, all, done))),
                Ok(count) => done += count,
                Err(error) => {
                    return Err(ReadExactFault {
                        touched: all,
                        error,
                    });
                }
            }
        }
        Ok(())
    }
}

// Whether a source that knows how many bytes it has left has too few.
fn is_short(known: Option<usize>, wanted: usize) -> bool
    ensures { result ≡ is_short known wanted }
{
    known.is_some_and(|left| left < wanted)
}

// How much of a buffer may have changed, of which `done` bytes are filled.
fn touched(interrupted: bool, all: usize, done: usize) -> usize
    ensures { result ≡ (if interrupted then all else done) }
{
    if interrupted { all } else { done }
}

// A source ended, before it filled what it was lent.
fn ended(touched: usize) -> ReadExactFault
    ensures { result ≡ record { touched = touched; error = VolatileMemoryError.IOError ErrorKind.UnexpectedEof } }
{
    ReadExactFault {
        touched,
        error: refused(ErrorKind::UnexpectedEof),
    }
}

/// A sink of bytes, which takes bytes out of memory that it is lent, or a part of them.
///
/// ```rust
/// use vm_memory_base::WriteVolatile;
///
/// let mut sink = Vec::new(rt.alloc());
/// assert!(rt; sink.write_all_volatile(&[1, 2, 3]).is_ok());
/// assert_eq!(rt; sink.as_slice(), &[1, 2, 3]);
/// ```
pub trait WriteVolatile {
    // What it does next, where that is known.
    ghost sink: { Self → Option Sink };

    // The bytes that it took, where it keeps them.
    ghost taken: { Self → Option (List ℕ) };

    // When its allocation may fail.
    ghost may_want: { Self → Type 0 };

    // What else is known of one write: of the sink before it, the bytes, its answer, and the sink after it.
    ghost writes: { Self → List ℕ → Answer → Self → Type 0 } = { λ s bytes answer t. ⊤ };

    /// Takes the first bytes of the buffer, and returns how many. An error is the sink's own. `Memory` says that
    /// its allocation failed, and that it took nothing.
    ///
    /// Leaves open: how many bytes a file, a socket or the standard output takes, at most what was offered, and any I/O
    /// error at any time; for a vector a failed allocation each time that bytes are offered, and then it took none.
    fn write_volatile(&mut self, buf: &[u8]) -> VolatileMemoryResult<usize>
        ensures count { IfOk result (λ count. count ≤ length buf.now) }
        ensures tells { TakesAs (may_want self.old) (sink self.old) (length buf.now) result (sink self.new) }
        ensures keeps { Keeps (taken self.old) buf.now (count_of result) (taken self.new) }
        ensures wants { may_want self.new → may_want self.old }
        ensures writes { writes self.old buf.now result self.new };

    /// Takes the whole buffer by repeated writes. An interrupted write is made again, at most 64 times in a row. The
    /// 65th interruption is returned, and any other error at once. `WriteZero` if the sink takes none of
    /// the remaining bytes.
    final fn write_all_volatile(&mut self, buf: &[u8]) -> VolatileMemoryResult<()>
        ensures sends { (count : ℕ) × (count ≤ length buf.now) × OnOk result (count ≡ length buf.now)
            × SendsBy (TakesOnce sink taken may_want writes) self.old buf.now count result self.new }
    {
        let mut done = 0;
        while done < buf.len() {
            match offer_again(self, &buf[done..]) {
                Ok(0) => return Err(refused(ErrorKind::WriteZero)),
                Ok(count) => done += count,
                Err(error) => return Err(error),
            }
        }
        Ok(())
    }
}

// A failure of this kind.
fn refused(kind: ErrorKind) -> VolatileMemoryError
    ensures { result ≡ VolatileMemoryError.IOError kind }
{
    VolatileMemoryError::IOError(IoError::of_kind(kind))
}
