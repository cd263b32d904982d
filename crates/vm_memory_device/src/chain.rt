//! Chains of descriptors, such as those of a virtqueue: a reader and a writer over guest memory.
//!
//! A driver describes a request by segments of guest memory: first those that the device reads, then those that it
//! writes. A [`ChainReader`] gives the bytes of the readable segments one after the other, and a [`ChainWriter`] fills
//! the writable ones, over any guest memory, with or without an IOMMU.
//!
//! If an IOMMU is on, an access that it allows by two pieces or more allocates for them. If that fails after the first
//! access of a call, the call ends with a short count, which looks the same as one that ended at an address without a
//! byte.
ghost use Rattle.std.specs.Prelude.{◌≡◌, ◌<◌, ◌^◌, ◌≤◌, length, min, drop, None, Some, MatchResult};
ghost use Rattle.vm_memory_guest.specs.Host.{shape_of, Holds};
ghost use Rattle.vm_memory_device.specs.Chain.{ReadsText, WritesText, chain_fault, readable, text, writable};

mod text;

use self::text::{Division, Text, divided};
use std::marker::Model;
use thiserror::Error;
use vm_memory_base::{Bitmap, GuestAddress};
use vm_memory_guest::{GuestMemory, GuestMemoryResult, HostMemory};

/// A segment of a chain: `len` bytes of guest memory from an address on.
#[derive(Clone, Copy, Debug, PartialEq, Eq)]
pub struct Segment {
    /// The guest address of its first byte.
    pub addr: GuestAddress,
    /// Its number of bytes.
    pub len: u32,
    /// Whether the device writes it. Otherwise the device reads it.
    pub writable: bool,
}

/// Why segments are not a chain.
#[derive(Clone, Copy, Debug, PartialEq, Eq, Error)]
pub enum ChainFault {
    /// A readable segment follows a writable one.
    #[error("chain order")]
    Order,
    /// The segments have more than 2^32 - 1 bytes in all.
    #[error("chain too long")]
    TooLong,
    /// The sum of a segment's address and length is above 2^64 - 1.
    #[error("chain range")]
    Range,
}

/// A chain of segments: readable ones, then writable ones.
///
/// ```text
/// let chain = Chain::new(segments)?;
/// let count = chain.reader().read(&memory, &host, &mut header)?;
/// chain.writer().write(&memory, &mut host, &[0])?;
/// ```
#[derive(Drop)]
pub struct Chain {
    segments: Vec<Segment>,
    division: Division,
}

impl Model for Chain {
    ghost use Rattle.std.specs.Prelude.{List};
    ghost use Rattle.vm_memory_device.specs.declared.chain.Segment.{Segment};
    ghost use Rattle.vm_memory_device.specs.ChainText.{Divides};

    ghost Value = { List Segment };

    ghost view = { λ c. c.segments.items };

    ghost invariant = { λ c.
        Divides c.segments.items c.division.readable c.division.readable_len c.division.writable_len };
}

impl Chain {
    /// The chain of these segments. There may be none. They are tested in order, each for `Range`, for `Order`, and for
    /// `TooLong` together with those before it. It allocates nothing.
    #[inline(always)]
    pub fn new(segments: Vec<Segment>) -> Result<Chain, ChainFault>
        ensures { MatchResult result (λ chain. (chain ≡ segments.items) × (chain_fault segments.items ≡ None))
            (λ fault. chain_fault segments.items ≡ Some fault) }
    {
        let division = divided(segments.as_slice())?;
        Ok(Chain { segments, division })
    }

    /// Its segments, in order.
    #[inline(always)]
    pub fn segments(&self) -> &[Segment]
        ensures { result.now ≡ self.now }
    {
        self.segments.as_slice()
    }

    /// Its segments, in order, in a list that another chain can use.
    #[inline(always)]
    pub fn into_segments(self) -> Vec<Segment>
        ensures { result.items ≡ self }
    {
        self.segments
    }

    /// How many segments that list has room for.
    #[inline(always)]
    pub fn capacity(&self) -> usize
        ensures { length self.now ≤ result }
    {
        self.segments.capacity()
    }

    /// A reader of the readable segments, from their first byte on.
    #[inline(always)]
    pub fn reader(&self) -> ChainReader<'_>
        ensures text { result ≡ text (readable self.now) }
        ensures short { length result < 2 ^ 32 }
    {
        let segments = &self.segments.as_slice()[..self.division.readable];
        let len = self.division.readable_len;
        ChainReader {
            text: Text::new(segments, len as usize),
        }
    }

    /// A writer of the writable segments, from their first byte on.
    #[inline(always)]
    pub fn writer(&self) -> ChainWriter<'_>
        ensures text { result ≡ text (writable self.now) }
        ensures short { length result < 2 ^ 32 }
    {
        let segments = &self.segments.as_slice()[self.division.readable..];
        let len = self.division.writable_len;
        ChainWriter {
            text: Text::new(segments, len as usize),
        }
    }
}

/// A position in the readable segments of a chain, from which it reads. A read requires that the host holds what the
/// memory names.
#[derive(Drop)]
pub struct ChainReader<'c> {
    text: Text<'c>,
}

impl<'c> Model for ChainReader<'c> {
    ghost use Rattle.std.specs.Prelude.{List};
    ghost use Rattle.vm_memory_device.specs.Chain.{Entry};

    ghost Value = { List Entry };

    ghost view = { λ r. r.text };
}

impl<'c> ChainReader<'c> {
    /// The number of bytes that are left.
    #[inline(always)]
    pub fn left(&self) -> usize
        ensures { result ≡ length self.now }
    {
        self.text.left()
    }

    /// Skips `count` bytes without reading them, or all that are left if these are fewer, and returns how many it
    /// skipped. It makes no access, so it also skips bytes that are not in guest memory.
    #[inline]
    pub fn skip(&mut self, count: usize) -> usize
        ensures passed { result ≡ min count (length self.old) }
        ensures place { self.new ≡ drop result self.old }
    {
        self.text.skip(count)
    }

    /// Reads into the beginning of the buffer, advances by the number of bytes read, and returns that number. It makes
    /// one access for each segment, until one fails or counts fewer bytes than it was to read. If the first access
    /// fails, its error is returned and nothing changes. If a later one fails, the result counts what came before. It
    /// is `Ok(0)` if the buffer is empty or nothing is left.
    ///
    /// Leaves open: behind an IOMMU that is on, that a call ends before any of its accesses, one for each segment. If
    /// it moved nothing then, it reports `Memory`, also for another error.
    #[inline(always)]
    pub fn read<M: GuestMemory, B: Bitmap>(
        &mut self,
        mem: &M,
        host: &HostMemory<B>,
        buf: &mut [u8],
    ) -> GuestMemoryResult<usize>
        requires { Holds (shape_of host.now) (M.names mem.now) }
        ensures { ReadsText (M.memory mem.now) host.now self.old buf.old result self.new buf.new }
    {
        self.text.read(mem, host, buf)
    }
}

/// A position in the writable segments of a chain, from which it writes. A write requires that the host holds what
/// the memory names.
#[derive(Drop)]
pub struct ChainWriter<'c> {
    text: Text<'c>,
}

impl<'c> Model for ChainWriter<'c> {
    ghost use Rattle.std.specs.Prelude.{List};
    ghost use Rattle.vm_memory_device.specs.Chain.{Entry};

    ghost Value = { List Entry };

    ghost view = { λ w. w.text };
}

impl<'c> ChainWriter<'c> {
    /// The number of bytes that are left.
    #[inline(always)]
    pub fn left(&self) -> usize
        ensures { result ≡ length self.now }
    {
        self.text.left()
    }

    /// Skips `count` bytes without writing them, or all that are left if these are fewer, and returns how many it
    /// skipped. It makes no access, so it also skips bytes that are not in guest memory.
    #[inline]
    pub fn skip(&mut self, count: usize) -> usize
        ensures passed { result ≡ min count (length self.old) }
        ensures place { self.new ≡ drop result self.old }
    {
        self.text.skip(count)
    }

    /// Writes the beginning of the buffer, marks the pages, advances by the number of bytes written, and returns that
    /// number. It makes one access for each segment, until one fails or counts fewer bytes than it was to write. If the
    /// first access fails, its error is returned and nothing changes. If a later one fails, the result counts what came
    /// before. It is `Ok(0)` if the buffer is empty or nothing is left.
    ///
    /// Leaves open: the same as `read` of a `ChainReader`.
    #[inline(always)]
    pub fn write<M: GuestMemory, B: Bitmap>(
        &mut self,
        mem: &M,
        host: &mut HostMemory<B>,
        buf: &[u8],
    ) -> GuestMemoryResult<usize>
        requires { Holds (shape_of host.old) (M.names mem.now) }
        ensures wrote { WritesText B.marks (M.memory mem.now) self.old buf.now host.old result self.new host.new }
        ensures shape { shape_of host.new ≡ shape_of host.old }
    {
        self.text.write(mem, host, buf)
    }
}
