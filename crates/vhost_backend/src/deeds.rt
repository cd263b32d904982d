//! What a block device's back end has the program do, step by step, and why it ends.
ghost use Rattle.std.specs.Prelude.{◌≡◌};
ghost use Rattle.vhost_backend.specs.BlockBackend.{called_by, is_asked, is_quiet, limit_if, notified, part_deed};

use crate::backend::Outcome;
use crate::block::BlockStep;
use crate::questions::Miss;
use crate::wanted::{Purpose, Wanted};
use vhost_message::{MemoryRegion, Refusal};
use virtio_queue::QueueError;

/// What requests are held against, and how much may be kept.
#[derive(Clone, Copy, Debug, PartialEq, Eq)]
pub struct Limits {
    /// How many sectors of 512 bytes the disk has.
    pub sectors: u64,
    /// Whether nothing is written to it.
    pub read_only: bool,
    /// How many segments a request has beside header and status at most, if the driver accepted that.
    pub seg_max: usize,
    /// How many bytes a segment has at most, if the driver accepted that.
    pub size_max: usize,
    /// How many bytes of replies may wait to be sent.
    pub unread: usize,
    /// How many ranges the device's I/O table keeps at most.
    pub table_limit: usize,
}

/// Why a connection is over.
#[derive(Clone, Copy, Debug)]
pub enum Why {
    /// A message broke the protocol.
    Refused(Refusal),
    /// What a message asked for could not be done.
    Failed,
    /// An allocation failed.
    Memory,
    /// The front end does not read its replies.
    Unread,
    /// Guest memory has a page that has no bit in the log.
    Log,
    /// The program ended it.
    HungUp,
}

/// What is to be done by the program.
#[derive(Clone, Copy, Debug)]
pub enum Deed {
    /// The bytes of the reply are sent.
    Send,
    /// What was mapped of guest memory goes.
    UnmapAll,
    /// A region is mapped from the descriptor of this number. It is told whether that was done.
    Map(MemoryRegion, usize),
    /// All regions are mapped, and become guest memory. It is told whether that was done.
    Join,
    /// The log is mapped: so many bytes of its file, from an offset on. It is told whether that was done.
    Log { size: u64, offset: u64 },
    /// A file of so many zeros is made. It is told whether that was done, and then the file goes with the reply.
    File { size: u64 },
    /// The region of requests in flight is mapped: so many bytes of its file, from an offset on. It is told whether
    /// that was done.
    Region { size: u64, offset: u64 },
    /// A descriptor is kept for a purpose, or none is. It is told whether that was done.
    Keep(Purpose, bool),
    /// A part of the request of a ring with this id is served, after which it has so many.
    Part(usize, u16, BlockStep, u32),
    /// The driver of a ring is interrupted.
    Interrupt(usize),
    /// The front end is told that a ring broke.
    Tell(usize),
    /// A ring is stopped.
    Stopped(usize),
    /// The table is changed as the message has it.
    Table,
    /// The front end is asked for a mapping.
    Ask(Miss),
    /// The connection is over.
    End(Why),
}

/// What came of a step.
#[derive(Clone, Copy, Debug)]
pub enum Made {
    /// This is to be done before the next step.
    Deed(Deed),
    /// Nothing is to be done by the program, and there may be another step.
    Again,
    /// There is no step before the next event.
    Idle,
}

/// How far it has come with what a message asks for.
#[derive(Clone, Copy, Debug)]
pub enum Ask {
    /// There is nothing.
    Nothing,
    /// A message took effect.
    First,
    /// The mapping of this number is next.
    Mapped(usize),
    /// It is to be told whether the mapping of this number was done.
    Region(usize),
    /// It is to be told whether what was asked for was done.
    Answer,
}

pub(crate) fn limit_if(is: bool, limit: usize) -> Option<usize>
    ensures { result ≡ limit_if is limit }
{
    if is { Some(limit) } else { None }
}

pub(crate) fn is_quiet(outcome: &Outcome) -> bool
    ensures { result ≡ is_quiet outcome.now }
{
    match outcome {
        Outcome::Stays => true,
        _ => false,
    }
}

pub(crate) fn is_asked(ask: Ask) -> bool
    ensures { result ≡ is_asked ask }
{
    match ask {
        Ask::First | Ask::Mapped(_) => false,
        _ => true,
    }
}

pub(crate) fn part_deed(ring: usize, id: u16, left: u32, part: Option<BlockStep>) -> Made
    ensures { result ≡ part_deed ring id left part }
{
    match part {
        Some(part) => Made::Deed(Deed::Part(ring, id, part, left.saturating_sub(1))),
        None => Made::Again,
    }
}

// A driver is interrupted unless it asks not to be: also if that cannot be read.
pub(crate) fn notified(ring: usize, asked: Result<bool, QueueError>) -> Made
    ensures { result ≡ notified ring asked }
{
    match asked {
        Ok(false) => Made::Again,
        _ => Made::Deed(Deed::Interrupt(ring)),
    }
}

pub(crate) fn called_by(before: Option<usize>, wanted: Wanted) -> Option<usize>
    ensures { result ≡ called_by before wanted }
{
    match wanted {
        Wanted::Descriptor(Purpose::Call(ring), _) => Some(ring as usize),
        _ => before,
    }
}
