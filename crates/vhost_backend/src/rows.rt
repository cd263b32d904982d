//! What crosses to C, as plain numbers.
ghost use Rattle.std.specs.Prelude.{◌≡◌};
ghost use Rattle.vhost_backend.specs.Rows.{ask_row, code_of_why, end_row, flag_of, keep_row, map_row, mark_row};
ghost use Rattle.vhost_backend.specs.Rows.{no_action};
ghost use Rattle.vhost_backend.specs.Rows.{number_of, on_ring, part_row, place_of_part, ring_of_purpose, row_of};
ghost use Rattle.vhost_backend.specs.Rows.{way_of_access, way_of_part, way_of_purpose, way_of_why};

use crate::block::BlockStep;
use crate::deeds::{Deed, Why};
use crate::page_list::PageRange;
use crate::questions::Miss;
use crate::wanted::Purpose;
use vhost_calls::code_of_refusal;
use vhost_message::MemoryRegion;
use vm_memory_base::Permissions;

/// Something to be done. Fields that its kind does not name are 0.
#[repr(C)]
#[derive(Clone, Copy, Debug, PartialEq, Eq)]
pub struct ActionRow {
    /// What is to be done: one of the numbers of `kind`.
    pub kind: u32,
    /// The number of a ring.
    pub ring: u32,
    /// The id of a request, the number of a region and its descriptor, or the code of a refusal.
    pub id: u32,
    /// The way of a part, the use of a descriptor, an access, or why the connection is over.
    pub way: u32,
    /// How many pieces a part has, or whether a descriptor is to be kept.
    pub count: u32,
    /// Whether the part goes on with the next action.
    pub more: u32,
    /// How many parts a request has after a part.
    pub left: u32,
    /// A place on the disk or in a file, the number of a page, or an I/O address.
    pub place: u64,
    /// How many bytes or pages there are.
    pub len: u64,
    /// An address of guest memory.
    pub guest: u64,
    /// An address of the front end's own memory.
    pub user: u64,
}

/// Bytes of a region.
#[repr(C)]
#[derive(Clone, Copy, Debug, PartialEq, Eq)]
pub struct PieceRow {
    /// The number of the region.
    pub region: u64,
    /// How far after its first byte they begin.
    pub offset: u64,
    /// How many there are.
    pub len: u64,
}

/// The end of a part of a request.
#[repr(C)]
#[derive(Clone, Copy, Debug, PartialEq, Eq)]
pub struct EndRow {
    /// The number of its ring.
    pub ring: u32,
    /// The id of the request.
    pub id: u32,
    /// 1 if it failed, and otherwise 0.
    pub failed: u32,
    /// How many bytes it moved.
    pub bytes: u32,
}

/// How much was taken and given by a run.
#[repr(C)]
#[derive(Clone, Copy, Debug, PartialEq, Eq)]
pub struct Counts {
    /// How many ends were taken.
    pub ends: usize,
    /// How many actions were given.
    pub actions: usize,
    /// How many pieces.
    pub pieces: usize,
    /// How many bytes of replies.
    pub bytes: usize,
    /// 1 if another run may give more at once.
    pub more: u32,
    /// 0 if a message is taken, 1 if something is left to be done before, 2 if the connection is over, and 3 if it is
    /// at rest then.
    pub state: u32,
}

/// The kinds of actions.
pub mod kind {
    pub const SEND: u32 = 1;

    pub const UNMAP_ALL: u32 = 2;

    pub const MAP: u32 = 3;

    pub const LOG: u32 = 4;

    pub const KEEP: u32 = 5;

    pub const SERVE: u32 = 6;

    pub const INTERRUPT: u32 = 7;

    pub const ERROR: u32 = 8;

    pub const MARK: u32 = 9;

    pub const END: u32 = 10;

    pub const STOPPED: u32 = 11;

    pub const ASK: u32 = 12;

    pub const FILE: u32 = 13;

    pub const REGION: u32 = 14;
}

/// The ways of parts.
pub mod way {
    pub const READ: u32 = 1;

    pub const WRITE: u32 = 2;

    pub const FLUSH: u32 = 3;

    pub const NAME: u32 = 4;
}

fn no_action(kind: u32) -> ActionRow
    ensures { result ≡ no_action kind }
{
    ActionRow {
        kind,
        ring: 0,
        id: 0,
        way: 0,
        count: 0,
        more: 0,
        left: 0,
        place: 0,
        len: 0,
        guest: 0,
        user: 0,
    }
}

// A number of 32 bits: of rings, descriptors and pieces there are fewer.
fn number_of(number: usize) -> u32
    ensures { result ≡ number_of number }
{
    number.min(0xffff_ffff) as u32
}

fn on_ring(kind: u32, ring: usize) -> ActionRow
    ensures { result ≡ on_ring kind ring }
{
    ActionRow {
        ring: number_of(ring),
        ..no_action(kind)
    }
}

fn flag_of(is: bool) -> u32
    ensures { result ≡ flag_of is }
{
    if is { 1 } else { 0 }
}

pub(crate) fn mark_row(range: PageRange) -> ActionRow
    ensures { result ≡ mark_row range }
{
    ActionRow {
        place: range.first,
        len: range.end.saturating_sub(range.first),
        ..no_action(kind::MARK)
    }
}

fn map_row(region: MemoryRegion, descriptor: usize) -> ActionRow
    ensures { result ≡ map_row region descriptor }
{
    ActionRow {
        id: number_of(descriptor),
        place: region.mmap_offset,
        len: region.size,
        guest: region.guest_address.0,
        user: region.user_address,
        ..no_action(kind::MAP)
    }
}

fn way_of_purpose(purpose: Purpose) -> u32
    ensures { result ≡ way_of_purpose purpose }
{
    match purpose {
        Purpose::Kick(_) => 1,
        Purpose::Call(_) => 2,
        Purpose::Error(_) => 3,
        Purpose::Channel => 4,
        Purpose::LogCall => 5,
    }
}

fn ring_of_purpose(purpose: Purpose) -> u32
    ensures { result ≡ ring_of_purpose purpose }
{
    match purpose {
        Purpose::Kick(ring) | Purpose::Call(ring) | Purpose::Error(ring) => ring,
        Purpose::Channel | Purpose::LogCall => 0,
    }
}

fn keep_row(purpose: Purpose, is_there: bool) -> ActionRow
    ensures { result ≡ keep_row purpose is_there }
{
    ActionRow {
        way: way_of_purpose(purpose),
        ring: ring_of_purpose(purpose),
        count: flag_of(is_there),
        ..no_action(kind::KEEP)
    }
}

fn way_of_why(why: Why) -> u32
    ensures { result ≡ way_of_why why }
{
    match why {
        Why::Refused(_) => 1,
        Why::Failed => 2,
        Why::Memory => 3,
        Why::Unread => 4,
        Why::Log => 5,
        Why::HungUp => 6,
    }
}

fn code_of_why(why: Why) -> u32
    ensures { result ≡ code_of_why why }
{
    match why {
        Why::Refused(refusal) => code_of_refusal(refusal),
        _ => 0,
    }
}

fn end_row(why: Why) -> ActionRow
    ensures { result ≡ end_row why }
{
    ActionRow {
        way: way_of_why(why),
        id: code_of_why(why),
        ..no_action(kind::END)
    }
}

fn way_of_part(step: BlockStep) -> u32
    ensures { result ≡ way_of_part step }
{
    match step {
        BlockStep::Read { .. } => way::READ,
        BlockStep::Write { .. } => way::WRITE,
        BlockStep::Flush => way::FLUSH,
        BlockStep::Name { .. } => way::NAME,
    }
}

fn place_of_part(step: BlockStep) -> u64
    ensures { result ≡ place_of_part step }
{
    match step {
        BlockStep::Read { place, .. } | BlockStep::Write { place, .. } => place,
        BlockStep::Flush | BlockStep::Name { .. } => 0,
    }
}

// A part of which `len` bytes in `count` pieces are served, from the one so far after its first. Its request has `left`
// parts after it.
pub(crate) fn part_row(
    ring: usize,
    id: u16,
    step: BlockStep,
    from: u32,
    len: u32,
    count: usize,
    more: bool,
    left: u32,
) -> ActionRow
    ensures { result ≡ part_row ring id step from len count more left }
{
    ActionRow {
        ring: number_of(ring),
        id: u32::from(id),
        way: way_of_part(step),
        count: number_of(count),
        more: flag_of(more),
        left,
        place: place_of_part(step).saturating_add(u64::from(from)),
        len: u64::from(len),
        ..no_action(kind::SERVE)
    }
}

fn send_row(bytes: usize) -> ActionRow
    ensures { result ≡ record (no_action 1) { len = bytes } }
{
    ActionRow {
        len: bytes as u64,
        ..no_action(kind::SEND)
    }
}

fn log_row(size: u64, offset: u64) -> ActionRow
    ensures { result ≡ record (no_action 4) { place = offset; len = size } }
{
    ActionRow {
        place: offset,
        len: size,
        ..no_action(kind::LOG)
    }
}

fn file_row(size: u64) -> ActionRow
    ensures { result ≡ record (no_action 13) { len = size } }
{
    ActionRow {
        len: size,
        ..no_action(kind::FILE)
    }
}

fn region_row(size: u64, offset: u64) -> ActionRow
    ensures { result ≡ record (no_action 14) { place = offset; len = size } }
{
    ActionRow {
        place: offset,
        len: size,
        ..no_action(kind::REGION)
    }
}

fn way_of_access(access: Permissions) -> u32
    ensures { result ≡ way_of_access access }
{
    match access {
        Permissions::No => 0,
        Permissions::Read => 1,
        Permissions::Write => 2,
        Permissions::ReadWrite => 3,
    }
}

fn ask_row(miss: Miss) -> ActionRow
    ensures { result ≡ ask_row miss }
{
    ActionRow {
        ring: number_of(miss.ring),
        way: way_of_access(miss.access),
        place: miss.iova,
        ..no_action(kind::ASK)
    }
}

// The action of a deed, if it is not that of a part. A reply has so many bytes.
pub(crate) fn row_of(deed: Deed, bytes: usize) -> Option<ActionRow>
    ensures { result ≡ row_of deed bytes }
{
    match deed {
        Deed::Send => Some(send_row(bytes)),
        Deed::UnmapAll => Some(no_action(kind::UNMAP_ALL)),
        Deed::Map(region, descriptor) => Some(map_row(region, descriptor)),
        Deed::Log { size, offset } => Some(log_row(size, offset)),
        Deed::File { size } => Some(file_row(size)),
        Deed::Region { size, offset } => Some(region_row(size, offset)),
        Deed::Keep(purpose, is_there) => Some(keep_row(purpose, is_there)),
        Deed::Interrupt(ring) => Some(on_ring(kind::INTERRUPT, ring)),
        Deed::Tell(ring) => Some(on_ring(kind::ERROR, ring)),
        Deed::Stopped(ring) => Some(on_ring(kind::STOPPED, ring)),
        Deed::End(why) => Some(end_row(why)),
        Deed::Ask(miss) => Some(ask_row(miss)),
        Deed::Join | Deed::Table | Deed::Part(..) => None,
    }
}
