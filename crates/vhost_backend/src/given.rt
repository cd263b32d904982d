//! What a run gives of a part of a request, as far as there is room: its pieces, and rows and bytes.
ghost use Rattle.std.specs.Prelude.{◌≡◌, ◌+◌, ◌<◌, ◌≤◌, ◌^◌, [], ◌∷◌, length, IfSome};
ghost use Rattle.vhost_user.specs.Log.{log_kept};
ghost use Rattle.vhost_backend.specs.BlockConnection.{bytes_in, is_covered, pages_in};
ghost use Rattle.vhost_backend.specs.Given.{Lies, Puts, PutsPart, PutsPiece, len_of_part, place_from};
ghost use Rattle.vhost_backend.specs.Given.{is_left, no_counts, part_action, rest_of};

use crate::block::BlockStep;
use crate::connection_memory::{ConnectionMemory, RegionPiece};
use crate::pieces::piece_from;
use crate::rows::{ActionRow, Counts, PieceRow, part_row};
use vhost_user::{BackendReqHandler, VHOST_F_LOG_ALL};
use vm_memory_device::Chain;

/// How many bytes the header of a request has.
const REQUEST_HEADER: u64 = 16;

/// A part of a request that is being given, in pieces.
#[derive(Clone, Copy, Debug)]
pub(crate) struct OpenPart {
    pub(crate) ring: usize,
    pub(crate) id: u16,
    pub(crate) step: BlockStep,
    // How many parts its request has after it.
    pub(crate) left: u32,
    // How many of its bytes were given.
    pub(crate) given: u32,
}

// What came of a step of a run.
#[derive(Clone, Copy, Debug)]
pub(crate) enum Given {
    // Something, or nothing yet.
    Something,
    // Nothing: the next event may come.
    Nothing,
    // There is no room for it.
    Full,
}

pub(crate) fn no_counts() -> Counts
    ensures { result ≡ no_counts }
{
    Counts {
        ends: 0,
        actions: 0,
        pieces: 0,
        bytes: 0,
        more: 0,
        state: 0,
    }
}

// The side of a chain that a part has its bytes on, the first of them there, and how many there are.
pub(crate) fn bytes_of(step: BlockStep) -> (bool, u64, u32)
    ensures bytes { result ≡ bytes_in step }
    ensures small { result.1 < 2 ^ 33 }
{
    match step {
        BlockStep::Read { offset, len, .. } => (true, u64::from(offset), len),
        BlockStep::Write { offset, len, .. } => (false, REQUEST_HEADER + u64::from(offset), len),
        BlockStep::Name { len } => (true, 0, len),
        BlockStep::Flush => (true, 0, 0),
    }
}

// How many bytes the log has, if writes are logged.
pub(crate) fn log_kept(connection: &BackendReqHandler) -> Option<u64>
    ensures { result ≡ log_kept connection.now }
{
    if connection.features() & VHOST_F_LOG_ALL != 0 {
        connection.log()
    } else {
        None
    }
}

// How many pages have a bit in a log of so many bytes.
pub(crate) fn pages_in(log: Option<u64>) -> u64
    ensures { result ≡ pages_in log }
{
    match log {
        Some(bytes) => bytes.saturating_mul(8),
        None => 0,
    }
}

// Whether each page of the memory has a bit in the log, if writes are logged.
pub(crate) fn is_covered(connection: &BackendReqHandler) -> bool
    ensures { result ≡ is_covered connection.now }
{
    let regions = connection.memory().regions();
    regions.iter().all(|region| {
        connection
            .logged(region.guest_address.0, region.size)
            .is_some()
    })
}

// The first bytes of a part, from some of them on, that lie in one region.
pub(crate) fn place_in(
    memory: &ConnectionMemory,
    chain: &Chain,
    step: BlockStep,
    given: u32,
) -> Option<RegionPiece>
    requires { given < len_of_part step }
    ensures place { result ≡ place_from memory.now chain.now step given }
    ensures some { IfSome result (λ p. (0 < p.len) × (given + p.len ≤ len_of_part step)) }
{
    let (writable, from, len) = bytes_of(step);
    let piece = piece_from(
        chain,
        writable,
        from + u64::from(given),
        u64::from(len - given),
    )?;
    memory.place_of(piece)
}

// Whether bytes of a part are left after so many were given.
pub(crate) fn is_left(part: OpenPart, given: u32) -> bool
    ensures { result ≡ is_left part given }
{
    let (_, _, len) = bytes_of(part.step);
    given < len
}

// What is left of it then.
pub(crate) fn rest_of(part: OpenPart, given: u32) -> Option<OpenPart>
    ensures { result ≡ rest_of part given }
{
    if is_left(part, given) {
        Some(OpenPart { given, ..part })
    } else {
        None
    }
}

// The action for the bytes of a part from where it is, up to so many of them, which lie in so many pieces.
pub(crate) fn part_action(part: OpenPart, given: u32, count: usize) -> ActionRow
    ensures { result ≡ part_action part count given }
{
    part_row(
        part.ring,
        part.id,
        part.step,
        part.given,
        given.saturating_sub(part.given),
        count,
        is_left(part, given),
        part.left,
    )
}

// Whether all bytes of a part lie in memory.
pub(crate) fn lies_in_memory(memory: &ConnectionMemory, chain: &Chain, step: BlockStep) -> bool
    ensures { Lies memory.now chain.now step result }
{
    let (_, _, len) = bytes_of(step);
    let mut given = 0;
    while given < len {
        match place_in(memory, chain, step, given) {
            Some(place) => given += place.len as u32,
            None => return false,
        }
    }
    true
}

// Puts a row after those that were put, if there is room.
pub(crate) fn put_piece(pieces: &mut [PieceRow], count: &mut usize, place: RegionPiece) -> bool
    ensures { PutsPiece pieces.old count.old place result pieces.new count.new }
{
    if *count >= pieces.len() {
        return false;
    }
    pieces[*count] = PieceRow {
        region: place.region as u64,
        offset: place.offset,
        len: place.len,
    };
    *count += 1;
    true
}

// Puts the pieces of a part, as far as there is room. Returns how many bytes of it were given by then.
pub(crate) fn put_pieces(
    memory: &ConnectionMemory,
    chain: &Chain,
    part: OpenPart,
    pieces: &mut [PieceRow],
    count: &mut usize,
) -> u32
    ensures { PutsPart memory.now chain.now part pieces.old count.old result pieces.new count.new }
{
    let (_, _, len) = bytes_of(part.step);
    let mut given = part.given;
    while given < len {
        let Some(place) = place_in(memory, chain, part.step, given) else {
            break;
        };
        if !put_piece(pieces, count, place) {
            break;
        }
        given += place.len as u32;
    }
    given
}

// Puts a row after those that were put.
pub(crate) fn put_action(actions: &mut [ActionRow], count: &mut usize, row: ActionRow)
    requires { count.old < length actions.old }
    ensures { Puts actions.old count.old (row ∷ []) actions.new count.new }
{
    actions[*count] = row;
    *count += 1;
}

// Puts bytes after those that were put.
pub(crate) fn put_bytes(output: &mut [u8], count: &mut usize, bytes: &[u8])
    requires { count.old + length bytes.now ≤ length output.old }
    ensures { Puts output.old count.old bytes.now output.new count.new }
{
    let from = *count;
    output[from..from + bytes.len()].copy_from_slice(bytes);
    *count = from + bytes.len();
}
