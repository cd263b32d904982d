//! The beginning of a receiver: the header, and the blocks that it asks for.
ghost use Rattle.std.specs.Prelude.{◌≡◌, ℕ, ◌+◌, ◌-◌, ◌*◌, ◌^◌, ◌<◌, ◌≤◌, List, [], ◌++◌, ◌⊎◌, length, replicate, take};
ghost use Rattle.std.specs.Prelude.{IfOk, IfErr, OnOk};
ghost use Rattle.std.specs.Io.KnownBytes.{Consumes};
ghost use Rattle.live_migration.specs.Digests.{HasNoted};
ghost use Rattle.live_migration.specs.declared.receiver.Stage.TheVariants as stages;
ghost use Rattle.live_migration.specs.declared.refusal.Refusal.TheVariants as refusals;
ghost use Rattle.live_migration.specs.Receiving.{Begins, BreaksMaking, MakesBlocks, memory_of};

use super::{Progress, Receiver, Stage};
use crate::digest::StreamHasher;
use crate::frame::MOST_PAGE_BYTES;
use crate::header::{BlockEntry, ENTRY, FRONT, Header, decode_header, front_in};
use crate::refusal::Refusal;
use crate::stream::read_bytes;
use std::alloc::{AllocError, Global};
use std::io::Read;
use vm_memory_base::NewBitmap;
use vm_memory_guest::HostMemory;

// Reads a header, as long as it says to be.
#[tactic(auto, using(crate::proofs::StreamLemmas::consumes_consumes))]
fn read_header<R: Read>(alloc: Global, reader: &mut R) -> Result<Vec<u8>, Refusal>
    ensures { IfOk result (λ bytes. Consumes (R.remaining reader.old) (R.remaining reader.new) bytes.items) }
{
    let mut bytes = Vec::new(alloc);
    read_bytes(reader, &mut bytes, FRONT)?;
    let (_digests, count, _rest) = front_in(bytes.as_slice())?;
    let mut blocks = Vec::new(alloc);
    read_bytes(reader, &mut blocks, count as usize * ENTRY)?;
    if bytes.extend_from_slice(blocks.as_slice()).is_err() {
        return Err(Refusal::Memory);
    }
    Ok(bytes)
}

// Makes the blocks of a header, of zeros, and returns the number of the first.
fn make_blocks<B: NewBitmap + Drop>(
    host: &mut HostMemory<B>,
    entries: &[BlockEntry],
) -> Result<usize, Refusal>
    ensures ok { OnOk result (MakesBlocks B.made entries.now host.old host.new) }
    ensures base { IfOk result (λ base. 0 < length entries.now → base ≡ length host.old.blocks) }
    ensures err { IfErr result (λ error. (error ≡ refusals.Memory)
        × (count : ℕ) × MakesBlocks B.made (take count entries.now) host.old host.new) }
{
    let mut base = 0;
    for (i, entry) in entries.iter().enumerate() {
        let Ok(block) = host.new_block(entry.len as usize) else {
            return Err(Refusal::Memory);
        };
        if i == 0 {
            base = block.0;
        }
    }
    Ok(base)
}

// What blocks leave of a limit.
fn left_of(entries: &[BlockEntry], limit: u64) -> u64
    ensures { result ≡ limit - memory_of entries.now }
{
    let mut left = limit;
    for entry in entries {
        left = left.saturating_sub(entry.len);
    }
    left
}

// The greatest page size.
fn largest_page(entries: &[BlockEntry]) -> usize {
    let mut largest: u64 = 0;
    for entry in entries {
        largest = largest.max(entry.page_size);
    }
    largest as usize
}

// The greatest number of bytes of pages in one frame.
fn longest_frame(entries: &[BlockEntry]) -> u32
    ensures { result ≤ 2 ^ 20 }
{
    let mut longest: u64 = 0;
    for entry in entries {
        longest = longest.max(entry.len);
    }
    longest.min(MOST_PAGE_BYTES as u64) as u32
}

// Some zeros.
fn zeros_of(alloc: Global, count: usize) -> Result<Vec<u8>, AllocError>
    ensures { IfOk result (λ zeros. zeros.items ≡ replicate (length zeros.items) 0) }
{
    Ok(vec![in alloc; 0u8; count]?)
}

// What a receiver has after this header.
fn first_progress(
    alloc: Global,
    bytes: &[u8],
    header: Header,
    limit: u64,
) -> Result<Progress, Refusal>
    ensures { IfOk result (λ p. (p.entries.items ≡ header.entries.items) × (p.stage ≡ stages.Round) × (p.round ≡ 0)
        × (p.left ≡ limit - memory_of header.entries.items) × HasNoted header.options.digests p.hasher bytes.now) }
{
    let Header { options, entries } = header;
    let mut hasher = StreamHasher::new(options.digests);
    hasher.note(bytes);
    let left = left_of(entries.as_slice(), limit);
    let Ok(zeros) = zeros_of(alloc, largest_page(entries.as_slice())) else {
        return Err(Refusal::Memory);
    };
    let longest = longest_frame(entries.as_slice());
    Ok(Progress {
        base: 0,
        entries,
        stage: Stage::Round,
        round: 0,
        hasher,
        left,
        longest,
        zeros,
        sections: Vec::new(alloc),
    })
}

impl Receiver {
    /// Reads the header and makes its blocks in a host, of zeros, after those that the host has. The blocks and the
    /// stream's sections may cost `limit` bytes in all; each section costs `SECTION_COST` besides its name and
    /// bytes: `TooMuchMemory` if the blocks cost more. Nothing is made before the header is accepted. If an allocation
    /// fails after that, blocks that were made stay, and nothing else changes.
    ///
    /// Leaves open: any error at any time, with the host as before; or `Memory` after some blocks of an accepted header
    /// were made.
    #[tactic(auto, using(crate::proofs::CostLemmas::blocks_cost))]
    pub fn begin<R: Read, B: NewBitmap + Drop>(
        alloc: Global,
        reader: &mut R,
        host: &mut HostMemory<B>,
        limit: u64,
    ) -> Result<Receiver, Refusal>
        ensures begun { IfOk result (λ r. Begins B.made limit (R.remaining reader.old) (R.remaining reader.new) r.seen
            host.old host.new) }
        ensures refused { IfErr result (λ error. (host.new ≡ host.old) ⊎ BreaksMaking B.made limit
            (R.remaining reader.old) (R.remaining reader.new) error host.old host.new) }
    {
        let bytes = read_header(alloc, reader)?;
        let header = decode_header(alloc, limit, bytes.as_slice())?;
        let mut seen = first_progress(alloc, bytes.as_slice(), header, limit)?;
        seen.base = make_blocks(host, seen.entries.as_slice())?;
        Ok(Receiver {
            seen,
            payload: Vec::new(alloc),
        })
    }
}
