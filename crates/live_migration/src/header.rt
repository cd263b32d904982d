//! The header of the stream: which blocks there are.
ghost use Rattle.std.specs.Prelude.{◌≡◌, ◌+◌, ◌^◌, ◌<◌, ◌≤◌, ◌++◌, ℕ, Bool, List, length, IfOk, IsOk, Ok, ◌↔◌};
ghost use Rattle.std.specs.Int.{w32, w64, to_le_bytes};
ghost use Rattle.live_migration.specs.Header.{FitsFields, GivesUnlessMemory, entry_bytes, IsHeader, checked};
ghost use Rattle.live_migration.specs.Header.{entries_in, entry_in, front_in, header_bytes, header_in, option_bits};
ghost use Rattle.live_migration.specs.Header.{parts_of};
ghost use Rattle.live_migration.specs.Reading.{Gives};
ghost use Rattle.live_migration.specs.declared.header.BlockEntry.{BlockEntry};

use crate::fields::{u32_at, u64_at};
use crate::refusal::Refusal;
use std::alloc::{AllocError, Global};

const MAGIC: u64 = 0x5441_5247_494d_4d56;

const VERSION: u32 = 2;

// The bit of the options that asks for digests.
const DIGESTS: u32 = 1;

/// The greatest number of blocks.
pub const MOST_BLOCKS: u32 = 256;

/// The number of bytes before the blocks.
pub(crate) const FRONT: usize = 20;

/// The number of bytes of a block in the header.
pub(crate) const ENTRY: usize = 24;

const MOST_LEN: u64 = 0x7fff_ffff_ffff_ffff;

const MOST_PAGE_SIZE: u64 = 0x10_0000;

/// A block of a guest's memory.
#[derive(Clone, Copy, Debug, PartialEq, Eq)]
pub struct BlockEntry {
    /// Its length in bytes: 1 to 2^63 - 1.
    pub len: u64,
    /// The number of bytes of a page: 1 to 2^20. The last page may be cut.
    pub page_size: u64,
    /// Where it lies in guest memory. The first address after it is at most 2^64 - 1.
    pub address: u64,
}

/// What a stream may have or not, as its sender decides.
#[derive(Clone, Copy, Debug, PartialEq, Eq, Default)]
pub struct Options {
    /// Whether each end of a round has the digest of all that was sent before it: SHA-256, which both ends compute.
    pub digests: bool,
}

/// What the header of a stream says.
#[derive(Debug, Drop)]
pub struct Header {
    pub options: Options,
    pub entries: Vec<BlockEntry>,
}

#[tactic(auto, unfolding(crate::specs::Header::front_in))]
pub(crate) fn front_in(bytes: &[u8]) -> Result<(bool, u32, &[u8]), Refusal>
    ensures { Gives (λ x. (x.0, x.1, x.2.now)) result (front_in bytes.now) }
{
    let (word, rest) = u64_at(bytes)?;
    if word != MAGIC {
        return Err(Refusal::Magic);
    }
    let (version, rest) = u32_at(rest)?;
    if version != VERSION {
        return Err(Refusal::Version);
    }
    let (options, rest) = u32_at(rest)?;
    if options > DIGESTS {
        return Err(Refusal::Options);
    }
    let (count, rest) = u32_at(rest)?;
    if count > MOST_BLOCKS {
        return Err(Refusal::BlockCount);
    }
    Ok((options == DIGESTS, count, rest))
}

// A block that begins no earlier than `from`, if so many bytes are left of what is allowed.
fn checked(from: u64, left: u64, entry: BlockEntry) -> Result<BlockEntry, Refusal>
    ensures value { result ≡ checked from left entry }
    ensures addressed { IfOk result (λ e. e.address + e.len < 2 ^ 64) }
    ensures allowed { IfOk result (λ e. e.len ≤ left) }
    ensures fields { FitsFields entry }
{
    if !(entry.len > 0 && entry.len <= MOST_LEN) {
        return Err(Refusal::BlockLength);
    }
    if !(entry.page_size > 0 && entry.page_size <= MOST_PAGE_SIZE) {
        return Err(Refusal::PageSize);
    }
    if !(from <= entry.address && entry.address <= u64::MAX - entry.len) {
        return Err(Refusal::Place);
    }
    if entry.len > left {
        return Err(Refusal::TooMuchMemory);
    }
    Ok(entry)
}

#[tactic(auto, unfolding(crate::specs::Header::entry_in))]
fn entry_in(from: u64, left: u64, bytes: &[u8]) -> Result<(BlockEntry, &[u8]), Refusal>
    ensures gives { Gives (λ x. (x.0, x.1.now)) result (entry_in from left bytes.now) }
    ensures addressed { IfOk result (λ x. x.0.address + x.0.len < 2 ^ 64) }
    ensures allowed { IfOk result (λ x. x.0.len ≤ left) }
{
    let (len, rest) = u64_at(bytes)?;
    let (page_size, rest) = u64_at(rest)?;
    let (address, rest) = u64_at(rest)?;
    let entry = BlockEntry {
        len,
        page_size,
        address,
    };
    Ok((checked(from, left, entry)?, rest))
}

fn entries_in(
    alloc: Global,
    count: u32,
    limit: u64,
    bytes: &[u8],
) -> Result<(Vec<BlockEntry>, &[u8]), Refusal>
    ensures { GivesUnlessMemory (λ x. (x.0.items, x.1.now)) result (entries_in count 0 limit bytes.now) }
{
    let mut entries = Vec::new(alloc);
    let mut from = 0;
    let mut left = limit;
    let mut rest = bytes;
    for _ in 0..count {
        let (entry, after) = entry_in(from, left, rest)?;
        if entries.push(entry).is_err() {
            return Err(Refusal::Memory);
        }
        from = entry.address + entry.len;
        left -= entry.len;
        rest = after;
    }
    Ok((entries, rest))
}

#[tactic(auto, unfolding(crate::specs::Header::header_in))]
fn header_in(alloc: Global, limit: u64, bytes: &[u8]) -> Result<Header, Refusal>
    ensures { GivesUnlessMemory parts_of result (header_in limit bytes.now) }
{
    let (digests, count, rest) = front_in(bytes)?;
    let (entries, rest) = entries_in(alloc, count, limit, rest)?;
    if rest.len() != 0 {
        return Err(Refusal::FrameLength);
    }
    let options = Options { digests };
    Ok(Header { options, entries })
}

/// The header that these bytes are, all of them: no other options and blocks have it. The first fault from the left
/// decides which error it is. `TooMuchMemory` if the blocks have more than `limit` bytes in all, and `Memory` if the
/// allocation of the list fails.
///
/// Leaves open: `Memory` each time.
pub fn decode_header(alloc: Global, limit: u64, bytes: &[u8]) -> Result<Header, Refusal>
    // What is read is spelled so.
    ensures found { IfOk result (λ h. IsHeader limit h.entries.items
        × (bytes.now ≡ header_bytes h.options.digests h.entries.items)) }
    // What is spelled so is read, unless memory runs out.
    ensures only { (digests : Bool) (es : List BlockEntry) → IsHeader limit es → bytes.now ≡ header_bytes digests es
        → GivesUnlessMemory parts_of result (Ok (digests, es)) }
    // Which fault it is.
    ensures exact { GivesUnlessMemory parts_of result (header_in limit bytes.now) }
{
    header_in(alloc, limit, bytes)
}

/// Refuses blocks whose header `decode_header` refuses, for the same fault.
pub(crate) fn check_header(limit: u64, entries: &[BlockEntry]) -> Result<(), Refusal>
    ensures accepted { IsOk result ↔ IsHeader limit entries.now }
    // What `decode_header` says of the header of these blocks.
    ensures same { (digests : Bool) → length entries.now < 2 ^ 32
        → Gives (λ _. (digests, entries.now)) result (header_in limit (header_bytes digests entries.now)) }
{
    if entries.len() > MOST_BLOCKS as usize {
        return Err(Refusal::BlockCount);
    }
    let mut from = 0;
    let mut left = limit;
    for entry in entries {
        let BlockEntry { len, address, .. } = checked(from, left, *entry)?;
        from = address + len;
        left -= len;
    }
    Ok(())
}

// The bytes of a block in the header.
fn entry_bytes(entry: &BlockEntry) -> [u8; ENTRY]
    ensures { result ≡ entry_bytes entry.now }
{
    let [a, b, c, d, e, f, g, h] = entry.len.to_le_bytes();
    let [i, j, k, l, m, n, o, p] = entry.page_size.to_le_bytes();
    let [q, r, s, t, u, v, w, x] = entry.address.to_le_bytes();
    [
        a, b, c, d, e, f, g, h, i, j, k, l, m, n, o, p, q, r, s, t, u, v, w, x,
    ]
}

// The bytes in front of the blocks.
fn front_bytes(options: Options, count: u32) -> [u8; FRONT]
    ensures { result ≡ to_le_bytes w64 0x5441_5247_494d_4d56
        ++ (to_le_bytes w32 2 ++ (to_le_bytes w32 (option_bits options.digests) ++ to_le_bytes w32 count)) }
{
    let [a, b, c, d, e, f, g, h] = MAGIC.to_le_bytes();
    let [i, j, k, l] = VERSION.to_le_bytes();
    let [m, n, o, p] = option_bits(options).to_le_bytes();
    let [q, r, s, t] = count.to_le_bytes();
    [a, b, c, d, e, f, g, h, i, j, k, l, m, n, o, p, q, r, s, t]
}

fn option_bits(options: Options) -> u32
    ensures { result ≡ option_bits options.digests }
{
    if options.digests { DIGESTS } else { 0 }
}

/// The header of these options and blocks, as it goes over the stream. `AllocError` if its allocation fails.
#[tactic(auto, unfolding(crate::specs::Header::header_bytes))]
pub fn encode_header(
    alloc: Global,
    options: Options,
    entries: &[BlockEntry],
) -> Result<Vec<u8>, AllocError>
    requires { length entries.now ≤ 256 }
    ensures { IfOk result (λ v. v.items ≡ header_bytes options.digests entries.now) }
{
    let mut out = Vec::new(alloc);
    out.extend_from_slice(&front_bytes(options, entries.len() as u32))?;
    for entry in entries {
        out.extend_from_slice(&entry_bytes(entry))?;
    }
    Ok(out)
}
