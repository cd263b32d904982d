//! The region of a split queue, as bytes.
ghost use Rattle.std.specs.Prelude.{◌≡◌, ◌+◌, ◌*◌, ◌≤◌, IfOk, length};
ghost use Rattle.vhost_inflight.specs.SplitBytes.{entries_in, entry_at, header_in, quad, region_len, word};

use std::alloc::{AllocError, Global};

/// How many bytes the fields have that stand in front of the first descriptor's.
pub(crate) const HEADER_LEN: usize = 16;

/// How many bytes a descriptor's fields have.
pub(crate) const ENTRY_LEN: usize = 16;

/// What the region says in front of its descriptors.
#[derive(Clone, Copy, Debug, PartialEq, Eq)]
pub struct SplitHeader {
    /// The version of the layout: 1, or 0 in a fresh region.
    pub version: u16,
    /// How many descriptors it was written for.
    pub desc_num: u16,
    /// The head that was returned last.
    pub last_batch_head: u16,
    /// The ring's used index, once nothing is left to do for what was returned.
    pub used_idx: u16,
}

/// What the region says of a descriptor.
#[derive(Clone, Copy, Debug, PartialEq, Eq)]
pub struct SplitEntry {
    /// 1 if it is the head of a chain in flight, and otherwise 0.
    pub in_flight: u8,
    /// The head that was returned before it.
    pub next: u16,
    /// Its place in the order of what is in flight.
    pub counter: u64,
}

/// How many bytes a region with this number of descriptors has, rounded up to 64.
pub fn split_region_len(descriptors: u16) -> usize
    ensures { result ≡ region_len descriptors }
{
    (HEADER_LEN + ENTRY_LEN * descriptors as usize + 63) / 64 * 64
}

// The number in the 2 bytes from a place on.
fn word(bytes: &[u8], at: usize) -> u16
    requires { at + 2 ≤ length bytes.now }
    ensures { result ≡ word bytes.now at }
{
    let bytes = &bytes[at..at + 2];
    u16::from_le_bytes([bytes[0], bytes[1]])
}

// The number in the 8 bytes from a place on.
fn quad(bytes: &[u8], at: usize) -> u64
    requires { at + 8 ≤ length bytes.now }
    ensures { result ≡ quad bytes.now at }
{
    let bytes = &bytes[at..at + 8];
    u64::from_le_bytes([
        bytes[0], bytes[1], bytes[2], bytes[3], bytes[4], bytes[5], bytes[6], bytes[7],
    ])
}

pub(crate) fn header_in(bytes: &[u8]) -> SplitHeader
    requires { 16 ≤ length bytes.now }
    ensures { result ≡ header_in bytes.now }
{
    SplitHeader {
        version: word(bytes, 8),
        desc_num: word(bytes, 10),
        last_batch_head: word(bytes, 12),
        used_idx: word(bytes, 14),
    }
}

fn entry_at(bytes: &[u8], head: u16) -> SplitEntry
    requires { 16 + 16 * head + 16 ≤ length bytes.now }
    ensures { result ≡ entry_at bytes.now head }
{
    let at = HEADER_LEN + ENTRY_LEN * head as usize;
    SplitEntry {
        in_flight: bytes[at],
        next: word(bytes, at + 6),
        counter: quad(bytes, at + 8),
    }
}

pub(crate) fn entries_in(
    alloc: Global,
    bytes: &[u8],
    descriptors: u16,
) -> Result<Vec<SplitEntry>, AllocError>
    requires { 16 + 16 * descriptors ≤ length bytes.now }
    ensures { IfOk result (λ entries. entries.items ≡ entries_in descriptors bytes.now) }
{
    let mut entries = Vec::new(alloc);
    for head in 0..descriptors {
        entries.push(entry_at(bytes, head))?;
    }
    Ok(entries)
}
