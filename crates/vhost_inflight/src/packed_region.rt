//! The region of a packed queue, as bytes.
ghost use Rattle.std.specs.Prelude.{◌≡◌, ◌+◌, ◌*◌, ◌≤◌, IfOk, length};
ghost use Rattle.vhost_inflight.specs.Packed.{moved};
ghost use Rattle.vhost_inflight.specs.PackedBytes.{double, entries_in, entry_at, header_in, old_slot, quad};
ghost use Rattle.vhost_inflight.specs.PackedBytes.{region_len, word};

use std::alloc::{AllocError, Global};

/// How many bytes the fields have that stand in front of the first entry.
pub(crate) const PACKED_HEADER_LEN: usize = 32;

/// How many bytes an entry has.
pub(crate) const PACKED_ENTRY_LEN: usize = 32;

/// Where a side of a packed queue stands.
#[derive(Clone, Copy, Debug, PartialEq, Eq)]
pub struct PackedPosition {
    /// The index of a descriptor of the ring.
    pub slot: u16,
    /// The wrap counter, which flips at the ring's end.
    pub wrap: bool,
}

impl PackedPosition {
    /// The position so many slots further, at most the ring's size.
    pub fn moved(self, size: u16, count: u16) -> PackedPosition
        ensures { result ≡ moved size self count }
    {
        let left = size.saturating_sub(self.slot);
        if count < left {
            return PackedPosition {
                slot: self.slot + count,
                wrap: self.wrap,
            };
        }
        PackedPosition {
            slot: count - left,
            wrap: !self.wrap,
        }
    }
}

/// What the region says in front of its entries.
#[derive(Clone, Copy, Debug, PartialEq, Eq)]
pub struct PackedHeader {
    /// The version of the layout: 1, or 0 in a fresh region.
    pub version: u16,
    /// How many descriptors it was written for.
    pub desc_num: u16,
    /// The first free entry, also in the middle of a call.
    pub free_head: u16,
    /// The first free entry before the call.
    pub old_free_head: u16,
    /// Where the next chain is returned, also in the middle of a call.
    pub used: PackedPosition,
    /// Where the next chain was returned before the call.
    pub old_used: PackedPosition,
}

/// A descriptor as it lay in the ring.
#[derive(Clone, Copy, Debug, PartialEq, Eq)]
pub struct PackedCopy {
    /// The driver's id for the chain, in the chain's last descriptor.
    pub id: u16,
    /// The descriptor's flags.
    pub flags: u16,
    /// How many bytes its segment has.
    pub len: u32,
    /// The guest address of its segment.
    pub addr: u64,
}

/// An entry of the region. Those of a chain are linked by `next`, and so are the free ones.
#[derive(Clone, Copy, Debug, PartialEq, Eq)]
pub struct PackedEntry {
    /// 1 if it is the first one of a chain in flight, and otherwise 0.
    pub in_flight: u8,
    /// The entry after it.
    pub next: u16,
    /// Of a chain's first entry: the last one.
    pub last: u16,
    /// Of a chain's first entry: how many the chain has.
    pub num: u16,
    /// Of a chain's first entry: its place in the order of what is in flight.
    pub counter: u64,
    /// The descriptor's id.
    pub id: u16,
    /// The descriptor's flags.
    pub flags: u16,
    /// The descriptor's length.
    pub len: u32,
    /// The descriptor's address.
    pub addr: u64,
}

/// How many bytes a region with this number of descriptors has, rounded up to 64.
pub fn packed_region_len(descriptors: u16) -> usize
    ensures { result ≡ region_len descriptors }
{
    (PACKED_HEADER_LEN + PACKED_ENTRY_LEN * descriptors as usize + 63) / 64 * 64
}

// The number in the 2 bytes from a place on.
fn word(bytes: &[u8], at: usize) -> u16
    requires { at + 2 ≤ length bytes.now }
    ensures { result ≡ word bytes.now at }
{
    let bytes = &bytes[at..at + 2];
    u16::from_le_bytes([bytes[0], bytes[1]])
}

// The number in the 4 bytes from a place on.
fn double(bytes: &[u8], at: usize) -> u32
    requires { at + 4 ≤ length bytes.now }
    ensures { result ≡ double bytes.now at }
{
    let bytes = &bytes[at..at + 4];
    u32::from_le_bytes([bytes[0], bytes[1], bytes[2], bytes[3]])
}

// The number in the 8 bytes from a place on.
fn quad(bytes: &[u8], at: usize) -> u64
    requires { at + 8 ≤ length bytes.now }
    ensures { result ≡ quad bytes.now at }
{
    let bytes = &bytes[at..at + 8];
    u64::from_le_bytes([
        bytes[0], bytes[1], bytes[2], bytes[3], bytes[4], bytes[5], bytes[6], bytes[7],
    ])
}

pub(crate) fn header_in(bytes: &[u8]) -> PackedHeader
    requires { 32 ≤ length bytes.now }
    ensures { result ≡ header_in bytes.now }
{
    PackedHeader {
        version: word(bytes, 8),
        desc_num: word(bytes, 10),
        free_head: word(bytes, 12),
        old_free_head: word(bytes, 14),
        used: PackedPosition {
            slot: word(bytes, 16),
            wrap: bytes[20] != 0,
        },
        old_used: PackedPosition {
            slot: word(bytes, 18),
            wrap: bytes[21] != 0,
        },
    }
}

/// The slot of the ring that a start has to look at: `start_packed` wants its flags. None if it wants no slot's,
/// because the region is fresh or is refused.
pub fn packed_old_slot(bytes: &[u8], size: u16) -> Option<u16>
    ensures { result ≡ old_slot size bytes.now }
{
    if bytes.len() < PACKED_HEADER_LEN {
        return None;
    }
    let header = header_in(bytes);
    if header.version == 1 && header.old_used.slot < size {
        Some(header.old_used.slot)
    } else {
        None
    }
}

fn entry_at(bytes: &[u8], index: u16) -> PackedEntry
    requires { 32 + 32 * index + 32 ≤ length bytes.now }
    ensures { result ≡ entry_at bytes.now index }
{
    let at = PACKED_HEADER_LEN + PACKED_ENTRY_LEN * index as usize;
    PackedEntry {
        in_flight: bytes[at],
        next: word(bytes, at + 2),
        last: word(bytes, at + 4),
        num: word(bytes, at + 6),
        counter: quad(bytes, at + 8),
        id: word(bytes, at + 16),
        flags: word(bytes, at + 18),
        len: double(bytes, at + 20),
        addr: quad(bytes, at + 24),
    }
}

pub(crate) fn entries_in(
    alloc: Global,
    bytes: &[u8],
    descriptors: u16,
) -> Result<Vec<PackedEntry>, AllocError>
    requires { 32 + 32 * descriptors ≤ length bytes.now }
    ensures { IfOk result (λ entries. entries.items ≡ entries_in descriptors bytes.now) }
{
    let mut entries = Vec::new(alloc);
    for index in 0..descriptors {
        entries.push(entry_at(bytes, index))?;
    }
    Ok(entries)
}
