//! The memory that a front end shares.
ghost use Rattle.std.specs.Prelude.{◌≡◌, ◌+◌, ◌<◌, ◌≤◌, [], length};
ghost use Rattle.vhost_message.specs.Regions.{are_apart, are_whole, begins_below, guest_address, guest_of, has_range};
ghost use Rattle.vhost_message.specs.Regions.{is_whole, overlap, overlaps_any, region_at, region_or_none, table_in};
ghost use Rattle.vhost_message.specs.Regions.{tested};

use crate::numbers::{number, word};
use crate::refusal::Refusal;
use std::marker::Model;
use vm_memory_base::GuestAddress;

/// How many regions a front end shares at most.
pub const MAX_REGIONS: usize = 8;

const REGION_LEN: usize = 32;

/// A part of guest memory, and where it lies in a file that the front end shares.
#[derive(Clone, Copy, Debug, PartialEq, Eq)]
pub struct MemoryRegion {
    /// Where it begins in guest memory.
    pub guest_address: GuestAddress,
    /// How many bytes it has.
    pub size: u64,
    /// Where it begins in the front end's own memory.
    pub user_address: u64,
    /// Where it begins in its file, in bytes.
    pub mmap_offset: u64,
}

const NO_REGION: MemoryRegion = MemoryRegion {
    guest_address: GuestAddress(0),
    size: 0,
    user_address: 0,
    mmap_offset: 0,
};

impl MemoryRegion {
    // Whether it has bytes, and none past the last address.
    fn is_whole(&self) -> bool
        ensures { result ≡ is_whole self.now }
    {
        self.size > 0
            && self.guest_address.0.checked_add(self.size).is_some()
            && self.user_address.checked_add(self.size).is_some()
            && self.mmap_offset.checked_add(self.size).is_some()
    }

    // Whether it begins in front of the other's end.
    fn begins_below(&self, other: &MemoryRegion) -> bool
        ensures { result ≡ begins_below self.now other.now }
    {
        match self.guest_address.0.checked_sub(other.guest_address.0) {
            Some(distance) => distance < other.size,
            None => true,
        }
    }

    // Whether the two have a guest address in common.
    fn overlaps(&self, other: &MemoryRegion) -> bool
        ensures { result ≡ overlap self.now other.now }
    {
        self.begins_below(other) && other.begins_below(self)
    }

    // Whether it has a guest address in common with one of these.
    fn overlaps_any(&self, others: &[MemoryRegion]) -> bool
        ensures { result ≡ overlaps_any self.now others.now }
    {
        others.iter().any(|other| self.overlaps(other))
    }

    /// Whether it has this many bytes of the front end's own memory from an address on.
    pub fn has_range(&self, user_address: u64, size: u64) -> bool
        ensures { result ≡ has_range user_address size self.now }
    {
        match user_address.checked_sub(self.user_address) {
            Some(distance) => distance <= self.size && size <= self.size - distance,
            None => false,
        }
    }

    // The address of guest memory that is this one of the front end's.
    fn guest_address(&self, user_address: u64) -> GuestAddress
        requires { self.now.user_address ≤ user_address }
        ensures { result ≡ guest_address user_address self.now }
    {
        let distance = user_address - self.user_address;
        GuestAddress(self.guest_address.0.wrapping_add(distance))
    }
}

/// Where a range of the front end's own memory lies in guest memory: in the first of these regions that has all of it.
/// `None` if no region has.
pub fn guest_of(regions: &[MemoryRegion], user_address: u64, size: u64) -> Option<GuestAddress>
    ensures { result ≡ guest_of regions.now user_address size }
{
    for region in regions {
        if region.has_range(user_address, size) {
            return Some(region.guest_address(user_address));
        }
    }
    None
}

// The region from a place in a payload on.
fn region_at(payload: &[u8], at: usize) -> MemoryRegion
    requires { at + 32 ≤ length payload.now }
    ensures { result ≡ region_at payload.now at }
{
    MemoryRegion {
        guest_address: GuestAddress(number(payload, at)),
        size: number(payload, at + 8),
        user_address: number(payload, at + 16),
        mmap_offset: number(payload, at + 24),
    }
}

// The region of this number in the payload of a SET_MEM_TABLE, if that goes so far.
#[tactic(auto, unfolding(crate::specs::Regions::region_or_none))]
fn region_or_none(payload: &[u8], i: usize) -> MemoryRegion
    requires { i < 8 }
    ensures { result ≡ region_or_none payload.now i }
{
    let at = 8 + REGION_LEN * i;
    if payload.len() < at + REGION_LEN {
        return NO_REGION;
    }
    region_at(payload, at)
}

// Whether each has bytes, and none past the last address.
fn are_whole(regions: &[MemoryRegion]) -> bool
    ensures { result ≡ are_whole regions.now }
{
    regions.iter().all(|region| region.is_whole())
}

// Whether no two have a guest address in common.
fn are_apart(regions: &[MemoryRegion]) -> bool
    ensures { result ≡ are_apart regions.now }
{
    match regions.split_first() {
        None => true,
        Some((first, rest)) => !first.overlaps_any(rest) && are_apart(rest),
    }
}

/// The regions that a front end shares, at most `MAX_REGIONS`. Contracts see their list.
#[derive(Debug, Drop)]
pub struct MemoryTable {
    count: usize,
    regions: [MemoryRegion; MAX_REGIONS],
}

impl Model for MemoryTable {
    ghost use Rattle.std.specs.Prelude.{List, ◌≤◌, take};
    ghost use Rattle.vhost_message.specs.declared.regions.MemoryRegion.{MemoryRegion};

    ghost Value = { List MemoryRegion };

    ghost view = { λ t. take t.count t.regions };

    ghost invariant = { λ t. t.count ≤ 8 };
}

impl MemoryTable {
    /// No regions.
    pub fn new() -> MemoryTable
        ensures { result ≡ [] }
    {
        MemoryTable {
            count: 0,
            regions: [NO_REGION; MAX_REGIONS],
        }
    }

    /// The table that is the payload of a SET_MEM_TABLE: `PayloadSize` if it does not have exactly the regions that it
    /// counts.
    #[tactic(auto, unfolding(crate::specs::Regions::table_in))]
    pub fn decode(payload: &[u8]) -> Result<MemoryTable, Refusal>
        requires least { 8 ≤ length payload.now }
        requires most { length payload.now ≤ 268 }
        ensures { result ≡ table_in payload.now }
    {
        let count = word(payload, 0) as usize;
        if payload.len() != 8 + REGION_LEN * count {
            return Err(Refusal::PayloadSize);
        }
        Ok(MemoryTable {
            count,
            regions: [
                region_or_none(payload, 0),
                region_or_none(payload, 1),
                region_or_none(payload, 2),
                region_or_none(payload, 3),
                region_or_none(payload, 4),
                region_or_none(payload, 5),
                region_or_none(payload, 6),
                region_or_none(payload, 7),
            ],
        })
    }

    /// The same regions.
    pub fn copy(&self) -> MemoryTable
        ensures { result ≡ self.now }
    {
        MemoryTable {
            count: self.count,
            regions: self.regions,
        }
    }

    /// Its regions.
    pub fn regions(&self) -> &[MemoryRegion]
        ensures { result.now ≡ self.now }
    {
        &self.regions[..self.count]
    }

    /// Whether there can be such regions: `RegionRange` if one has no bytes or passes the last address, and
    /// `RegionOverlap` if two have a guest address in common.
    pub fn test(&self) -> Result<(), Refusal>
        ensures { result ≡ tested self.now }
    {
        if !are_whole(self.regions()) {
            return Err(Refusal::RegionRange);
        }
        if !are_apart(self.regions()) {
            return Err(Refusal::RegionOverlap);
        }
        Ok(())
    }

    /// `guest_of` of its regions.
    pub fn guest_of(&self, user_address: u64, size: u64) -> Option<GuestAddress>
        ensures { result ≡ guest_of self.now user_address size }
    {
        guest_of(self.regions(), user_address, size)
    }
}

/// Regions that a front end shares, any number of them. Contracts see their list.
#[derive(Debug, Drop)]
pub struct MemoryRegions {
    regions: Vec<MemoryRegion>,
}

impl Model for MemoryRegions {
    ghost use Rattle.std.specs.Prelude.{List};
    ghost use Rattle.vhost_message.specs.declared.regions.MemoryRegion.{MemoryRegion};

    ghost Value = { List MemoryRegion };

    ghost view = { λ m. m.regions.items };
}

impl MemoryRegions {
    /// These regions.
    pub fn new(regions: Vec<MemoryRegion>) -> MemoryRegions
        ensures { result ≡ regions.items }
    {
        MemoryRegions { regions }
    }

    /// `guest_of` of its regions.
    pub fn guest_of(&self, user_address: u64, size: u64) -> Option<GuestAddress>
        ensures { result ≡ guest_of self.now user_address size }
    {
        guest_of(self.regions.as_slice(), user_address, size)
    }
}
