//! A bounded table of a host, the payloads that a front end fills it with, and its pages.

use crate::payloads::Parts;
use std::alloc::Global;
use std::test::Fail;
use vhost_iotlb::{DeviceTable, IotlbMessage, MemoryRegion, MemoryRegions};
use vm_memory_base::{GuestAddress, Permissions};
use vm_memory_guest::{HostMemory, TlbId};

pub type Host = HostMemory<()>;

/// A page, where the I/O addresses begin, and how many pages of guest memory there are.
pub const PAGE: u64 = 0x1000;

pub const IOVA: u64 = 0x1_0000_0000;

pub const PAGES: u64 = 16;

/// Where the two halves of guest memory lie in the front end's.
pub const FIRST: u64 = 0x7fff_0000_0000;

pub const SECOND: u64 = 0x7ffe_0000_0000;

// Where a page of I/O addresses leads in the front end's memory.
fn user_of(page: u64) -> u64 {
    let target = (page % PAGES * 5 + 3) % PAGES * PAGE;
    if target < PAGES / 2 * PAGE {
        FIRST.wrapping_add(target)
    } else {
        SECOND.wrapping_add(target - PAGES / 2 * PAGE)
    }
}

/// An UPDATE of a page.
pub fn update(page: u64, permissions: u8) -> Parts {
    Parts {
        iova: IOVA.wrapping_add(page.wrapping_mul(PAGE)),
        size: PAGE,
        user: user_of(page),
        permissions,
        kind: 2,
    }
}

/// An INVALIDATE of a page, whose other fields mean nothing.
pub fn invalidate(page: u64) -> Parts {
    Parts {
        iova: IOVA.wrapping_add(page.wrapping_mul(PAGE)),
        size: PAGE,
        user: 3,
        permissions: 77,
        kind: 3,
    }
}

/// The memory that the front end announced.
fn announced(alloc: Global) -> Result<MemoryRegions, Fail> {
    let half = PAGES / 2 * PAGE;
    let mut regions = Vec::new(alloc);
    for (guest_address, user_address) in [(0, FIRST), (half, SECOND)] {
        regions.push(MemoryRegion {
            guest_address: GuestAddress(guest_address),
            size: half,
            user_address,
            mmap_offset: 0,
        })?;
    }
    Ok(MemoryRegions::new(regions))
}

/// A host with a table that a front end fills.
#[derive(Drop)]
pub struct World {
    pub host: Host,
    pub table: DeviceTable,
}

/// A world whose table has this limit.
pub fn make_world(alloc: Global, limit: usize) -> Result<World, Fail> {
    if limit == 0 {
        return Err(Fail::new("the limit is 0"));
    }
    let mut host = HostMemory::new(alloc);
    let table = DeviceTable::new(alloc, &mut host, limit, announced(alloc)?)?;
    Ok(World { host, table })
}

/// Applies the message that a payload spells, if it spells one. Returns whether it was done.
pub fn is_done(world: &mut World, payload: &[u8; 32]) -> bool {
    match IotlbMessage::decode(payload) {
        Ok(message) => world.table.apply(&mut world.host, &message).is_ok(),
        Err(_) => false,
    }
}

/// Where an I/O address leads in a table of a host, if it is mapped.
pub fn mapped(host: &Host, table: TlbId, iova: u64) -> Option<u64> {
    if !host.shape().has_table(table) {
        return None;
    }
    let table = host.table(table);
    let mut found = table.lookup(GuestAddress(iova), 1, Permissions::No).ok()?;
    Some(found.next()?.base.0)
}
