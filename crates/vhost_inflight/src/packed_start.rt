//! Where a packed queue goes on.
ghost use Rattle.std.specs.Prelude.{◌≡◌, ◌⊎◌, ◌^◌, ◌+◌, ◌<◌, ◌≤◌, ◌++◌, ◌&&◌, ◌==◌, false, nat_le, nat_lt, true};
ghost use Rattle.std.specs.Prelude.{IfErr, IfOk, None, OnOk, Some, if◌then◌else◌, length, map, replicate};
ghost use Rattle.std.specs.Prelude.{slice_index_or, slice_set};
ghost use Rattle.std.specs.List.{list_any};
ghost use Rattle.vhost_inflight.specs.Packed.{changed, kept_of};
ghost use Rattle.vhost_inflight.specs.PackedBytes.{region_of};
ghost use Rattle.vhost_inflight.specs.PackedStart.{IsInFlight, Opens, StartFails, Starts, TakesUp, chain_fault};
ghost use Rattle.vhost_inflight.specs.PackedStart.{chains_fault, cleared, copies_of, entries_fault, free_list};
ghost use Rattle.vhost_inflight.specs.PackedStart.{fresh_stores, greatest, header_fault, is_available, is_same};
ghost use Rattle.vhost_inflight.specs.PackedStart.{last_of, link_stores, linked, listed, nodes_of, num_of};
ghost use Rattle.vhost_inflight.specs.PackedStart.{opening_fault, place_of, repeats, seen_too, settle_stores};
ghost use Rattle.vhost_inflight.specs.PackedStart.{start_fault, start_stores, taken_header, walk};

use crate::packed::{PackedInFlight, PackedStore};
use crate::packed_error::PackedStartError;
use crate::packed_region::{
    PACKED_ENTRY_LEN, PACKED_HEADER_LEN, PackedCopy, PackedEntry, PackedHeader, PackedPosition,
    entries_in, header_in,
};
use std::alloc::{AllocError, Global};

// The flags by which a slot says whether it is available or used.
const AVAIL_AND_USED: u16 = 0x8080;

/// A chain to serve again.
#[derive(Clone, Copy, Debug, PartialEq, Eq)]
pub struct PackedAgain {
    /// The entry at which it begins, which names it.
    pub head: u16,
    /// How many descriptors it has.
    pub len: u16,
}

/// Where a packed queue goes on.
#[derive(Debug, Drop)]
pub struct PackedStart {
    /// What the back end keeps of the region from now on.
    pub in_flight: PackedInFlight,
    /// The chains to serve again, in the order of their pops.
    pub again: Vec<PackedAgain>,
    /// Their descriptors, those of the first chain first.
    pub copies: Vec<PackedCopy>,
    /// The next available position: the chains in front of it were popped.
    pub next_avail: PackedPosition,
    /// The next used position.
    pub next_used: PackedPosition,
    /// What to store to the region before anything is popped, returned or served.
    pub stores: Vec<PackedStore>,
}

// Where the free entries begin, and the next used position.
#[derive(Clone, Copy)]
pub(crate) struct Place {
    pub(crate) free_head: u16,
    pub(crate) used: PackedPosition,
}

// Whether flags say that a slot is available to a device with this wrap counter.
fn is_available(flags: u16, wrap: bool) -> bool
    ensures { result ≡ is_available flags wrap }
{
    flags & AVAIL_AND_USED == if wrap { 0x80 } else { 0x8000 }
}

// Whether two positions are the same.
fn is_same(first: PackedPosition, second: PackedPosition) -> bool
    ensures { result ≡ is_same first second }
{
    first.slot == second.slot
        && (if first.wrap {
            second.wrap
        } else {
            !second.wrap
        })
}

fn header_fault(
    header: PackedHeader,
    base: PackedPosition,
    descriptors: u16,
    size: u16,
) -> Option<PackedStartError>
    ensures { result ≡ header_fault descriptors size header base }
{
    if header.version > 1 {
        return Some(PackedStartError::Version);
    }
    if header.version == 1 && header.desc_num != descriptors {
        return Some(PackedStartError::DescNum);
    }
    let header = taken_header(header, base);
    if header.used.slot >= size || header.old_used.slot >= size {
        return Some(PackedStartError::Position);
    }
    None
}

// The header that a start goes on from. In a fresh region each entry is free.
fn taken_header(header: PackedHeader, base: PackedPosition) -> PackedHeader
    ensures { result ≡ taken_header header base }
{
    if header.version != 0 {
        return header;
    }
    PackedHeader {
        version: 0,
        desc_num: header.desc_num,
        free_head: 0,
        old_free_head: 0,
        used: base,
        old_used: base,
    }
}

// The state after the last return if that reached the ring, and otherwise before it.
fn place_of(header: PackedHeader, flags: u16) -> Place
    ensures { result ≡ place_of header flags }
{
    if !is_same(header.used, header.old_used) && !is_available(flags, header.old_used.wrap) {
        Place {
            free_head: header.free_head,
            used: header.used,
        }
    } else {
        Place {
            free_head: header.old_free_head,
            used: header.old_used,
        }
    }
}

// Links each entry to the one after it.
fn link(entries: &mut [PackedEntry], descriptors: u16)
    requires { length entries.old ≡ descriptors }
    ensures { entries.new ≡ linked entries.old 0 descriptors }
{
    for index in 0..descriptors {
        entries[index as usize].next = index + 1;
    }
}

// The entries that a start goes on from.
fn listed(entries: &mut [PackedEntry], version: u16, descriptors: u16)
    requires { length entries.old ≡ descriptors }
    ensures { entries.new ≡ listed version entries.old }
{
    if version != 0 {
        return;
    }
    link(entries, descriptors);
}

// The free entries, in their order.
fn free_list(
    alloc: Global,
    entries: &[PackedEntry],
    descriptors: u16,
    head: u16,
) -> Result<Vec<u16>, PackedStartError>
    requires { length entries.now ≡ descriptors }
    ensures ok { IfOk result (λ free. free_list entries.now descriptors head ≡ Some free.items) }
    ensures err { IfErr result (λ e. (e ≡ PackedStartError.Memory) ⊎ ((e ≡ PackedStartError.FreeList)
        × (free_list entries.now descriptors head ≡ None))) }
{
    let mut free = Vec::new(alloc);
    let mut next = head;
    for i in 0..descriptors {
        if next == descriptors {
            return Ok(free);
        }
        if next > descriptors {
            return Err(PackedStartError::FreeList);
        }
        if let Err(error) = free.push(next) {
            return Err(AllocError::from(error).into());
        }
        next = entries[next as usize].next;
    }
    if next != descriptors {
        return Err(PackedStartError::FreeList);
    }
    Ok(free)
}

// Takes an entry for in flight no longer.
fn clear_one(entries: &mut [PackedEntry], index: u16)
    ensures { entries.new ≡ changed entries.old index (λ e. record e { in_flight = 0 }) }
{
    let index = index as usize;
    if index >= entries.len() {
        return;
    }
    entries[index].in_flight = 0;
}

// Takes these entries for in flight no longer.
fn clear(entries: &mut [PackedEntry], free: &[u16])
    ensures { entries.new ≡ cleared entries.old free.now }
{
    for index in free {
        clear_one(entries, *index);
    }
}

fn has_bad_mark(entries: &[PackedEntry]) -> bool
    ensures { result ≡ list_any (λ e. nat_lt 1 e.in_flight) entries.now }
{
    entries.iter().any(|entry| entry.in_flight > 1)
}

// Whether one of these is in flight with a count that no run reaches.
fn has_bad_count(entries: &[PackedEntry]) -> bool
    ensures { result ≡ list_any (λ e. e.in_flight == 1 && nat_le (2 ^ 63) e.counter) entries.now }
{
    entries
        .iter()
        .any(|entry| entry.in_flight == 1 && entry.counter >= 1 << 63)
}

// Takes these entries for in flight no longer, and says what is wrong with all of them.
fn clear_free(entries: &mut [PackedEntry], free: &[u16]) -> Option<PackedStartError>
    ensures fault { result ≡ entries_fault entries.old (cleared entries.old free.now) }
    ensures cleared { result ≡ None → entries.new ≡ cleared entries.old free.now }
{
    if has_bad_mark(entries) {
        return Some(PackedStartError::Mark);
    }
    clear(entries, free);
    if has_bad_count(entries) {
        return Some(PackedStartError::Counter);
    }
    None
}

// The greatest count of what is in flight.
fn greatest(entries: &[PackedEntry]) -> u64
    ensures { result ≡ greatest entries.now }
{
    entries.iter().fold(0, |most, entry| {
        most.max(if entry.in_flight == 1 {
            entry.counter
        } else {
            0
        })
    })
}

// The heads of pairs.
fn heads_of(alloc: Global, pairs: &[(u64, u16)]) -> Result<Vec<u16>, AllocError>
    ensures { IfOk result (λ heads. heads.items ≡ map (λ p. p.1) pairs.now) }
{
    pairs.iter().map(|pair| pair.1).collect(alloc)
}

// The first entries of what is in flight, in their order.
fn in_order(
    alloc: Global,
    entries: &[PackedEntry],
    descriptors: u16,
) -> Result<Vec<u16>, AllocError>
    requires { length entries.now ≡ descriptors }
    ensures { IfOk result (λ heads. IsInFlight entries.now heads.items) }
{
    let mut pairs = Vec::new(alloc);
    for head in 0..descriptors {
        let entry = entries[head as usize];
        if entry.in_flight == 1 {
            pairs.push((entry.counter, head))?;
        }
    }
    pairs.sort_unstable();
    let heads = heads_of(alloc, &pairs)?;
    Ok(heads)
}

// Which entries are free.
fn seen_of(alloc: Global, free: &[u16], descriptors: u16) -> Result<Vec<bool>, AllocError>
    ensures { IfOk result (λ seen. seen.items ≡ seen_too (replicate descriptors false) free.now) }
{
    let mut seen = vec![in alloc; false; descriptors as usize]?;
    mark(&mut seen, free);
    Ok(seen)
}

// Marks an entry as seen.
fn mark_one(seen: &mut [bool], index: u16)
    ensures { seen.new ≡ slice_set seen.old index true }
{
    let index = index as usize;
    if index >= seen.len() {
        return;
    }
    seen[index] = true;
}

// Marks these as seen.
fn mark(seen: &mut [bool], indices: &[u16])
    ensures { seen.new ≡ seen_too seen.old indices.now }
{
    for index in indices {
        mark_one(seen, *index);
    }
}

// Whether an entry was seen before, or is outside.
fn is_taken(seen: &[bool], index: u16) -> bool
    ensures taken { result ≡ slice_index_or seen.now index true }
    ensures inside { result ≡ false → index < length seen.now }
{
    let index = index as usize;
    if index >= seen.len() {
        return true;
    }
    seen[index]
}

// Appends the descriptors of a chain, and gives its last entry.
fn follow(
    entries: &[PackedEntry],
    seen: &mut [bool],
    copies: &mut Vec<PackedCopy>,
    head: u16,
    num: u16,
) -> Result<u16, PackedStartError>
    requires { length seen.old ≡ length entries.now }
    ensures ok { IfOk result (λ last. (last ≡ last_of head (walk entries.now num head))
        × (repeats seen.old (walk entries.now num head) ≡ false)
        × (seen.new ≡ seen_too seen.old (walk entries.now num head))
        × (copies.new.items ≡ copies.old.items ++ copies_of entries.now (walk entries.now num head))) }
    ensures err { IfErr result (λ e. (e ≡ PackedStartError.Memory) ⊎ ((e ≡ PackedStartError.Shared)
        × (repeats seen.old (walk entries.now num head) ≡ true))) }
{
    let mut last = head;
    let mut next = head;
    for i in 0..num {
        if is_taken(seen, next) {
            return Err(PackedStartError::Shared);
        }
        mark_one(seen, next);
        let entry = entries[next as usize];
        let copy = PackedCopy {
            id: entry.id,
            flags: entry.flags,
            len: entry.len,
            addr: entry.addr,
        };
        if let Err(error) = copies.push(copy) {
            return Err(AllocError::from(error).into());
        }
        last = next;
        next = entry.next;
    }
    Ok(last)
}

// Takes up a chain, where so many slots are left, and gives their number without it.
fn take_chain(
    entries: &[PackedEntry],
    seen: &mut [bool],
    copies: &mut Vec<PackedCopy>,
    head: u16,
    room: u16,
) -> Result<u16, PackedStartError>
    requires { length seen.old ≡ length entries.now }
    ensures ok { IfOk result (λ left. (chain_fault entries.now seen.old room head ≡ None)
        × (left + num_of entries.now head ≡ room)
        × (seen.new ≡ seen_too seen.old (nodes_of entries.now head))
        × (copies.new.items ≡ copies.old.items ++ copies_of entries.now (nodes_of entries.now head))) }
    ensures err { IfErr result (λ e. (e ≡ PackedStartError.Memory)
        ⊎ (chain_fault entries.now seen.old room head ≡ Some e)) }
{
    let Some(entry) = entries.get(head as usize).copied() else {
        return Err(PackedStartError::ChainLen);
    };
    if entry.num == 0 || entry.num > room {
        return Err(PackedStartError::ChainLen);
    }
    let last = follow(entries, seen, copies, head, entry.num)?;
    if last != entry.last {
        return Err(PackedStartError::Last);
    }
    Ok(room - entry.num)
}

// The chains in flight.
#[derive(Drop)]
pub(crate) struct Taken {
    pub(crate) again: Vec<PackedAgain>,
    pub(crate) copies: Vec<PackedCopy>,
    // How many slots they have.
    pub(crate) slots: u16,
}

fn take_up(
    alloc: Global,
    entries: &[PackedEntry],
    seen: &mut [bool],
    heads: &[u16],
    size: u16,
) -> Result<Taken, PackedStartError>
    requires { length seen.old ≡ length entries.now }
    ensures ok { IfOk result (λ t. (chains_fault entries.now seen.old size heads.now ≡ None)
        × TakesUp entries.now heads.now t) }
    ensures err { IfErr result (λ e. (e ≡ PackedStartError.Memory)
        ⊎ (chains_fault entries.now seen.old size heads.now ≡ Some e)) }
{
    let mut again = Vec::new(alloc);
    let mut copies = Vec::new(alloc);
    let mut room = size;
    for head in heads {
        let left = take_chain(entries, seen, &mut copies, *head, room)?;
        let chain = PackedAgain {
            head: *head,
            len: room - left,
        };
        if let Err(error) = again.push(chain) {
            return Err(AllocError::from(error).into());
        }
        room = left;
    }
    Ok(Taken {
        again,
        copies,
        slots: size - room,
    })
}

// Appends the stores that link each entry to the one after it.
fn push_links(stores: &mut Vec<PackedStore>, descriptors: u16) -> Result<(), AllocError>
    ensures { OnOk result (stores.new.items ≡ stores.old.items ++ link_stores 0 descriptors) }
{
    for index in 0..descriptors {
        stores.push(PackedStore::Next(index, index + 1))?;
    }
    Ok(())
}

// What a fresh region takes first.
fn fresh_stores(
    alloc: Global,
    version: u16,
    descriptors: u16,
) -> Result<Vec<PackedStore>, AllocError>
    ensures { IfOk result (λ stores. stores.items ≡ fresh_stores descriptors version) }
{
    let mut stores = Vec::new(alloc);
    if version != 0 {
        return Ok(stores);
    }
    stores.push(PackedStore::DescNum(descriptors))?;
    push_links(&mut stores, descriptors)?;
    Ok(stores)
}

// Appends the stores by which a place is the old one and the new one, and what is free is not in flight.
fn settle(stores: &mut Vec<PackedStore>, place: Place, free: &[u16]) -> Result<(), AllocError>
    ensures { OnOk result (stores.new.items ≡ stores.old.items ++ settle_stores place free.now) }
{
    stores.push(PackedStore::OldFreeHead(place.free_head))?;
    stores.push(PackedStore::FreeHead(place.free_head))?;
    stores.push(PackedStore::Used(place.used, place.used))?;
    for index in free {
        stores.push(PackedStore::InFlight(*index, false))?;
    }
    Ok(())
}

fn start_stores(
    alloc: Global,
    version: u16,
    place: Place,
    free: &[u16],
    descriptors: u16,
) -> Result<Vec<PackedStore>, AllocError>
    ensures { IfOk result (λ stores. stores.items ≡ start_stores descriptors version place free.now) }
{
    let mut stores = fresh_stores(alloc, version, descriptors)?;
    settle(&mut stores, place, free)?;
    if version != 0 {
        return Ok(stores);
    }
    stores.push(PackedStore::Version(1))?;
    Ok(stores)
}

// The free entries of a region, and all of them once none of those is in flight.
#[derive(Drop)]
pub(crate) struct Opened {
    pub(crate) entries: Vec<PackedEntry>,
    pub(crate) free: Vec<u16>,
    pub(crate) place: Place,
}

fn open(
    alloc: Global,
    header: PackedHeader,
    mut entries: Vec<PackedEntry>,
    descriptors: u16,
    size: u16,
    base: PackedPosition,
    flags: u16,
) -> Result<Opened, PackedStartError>
    requires { length entries.items ≡ descriptors }
    ensures ok { IfOk result
        (Opens descriptors size (record { header = header; entries = entries.items }) base flags) }
    ensures err { IfErr result (λ e. (e ≡ PackedStartError.Memory)
        ⊎ (opening_fault descriptors size (record { header = header; entries = entries.items }) base flags ≡ Some e)) }
{
    if let Some(error) = header_fault(header, base, descriptors, size) {
        return Err(error);
    }
    listed(&mut entries, header.version, descriptors);
    let place = place_of(taken_header(header, base), flags);
    let free = free_list(alloc, &entries, descriptors, place.free_head)?;
    if let Some(error) = clear_free(&mut entries, &free) {
        return Err(error);
    }
    Ok(Opened {
        entries,
        free,
        place,
    })
}

// The same as `start_packed`, by what the region says.
fn start_from(
    alloc: Global,
    header: PackedHeader,
    entries: Vec<PackedEntry>,
    descriptors: u16,
    size: u16,
    base: PackedPosition,
    flags: u16,
) -> Result<PackedStart, PackedStartError>
    requires { length entries.items ≡ descriptors }
    ensures ok { IfOk result
        (Starts descriptors size (record { header = header; entries = entries.items }) base flags) }
    ensures err { IfErr result (λ e. (e ≡ PackedStartError.Memory)
        ⊎ StartFails descriptors size (record { header = header; entries = entries.items }) base flags e) }
{
    let opened = open(alloc, header, entries, descriptors, size, base, flags)?;
    let heads = in_order(alloc, &opened.entries, descriptors)?;
    let mut seen = seen_of(alloc, &opened.free, descriptors)?;
    let taken = match take_up(alloc, &opened.entries, &mut seen, &heads, size) {
        Ok(taken) => taken,
        Err(error) => return Err(error),
    };
    let place = opened.place;
    let stores = start_stores(alloc, header.version, place, &opened.free, descriptors)?;
    let count = greatest(&opened.entries);
    Ok(PackedStart {
        in_flight: PackedInFlight::new(opened.entries, place.free_head, place.used, size, count),
        again: taken.again,
        copies: taken.copies,
        next_avail: place.used.moved(size, taken.slots),
        next_used: place.used,
        stores,
    })
}

/// Where a queue goes on, by a copy of its region: which chains to serve again, where the next one is popped and
/// returned, and what to store to the region first. The region was made for `descriptors`, and the ring has `size` of
/// them. `base` is where the front end lets the ring begin, and counts for a fresh region alone. `flags` are those of
/// the slot that `packed_old_slot` names, and anything if it names none.
///
/// It may be called again after a crash, also one among its stores. A region that nobody could have written is refused,
/// and whatever it says, no entry is outside of the region and no slot outside of the ring.
pub fn start_packed(
    alloc: Global,
    bytes: &[u8],
    descriptors: u16,
    size: u16,
    base: PackedPosition,
    flags: u16,
) -> Result<PackedStart, PackedStartError>
    ensures ok { IfOk result (Starts descriptors size (region_of descriptors bytes.now) base flags) }
    ensures sound { OnOk result (start_fault descriptors size bytes.now ≡ None) }
    // It gives up only for want of memory, or for the fault.
    ensures err { IfErr result (λ e. (e ≡ PackedStartError.Memory)
        ⊎ ((start_fault descriptors size bytes.now ≡ Some e)
        ⊎ ((start_fault descriptors size bytes.now ≡ None)
        × StartFails descriptors size (region_of descriptors bytes.now) base flags e))) }
{
    if bytes.len() < PACKED_HEADER_LEN + PACKED_ENTRY_LEN * descriptors as usize {
        return Err(PackedStartError::TooShort);
    }
    if descriptors < size {
        return Err(PackedStartError::RingSize);
    }
    let header = header_in(bytes);
    let entries = entries_in(alloc, bytes, descriptors)?;
    start_from(alloc, header, entries, descriptors, size, base, flags)
}
