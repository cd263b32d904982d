//! What a back end keeps of the region of a packed queue, and what it stores there at each pop and each return.
ghost use Rattle.std.specs.Prelude.{◌≡◌, ◌+◌, ◌*◌, None, Some, if◌then◌else◌};
ghost use Rattle.vhost_inflight.specs.Packed.{add_stores, after_add, after_begin_pop, after_end_pop, after_return};
ghost use Rattle.vhost_inflight.specs.Packed.{begin_pop_stores, begin_return_stores, can_add, can_begin_pop};
ghost use Rattle.vhost_inflight.specs.Packed.{can_end_pop, can_return, end_pop_stores, end_return_stores, kept_of};
ghost use Rattle.vhost_inflight.specs.Packed.{place};
ghost use Rattle.vhost_inflight.specs.declared.store.Value.TheVariants.{Quad, Word};

use crate::packed_region::{PackedCopy, PackedEntry, PackedPosition};
use crate::store::{Store, Value};

const FREE_HEAD: usize = 12;

const OLD_FREE_HEAD: usize = 14;

// The used position and the old one lie in the 8 bytes from here on.
const USED: usize = 16;

/// A store to a field of a packed queue's region.
#[derive(Clone, Copy, Debug, PartialEq, Eq)]
pub enum PackedStore {
    /// How many entries the chain has that begins at an entry.
    Num(u16, u16),
    /// The count of the chain that begins at an entry, which orders what is in flight.
    Counter(u16, u64),
    /// Whether an entry is the first one of a chain in flight.
    InFlight(u16, bool),
    /// The last entry of the chain that begins at an entry.
    Last(u16, u16),
    /// The entry after an entry.
    Next(u16, u16),
    /// An entry's copy of a descriptor: its id, flags and length.
    Buffer(u16, u16, u16, u32),
    /// An entry's copy of a descriptor: its address.
    Addr(u16, u64),
    /// The first free entry.
    FreeHead(u16),
    /// The first free entry, once nothing is left to do for what was popped or returned.
    OldFreeHead(u16),
    /// The used position, and the same once nothing is left to do for what was returned.
    Used(PackedPosition, PackedPosition),
    /// How many descriptors the region has.
    DescNum(u16),
    /// The version of the layout: 1, or 0 in a fresh region.
    Version(u16),
}

// Where the bytes of an entry begin.
fn entry_offset(index: u16) -> usize
    ensures { result ≡ 32 + 32 * index }
{
    32 + 32 * index as usize
}

fn word(offset: usize, value: u16) -> Store
    ensures { result ≡ record { offset = offset; value = Word value } }
{
    Store {
        offset,
        value: Value::Word(value),
    }
}

fn quad(offset: usize, value: u64) -> Store
    ensures { result ≡ record { offset = offset; value = Quad value } }
{
    Store {
        offset,
        value: Value::Quad(value),
    }
}

impl PackedStore {
    /// The store to the region's bytes.
    pub fn place(self) -> Store
        ensures { result ≡ place self }
    {
        match self {
            PackedStore::Num(index, num) => word(entry_offset(index) + 6, num),
            PackedStore::Counter(index, count) => quad(entry_offset(index) + 8, count),
            PackedStore::InFlight(index, is) => Store {
                offset: entry_offset(index),
                value: Value::Byte(u8::from(is)),
            },
            PackedStore::Last(index, last) => word(entry_offset(index) + 4, last),
            PackedStore::Next(index, next) => word(entry_offset(index) + 2, next),
            PackedStore::Buffer(index, id, flags, len) => quad(
                entry_offset(index) + 16,
                u64::from(id) + 0x1_0000 * u64::from(flags) + 0x1_0000_0000 * u64::from(len),
            ),
            PackedStore::Addr(index, addr) => quad(entry_offset(index) + 24, addr),
            PackedStore::FreeHead(index) => word(FREE_HEAD, index),
            PackedStore::OldFreeHead(index) => word(OLD_FREE_HEAD, index),
            PackedStore::Used(used, old) => quad(
                USED,
                u64::from(used.slot)
                    + 0x1_0000 * u64::from(old.slot)
                    + 0x1_0000_0000 * u64::from(used.wrap)
                    + 0x100_0000_0000 * u64::from(old.wrap),
            ),
            PackedStore::DescNum(count) => word(10, count),
            PackedStore::Version(version) => word(8, version),
        }
    }
}

/// What a back end keeps of the region of a packed queue: its own copy of what it stored. It reads the region at a
/// start, and not again: other processes may write there.
#[derive(Debug, Drop)]
pub struct PackedInFlight {
    entries: Vec<PackedEntry>,
    // The first free entry. While a chain is popped, the chain begins there.
    free_head: u16,
    // While a chain is popped, the entry of its next descriptor.
    next_free: u16,
    // Where the next chain is returned.
    used: PackedPosition,
    // How many slots the ring has.
    size: u16,
    // The count of the chain that was popped last.
    count: u64,
}

impl PackedInFlight {
    // What a start goes on from.
    pub(crate) fn new(
        entries: Vec<PackedEntry>,
        free_head: u16,
        used: PackedPosition,
        size: u16,
        count: u64,
    ) -> PackedInFlight
        ensures { kept_of result ≡ record {
          entries = entries.items;
          free_head = free_head;
          next_free = free_head;
          used = used;
          size = size;
          count = count;
        } }
    {
        PackedInFlight {
            entries,
            free_head,
            next_free: free_head,
            used,
            size,
            count,
        }
    }

    /// A chain is about to be popped: what to store first. None if no entry is free, and then nothing changes. A pop
    /// that was begun and not ended counts for nothing.
    pub fn begin_pop(&mut self) -> Option<[PackedStore; 2]>
        ensures stores { result ≡ (if can_begin_pop (kept_of self.old)
            then Some (begin_pop_stores (kept_of self.old)) else None) }
        ensures kept { kept_of self.new ≡ after_begin_pop (kept_of self.old) }
    {
        let head = self.free_head;
        if head as usize >= self.entries.len() {
            return None;
        }
        let count = self.count.saturating_add(1);
        let entry = &mut self.entries[head as usize];
        entry.num = 0;
        entry.counter = count;
        self.count = count;
        self.next_free = head;
        Some([PackedStore::Num(head, 0), PackedStore::Counter(head, count)])
    }

    /// The entry at which the chain begins that is being popped. It names the chain from then on.
    pub fn head(&self) -> u16
        ensures { result ≡ (kept_of self.now).free_head }
    {
        self.free_head
    }

    /// The chain that is being popped has this descriptor next: what to store. None if no entry is free, and then
    /// nothing changes.
    pub fn add(&mut self, descriptor: PackedCopy) -> Option<[PackedStore; 5]>
        ensures stores { result ≡ (if can_add (kept_of self.old)
            then Some (add_stores (kept_of self.old) descriptor) else None) }
        ensures kept { kept_of self.new ≡ after_add (kept_of self.old) descriptor }
    {
        let head = self.free_head;
        let free = self.next_free;
        if head as usize >= self.entries.len() || free as usize >= self.entries.len() {
            return None;
        }
        let entry = &mut self.entries[head as usize];
        let num = entry.num.saturating_add(1);
        entry.num = num;
        entry.last = free;
        let entry = &mut self.entries[free as usize];
        let next = entry.next;
        entry.id = descriptor.id;
        entry.flags = descriptor.flags;
        entry.len = descriptor.len;
        entry.addr = descriptor.addr;
        self.next_free = next;
        Some([
            PackedStore::Num(head, num),
            PackedStore::Last(head, free),
            PackedStore::Buffer(free, descriptor.id, descriptor.flags, descriptor.len),
            PackedStore::Addr(free, descriptor.addr),
            PackedStore::FreeHead(next),
        ])
    }

    /// The chain is popped: what to store before it is served. None if it was not begun, and then nothing changes.
    pub fn end_pop(&mut self) -> Option<[PackedStore; 2]>
        ensures stores { result ≡ (if can_end_pop (kept_of self.old)
            then Some (end_pop_stores (kept_of self.old)) else None) }
        ensures kept { kept_of self.new ≡ after_end_pop (kept_of self.old) }
    {
        let head = self.free_head;
        if head as usize >= self.entries.len() {
            return None;
        }
        // Only now is it in flight, so that a pop that is given up leaves no mark among the free entries.
        self.entries[head as usize].in_flight = 1;
        self.free_head = self.next_free;
        Some([
            PackedStore::InFlight(head, true),
            PackedStore::OldFreeHead(self.next_free),
        ])
    }

    /// The chain that begins at an entry is served: what to store before the ring's used descriptor, and what after it.
    /// None if there is no such chain in flight, and then nothing changes.
    pub fn begin_return(&mut self, head: u16) -> Option<PackedReturn>
        ensures stores { result ≡ (if can_return (kept_of self.old) head
            then Some (record {
              before = begin_return_stores (kept_of self.old) head;
              after = end_return_stores (kept_of self.old) head;
            }) else None) }
        ensures kept { kept_of self.new ≡ after_return (kept_of self.old) head }
    {
        if head as usize >= self.entries.len() {
            return None;
        }
        let entry = self.entries[head as usize];
        if entry.in_flight != 1 || entry.last as usize >= self.entries.len() {
            return None;
        }
        let free = self.free_head;
        let old = self.used;
        let used = old.moved(self.size, entry.num);
        self.entries[entry.last as usize].next = free;
        self.entries[head as usize].in_flight = 0;
        self.free_head = head;
        self.used = used;
        Some(PackedReturn {
            before: [
                PackedStore::Next(entry.last, free),
                PackedStore::FreeHead(head),
                PackedStore::Used(used, old),
            ],
            after: [
                PackedStore::InFlight(head, false),
                PackedStore::OldFreeHead(head),
                PackedStore::Used(used, used),
            ],
        })
    }
}

/// What to store when a chain is returned.
#[derive(Clone, Copy, Debug, PartialEq, Eq)]
pub struct PackedReturn {
    /// Before the ring's used descriptor: its id and length, and then its flags.
    pub before: [PackedStore; 3],
    /// After its flags.
    pub after: [PackedStore; 3],
}
