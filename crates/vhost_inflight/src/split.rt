//! What a back end keeps of the region of a split queue, and what it stores there at each pop and each return.
ghost use Rattle.std.specs.Prelude.{◌≡◌, ◌+◌, ◌*◌};
ghost use Rattle.vhost_inflight.specs.Split.{after_pop, after_return, begin_return_stores, end_return_stores, place};
ghost use Rattle.vhost_inflight.specs.Split.{pop_stores};

use crate::store::{Store, Value};

const LAST_BATCH_HEAD: usize = 12;

const USED_IDX: usize = 14;

/// A store to a field of a split queue's region.
#[derive(Clone, Copy, Debug, PartialEq, Eq)]
pub enum SplitStore {
    /// The count of a descriptor, which orders what is in flight.
    Counter(u16, u64),
    /// Whether a descriptor is the head of a chain in flight.
    InFlight(u16, bool),
    /// The head that was returned before this one.
    Next(u16, u16),
    /// The head that was returned last.
    LastBatchHead(u16),
    /// The ring's used index, once nothing is left to do for what was returned.
    UsedIdx(u16),
    /// How many descriptors the region has.
    DescNum(u16),
    /// The version of the layout: 1, or 0 in a fresh region.
    Version(u16),
}

// Where the bytes of a descriptor begin.
fn entry_offset(head: u16) -> usize
    ensures { result ≡ 16 + 16 * head }
{
    16 + 16 * head as usize
}

impl SplitStore {
    /// The store to the region's bytes.
    pub fn place(self) -> Store
        ensures { result ≡ place self }
    {
        match self {
            SplitStore::Counter(head, count) => Store {
                offset: entry_offset(head) + 8,
                value: Value::Quad(count),
            },
            SplitStore::InFlight(head, is) => Store {
                offset: entry_offset(head),
                value: Value::Byte(u8::from(is)),
            },
            SplitStore::Next(head, next) => Store {
                offset: entry_offset(head) + 6,
                value: Value::Word(next),
            },
            SplitStore::LastBatchHead(head) => Store {
                offset: LAST_BATCH_HEAD,
                value: Value::Word(head),
            },
            SplitStore::UsedIdx(used_idx) => Store {
                offset: USED_IDX,
                value: Value::Word(used_idx),
            },
            SplitStore::DescNum(count) => Store {
                offset: 10,
                value: Value::Word(count),
            },
            SplitStore::Version(version) => Store {
                offset: 8,
                value: Value::Word(version),
            },
        }
    }
}

/// What a back end keeps of the region of a split queue. It reads the region at a start, and not again: other
/// processes may write there.
#[derive(Clone, Copy, Debug, PartialEq, Eq)]
pub struct SplitInFlight {
    // The head that was returned last.
    last_batch_head: u16,
    // The count of the chain that was popped last.
    count: u64,
}

impl SplitInFlight {
    // What a start goes on from.
    pub(crate) fn new(last_batch_head: u16, count: u64) -> SplitInFlight
        ensures { result ≡ record { last_batch_head = last_batch_head; count = count } }
    {
        SplitInFlight {
            last_batch_head,
            count,
        }
    }

    /// A chain with this head is popped: what to store before it is served.
    pub fn pop(&mut self, head: u16) -> [SplitStore; 2]
        ensures stores { result ≡ pop_stores self.old head }
        ensures kept { self.new ≡ after_pop self.old }
    {
        self.count = self.count.saturating_add(1);
        [
            SplitStore::Counter(head, self.count),
            SplitStore::InFlight(head, true),
        ]
    }

    /// The chain with this head is served: what to store before the ring's used entry and used index.
    pub fn begin_return(&mut self, head: u16) -> [SplitStore; 2]
        ensures stores { result ≡ begin_return_stores self.old head }
        ensures kept { self.new ≡ after_return self.old head }
    {
        let last = self.last_batch_head;
        self.last_batch_head = head;
        [
            SplitStore::Next(head, last),
            SplitStore::LastBatchHead(head),
        ]
    }

    /// What to store after the ring's used index, which has this value now.
    pub fn end_return(&self, head: u16, used_idx: u16) -> [SplitStore; 2]
        ensures { result ≡ end_return_stores head used_idx }
    {
        [
            SplitStore::InFlight(head, false),
            SplitStore::UsedIdx(used_idx),
        ]
    }
}
