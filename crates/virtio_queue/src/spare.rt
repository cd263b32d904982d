//! Lists of chains that were returned, for those that are popped later.
use std::alloc::Global;
use vm_memory_device::{Chain, Segment};

/// Lists for segments, so that what serves a queue allocates none in its steady state. No answer depends on them.
///
/// A driver decides how long lists become. Those that are kept, and those of chains in flight, have room for four times
/// the descriptors that may be in flight: a list that grew has room for at most that of each of its descriptors.
#[derive(Drop)]
pub struct SpareLists {
    /// The list of the next chain.
    pub next: Vec<Segment>,
    others: Vec<Vec<Segment>>,
    // How many segments the others and the lists of chains in flight have room for, and how many at most if one is
    // kept.
    room: usize,
    most: usize,
}

impl SpareLists {
    /// No lists, for a queue of which at most `most` descriptors may be in flight.
    #[inline]
    pub fn new(alloc: Global, most: usize) -> SpareLists {
        SpareLists {
            next: Vec::new(alloc),
            others: Vec::new(alloc),
            room: 0,
            most: most.saturating_mul(4),
        }
    }

    /// Counts a chain in flight, which took the list of the next one.
    #[inline(always)]
    pub fn take(&mut self, chain: &Chain) {
        self.room = self.room.saturating_add(chain.capacity());
        if let Some(list) = self.others.pop() {
            self.room = self.room.saturating_sub(list.capacity());
            self.next = list;
        }
    }

    /// Keeps the list of a chain that was in flight, if it may.
    #[inline(always)]
    pub fn give(&mut self, chain: Chain) {
        let list = chain.into_segments();
        let room = list.capacity();
        if self.room > self.most {
            self.room = self.room.saturating_sub(room);
        } else if self.next.capacity() == 0 {
            self.room = self.room.saturating_sub(room);
            self.next = list;
        } else if self.others.push(list).is_err() {
            self.room = self.room.saturating_sub(room);
        }
    }

    /// Keeps the list of a chain that is not in flight, which took that of the next one.
    #[inline]
    pub fn put_back(&mut self, chain: Chain) {
        self.next = chain.into_segments();
    }

    /// Forgets the chains in flight, which were dropped.
    pub fn reset(&mut self) {
        self.others.clear();
        self.room = 0;
    }
}
