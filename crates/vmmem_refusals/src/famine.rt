//! Failed allocations, made by hand.

use std::alloc::{AllocError, Global};

// How many parts of the memory are kept back, and of how many bytes.
const PARTS: usize = 0x400;

const PART: usize = 0x1_0000;

// The most vectors that are taken.
const ROOM: usize = 0x2_0000;

/// The most bytes that a call may be left.
pub const MOST: usize = 0x1_8000;

/// How many bytes more a call is left each time. The allocator takes as many for each request, or more, so that none is
/// passed over.
pub const STEP: usize = 32;

/// All memory that the process may have is taken, except some that is kept back for what is made and called.
///
/// What is taken lies in vectors that are never written, since a build may leave out memory that nothing holds.
#[derive(Drop)]
pub struct Famine {
    alloc: Global,
    taken: Vec<Vec<u8>>,
    filled: Vec<Vec<u8>>,
    spare: Vec<Vec<u8>>,
}

impl Famine {
    /// Takes all memory but what is kept back.
    pub fn new(alloc: Global) -> Result<Famine, AllocError> {
        let mut famine = Famine {
            alloc,
            taken: Vec::with_capacity(alloc, ROOM)?,
            filled: Vec::with_capacity(alloc, ROOM)?,
            spare: Vec::with_capacity(alloc, 1)?,
        };
        take(alloc, &mut famine.filled, PARTS, PART);
        take_by_halves(alloc, &mut famine.taken, 0x2000_0000_0000);
        famine.filled.clear();
        Ok(famine)
    }

    /// Takes what was kept back, too, and leaves about this many bytes.
    pub fn begin(&mut self, left: usize) -> Result<(), AllocError> {
        self.spare.push(Vec::with_capacity(self.alloc, MOST)?)?;
        take_by_halves(self.alloc, &mut self.filled, PARTS * PART);
        // The allocator keeps small pieces that were given back apart, by their sizes.
        for step in 0..67usize {
            take(self.alloc, &mut self.filled, ROOM, 8 + 16 * step);
        }
        self.spare.clear();
        self.spare
            .push(Vec::with_capacity(self.alloc, MOST.saturating_sub(left))?)?;
        Ok(())
    }

    /// Gives back what was kept back.
    pub fn end(&mut self) {
        self.spare.clear();
        self.filled.clear();
    }
}

// Takes so many vectors of a size, or as many as there is memory and room for.
fn take(alloc: Global, vectors: &mut Vec<Vec<u8>>, count: usize, size: usize) {
    for _ in 0..count {
        let Ok(vector) = Vec::with_capacity(alloc, size) else {
            return;
        };
        if vectors.push(vector).is_err() {
            return;
        }
    }
}

// Takes all memory in vectors of a size, of the half of it, and so on.
fn take_by_halves(alloc: Global, vectors: &mut Vec<Vec<u8>>, greatest: usize) {
    for halvings in 0..42usize {
        take(alloc, vectors, ROOM, (greatest >> halvings).max(16));
    }
}
