//! Wanted ranges of I/O addresses, which are taken from a table piece by piece, as their mappings come.
ghost use Rattle.std.specs.Prelude.{◌≡◌, ◌↔◌, ℕ, ◌+◌, ◌<◌, ◌∷◌, ◌++◌, [], All, IfNone, IfSome, IsTrue, List, length};
ghost use Rattle.vm_memory_base.specs.Table.{says};
ghost use Rattle.vhost_iotlb.specs.Kept.{IsCurrent, IsReal};
ghost use Rattle.vhost_iotlb.specs.Taking.{AreReal, Covers, StopsAt, TakingState, left};
ghost use Rattle.vhost_iotlb.specs.declared.kept.Kept.{Kept};

use crate::kept::Kept;
use crate::leads::{Lead, lead_of};
use std::marker::Model;
use vm_memory_base::{Iotlb, Permissions};

/// A range of I/O addresses that is wanted for an access.
#[derive(Clone, Copy, Debug, PartialEq, Eq)]
pub struct Want {
    /// The first I/O address.
    pub iova: u64,
    /// How many bytes there are.
    pub len: u64,
    /// What they are wanted for.
    pub access: Permissions,
}

/// How far wanted ranges are taken.
#[derive(Clone, Copy, Debug, PartialEq, Eq)]
pub enum Progress {
    /// All of them are.
    Whole,
    /// This I/O address has no mapping, and is wanted for this access.
    Misses(u64, Permissions),
    /// The mapping of this I/O address forbids the access that it is wanted for.
    Bars(u64, Permissions),
    /// As many ranges are kept as may be.
    TooMany,
    /// An allocation failed.
    NoMemory,
}

/// Wanted ranges, and what was taken of them: each byte once, in order. What was taken is not looked up again, so the
/// table may evict its mapping.
#[derive(Debug, Drop)]
pub struct Taking {
    wants: Vec<Want>,
    // The wanted range that is next, and how many of its bytes are taken.
    next: usize,
    from: u64,
    kept: Vec<Kept>,
}

impl Model for Taking {
    ghost use Rattle.std.specs.Prelude.{◌≡◌, All, drop};
    ghost use Rattle.vhost_iotlb.specs.Kept.{IsReal};
    ghost use Rattle.vhost_iotlb.specs.Taking.{AreReal, Covers, TakingState, left};

    ghost Value = { TakingState };

    ghost view = { λ t. record { wants = t.wants.items; kept = t.kept.items } };

    ghost invariant = { λ t. AreReal t.wants.items × Covers t.wants.items 0 t.kept.items
        × (left t.wants.items 0 t.kept.items ≡ (drop t.next t.wants.items, t.from)) × All IsReal t.kept.items };
}

impl Taking {
    /// Nothing is taken of these ranges yet. What is taken goes into the vector `kept`, which is
    /// cleared.
    pub fn new(wants: Vec<Want>, mut kept: Vec<Kept>) -> Taking
        requires { AreReal wants.items }
        ensures { result ≡ record { wants = wants.items; kept = [] } }
    {
        kept.clear();
        Taking {
            wants,
            next: 0,
            from: 0,
            kept,
        }
    }

    /// Lends what was taken: the first bytes of what is wanted.
    pub fn kept(&self) -> &[Kept]
        ensures lent { result.now ≡ self.now.kept }
        ensures covers { Covers self.now.wants 0 self.now.kept }
        ensures real { All IsReal self.now.kept }
    {
        self.kept.as_slice()
    }

    /// Gives back what was taken: the first bytes of what is wanted.
    pub fn into_kept(self) -> Vec<Kept>
        ensures given { result.items ≡ self.kept }
        ensures covers { Covers self.wants 0 self.kept }
        ensures real { All IsReal self.kept }
    {
        let Taking { kept, .. } = self;
        kept
    }

    // Whether all is taken.
    fn is_whole(&self) -> bool
        ensures { IsTrue result ↔ ((left self.now.wants 0 self.now.kept).0 ≡ []) }
    {
        self.next >= self.wants.len()
    }

    // Takes one more range, or stops.
    fn take_next(&mut self, table: &Iotlb) -> Option<Progress>
        ensures wants { self.new.wants ≡ self.old.wants }
        ensures takes { IfNone result ((k : Kept) × (self.new.kept ≡ self.old.kept ++ k ∷ [])
            × IsCurrent (says table.now) k) }
        ensures stops { IfSome result (λ t. (self.new.kept ≡ self.old.kept) × ((most : ℕ)
            → StopsAt (says table.now) most (length self.new.kept) (left self.new.wants 0 self.new.kept) t)) }
    {
        if self.next >= self.wants.len() {
            return Some(Progress::Whole);
        }
        let want = self.wants[self.next];
        let iova = want.iova + self.from;
        match lead_of(table, iova, want.len - self.from, want.access) {
            Lead::To(base, len) => {
                let one = Kept {
                    iova,
                    base,
                    len,
                    access: want.access,
                };
                let Ok(()) = self.kept.push(one) else {
                    return Some(Progress::NoMemory);
                };
                self.from += len;
                if self.from == want.len {
                    self.next += 1;
                    self.from = 0;
                }
                None
            }
            Lead::Missed => Some(Progress::Misses(iova, want.access)),
            Lead::Forbidden => Some(Progress::Bars(iova, want.access)),
        }
    }

    /// Takes what the table has of the wanted ranges, from the first byte that is not taken yet on, while fewer than
    /// `most` ranges are kept, and returns why it stopped there.
    ///
    /// Leaves open: `NoMemory` each time that some could be taken. What was taken until then is kept.
    pub fn go_on(&mut self, table: &Iotlb, most: usize) -> Progress
        ensures wants { self.new.wants ≡ self.old.wants }
        ensures takes { (ks : List Kept) × (self.new.kept ≡ self.old.kept ++ ks) × All (IsCurrent (says table.now)) ks }
        ensures stops { StopsAt (says table.now) most (length self.new.kept) (left self.new.wants 0 self.new.kept)
            result }
    {
        while self.kept().len() < most {
            if let Some(progress) = self.take_next(table) {
                return progress;
            }
        }
        if self.is_whole() {
            Progress::Whole
        } else {
            Progress::TooMany
        }
    }
}
