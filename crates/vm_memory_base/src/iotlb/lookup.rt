//! What a look-up gives: the pieces that it leads to, or what it misses and what fails.
ghost use Rattle.std.specs.Prelude.{◌≡◌, ◌+◌, ◌-◌, ◌≤◌, ◌∷◌, ◌++◌, [], List, map, IfOk, OnOk};
ghost use Rattle.std.specs.Iterator.{YieldsFirst, item_count};
ghost use Rattle.std.specs.List.{filter};
ghost use Rattle.vm_memory_base.specs.Change.{granted, gaps};
ghost use Rattle.vm_memory_base.specs.Lookup.{range_in, mapped_ranges};
ghost use Rattle.vm_memory_base.specs.Runs.{cut_onto, cut_to};
ghost use Rattle.vm_memory_base.specs.Table.{range_of, forbids};
ghost use Rattle.vm_memory_base.specs.Walk.{IsWalk, pieces_left};

use super::run_map::Runs;
use super::{IovaRange, Permissions};
use crate::address::GuestAddress;
use std::alloc::{AllocError, Global};
use std::marker::Model;
use std::slice;
use thiserror::Error;

/// A range of addresses that I/O addresses lead to: `length` of them from `base` on.
#[derive(Clone, Copy, Debug, PartialEq, Eq)]
pub struct MappedRange {
    pub base: GuestAddress,
    pub length: usize,
}

/// The pieces of a translation, in the order of the I/O addresses. A single one takes no memory.
#[derive(Debug, Drop)]
pub struct MappedRangeList {
    // The single piece, or otherwise all of them.
    one: Option<MappedRange>,
    many: Vec<MappedRange>,
}

impl Model for MappedRangeList {
    ghost use Rattle.std.specs.Prelude.{List};
    ghost use Rattle.vm_memory_base.specs.Lookup.{one_or};
    ghost use Rattle.vm_memory_base.specs.declared.iotlb.lookup.MappedRange.{MappedRange};

    ghost Value = { List MappedRange };

    ghost view = { λ l. one_or l.one l.many.items };
}

impl MappedRangeList {
    /// This piece alone. It allocates nothing.
    #[inline(always)]
    pub fn one(alloc: Global, piece: MappedRange) -> MappedRangeList
        ensures { result ≡ piece ∷ [] }
    {
        MappedRangeList {
            one: Some(piece),
            many: Vec::new(alloc),
        }
    }

    /// The pieces of a vector. It allocates nothing.
    pub fn from_vec(pieces: Vec<MappedRange>) -> MappedRangeList
        ensures { result ≡ pieces.items }
    {
        MappedRangeList {
            one: None,
            many: pieces,
        }
    }

    /// Lends the pieces as a slice.
    #[inline]
    pub fn as_slice(&self) -> &[MappedRange]
        ensures { result.now ≡ self.now }
    {
        match &self.one {
            Some(piece) => slice::from_ref(piece),
            None => self.many.as_slice(),
        }
    }
}

/// Ranges of I/O addresses, ascending.
#[derive(Debug, Drop)]
pub struct IovaRangeList {
    ranges: Vec<IovaRange>,
}

impl Model for IovaRangeList {
    ghost use Rattle.std.specs.Prelude.{List, map};
    ghost use Rattle.vm_memory_base.specs.Table.{Range};

    ghost Value = { List Range };

    ghost use Rattle.vm_memory_base.specs.Lookup.{range_in};

    ghost view = { λ l. map range_in l.ranges.items };
}

impl IovaRangeList {
    /// The ranges of a vector. It allocates nothing.
    pub fn from_vec(ranges: Vec<IovaRange>) -> IovaRangeList
        ensures { result ≡ map range_in ranges.items }
    {
        IovaRangeList { ranges }
    }

    /// Lends the ranges as a slice.
    pub fn as_slice(&self) -> &[IovaRange]
        ensures { map range_in result.now ≡ self.now }
    {
        self.ranges.as_slice()
    }

    /// Gives back the vector of the ranges.
    pub fn into_vec(self) -> Vec<IovaRange>
        ensures { map range_in result.items ≡ self }
    {
        let IovaRangeList { ranges } = self;
        ranges
    }
}

/// Why a look-up failed, by parts of the range that was asked for.
#[derive(Debug, Drop)]
pub struct IotlbFails {
    /// The parts that are not mapped.
    pub misses: IovaRangeList,
    /// The parts that are mapped, but do not permit the access.
    pub access_fails: IovaRangeList,
}

/// Why a look-up gave no pieces.
#[derive(Debug, Drop, Error)]
pub enum LookupError {
    /// A part of the range is not mapped, or its mapping does not permit the access.
    #[error("lookup failed")]
    Fails(IotlbFails),
    /// The allocation of the list of these parts failed.
    #[error("out of memory")]
    Memory,
}

/// The pieces of a look-up, in the order of the I/O addresses that lead to them.
#[derive(Debug, Drop)]
pub struct IotlbIterator<'a> {
    runs: Runs<'a>,
    at: u64,
    end: u64,
}

impl<'a> Model for IotlbIterator<'a> {
    ghost use Rattle.std.specs.Prelude.{List};
    ghost use Rattle.vm_memory_base.specs.Table.{Range};

    ghost Value = { List Range };

    ghost use Rattle.vm_memory_base.specs.Walk.{IsWalk, pieces_left};

    ghost view = { λ it. pieces_left it.at it.end it.runs };

    ghost invariant = { λ it. IsWalk it.at it.end it.runs };
}

impl<'a> IotlbIterator<'a> {
    // The pieces of the addresses from one up to another, which these runs have.
    #[inline]
    pub(super) fn new(runs: Runs<'a>, at: u64, end: u64) -> IotlbIterator<'a>
        requires { IsWalk at end runs }
        ensures { result ≡ pieces_left at end runs.entry }
    {
        IotlbIterator { runs, at, end }
    }

    // The same pieces once more.
    pub(super) fn again(&self) -> IotlbIterator<'a>
        ensures { result ≡ self.now }
    {
        IotlbIterator {
            runs: self.runs.again(),
            at: self.at,
            end: self.end,
        }
    }
}

impl<'a> Iterator for IotlbIterator<'a> {
    type Item = MappedRange;

    ghost next_gives = { YieldsFirst mapped_ranges };

    ghost remaining = { item_count mapped_ranges };

    #[inline]
    fn next(&mut self) -> Option<MappedRange> {
        if self.at >= self.end {
            return None;
        }
        let run = self.runs.next()?;
        let end = run.end().min(self.end);
        let base = GuestAddress(run.target(self.at));
        let length = (end - self.at) as usize;
        self.at = end;
        Some(MappedRange { base, length })
    }
}

// Whether runs leave no gap from one address up to another, and each permits the access.
#[inline]
pub(super) fn are_granted(runs: Runs<'_>, start: u64, end: u64, access: Permissions) -> bool
    ensures { result ≡ granted start end access runs.entry }
{
    let mut at = start;
    for run in runs {
        if run.start() > at || !run.allows(access) {
            return false;
        }
        at = run.end();
        if end <= at {
            return true;
        }
    }
    end <= at
}

// Adds the addresses from one up to another, if there are any.
fn push_range(found: &mut Vec<IovaRange>, from: u64, to: u64) -> Result<(), AllocError>
    ensures { OnOk result (map range_in found.new.items
        ≡ map range_in found.old.items ++ map range_of (cut_onto {K = Unit {0}} from to tt [])) }
{
    if from < to {
        found.push(IovaRange {
            base: GuestAddress(from),
            length: (to - from) as usize,
        })?;
    }
    Ok(())
}

// The gaps that runs leave from one address up to another.
pub(super) fn misses(
    alloc: Global,
    runs: Runs<'_>,
    start: u64,
    end: u64,
) -> Result<Vec<IovaRange>, AllocError>
    ensures { IfOk result (λ found. map range_in found.items ≡ map range_of (gaps start end runs.entry)) }
{
    let mut found = Vec::new(alloc);
    let mut at = start;
    for run in runs {
        push_range(&mut found, at, run.start().min(end))?;
        at = at.max(run.end());
    }
    push_range(&mut found, at, end)?;
    Ok(found)
}

// The runs that forbid the access, cut to the addresses from one up to another.
pub(super) fn access_fails(
    alloc: Global,
    runs: Runs<'_>,
    start: u64,
    end: u64,
    access: Permissions,
) -> Result<Vec<IovaRange>, AllocError>
    requires { start ≤ end }
    ensures { IfOk result (λ found. map range_in found.items
        ≡ map range_of (filter (λ r. forbids access r.value) (cut_to start (end - start) runs.entry))) }
{
    let mut found = Vec::new(alloc);
    for run in runs {
        if !run.allows(access) {
            push_range(&mut found, run.start().max(start), run.end().min(end))?;
        }
    }
    Ok(found)
}
