//! The table of an IOMMU.
ghost use Rattle.std.specs.Prelude.{◌≡◌, if◌then◌else◌, ℕ, ◌+◌, ◌-◌, ◌^◌, ◌<◌, ◌≤◌, ◌⊎◌, ◌∷◌, [], length, true, false};
ghost use Rattle.std.specs.Prelude.{Some, None, map, OnOk, IfOk, IfErr, IfSome, MatchResult};
ghost use Rattle.std.specs.List.{filter};
ghost use Rattle.vm_memory_base.specs.Change.{gaps, granted};
ghost use Rattle.vm_memory_base.specs.Lookup.{Translates, RefusesTranslation, mapped_ranges};
ghost use Rattle.vm_memory_base.specs.Runs.{cut_to};
ghost use Rattle.vm_memory_base.specs.Table as table;
ghost use Rattle.vm_memory_base.specs.Table.{target, Set, Invalidate, InvalidateAll, covers, says, says_after};
ghost use Rattle.vm_memory_base.specs.Table.{says_after_all, events, canonical_list, changed, evictions, range_count};
ghost use Rattle.vm_memory_base.specs.Table.{is_allowed, pieces, failures, same_mapping, range_of, forbids};
ghost use Rattle.vm_memory_base.specs.Walk.{IsWalk, pieces_left};
ghost use Rattle.vm_memory_base.specs.declared.iotlb.Permissions.TheVariants.{No};
ghost use Rattle.vm_memory_base.specs.declared.iotlb.Reason.TheVariants.{MissingMapping, AccessNotAllowed};

use super::lookup::{
    IotlbFails, IotlbIterator, IovaRangeList, LookupError, MappedRange, MappedRangeList,
    access_fails, are_granted, misses,
};
use super::mapped_run::MappedRun;
use super::run_map::{RunMap, Runs};
use super::{IommuError, IovaRange, Permissions, Reason};
use crate::address::GuestAddress;
use std::alloc::Global;
use std::marker::Model;

/// The table of an IOMMU: where I/O addresses lead, and which accesses are permitted there.
///
/// It keeps the maximal ranges of neighbouring addresses that are mapped alike, ascending. So two tables of one
/// limit that say the same of each address are equal: the crate's README.md, "I/O tables".
///
/// ```rust
/// use vm_memory_base::{GuestAddress, Iotlb, Permissions};
///
/// let mut table = Iotlb::new(rt.alloc());
/// table.set_mapping(GuestAddress(0), GuestAddress(0x10000), 0x1000, Permissions::Read)?;
/// for piece in table.lookup(GuestAddress(0xff0), 0x10, Permissions::Read)? {
///     assert!(rt; piece.base == GuestAddress(0x10ff0));
/// }
/// ```
#[derive(Debug, Drop)]
pub struct Iotlb {
    limit: Option<usize>,
    ranges: RunMap,
}

impl Model for Iotlb {
    ghost use Rattle.vm_memory_base.specs.Change.{IsKept, IsWithinLimit};
    ghost use Rattle.vm_memory_base.specs.Table.{Table};

    ghost Value = { Table };

    ghost view = { λ t. record { limit = t.limit; ranges = t.ranges } };

    ghost invariant = { λ t. IsKept t.ranges × IsWithinLimit t.limit t.ranges };
}

impl Iotlb {
    /// A table that maps no address. It allocates nothing.
    pub fn new(alloc: Global) -> Iotlb
        ensures { result ≡ record { limit = None; ranges = [] } }
    {
        Iotlb {
            limit: None,
            ranges: RunMap::new(alloc),
        }
    }

    /// A table that maps no address and never keeps more than `limit` ranges. `limit` has to be 1 or more. It
    /// allocates nothing.
    pub fn with_limit(alloc: Global, limit: usize) -> Iotlb
        requires { 0 < limit }
        ensures { result ≡ record { limit = Some limit; ranges = [] } }
    {
        Iotlb {
            limit: Some(limit),
            ranges: RunMap::new(alloc),
        }
    }

    /// Maps `length` addresses from `iova` on to those from `map_to` on, modulo 2^64, for these accesses, whatever
    /// they were mapped to before. A length of 0 changes nothing and allocates nothing. The sum of `iova` and
    /// `length` has to be an address.
    ///
    /// While a table has more ranges than its limit, it evicts the first of them that does not have `iova`. What it
    /// evicts is a miss from then on.
    ///
    /// `Memory` if an allocation fails, and then nothing is changed or evicted.
    ///
    /// Leaves open: a failed allocation for each change of at least one address. Then nothing changed.
    pub fn set_mapping(
        &mut self,
        iova: GuestAddress,
        map_to: GuestAddress,
        length: usize,
        perm: Permissions,
    ) -> Result<(), IommuError>
        requires { iova.0 + length < 2 ^ 64 }
        ensures ok { OnOk result (self.new ≡ changed (Set iova.0 map_to.0 length perm) self.old) }
        ensures says { OnOk result ((x : ℕ) → x < 2 ^ 64
            → says self.new x
            ≡ says_after_all (events (Set iova.0 map_to.0 length perm) self.old) x (says self.old x)) }
        ensures set { OnOk result ((x : ℕ) → covers (Set iova.0 map_to.0 length perm) x ≡ true
            → says self.new x ≡ says_after (Set iova.0 map_to.0 length perm) x None) }
        ensures limit { IfSome self.new.limit (λ n. range_count self.new ≤ n) }
        ensures growth { range_count self.new ≤ range_count self.old + 2 }
        ensures none { length ≡ 0 → self.new ≡ self.old }
        ensures err { IfErr result (λ e. (e ≡ IommuError.Memory) × (0 < length) × (self.new ≡ self.old)) }
    {
        self.set_mapping_counted(iova, map_to, length, perm)?;
        Ok(())
    }

    /// Does what [`set_mapping`](Self::set_mapping) does, and returns how many ranges the table evicted.
    pub fn set_mapping_counted(
        &mut self,
        iova: GuestAddress,
        map_to: GuestAddress,
        length: usize,
        perm: Permissions,
    ) -> Result<usize, IommuError>
        requires { iova.0 + length < 2 ^ 64 }
        ensures count { IfOk result (λ n. n ≡ evictions (Set iova.0 map_to.0 length perm) self.old) }
        ensures ok { OnOk result (self.new ≡ changed (Set iova.0 map_to.0 length perm) self.old) }
        ensures says { OnOk result ((x : ℕ) → x < 2 ^ 64
            → says self.new x
            ≡ says_after_all (events (Set iova.0 map_to.0 length perm) self.old) x (says self.old x)) }
        ensures set { OnOk result ((x : ℕ) → covers (Set iova.0 map_to.0 length perm) x ≡ true
            → says self.new x ≡ says_after (Set iova.0 map_to.0 length perm) x None) }
        ensures limit { IfSome self.new.limit (λ n. range_count self.new ≤ n) }
        ensures growth { range_count self.new ≤ range_count self.old + 2 }
        ensures none { length ≡ 0 → self.new ≡ self.old }
        ensures err { IfErr result (λ e. (e ≡ IommuError.Memory) × (0 < length) × (self.new ≡ self.old)) }
    {
        let limit = self.limit;
        let ranges = &mut self.ranges;
        if length == 0 {
            return Ok(0);
        }
        let end = iova.0 + length as u64;
        let difference = map_to.0.wrapping_sub(iova.0);
        let run = MappedRun::new(iova.0, end, difference, perm);
        ranges.set_run(run).map_err(|_| IommuError::Memory)?;
        let count = ranges.len();
        ranges.keep_within(limit, Some(iova.0));
        Ok(count - ranges.len())
    }

    /// Unmaps `length` addresses from `iova` on. A length of 0 changes nothing and allocates
    /// nothing. The sum of `iova` and `length` has to be an address.
    ///
    /// While a table has more ranges than its limit, it evicts the first of them. What it evicts is a miss from then
    /// on.
    ///
    /// `Memory` if an allocation fails, and then nothing is changed or evicted.
    ///
    /// Leaves open: a failed allocation for each change of at least one address. Then nothing changed.
    pub fn invalidate_mapping(
        &mut self,
        iova: GuestAddress,
        length: usize,
    ) -> Result<(), IommuError>
        requires { iova.0 + length < 2 ^ 64 }
        ensures ok { OnOk result (self.new ≡ changed (Invalidate iova.0 length) self.old) }
        ensures says { OnOk result ((x : ℕ) → x < 2 ^ 64
            → says self.new x ≡ says_after_all (events (Invalidate iova.0 length) self.old) x (says self.old x)) }
        ensures limit { IfSome self.new.limit (λ n. range_count self.new ≤ n) }
        ensures growth { range_count self.new ≤ range_count self.old + 2 }
        ensures none { length ≡ 0 → self.new ≡ self.old }
        ensures err { IfErr result (λ e. (e ≡ IommuError.Memory) × (0 < length) × (self.new ≡ self.old)) }
    {
        let limit = self.limit;
        let ranges = &mut self.ranges;
        if length == 0 {
            return Ok(());
        }
        ranges
            .clear_range(iova.0, iova.0 + length as u64)
            .map_err(|_| IommuError::Memory)?;
        ranges.keep_within(limit, None);
        Ok(())
    }

    /// Unmaps all addresses. It allocates nothing.
    pub fn invalidate_all(&mut self)
        ensures all { self.new ≡ changed InvalidateAll self.old }
        ensures empty { self.new.ranges ≡ [] }
    {
        self.ranges.clear();
    }

    /// Where `length` addresses from `iova` on lead, as pieces in order, for an access. A piece is a part of a range
    /// that is kept, so neighbouring pieces are mapped with different targets or permissions. A length of 0 gives no
    /// piece. A look-up that gives its pieces allocates nothing.
    ///
    /// `Fails` if an address is not mapped or its mapping does not permit the access: the parts that are missed
    /// and those that fail, each in order. If the sum of `iova` and `length` is not an address, the whole range is
    /// missed. `Memory` if the allocation of these parts fails.
    ///
    /// Leaves open: a failed allocation for each look-up that the table does not allow.
    #[inline]
    pub fn lookup(
        &self,
        iova: GuestAddress,
        length: usize,
        access: Permissions,
    ) -> Result<IotlbIterator<'_>, LookupError>
        ensures found { IfOk result (λ it. (is_allowed (says self.now) iova.0 length access ≡ true)
            × (it ≡ pieces (says self.now) iova.0 length)) }
        ensures refused { IfErr result (λ e. (is_allowed (says self.now) iova.0 length access ≡ false)
            × ((e ≡ LookupError.Memory) ⊎ (e ≡ LookupError.Fails (record {
              misses = table.misses (says self.now) iova.0 length;
              access_fails = failures (says self.now) iova.0 length access;
            })))) }
    {
        if let Some((run, end)) = self.run_of(iova, length, access) {
            return Ok(IotlbIterator::new(Runs::of(run), iova.0, end));
        }
        self.lookup_parts(iova, length, access)
    }

    // A look-up of any range: run by run.
    fn lookup_parts(
        &self,
        iova: GuestAddress,
        length: usize,
        access: Permissions,
    ) -> Result<IotlbIterator<'_>, LookupError>
        ensures found { IfOk result (λ it. (is_allowed (says self.now) iova.0 length access ≡ true)
            × (it ≡ pieces (says self.now) iova.0 length)) }
        ensures refused { IfErr result (λ e. (is_allowed (says self.now) iova.0 length access ≡ false)
            × ((e ≡ LookupError.Memory) ⊎ (e ≡ LookupError.Fails (record {
              misses = table.misses (says self.now) iova.0 length;
              access_fails = failures (says self.now) iova.0 length access;
            })))) }
    {
        let Some(end) = iova.0.checked_add(length as u64) else {
            return Err(overrun(self.ranges.alloc(), iova, length));
        };
        if length == 0 {
            return Ok(IotlbIterator::new(Runs::none(), end, end));
        }
        let asked = self.ranges.asked(iova.0, end);
        if are_granted(asked.again(), iova.0, end, access) {
            return Ok(IotlbIterator::new(asked, iova.0, end));
        }
        Err(refusal(self.ranges.alloc(), asked, iova.0, end, access))
    }

    /// The pieces of a look-up, as a list, or why the access is refused. It allocates the pieces if there are two or
    /// more, and otherwise nothing.
    ///
    /// `CannotResolve` if the table does not allow the access, with the whole range: `MissingMapping` if an
    /// address is not mapped or the end is not an address, otherwise `AccessNotAllowed`. `Memory` if the table allows
    /// the access and it has two pieces or more, but their allocation fails.
    pub fn resolve(
        &self,
        iova: GuestAddress,
        length: usize,
        access: Permissions,
    ) -> Result<MappedRangeList, IommuError>
        ensures { MatchResult result
            (λ found. Translates (says self.now) iova.0 length access found)
            (RefusesTranslation (says self.now) iova.0 length access) }
    {
        if let Some(piece) = self.resolve_one(iova, length, access) {
            return Ok(MappedRangeList::one(self.ranges.alloc(), piece));
        }
        self.resolve_parts(iova, length, access)
    }

    /// The piece of a look-up that leads to one, if it is found at once. It allocates nothing, and `None` says nothing
    /// of the look-up.
    #[inline]
    pub fn resolve_one(
        &self,
        iova: GuestAddress,
        length: usize,
        access: Permissions,
    ) -> Option<MappedRange>
        ensures { IfSome result (λ piece. Translates (says self.now) iova.0 length access (piece ∷ [])) }
    {
        let (run, _) = self.run_of(iova, length, access)?;
        let base = GuestAddress(run.target(iova.0));
        Some(MappedRange { base, length })
    }

    // The pieces of any range, run by run, or why there are none.
    #[inline(never)]
    fn resolve_parts(
        &self,
        iova: GuestAddress,
        length: usize,
        access: Permissions,
    ) -> Result<MappedRangeList, IommuError>
        ensures { MatchResult result
            (λ found. Translates (says self.now) iova.0 length access found)
            (RefusesTranslation (says self.now) iova.0 length access) }
    {
        let iova_range = IovaRange { base: iova, length };
        let Some(end) = iova.0.checked_add(length as u64) else {
            let reason = Reason::MissingMapping;
            return Err(IommuError::CannotResolve { iova_range, reason });
        };
        if length == 0 {
            let none = Vec::new(self.ranges.alloc());
            return Ok(MappedRangeList::from_vec(none));
        }
        let asked = self.ranges.asked(iova.0, end);
        if are_granted(asked.again(), iova.0, end, access) {
            let walk = IotlbIterator::new(asked, iova.0, end);
            return all_of(self.ranges.alloc(), walk);
        }
        let reason = why(asked, iova.0, end);
        Err(IommuError::CannotResolve { iova_range, reason })
    }

    // The run that has all of a range, if there is one and it permits the access, and where the range ends.
    #[inline(always)]
    fn run_of(
        &self,
        iova: GuestAddress,
        length: usize,
        access: Permissions,
    ) -> Option<(MappedRun, u64)>
        ensures { IfSome result (λ p. (0 < length) × IsWalk iova.0 p.1 (p.0 ∷ [])
            × (is_allowed (says self.now) iova.0 length access ≡ true)
            × (pieces_left iova.0 p.1 (p.0 ∷ []) ≡ pieces (says self.now) iova.0 length)
            × (pieces (says self.now) iova.0 length ≡ record { base = target iova.0 p.0.value; len = length } ∷ [])) }
    {
        let end = iova.0.checked_add(length as u64)?;
        if length == 0 {
            return None;
        }
        let run = self.ranges.holder_of_all(iova.0, end)?;
        if !run.allows(access) {
            return None;
        }
        Some((run, end))
    }

    /// The number of ranges that are kept. They are the canonical list of what the table says, and no more than its
    /// limit, if it has one.
    pub fn num_ranges(&self) -> usize
        ensures count { result ≡ range_count self.now }
        ensures canonical { canonical_list (says self.now) ≡ self.now.ranges }
        ensures limit { IfSome self.now.limit (λ n. (0 < n) × (result ≤ n)) }
    {
        self.ranges.len()
    }
}

// All pieces. One alone takes no memory.
fn all_of(alloc: Global, walk: IotlbIterator<'_>) -> Result<MappedRangeList, IommuError>
    ensures { MatchResult result (λ found. found ≡ mapped_ranges walk.entry)
        (λ e. (1 < length (mapped_ranges walk.entry)) × (e ≡ IommuError.Memory)) }
{
    let mut ahead = walk.again();
    let Some(first) = ahead.next() else {
        return Ok(MappedRangeList::from_vec(Vec::new(alloc)));
    };
    if ahead.next().is_none() {
        return Ok(MappedRangeList::one(alloc, first));
    }
    match walk.collect(alloc) {
        Ok(found) => Ok(MappedRangeList::from_vec(found)),
        Err(_) => Err(IommuError::Memory),
    }
}

// Why an access from one address up to another is refused, by the runs that have any of them.
fn why(runs: Runs<'_>, start: u64, end: u64) -> Reason
    ensures { result ≡ if granted start end No runs.entry then AccessNotAllowed else MissingMapping }
{
    if are_granted(runs, start, end, Permissions::No) {
        Reason::AccessNotAllowed
    } else {
        Reason::MissingMapping
    }
}

// A look-up of a range whose end is no address misses all of it.
fn overrun(alloc: Global, iova: GuestAddress, length: usize) -> LookupError
    ensures { (result ≡ LookupError.Memory) ⊎ (result ≡ LookupError.Fails (record {
      misses = record { base = iova.0; len = length } ∷ [];
      access_fails = [];
    })) }
{
    let mut misses = Vec::new(alloc);
    let range = IovaRange { base: iova, length };
    match misses.push(range) {
        Ok(()) => LookupError::Fails(IotlbFails {
            misses: IovaRangeList::from_vec(misses),
            access_fails: IovaRangeList::from_vec(Vec::new(alloc)),
        }),
        Err(_) => LookupError::Memory,
    }
}

// What a look-up of the addresses from one up to another misses, and what fails, of the runs that have any of
// them.
fn refusal(alloc: Global, runs: Runs<'_>, start: u64, end: u64, access: Permissions) -> LookupError
    requires { start < end }
    ensures { (result ≡ LookupError.Memory) ⊎ (result ≡ LookupError.Fails (record {
      misses = map range_of (gaps start end runs.entry);
      access_fails = map range_of (filter (λ r. forbids access r.value) (cut_to start (end - start) runs.entry));
    })) }
{
    match (
        misses(alloc, runs.again(), start, end),
        access_fails(alloc, runs, start, end, access),
    ) {
        (Ok(misses), Ok(access_fails)) => LookupError::Fails(IotlbFails {
            misses: IovaRangeList::from_vec(misses),
            access_fails: IovaRangeList::from_vec(access_fails),
        }),
        _ => LookupError::Memory,
    }
}
