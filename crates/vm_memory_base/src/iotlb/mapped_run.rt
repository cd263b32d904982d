//! A run of I/O addresses that are mapped alike, and lists of such runs.
ghost use Rattle.std.specs.Prelude.{◌≡◌, ℕ, ◌+◌, ◌-◌, ◌<◌, ◌≤◌, ◌++◌, ◌∷◌, [], ◌↔◌, true, false, length, IsSome};
ghost use Rattle.std.specs.Prelude.{IfSome, IsSomeAnd};
ghost use Rattle.vm_memory_base.specs.Change.{if_any, start_or, prepended, prepended_if_any};
ghost use Rattle.vm_memory_base.specs.Permissions as set;
ghost use Rattle.vm_memory_base.specs.Stored.{run_in};
ghost use Rattle.vm_memory_base.specs.Table.{has_any, same_mapping, target};

use super::Permissions;
use std::marker::Model;

// What is stored of a run at its first address.
#[derive(Clone, Copy, Debug)]
pub(super) struct RunTail {
    pub(super) end: u64,
    pub(super) difference: u64,
    pub(super) permissions: Permissions,
}

// The addresses from `start` up to `end`, with the distance of their targets modulo 2^64.
#[derive(Clone, Copy, Debug)]
pub(super) struct MappedRun {
    start: u64,
    end: u64,
    difference: u64,
    permissions: Permissions,
}

impl Model for MappedRun {
    ghost use Rattle.std.specs.Prelude.{◌-◌, ◌+◌, ◌<◌};
    ghost use Rattle.vm_memory_base.specs.Runs.{AddressRun};
    ghost use Rattle.vm_memory_base.specs.Table.{Mapping};
    ghost use Rattle.std.proofs.Common.{ap, arith};

    ghost Value = { AddressRun Mapping };

    ghost view = { λ r. record {
      start = r.start;
      len = r.end - r.start;
      value = record { difference = r.difference; permissions = r.permissions };
    } };

    ghost invariant = { λ r. r.start < r.end };

    ghost inverse = { λ r. record {
      start = r.start;
      end = r.start + r.len;
      difference = r.value.difference;
      permissions = r.value.permissions;
    } };

    ghost inverse_ok = { λ a h. ap
        (λ e. record { start = a.start; end = e; difference = a.difference; permissions = a.permissions })
        (omega arith) };
}

impl MappedRun {
    #[inline(always)]
    pub(super) fn new(start: u64, end: u64, difference: u64, permissions: Permissions) -> MappedRun
        requires { start < end }
        ensures { result ≡ record {
          start = start;
          len = end - start;
          value = record { difference = difference; permissions = permissions };
        } }
    {
        MappedRun {
            start,
            end,
            difference,
            permissions,
        }
    }

    // The run of a first address and what is stored there.
    #[inline(always)]
    pub(super) fn of_tail(start: u64, tail: &RunTail) -> MappedRun
        requires { start < tail.now.end }
        ensures { result ≡ run_in (start, tail.now) }
    {
        MappedRun::new(start, tail.end, tail.difference, tail.permissions)
    }

    #[inline(always)]
    pub(super) fn tail(&self) -> RunTail
        ensures value { run_in (self.now.start, result) ≡ self.now }
        ensures some { 0 < self.now.len }
    {
        RunTail {
            end: self.end,
            difference: self.difference,
            permissions: self.permissions,
        }
    }

    #[inline(always)]
    pub(super) fn start(&self) -> u64
        ensures { result ≡ self.now.start }
    {
        self.start
    }

    // The first address after the run.
    #[inline(always)]
    pub(super) fn end(&self) -> u64
        ensures value { result ≡ self.now.start + self.now.len }
        ensures some { 0 < self.now.len }
    {
        self.end
    }

    // The target of an address of the run.
    #[inline(always)]
    pub(super) fn target(&self, iova: u64) -> u64
        ensures { result ≡ target iova self.now.value }
    {
        iova.wrapping_add(self.difference)
    }

    // Whether the run has an address, if there is one.
    #[inline(always)]
    pub(super) fn has_any(&self, iova: Option<u64>) -> bool
        ensures { result ≡ has_any iova self.now }
    {
        match iova {
            Some(iova) => self.start <= iova && iova < self.end,
            None => false,
        }
    }

    #[inline(always)]
    pub(super) fn allows(&self, access: Permissions) -> bool
        ensures { result ≡ set.allow self.now.value.permissions access }
    {
        self.permissions.allow(access)
    }

    // The part before an address.
    #[inline(always)]
    pub(super) fn before(&self, end: u64) -> MappedRun
        requires some { self.now.start < end }
        ensures { result ≡ record self.now { len = end - self.now.start } }
    {
        MappedRun::new(self.start, end, self.difference, self.permissions)
    }

    // The part from an address on.
    #[inline(always)]
    pub(super) fn part_from(&self, start: u64) -> MappedRun
        requires some { start < self.now.start + self.now.len }
        ensures { result ≡ record self.now { start = start; len = self.now.start + self.now.len - start } }
    {
        MappedRun::new(start, self.end, self.difference, self.permissions)
    }

    // Whether two runs are mapped alike.
    #[inline(always)]
    pub(super) fn is_like(&self, other: &MappedRun) -> bool
        ensures { result ≡ same_mapping self.now.value other.now.value }
    {
        self.difference == other.difference && self.permissions == other.permissions
    }

    // Whether a run ends before another begins, or where it begins but is not mapped alike.
    #[inline(always)]
    pub(super) fn stays_before(&self, next: &MappedRun) -> bool
        ensures { result ≡ true → (self.now.start + self.now.len ≤ next.now.start)
            × (self.now.start + self.now.len ≡ next.now.start → same_mapping self.now.value next.now.value ≡ false) }
    {
        self.end < next.start || (self.end == next.start && !self.is_like(next))
    }

    // The run before another: one run with it where that begins right after it and is mapped alike.
    #[inline(always)]
    pub(super) fn joined(&self, next: Option<MappedRun>) -> (MappedRun, Option<MappedRun>)
        ensures joined { result.0 ∷ if_any result.1 ≡ prepended self.now (if_any next) }
        ensures start { result.0.start ≡ self.now.start }
        ensures next { IfSome result.1 (λ r. if_any next ≡ r ∷ []) }
        ensures stays { IsSome result.1 → result.0 ≡ self.now }
    {
        match next {
            Some(run) if run.start() == self.end() && self.is_like(&run) => {
                (
                    MappedRun::new(self.start, run.end(), self.difference, self.permissions),
                    None,
                )
            }
            _ => (*self, next),
        }
    }
}

// A run after the one that reaches it, if there is one: one run with it where they are mapped alike.
#[inline(always)]
pub(super) fn joined_to(
    left: Option<MappedRun>,
    run: MappedRun,
) -> (Option<MappedRun>, Option<MappedRun>)
    ensures joined { if_any result.0 ++ if_any result.1 ≡ prepended_if_any left (run ∷ []) }
    ensures left { (at : ℕ) → start_or result.0 at ≡ start_or left at }
    ensures same { IsSome left ↔ IsSome result.0 }
    ensures next { IfSome result.1 (λ r. r.start ≡ run.start) }
    ensures stays { IsSome result.1 → IsSome left → result.0 ≡ left }
    ensures room { length (if_any result.1) + length (if_any result.0) ≤ length (if_any left) + 1 }
{
    match left {
        Some(left) => {
            let (begun, next) = left.joined(Some(run));
            (Some(begun), next)
        }
        None => (None, Some(run)),
    }
}
