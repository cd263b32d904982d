//! What a change of a table meets: the runs on both sides of its addresses.
ghost use Rattle.std.specs.Prelude.{◌≡◌, ◌+◌, ◌≤◌, ◌++◌, ◌∷◌, [], List, true, false, length, IfSome, IsSomeAnd};
ghost use Rattle.vm_memory_base.specs.Change.{if_any, prepended, prepended_if_any, start_or};
ghost use Rattle.vm_memory_base.specs.Runs.{AddressRun};
ghost use Rattle.vm_memory_base.specs.Site.{IsSite};
ghost use Rattle.vm_memory_base.specs.Table.{Mapping, same_mapping};

use super::mapped_run::{MappedRun, joined_to};

// The runs on both sides of an address: the last that starts before it, and the last that starts there or before.
#[derive(Clone, Copy, Debug)]
pub(super) struct Neighbours {
    pub(super) before: Option<MappedRun>,
    pub(super) last: Option<MappedRun>,
}

// What lies of a run on one side of an address, and whether a run is stored so: in front of the address one that
// ends there, and after it one that starts there.
#[derive(Clone, Copy, Debug)]
pub(super) struct Edge {
    pub(super) run: Option<MappedRun>,
    pub(super) stored: bool,
}

// The addresses from `start` up to `end`, with what lies in front of them and after them. It is told to be clear
// where no run starts between the two.
#[derive(Clone, Copy, Debug)]
pub(super) struct Site {
    pub(super) start: u64,
    pub(super) end: u64,
    pub(super) front: Edge,
    pub(super) back: Edge,
    pub(super) clear: bool,
}

impl Site {
    // The site where a run comes in, and that run: it joins those that it touches and that are mapped alike. Where
    // the one in front takes it, none is left.
    #[inline(always)]
    pub(super) fn joined(&self, run: MappedRun) -> (Site, Option<MappedRun>)
        requires { run.start ≡ self.now.start }
        ensures site { (rs : List (AddressRun Mapping)) → IsSite rs self.now → IsSite rs result.0 }
        ensures joined { (j : AddressRun Mapping)
            × (j ∷ if_any result.0.back.run ≡ prepended run (if_any self.now.back.run))
            × (if_any result.0.front.run ++ if_any result.1 ≡ prepended_if_any self.now.front.run (j ∷ [])) }
        ensures same { (result.0.start ≡ self.now.start) × (result.0.end ≡ self.now.end)
            × (start_or result.0.front.run result.0.start ≡ start_or self.now.front.run self.now.start) }
        ensures starts { IfSome result.1 (λ r. r.start ≡ self.now.start) }
        ensures room { length (if_any result.1) + length (if_any result.0.front.run)
            ≤ length (if_any self.now.front.run) + 1 }
    {
        let (joined, back) = run.joined(self.back.run);
        let (front, next) = joined_to(self.front.run, joined);
        let site = Site {
            start: self.start,
            end: self.end,
            front: Edge {
                run: front,
                stored: self.front.stored & next.is_some(),
            },
            back: Edge {
                run: back,
                stored: self.back.stored,
            },
            clear: self.clear,
        };
        (site, next)
    }
}

impl MappedRun {
    // Whether a run overlaps no other and joins none. The runs on both sides of its end are known.
    #[inline(always)]
    pub(super) fn stands_alone(&self, near: &Neighbours) -> bool
        ensures before { result ≡ true → IfSome near.now.before (λ l. (l.start + l.len ≤ self.now.start)
            × (l.start + l.len ≡ self.now.start → same_mapping l.value self.now.value ≡ false)) }
        ensures last { result ≡ true → IfSome near.now.last (λ r. self.now.start + self.now.len ≡ r.start
            → same_mapping self.now.value r.value ≡ false) }
    {
        if let Some(left) = near.before {
            if !left.stays_before(self) {
                return false;
            }
        }
        match near.last {
            Some(right) => self.end() != right.start() || !self.is_like(&right),
            None => true,
        }
    }
}

// Whether a run, if there is one, has just the addresses from one up to another.
#[inline(always)]
pub(super) fn has_just(run: &Option<MappedRun>, start: u64, end: u64) -> bool
    ensures { result ≡ true → IsSomeAnd run.now (λ r. (r.start ≡ start) × (r.start + r.len ≡ end)) }
{
    match run {
        Some(run) => run.start() == start && run.end() == end,
        None => false,
    }
}
