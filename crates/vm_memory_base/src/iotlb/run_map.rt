//! The runs of a table, kept in the order of their first addresses.
ghost use Rattle.std.specs.Prelude.{◌≡◌, ◌+◌, ◌-◌, ◌^◌, ◌<◌, ◌≤◌, ◌++◌, ◌∷◌, [], true, false, List, length, IsSome};
ghost use Rattle.std.specs.Prelude.{IfSome, IfNone, OnOk, OnErr};
ghost use Rattle.std.specs.Iterator.{YieldsFirst, item_count};
ghost use Rattle.vm_memory_base.specs.Change.{EndBelow, StartFrom, AreAscending, IsKept, IsWithinLimit, if_any};
ghost use Rattle.vm_memory_base.specs.Change.{runs_below, runs_from, with_reset, start_or, with_run, without_first};
ghost use Rattle.vm_memory_base.specs.Change.{without_range};
ghost use Rattle.vm_memory_base.specs.Runs.{AddressRun, IsCanonical};
ghost use Rattle.vm_memory_base.specs.Site.{AreNeighbours, CutsFrom, CutsInFront, IsClear, IsEdgeFrom, IsFront};
ghost use Rattle.vm_memory_base.specs.Site.{IsLastBelow, IsReplaced, IsSite};
ghost use Rattle.vm_memory_base.specs.Table.{Mapping, excess, has_any, same_mapping, canonical_list};
ghost use Rattle.vm_memory_base.specs.Walk.{HeadEndsAfter};

use super::mapped_run::{MappedRun, RunTail};
use super::site::{Edge, Neighbours, Site, has_just};
use std::alloc::{AllocError, Global};
use std::collections::BTreeMap;
use std::collections::btree_map::Range;
use std::marker::Model;

// Ascending runs: what is stored of each is found at its first address.
#[derive(Debug, Drop)]
pub(super) struct RunMap {
    tails: BTreeMap<u64, RunTail>,
    alloc: Global,
}

impl Model for RunMap {
    ghost use Rattle.std.specs.Prelude.{List};
    ghost use Rattle.vm_memory_base.specs.Change.{AreAscending};
    ghost use Rattle.vm_memory_base.specs.Runs.{AddressRun};
    ghost use Rattle.vm_memory_base.specs.Stored.{runs_in};
    ghost use Rattle.vm_memory_base.specs.Table.{Mapping};

    ghost Value = { List (AddressRun Mapping) };

    ghost view = { λ m. runs_in m.tails.entries };

    ghost invariant = { λ m. AreAscending (runs_in m.tails.entries) };
}

impl RunMap {
    pub(super) fn new(alloc: Global) -> RunMap
        ensures { result ≡ [] }
    {
        RunMap {
            tails: BTreeMap::new(alloc),
            alloc,
        }
    }

    pub(super) fn alloc(&self) -> Global {
        self.alloc
    }

    pub(super) fn len(&self) -> usize
        ensures { result ≡ length self.now }
    {
        self.tails.len()
    }

    pub(super) fn clear(&mut self)
        ensures { self.new ≡ [] }
    {
        self.tails.clear();
    }

    // The last run that starts at an address or before it.
    #[inline(always)]
    fn last_upto(&self, limit: u64) -> Option<MappedRun>
        ensures last { IsLastBelow self.now (limit + 1) result }
        ensures ascending { AreAscending self.now }
    {
        let (start, tail) = self.tails.range(..=limit).next_back()?;
        Some(MappedRun::of_tail(*start, tail))
    }

    // The runs on both sides of an address.
    #[inline(always)]
    fn neighbours(&self, at: u64) -> Neighbours
        ensures near { AreNeighbours self.now at result }
        ensures ascending { AreAscending self.now }
    {
        let mut upto = self.tails.range(..=at);
        let Some((start, tail)) = upto.next_back() else {
            return Neighbours {
                before: None,
                last: None,
            };
        };
        let last = MappedRun::of_tail(*start, tail);
        if last.start() < at {
            return Neighbours {
                before: Some(last),
                last: Some(last),
            };
        }
        let Some((start, tail)) = upto.next_back() else {
            return Neighbours {
                before: None,
                last: Some(last),
            };
        };
        Neighbours {
            before: Some(MappedRun::of_tail(*start, tail)),
            last: Some(last),
        }
    }

    // Puts a run where it belongs, in the place of one that starts where it does. Refused, nothing changes.
    #[inline(always)]
    fn insert(&mut self, run: MappedRun) -> Result<(), AllocError>
        ensures ok { OnOk result (self.new
            ≡ runs_below run.start self.old ++ run ∷ runs_from (run.start + 1) self.old) }
        ensures err { OnErr result (self.new ≡ self.old) }
        ensures ascending { AreAscending self.new }
    {
        let tails = &mut self.tails;
        tails.insert(run.start(), run.tail())?;
        Ok(())
    }

    // Puts a run in the place of the one that starts where it does, if there is one.
    #[inline(always)]
    fn reset(&mut self, run: MappedRun)
        ensures { self.new ≡ with_reset run self.old }
    {
        let tails = &mut self.tails;
        let start = run.start();
        let Some(tail) = tails.get_mut(&start) else {
            return;
        };
        *tail = run.tail();
    }

    // Takes the run that starts at an address out, if there is one.
    #[inline(always)]
    fn remove(&mut self, start: u64)
        ensures { self.new ≡ runs_below start self.old ++ runs_from (start + 1) self.old }
    {
        let tails = &mut self.tails;
        tails.remove(&start);
    }

    // Takes the runs out that start from one address up to another, that one included.
    fn remove_between(&mut self, first: u64, last: u64)
        requires { first ≤ last + 1 }
        ensures { self.new ≡ runs_below first self.old ++ runs_from (last + 1) self.old }
    {
        while let Some(run) = self.last_upto(last) {
            if run.start() < first {
                return;
            }
            self.remove(run.start());
            if run.start() == first {
                return;
            }
        }
    }

    // Puts a run, or none, in the place of those that start in a site. Refused, nothing changes.
    #[inline(always)]
    fn put_alone(&mut self, site: &Site, run: Option<MappedRun>) -> Result<(), AllocError>
        requires ascending { AreAscending self.old }
        requires order { site.now.start < site.now.end }
        requires clear { IsClear self.old site.now }
        requires starts { IfSome run (λ r. r.start ≡ site.now.start) }
        ensures ok { OnOk result (self.new
            ≡ runs_below site.now.start self.old ++ (if_any run ++ runs_from site.now.end self.old)) }
        ensures err { OnErr result (self.new ≡ self.old) }
    {
        let Some(run) = run else {
            self.take_out(site);
            return Ok(());
        };
        self.insert(run)?;
        if !site.clear {
            self.remove_between(site.start + 1, site.end - 1);
        }
        Ok(())
    }

    // Takes the runs out that start in a site.
    #[inline(always)]
    fn take_out(&mut self, site: &Site)
        requires order { site.now.start < site.now.end }
        requires clear { IsClear self.old site.now }
        ensures { self.new ≡ runs_below site.now.start self.old ++ runs_from site.now.end self.old }
    {
        if site.clear {
            self.remove(site.start);
        } else {
            self.remove_between(site.start, site.end - 1);
        }
    }

    // Puts a run, or none, in the place of those that start in a site, and the one after it, or none, where that
    // belongs. Refused, nothing changes.
    #[inline(always)]
    fn put(&mut self, site: &Site, run: Option<MappedRun>) -> Result<(), AllocError>
        requires ascending { AreAscending self.old }
        requires site { IsSite self.old site.now }
        requires starts { IfSome run (λ r. r.start ≡ site.now.start) }
        ensures ok { OnOk result (self.new ≡ runs_below site.now.start self.old
            ++ (if_any run ++ (if_any site.now.back.run ++ runs_from (site.now.end + 1) self.old))) }
        ensures err { OnErr result (self.new ≡ self.old) }
    {
        let back = site.back;
        let Some(next) = back.run else {
            self.put_alone(site, run)?;
            if back.stored {
                self.remove(site.end);
            }
            return Ok(());
        };
        if back.stored {
            return self.put_alone(site, run);
        }
        self.insert(next)?;
        let put = self.put_alone(site, run);
        if put.is_err() {
            self.remove(site.end);
        }
        put
    }

    // The same, and the run in front becomes what a site says, if it is not stored so. Refused, nothing changes.
    #[inline(always)]
    fn replace(&mut self, site: &Site, run: Option<MappedRun>) -> Result<(), AllocError>
        requires ascending { AreAscending self.old }
        requires site { IsSite self.old site.now }
        requires starts { IfSome run (λ r. r.start ≡ site.now.start) }
        ensures ok { OnOk result (IsReplaced self.old site.now run self.new) }
        ensures err { OnErr result (self.new ≡ self.old) }
    {
        self.put(site, run)?;
        let Some(front) = site.front.run else {
            return Ok(());
        };
        if !site.front.stored {
            self.reset(front);
        }
        Ok(())
    }

    // The last run that starts below an address, where the runs on both sides of a later one are known.
    #[inline(always)]
    fn last_below(&self, near: &Neighbours, at: u64, end: u64) -> Option<MappedRun>
        requires ascending { AreAscending self.now }
        requires order { at < end }
        requires near { AreNeighbours self.now end near.now }
        ensures { IsLastBelow self.now at result }
    {
        let Some(run) = near.before else {
            return None;
        };
        if run.start() < at {
            return Some(run);
        }
        if at == 0 {
            return None;
        }
        self.last_upto(at - 1)
    }

    // Whether no run starts between two addresses, where the runs on both sides of the second are known.
    #[inline(always)]
    fn is_clear(&self, near: &Neighbours, at: u64, end: u64) -> bool
        requires ascending { AreAscending self.now }
        requires order { at < end }
        requires near { AreNeighbours self.now end near.now }
        ensures { result ≡ true → runs_from (at + 1) self.now ≡ runs_from end self.now }
    {
        match near.before {
            Some(run) => run.start() <= at,
            None => true,
        }
    }

    // The run that starts below an address and reaches it, cut off there. The runs on both sides of a later address
    // are known.
    #[inline(always)]
    fn front(&self, near: &Neighbours, at: u64, end: u64) -> Edge
        requires canonical { IsCanonical same_mapping self.now }
        requires order { at < end }
        requires near { AreNeighbours self.now end near.now }
        ensures front { IsFront self.now at result }
        ensures cut { CutsInFront self.now at result }
        ensures apart { EndBelow at (runs_below (start_or result.run at) self.now) }
        ensures reaches { IfSome result.run (λ l. (0 < l.len) × (l.start + l.len ≡ at)) }
    {
        let Some(run) = self.last_below(near, at, end) else {
            return Edge {
                run: None,
                stored: false,
            };
        };
        if run.end() < at {
            return Edge {
                run: None,
                stored: false,
            };
        }
        Edge {
            run: Some(run.before(at)),
            stored: run.end() == at,
        }
    }

    // The same, but where a run starts at the address: then none reaches over it.
    #[inline(always)]
    fn front_over(&self, near: &Neighbours, at: u64, end: u64) -> Edge
        requires canonical { IsCanonical same_mapping self.now }
        requires order { at < end }
        requires near { AreNeighbours self.now end near.now }
        ensures front { IsFront self.now at result }
        ensures cut { CutsInFront self.now at result }
    {
        if let Some(run) = near.before {
            if run.start() == at {
                return Edge {
                    run: None,
                    stored: false,
                };
            }
        }
        self.front(near, at, end)
    }

    // The run that has an address, from there on. The runs on both sides of it are known.
    #[inline(always)]
    fn edge_from(&self, near: &Neighbours, at: u64) -> Edge
        requires kept { IsKept self.now }
        requires near { AreNeighbours self.now at near.now }
        ensures edge { IsEdgeFrom self.now at result }
        ensures cut { CutsFrom self.now at result }
    {
        let Some(run) = near.last else {
            return Edge {
                run: None,
                stored: false,
            };
        };
        if run.end() <= at {
            return Edge {
                run: None,
                stored: false,
            };
        }
        Edge {
            run: Some(run.part_from(at)),
            stored: run.start() == at,
        }
    }

    // What a change from one address up to another meets, where the run in front is known, and the runs on both
    // sides of the second.
    #[inline(always)]
    fn site(&self, near: &Neighbours, front: Edge, start: u64, end: u64) -> Site
        requires kept { IsKept self.now }
        requires order { start < end }
        requires near { AreNeighbours self.now end near.now }
        requires front { IsFront self.now start front }
        ensures site { IsSite self.now result }
        ensures cut { CutsFrom self.now end result.back }
        ensures same { (result.start ≡ start) × (result.end ≡ end) × (result.front ≡ front) }
    {
        Site {
            start,
            end,
            front,
            back: self.edge_from(near, end),
            clear: self.is_clear(near, start, end),
        }
    }

    // Puts a run over what was said of its addresses. It joins those that it touches and that are mapped alike.
    // Refused, nothing changes.
    #[inline(always)]
    pub(super) fn set_run(&mut self, run: MappedRun) -> Result<(), AllocError>
        requires kept { IsKept self.old }
        requires some { 0 < run.len }
        requires fits { run.start + run.len < 2 ^ 64 }
        ensures ok { OnOk result (self.new ≡ canonical_list (with_run run self.old)) }
        ensures kept { IsKept self.new }
        ensures growth { length self.new ≤ length self.old + 2 }
        ensures err { OnErr result (self.new ≡ self.old) }
    {
        let start = run.start();
        let end = run.end();
        let near = self.neighbours(end);
        if run.stands_alone(&near) {
            return self.insert(run);
        }
        let front = self.front(&near, start, end);
        let met = self.site(&near, front, start, end);
        let (site, next) = met.joined(run);
        self.replace(&site, next)
    }

    // Makes the runs say nothing of the addresses from one up to another. Refused, nothing changes.
    #[inline(always)]
    pub(super) fn clear_range(&mut self, start: u64, end: u64) -> Result<(), AllocError>
        requires kept { IsKept self.old }
        requires some { start < end }
        ensures ok { OnOk result (self.new ≡ canonical_list (without_range start (end - start) self.old)) }
        ensures kept { IsKept self.new }
        ensures growth { length self.new ≤ length self.old + 1 }
        ensures err { OnErr result (self.new ≡ self.old) }
    {
        let near = self.neighbours(end);
        if has_just(&near.before, start, end) {
            self.remove(start);
            return Ok(());
        }
        let front = self.front_over(&near, start, end);
        let site = self.site(&near, front, start, end);
        self.replace(&site, None)
    }

    // Evicts what is more than a limit, if there is one.
    #[inline(always)]
    pub(super) fn keep_within(&mut self, limit: Option<usize>, spared: Option<u64>)
        requires kept { IsKept self.old }
        requires some { IfSome limit (λ n. 0 < n) }
        ensures gone { self.new ≡ without_first (has_any spared) (excess limit (length self.old)) self.old }
        ensures kept { IsKept self.new }
        ensures within { IsWithinLimit limit self.new }
    {
        if let Some(limit) = limit {
            self.evict(limit, spared);
        }
    }

    // Takes the first runs out while there are more than so many, but for the one that has an address.
    fn evict(&mut self, limit: usize, spared: Option<u64>)
        requires kept { IsKept self.old }
        requires some { 0 < limit }
        ensures gone { self.new ≡ without_first (has_any spared) (length self.old - limit) self.old }
        ensures kept { IsKept self.new }
        ensures within { length self.new ≤ limit }
    {
        while self.len() > limit {
            let start = self.first_without(spared);
            self.remove(start);
        }
    }

    // Where the first run starts that does not have an address.
    fn first_without(&self, spared: Option<u64>) -> u64
        requires canonical { IsCanonical same_mapping self.now }
        requires several { 1 < length self.now }
        ensures gone { runs_below result self.now ++ runs_from (result + 1) self.now
            ≡ without_first (has_any spared) 1 self.now }
        ensures less { length (without_first (has_any spared) 1 self.now) + 1 ≡ length self.now }
    {
        let mut runs = self.tails.iter();
        let Some((start, tail)) = runs.next() else {
            return 0;
        };
        let first = MappedRun::of_tail(*start, tail);
        if !first.has_any(spared) {
            return first.start();
        }
        let Some((start, _)) = runs.next() else {
            return 0;
        };
        *start
    }

    // The runs that have an address from one up to another.
    #[inline]
    pub(super) fn asked(&self, start: u64, end: u64) -> Runs<'_>
        requires canonical { IsCanonical same_mapping self.now }
        requires some { start < end }
        ensures { (front rest : List (AddressRun Mapping)) × (self.now ≡ front ++ (result ++ rest))
            × EndBelow (start + 1) front × StartFrom end rest × HeadEndsAfter start result }
    {
        let held = self.holder(start);
        Runs {
            held,
            rest: Some(self.tails.range(start + 1..end)),
        }
    }

    // The run that has every address from one up to another.
    #[inline(always)]
    pub(super) fn holder_of_all(&self, start: u64, end: u64) -> Option<MappedRun>
        requires canonical { IsCanonical same_mapping self.now }
        requires some { start < end }
        ensures { IfSome result (λ r. (front rest : List (AddressRun Mapping))
            × (self.now ≡ front ++ (r ∷ [] ++ rest)) × EndBelow (start + 1) front × StartFrom end rest
            × (r.start ≤ start) × (end ≤ r.start + r.len)) }
    {
        let run = self.holder(start)?;
        if run.end() < end {
            return None;
        }
        Some(run)
    }

    // The run that has an address.
    #[inline(always)]
    fn holder(&self, at: u64) -> Option<MappedRun>
        requires { IsCanonical same_mapping self.now }
        ensures none { IfNone result (EndBelow (at + 1) (runs_below (at + 1) self.now)) }
        ensures some { IfSome result (λ r. (r.start ≤ at) × (at < r.start + r.len)
            × (runs_below (at + 1) self.now ≡ runs_below r.start self.now ++ r ∷ [])
            × EndBelow (at + 1) (runs_below r.start self.now)) }
    {
        let run = self.last_upto(at)?;
        if run.end() <= at {
            return None;
        }
        Some(run)
    }
}

// Runs of a table that are left to be seen, in order.
#[derive(Debug, Drop)]
pub(super) struct Runs<'a> {
    held: Option<MappedRun>,
    rest: Option<Range<'a, u64, RunTail>>,
}

impl<'a> Model for Runs<'a> {
    ghost use Rattle.std.specs.Prelude.{List, ◌++◌};
    ghost use Rattle.vm_memory_base.specs.Change.{AreAscending, if_any};
    ghost use Rattle.vm_memory_base.specs.Runs.{AddressRun};
    ghost use Rattle.vm_memory_base.specs.Stored.{runs_in_if_any};
    ghost use Rattle.vm_memory_base.specs.Table.{Mapping};

    ghost Value = { List (AddressRun Mapping) };

    ghost view = { λ r. if_any r.held ++ runs_in_if_any r.rest };

    ghost invariant = { λ r. AreAscending (runs_in_if_any r.rest) };
}

impl<'a> Runs<'a> {
    // One run alone.
    #[inline(always)]
    pub(super) fn of(run: MappedRun) -> Runs<'a>
        ensures { result ≡ run ∷ [] }
    {
        Runs {
            held: Some(run),
            rest: None,
        }
    }

    pub(super) fn none() -> Runs<'a>
        ensures { result ≡ [] }
    {
        Runs {
            held: None,
            rest: None,
        }
    }

    // The same runs once more.
    #[inline]
    pub(super) fn again(&self) -> Runs<'a>
        ensures { result ≡ self.now }
    {
        let rest = match &self.rest {
            Some(rest) => rest.clone().ok(),
            None => None,
        };
        Runs {
            held: self.held,
            rest,
        }
    }
}

impl<'a> Iterator for Runs<'a> {
    type Item = MappedRun;

    ghost next_gives = { YieldsFirst (λ rs. rs) };

    ghost remaining = { item_count (λ rs. rs) };

    #[inline]
    fn next(&mut self) -> Option<MappedRun> {
        if let Some(run) = self.held {
            self.held = None;
            return Some(run);
        }
        let Some(rest) = &mut self.rest else {
            return None;
        };
        let (start, tail) = rest.next()?;
        Some(MappedRun::of_tail(*start, tail))
    }
}
