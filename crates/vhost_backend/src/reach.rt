//! What is kept for a ring whose addresses a table translates, and what is fetched for it.
ghost use Rattle.std.specs.Prelude.{◌≡◌, ◌++◌, [], All, is_ok, if◌then◌else◌};
ghost use Rattle.std.specs.List.{list_any};
ghost use Rattle.vm_memory_base.specs.Table.{says};
ghost use Rattle.vhost_iotlb.specs.Kept.{Fits, IsReal, differs};
ghost use Rattle.vhost_backend.specs.KeptRanges.{ForgetsAll, KeepsAll};
ghost use Rattle.vhost_backend.specs.Reach.{changed_by, most_of, same_log, unreached, waited_in};

use crate::fetch::{Fetch, Goal, State, drop_changed, resume};
use crate::kept_ranges::{forget_all, keep_all};
use crate::ring_memory::RingMemory;
use std::alloc::{AllocError, Global};
use std::marker::Model;
use vhost_iotlb::{Change, Kept, any_differs};
use vm_memory_base::{Iotlb, Permissions};

// How many ranges may be kept beyond as many as a ring has slots.
const MORE_PIECES: usize = 1024;

/// Ranges that are kept outside of the table.
#[derive(Drop)]
pub struct KeptList {
    list: Vec<Kept>,
}

impl Model for KeptList {
    ghost use Rattle.std.specs.Prelude.{All, List};
    ghost use Rattle.vhost_iotlb.specs.Kept.{IsReal};
    ghost use Rattle.vhost_iotlb.specs.declared.kept.Kept.{Kept};

    ghost Value = { List Kept };

    ghost view = { λ l. l.list.items };

    ghost invariant = { λ l. All IsReal l.list.items };
}

impl KeptList {
    /// These ranges.
    pub fn of(list: Vec<Kept>) -> KeptList
        requires { All IsReal list.items }
        ensures { result ≡ list.items }
    {
        KeptList { list }
    }

    /// The ranges.
    pub fn as_slice(&self) -> &[Kept]
        ensures lent { result.now ≡ self.now }
        ensures real { All IsReal self.now }
    {
        self.list.as_slice()
    }

    // Adds ranges, unless an allocation fails.
    fn add(&mut self, more: &[Kept]) -> Result<(), AllocError>
        requires { All IsReal more.now }
        ensures { self.new ≡ (if is_ok result then self.old ++ more.now else self.old) }
    {
        self.list.extend_from_slice(more)
    }

    fn clear(&mut self)
        ensures { self.new ≡ [] }
    {
        self.list.clear();
    }
}

fn most_of(slots: usize) -> usize
    ensures { result ≡ most_of slots }
{
    slots.saturating_add(MORE_PIECES)
}

fn waited_in(state: State) -> Option<(u64, Permissions)>
    ensures { result ≡ waited_in state }
{
    match state {
        State::Waits(iova, access) => Some((iova, access)),
        _ => None,
    }
}

// Whether a fetch was dropped, if what was kept could be forgotten.
fn changed_by(had: bool, done: Result<(), AllocError>) -> Result<bool, AllocError>
    ensures { result ≡ changed_by had done }
{
    match done {
        Ok(()) => Ok(had),
        Err(error) => Err(error),
    }
}

/// Whether two rings are logged at the same place.
pub fn same_log(one: Option<u64>, other: Option<u64>) -> bool
    ensures { result ≡ same_log one other }
{
    match (one, other) {
        (None, None) => true,
        (Some(one), Some(other)) => one == other,
        _ => false,
    }
}

/// What is kept for a ring whose addresses a table translates, and what is fetched for it.
#[derive(Drop)]
pub struct Reach {
    // What is fetched, if something is.
    fetch: Option<Fetch>,
    // What is kept of the ring's areas, and of rows of indirect tables.
    pages: KeptList,
    rows: KeptList,
    // All its areas are kept.
    is_reached: bool,
    // Where writes to its used ring are logged.
    log: Option<u64>,
}

impl Model for Reach {
    ghost use Rattle.vhost_backend.specs.Reach.{ReachState};

    ghost Value = { ReachState };

    ghost view = { λ r. record {
      fetch = r.fetch;
      pages = r.pages;
      rows = r.rows;
      is_reached = r.is_reached;
      log = r.log;
    } };
}

impl Reach {
    ghost use Rattle.std.specs.Prelude.{None, Option, is_some};
    ghost use Rattle.vhost_backend.specs.Fetch.{FetchState, after_drop, is_dropped};
    ghost use Rattle.vhost_backend.specs.Reach.{Changes, ChangesOthers, ForgetsBoth, ResumesFetch, areas_kept, cleared};
    ghost use Rattle.vhost_backend.specs.Reach.{dropped, forgotten, most_at, most_for, moved_to, refused, rows_added};
    ghost use Rattle.vhost_backend.specs.Reach.{rows_forgotten, waited_for};

    /// Nothing is kept or fetched.
    pub fn new(alloc: Global) -> Reach
        ensures { result ≡ unreached }
    {
        Reach {
            fetch: None,
            pages: KeptList::of(Vec::new(alloc)),
            rows: KeptList::of(Vec::new(alloc)),
            is_reached: false,
            log: None,
        }
    }

    /// Writes to its used ring are logged there. What was fetched is dropped, and its areas are to be fetched anew.
    pub fn move_to(&mut self, log: Option<u64>)
        ensures { self.new ≡ moved_to self.old log }
    {
        self.fetch = None;
        self.is_reached = false;
        self.log = log;
    }

    /// Nothing is kept or fetched any more: the ring's table is gone.
    pub fn clear(&mut self)
        ensures { self.new ≡ cleared self.old }
    {
        self.fetch = None;
        self.pages.clear();
        self.rows.clear();
        self.is_reached = false;
    }

    /// Whether all its areas are kept.
    pub fn is_reached(&self) -> bool
        ensures { result ≡ self.now.is_reached }
    {
        self.is_reached
    }

    /// Where writes to its used ring are logged.
    pub fn log(&self) -> Option<u64>
        ensures { result ≡ self.now.log }
    {
        self.log
    }

    // ---- what is fetched

    /// Takes what is fetched, if something is.
    pub fn take_fetch(&mut self) -> Option<Fetch>
        ensures taken { result ≡ self.old.fetch }
        ensures none { self.new ≡ record self.old { fetch = None } }
    {
        self.fetch.take()
    }

    /// Sets what is fetched.
    pub fn set_fetch(&mut self, fetch: Option<Fetch>)
        ensures { self.new ≡ record self.old { fetch = fetch } }
    {
        self.fetch = fetch;
    }

    // Whether something is fetched.
    pub fn is_fetching(&self) -> bool
        ensures { result ≡ is_some self.now.fetch }
    {
        self.fetch.is_some()
    }

    /// How many ranges may be kept of this, for a ring of so many slots.
    pub fn most_for(&self, slots: usize, goal: &Goal) -> usize
        ensures { result ≡ most_for self.now slots goal.now }
    {
        let most = most_of(slots);
        match goal {
            Goal::Rows => most.saturating_sub(self.rows.as_slice().len()),
            _ => most,
        }
    }

    /// The I/O address without a mapping that the ring waits for, and for what.
    pub fn waits_for(&self) -> Option<(u64, Permissions)>
        ensures { result ≡ waited_for self.now.fetch }
    {
        match &self.fetch {
            Some(fetch) => waited_in(fetch.state()),
            None => None,
        }
    }

    /// The mapping that the ring waits for does not come.
    pub fn refuse(&mut self)
        ensures { self.new ≡ refused self.old }
    {
        if let Some(fetch) = &mut self.fetch {
            fetch.stop();
        }
    }

    // How many ranges may be kept of what is fetched.
    fn most_at(&self, slots: usize) -> usize
        ensures { result ≡ most_at self.now slots self.now.fetch }
    {
        match &self.fetch {
            Some(fetch) => self.most_for(slots, fetch.goal()),
            None => 0,
        }
    }

    /// Looks up what the ring waits for. Returns whether it waits no more.
    pub fn resume(&mut self, table: &Iotlb, slots: usize) -> bool
        ensures { ResumesFetch (says table.now) slots self.old result self.new }
    {
        let most = self.most_at(slots);
        resume(&mut self.fetch, table, most)
    }

    // ---- what is kept

    /// Keeps the areas of the ring that were found.
    pub fn keep_areas<H, D: RingMemory<H>>(
        &mut self,
        mem: &D,
        host: &mut H,
        areas: Vec<Kept>,
    ) -> Result<(), AllocError>
        requires held { D.held mem.now host.old }
        requires real { All IsReal areas.items }
        ensures keeps { KeepsAll (D.steps mem.now) areas.items host.old result host.new }
        ensures after { self.new ≡ areas_kept self.old areas.items result }
        ensures held { D.held mem.now host.new }
    {
        let done = keep_all(mem, host, areas.as_slice());
        self.is_reached = done.is_ok();
        self.pages = KeptList::of(areas);
        done
    }

    /// Adds rows to what is kept, unless an allocation fails.
    pub fn add_rows(&mut self, more: &[Kept]) -> Result<(), AllocError>
        requires { All IsReal more.now }
        ensures { self.new ≡ rows_added self.old more.now result }
    {
        self.rows.add(more)
    }

    // Forgets what is kept in the table of the ring's memory.
    fn forget_both<H, D: RingMemory<H>>(&self, mem: &D, host: &mut H) -> Result<(), AllocError>
        requires { D.held mem.now host.old }
        ensures forgets { ForgetsBoth (D.steps mem.now) self.now host.old result host.new }
        ensures held { D.held mem.now host.new }
    {
        match forget_all(mem, host, self.pages.as_slice()) {
            Ok(()) => forget_all(mem, host, self.rows.as_slice()),
            Err(error) => Err(error),
        }
    }

    // Nothing is kept, if that is so.
    fn clear_if(&mut self, done: Result<(), AllocError>)
        ensures { self.new ≡ forgotten self.old done }
    {
        if done.is_ok() {
            self.pages.clear();
            self.rows.clear();
        }
    }

    /// Forgets what is kept.
    pub fn forget<H, D: RingMemory<H>>(&mut self, mem: &D, host: &mut H) -> Result<(), AllocError>
        requires { D.held mem.now host.old }
        ensures forgets { ForgetsBoth (D.steps mem.now) self.old host.old result host.new }
        ensures after { self.new ≡ forgotten self.old result }
        ensures held { D.held mem.now host.new }
    {
        let done = self.forget_both(mem, host);
        self.clear_if(done);
        done
    }

    /// Forgets the rows that are kept.
    pub fn forget_rows<H, D: RingMemory<H>>(
        &mut self,
        mem: &D,
        host: &mut H,
    ) -> Result<(), AllocError>
        requires { D.held mem.now host.old }
        ensures forgets { ForgetsAll (D.steps mem.now) self.old.rows host.old result host.new }
        ensures after { self.new ≡ rows_forgotten self.old result }
        ensures held { D.held mem.now host.new }
    {
        let done = forget_all(mem, host, self.rows.as_slice());
        if done.is_ok() {
            self.rows.clear();
        }
        done
    }

    // ---- changes of what the front end says

    /// Whether the areas of the ring may lead elsewhere after a change, or nowhere.
    pub fn uses_areas(&self, change: &Change) -> bool
        requires { Fits change.now }
        ensures { result ≡ list_any (differs change.now) self.now.pages }
    {
        any_differs(change, self.pages.as_slice())
    }

    fn uses_rows(&self, change: &Change) -> bool
        requires { Fits change.now }
        ensures { result ≡ list_any (differs change.now) self.now.rows }
    {
        any_differs(change, self.rows.as_slice())
    }

    // Drops what was fetched. The areas are to be fetched anew.
    fn drop_all(&mut self)
        ensures { self.new ≡ dropped self.old }
    {
        self.fetch = None;
        self.is_reached = false;
    }

    // Drops what is fetched, if something of that may lead elsewhere after a change.
    fn drop_changed(&mut self, change: &Change) -> bool
        requires { Fits change.now }
        ensures was { result ≡ is_dropped change.now self.old.fetch }
        ensures after { self.new ≡ record self.old { fetch = after_drop change.now self.old.fetch } }
    {
        drop_changed(&mut self.fetch, change)
    }

    // The areas lead on after a change.
    fn change_others<H, D: RingMemory<H>>(
        &mut self,
        mem: &D,
        host: &mut H,
        change: &Change,
    ) -> Result<bool, AllocError>
        requires held { D.held mem.now host.old }
        requires fits { Fits change.now }
        ensures changes { ChangesOthers (D.steps mem.now) change.now self.old host.old result self.new host.new }
        ensures held { D.held mem.now host.new }
    {
        if !self.uses_rows(change) {
            return Ok(self.drop_changed(change));
        }
        let had = self.is_fetching();
        self.set_fetch(None);
        changed_by(had, self.forget_rows(mem, host))
    }

    /// Takes note of a change of what the front end says: what was found that may lead elsewhere after it is dropped,
    /// and forgotten in the table of the ring's memory, with what was found through it. Returns whether something was
    /// dropped that was being fetched. If an allocation fails, that table may have kept some of it.
    pub fn change<H, D: RingMemory<H>>(
        &mut self,
        mem: &D,
        host: &mut H,
        change: &Change,
    ) -> Result<bool, AllocError>
        requires held { D.held mem.now host.old }
        requires fits { Fits change.now }
        ensures changes { Changes (D.steps mem.now) change.now self.old host.old result self.new host.new }
        ensures held { D.held mem.now host.new }
    {
        if !self.uses_areas(change) {
            return self.change_others(mem, host, change);
        }
        let had = self.is_fetching();
        self.drop_all();
        changed_by(had, self.forget(mem, host))
    }
}
