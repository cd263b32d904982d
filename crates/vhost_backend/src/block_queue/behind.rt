//! The queue of a ring whose addresses a table translates: what it reads and writes is fetched first.
ghost use Rattle.std.specs.Prelude.{◌≡◌, ◌^◌, ◌<◌, [], All, IfOk};
ghost use Rattle.vm_memory_base.specs.Table.{says};
ghost use Rattle.vhost_iotlb.specs.Kept.{IsReal};
ghost use Rattle.vhost_backend.specs.Behind.{LooksUp, chain_begun, gone_on, is_refused, missed_by};
ghost use Rattle.vhost_backend.specs.Behind.{open_terms, or_empty, origin_of, read_on};
ghost use Rattle.vhost_backend.specs.Fetch.{guest_chain};

use super::limits::{is_refused, open_terms};
use super::{Asked, BlockQueue, event_of, refused, shortened};
use crate::block::{block_parts, len_of};
use crate::fetch::{Fetch, Found, Goal, State, guest_chain, has_gap};
use crate::kept_ranges::keep_all;
use crate::reach::KeptList;
use crate::request::Chain;
use crate::ring::RingEvent;
use crate::ring_memory::RingMemory;
use std::alloc::{AllocError, Global};
use vhost_iotlb::Kept;
use virtio_blk::DeviceLimits;
use virtio_queue::{PackedBuffer, QueueError};
use vm_memory_base::{IommuError, Iotlb, IovaRange, Reason};
use vm_memory_device::Chain as Descriptors;
use vm_memory_guest::GuestMemoryError;

/// The table that translates the addresses of rings, and whether a mapping that it misses can be asked for.
#[derive(Clone, Copy)]
pub struct Way<'a> {
    /// The table.
    pub table: &'a Iotlb,
    /// If not, a mapping that is missed does not come.
    pub can_ask: bool,
}

/// Where a chain came from that was fetched, and what is returned of it.
#[derive(Clone, Copy)]
pub struct Origin {
    /// What it is returned by.
    pub buffer: PackedBuffer,
    /// Where the queue pops its next chain after this one.
    pub after: u16,
    /// Its bytes before the status were not found: it is returned as one to which nothing was written.
    pub gap: bool,
}

fn origin_of(found: &Found, gap: bool) -> Origin
    ensures { result ≡ origin_of found.now gap }
{
    Origin {
        buffer: found.buffer,
        after: found.after,
        gap,
    }
}

// ---- without memory

// The ring goes on. If an allocation failed, it does so by another try.
fn gone_on(done: Result<(), AllocError>) -> Option<RingEvent>
    ensures { result ≡ gone_on done }
{
    match done {
        Ok(()) => Some(RingEvent::Kick),
        Err(_) => None,
    }
}

fn read_on(read: Result<(), QueueError>) -> Option<RingEvent>
    ensures { result ≡ read_on read }
{
    match read {
        Ok(()) => Some(RingEvent::Kick),
        Err(error) => event_of(refused(error)),
    }
}

// The fetch of a chain, or of its status alone.
fn chain_fetch(alloc: Global, is_refused: bool, found: Found) -> Result<Option<Fetch>, AllocError>
    ensures { IfOk result (λ fetch. fetch ≡ chain_begun is_refused found) }
{
    if is_refused {
        Fetch::of_status(alloc, found)
    } else {
        Fetch::of_chain(alloc, found)
    }
}

// The chain of these guest addresses. If they are none, it has no bytes.
fn chain_of(alloc: Global, kept: &[Kept]) -> Result<Descriptors, AllocError>
    ensures { IfOk result (λ chain. chain ≡ or_empty (guest_chain kept.now)) }
{
    if let Some(chain) = guest_chain(alloc, kept)? {
        return Ok(chain);
    }
    empty_chain(alloc)
}

fn empty_chain(alloc: Global) -> Result<Descriptors, AllocError>
    ensures { IfOk result (λ chain. chain ≡ []) }
{
    match Descriptors::new(Vec::new(alloc)) {
        Ok(chain) => Ok(chain),
        Err(_) => Err(AllocError),
    }
}

// The row that a pop missed, if it did.
fn missed_by(error: &QueueError) -> Option<IovaRange>
    ensures { result ≡ missed_by error.now }
{
    match error {
        QueueError::GuestMemory(
            GuestMemoryError::IommuError(
                IommuError::CannotResolve {
                    iova_range,
                    reason: Reason::MissingMapping,
                },
            ),
        ) => Some(*iova_range),
        _ => None,
    }
}

// Looks up what is fetched, unless that stopped.
fn looked_up(mut fetch: Fetch, table: &Iotlb, most: usize) -> Fetch
    ensures { LooksUp (says table.now) most fetch.state fetch result }
{
    match fetch.state() {
        State::Begun | State::Waits(_, _) => {
            fetch.go_on(table, most);
            fetch
        }
        State::Stops | State::Whole => fetch,
    }
}

impl BlockQueue {
    ghost use Rattle.vhost_backend.specs.Behind.{AfterAskBehind, AfterFind, AfterLook, AfterLookUp, BeginsFetched};
    ghost use Rattle.vhost_backend.specs.Behind.{Fetches, FetchesChain, FetchesNext, FetchesRow, Finds, FindsNext};
    ghost use Rattle.vhost_backend.specs.Behind.{GivesUp, HappensBehind, KeepsAreas, KeepsRows, ReachesRing};
    ghost use Rattle.vhost_backend.specs.Behind.{TakesFetched, Uses, WaitsBehind, fetching};

    // A fetch begins, and the ring goes on.
    fn begin_fetch(&mut self, fetch: Result<Option<Fetch>, AllocError>) -> Option<RingEvent>
        ensures { (result, self.new) ≡ fetching self.old fetch }
    {
        match fetch {
            Ok(Some(fetch)) => {
                self.reach.set_fetch(Some(fetch));
                Some(RingEvent::Kick)
            }
            Ok(None) => {
                self.reach.set_fetch(None);
                Some(RingEvent::Break)
            }
            Err(_) => {
                self.reach.set_fetch(None);
                None
            }
        }
    }

    // The ring's areas were found: they are kept.
    fn keep_areas<H, D: RingMemory<H>>(
        &mut self,
        mem: &D,
        host: &mut H,
        kept: Vec<Kept>,
    ) -> Option<RingEvent>
        requires held { D.held mem.now host.old }
        requires real { All IsReal kept.items }
        ensures keeps { KeepsAreas (D.steps mem.now) self.old kept.items host.old result self.new host.new }
        ensures held { D.held mem.now host.new }
    {
        gone_on(self.reach.keep_areas(mem, host, kept))
    }

    // Rows were found: they are kept.
    fn keep_rows<H, D: RingMemory<H>>(
        &mut self,
        mem: &D,
        host: &mut H,
        kept: Vec<Kept>,
    ) -> Option<RingEvent>
        requires held { D.held mem.now host.old }
        requires real { All IsReal kept.items }
        ensures keeps { KeepsRows (D.steps mem.now) self.old kept.items host.old result self.new host.new }
        ensures held { D.held mem.now host.new }
    {
        match self.reach.add_rows(kept.as_slice()) {
            Ok(()) => gone_on(keep_all(mem, host, kept.as_slice())),
            Err(_) => None,
        }
    }

    // Reads the header of a chain that was found.
    fn begin_fetched<H, D: RingMemory<H>>(
        &mut self,
        mem: &D,
        host: &mut H,
        terms: DeviceLimits,
        origin: Origin,
        chain: Descriptors,
        kept: Vec<Kept>,
    ) -> Option<RingEvent>
        requires held { D.held mem.now host.old }
        requires small { terms.sectors < 2 ^ 55 }
        requires real { All IsReal kept.items }
        ensures begins { BeginsFetched (D.steps mem.now) terms self.old origin chain kept.items host.old result self.new
            host.new }
        ensures held { D.held mem.now host.new }
    {
        let returned = Chain {
            id: origin.buffer.id,
            slots: origin.buffer.slots,
        };
        if !self.has_place(returned.id) {
            self.queue.go_back(origin.after);
            return Some(RingEvent::Popped(returned, 0, 0));
        }
        match mem.begin(host, open_terms(terms), &chain) {
            Ok(request) => {
                let request = shortened(request, 0, 0);
                self.queue.go_back(origin.after);
                self.put_asked(
                    returned.id,
                    Asked {
                        chain,
                        request,
                        kept: KeptList::of(kept),
                        gap: origin.gap,
                    },
                );
                Some(RingEvent::Popped(returned, block_parts(request), len_of(request) as u64))
            }
            Err(_) => None,
        }
    }

    // The bytes of a chain were found: it is popped.
    fn take_fetched<H, D: RingMemory<H>>(
        &mut self,
        alloc: Global,
        mem: &D,
        host: &mut H,
        terms: DeviceLimits,
        origin: Origin,
        kept: Vec<Kept>,
    ) -> Option<RingEvent>
        requires held { D.held mem.now host.old }
        requires small { terms.sectors < 2 ^ 55 }
        requires real { All IsReal kept.items }
        ensures takes { TakesFetched (D.steps mem.now) terms self.old origin kept.items host.old result self.new
            host.new }
        ensures held { D.held mem.now host.new }
    {
        match chain_of(alloc, kept.as_slice()) {
            Ok(chain) => self.begin_fetched(mem, host, terms, origin, chain, kept),
            Err(_) => None,
        }
    }

    // What was fetched is whole, and is used.
    fn use_fetch<H, D: RingMemory<H>>(
        &mut self,
        alloc: Global,
        mem: &D,
        host: &mut H,
        terms: DeviceLimits,
        fetch: Fetch,
    ) -> Option<RingEvent>
        requires held { D.held mem.now host.old }
        requires small { terms.sectors < 2 ^ 55 }
        ensures uses { Uses (D.steps mem.now) terms self.old fetch.goal fetch.kept host.old result self.new host.new }
        ensures held { D.held mem.now host.new }
    {
        let (goal, kept) = fetch.into_parts();
        match goal {
            Goal::Ring => self.keep_areas(mem, host, kept),
            Goal::Rows => self.keep_rows(mem, host, kept),
            Goal::Chain(found) => {
                self.take_fetched(alloc, mem, host, terms, origin_of(&found, false), kept)
            }
            Goal::Status(found) => {
                let from = origin_of(&found, has_gap(&found.chain));
                self.take_fetched(alloc, mem, host, terms, from, kept)
            }
        }
    }

    // What was fetched cannot be found.
    fn give_up<H, D: RingMemory<H>>(
        &mut self,
        alloc: Global,
        mem: &D,
        host: &mut H,
        terms: DeviceLimits,
        fetch: Fetch,
    ) -> Option<RingEvent>
        requires held { D.held mem.now host.old }
        requires small { terms.sectors < 2 ^ 55 }
        ensures gives { GivesUp (D.steps mem.now) terms self.old fetch.goal host.old result self.new host.new }
        ensures held { D.held mem.now host.new }
    {
        let (goal, _) = fetch.into_parts();
        match goal {
            Goal::Ring | Goal::Rows => Some(RingEvent::Break),
            Goal::Chain(found) => {
                let fetch = Fetch::of_status(alloc, found);
                self.begin_fetch(fetch)
            }
            Goal::Status(found) => {
                let from = origin_of(&found, false);
                self.take_fetched(alloc, mem, host, terms, from, Vec::new(alloc))
            }
        }
    }

    // What is fetched is looked up, and the ring goes on or waits.
    fn go_on_fetching<H, D: RingMemory<H>>(
        &mut self,
        alloc: Global,
        mem: &D,
        host: &mut H,
        terms: DeviceLimits,
        way: Way<'_>,
        fetch: Fetch,
    ) -> Option<RingEvent>
        requires held { D.held mem.now host.old }
        requires small { terms.sectors < 2 ^ 55 }
        ensures fetches { Fetches (D.steps mem.now) (says way.entry.table.now) way.entry.can_ask terms self.old fetch
            host.old result self.new host.new }
        ensures held { D.held mem.now host.new }
    {
        let most = self.reach.most_for(self.asked.len(), fetch.goal());
        let fetch = looked_up(fetch, way.table, most);
        self.after_look_up(alloc, mem, host, terms, way.can_ask, fetch)
    }

    fn after_look_up<H, D: RingMemory<H>>(
        &mut self,
        alloc: Global,
        mem: &D,
        host: &mut H,
        terms: DeviceLimits,
        can_ask: bool,
        fetch: Fetch,
    ) -> Option<RingEvent>
        requires held { D.held mem.now host.old }
        requires small { terms.sectors < 2 ^ 55 }
        ensures after { AfterLookUp (D.steps mem.now) can_ask terms self.old fetch fetch.state host.old result
            self.new host.new }
        ensures held { D.held mem.now host.new }
    {
        match fetch.state() {
            State::Begun => {
                self.reach.set_fetch(Some(fetch));
                None
            }
            State::Waits(_, _) => {
                if can_ask {
                    self.reach.set_fetch(Some(fetch));
                    return Some(RingEvent::Emptied);
                }
                self.give_up(alloc, mem, host, terms, fetch)
            }
            State::Stops => self.give_up(alloc, mem, host, terms, fetch),
            State::Whole => self.use_fetch(alloc, mem, host, terms, fetch),
        }
    }

    // ---- what is fetched next

    // Forgets what was kept at the ring's last place, and fetches its areas.
    fn reach_ring<H, D: RingMemory<H>>(
        &mut self,
        alloc: Global,
        mem: &D,
        host: &mut H,
    ) -> Option<RingEvent>
        requires { D.held mem.now host.old }
        ensures reaches { ReachesRing (D.steps mem.now) self.old host.old result self.new host.new }
        ensures held { D.held mem.now host.new }
    {
        match self.reach.forget(mem, host) {
            Ok(()) => {
                let fetch = Fetch::of_ring(alloc, &self.queue, self.reach.log());
                self.begin_fetch(fetch)
            }
            Err(_) => None,
        }
    }

    // Looks at the next chain, which stays the next one.
    fn find<H, D: RingMemory<H>>(
        &mut self,
        alloc: Global,
        mem: &D,
        host: &mut H,
    ) -> Result<Option<Found>, QueueError>
        requires { D.held mem.now host.old }
        ensures finds { Finds (D.steps mem.now) self.old.queue host.old result host.new }
        ensures stays { self.new ≡ self.old }
        ensures held { D.held mem.now host.new }
    {
        let next = self.queue.next_avail();
        match mem.pop(host, alloc, &mut self.spare.next, &mut self.queue) {
            Ok(Some((buffer, chain))) => {
                let after = self.queue.next_avail();
                self.queue.go_back(next);
                Ok(Some(Found {
                    chain,
                    buffer,
                    after,
                }))
            }
            Ok(None) => Ok(None),
            Err(error) => Err(error),
        }
    }

    // Fetches the bytes of a chain, and forgets the rows that led to it.
    fn fetch_chain<H, D: RingMemory<H>>(
        &mut self,
        alloc: Global,
        mem: &D,
        host: &mut H,
        terms: DeviceLimits,
        found: Found,
    ) -> Option<RingEvent>
        requires { D.held mem.now host.old }
        ensures fetches { FetchesChain (D.steps mem.now) terms self.old found host.old result self.new host.new }
        ensures held { D.held mem.now host.new }
    {
        match self.reach.forget_rows(mem, host) {
            Ok(()) => {
                let bad = is_refused(terms, self.asked.len(), found.chain.segments());
                let fetch = chain_fetch(alloc, bad, found);
                self.begin_fetch(fetch)
            }
            Err(_) => None,
        }
    }

    // Fetches a row that was missed.
    fn fetch_row(&mut self, alloc: Global, error: QueueError) -> Option<RingEvent>
        ensures { FetchesRow self.old error result self.new }
    {
        match missed_by(&error) {
            Some(range) => {
                let fetch = Fetch::of_row(alloc, range.base.0, range.length as u64);
                self.begin_fetch(fetch)
            }
            None => event_of(refused(error)),
        }
    }

    // Nothing was found after the driver was asked to notify, or something was.
    pub(super) fn after_look<H, D: RingMemory<H>>(
        &mut self,
        alloc: Global,
        mem: &D,
        host: &mut H,
        terms: DeviceLimits,
        found: Result<Option<Found>, QueueError>,
    ) -> Option<RingEvent>
        requires { D.held mem.now host.old }
        ensures after { AfterLook (D.steps mem.now) terms self.old found host.old result self.new
            host.new }
        ensures held { D.held mem.now host.new }
    {
        match found {
            Ok(Some(found)) => self.fetch_chain(alloc, mem, host, terms, found),
            Ok(None) => Some(RingEvent::Emptied),
            Err(error) => self.fetch_row(alloc, error),
        }
    }

    // There was no chain.
    fn wait_behind<H, D: RingMemory<H>>(
        &mut self,
        alloc: Global,
        mem: &D,
        host: &mut H,
        terms: DeviceLimits,
    ) -> Option<RingEvent>
        requires { D.held mem.now host.old }
        ensures waits { WaitsBehind (D.steps mem.now) terms self.old host.old result self.new host.new }
        ensures held { D.held mem.now host.new }
    {
        match self.ask(mem, host) {
            Ok(true) => {
                let found = self.find(alloc, mem, host);
                self.after_look(alloc, mem, host, terms, found)
            }
            Ok(false) => Some(RingEvent::Emptied),
            Err(error) => event_of(refused(error)),
        }
    }

    // Finds the next chain, and fetches its bytes, or what led to it and was missed.
    fn find_next<H, D: RingMemory<H>>(
        &mut self,
        alloc: Global,
        mem: &D,
        host: &mut H,
        terms: DeviceLimits,
    ) -> Option<RingEvent>
        requires { D.held mem.now host.old }
        ensures finds { FindsNext (D.steps mem.now) terms self.old host.old result self.new host.new }
        ensures held { D.held mem.now host.new }
    {
        match self.find(alloc, mem, host) {
            Ok(Some(found)) => self.fetch_chain(alloc, mem, host, terms, found),
            Ok(None) => self.wait_behind(alloc, mem, host, terms),
            Err(error) => self.fetch_row(alloc, error),
        }
    }

    // What is fetched next, if nothing is.
    fn fetch_next<H, D: RingMemory<H>>(
        &mut self,
        alloc: Global,
        mem: &D,
        host: &mut H,
        terms: DeviceLimits,
    ) -> Option<RingEvent>
        requires { D.held mem.now host.old }
        ensures next { FetchesNext (D.steps mem.now) terms self.old host.old result self.new host.new }
        ensures held { D.held mem.now host.new }
    {
        if !self.reach.is_reached() {
            return self.reach_ring(alloc, mem, host);
        }
        if self.is_unread {
            return read_on(self.read_place(mem, host));
        }
        self.find_next(alloc, mem, host, terms)
    }

    /// What happens next in its turn to a ring whose addresses a table translates. First its areas are fetched, then it
    /// is read where chains are returned. Then each chain is found and stays the next one while its bytes are fetched,
    /// and is popped when all are found: as `Kick` the ring goes on with the next stage, and as `Emptied` it waits for
    /// a mapping, or for a chain. A chain of which something cannot be fetched fails, and a ring of which something
    /// cannot be breaks. `None` if an allocation failed: another try may do it.
    pub fn next_behind<H, D: RingMemory<H>>(
        &mut self,
        alloc: Global,
        mem: &D,
        host: &mut H,
        terms: DeviceLimits,
        way: Way<'_>,
    ) -> Option<RingEvent>
        requires held { D.held mem.now host.old }
        requires small { terms.sectors < 2 ^ 55 }
        ensures next { HappensBehind (D.steps mem.now) (says way.entry.table.now) way.entry.can_ask terms self.old
            host.old result self.new host.new }
        ensures held { D.held mem.now host.new }
    {
        match self.reach.take_fetch() {
            Some(fetch) => self.go_on_fetching(alloc, mem, host, terms, way, fetch),
            None => self.fetch_next(alloc, mem, host, terms),
        }
    }
}
