//! The queue of a ring whose requests in flight are stored in a region: where it goes on after a start, and what it
//! stores at each pop and each return.
ghost use Rattle.std.specs.Prelude.{◌≡◌, ◌^◌, ◌<◌};
ghost use Rattle.vhost_backend.specs.Flight.{PackedStartsBy, base_in, bits_of, is_due, is_open, next_used_of};
ghost use Rattle.vhost_backend.specs.Flight.{packed_refused, size_of, start_refused, stood_at, used_ring_of};
ghost use Rattle.vhost_backend.specs.Sight.{sight_of};

use super::marks::mark_logged;
use super::{BlockQueue, GiveBack, Way, event_of, refused};
use crate::flight::{FlightPlace, track_at};
use crate::packed_flight::{PackedFlight, track_packed_at};
use crate::pieces::Piece;
use crate::region::RegionBytes;
use crate::request::Chain;
use crate::ring::RingEvent;
use crate::ring_memory::RingMemory;
use std::alloc::Global;
use vhost_inflight::{
    PackedPosition, PackedReturn, PackedStart, PackedStartError, SplitInFlight, SplitStart,
    StartError, packed_old_slot, start_packed, start_split,
};
use virtio_blk::DeviceLimits;
use virtio_queue::{AnyQueue, PackedQueue, QueueError, RingPosition};

// A region that no run leaves breaks its ring. If an allocation failed, it is read again.
fn start_refused(error: StartError) -> Option<RingEvent>
    ensures { result ≡ start_refused error }
{
    match error {
        StartError::Memory => None,
        _ => Some(RingEvent::Break),
    }
}

fn packed_refused(error: PackedStartError) -> Option<RingEvent>
    ensures { result ≡ packed_refused error }
{
    match error {
        PackedStartError::Memory => None,
        _ => Some(RingEvent::Break),
    }
}

// Where a packed queue goes on if its part of the region is fresh.
fn base_in(queue: &PackedQueue) -> PackedPosition
    ensures { result ≡ base_in queue.now.state }
{
    let next = queue.state().next_used;
    PackedPosition {
        slot: next.slot,
        wrap: next.wrap,
    }
}

fn bits_of(position: PackedPosition) -> u16
    ensures { result ≡ bits_of position }
{
    let position = RingPosition {
        slot: position.slot,
        wrap: position.wrap,
    };
    position.to_bits()
}

// Has a packed queue go on where a start says.
fn stand_at(queue: &mut AnyQueue, next_avail: PackedPosition, next_used: PackedPosition)
    ensures { queue.new ≡ stood_at queue.old next_avail next_used }
{
    if let AnyQueue::Packed(queue) = queue {
        let base = u32::from(bits_of(next_avail)) + 0x1_0000 * u32::from(bits_of(next_used));
        let _ = queue.set_vring_base(base);
    }
}

// Where a packed ring goes on by its part of the region, and the flags of the slot that this names.
fn start_by(
    alloc: Global,
    bytes: &RegionBytes,
    descriptors: u16,
    size: u16,
    base: PackedPosition,
    flags: u16,
) -> Result<PackedStart, PackedStartError>
    ensures { PackedStartsBy bytes.now descriptors size base flags result }
{
    start_packed(alloc, bytes.as_slice(), descriptors, size, base, flags)
}

// Where a split queue returns its next chain.
fn next_used_of(queue: &AnyQueue) -> u16
    ensures { result ≡ next_used_of queue.now }
{
    match queue {
        AnyQueue::Split(queue) => queue.next_used(),
        AnyQueue::Packed(_) => 0,
    }
}

fn size_of(queue: &AnyQueue) -> u16
    ensures { result ≡ size_of queue.now }
{
    match queue {
        AnyQueue::Split(queue) => queue.size(),
        AnyQueue::Packed(queue) => queue.size(),
    }
}

// A used ring as a whole.
fn used_ring_of(queue: &AnyQueue) -> Piece
    ensures { result ≡ used_ring_of queue.now }
{
    let (base, len) = match queue {
        AnyQueue::Split(queue) => {
            let state = queue.state();
            (state.used_ring, 6 + 8 * u64::from(state.size))
        }
        AnyQueue::Packed(queue) => {
            let state = queue.state();
            (state.desc_ring, 16 * u64::from(state.size))
        }
    };
    Piece {
        base,
        offset: 0,
        len,
    }
}

impl BlockQueue {
    ghost use Rattle.vhost_backend.specs.Flight.{AfterOld, AfterPackedStart, AfterRegion, AfterStart, FliesAt, FliesBy};
    ghost use Rattle.vhost_backend.specs.Flight.{GivesIn, GivesPacked, HappensFirst, HappensIn, Lands, LandsPacked};
    ghost use Rattle.vhost_backend.specs.Flight.{ReadsOld, ReadsRegion, Resumes, after_of, next_again};

    // Whether its areas can be read.
    pub(super) fn is_open(&self, way: Option<&Way<'_>>) -> bool
        ensures { result ≡ is_open (sight_of way.entry) self.now }
    {
        match way {
            Some(_) => self.reach.is_reached() && !self.reach.is_fetching(),
            None => true,
        }
    }

    // Whether its part of the region is read next.
    #[inline(always)]
    fn is_due(&self, way: Option<&Way<'_>>) -> bool
        ensures { result ≡ is_due (sight_of way.entry) self.now }
    {
        self.flight.is_unread() && self.is_open(way)
    }

    // ---- a start

    // Goes on where the region and the ring say.
    fn go_on_by<H, D: RingMemory<H>>(
        &mut self,
        mem: &D,
        host: &mut H,
        place: FlightPlace,
        start: Result<SplitStart, StartError>,
    ) -> Option<RingEvent>
        requires { D.held mem.now host.old }
        ensures after { AfterStart (D.steps mem.now) self.old place start host.old result self.new host.new }
        ensures held { D.held mem.now host.new }
    {
        match start {
            Ok(start) => {
                track_at(mem, host, Some(place), start.stores.as_slice());
                mark_logged(mem, host, self.reach.log(), used_ring_of(&self.queue));
                self.queue.go_back(start.next_avail);
                self.flight.go_on(start.in_flight, start.again);
                Some(RingEvent::Kick)
            }
            Err(error) => start_refused(error),
        }
    }

    fn go_on_with<H, D: RingMemory<H>>(
        &mut self,
        alloc: Global,
        mem: &D,
        host: &mut H,
        place: FlightPlace,
        start: PackedStart,
    ) -> Option<RingEvent>
        requires { D.held mem.now host.old }
        ensures after { AfterPackedStart (D.steps mem.now) self.old place (Ok start) host.old result self.new host.new }
        ensures held { D.held mem.now host.new }
    {
        let ids = self.asked.len();
        match PackedFlight::new(alloc, start.in_flight, start.again, start.copies, ids) {
            Ok(flight) => {
                track_packed_at(mem, host, Some(place), start.stores.as_slice());
                mark_logged(mem, host, self.reach.log(), used_ring_of(&self.queue));
                stand_at(&mut self.queue, start.next_avail, start.next_used);
                self.flight.go_on_packed(flight);
                Some(RingEvent::Kick)
            }
            Err(_) => None,
        }
    }

    fn go_on_packed<H, D: RingMemory<H>>(
        &mut self,
        alloc: Global,
        mem: &D,
        host: &mut H,
        place: FlightPlace,
        start: Result<PackedStart, PackedStartError>,
    ) -> Option<RingEvent>
        requires { D.held mem.now host.old }
        ensures after { AfterPackedStart (D.steps mem.now) self.old place start host.old result self.new host.new }
        ensures held { D.held mem.now host.new }
    {
        match start {
            Ok(start) => self.go_on_with(alloc, mem, host, place, start),
            Err(error) => packed_refused(error),
        }
    }

    // The flags of the slot that the region names, if it names one.
    fn read_old<H, D: RingMemory<H>>(
        mem: &D,
        host: &mut H,
        queue: &PackedQueue,
        slot: Option<u16>,
    ) -> Result<u16, QueueError>
        requires { D.held mem.now host.old }
        ensures reads { ReadsOld (D.steps mem.now) queue.now slot host.old result host.new }
        ensures held { D.held mem.now host.new }
    {
        match slot {
            Some(slot) => mem.flags_at(host, queue, slot),
            None => Ok(0),
        }
    }

    fn go_on_old<H, D: RingMemory<H>>(
        &mut self,
        alloc: Global,
        mem: &D,
        host: &mut H,
        place: FlightPlace,
        bytes: &RegionBytes,
        ring: (u16, PackedPosition),
        flags: Result<u16, QueueError>,
    ) -> Option<RingEvent>
        requires { D.held mem.now host.old }
        ensures after { AfterOld (D.steps mem.now) ring.0 ring.1 self.old place bytes.now flags host.old result self.new
            host.new }
        ensures held { D.held mem.now host.new }
    {
        match flags {
            Ok(flags) => {
                let start = start_by(alloc, bytes, place.descriptors, ring.0, ring.1, flags);
                self.go_on_packed(alloc, mem, host, place, start)
            }
            Err(error) => event_of(refused(error)),
        }
    }

    fn go_on_from<H, D: RingMemory<H>>(
        &mut self,
        alloc: Global,
        mem: &D,
        host: &mut H,
        place: FlightPlace,
        bytes: &RegionBytes,
    ) -> Option<RingEvent>
        requires { D.held mem.now host.old }
        ensures after { AfterRegion (D.steps mem.now) self.old place (Ok bytes.now) host.old result self.new host.new }
        ensures held { D.held mem.now host.new }
    {
        match &self.queue {
            AnyQueue::Split(_) => {
                let (size, used) = (size_of(&self.queue), next_used_of(&self.queue));
                let start = start_split(alloc, bytes.as_slice(), place.descriptors, size, used);
                self.go_on_by(mem, host, place, start)
            }
            AnyQueue::Packed(queue) => {
                let (size, base) = (queue.size(), base_in(queue));
                let slot = packed_old_slot(bytes.as_slice(), size);
                let flags = Self::read_old(mem, host, queue, slot);
                self.go_on_old(alloc, mem, host, place, bytes, (size, base), flags)
            }
        }
    }

    // Reads its part of the region.
    fn read_region<H, D: RingMemory<H>>(
        &mut self,
        alloc: Global,
        mem: &D,
        host: &mut H,
    ) -> Option<RingEvent>
        requires { D.held mem.now host.old }
        ensures reads { ReadsRegion (D.steps mem.now) self.old self.old.flight.place host.old result self.new host.new }
        ensures held { D.held mem.now host.new }
    {
        let Some(place) = self.flight.place() else {
            self.flight.skip();
            return Some(RingEvent::Kick);
        };
        match mem.read_region(host, alloc, place.base, place.len) {
            Ok(bytes) => self.go_on_from(alloc, mem, host, place, &bytes),
            Err(_) => None,
        }
    }

    // Reads where the ring returns its chains, and then its part of the region.
    fn resume_flight<H, D: RingMemory<H>>(
        &mut self,
        alloc: Global,
        mem: &D,
        host: &mut H,
    ) -> Option<RingEvent>
        requires { D.held mem.now host.old }
        ensures resumes { Resumes (D.steps mem.now) self.old host.old result self.new host.new }
        ensures held { D.held mem.now host.new }
    {
        match self.read_place(mem, host) {
            Ok(()) => self.read_region(alloc, mem, host),
            Err(error) => event_of(refused(error)),
        }
    }

    // ---- turns

    fn first_event<H, D: RingMemory<H>>(
        &mut self,
        alloc: Global,
        mem: &D,
        host: &mut H,
        terms: DeviceLimits,
        way: Option<&Way<'_>>,
    ) -> Option<RingEvent>
        requires held { D.held mem.now host.old }
        requires small { terms.sectors < 2 ^ 55 }
        ensures first { HappensFirst (D.steps mem.now) terms (sight_of way.entry) self.old (next_again self.old.flight)
            host.old result self.new host.new }
        ensures held { D.held mem.now host.new }
    {
        if !self.flight.has_next() {
            return self.anew(alloc, mem, host, terms, way);
        }
        if self.is_open(way) {
            return self.pop_again(alloc, mem, host, terms, way);
        }
        self.next_event(alloc, mem, host, terms, way)
    }

    // A chain was popped: it is in flight from now on, or was before.
    #[inline(always)]
    fn fly<H, D: RingMemory<H>>(&mut self, mem: &D, host: &mut H, chain: Chain)
        requires { D.held mem.now host.old }
        ensures flies { FliesAt (D.steps mem.now) (next_again self.old.flight) chain self.old host.old self.new
            host.new }
        ensures held { D.held mem.now host.new }
    {
        if self.flight.has_next() {
            self.flight.pass(chain.id);
            return;
        }
        if let Some(mut kept) = self.flight.kept() {
            let stores = kept.pop(chain.id);
            track_at(mem, host, self.flight.place(), &stores);
            self.flight.set_kept(kept);
            return;
        }
        self.flight.fly(mem, host, chain.id);
    }

    fn fly_by<H, D: RingMemory<H>>(&mut self, mem: &D, host: &mut H, event: &Option<RingEvent>)
        requires { D.held mem.now host.old }
        ensures flies { FliesBy (D.steps mem.now) event.now self.old host.old self.new host.new }
        ensures held { D.held mem.now host.new }
    {
        if let Some(RingEvent::Popped(chain, _, _)) = event {
            self.fly(mem, host, *chain);
        }
    }

    /// What happens to the ring next in its turn, as `next_event`. If its requests in flight are stored in a region,
    /// that is read first, once the ring's areas can be, what was in flight is popped again, and what is popped anew is
    /// in flight before it is served.
    pub fn next_in<H, D: RingMemory<H>>(
        &mut self,
        alloc: Global,
        mem: &D,
        host: &mut H,
        terms: DeviceLimits,
        way: Option<&Way<'_>>,
    ) -> Option<RingEvent>
        requires held { D.held mem.now host.old }
        requires small { terms.sectors < 2 ^ 55 }
        ensures next { HappensIn (D.steps mem.now) terms (sight_of way.entry) self.old host.old result self.new
            host.new }
        ensures held { D.held mem.now host.new }
    {
        if self.is_due(way) {
            return self.resume_flight(alloc, mem, host);
        }
        let event = self.first_event(alloc, mem, host, terms, way);
        self.fly_by(mem, host, &event);
        event
    }

    // ---- returns

    // A chain was returned: it is in flight no longer.
    fn land<H, D: RingMemory<H>>(
        &self,
        mem: &D,
        host: &mut H,
        kept: SplitInFlight,
        chain: Chain,
        given: &GiveBack,
    )
        requires { D.held mem.now host.old }
        ensures lands { Lands (D.steps mem.now) given.now self.now chain host.old host.new }
        ensures held { D.held mem.now host.new }
    {
        if let GiveBack::Done = given {
            let stores = kept.end_return(chain.id, next_used_of(&self.queue));
            track_at(mem, host, self.flight.place(), &stores);
        }
    }

    // The same of a packed ring.
    fn land_packed<H, D: RingMemory<H>>(
        &self,
        mem: &D,
        host: &mut H,
        stores: Option<PackedReturn>,
        given: &GiveBack,
    )
        requires { D.held mem.now host.old }
        ensures lands { LandsPacked (D.steps mem.now) given.now self.now (after_of stores) host.old host.new }
        ensures held { D.held mem.now host.new }
    {
        if let (GiveBack::Done, Some(stores)) = (given, stores) {
            track_packed_at(mem, host, self.flight.place(), &stores.after);
        }
    }

    // Returns a chain of a ring that keeps no split part.
    fn give_back_packed<H, D: RingMemory<H>>(
        &mut self,
        mem: &D,
        host: &mut H,
        chain: Chain,
        len: u32,
    ) -> GiveBack
        requires { D.held mem.now host.old }
        ensures gives { GivesPacked (D.steps mem.now) self.old chain len host.old result self.new host.new }
        ensures held { D.held mem.now host.new }
    {
        let stores = self.flight.begin_return(chain.id);
        if let Some(stores) = stores {
            track_packed_at(mem, host, self.flight.place(), &stores.before);
        }
        let came = self.give_back(mem, host, chain, len);
        self.land_packed(mem, host, stores, &came);
        came
    }

    /// Returns a chain whose request was ended, as `give_back`. If its ring's requests in flight are stored in a
    /// region, that names it before the ring does, and has it in flight until after that.
    pub fn give_back_in<H, D: RingMemory<H>>(
        &mut self,
        mem: &D,
        host: &mut H,
        chain: Chain,
        len: u32,
    ) -> GiveBack
        requires { D.held mem.now host.old }
        ensures gives { GivesIn (D.steps mem.now) self.old chain len host.old result self.new host.new }
        ensures held { D.held mem.now host.new }
    {
        let Some(mut kept) = self.flight.kept() else {
            return self.give_back_packed(mem, host, chain, len);
        };
        let stores = kept.begin_return(chain.id);
        track_at(mem, host, self.flight.place(), &stores);
        self.flight.set_kept(kept);
        let given = self.give_back(mem, host, chain, len);
        self.land(mem, host, kept, chain, &given);
        given
    }
}
