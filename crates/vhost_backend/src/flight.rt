//! What a ring has of the region of requests in flight: where its part lies, and which chains were in flight when it
//! was started.
ghost use Rattle.std.specs.Prelude.{◌≡◌, None, Some, drop, false, is_some, option_map, true};
ghost use Rattle.vhost_backend.specs.BlockQueue.{flight_started, landed};
ghost use Rattle.vhost_backend.specs.Flight.{FindsIn, FliesIn, Tracks, TracksAt, found_in, next_again, packed_again};
ghost use Rattle.vhost_backend.specs.Flight.{passed_too, returned_too, returns_by, store_at};
ghost use Rattle.vhost_backend.specs.PackedFlight.{PackedFlightState};
ghost use Rattle.virtio_queue.specs.PackedCopies.{copied};

use crate::packed_flight::{PackedFlight, buffer_of};
use crate::ring_memory::RingMemory;
use std::alloc::Global;
use std::marker::Model;
use vhost_inflight::{PackedReturn, SplitInFlight, SplitStore, Store};
use virtio_queue::{PackedBuffer, PackedDescriptor, PackedQueue, QueueError};

/// Where a ring's part of the region lies.
#[derive(Clone, Copy, Debug, PartialEq, Eq)]
pub struct FlightPlace {
    /// How far after the region's first byte it begins.
    pub base: usize,
    /// How many bytes it has.
    pub len: usize,
    /// How many descriptors it is for.
    pub descriptors: u16,
}

fn store_at(place: FlightPlace, store: SplitStore) -> Store
    ensures { result ≡ store_at place store }
{
    let to = store.place();
    Store {
        offset: place.base.saturating_add(to.offset),
        value: to.value,
    }
}

// Makes stores to a part of the region, one after another.
fn track<H, D: RingMemory<H>>(mem: &D, host: &mut H, place: FlightPlace, stores: &[SplitStore])
    requires { D.held mem.now host.old }
    ensures tracks { Tracks (D.steps mem.now) place stores.now host.old host.new }
    ensures held { D.held mem.now host.new }
{
    for i in 0..stores.len() {
        mem.track(host, store_at(place, stores[i]));
    }
}

/// The same, if there is a part.
pub(crate) fn track_at<H, D: RingMemory<H>>(
    mem: &D,
    host: &mut H,
    place: Option<FlightPlace>,
    stores: &[SplitStore],
)
    requires { D.held mem.now host.old }
    ensures tracks { TracksAt (D.steps mem.now) place stores.now host.old host.new }
    ensures held { D.held mem.now host.new }
{
    if let Some(place) = place {
        track(mem, host, place, stores);
    }
}

/// What a ring has of the region.
#[derive(Drop)]
pub struct Flight {
    place: Option<FlightPlace>,
    is_unread: bool,
    kept: Option<SplitInFlight>,
    // The heads that were in flight, of which so many were popped again.
    again: Vec<u16>,
    popped: usize,
    // What a packed ring has in place of these.
    packed: Option<PackedFlight>,
}

impl Model for Flight {
    ghost use Rattle.std.specs.Prelude.{drop};
    ghost use Rattle.vhost_backend.specs.BlockQueue.{FlightState};

    ghost Value = { FlightState };

    ghost view = { λ f. record {
      place = f.place;
      is_unread = f.is_unread;
      kept = f.kept;
      again = drop f.popped f.again.items;
      packed = f.packed;
    } };
}

impl Flight {
    /// No part of a region.
    pub fn new(alloc: Global) -> Flight
        ensures { result ≡ landed None }
    {
        Flight {
            place: None,
            is_unread: false,
            kept: None,
            again: Vec::new(alloc),
            popped: 0,
            packed: None,
        }
    }

    /// Where its part lies.
    #[inline]
    pub fn place(&self) -> Option<FlightPlace>
        ensures { result ≡ self.now.place }
    {
        self.place
    }

    /// Whether its part is to be read.
    #[inline]
    pub fn is_unread(&self) -> bool
        ensures { result ≡ self.now.is_unread }
    {
        self.is_unread
    }

    /// What is kept of its part.
    #[inline]
    pub fn kept(&self) -> Option<SplitInFlight>
        ensures { result ≡ self.now.kept }
    {
        self.kept
    }

    /// Replaces what is kept of its part.
    #[inline]
    pub fn set_kept(&mut self, kept: SplitInFlight)
        ensures { self.new ≡ record self.old { kept = Some kept } }
    {
        self.kept = Some(kept);
    }

    /// What is popped again next: by what it is returned, and its descriptors if the ring is packed.
    #[inline]
    pub fn next(&self) -> Option<(PackedBuffer, &[PackedDescriptor])>
        ensures { option_map (λ p. (p.0, p.1.now)) result ≡ next_again self.now }
    {
        if let Some(id) = self.again.get(self.popped).copied() {
            return Some((PackedBuffer { id, slots: 1 }, &[]));
        }
        let descriptors = self.packed.as_ref()?.next()?;
        Some((buffer_of(descriptors), descriptors))
    }

    /// Whether something is popped again.
    #[inline(always)]
    pub fn has_next(&self) -> bool
        ensures { result ≡ is_some (next_again self.now) }
    {
        self.popped < self.again.len() || self.has_packed()
    }

    #[inline(always)]
    fn has_packed(&self) -> bool
        ensures { result ≡ is_some (packed_again self.now.packed) }
    {
        match &self.packed {
            Some(packed) => packed.has_next(),
            None => false,
        }
    }

    // A head was popped again.
    #[tactic(auto, using(crate::proofs::FlightLemmas::next_drop))]
    fn pass_head(&mut self)
        ensures { self.new ≡ record self.old { again = drop 1 self.old.again } }
    {
        if self.popped < self.again.len() {
            self.popped += 1;
        }
    }

    /// It was popped again, with this id.
    pub fn pass(&mut self, id: u16)
        ensures { self.new ≡ passed_too self.old id }
    {
        self.pass_head();
        if let Some(packed) = &mut self.packed {
            packed.pass(id);
        }
    }

    /// Whether it is of a packed ring that stores there.
    #[inline]
    pub fn is_packed(&self) -> bool
        ensures { result ≡ is_some self.now.packed }
    {
        self.packed.is_some()
    }

    /// Looks for the descriptors of a packed ring's next chain, and returns whether there is one.
    pub fn find<H, D: RingMemory<H>>(
        &mut self,
        mem: &D,
        host: &mut H,
        queue: &PackedQueue,
    ) -> Result<bool, QueueError>
        requires { D.held mem.now host.old }
        ensures finds { (k : PackedFlightState) → self.old.packed ≡ Some k → FindsIn (D.steps mem.now) queue.now k
            self.old host.old (copied result (found_in self.new.packed)) self.new host.new }
        ensures held { D.held mem.now host.new }
    {
        match &mut self.packed {
            Some(packed) => packed.find(mem, host, queue),
            None => Ok(false),
        }
    }

    /// The chain that a packed ring found is popped: it is in flight from then on.
    pub fn fly<H, D: RingMemory<H>>(&mut self, mem: &D, host: &mut H, id: u16)
        requires { D.held mem.now host.old }
        ensures flies { FliesIn (D.steps mem.now) self.old.packed id self.old host.old self.new host.new }
        ensures held { D.held mem.now host.new }
    {
        let place = self.place;
        match &mut self.packed {
            Some(packed) => packed.fly(mem, host, place, id),
            None => {}
        }
    }

    /// The chain of a packed ring with an id is to be returned: what is stored before and after that, if it is in
    /// flight.
    pub fn begin_return(&mut self, id: u16) -> Option<PackedReturn>
        ensures stores { result ≡ returns_by id self.old.packed }
        ensures kept { self.new ≡ returned_too self.old id }
    {
        match &mut self.packed {
            Some(packed) => packed.begin_return(id),
            None => None,
        }
    }

    /// The descriptors that a packed ring found last.
    #[inline]
    pub fn found(&self) -> &[PackedDescriptor]
        ensures { result.now ≡ found_in self.now.packed }
    {
        match &self.packed {
            Some(packed) => packed.found(),
            None => &[],
        }
    }

    // Nothing is known of its part, which lies there.
    fn land(&mut self, place: Option<FlightPlace>)
        ensures { self.new ≡ landed place }
    {
        self.place = place;
        self.is_unread = false;
        self.kept = None;
        self.again.clear();
        self.popped = 0;
        self.packed = None;
    }

    /// The ring is started. Its part lies there, if it has one.
    pub fn start(&mut self, place: Option<FlightPlace>)
        ensures { self.new ≡ flight_started place }
    {
        self.land(place);
        self.is_unread = place.is_some();
    }

    /// The ring is stopped.
    pub fn stop(&mut self)
        ensures { self.new ≡ landed self.old.place }
    {
        self.land(self.place);
    }

    /// There is no part after all.
    pub fn skip(&mut self)
        ensures { self.new ≡ record self.old { is_unread = false } }
    {
        self.is_unread = false;
    }

    /// Its part was read: these chains were in flight.
    pub fn go_on(&mut self, kept: SplitInFlight, again: Vec<u16>)
        ensures { self.new ≡ record self.old {
          is_unread = false;
          kept = Some kept;
          again = again.items;
          packed = None;
        } }
    {
        self.is_unread = false;
        self.kept = Some(kept);
        self.again = again;
        self.popped = 0;
        self.packed = None;
    }

    /// The same of a packed ring.
    pub fn go_on_packed(&mut self, packed: PackedFlight)
        ensures { self.new ≡ record self.old { is_unread = false; packed = Some packed } }
    {
        self.is_unread = false;
        self.packed = Some(packed);
    }
}
