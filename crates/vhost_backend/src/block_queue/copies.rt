//! Chains of a ring whose descriptors are known: those that were in flight when it was started, and those of a packed
//! ring that keeps what is in flight.
ghost use Rattle.std.specs.Prelude.{◌≡◌, ◌^◌, ◌<◌};
ghost use Rattle.vhost_backend.specs.Flight.{found_as};
ghost use Rattle.vhost_backend.specs.Sight.{sight_of};

use super::{BlockQueue, Way, event_of, refused};
use crate::fetch::Found;
use crate::packed_flight::buffer_of;
use crate::ring::RingEvent;
use crate::ring_memory::RingMemory;
use crate::set_up::is_split;
use std::alloc::Global;
use virtio_blk::DeviceLimits;
use virtio_queue::{AnyQueue, PackedBuffer, QueueError};
use vm_memory_device::Chain as Descriptors;

// A chain whose descriptors are known, as one that was found.
fn found_as(
    buffer: PackedBuffer,
    after: u16,
    chain: Result<Descriptors, QueueError>,
) -> Result<Option<Found>, QueueError>
    ensures { result ≡ found_as buffer after chain }
{
    match chain {
        Ok(chain) => Ok(Some(Found {
            chain,
            buffer,
            after,
        })),
        Err(error) => Err(error),
    }
}

impl BlockQueue {
    ghost use Rattle.std.specs.Prelude.{List, Some};
    ghost use Rattle.virtio_queue.specs.Any.{next_avail_of, past};
    ghost use Rattle.virtio_queue.specs.Packed.{PackedVirtqueue};
    ghost use Rattle.virtio_queue.specs.PackedCopies.{copied};
    ghost use Rattle.virtio_queue.specs.declared.any.AnyQueue.TheVariants.{Packed};
    ghost use Rattle.virtio_queue.specs.declared.packed.descriptor.PackedDescriptor.{PackedDescriptor};
    ghost use Rattle.virtio_queue.specs.declared.packed.state.PackedBuffer.{PackedBuffer};
    ghost use Rattle.vhost_backend.specs.Flight.{AfterCopies, AfterKnown, BeginsKnown, FindsCopies, HappensNew};
    ghost use Rattle.vhost_backend.specs.Flight.{PopsAgain, PopsCopies, WaitsCopies, found_in, next_again, pops_copies};
    ghost use Rattle.vhost_backend.specs.PackedFlight.{PackedFlightState, buffer_of};

    fn begin_known<H, D: RingMemory<H>>(
        &mut self,
        alloc: Global,
        mem: &D,
        host: &mut H,
        terms: DeviceLimits,
        found: Found,
    ) -> Option<RingEvent>
        requires held { D.held mem.now host.old }
        requires small { terms.sectors < 2 ^ 55 }
        ensures begins { BeginsKnown (D.steps mem.now) terms self.old found host.old result self.new host.new }
        ensures held { D.held mem.now host.new }
    {
        let next = self.queue.next_avail();
        self.queue.go_back(found.after);
        event_of(self.begin(alloc, mem, host, terms, next, (found.buffer, found.chain)))
    }

    // Pops a chain of which the descriptors are known. If a table translates addresses, its bytes are fetched first.
    fn pop_known<H, D: RingMemory<H>>(
        &mut self,
        alloc: Global,
        mem: &D,
        host: &mut H,
        terms: DeviceLimits,
        way: Option<&Way<'_>>,
        found: Result<Option<Found>, QueueError>,
    ) -> Option<RingEvent>
        requires held { D.held mem.now host.old }
        requires small { terms.sectors < 2 ^ 55 }
        ensures pops { AfterKnown (D.steps mem.now) terms (sight_of way.entry) self.old found host.old result self.new
            host.new }
        ensures held { D.held mem.now host.new }
    {
        if let Some(_) = way {
            return self.after_look(alloc, mem, host, terms, found);
        }
        match found {
            Ok(Some(found)) => self.begin_known(alloc, mem, host, terms, found),
            Ok(None) => Some(RingEvent::Emptied),
            Err(error) => event_of(refused(error)),
        }
    }

    // Pops the chain again that was in flight and comes next.
    pub(super) fn pop_again<H, D: RingMemory<H>>(
        &mut self,
        alloc: Global,
        mem: &D,
        host: &mut H,
        terms: DeviceLimits,
        way: Option<&Way<'_>>,
    ) -> Option<RingEvent>
        requires held { D.held mem.now host.old }
        requires small { terms.sectors < 2 ^ 55 }
        ensures pops { (p : PackedBuffer × List PackedDescriptor) → next_again self.old.flight ≡ Some p
            → PopsAgain (D.steps mem.now) terms (sight_of way.entry) self.old p.0 (next_avail_of self.old.queue) p.1
            host.old result self.new host.new }
        ensures held { D.held mem.now host.new }
    {
        let Some((buffer, descriptors)) = self.flight.next() else {
            return None;
        };
        let after = self.queue.next_avail();
        let list = &mut self.spare.next;
        let chain = mem.pop_again(host, alloc, list, &self.queue, buffer.id, descriptors);
        self.pop_known(alloc, mem, host, terms, way, found_as(buffer, after, chain))
    }

    // ---- chains of a packed ring that keeps what is in flight

    // Looks for the descriptors of the next chain.
    fn find_copies<H, D: RingMemory<H>>(
        &mut self,
        mem: &D,
        host: &mut H,
    ) -> Result<bool, QueueError>
        requires { D.held mem.now host.old }
        ensures finds { (u : PackedVirtqueue) (k : PackedFlightState) → self.old.queue ≡ Packed u
            → self.old.flight.packed ≡ Some k → FindsCopies (D.steps mem.now) u k self.old host.old
            (copied result (found_in self.new.flight.packed)) self.new host.new }
        ensures held { D.held mem.now host.new }
    {
        match &self.queue {
            AnyQueue::Split(_) => Ok(false),
            AnyQueue::Packed(queue) => self.flight.find(mem, host, queue),
        }
    }

    // Pops the chain of the descriptors that were found.
    fn pop_found<H, D: RingMemory<H>>(
        &mut self,
        alloc: Global,
        mem: &D,
        host: &mut H,
        terms: DeviceLimits,
        way: Option<&Way<'_>>,
    ) -> Option<RingEvent>
        requires held { D.held mem.now host.old }
        requires small { terms.sectors < 2 ^ 55 }
        ensures pops { let ds = found_in self.old.flight.packed in
            PopsAgain (D.steps mem.now) terms (sight_of way.entry) self.old (buffer_of ds)
            (next_avail_of (past self.old.queue (buffer_of ds))) ds host.old result self.new host.new }
        ensures held { D.held mem.now host.new }
    {
        let buffer = buffer_of(self.flight.found());
        let after = self.queue.next_after(buffer.slots);
        let (list, found) = (&mut self.spare.next, self.flight.found());
        let chain = mem.pop_again(host, alloc, list, &self.queue, buffer.id, found);
        self.pop_known(alloc, mem, host, terms, way, found_as(buffer, after, chain))
    }

    fn after_copies<H, D: RingMemory<H>>(
        &mut self,
        alloc: Global,
        mem: &D,
        host: &mut H,
        terms: DeviceLimits,
        way: Option<&Way<'_>>,
        found: Result<bool, QueueError>,
    ) -> Option<RingEvent>
        requires held { D.held mem.now host.old }
        requires small { terms.sectors < 2 ^ 55 }
        ensures after { AfterCopies (D.steps mem.now) terms (sight_of way.entry)
            (copied found (found_in self.old.flight.packed)) self.old host.old result self.new host.new }
        ensures held { D.held mem.now host.new }
    {
        match found {
            Ok(true) => self.pop_found(alloc, mem, host, terms, way),
            Ok(false) => Some(RingEvent::Emptied),
            Err(error) => self.pop_known(alloc, mem, host, terms, way, Err(error)),
        }
    }

    // There was no chain.
    fn wait_for_copies<H, D: RingMemory<H>>(
        &mut self,
        alloc: Global,
        mem: &D,
        host: &mut H,
        terms: DeviceLimits,
        way: Option<&Way<'_>>,
    ) -> Option<RingEvent>
        requires held { D.held mem.now host.old }
        requires small { terms.sectors < 2 ^ 55 }
        ensures waits { (u : PackedVirtqueue) (k : PackedFlightState) → self.old.queue ≡ Packed u
            → self.old.flight.packed ≡ Some k → WaitsCopies (D.steps mem.now) terms (sight_of way.entry) u k self.old
            host.old result self.new host.new }
        ensures held { D.held mem.now host.new }
    {
        match self.ask(mem, host) {
            Ok(true) => {
                let found = self.find_copies(mem, host);
                self.after_copies(alloc, mem, host, terms, way, found)
            }
            Ok(false) => Some(RingEvent::Emptied),
            Err(error) => event_of(refused(error)),
        }
    }

    // Pops the next chain by its descriptors, or asks the driver to notify if there is none.
    fn pop_copies<H, D: RingMemory<H>>(
        &mut self,
        alloc: Global,
        mem: &D,
        host: &mut H,
        terms: DeviceLimits,
        way: Option<&Way<'_>>,
    ) -> Option<RingEvent>
        requires held { D.held mem.now host.old }
        requires small { terms.sectors < 2 ^ 55 }
        ensures pops { (u : PackedVirtqueue) (k : PackedFlightState) → self.old.queue ≡ Packed u
            → self.old.flight.packed ≡ Some k → PopsCopies (D.steps mem.now) terms (sight_of way.entry) u k self.old
            host.old result self.new host.new }
        ensures held { D.held mem.now host.new }
    {
        match self.find_copies(mem, host) {
            Ok(true) => self.after_copies(alloc, mem, host, terms, way, Ok(true)),
            Ok(false) => self.wait_for_copies(alloc, mem, host, terms, way),
            Err(error) => self.after_copies(alloc, mem, host, terms, way, Err(error)),
        }
    }

    // Whether it pops chains by their descriptors.
    #[inline(always)]
    fn copies(&self, way: Option<&Way<'_>>) -> bool
        ensures { result ≡ pops_copies (sight_of way.entry) self.now }
    {
        self.flight.is_packed() && !is_split(&self.queue) && self.is_open(way)
    }

    pub(super) fn anew<H, D: RingMemory<H>>(
        &mut self,
        alloc: Global,
        mem: &D,
        host: &mut H,
        terms: DeviceLimits,
        way: Option<&Way<'_>>,
    ) -> Option<RingEvent>
        requires held { D.held mem.now host.old }
        requires small { terms.sectors < 2 ^ 55 }
        ensures anew { HappensNew (D.steps mem.now) terms (sight_of way.entry) self.old.queue self.old.flight.packed
            self.old host.old result self.new host.new }
        ensures held { D.held mem.now host.new }
    {
        if self.copies(way) {
            return self.pop_copies(alloc, mem, host, terms, way);
        }
        self.next_event(alloc, mem, host, terms, way)
    }
}
