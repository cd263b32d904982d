//! What a packed ring has of the region of requests in flight: what is kept of its part, and the chains that were in
//! flight when it was started.
ghost use Rattle.std.specs.Prelude.{◌≡◌, ◌++◌, IfOk, OnOk, Some, [], drop, map, replicate, slice_set};
ghost use Rattle.vhost_inflight.specs.Packed.{after_begin_pop, after_end_pop, kept_of};
ghost use Rattle.vhost_inflight.specs.PackedCrash.{after_adds, id_of};
ghost use Rattle.vhost_backend.specs.PackedFlight.{AddsAll, EndsPop, StoresPop, TracksPacked, TracksPackedAt};
ghost use Rattle.vhost_backend.specs.PackedFlight.{buffer_of, copy_by, descriptor_by, packed_store_at};

use crate::flight::FlightPlace;
use crate::ring_memory::RingMemory;
use std::alloc::{AllocError, Global};
use std::marker::Model;
use vhost_inflight::{PackedAgain, PackedCopy, PackedInFlight, PackedReturn, PackedStore, Store};
use virtio_queue::{PackedBuffer, PackedDescriptor, PackedQueue, QueueError};

fn copy_by(descriptor: PackedDescriptor) -> PackedCopy
    ensures { result ≡ copy_by descriptor }
{
    PackedCopy {
        id: descriptor.id,
        flags: descriptor.flags,
        len: descriptor.len,
        addr: descriptor.addr,
    }
}

fn descriptor_by(copy: PackedCopy) -> PackedDescriptor
    ensures { result ≡ descriptor_by copy }
{
    PackedDescriptor {
        addr: copy.addr,
        len: copy.len,
        id: copy.id,
        flags: copy.flags,
    }
}

fn put_all(list: &mut Vec<PackedDescriptor>, copies: &[PackedCopy]) -> Result<(), AllocError>
    ensures { OnOk result (list.new.items ≡ list.old.items ++ map descriptor_by copies.now) }
{
    for copy in copies {
        list.push(descriptor_by(*copy))?;
    }
    Ok(())
}

fn descriptors_by(alloc: Global, copies: &[PackedCopy]) -> Result<Vec<PackedDescriptor>, AllocError>
    ensures { IfOk result (λ descriptors. descriptors.items ≡ map descriptor_by copies.now) }
{
    let mut descriptors = Vec::new(alloc);
    put_all(&mut descriptors, copies)?;
    Ok(descriptors)
}

// No chain was popped with any id.
fn no_heads(alloc: Global, ids: usize) -> Result<Vec<u16>, AllocError>
    ensures { IfOk result (λ heads. heads.items ≡ replicate ids 0) }
{
    let mut heads = Vec::with_capacity(alloc, ids)?;
    for _made in 0..ids {
        heads.push(0)?;
    }
    Ok(heads)
}

// The id of the chain of these descriptors: that of the last one.
fn id_of(descriptors: &[PackedDescriptor]) -> u16
    ensures { result ≡ id_of (map copy_by descriptors.now) }
{
    let mut id = 0;
    for i in 0..descriptors.len() {
        id = descriptors[i].id;
    }
    id
}

/// What the chain of these descriptors is returned by.
pub(crate) fn buffer_of(descriptors: &[PackedDescriptor]) -> PackedBuffer
    ensures { result ≡ buffer_of descriptors.now }
{
    PackedBuffer {
        id: id_of(descriptors),
        slots: (descriptors.len() % 0x1_0000) as u16,
    }
}

// ---- stores

fn store_at(place: FlightPlace, store: PackedStore) -> Store
    ensures { result ≡ packed_store_at place store }
{
    let to = store.place();
    Store {
        offset: place.base.saturating_add(to.offset),
        value: to.value,
    }
}

// Makes stores to a part of the region, one after another.
fn track<H, D: RingMemory<H>>(mem: &D, host: &mut H, place: FlightPlace, stores: &[PackedStore])
    requires { D.held mem.now host.old }
    ensures tracks { TracksPacked (D.steps mem.now) place stores.now host.old host.new }
    ensures held { D.held mem.now host.new }
{
    for i in 0..stores.len() {
        mem.track(host, store_at(place, stores[i]));
    }
}

/// The same, if there is a part.
pub(crate) fn track_packed_at<H, D: RingMemory<H>>(
    mem: &D,
    host: &mut H,
    place: Option<FlightPlace>,
    stores: &[PackedStore],
)
    requires { D.held mem.now host.old }
    ensures tracks { TracksPackedAt (D.steps mem.now) place stores.now host.old host.new }
    ensures held { D.held mem.now host.new }
{
    if let Some(place) = place {
        track(mem, host, place, stores);
    }
}

// What is stored while a chain has its descriptors, one after another.
fn add_all<H, D: RingMemory<H>>(
    mem: &D,
    host: &mut H,
    place: Option<FlightPlace>,
    kept: &mut PackedInFlight,
    descriptors: &[PackedDescriptor],
)
    requires { D.held mem.now host.old }
    ensures adds { AddsAll (D.steps mem.now) place (kept_of kept.old) (map copy_by descriptors.now) host.old host.new }
    ensures kept { kept_of kept.new ≡ after_adds (kept_of kept.old) (map copy_by descriptors.now) }
    ensures held { D.held mem.now host.new }
{
    for i in 0..descriptors.len() {
        if let Some(stores) = kept.add(copy_by(descriptors[i])) {
            track_packed_at(mem, host, place, &stores);
        }
    }
}

// What is stored last in a pop.
fn end_pop<H, D: RingMemory<H>>(
    mem: &D,
    host: &mut H,
    place: Option<FlightPlace>,
    kept: &mut PackedInFlight,
)
    requires { D.held mem.now host.old }
    ensures ends { EndsPop (D.steps mem.now) place (kept_of kept.old) host.old host.new }
    ensures kept { kept_of kept.new ≡ after_end_pop (kept_of kept.old) }
    ensures held { D.held mem.now host.new }
{
    if let Some(stores) = kept.end_pop() {
        track_packed_at(mem, host, place, &stores);
    }
}

// What is stored in a pop of a chain of these descriptors.
fn store_pop<H, D: RingMemory<H>>(
    mem: &D,
    host: &mut H,
    place: Option<FlightPlace>,
    kept: &mut PackedInFlight,
    descriptors: &[PackedDescriptor],
)
    requires { D.held mem.now host.old }
    ensures stores { StoresPop (D.steps mem.now) place (kept_of kept.old) (map copy_by descriptors.now) host.old
        host.new }
    ensures kept { kept_of kept.new
        ≡ after_end_pop (after_adds (after_begin_pop (kept_of kept.old)) (map copy_by descriptors.now)) }
    ensures held { D.held mem.now host.new }
{
    if let Some(stores) = kept.begin_pop() {
        track_packed_at(mem, host, place, &stores);
    }
    add_all(mem, host, place, kept, descriptors);
    end_pop(mem, host, place, kept);
}

/// What a packed ring has of the region.
#[derive(Drop)]
pub struct PackedFlight {
    kept: PackedInFlight,
    heads: Vec<u16>,
    // The chains that were in flight, of which so many were popped again, with so many descriptors.
    again: Vec<PackedAgain>,
    popped: usize,
    copies: Vec<PackedDescriptor>,
    passed: usize,
    found: Vec<PackedDescriptor>,
}

impl Model for PackedFlight {
    ghost use Rattle.std.specs.Prelude.{drop};
    ghost use Rattle.vhost_inflight.specs.Packed.{kept_of};
    ghost use Rattle.vhost_backend.specs.PackedFlight.{PackedFlightState};

    ghost Value = { PackedFlightState };

    ghost view = { λ f. record {
      kept = kept_of f.kept;
      heads = f.heads.items;
      again = drop f.popped f.again.items;
      copies = drop f.passed f.copies.items;
      found = f.found.items;
    } };
}

impl PackedFlight {
    ghost use Rattle.std.specs.Prelude.{is_some, option_copied};
    ghost use Rattle.virtio_queue.specs.PackedCopies.{copied};
    ghost use Rattle.vhost_backend.specs.PackedFlight.{first_again, listed, passed, popped_found, return_stores};
    ghost use Rattle.vhost_backend.specs.PackedFlight.{returned_by};
    ghost use Rattle.vhost_backend.specs.RingMemory.{finds_copies};

    /// What goes on by a start, with these chains to be popped again. So many ids can be under way.
    pub fn new(
        alloc: Global,
        kept: PackedInFlight,
        again: Vec<PackedAgain>,
        copies: Vec<PackedCopy>,
        ids: usize,
    ) -> Result<PackedFlight, AllocError>
        ensures { IfOk result (λ f. f ≡ record {
          kept = kept_of kept;
          heads = replicate ids 0;
          again = again.items;
          copies = map descriptor_by copies.items;
          found = [];
        }) }
    {
        let heads = no_heads(alloc, ids)?;
        let copies = descriptors_by(alloc, copies.as_slice())?;
        Ok(PackedFlight {
            kept,
            heads,
            again,
            popped: 0,
            copies,
            passed: 0,
            found: Vec::new(alloc),
        })
    }

    /// The descriptors of the chain that is popped again next.
    pub fn next(&self) -> Option<&[PackedDescriptor]>
        ensures { option_copied result ≡ first_again self.now }
    {
        let again = self.again.get(self.popped)?;
        let from = self.passed.min(self.copies.len());
        let rest = &self.copies.as_slice()[from..];
        Some(&rest[..rest.len().min(again.len as usize)])
    }

    /// Whether a chain is popped again.
    #[inline]
    pub fn has_next(&self) -> bool
        ensures { result ≡ is_some (first_again self.now) }
    {
        self.popped < self.again.len()
    }

    // The chain with this id begins at this entry.
    fn put_head(&mut self, id: u16, head: u16)
        ensures { self.new ≡ record self.old { heads = slice_set self.old.heads id head } }
    {
        if let Some(place) = self.heads.get_mut(usize::from(id)) {
            *place = head;
        }
    }

    // One chain less is popped again, and so many descriptors.
    #[tactic(auto, using(crate::proofs::PackedFlightLemmas::drop_once))]
    fn skip_chain(&mut self)
        ensures { self.new ≡ record self.old { again = drop 1 self.old.again } }
    {
        if self.popped < self.again.len() {
            self.popped += 1;
        }
    }

    fn skip_copies(&mut self, count: u16)
        ensures { self.new ≡ record self.old { copies = drop count self.old.copies } }
    {
        let rest = self.copies.len().saturating_sub(self.passed);
        self.passed = self.passed.saturating_add(rest.min(count as usize));
    }

    /// It was popped, with this id.
    pub fn pass(&mut self, id: u16)
        ensures { self.new ≡ passed id self.old }
    {
        if let Some(again) = self.again.get(self.popped).copied() {
            self.put_head(id, again.head);
            self.skip_chain();
            self.skip_copies(again.len);
        }
    }

    /// The descriptors of the chain that was found last.
    #[inline]
    pub fn found(&self) -> &[PackedDescriptor]
        ensures { result.now ≡ self.now.found }
    {
        self.found.as_slice()
    }

    /// Looks for the descriptors of the next chain, and returns whether there is one.
    pub fn find<H, D: RingMemory<H>>(
        &mut self,
        mem: &D,
        host: &mut H,
        queue: &PackedQueue,
    ) -> Result<bool, QueueError>
        requires { D.held mem.now host.old }
        ensures step { D.steps mem.now host.old (finds_copies queue.now) (copied result self.new.found) host.new }
        ensures found { self.new ≡ record self.old { found = listed (copied result self.new.found) } }
        ensures held { D.held mem.now host.new }
    {
        match mem.next_copies(host, &mut self.found, queue) {
            Ok(true) => Ok(true),
            other => {
                self.found.clear();
                other
            }
        }
    }

    /// The chain that was found is popped: it is in flight from then on.
    pub fn fly<H, D: RingMemory<H>>(
        &mut self,
        mem: &D,
        host: &mut H,
        place: Option<FlightPlace>,
        id: u16,
    )
        requires { D.held mem.now host.old }
        ensures stores { StoresPop (D.steps mem.now) place self.old.kept (map copy_by self.old.found) host.old
            host.new }
        ensures popped { self.new ≡ popped_found id self.old }
        ensures held { D.held mem.now host.new }
    {
        let head = self.kept.head();
        store_pop(mem, host, place, &mut self.kept, self.found.as_slice());
        self.put_head(id, head);
    }

    /// The chain with an id is to be returned: what is stored before and after that, if it is in flight.
    pub fn begin_return(&mut self, id: u16) -> Option<PackedReturn>
        ensures stores { result ≡ return_stores id self.old }
        ensures kept { self.new ≡ returned_by id self.old }
    {
        let head = self.heads.get(usize::from(id)).copied().unwrap_or(0);
        self.kept.begin_return(head)
    }
}
