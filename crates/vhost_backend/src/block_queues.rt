//! The queues of a block device's rings.
ghost use Rattle.std.specs.Prelude.{◌≡◌, ◌^◌, ◌<◌, length, IfOk, None, Ok, Some, false, option_copied, replicate};
ghost use Rattle.std.specs.Prelude.{MatchResult, option_map, slice_get, true, if◌then◌else◌};
ghost use Rattle.virtio_queue.specs.Packed.{is_packed_size};
ghost use Rattle.vhost_user.specs.declared.backend_req_handler.OfferError.TheVariants.{Invalid, Memory};
ghost use Rattle.vhost_backend.specs.Sight.{sight_of};
ghost use Rattle.vhost_backend.specs.BlockQueue.{asked_at};
ghost use Rattle.vhost_backend.specs.BlockQueues.{Asks, FinishesAt, Gives, Turns, WithQueue, based, began, chain_of};
ghost use Rattle.vhost_backend.specs.BlockQueues.{given_back, new_queues, part_of, set_up, set_up_at, stays_at};
ghost use Rattle.vhost_backend.specs.BlockQueues.{went_on};
ghost use Rattle.vhost_backend.specs.declared.block_queues.Reached.TheVariants.{Fine};

mod table;

use crate::backend::{Backend, Finish, Todo};
use crate::block::{BlockStep, block_parts, block_step};
use crate::block_queue::{BlockQueue, Finished, GiveBack, Way};
use crate::flight::FlightPlace;
use crate::request::Chain;
use crate::ring_memory::RingMemory;
use crate::set_up::{base_of, fresh_queue, is_set_up, lies_at, log_of, moved_queue, unset_queue};
use crate::turn::take_step;
use std::alloc::Global;
use std::marker::Model;
use vhost_user::{OfferError, RunningVring};
use virtio_blk::DeviceLimits;
use virtio_queue::{AnyQueue, QueueError};
use vm_memory_device::Chain as Descriptors;

/// What a call asks of a ring that is not there, or that is reached or is not.
#[derive(Clone, Copy, Debug)]
pub enum Reached {
    /// It was done, or there is nothing to do.
    Fine,
    /// The ring cannot be reached: it breaks.
    Broken,
}

/// The queues of the rings, each with its requests.
#[derive(Drop)]
pub struct BlockQueues {
    queues: Vec<BlockQueue>,
}

impl Model for BlockQueues {
    ghost use Rattle.std.specs.Prelude.{List};
    ghost use Rattle.vhost_backend.specs.BlockQueue.{BlockQueueState};

    ghost Value = { List BlockQueueState };

    ghost view = { λ q. q.queues.items };
}

fn given_back(given: GiveBack) -> Reached
    ensures { result ≡ given_back given }
{
    match given {
        GiveBack::Done => Reached::Fine,
        GiveBack::Broken(_) => Reached::Broken,
    }
}

// A ring begins with its queue, if there is one.
fn begin(
    queue: &mut BlockQueue,
    made: Result<AnyQueue, QueueError>,
    log: Option<u64>,
    part: Option<FlightPlace>,
) -> Reached
    ensures { (queue.new, result) ≡ began queue.old made log part }
{
    match made {
        Ok(made) => {
            queue.start(made, log, part);
            Reached::Fine
        }
        Err(_) => Reached::Broken,
    }
}

// A ring goes on with its queue, if there is one.
fn go_on(queue: &mut BlockQueue, made: Result<AnyQueue, QueueError>, log: Option<u64>) -> Reached
    ensures { (queue.new, result) ≡ went_on queue.old made log }
{
    match made {
        Ok(made) => {
            queue.set_queue(made, log);
            Reached::Fine
        }
        Err(_) => Reached::Broken,
    }
}

// Whether a ring lies where its queue does, and is logged where it was.
fn stays_at(queue: &BlockQueue, vring: &RunningVring, log: Option<u64>) -> bool
    ensures { result ≡ stays_at queue.now vring.now log }
{
    lies_at(queue.queue(), vring) && queue.is_logged_at(log)
}

// Tells a queue where its ring lies.
fn set_up(
    queue: &mut BlockQueue,
    max_size: u16,
    vring: &RunningVring,
    features: u64,
    part: Option<FlightPlace>,
    fresh: bool,
) -> Reached
    ensures { (queue.new, result) ≡ set_up queue.old max_size vring.now features part fresh }
{
    let log = log_of(vring, features);
    if fresh {
        return begin(queue, fresh_queue(max_size, vring, features), log, part);
    }
    if !is_set_up(queue.queue()) || stays_at(queue, vring, log) {
        return Reached::Fine;
    }
    let made = moved_queue(queue.queue(), vring);
    go_on(queue, made, log)
}

// Queues that nobody has set up.
fn unset_queues(alloc: Global, count: usize, max_size: u16) -> Result<Vec<BlockQueue>, OfferError>
    ensures { MatchResult result (λ queues. (queues.items ≡ new_queues count max_size)
        × (0 < count → is_packed_size max_size ≡ true))
        (λ e. (e ≡ Invalid → is_packed_size max_size ≡ false) × (e ≡ Memory → is_packed_size max_size ≡ true)) }
{
    let mut queues = Vec::new(alloc);
    for _made in 0..count {
        let Ok(queue) = unset_queue(max_size) else {
            return Err(OfferError::Invalid);
        };
        let Ok(queue) = BlockQueue::new(alloc, queue, usize::from(max_size)) else {
            return Err(OfferError::Memory);
        };
        if queues.push(queue).is_err() {
            return Err(OfferError::Memory);
        }
    }
    Ok(queues)
}

impl BlockQueues {
    /// How many there are.
    pub fn count(&self) -> usize
        ensures { result ≡ length self.now }
    {
        self.queues.len()
    }

    /// Queues that nobody has set up, so many, of this greatest size.
    ///
    /// Leaves open: `Memory` for each size that queues can have.
    pub fn new(alloc: Global, count: usize, max_size: u16) -> Result<BlockQueues, OfferError>
        ensures { MatchResult result (λ queues. (queues ≡ new_queues count max_size)
            × (0 < count → is_packed_size max_size ≡ true))
            (λ e. (e ≡ Invalid → is_packed_size max_size ≡ false)
            × (e ≡ Memory → is_packed_size max_size ≡ true)) }
    {
        let queues = unset_queues(alloc, count, max_size)?;
        Ok(BlockQueues { queues })
    }

    /// The part of the request with an id that is served when so many are left, if it is under way and has it.
    #[inline(always)]
    pub fn part(&self, ring: usize, id: u16, left: u32) -> Option<BlockStep>
        ensures { result ≡ part_of id left (slice_get self.now ring) }
    {
        let queue = self.queues.get(ring)?;
        let request = queue.request(id)?;
        if left > 0 && left <= block_parts(request) {
            Some(block_step(request, left))
        } else {
            None
        }
    }

    /// The chain with an id that is under way.
    pub fn chain(&self, ring: usize, id: u16) -> Option<&Descriptors>
        ensures { option_copied result ≡ chain_of id (slice_get self.now ring) }
    {
        match self.queues.get(ring) {
            Some(queue) => queue.chain(id),
            None => None,
        }
    }

    /// The base of a ring that is stopped, if it was set up. It is not from now on.
    pub fn base(&mut self, ring: usize) -> Finish
        ensures { (self.new, result) ≡ based self.old ring (slice_get self.old ring) }
    {
        let Some(queue) = self.queues.get_mut(ring) else {
            return Finish::Done;
        };
        if !is_set_up(queue.queue()) {
            return Finish::Done;
        }
        let base = base_of(queue.queue());
        queue.unset();
        Finish::At(base)
    }

    /// Tells the queue of a ring where that lies.
    pub fn set_up(
        &mut self,
        ring: usize,
        max_size: u16,
        vring: &RunningVring,
        features: u64,
        part: Option<FlightPlace>,
        fresh: bool,
    ) -> Reached
        ensures { (self.new, result)
            ≡ set_up_at self.old ring max_size vring.now features part fresh (slice_get self.old ring) }
    {
        match self.queues.get_mut(ring) {
            Some(queue) => set_up(queue, max_size, vring, features, part, fresh),
            None => Reached::Fine,
        }
    }

    /// Ends the request of a chain of a ring, as `BlockQueue::finish`.
    pub fn finish<H, D: RingMemory<H>>(
        &mut self,
        mem: &D,
        host: &mut H,
        ring: usize,
        chain: Chain,
        moved: u64,
        failed: bool,
    ) -> Finished
        requires { D.held mem.now host.old }
        ensures finishes { FinishesAt (D.steps mem.now) self.old ring chain moved failed host.old result self.new
            host.new }
        ensures held { D.held mem.now host.new }
    {
        match self.queues.get_mut(ring) {
            Some(queue) => queue.finish(mem, host, chain, moved, failed),
            None => Finished::NotUnderWay,
        }
    }

    /// Returns a chain of a ring, whose request was ended.
    pub fn give_back<H, D: RingMemory<H>>(
        &mut self,
        mem: &D,
        host: &mut H,
        ring: usize,
        chain: Chain,
        len: u32,
    ) -> Reached
        requires { D.held mem.now host.old }
        ensures gives { WithQueue self.old ring Fine host.old result self.new host.new
            (Gives (D.steps mem.now) chain len host.old host.new) }
        ensures held { D.held mem.now host.new }
    {
        match self.queues.get_mut(ring) {
            Some(queue) => given_back(queue.give_back_in(mem, host, chain, len)),
            None => Reached::Fine,
        }
    }

    /// Whether the driver of a ring has to be notified of what was returned.
    pub fn needs_notification<H, D: RingMemory<H>>(
        &mut self,
        mem: &D,
        host: &mut H,
        ring: usize,
    ) -> Result<bool, QueueError>
        requires { D.held mem.now host.old }
        ensures asks { WithQueue self.old ring (Ok false) host.old result self.new host.new
            (Asks (D.steps mem.now) host.old host.new) }
        ensures held { D.held mem.now host.new }
    {
        match self.queues.get_mut(ring) {
            Some(queue) => queue.needs_notification(mem, host),
            None => Ok(false),
        }
    }

    /// Takes a step of a ring's turn, as `take_step`.
    pub fn take_step<H, D: RingMemory<H>>(
        &mut self,
        backend: &mut Backend,
        ring: usize,
        alloc: Global,
        mem: &D,
        host: &mut H,
        terms: DeviceLimits,
        way: Option<&Way<'_>>,
        todo: &mut Todo,
    ) -> bool
        requires held { D.held mem.now host.old }
        requires small { terms.sectors < 2 ^ 55 }
        ensures turns { WithQueue self.old ring None host.old (if result then Some todo.new else None) self.new host.new
            (Turns (D.steps mem.now) (sight_of way.entry) terms ring backend.old backend.new host.old host.new) }
        ensures none { slice_get self.old ring ≡ None → backend.new ≡ backend.old }
        ensures stays { result ≡ false → todo.new ≡ todo.old }
        ensures held { D.held mem.now host.new }
    {
        match self.queues.get_mut(ring) {
            Some(queue) => take_step(backend, ring, queue, alloc, mem, host, terms, way, todo),
            None => false,
        }
    }
}
