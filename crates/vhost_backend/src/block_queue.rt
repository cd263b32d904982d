//! The queue of a ring of a block device: chains are popped as requests, and returned with their status.
ghost use Rattle.std.specs.Prelude.{◌≡◌, ◌^◌, ◌<◌, IfOk, None, false, replicate};
ghost use Rattle.virtio_queue.specs.Any.{after_asked, at_next};
ghost use Rattle.vhost_backend.specs.Sight.{sight_of};
ghost use Rattle.std.specs.List.{list_any};
ghost use Rattle.std.specs.Prelude.{is_some};
ghost use Rattle.vhost_backend.specs.Block.{len_of};
ghost use Rattle.vhost_backend.specs.BlockQueue.{buffer_by, event_of, gave, len_left, refused, shortened};
ghost use Rattle.vhost_backend.specs.RingMemory.{needs};

mod behind;
mod change;
mod copies;
mod flight;
mod limits;
mod marks;

pub use self::behind::{Origin, Way};
use self::marks::{mark_asking, mark_chain, publish};
use crate::block::{block_parts, len_of, status_of, written_of};
use crate::fetch::is_same_place;
use crate::flight::{Flight, FlightPlace};
use crate::reach::{KeptList, Reach, same_log};
use crate::request::Chain;
use crate::ring::RingEvent;
use crate::ring_memory::RingMemory;
use crate::set_up::is_split;
use std::alloc::{AllocError, Global};
use std::marker::Model;
use virtio_blk::{DeviceLimits, Request, VIRTIO_BLK_S_IOERR};
use virtio_queue::{AnyQueue, PackedBuffer, QueueError, SpareLists};
use vm_memory_device::Chain as Descriptors;

/// A request that is under way: its chain, and what that asks for.
#[derive(Drop)]
pub struct Asked {
    /// Of guest addresses.
    pub chain: Descriptors,
    pub request: Request,
    /// What was kept of a table for its bytes.
    pub kept: KeptList,
    /// Its bytes before the status were not found: it is returned as one to which nothing was written.
    pub gap: bool,
}

/// What a pop found.
#[derive(Drop)]
pub enum Pop {
    /// A chain: the parts of its request, and the bytes that it asks for.
    Chain(Chain, u32, u64),
    /// No chain is left.
    None,
    /// The ring cannot be reached, or its driver broke a rule.
    Broken(QueueError),
    /// An allocation failed. The same chain is popped by another try.
    Later,
}

/// What became of the end of a request.
#[derive(Clone, Copy, Debug)]
pub enum Finished {
    /// Its status was written. Its chain is to be returned with this length.
    Done(u32),
    /// An allocation failed: no status was written. The request is forgotten, and its chain is not to be returned.
    Forgotten,
    /// No chain of this id is under way.
    NotUnderWay,
}

/// What became of a return.
#[derive(Drop)]
pub enum GiveBack {
    /// The chain was returned.
    Done,
    /// The ring cannot be reached: it breaks.
    Broken(QueueError),
}

// A queue that was refused for want of memory is tried again. Another error is a fault of its driver.
fn refused(error: QueueError) -> Pop
    ensures { result ≡ refused error }
{
    match error {
        QueueError::Memory => Pop::Later,
        error => Pop::Broken(error),
    }
}

// What happens to a ring by a pop.
fn event_of(found: Pop) -> Option<RingEvent>
    ensures { result ≡ event_of found }
{
    match found {
        Pop::Chain(chain, parts, bytes) => Some(RingEvent::Popped(chain, parts, bytes)),
        Pop::None => Some(RingEvent::Emptied),
        Pop::Broken(_) => Some(RingEvent::Break),
        Pop::Later => None,
    }
}

fn gave(returned: Result<(), QueueError>) -> GiveBack
    ensures { result ≡ gave returned }
{
    match returned {
        Ok(()) => GiveBack::Done,
        Err(error) => GiveBack::Broken(error),
    }
}

// A request whose data are those of one chain, of which so many segments are no more than there may be.
fn shortened(request: Request, segments: usize, most: usize) -> Request
    ensures { result ≡ shortened most segments request }
{
    if len_of(request) < 1 << 32 && segments <= most {
        request
    } else {
        Request::Refused {
            status: VIRTIO_BLK_S_IOERR,
        }
    }
}

// With how many bytes the chain of a request is returned, to which so many were written.
fn len_left(asked: &Asked, len: u32) -> u32
    ensures { result ≡ len_left asked.now len }
{
    if asked.gap { 0 } else { len }
}

fn buffer_of(chain: Chain) -> PackedBuffer
    ensures { result ≡ buffer_by chain }
{
    PackedBuffer {
        id: chain.id,
        slots: chain.slots,
    }
}

// Nothing under way, for so many ids.
fn none_asked(alloc: Global, ids: usize) -> Result<Vec<Option<Asked>>, AllocError>
    ensures { IfOk result (λ asked. asked.items ≡ replicate ids None) }
{
    let mut asked = Vec::with_capacity(alloc, ids)?;
    for _made in 0..ids {
        asked.push(None)?;
    }
    Ok(asked)
}

// Whether a request is under way.
fn any_asked(asked: &[Option<Asked>]) -> bool
    ensures { result ≡ list_any is_some asked.now }
{
    asked.iter().any(|one| one.is_some())
}

/// The queue of a ring, and the requests of its chains that are under way.
#[derive(Drop)]
pub struct BlockQueue {
    queue: AnyQueue,
    // Where a split queue that began returns its next chain was not read.
    is_unread: bool,
    asked: Vec<Option<Asked>>,
    reach: Reach,
    flight: Flight,
    spare: SpareLists,
}

impl Model for BlockQueue {
    ghost use Rattle.vhost_backend.specs.BlockQueue.{AllShort, BlockQueueState};

    ghost Value = { BlockQueueState };

    ghost view = { λ q. record {
      queue = q.queue;
      is_unread = q.is_unread;
      asked = q.asked.items;
      reach = q.reach;
      flight = q.flight;
    } };

    ghost invariant = { λ q. AllShort q.asked.items };
}

impl BlockQueue {
    ghost use Rattle.vhost_backend.specs.Reach.{same_log};
    ghost use Rattle.std.specs.Prelude.{IfSome, option_copied, option_map};
    ghost use Rattle.vhost_backend.specs.Behind.{HappensBy};
    ghost use Rattle.vhost_backend.specs.Block.{Short};
    ghost use Rattle.vhost_backend.specs.BlockQueue.{Asks, Begins, FinishesRequest, GivesBack, HappensNext, Pops};
    ghost use Rattle.vhost_backend.specs.BlockQueue.{PopsOrWaits, Reads, Waits, asked_at, has_place, new_queue};
    ghost use Rattle.vhost_backend.specs.BlockQueue.{moved, started, unset, with_asked, with_queue};
    ghost use Rattle.vhost_backend.specs.TableUse.{is_busy};

    /// A queue of which nothing is under way. The ids of its chains are below `ids`.
    pub fn new(alloc: Global, queue: AnyQueue, ids: usize) -> Result<BlockQueue, AllocError>
        ensures { IfOk result (λ q. q ≡ new_queue queue ids) }
    {
        let asked = none_asked(alloc, ids)?;
        let spare = SpareLists::new(alloc, ids);
        Ok(BlockQueue {
            queue,
            is_unread: false,
            asked,
            reach: Reach::new(alloc),
            flight: Flight::new(alloc),
            spare,
        })
    }

    /// The queue.
    #[inline]
    pub fn queue(&self) -> &AnyQueue
        ensures { result.now ≡ self.now.queue }
    {
        &self.queue
    }

    /// Whether a request is under way.
    pub fn is_busy(&self) -> bool
        ensures { result ≡ is_busy self.now }
    {
        any_asked(&self.asked)
    }

    /// Whether writes to its used ring are logged there.
    pub fn is_logged_at(&self, log: Option<u64>) -> bool
        ensures { result ≡ same_log self.now.reach.log log }
    {
        same_log(self.reach.log(), log)
    }

    /// Sets the queue, as it lies in memory from now on, and where writes to its used ring are logged. If these are the
    /// same, what is fetched stays.
    pub fn set_queue(&mut self, queue: AnyQueue, log: Option<u64>)
        ensures { self.new ≡ moved self.old queue log }
    {
        let same = is_same_place(&self.queue, &queue) && same_log(self.reach.log(), log);
        self.queue = queue;
        if !same {
            self.reach.move_to(log);
        }
    }

    /// Sets the queue of a ring that was started. Where a split one returns its next chain is read in its first turn.
    /// Its part of the region of requests in flight lies there, if it has one.
    pub fn start(&mut self, queue: AnyQueue, log: Option<u64>, part: Option<FlightPlace>)
        ensures { self.new ≡ started self.old queue log part }
    {
        self.is_unread = is_split(&queue);
        self.queue = queue;
        self.reach.move_to(log);
        self.flight.start(part);
    }

    /// Makes the queue one that was not set up.
    pub fn unset(&mut self)
        ensures { self.new ≡ unset self.old }
    {
        self.queue.set_ready(false);
        self.reach.set_fetch(None);
        self.flight.stop();
    }

    /// The request with an id that is under way.
    pub fn request(&self, id: u16) -> Option<Request>
        ensures request { result ≡ option_map (λ asked. asked.request) (asked_at self.now id) }
        ensures short { IfSome result Short }
    {
        match self.asked.get(usize::from(id)) {
            Some(Some(asked)) => Some(asked.request),
            _ => None,
        }
    }

    /// The chain with an id that is under way.
    pub fn chain(&self, id: u16) -> Option<&Descriptors>
        ensures { option_copied result ≡ option_map (λ asked. asked.chain) (asked_at self.now id) }
    {
        match self.asked.get(usize::from(id)) {
            Some(Some(asked)) => Some(&asked.chain),
            _ => None,
        }
    }

    // Whether a chain can be under way.
    fn has_place(&self, id: u16) -> bool
        ensures { result ≡ has_place self.now id }
    {
        match self.asked.get(usize::from(id)) {
            Some(asked) => asked.is_none(),
            None => false,
        }
    }

    // A request is under way from now on.
    #[inline(always)]
    fn put_asked(&mut self, id: u16, asked: Asked)
        requires { Short asked.request }
        ensures { self.new ≡ with_asked self.old id (Some asked) }
    {
        let Some(place) = self.asked.get_mut(usize::from(id)) else {
            return;
        };
        *place = Some(asked);
    }

    // Reads where the queue returns its next chain, if that was not read.
    #[inline(always)]
    fn read_place<H, D: RingMemory<H>>(&mut self, mem: &D, host: &mut H) -> Result<(), QueueError>
        requires { D.held mem.now host.old }
        ensures reads { Reads (D.steps mem.now) self.old host.old result self.new host.new }
        ensures held { D.held mem.now host.new }
    {
        if !self.is_unread {
            return Ok(());
        }
        if let AnyQueue::Split(queue) = &mut self.queue {
            let next_used = mem.used_idx(host, queue)?;
            queue.set_next_used(next_used);
        }
        self.is_unread = false;
        Ok(())
    }

    // Reads the header of a chain that was popped.
    fn begin<H, D: RingMemory<H>>(
        &mut self,
        alloc: Global,
        mem: &D,
        host: &mut H,
        terms: DeviceLimits,
        next: u16,
        popped: (PackedBuffer, Descriptors),
    ) -> Pop
        requires held { D.held mem.now host.old }
        requires small { terms.sectors < 2 ^ 55 }
        ensures begins { Begins (D.steps mem.now) terms (at_next self.old.queue next) self.old popped.0 popped.1
            host.old result self.new host.new }
        ensures held { D.held mem.now host.new }
    {
        let (buffer, chain) = popped;
        let returned = Chain {
            id: buffer.id,
            slots: buffer.slots,
        };
        if !self.has_place(buffer.id) {
            self.spare.put_back(chain);
            return Pop::Chain(returned, 0, 0);
        }
        match mem.begin(host, terms, &chain) {
            Ok(request) => {
                let count = chain.segments().len();
                let request = shortened(request, count, self.asked.len());
                self.spare.take(&chain);
                self.put_asked(
                    buffer.id,
                    Asked {
                        chain,
                        request,
                        kept: KeptList::of(Vec::new(alloc)),
                        gap: false,
                    },
                );
                Pop::Chain(returned, block_parts(request), len_of(request) as u64)
            }
            Err(_) => {
                self.spare.put_back(chain);
                self.queue.go_back(next);
                Pop::Later
            }
        }
    }

    // Pops the next chain, and reads the header of its request. A chain that cannot be under way has no parts: the
    // event breaks its ring.
    fn pop<H, D: RingMemory<H>>(
        &mut self,
        alloc: Global,
        mem: &D,
        host: &mut H,
        terms: DeviceLimits,
    ) -> Pop
        requires held { D.held mem.now host.old }
        requires small { terms.sectors < 2 ^ 55 }
        ensures pops { Pops (D.steps mem.now) terms self.old host.old result self.new host.new }
        ensures held { D.held mem.now host.new }
    {
        let next = self.queue.next_avail();
        match mem.pop(host, alloc, &mut self.spare.next, &mut self.queue) {
            Ok(Some(popped)) => self.begin(alloc, mem, host, terms, next, popped),
            Ok(None) => Pop::None,
            Err(error) => refused(error),
        }
    }

    // Asks the driver to notify, and looks at the ring again.
    fn ask<H, D: RingMemory<H>>(&self, mem: &D, host: &mut H) -> Result<bool, QueueError>
        requires { D.held mem.now host.old }
        ensures asks { Asks (D.steps mem.now) self.now host.old result host.new }
        ensures held { D.held mem.now host.new }
    {
        let more = mem.enable_notification(host, &self.queue);
        mark_asking(mem, host, &self.queue, self.reach.log());
        more
    }

    // There was no chain.
    fn wait<H, D: RingMemory<H>>(
        &mut self,
        alloc: Global,
        mem: &D,
        host: &mut H,
        terms: DeviceLimits,
    ) -> Option<RingEvent>
        requires held { D.held mem.now host.old }
        requires small { terms.sectors < 2 ^ 55 }
        ensures waits { Waits (D.steps mem.now) terms self.old host.old result self.new host.new }
        ensures held { D.held mem.now host.new }
    {
        match self.ask(mem, host) {
            Ok(true) => event_of(self.pop(alloc, mem, host, terms)),
            Ok(false) => Some(RingEvent::Emptied),
            Err(error) => event_of(refused(error)),
        }
    }

    // Pops the next chain, or asks the driver to notify if there is none.
    fn pop_or_wait<H, D: RingMemory<H>>(
        &mut self,
        alloc: Global,
        mem: &D,
        host: &mut H,
        terms: DeviceLimits,
    ) -> Option<RingEvent>
        requires held { D.held mem.now host.old }
        requires small { terms.sectors < 2 ^ 55 }
        ensures next { PopsOrWaits (D.steps mem.now) terms self.old host.old result self.new host.new }
        ensures held { D.held mem.now host.new }
    {
        match self.pop(alloc, mem, host, terms) {
            Pop::None => self.wait(alloc, mem, host, terms),
            found => event_of(found),
        }
    }

    /// What happens to the ring next in its turn: a chain is popped, or none is left after the driver was asked to
    /// notify, or it breaks. `None` if an allocation failed: another try may do it. In the ring's first turn it is read
    /// before that where chains are returned.
    pub fn next_event<H, D: RingMemory<H>>(
        &mut self,
        alloc: Global,
        mem: &D,
        host: &mut H,
        terms: DeviceLimits,
        way: Option<&Way<'_>>,
    ) -> Option<RingEvent>
        requires held { D.held mem.now host.old }
        requires small { terms.sectors < 2 ^ 55 }
        ensures next { HappensBy (D.steps mem.now) (sight_of way.entry) terms self.old host.old result self.new
            host.new }
        ensures held { D.held mem.now host.new }
    {
        match way {
            Some(way) => self.next_behind(alloc, mem, host, terms, *way),
            None => self.next_in_place(alloc, mem, host, terms),
        }
    }

    // The same, if the ring's addresses are those of guest memory.
    fn next_in_place<H, D: RingMemory<H>>(
        &mut self,
        alloc: Global,
        mem: &D,
        host: &mut H,
        terms: DeviceLimits,
    ) -> Option<RingEvent>
        requires held { D.held mem.now host.old }
        requires small { terms.sectors < 2 ^ 55 }
        ensures next { HappensNext (D.steps mem.now) terms self.old host.old result self.new host.new }
        ensures held { D.held mem.now host.new }
    {
        match self.read_place(mem, host) {
            Ok(()) => self.pop_or_wait(alloc, mem, host, terms),
            Err(error) => event_of(refused(error)),
        }
    }

    /// Ends the request of a chain: writes its status, and then marks the pages that the request may have changed. It
    /// forgets the request if an allocation fails.
    pub fn finish<H, D: RingMemory<H>>(
        &mut self,
        mem: &D,
        host: &mut H,
        chain: Chain,
        moved: u64,
        failed: bool,
    ) -> Finished
        requires { D.held mem.now host.old }
        ensures finishes { FinishesRequest (D.steps mem.now) self.old chain moved failed host.old result self.new
            host.new }
        ensures held { D.held mem.now host.new }
    {
        let Some(Some(asked)) = self.asked.get(usize::from(chain.id)) else {
            return Finished::NotUnderWay;
        };
        let status = status_of(asked.request, failed);
        let written = written_of(asked.request, moved);
        match mem.finish(host, &asked.chain, status, written as usize) {
            Ok(len) => {
                mark_chain(mem, host, &asked.chain);
                Finished::Done(len_left(asked, len))
            }
            Err(_) => {
                self.forget(chain.id);
                Finished::Forgotten
            }
        }
    }

    // Forgets the request with an id.
    #[inline(always)]
    fn forget(&mut self, id: u16)
        ensures { self.new ≡ with_asked self.old id None }
    {
        if let Some(place) = self.asked.get_mut(usize::from(id)) {
            if let Some(asked) = place.take() {
                self.spare.give(asked.chain);
            }
        }
    }

    /// Returns a chain whose request was ended, and then marks the pages of the ring.
    pub fn give_back<H, D: RingMemory<H>>(
        &mut self,
        mem: &D,
        host: &mut H,
        chain: Chain,
        len: u32,
    ) -> GiveBack
        requires { D.held mem.now host.old }
        ensures returns { GivesBack (D.steps mem.now) self.old chain len host.old result self.new host.new }
        ensures held { D.held mem.now host.new }
    {
        let log = self.reach.log();
        let given = publish(&mut self.queue, log, mem, host, buffer_of(chain), len);
        self.forget(chain.id);
        given
    }

    /// Whether the driver has to be notified of what was returned.
    pub fn needs_notification<H, D: RingMemory<H>>(
        &mut self,
        mem: &D,
        host: &mut H,
    ) -> Result<bool, QueueError>
        requires { D.held mem.now host.old }
        ensures step { D.steps mem.now host.old (needs self.old.queue) result host.new }
        ensures asked { self.new ≡ with_queue self.old (after_asked self.old.queue result) }
        ensures held { D.held mem.now host.new }
    {
        mem.needs_notification(host, &mut self.queue)
    }
}
