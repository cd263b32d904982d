//! A back end of a block device: its connection, its rings, and their queues and requests. Events come in, and what is
//! to be done is given one after another.
ghost use Rattle.std.specs.Prelude.{◌≡◌, ◌-◌, ◌^◌, ◌<◌, [], true, false, None, MatchResult, is_some, slice_set};
ghost use Rattle.vhost_user.specs.Connection.{can_offer};
ghost use Rattle.vhost_user.specs.declared.backend_req_handler.OfferError.TheVariants.{Invalid, Memory};
ghost use Rattle.vhost_backend.specs.Sight.{sight_of};
ghost use Rattle.vhost_backend.specs.BlockBackend.{Acts, GivesBackAt, Looks, Returns, Steps};
ghost use Rattle.vhost_backend.specs.BlockBackend.{TakesTurn, after_reach, answered, came, ended_with, finished_by};
ghost use Rattle.vhost_backend.specs.BlockBackend.{gone_on, hung_up, is_done, mapped, new_block_backend, placed};
ghost use Rattle.vhost_backend.specs.BlockBackend.{placed_by, region_at, resized, set_up_by, terms_of, told, in_use};
ghost use Rattle.vhost_backend.specs.Rings.{has_next};

mod channel;
mod table;
mod without_memory;

use crate::backend::{Backend, Finish, Next, Outcome, Place, Todo};
use crate::block::BlockStep;
use crate::block_queue::{Finished, Way};
use crate::block_queues::{BlockQueues, Reached};
use crate::deeds::{
    Ask, Deed, Limits, Made, Why, called_by, is_asked, is_quiet, limit_if, notified, part_deed,
};
use crate::kicks::Kicks;
use crate::mapping::Mapping;
use crate::questions::Questions;
use crate::request::{Chain, PartEnd};
use crate::ring::{RingAction, RingActions, RingEvent};
use crate::ring_memory::RingMemory;
use crate::rings::Event;
use crate::set_up::part_for;
use crate::table_change::{TableChange, change_in};
use std::alloc::Global;
use vhost_message::{FrontendReq, Header, MemoryRegion, Message};
use vhost_user::{Offer, OfferError, RunningVring};
use virtio_blk::DeviceLimits;

// The features by which a driver keeps the bounds on the length and the number of segments.
const SIZE_MAX: u64 = 2;

const SEG_MAX: u64 = 4;

// How many sectors a disk has at most.
const MOST_SECTORS: u64 = (1 << 55) - 1;

/// A chain whose request was ended, and which is to be returned.
#[derive(Clone, Copy, Debug)]
pub struct Returning {
    /// The number of its ring.
    pub ring: usize,
    pub chain: Chain,
    /// How many bytes were written to it.
    pub len: u32,
}

/// The back end's side of a connection, with the queues of its rings and what is left to be done.
#[derive(Drop)]
pub struct BlockBackend {
    alloc: Global,
    backend: Backend,
    queues: BlockQueues,
    max_size: u16,
    limits: Limits,
    // What is left of what followed from the last event.
    todo: Todo,
    // The chain that is to be returned before that goes on.
    returning: Option<Returning>,
    // The ring of that cannot be reached, and breaks after it.
    broken: bool,
    ask: Ask,
    reply: Message,
    // A ring whose call descriptor is new.
    called: Option<usize>,
    // Why it is over, if that was not said.
    end: Option<Why>,
    // The rings that were kicked since they were looked at.
    kicks: Kicks,
    // The ring that took its turn last.
    turn: usize,
    unread: usize,
    // A message was finished since it was asked.
    finished: bool,
    // What the message on the table changes that was taken last.
    change: Option<TableChange>,
    // Whether there is a channel to the front end, and what it is asked there.
    channel: bool,
    questions: Questions,
}

impl BlockBackend {
    /// A new connection, as from `Backend::new`.
    ///
    /// Leaves open: `Memory` for each offer that can be made.
    pub fn new(
        alloc: Global,
        offer: Offer,
        queues: usize,
        config: &[u8],
        limits: Limits,
    ) -> Result<BlockBackend, OfferError>
        ensures { MatchResult result (λ w. (can_offer offer queues config.now ≡ true)
            × (w ≡ new_block_backend alloc offer queues config.now limits))
            (λ e. (e ≡ Invalid → can_offer offer queues config.now ≡ false)
            × (e ≡ Memory → can_offer offer queues config.now ≡ true)) }
    {
        let Ok(max_size) = u16::try_from(offer.max_queue_size) else {
            return Err(OfferError::Invalid);
        };
        let backend = Backend::new(alloc, offer, queues, config, usize::from(max_size))?;
        let (Ok(kicks), Ok(questions)) = (Kicks::new(alloc, queues), Questions::new(alloc, queues))
        else {
            return Err(OfferError::Memory);
        };
        Ok(BlockBackend {
            alloc,
            backend,
            queues: BlockQueues::new(alloc, queues, max_size)?,
            max_size,
            limits,
            todo: Todo {
                ring: 0,
                place: None,
                actions: RingActions::none(),
                message: Outcome::Stays,
            },
            returning: None,
            broken: false,
            ask: Ask::Nothing,
            reply: Message::new(),
            called: None,
            end: None,
            kicks,
            turn: 0,
            unread: 0,
            finished: false,
            change: None,
            channel: false,
            questions,
        })
    }

    /// The connection.
    #[inline]
    pub fn backend(&self) -> &Backend
        ensures { result.now ≡ self.now.backend }
    {
        &self.backend
    }

    /// The bytes that are to be sent.
    #[inline]
    pub fn reply(&self) -> &Message
        ensures { result.now ≡ self.now.reply }
    {
        &self.reply
    }

    /// The queues.
    #[inline]
    pub fn queues(&self) -> &BlockQueues
        ensures { result.now ≡ self.now.queues }
    {
        &self.queues
    }

    /// Whether nothing is left to be done, and so the next event may come.
    #[inline(always)]
    pub fn is_done(&self) -> bool
        ensures { result ≡ is_done self.now }
    {
        self.todo.place.is_none()
            && self.todo.actions.is_empty()
            && is_quiet(&self.todo.message)
            && self.returning.is_none()
            && !self.broken
            && is_asked(self.ask)
            && self.reply.is_empty()
            && self.called.is_none()
            && self.end.is_none()
            && !self.may_ask()
    }

    /// Whether the next step returns a chain. What its request may have changed was marked.
    #[inline]
    pub fn is_returning(&self) -> bool
        ensures { result ≡ is_some self.now.returning }
    {
        self.returning.is_some()
    }

    /// What requests are held against.
    pub fn terms(&self) -> DeviceLimits
        ensures terms { result ≡ terms_of self.now }
        ensures small { result.sectors < 2 ^ 55 }
    {
        let acked = self.backend.connection().features();
        DeviceLimits {
            sectors: self.limits.sectors.min(MOST_SECTORS),
            read_only: self.limits.read_only,
            acked,
            seg_max: limit_if(acked & SEG_MAX != 0, self.limits.seg_max),
            size_max: limit_if(acked & SIZE_MAX != 0, self.limits.size_max),
        }
    }

    // ---- events

    // Whether the message on the table changes mappings that are in use.
    fn in_use(&self) -> bool
        ensures { result ≡ in_use self.now }
    {
        match &self.change {
            Some(change) => self.queues.in_use(change),
            None => false,
        }
    }

    /// Takes a message that came whole, as `Backend::take_message`, if one can be taken. Returns whether it was.
    pub fn take_message(&mut self, header: &Header, payload: &[u8], descriptors: usize) -> bool
        ensures { (self.new, result) ≡ came self.old header.now payload.now descriptors }
    {
        if !self.is_done() || !self.backend.is_free() {
            return false;
        }
        let asked = FrontendReq::decode(header, payload);
        self.change = change_in(self.backend.connection().memory().regions(), &asked);
        let in_use = self.in_use();
        self.todo = self
            .backend
            .take_message(header, asked, payload, descriptors, in_use);
        true
    }

    /// Takes note that a driver notified.
    pub fn kick(&mut self, ring: usize)
        ensures { self.new ≡ record self.old { kicks = slice_set self.old.kicks ring true } }
    {
        self.kicks.add(ring);
    }

    /// Takes note of what happened, if nothing is left to be done: a part of a request ended.
    pub fn ended(&mut self, ring: usize, id: u16, end: PartEnd)
        ensures { self.new ≡ told self.old (Event.Ring ring (RingEvent.Ended id end)) }
    {
        let event = Event::Ring(ring, RingEvent::Ended(id, end));
        self.backend.handle(event, &mut self.todo);
    }

    /// Gives a ring its turn, if one wants it and nothing is left to be done.
    pub fn go_on(&mut self)
        ensures { self.new ≡ gone_on self.old }
    {
        self.backend.handle(Event::GoOn, &mut self.todo);
        self.turn = self.todo.ring;
    }

    /// Whether a ring gets a turn by `go_on`.
    #[inline]
    pub fn has_next(&self) -> bool
        ensures { result ≡ has_next self.now.backend.rings }
    {
        self.backend.rings().has_next()
    }

    /// Ends the connection.
    pub fn hang_up(&mut self, why: Why)
        ensures { self.new ≡ hung_up self.old why }
    {
        self.ask = Ask::Nothing;
        if !self.backend.is_over() {
            self.backend.hang_up();
            self.end = Some(why);
        }
    }

    /// Takes note that so many bytes of replies were sent.
    pub fn sent(&mut self, count: usize)
        ensures { self.new ≡ record self.old { unread = self.old.unread - count } }
    {
        self.unread = self.unread.saturating_sub(count);
    }

    /// The region that is to be mapped, if one was asked for.
    pub fn region_asked(&self) -> Option<MemoryRegion>
        ensures { result ≡ region_at self.now self.now.ask }
    {
        let Ask::Region(number) = self.ask else {
            return None;
        };
        match self.backend.mapping(number) {
            Some(Mapping::Map(region, _)) => Some(region),
            _ => None,
        }
    }

    /// Takes note that the region was mapped that was asked for, or could not be.
    pub fn mapped(&mut self, is_done: bool)
        ensures { self.new ≡ mapped self.old is_done }
    {
        let Ask::Region(number) = self.ask else {
            return;
        };
        if is_done {
            self.ask = Ask::Mapped(number.saturating_add(1));
        } else {
            self.finish(Finish::Failed);
        }
    }

    /// Takes note that what was asked for was done, or could not be.
    pub fn answer(&mut self, is_done: bool)
        ensures { self.new ≡ answered self.old is_done }
    {
        let Ask::Answer = self.ask else {
            return;
        };
        if is_done {
            let wanted = self.backend.wanted();
            self.called = called_by(self.called, wanted);
            self.keep_channel(wanted);
            self.finish(Finish::Done);
        } else {
            self.finish(Finish::Failed);
        }
    }

    /// How the message on the table changes that, if the memory has what it maps.
    pub fn change(&self) -> Option<TableChange>
        ensures { result ≡ self.now.change }
    {
        self.change
    }

    /// The disk has so many sectors from now on, and the configuration begins with them.
    pub fn resize(&mut self, sectors: u64)
        ensures { self.new ≡ resized self.old sectors }
    {
        self.limits.sectors = sectors;
        self.backend.change_config(0, &sectors.to_le_bytes());
    }

    /// Whether a message was finished since this was asked last.
    pub fn take_finished(&mut self) -> bool
        ensures was { result ≡ self.old.finished }
        ensures after { self.new ≡ record self.old { finished = false } }
    {
        let was = self.finished;
        self.finished = false;
        was
    }

    /// Forgets the bytes of the reply, which are being sent.
    pub fn forget_reply(&mut self)
        ensures { self.new ≡ record self.old { reply = [] } }
    {
        self.reply = Message::new();
    }

    // Finishes the message that took effect.
    fn finish(&mut self, end: Finish)
        ensures { self.new ≡ finished_by self.old end }
    {
        self.ask = Ask::Nothing;
        self.finished = true;
        let (reply, next) = self.backend.finish(end);
        self.reply = reply;
        match next {
            Next::Messages => {}
            Next::End => self.end = Some(Why::Failed),
        }
    }

    // ---- places of rings

    // What comes of a ring that was reached or not.
    fn reach(&mut self, reached: Reached)
        ensures { self.new ≡ after_reach self.old reached }
    {
        match reached {
            Reached::Fine => {}
            Reached::Broken => self.broken = true,
        }
    }

    // Tells a ring's queue where it lies.
    fn set_up(&mut self, vring: &RunningVring, fresh: bool)
        ensures { self.new ≡ set_up_by self.old vring.now fresh }
    {
        let connection = self.backend.connection();
        let (features, ring) = (connection.features(), self.todo.ring);
        let part = part_for(features, ring, connection.inflight());
        let reached = self
            .queues
            .set_up(ring, self.max_size, vring, features, part, fresh);
        self.reach(reached);
    }

    fn place_by(&mut self, place: &Place)
        ensures { self.new ≡ placed_by self.old place.now.vring place.now.fresh }
    {
        if let Ok(vring) = &place.vring {
            self.set_up(vring, place.fresh);
        }
    }

    fn place(&mut self, place: Place)
        ensures { self.new ≡ placed self.old place }
    {
        let ring = self.todo.ring;
        let before = self.awaited(ring);
        self.place_by(&place);
        let after = self.awaited(ring);
        self.free(ring, before, after);
    }

    // ---- what is to be done on memory

    // What comes of the end of a request: its chain is to be returned.
    fn end_with(&mut self, ring: usize, chain: Chain, finished: Finished)
        ensures { self.new ≡ ended_with self.old ring chain finished }
    {
        match finished {
            Finished::Done(len) => self.returning = Some(Returning { ring, chain, len }),
            Finished::Forgotten => self.hang_up(Why::Memory),
            Finished::NotUnderWay => {}
        }
    }

    fn end_request<H, D: RingMemory<H>>(
        &mut self,
        mem: &D,
        host: &mut H,
        ring: usize,
        chain: Chain,
        moved: u64,
        failed: bool,
    ) -> Made
        requires { D.held mem.now host.old }
        ensures acts { Acts (D.steps mem.now) self.old ring (RingAction.Return chain moved failed) host.old result
            self.new host.new }
        ensures held { D.held mem.now host.new }
    {
        let finished = self.queues.finish(mem, host, ring, chain, moved, failed);
        self.end_with(ring, chain, finished);
        Made::Again
    }

    // Returns the chain whose request was ended.
    fn give_back<H, D: RingMemory<H>>(&mut self, mem: &D, host: &mut H, returning: Returning)
        requires { D.held mem.now host.old }
        ensures gives { GivesBackAt (D.steps mem.now) self.old returning host.old self.new host.new }
        ensures held { D.held mem.now host.new }
    {
        let reached = self
            .queues
            .give_back(mem, host, returning.ring, returning.chain, returning.len);
        self.reach(reached);
    }

    fn notify<H, D: RingMemory<H>>(&mut self, mem: &D, host: &mut H, ring: usize) -> Made
        requires { D.held mem.now host.old }
        ensures acts { Acts (D.steps mem.now) self.old ring RingAction.Notify host.old result self.new host.new }
        ensures held { D.held mem.now host.new }
    {
        notified(ring, self.queues.needs_notification(mem, host, ring))
    }

    // Does what is to be done for a ring, or says what the program is to do.
    fn act<H, D: RingMemory<H>>(
        &mut self,
        mem: &D,
        host: &mut H,
        ring: usize,
        action: RingAction,
    ) -> Made
        requires { D.held mem.now host.old }
        ensures acts { Acts (D.steps mem.now) self.old ring action host.old result self.new host.new }
        ensures held { D.held mem.now host.new }
    {
        match action {
            RingAction::Pop => Made::Again,
            RingAction::Serve(id, left) => {
                part_deed(ring, id, left, self.queues.part(ring, id, left))
            }
            RingAction::Return(chain, moved, failed) => {
                self.end_request(mem, host, ring, chain, moved, failed)
            }
            RingAction::Notify => self.notify(mem, host, ring),
            RingAction::Broke => Made::Deed(Deed::Tell(ring)),
            RingAction::Stopped => Made::Deed(Deed::Stopped(ring)),
        }
    }

    // Takes the next step, if no queue is to be told where its ring lies: a chain is returned, or something is done.
    fn step_from<H, D: RingMemory<H>>(&mut self, mem: &D, host: &mut H) -> Made
        requires { D.held mem.now host.old }
        ensures steps { Returns (D.steps mem.now) self.old self.old.returning host.old result self.new host.new }
        ensures held { D.held mem.now host.new }
    {
        if let Some(returning) = self.returning {
            self.returning = None;
            self.give_back(mem, host, returning);
            return Made::Again;
        }
        let ring = self.todo.ring;
        match self.todo.actions.take_first() {
            Some(action) => self.act(mem, host, ring, action),
            None => self.step_on(),
        }
    }

    /// Takes the next step of what follows from the last event.
    pub fn step<H, D: RingMemory<H>>(&mut self, mem: &D, host: &mut H) -> Made
        requires { D.held mem.now host.old }
        ensures steps { Steps (D.steps mem.now) self.old host.old result self.new host.new }
        ensures held { D.held mem.now host.new }
    {
        if let Some(place) = self.todo.place {
            self.todo.place = None;
            self.place(place);
            return Made::Again;
        }
        self.step_from(mem, host)
    }

    // ---- rings that were kicked, and turns

    // The ring that has its turn takes a step of it, if it can.
    fn take_turn<H, D: RingMemory<H>>(
        &mut self,
        mem: &D,
        host: &mut H,
        way: Option<&Way<'_>>,
    ) -> bool
        requires { D.held mem.now host.old }
        ensures turns { TakesTurn (D.steps mem.now) (sight_of way.entry) self.old host.old result self.new host.new }
        ensures held { D.held mem.now host.new }
    {
        let terms = self.terms();
        let is_taken = self.queues.take_step(
            &mut self.backend,
            self.turn,
            self.alloc,
            mem,
            host,
            terms,
            way,
            &mut self.todo,
        );
        if is_taken {
            self.ask_for(self.turn);
        }
        is_taken
    }

    /// Looks at a ring that was kicked, or else pops the next chain of the ring that has its turn, if nothing is left
    /// to be done. Returns whether it did.
    pub fn look<H, D: RingMemory<H>>(
        &mut self,
        mem: &D,
        host: &mut H,
        way: Option<&Way<'_>>,
    ) -> bool
        requires { D.held mem.now host.old }
        ensures looks { Looks (D.steps mem.now) (sight_of way.entry) self.old host.old result self.new host.new }
        ensures held { D.held mem.now host.new }
    {
        if let Some(ring) = self.kicks.take() {
            let event = Event::Ring(ring, RingEvent::Kick);
            self.backend.handle(event, &mut self.todo);
            return true;
        }
        self.take_turn(mem, host, way)
    }
}
