//! A connection with a front end: its messages, and the rings that they start, stop and hold.
ghost use Rattle.std.specs.Prelude.{◌≡◌};
ghost use Rattle.vhost_backend.specs.Backend.{is_due, is_outer, moved, to_do};

use crate::mapping::{Mapping, mapping_of};
use crate::ring::{RingActions, RingEvent};
use crate::rings::{Actions, Event, Rings, nothing};
use crate::wanted::{Wanted, wanted_of};
use std::alloc::Global;
use std::marker::Model;
use std::mem;
use vhost_message::{FrontendReq, Header, Message, Refusal};
use vhost_user::{BackendReqHandler, NotRunning, Offer, OfferError, RunningVring};

/// What has to be returned before a message takes effect.
#[derive(Clone, Copy, Debug)]
pub enum Until {
    /// Nothing.
    Now,
    /// All that is under way of a ring, which stops.
    Ring(usize),
    /// All that is under way.
    AllRings,
}

/// How far the message has come that was taken last.
#[derive(Drop)]
pub enum Taken {
    /// It was finished or refused, or there was none.
    Nothing,
    /// It takes effect after what it waits for was returned.
    Waits(Header, FrontendReq, Until),
    /// It took effect, and what it asks for is being done.
    Begun(Header, FrontendReq),
    /// The connection is over: none is taken any more.
    Over,
}

/// Whether the queue of a ring was told where that lies.
#[derive(Clone, Copy, Debug)]
pub enum Placing {
    /// It was.
    Placed,
    /// A message came since then.
    Moved,
    /// The ring was started since then.
    Fresh,
}

/// Where a ring lies, which its queue is told before anything else is done for it.
#[derive(Clone, Copy, Debug)]
pub struct Place {
    /// The ring, or why it cannot be reached.
    pub vring: Result<RunningVring, NotRunning>,
    /// It was started: its queue begins at its base.
    pub fresh: bool,
}

/// What becomes of the message that was taken.
#[derive(Drop)]
pub enum Outcome {
    /// Nothing yet, or there is none.
    Stays,
    /// It took effect. What it asks for is to be done now, and then it is to be finished.
    Begins,
    /// It was refused, and changes nothing. Its front end is told so, if it asked for that in this header.
    Refused(Refusal, Header),
}

/// How a message was done.
#[derive(Clone, Copy, Debug)]
pub enum Finish {
    /// It was.
    Done,
    /// It was, and the ring that it stopped goes on from this base.
    At(u32),
    /// It could not be done.
    Failed,
}

/// What comes after a message that was finished.
#[derive(Clone, Copy, Debug)]
pub enum Next {
    /// Further messages.
    Messages,
    /// The end of the connection, since the message could not be done.
    End,
}

/// What is to be done, in this order, before the next event.
#[derive(Drop)]
pub struct Todo {
    /// The number of the ring that this is for.
    pub ring: usize,
    /// What its queue is to be told first.
    pub place: Option<Place>,
    /// What is to be done for it.
    pub actions: RingActions,
    /// What becomes of the message.
    pub message: Outcome,
}

// Whether an event comes from outside, and not from a message.
fn is_outer(event: Event) -> bool
    ensures { result ≡ is_outer event }
{
    match event {
        Event::Ring(_, RingEvent::Start | RingEvent::Stop | RingEvent::Enable(_)) => false,
        Event::Ring(..) | Event::GoOn => true,
        Event::Hold | Event::Release => false,
    }
}

// Whether what a message waits for was returned.
fn is_due(until: Until, done: &Actions) -> bool
    ensures { result ≡ is_due until done.now }
{
    match until {
        Until::Now => true,
        Until::Ring(ring) => done.ring == ring && done.actions.has_answer(),
        Until::AllRings => done.held,
    }
}

fn moved(placing: Placing) -> Placing
    ensures { result ≡ moved placing }
{
    match placing {
        Placing::Placed | Placing::Moved => Placing::Moved,
        Placing::Fresh => Placing::Fresh,
    }
}

fn to_do(done: Actions, place: Option<Place>, message: Outcome) -> Todo
    ensures { result ≡ to_do done place message }
{
    Todo {
        ring: done.ring,
        place,
        actions: done.actions,
        message,
    }
}

/// The back end's side of a connection: the protocol's state, the rings, and the message that was taken.
#[derive(Drop)]
pub struct Backend {
    connection: BackendReqHandler,
    rings: Rings,
    placings: Vec<Placing>,
    taken: Taken,
}

impl Model for Backend {
    ghost use Rattle.std.specs.Prelude.{◌≤◌, length};
    ghost use Rattle.vhost_backend.specs.Backend.{BackendState};

    ghost Value = { BackendState };

    ghost view = { λ b. record {
      connection = b.connection;
      rings = b.rings;
      placings = b.placings.items;
      taken = b.taken;
    } };

    ghost invariant = { λ b. length b.placings.items ≤ 256 };
}

impl Backend {
    ghost use Rattle.std.specs.Prelude.{◌<◌, false, length, true, MatchResult};
    ghost use Rattle.vhost_user.specs.Connection.{can_offer, connected};
    ghost use Rattle.vhost_backend.specs.Wanted.{wanted_at};
    ghost use Rattle.vhost_user.specs.declared.backend_req_handler.OfferError.TheVariants.{Invalid, Memory};
    ghost use Rattle.vhost_backend.specs.Backend.{after_event, after_finish, after_request, begun, begun_or_waits};
    ghost use Rattle.vhost_backend.specs.Backend.{happened, is_at_rest, is_free, is_over, mapping_at, new_backend};
    ghost use Rattle.vhost_backend.specs.Backend.{over, placed, rebased, refreshed_one, refused, released, to_place};
    ghost use Rattle.vhost_backend.specs.Config.{config_changed};
    ghost use Rattle.vhost_backend.specs.Backend.{until_of, waiting};

    /// A new connection, as from `BackendReqHandler::new`. The ids of its rings' chains are below `ids`.
    ///
    /// Leaves open: `Memory` for each offer that can be made.
    pub fn new(
        alloc: Global,
        offer: Offer,
        queues: usize,
        config: &[u8],
        ids: usize,
    ) -> Result<Backend, OfferError>
        ensures { MatchResult result (λ b. (can_offer offer queues config.now ≡ true)
            × (b ≡ new_backend (connected offer queues config.now) ids))
            (λ e. (e ≡ Invalid → can_offer offer queues config.now ≡ false)
            × (e ≡ Memory → can_offer offer queues config.now ≡ true)) }
    {
        let connection = BackendReqHandler::new(alloc, offer, queues, config)?;
        let (Ok(rings), Ok(placings)) = (
            Rings::new(alloc, queues, ids),
            vec![in alloc; Placing::Moved; queues],
        ) else {
            return Err(OfferError::Memory);
        };
        Ok(Backend {
            connection,
            rings,
            placings,
            taken: Taken::Nothing,
        })
    }

    /// The protocol's state.
    #[inline]
    pub fn connection(&self) -> &BackendReqHandler
        ensures { result.now ≡ self.now.connection }
    {
        &self.connection
    }

    /// The rings.
    #[inline]
    pub fn rings(&self) -> &Rings
        ensures { result.now ≡ self.now.rings }
    {
        &self.rings
    }

    /// Whether a message can be taken: the one before it was finished or refused.
    #[inline]
    pub fn is_free(&self) -> bool
        ensures { result ≡ is_free self.now.taken }
    {
        match self.taken {
            Taken::Nothing => true,
            _ => false,
        }
    }

    /// Whether the connection is over. No message is taken then, and no chain is popped. What is under way is returned.
    #[inline]
    pub fn is_over(&self) -> bool
        ensures { result ≡ is_over self.now.taken }
    {
        match self.taken {
            Taken::Over => true,
            _ => false,
        }
    }

    /// Whether the connection is over, and nothing is under way any more: memory and descriptors may go.
    #[inline]
    pub fn is_at_rest(&self) -> bool
        ensures { result ≡ is_at_rest self.now }
    {
        self.is_over() && self.rings.is_held()
    }

    /// What is to be done with the mappings of guest memory before the message that took effect is finished: one after
    /// another, from number 0 on, until there is none.
    pub fn mapping(&self, number: usize) -> Option<Mapping>
        ensures { result ≡ mapping_at self.now.taken number }
    {
        match &self.taken {
            Taken::Begun(_, request) => mapping_of(request, number),
            _ => None,
        }
    }

    /// What the message that took effect asks for before it is finished.
    pub fn wanted(&self) -> Wanted
        ensures { result ≡ wanted_at self.now.taken }
    {
        match &self.taken {
            Taken::Begun(_, request) => wanted_of(request),
            _ => Wanted::Nothing,
        }
    }

    /// Replaces bytes of the configuration from an offset on, if it has them.
    pub fn change_config(&mut self, offset: u32, bytes: &[u8])
        ensures { self.new ≡ config_changed self.old offset bytes.now }
    {
        let _ = self.connection.change_config(offset, bytes);
    }

    // Puts what a ring's queue is to be told first, if something is to be done for the ring.
    fn place(&mut self, done: &Actions, place: &mut Option<Place>)
        ensures place { place.new ≡ to_place self.old done.now }
        ensures after { self.new ≡ placed self.old done.now }
    {
        *place = None;
        let ring = done.ring;
        if ring >= self.placings.len() || done.actions.is_empty() {
            return;
        }
        let fresh = match self.placings[ring] {
            Placing::Placed => return,
            Placing::Moved => false,
            Placing::Fresh => true,
        };
        self.placings[ring] = Placing::Placed;
        let vring = self.connection.running(ring as u32);
        *place = Some(Place { vring, fresh });
    }

    // What has to be returned before a request takes effect.
    fn until(&self, request: &FrontendReq, in_use: bool) -> Until
        ensures { result ≡ until_of self.now in_use request.now }
    {
        match request {
            FrontendReq::SetMemTable(_)
            | FrontendReq::SetFeatures(_)
            | FrontendReq::SetLogBase { .. }
            | FrontendReq::SetInflightFd(_) => { Until::AllRings }
            FrontendReq::SetVringAddr(address) if !self.rings.is_stopped(address.index as usize) =>
                { Until::AllRings }
            FrontendReq::GetVringBase { index } if (*index as usize) < self.rings.count() => {
                Until::Ring(*index as usize)
            }
            FrontendReq::IotlbMsg(_) if in_use => Until::AllRings,
            _ => Until::Now,
        }
    }

    fn refuse(&self, header: &Header, refusal: Refusal) -> Todo
        ensures { result ≡ refused self.now header.now refusal }
    {
        to_do(nothing(0), None, Outcome::Refused(refusal, *header))
    }

    // Whether a message was done, and the ring that it stopped can go on from its base.
    fn rebase(&mut self, request: &FrontendReq, end: Finish) -> bool
        ensures { (self.new, result) ≡ rebased self.old request.now end }
    {
        match (request, end) {
            (_, Finish::Failed) => false,
            (FrontendReq::GetVringBase { index }, Finish::At(base)) => {
                self.connection.stop(*index, base).is_ok()
            }
            _ => true,
        }
    }

    // A message takes effect, or is refused.
    fn begin(&mut self, header: Header, request: FrontendReq, payload: &[u8]) -> Outcome
        ensures { (self.new, result) ≡ begun self.old header request payload.now }
    {
        match self.connection.serve(&request, payload) {
            Ok(()) => {
                self.taken = Taken::Begun(header, request);
                Outcome::Begins
            }
            Err(refusal) => {
                self.taken = Taken::Nothing;
                self.rings.handle(Event::Release);
                Outcome::Refused(refusal, header)
            }
        }
    }

    // Stops or holds what has to be returned.
    fn wait(&mut self, until: Until) -> Actions
        ensures { (self.new, result) ≡ waiting self.old until }
    {
        match until {
            Until::Now => nothing(0),
            Until::Ring(ring) => self.rings.handle(Event::Ring(ring, RingEvent::Stop)),
            Until::AllRings => self.rings.handle(Event::Hold),
        }
    }

    // A message takes effect if what it waits for was returned. Else it waits.
    fn begin_or_wait(
        &mut self,
        header: Header,
        request: FrontendReq,
        payload: &[u8],
        until: Until,
        done: &Actions,
    ) -> Outcome
        ensures { (self.new, result)
            ≡ begun_or_waits self.old header request payload.now until (is_due until done.now) }
    {
        if is_due(until, done) {
            return self.begin(header, request, payload);
        }
        self.taken = Taken::Waits(header, request, until);
        Outcome::Stays
    }

    /// Takes a message that came whole: its header, what it asks for by that and its payload, the payload, and how many
    /// descriptors came with it. It is ignored if the one before it was not finished. What it stops or changes for all
    /// rings is returned before it takes effect. A message on the table changes something for all rings if mappings are
    /// in use that it changes.
    ///
    /// One that is refused changes neither the protocol's state nor what is under way: for the errors of
    /// `BackendReqHandler::handle`.
    pub fn take_message(
        &mut self,
        header: &Header,
        asked: Result<FrontendReq, Refusal>,
        payload: &[u8],
        descriptors: usize,
        in_use: bool,
    ) -> Todo
        ensures { (self.new, result) ≡ after_request self.old header.now asked payload.now descriptors in_use }
    {
        let Taken::Nothing = self.taken else {
            return to_do(nothing(0), None, Outcome::Stays);
        };
        let request = match asked {
            Ok(request) => request,
            Err(refusal) => return self.refuse(header, refusal),
        };
        if descriptors != request.descriptors() {
            return self.refuse(header, Refusal::Descriptors);
        }
        let until = self.until(&request, in_use);
        let done = self.wait(until);
        let mut place = None;
        self.place(&done, &mut place);
        let outcome = self.begin_or_wait(*header, request, payload, until, &done);
        to_do(done, place, outcome)
    }

    /// Takes note of what happened: one of `Kick`, `Break`, `Popped`, `Emptied`, `Ended` and `GoOn`. Others, which
    /// follow from messages, are ignored. What is to be done goes into `todo`.
    #[inline(always)]
    pub fn handle(&mut self, event: Event, todo: &mut Todo)
        ensures { (self.new, todo.new) ≡ after_event self.old event }
    {
        if !is_outer(event) {
            *todo = to_do(nothing(0), None, Outcome::Stays);
            return;
        }
        let done = self.rings.handle(event);
        self.place(&done, &mut todo.place);
        todo.message = match &self.taken {
            Taken::Waits(..) => self.go_on(&done),
            _ => Outcome::Stays,
        };
        todo.ring = done.ring;
        todo.actions = done.actions;
    }

    // A message that waits takes effect if what it waits for was returned.
    fn go_on(&mut self, done: &Actions) -> Outcome
        ensures { (self.new, result) ≡ happened self.old done.now }
    {
        match mem::replace(&mut self.taken, Taken::Nothing) {
            Taken::Waits(header, request, until) => {
                self.begin_or_wait(header, request, &[], until, done)
            }
            other => {
                self.taken = other;
                Outcome::Stays
            }
        }
    }

    // A ring runs as the protocol's state has it from now on.
    fn refresh(&mut self, ring: usize)
        requires { ring < length self.old.placings }
        ensures { self.new ≡ refreshed_one self.old ring }
    {
        let is_on = self.connection.running(ring as u32).is_ok();
        let starts = is_on && self.rings.is_stopped(ring);
        self.rings
            .handle(Event::Ring(ring, RingEvent::Enable(is_on)));
        if is_on {
            self.rings.handle(Event::Ring(ring, RingEvent::Start));
        }
        let placing = if starts {
            Placing::Fresh
        } else {
            moved(self.placings[ring])
        };
        self.placings[ring] = placing;
    }

    // The message that was taken is over.
    fn release(&mut self)
        ensures { self.new ≡ released self.old }
    {
        self.taken = Taken::Nothing;
        self.rings.handle(Event::Release);
    }

    /// Ends the connection, as if the front end had ended it: the message that was taken is dropped, none is taken any
    /// more, and no chain is popped. What is under way is returned.
    pub fn hang_up(&mut self)
        ensures { self.new ≡ over self.old }
    {
        self.taken = Taken::Over;
        self.rings.handle(Event::Hold);
    }

    /// Finishes the message that took effect: rings start and run as the protocol's state has it, and the bytes of the
    /// reply are returned, if one is due. If the message could not be done, or the base of a ring cannot be replied,
    /// the connection is over: the bytes say so if the front end asked for that, and are the last that are sent.
    pub fn finish(&mut self, end: Finish) -> (Message, Next)
        ensures { (self.new, result) ≡ after_finish self.old end }
    {
        match mem::replace(&mut self.taken, Taken::Nothing) {
            Taken::Begun(header, request) => {
                self.release();
                if !self.rebase(&request, end) {
                    let reply = self.connection.refuse(&header);
                    self.hang_up();
                    return (reply, Next::End);
                }
                for ring in 0..self.placings.len() {
                    self.refresh(ring);
                }
                (self.connection.reply(&header, &request), Next::Messages)
            }
            other => {
                self.taken = other;
                (Message::new(), Next::Messages)
            }
        }
    }
}
