//! The life of a ring.
ghost use Rattle.std.specs.Prelude.{◌≡◌, IfOk};

mod actions;

use crate::request::{Chain, PartEnd, Request};
pub use actions::{RingAction, RingActions};
use std::alloc::{AllocError, Global};
use std::marker::Model;

/// Whether a ring is started.
#[derive(Clone, Copy, Debug)]
pub enum Phase {
    /// It is not, and nothing of it is under way.
    Stopped,
    /// It is.
    Started,
    /// It was, and broke. It pops nothing until it was stopped and is started again.
    Broken,
    /// A message stops it, and waits until nothing of it is under way.
    Stopping,
}

/// What happens to a ring.
#[derive(Clone, Copy, Debug)]
pub enum RingEvent {
    /// A message starts it. One that is not stopped stays as it is.
    Start,
    /// A message stops it. That is answered after all that is under way was returned.
    Stop,
    /// A message enables it or disables it. What is under way is returned all the same.
    Enable(bool),
    /// It cannot be reached, or its driver broke a rule.
    Break,
    /// Its driver notified: it may have chains that were not popped.
    Kick,
    /// A chain was popped: the number of parts of its request, and of the bytes that it asks for.
    Popped(Chain, u32, u64),
    /// No chain is left to be popped: the driver was asked to notify, and then the ring was looked at.
    Emptied,
    /// The part of the request with this id that was being served ended.
    Ended(u16, PartEnd),
}

/// A ring, and its requests that are under way.
#[derive(Drop)]
pub struct Ring {
    phase: Phase,
    enabled: bool,
    kicked: bool,
    owes: bool,
    requests: Vec<Option<Request>>,
    // How many of these are there.
    under_way: usize,
}

impl Model for Ring {
    ghost use Rattle.std.specs.Prelude.{◌≡◌};
    ghost use Rattle.vhost_backend.specs.Ring.{RingState, count_of};

    ghost Value = { RingState };

    ghost view = { λ r. record {
      phase = r.phase;
      enabled = r.enabled;
      kicked = r.kicked;
      owes = r.owes;
      requests = r.requests.items;
    } };

    ghost invariant = { λ r. r.under_way ≡ count_of r.requests.items };
}

impl Ring {
    ghost use Rattle.std.specs.Prelude.{IsTrue, Some, is_some};
    ghost use Rattle.vhost_backend.specs.Ring.{after_break, after_end, after_pop, after_start, after_stop, after_turn};
    ghost use Rattle.vhost_backend.specs.Ring.{is_idle, is_stopped, may_run, new_ring, part_moved, pops, request_at};
    ghost use Rattle.vhost_backend.specs.Ring.{returned, step, wants, with_moved};

    /// A stopped ring that is not enabled. The ids of its chains are below `ids`.
    pub fn new(alloc: Global, ids: usize) -> Result<Ring, AllocError>
        ensures { IfOk result (λ ring. ring ≡ new_ring ids) }
    {
        Ok(Ring {
            phase: Phase::Stopped,
            enabled: false,
            kicked: false,
            owes: false,
            requests: vec![in alloc; None; ids]?,
            under_way: 0,
        })
    }

    /// Whether it may pop chains.
    #[inline]
    pub fn may_run(&self) -> bool
        ensures { result ≡ may_run self.now }
    {
        match self.phase {
            Phase::Started => self.enabled,
            _ => false,
        }
    }

    /// Whether it is stopped.
    #[inline]
    pub fn is_stopped(&self) -> bool
        ensures { result ≡ is_stopped self.now.phase }
    {
        match self.phase {
            Phase::Stopped => true,
            _ => false,
        }
    }

    /// Whether nothing of it is under way.
    #[inline]
    pub fn is_idle(&self) -> bool
        ensures { result ≡ is_idle self.now }
    {
        self.under_way == 0
    }

    /// Whether it is to pop chains in its turn.
    #[inline]
    pub fn pops(&self) -> bool
        ensures { result ≡ pops self.now }
    {
        self.kicked && self.may_run()
    }

    /// Whether it wants a turn.
    #[inline]
    pub fn wants(&self) -> bool
        ensures { result ≡ wants self.now }
    {
        self.owes || self.pops()
    }

    /// Takes its turn.
    pub fn take_turn(&mut self) -> RingActions
        ensures { (self.new, result) ≡ after_turn self.old }
    {
        let owes = self.owes;
        self.owes = false;
        RingActions::turn(owes, self.pops())
    }

    /// Takes note of an event, and says what is to be done.
    #[inline(always)]
    pub fn handle(&mut self, event: RingEvent) -> RingActions
        ensures { (self.new, result) ≡ step self.old event }
    {
        match event {
            RingEvent::Start => self.start(),
            RingEvent::Stop => self.stop(),
            RingEvent::Enable(on) => {
                self.enabled = on;
                RingActions::none()
            }
            RingEvent::Break => self.fail(),
            RingEvent::Kick => {
                self.kicked = true;
                RingActions::none()
            }
            RingEvent::Popped(chain, parts, _) => self.begin(chain, parts),
            RingEvent::Emptied => {
                self.kicked = false;
                RingActions::none()
            }
            RingEvent::Ended(id, end) => self.end(id, end),
        }
    }

    fn start(&mut self) -> RingActions
        ensures { (self.new, result) ≡ after_start self.old }
    {
        if let Phase::Stopped = self.phase {
            self.phase = Phase::Started;
            self.kicked = true;
        }
        RingActions::none()
    }

    fn stop(&mut self) -> RingActions
        ensures { (self.new, result) ≡ after_stop self.old }
    {
        if self.under_way > 0 {
            self.phase = Phase::Stopping;
            return RingActions::none();
        }
        let owes = self.owes;
        self.phase = Phase::Stopped;
        self.owes = false;
        RingActions::stop(owes)
    }

    fn fail(&mut self) -> RingActions
        ensures { (self.new, result) ≡ after_break self.old }
    {
        match self.phase {
            Phase::Started => {
                self.phase = Phase::Broken;
                RingActions::one(RingAction::Broke)
            }
            _ => RingActions::none(),
        }
    }

    // The request with an id that is under way.
    fn request(&self, id: u16) -> Option<Request>
        ensures { result ≡ request_at self.now id }
    {
        let place = id as usize;
        if place < self.requests.len() {
            self.requests[place]
        } else {
            None
        }
    }

    // A chain whose id has no place, or is that of one under way, breaks the ring.
    fn begin(&mut self, chain: Chain, parts: u32) -> RingActions
        ensures { (self.new, result) ≡ after_pop self.old chain parts }
    {
        if !self.may_run() {
            return RingActions::none();
        }
        let place = chain.id as usize;
        if place >= self.requests.len() || self.requests[place].is_some() {
            return self.fail();
        }
        if parts == 0 {
            self.owes = true;
            return RingActions::one(RingAction::Return(chain, 0, false));
        }
        self.requests[place] = Some(Request {
            slots: chain.slots,
            left: parts,
            moved: 0,
        });
        self.under_way += 1;
        RingActions::one(RingAction::Serve(chain.id, parts))
    }

    fn end(&mut self, id: u16, end: PartEnd) -> RingActions
        ensures { (self.new, result) ≡ after_end self.old id end }
    {
        let Some(request) = self.request(id) else {
            return RingActions::none();
        };
        match end {
            PartEnd::Moved(count) => self.go_on(id, request, count),
            PartEnd::Failed => self.give_back(id, request, true),
        }
    }

    // A part of a request moved some bytes.
    fn go_on(&mut self, id: u16, request: Request, count: u32) -> RingActions
        requires { request_at self.old id ≡ Some request }
        ensures { (self.new, result) ≡ part_moved self.old id (with_moved request count) }
    {
        let request = Request {
            slots: request.slots,
            left: request.left.saturating_sub(1),
            moved: request.moved.saturating_add(u64::from(count)),
        };
        if request.left == 0 {
            return self.give_back(id, request, false);
        }
        self.requests[id as usize] = Some(request);
        RingActions::one(RingAction::Serve(id, request.left))
    }

    // A request is over.
    fn give_back(&mut self, id: u16, request: Request, failed: bool) -> RingActions
        requires { IsTrue (is_some (request_at self.old id)) }
        ensures { (self.new, result) ≡ returned self.old id request failed }
    {
        self.requests[id as usize] = None;
        self.under_way -= 1;
        let chain = Chain {
            id,
            slots: request.slots,
        };
        let action = RingAction::Return(chain, request.moved, failed);
        match self.phase {
            Phase::Stopping if self.under_way == 0 => {
                self.phase = Phase::Stopped;
                self.owes = false;
                RingActions::last(action)
            }
            _ => {
                self.owes = true;
                RingActions::one(action)
            }
        }
    }
}
