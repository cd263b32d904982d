//! Rings, and whose turn it is.
ghost use Rattle.std.specs.Prelude.{◌≡◌, ◌<◌, ◌≤◌, false, IfOk, length, vec_len, vec_capacity, if◌then◌else◌};
ghost use Rattle.vhost_backend.specs.Line.{settled, stands_in, without};
ghost use Rattle.vhost_backend.specs.Rings.{admits, all_idle, is_turn, less, nothing, turn_of, turn_used, unless_of};

use crate::ring::{Ring, RingActions, RingEvent};
use std::alloc::{AllocError, Global};
use std::marker::Model;

/// How many chains a ring may pop in a turn.
pub const TURN: u32 = 64;

/// How many bytes these chains may ask for, except for the last one.
pub const TURN_BYTES: u64 = 1 << 20;

/// Whose turn it is.
#[derive(Clone, Copy, Debug)]
pub struct Turn {
    /// The number of the ring.
    pub ring: usize,
    /// How many chains it may still pop.
    pub left: u32,
    /// How many bytes these may ask for, except for the last one. It pops none if this is 0.
    pub bytes: u64,
}

/// Whether a message that concerns all rings holds them.
#[derive(Clone, Copy, Debug)]
pub enum Hold {
    /// None does.
    Free,
    /// One waits until nothing is under way.
    Waiting,
    /// Nothing is under way, and one is being done.
    Held,
}

/// What happens.
#[derive(Clone, Copy, Debug)]
pub enum Event {
    /// Something happens to the ring with this number.
    Ring(usize, RingEvent),
    /// It is time for a turn.
    GoOn,
    /// A message concerns all rings: it is done after all that is under way was returned.
    Hold,
    /// That message was done.
    Release,
}

/// What is to be done.
#[derive(Drop)]
pub struct Actions {
    /// The number of the ring that this is for.
    pub ring: usize,
    /// What is to be done for it.
    pub actions: RingActions,
    /// After that the message that holds all rings is to be done.
    pub held: bool,
}

// A ring leaves the line.
fn leave(line: &mut Vec<usize>, ring: usize)
    ensures items { line.new.items ≡ without line.old.items ring }
    ensures capacity { vec_capacity line.new ≡ vec_capacity line.old }
{
    line.retain(|other| *other != ring);
}

// A ring stands in the line while it wants a turn.
fn settle(line: &mut Vec<usize>, ring: usize, wants: bool)
    requires { stands_in ring line.old.items ≡ false → vec_len line.old < vec_capacity line.old }
    ensures items { line.new.items ≡ settled line.old.items ring wants }
    ensures capacity { vec_capacity line.new ≡ vec_capacity line.old }
{
    if !wants {
        leave(line, ring);
    } else if !line.contains(&ring) {
        line.push_reserved(ring);
    }
}

// Whether a ring may pop a chain now.
fn is_turn(turn: Option<Turn>, ring: usize) -> bool
    ensures { result ≡ is_turn turn ring }
{
    match turn {
        Some(turn) => turn.ring == ring && turn.left > 0 && turn.bytes > 0,
        None => false,
    }
}

// Whether an event may happen to a ring now: chains are popped in its turn alone.
fn admits(turn: Option<Turn>, ring: usize, event: RingEvent) -> bool
    ensures { result ≡ admits turn ring event }
{
    match event {
        RingEvent::Popped(..) | RingEvent::Emptied => is_turn(turn, ring),
        _ => true,
    }
}

// What is left of a turn after a chain that asks for some bytes.
fn less(turn: Option<Turn>, bytes: u64) -> Option<Turn>
    ensures { result ≡ less turn bytes }
{
    match turn {
        Some(turn) => Some(Turn {
            ring: turn.ring,
            left: turn.left.saturating_sub(1),
            bytes: turn.bytes.saturating_sub(bytes),
        }),
        None => None,
    }
}

// The turn of a ring that is stopped is over.
fn unless_of(turn: Option<Turn>, ring: usize) -> Option<Turn>
    ensures { result ≡ unless_of turn ring }
{
    match turn {
        Some(turn) if turn.ring != ring => Some(turn),
        _ => None,
    }
}

// What is left of a turn after an event of a ring. It is over if no chain is left to be popped, or its ring is stopped.
fn turn_used(turn: Option<Turn>, ring: usize, event: RingEvent) -> Option<Turn>
    ensures { result ≡ turn_used turn ring event }
{
    match event {
        RingEvent::Popped(_, _, bytes) => less(turn, bytes),
        RingEvent::Emptied => None,
        RingEvent::Stop => unless_of(turn, ring),
        _ => turn,
    }
}

fn turn_of(ring: usize, pops: bool) -> Option<Turn>
    ensures { result ≡ turn_of ring pops }
{
    if pops {
        Some(Turn {
            ring,
            left: TURN,
            bytes: TURN_BYTES,
        })
    } else {
        None
    }
}

pub(crate) fn nothing(ring: usize) -> Actions
    ensures { result ≡ nothing ring }
{
    Actions {
        ring,
        actions: RingActions::none(),
        held: false,
    }
}

fn all_idle(rings: &[Ring]) -> bool
    ensures { result ≡ all_idle rings.now }
{
    rings.iter().all(|ring| ring.is_idle())
}

/// Rings, the line of those that want a turn, whose turn it is, and whether a message holds them all.
#[derive(Drop)]
pub struct Rings {
    rings: Vec<Ring>,
    line: Vec<usize>,
    turn: Option<Turn>,
    hold: Hold,
}

impl Model for Rings {
    ghost use Rattle.std.specs.Prelude.{◌≡◌, ◌≤◌, true, length, vec_capacity};
    ghost use Rattle.vhost_backend.specs.Line.{is_line};
    ghost use Rattle.vhost_backend.specs.Rings.{RingsState};

    ghost Value = { RingsState };

    ghost view = { λ s. record { rings = s.rings.items; line = s.line.items; turn = s.turn; hold = s.hold } };

    ghost invariant = { λ s. (is_line (length s.rings.items) s.line.items ≡ true)
        × (length s.rings.items ≤ vec_capacity s.line) };
}

impl Rings {
    ghost use Rattle.std.specs.Prelude.{length, slice_get};
    ghost use Rattle.vhost_backend.specs.Rings.{after_go_on, after_hold, after_release, happens, has_next, held};
    ghost use Rattle.vhost_backend.specs.Rings.{all_stopped, is_held, is_stopped_at, may_pop, new_rings, now_held};
    ghost use Rattle.vhost_backend.specs.Rings.{on, settled_step};
    ghost use Rattle.vhost_backend.specs.Rings.{turn_taken};

    /// Stopped rings. The ids of their chains are below `ids`.
    pub fn new(alloc: Global, count: usize, ids: usize) -> Result<Rings, AllocError>
        ensures { IfOk result (λ all. all ≡ new_rings count ids) }
    {
        let mut rings = Vec::new(alloc);
        for _ in 0..count {
            rings.push(Ring::new(alloc, ids)?)?;
        }
        Ok(Rings {
            rings,
            line: Vec::with_capacity(alloc, count)?,
            turn: None,
            hold: Hold::Free,
        })
    }

    /// How many rings there are.
    #[inline]
    pub fn count(&self) -> usize
        ensures { result ≡ length self.now.rings }
    {
        self.rings.len()
    }

    /// Whether no ring is started.
    pub fn all_stopped(&self) -> bool
        ensures { result ≡ all_stopped self.now }
    {
        self.rings.iter().all(|ring| ring.is_stopped())
    }

    /// Whether a ring is stopped, or there is none of this number.
    #[inline]
    pub fn is_stopped(&self, ring: usize) -> bool
        ensures { result ≡ is_stopped_at self.now ring }
    {
        ring >= self.rings.len() || self.rings[ring].is_stopped()
    }

    /// Whether a ring may pop a chain now. A chain that is popped otherwise is ignored.
    #[inline]
    pub fn may_pop(&self, ring: usize) -> bool
        ensures { result ≡ may_pop self.now ring }
    {
        ring < self.rings.len() && is_turn(self.turn, ring) && self.rings[ring].may_run()
    }

    /// Whether a ring gets a turn as soon as it is time for one.
    #[inline]
    pub fn has_next(&self) -> bool
        ensures { result ≡ has_next self.now }
    {
        match self.hold {
            Hold::Free => !self.line.is_empty(),
            _ => false,
        }
    }

    /// Whether a message holds all rings, and nothing is under way.
    #[inline]
    pub fn is_held(&self) -> bool
        ensures { result ≡ is_held self.now.hold }
    {
        match self.hold {
            Hold::Held => true,
            _ => false,
        }
    }

    /// Takes note of an event, and says what is to be done.
    #[inline(always)]
    pub fn handle(&mut self, event: Event) -> Actions
        ensures { (self.new, result) ≡ happens self.old event }
    {
        match event {
            Event::Ring(ring, event) => self.on(ring, event),
            Event::GoOn => self.go_on(),
            Event::Hold => self.hold(),
            Event::Release => self.release(),
        }
    }

    // The message that holds all rings is to be done if nothing is under way.
    fn now_held(&mut self) -> bool
        ensures after { self.new ≡ held self.old }
        ensures held { result ≡ now_held self.old }
    {
        let Hold::Waiting = self.hold else {
            return false;
        };
        if !all_idle(&self.rings) {
            return false;
        }
        self.hold = Hold::Held;
        true
    }

    fn hold(&mut self) -> Actions
        ensures { (self.new, result) ≡ after_hold self.old }
    {
        let Hold::Free = self.hold else {
            return nothing(0);
        };
        self.turn = None;
        self.hold = Hold::Waiting;
        Actions {
            ring: 0,
            actions: RingActions::none(),
            held: self.now_held(),
        }
    }

    fn release(&mut self) -> Actions
        ensures { (self.new, result) ≡ after_release self.old }
    {
        if let Hold::Held = self.hold {
            self.hold = Hold::Free;
        }
        nothing(0)
    }

    #[inline(always)]
    fn on(&mut self, ring: usize, event: RingEvent) -> Actions
        ensures { (self.new, result) ≡ on self.old ring event }
    {
        if ring >= self.rings.len() || !admits(self.turn, ring, event) {
            return nothing(ring);
        }
        self.turn = turn_used(self.turn, ring, event);
        let actions = self.rings[ring].handle(event);
        let wants = self.rings[ring].wants();
        self.after_step(ring, wants, actions)
    }

    // The first ring in the line takes its turn.
    fn go_on(&mut self) -> Actions
        ensures { (self.new, result) ≡ after_go_on self.old }
    {
        let Hold::Free = self.hold else {
            return nothing(0);
        };
        match self.line.first().copied() {
            Some(ring) => self.take_turn(ring),
            None => {
                self.turn = None;
                nothing(0)
            }
        }
    }

    fn take_turn(&mut self, ring: usize) -> Actions
        requires { ring < length self.old.rings }
        ensures { (self.new, result) ≡ turn_taken self.old ring (slice_get self.old.rings ring) }
    {
        self.turn = turn_of(ring, self.rings[ring].pops());
        leave(&mut self.line, ring);
        let actions = self.rings[ring].take_turn();
        let wants = self.rings[ring].wants();
        self.after_step(ring, wants, actions)
    }

    // After a step of a ring, which wants a turn or does not.
    fn after_step(&mut self, ring: usize, wants: bool, actions: RingActions) -> Actions
        requires { ring < length self.old.rings }
        ensures { (self.new, result) ≡ settled_step self.old ring wants actions }
    {
        settle(&mut self.line, ring, wants);
        Actions {
            ring,
            actions,
            held: self.now_held(),
        }
    }
}
