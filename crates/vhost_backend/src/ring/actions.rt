//! What is to be done for a ring.
ghost use Rattle.std.specs.Prelude.{◌≡◌};
ghost use Rattle.std.specs.List.{list_any};
ghost use Rattle.vhost_backend.specs.Actions.{is_answer, listed_one};

use crate::request::Chain;
use std::marker::Model;

/// What is to be done for a ring.
#[derive(Clone, Copy, Debug)]
pub enum RingAction {
    /// Chains are to be popped, one after another until there is none or the turn is over.
    Pop,
    /// The next part of the request with this id is to be served. The number of parts that are left counts this one.
    Serve(u16, u32),
    /// A chain is to be returned: the number of bytes that its parts have moved, and whether the last one failed.
    Return(Chain, u64, bool),
    /// The driver is to be interrupted, unless it asks not to be.
    Notify,
    /// The front end is to be told that the ring broke.
    Broke,
    /// The message that stopped the ring is to be answered.
    Stopped,
}

/// What is to be done for a ring after an event, in order.
#[derive(Drop)]
pub struct RingActions {
    first: Option<RingAction>,
    // After that, whichever of them is to be done.
    notifies: bool,
    pops: bool,
    stopped: bool,
}

impl Model for RingActions {
    ghost use Rattle.std.specs.Prelude.{List};
    ghost use Rattle.vhost_backend.specs.declared.ring.actions.RingAction.{RingAction};
    ghost use Rattle.vhost_backend.specs.Actions.{listed};

    ghost Value = { List RingAction };

    ghost view = { λ a. listed a.first a.notifies a.pops a.stopped };
}

fn is_answer(action: Option<RingAction>) -> bool
    ensures { result ≡ list_any is_answer (listed_one action) }
{
    match action {
        Some(RingAction::Stopped) => true,
        _ => false,
    }
}

impl RingActions {
    ghost use Rattle.std.specs.Prelude.{[], ◌∷◌, ◌++◌, ◌==◌, drop, length, slice_get};
    ghost use Rattle.std.specs.List.{list_any};
    ghost use Rattle.vhost_backend.specs.Actions.{if_so, is_answer};
    ghost use Rattle.vhost_backend.specs.declared.ring.actions.RingAction.TheVariants as deed;

    /// Takes the first action, if there is one.
    pub fn take_first(&mut self) -> Option<RingAction>
        ensures first { result ≡ slice_get self.old 0 }
        ensures rest { self.new ≡ drop 1 self.old }
    {
        if self.first.is_some() {
            return self.first.take();
        }
        if self.notifies {
            self.notifies = false;
            return Some(RingAction::Notify);
        }
        if self.pops {
            self.pops = false;
            return Some(RingAction::Pop);
        }
        if self.stopped {
            self.stopped = false;
            return Some(RingAction::Stopped);
        }
        None
    }

    /// Whether nothing is to be done.
    #[inline]
    pub fn is_empty(&self) -> bool
        ensures { result ≡ (length self.now == 0) }
    {
        self.first.is_none() && !self.notifies && !self.pops && !self.stopped
    }

    /// Whether the message that stopped the ring is to be answered.
    #[inline]
    pub fn has_answer(&self) -> bool
        ensures { result ≡ list_any is_answer self.now }
    {
        self.stopped || is_answer(self.first)
    }

    pub(crate) fn none() -> RingActions
        ensures { result ≡ [] }
    {
        RingActions {
            first: None,
            notifies: false,
            pops: false,
            stopped: false,
        }
    }

    pub(crate) fn one(action: RingAction) -> RingActions
        ensures { result ≡ action ∷ [] }
    {
        RingActions {
            first: Some(action),
            notifies: false,
            pops: false,
            stopped: false,
        }
    }

    // Those of a turn.
    pub(crate) fn turn(notifies: bool, pops: bool) -> RingActions
        ensures { result ≡ if_so notifies deed.Notify ++ if_so pops deed.Pop }
    {
        RingActions {
            first: None,
            notifies,
            pops,
            stopped: false,
        }
    }

    // Those of a ring that is stopped.
    pub(crate) fn stop(notifies: bool) -> RingActions
        ensures { result ≡ if_so notifies deed.Notify ++ deed.Stopped ∷ [] }
    {
        RingActions {
            first: None,
            notifies,
            pops: false,
            stopped: true,
        }
    }

    // Those of a ring that is stopped after the last action of its requests.
    pub(crate) fn last(action: RingAction) -> RingActions
        ensures { result ≡ action ∷ deed.Notify ∷ deed.Stopped ∷ [] }
    {
        RingActions {
            first: Some(action),
            notifies: true,
            pops: false,
            stopped: true,
        }
    }
}
