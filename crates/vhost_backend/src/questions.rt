//! What a front end is asked on the back end's own channel: MISSes for addresses that rings need, and which of them are
//! without a reply.
ghost use Rattle.std.specs.Prelude.{◌≡◌, ◌≤◌, true, IfOk, length, vec_capacity};
ghost use Rattle.vhost_backend.specs.Line.{is_line};
ghost use Rattle.vhost_backend.specs.Questions.{after_reply, asking, forgotten, has_miss, has_next, is_asked};
ghost use Rattle.vhost_backend.specs.Questions.{is_due, lost, no_questions, place_of, stale, staled, taken_due, wanted};

use std::alloc::{AllocError, Global};
use std::marker::Model;
use vm_memory_base::Permissions;

// How many MISSes are without a reply at most.
const MOST_SENT: usize = 64;

/// An address that a ring needs for an access.
#[derive(Clone, Copy, Debug, PartialEq, Eq)]
pub struct Miss {
    /// The number of the ring.
    pub ring: usize,
    /// The I/O address.
    pub iova: u64,
    /// The access.
    pub access: Permissions,
}

/// A MISS without a reply.
#[derive(Clone, Copy, Debug, PartialEq, Eq)]
pub struct SentMiss {
    /// The number of the ring that needs the address.
    pub ring: usize,
    /// Whether it still waits for the reply.
    pub is_awaited: bool,
}

// Whether a MISS of a ring is without a reply.
fn is_asked(sent: &[SentMiss], ring: usize) -> bool
    ensures { result ≡ is_asked sent.now ring }
{
    sent.iter().any(|one| one.ring == ring)
}

// Whether a MISS of a ring is to be sent.
fn is_due(due: &[Miss], ring: usize) -> bool
    ensures { result ≡ is_due due.now ring }
{
    due.iter().any(|one| one.ring == ring)
}

fn has_miss(sent: &[SentMiss], due: &[Miss], ring: usize) -> bool
    ensures { result ≡ has_miss sent.now due.now ring }
{
    is_asked(sent, ring) || is_due(due, ring)
}

// Where the MISS of a ring stands that is without a reply, if there is one.
fn place_of(sent: &[SentMiss], ring: usize) -> Option<usize>
    ensures { result ≡ place_of sent.now ring }
{
    sent.iter().position(|one| one.ring == ring)
}

// A ring no longer waits for the reply to its MISS.
fn mark_stale(sent: &mut Vec<SentMiss>, ring: usize)
    ensures items { sent.new.items ≡ staled sent.old.items ring }
    ensures capacity { vec_capacity sent.new ≡ vec_capacity sent.old }
{
    let Some(at) = place_of(sent, ring) else {
        return;
    };
    if let Some(one) = sent.get_mut(at) {
        *one = SentMiss {
            ring,
            is_awaited: false,
        };
    }
}

// A MISS of a ring is not sent any more.
fn forget(due: &mut Vec<Miss>, ring: usize)
    ensures items { due.new.items ≡ forgotten due.old.items ring }
    ensures capacity { vec_capacity due.new ≡ vec_capacity due.old }
{
    due.retain(|one| one.ring != ring);
}

/// The MISSes of rings, one at most of each ring.
#[derive(Drop)]
pub struct Questions {
    rings: usize,
    // Those that were sent and are without a reply, in this order.
    sent: Vec<SentMiss>,
    // Those that are to be sent, in this order.
    due: Vec<Miss>,
}

impl Model for Questions {
    ghost use Rattle.std.specs.Prelude.{◌≡◌, ◌≤◌, true, length, vec_capacity};
    ghost use Rattle.vhost_backend.specs.Questions.{QuestionsState, IsKept};

    ghost Value = { QuestionsState };

    ghost view = { λ q. record {
      rings = q.rings;
      sent = q.sent.items;
      due = q.due.items;
    } };

    ghost invariant = { λ q. IsKept q.rings q.sent.items q.due.items (vec_capacity q.sent) (vec_capacity q.due) };
}

impl Questions {
    /// None, for so many rings.
    pub fn new(alloc: Global, rings: usize) -> Result<Questions, AllocError>
        ensures { IfOk result (λ q. q ≡ no_questions rings) }
    {
        Ok(Questions {
            rings,
            sent: Vec::with_capacity(alloc, MOST_SENT)?,
            due: Vec::with_capacity(alloc, rings)?,
        })
    }

    /// Whether something is to be sent now. If 64 MISSes are without a reply, further ones wait.
    #[inline]
    pub fn has_next(&self) -> bool
        ensures { result ≡ has_next self.now }
    {
        !self.due.is_empty() && self.sent.len() < MOST_SENT
    }

    /// A ring needs an address. A MISS is to be sent for it, unless one of the ring is to be sent or without a reply:
    /// then the ring may ask after that.
    pub fn wants(&mut self, miss: Miss)
        ensures { self.new ≡ wanted self.old miss }
    {
        if miss.ring >= self.rings || has_miss(&self.sent, &self.due, miss.ring) {
            return;
        }
        self.due.push_reserved(miss);
    }

    /// A ring needs no address any more: what it asked for came, or it goes another way. Its MISS is not sent, or the
    /// reply to that says nothing to it.
    pub fn stale(&mut self, ring: usize)
        ensures { self.new ≡ stale self.old ring }
    {
        mark_stale(&mut self.sent, ring);
        forget(&mut self.due, ring);
    }

    /// Takes the next MISS that is to be sent. Each ring has one at most, and 64 are without a reply at most.
    pub fn take_due(&mut self) -> Option<Miss>
        ensures takes { (self.new, result) ≡ taken_due self.old }
        ensures once { is_line self.new.rings (asking self.new.sent self.new.due) ≡ true }
        ensures few { length self.new.sent ≤ 64 }
    {
        if self.due.is_empty() || self.sent.len() >= MOST_SENT {
            return None;
        }
        let miss = self.due.remove(0);
        self.sent.push_reserved(SentMiss {
            ring: miss.ring,
            is_awaited: true,
        });
        Some(miss)
    }

    /// Takes note that a reply came. Returns the MISS that it answers, or nothing if none is without a reply.
    pub fn replied(&mut self) -> Option<SentMiss>
        ensures { (self.new, result) ≡ after_reply self.old }
    {
        if self.sent.is_empty() {
            return None;
        }
        Some(self.sent.remove(0))
    }

    /// The channel is lost: no reply comes any more, and nothing is to be sent.
    pub fn lose(&mut self)
        ensures { self.new ≡ lost self.old }
    {
        self.sent.clear();
        self.due.clear();
    }
}
