//! What becomes of what is kept and fetched for a ring, by changes of what the front end says.
ghost use Rattle.std.specs.Prelude.{◌≡◌};
ghost use Rattle.std.specs.List.{list_any};
ghost use Rattle.vm_memory_base.specs.Table.{says};
ghost use Rattle.vhost_iotlb.specs.Kept.{Fits};
ghost use Rattle.vhost_backend.specs.Behind.{asked_uses};

use super::{Asked, BlockQueue};
use crate::ring_memory::RingMemory;
use std::alloc::AllocError;
use vhost_iotlb::{Change, any_differs};
use vm_memory_base::{Iotlb, Permissions};

// Whether a request that is under way uses what may lead elsewhere after a change.
fn asked_uses(change: &Change, asked: &Option<Asked>) -> bool
    requires { Fits change.now }
    ensures { result ≡ asked_uses change.now asked.now }
{
    match asked {
        Some(asked) => any_differs(change, asked.kept.as_slice()),
        None => false,
    }
}

fn any_uses(change: &Change, all: &[Option<Asked>]) -> bool
    requires { Fits change.now }
    ensures { result ≡ list_any (asked_uses change.now) all.now }
{
    all.iter().any(|asked| asked_uses(change, asked))
}

impl BlockQueue {
    ghost use Rattle.std.specs.Prelude.{length};
    ghost use Rattle.vhost_backend.specs.Behind.{with_reach};
    ghost use Rattle.vhost_backend.specs.Reach.{Changes, ResumesFetch, waited_for};
    ghost use Rattle.vhost_backend.specs.Reach as reach;
    ghost use Rattle.vhost_backend.specs.TableUse.{is_used};

    /// Takes note of a change of what the front end says, as `Reach::change`. A chain of which something was dropped is
    /// the next one again.
    pub fn change<H, D: RingMemory<H>>(
        &mut self,
        mem: &D,
        host: &mut H,
        change: &Change,
    ) -> Result<bool, AllocError>
        requires held { D.held mem.now host.old }
        requires fits { Fits change.now }
        ensures changes { Changes (D.steps mem.now) change.now self.old.reach host.old result self.new.reach host.new }
        ensures others { self.new ≡ with_reach self.old self.new.reach }
        ensures held { D.held mem.now host.new }
    {
        self.reach.change(mem, host, change)
    }

    /// Whether a change concerns what is under way of the ring: the bytes of a request, or the areas by which that is
    /// returned.
    pub fn is_used(&self, change: &Change) -> bool
        requires { Fits change.now }
        ensures { result ≡ is_used change.now self.now }
    {
        // Most messages find no request.
        self.is_busy() && (any_uses(change, &self.asked) || self.reach.uses_areas(change))
    }

    /// The I/O address without a mapping that the ring waits for, and for what.
    pub fn waits_for(&self) -> Option<(u64, Permissions)>
        ensures { result ≡ waited_for self.now.reach.fetch }
    {
        self.reach.waits_for()
    }

    /// The mapping that the ring waits for does not come.
    pub fn refuse(&mut self)
        ensures { self.new ≡ with_reach self.old (reach.refused self.old.reach) }
    {
        self.reach.refuse();
    }

    /// Nothing is kept or fetched any more: the ring's table is gone.
    pub fn clear_reach(&mut self)
        ensures { self.new ≡ with_reach self.old (reach.cleared self.old.reach) }
    {
        self.reach.clear();
    }

    /// Looks up what the ring waits for. Returns whether it waits no more.
    pub fn resume(&mut self, table: &Iotlb) -> bool
        ensures resumes { ResumesFetch (says table.now) (length self.old.asked) self.old.reach result self.new.reach }
        ensures others { self.new ≡ with_reach self.old self.new.reach }
    {
        self.reach.resume(table, self.asked.len())
    }
}
