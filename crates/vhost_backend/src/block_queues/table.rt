//! What the queues use of the table that translates their rings' addresses, and what becomes of that by a change of it.
ghost use Rattle.std.specs.Prelude.{◌≡◌, length, slice_get};
ghost use Rattle.vm_memory_base.specs.Table.{says};
ghost use Rattle.vhost_backend.specs.TableUse.{kicked_if};

use super::BlockQueues;
use crate::kicks::Kicks;
use crate::ring_memory::RingMemory;
use crate::table_change::TableChange;
use std::alloc::AllocError;
use vm_memory_base::{Iotlb, Permissions};

// A ring is looked at.
fn kick_if(kicks: &mut Kicks, is: bool, ring: usize)
    ensures { kicks.new ≡ kicked_if is kicks.old ring }
{
    if is {
        kicks.add(ring);
    }
}

impl BlockQueues {
    ghost use Rattle.vhost_backend.specs.TableUse.{ChangesAll, ChangesAt, ResumesAt, ResumesTo, awaited, in_use};
    ghost use Rattle.vhost_backend.specs.TableUse.{kicked_to, lost_at, lost_to, refused_at};

    /// Whether a change of the table concerns what is under way of a ring.
    pub fn in_use(&self, change: &TableChange) -> bool
        ensures { result ≡ in_use change.now self.now }
    {
        self.queues.iter().any(|queue| queue.is_used(change.get()))
    }

    /// The address that a ring waits for, and for which access.
    pub fn awaited(&self, ring: usize) -> Option<(u64, Permissions)>
        ensures { result ≡ awaited (slice_get self.now ring) }
    {
        match self.queues.get(ring) {
            Some(queue) => queue.waits_for(),
            None => None,
        }
    }

    /// The mapping that a ring waits for does not come.
    pub fn refuse(&mut self, ring: usize)
        ensures { self.new ≡ refused_at self.old ring (slice_get self.old ring) }
    {
        if let Some(queue) = self.queues.get_mut(ring) {
            queue.refuse();
        }
    }

    /// Has each ring looked at that waits for a mapping.
    pub fn kick_waiting(&self, kicks: &mut Kicks)
        ensures { kicks.new ≡ kicked_to (length self.now) self.now kicks.old }
    {
        for ring in 0..self.queues.len() {
            kick_if(kicks, self.awaited(ring).is_some(), ring);
        }
    }

    fn lose_at(&mut self, ring: usize)
        ensures { self.new ≡ lost_at self.old ring (slice_get self.old ring) }
    {
        if let Some(queue) = self.queues.get_mut(ring) {
            queue.clear_reach();
        }
    }

    /// Nothing is kept or fetched for any ring, since the memory is gone.
    pub fn lose(&mut self)
        ensures { self.new ≡ lost_to (length self.old) self.old }
    {
        for ring in 0..self.queues.len() {
            self.lose_at(ring);
        }
    }

    fn resume_at(&mut self, ring: usize, table: &Iotlb, kicks: &mut Kicks)
        ensures { ResumesAt (says table.now) ring self.old kicks.old self.new kicks.new }
    {
        if let Some(queue) = self.queues.get_mut(ring) {
            kick_if(kicks, queue.resume(table), ring);
        }
    }

    /// Has each ring go on that waits for a mapping, by the table as it is now. If it waits no more, it is looked at.
    pub fn resume(&mut self, table: &Iotlb, kicks: &mut Kicks)
        ensures { ResumesTo (says table.now) (length self.old) self.old kicks.old self.new kicks.new }
    {
        for ring in 0..self.queues.len() {
            self.resume_at(ring, table, kicks);
        }
    }

    fn change_at<H, D: RingMemory<H>>(
        &mut self,
        mem: &D,
        host: &mut H,
        change: &TableChange,
        ring: usize,
        kicks: &mut Kicks,
    ) -> Result<(), AllocError>
        requires { D.held mem.now host.old }
        ensures changes { ChangesAt (D.steps mem.now) change.now ring self.old kicks.old host.old result self.new
            kicks.new host.new }
        ensures held { D.held mem.now host.new }
    {
        let Some(queue) = self.queues.get_mut(ring) else {
            return Ok(());
        };
        match queue.change(mem, host, change.get()) {
            Ok(is) => {
                kick_if(kicks, is, ring);
                Ok(())
            }
            Err(error) => Err(error),
        }
    }

    /// Forgets what is kept and fetched for each ring of which some leads elsewhere after a change of the table, or
    /// nowhere, and has such a ring looked at.
    pub fn change<H, D: RingMemory<H>>(
        &mut self,
        mem: &D,
        host: &mut H,
        change: &TableChange,
        kicks: &mut Kicks,
    ) -> Result<(), AllocError>
        requires { D.held mem.now host.old }
        ensures changes { ChangesAll (D.steps mem.now) change.now self.old kicks.old host.old result self.new kicks.new
            host.new }
        ensures held { D.held mem.now host.new }
    {
        for ring in 0..self.queues.len() {
            self.change_at(mem, host, change, ring, kicks)?;
        }
        Ok(())
    }
}
