//! The table that translates the addresses of rings: what a message changes of it, and what rings wait for.
ghost use Rattle.std.specs.Prelude.{◌≡◌, IfSome, is_some, length, slice_get};
ghost use Rattle.vhost_backend.specs.TableUse.{awaited};
ghost use Rattle.vhost_backend.specs.BlockTable.{AfterChange, AppliesTo, ChangesTable, Resumed, asked_for, can_ask};
ghost use Rattle.vhost_backend.specs.BlockTable.{freed_by, memory_lost, settled, settled_by};
ghost use Rattle.vhost_backend.specs.TableCounts.{evicted_by, evicted_for};
ghost use Rattle.vm_memory_base.specs.Table.{says};

use crate::block_backend::BlockBackend;
use crate::questions::Miss;
use crate::ring_memory::RingMemory;
use crate::table_change::TableChange;
use vhost_iotlb::{Change, take_back};
use vhost_user::VHOST_USER_PROTOCOL_F_REPLY_ACK;
use vm_memory_base::{GuestAddress, Iotlb, Permissions};

// Changes a table, unless an allocation fails. Returns how many ranges it evicted.
fn apply_to(table: &mut Iotlb, change: &TableChange) -> Option<usize>
    ensures applies { AppliesTo change.now table.old (is_some result) table.new }
    ensures evicts { IfSome result (λ n. n ≡ evicted_for change.now table.old) }
{
    match *change.get() {
        Change::Map {
            iova,
            to,
            len,
            permissions,
        } => table
            .set_mapping_counted(
                GuestAddress(iova),
                GuestAddress(to),
                len as usize,
                permissions,
            )
            .ok(),
        Change::Unmap { iova, len } => {
            take_back(table, iova, len);
            Some(0)
        }
    }
}

impl BlockBackend {
    /// Whether a mapping that is missed can be asked for: on a channel, and if the front end replies there.
    pub fn can_ask(&self) -> bool
        ensures { result ≡ can_ask self.now }
    {
        self.channel
            && self.backend.connection().protocol_features() & VHOST_USER_PROTOCOL_F_REPLY_ACK != 0
    }

    // A ring that waits for a mapping asks for it.
    pub(super) fn ask_for(&mut self, ring: usize)
        ensures { self.new ≡ asked_for self.old ring }
    {
        if let Some((iova, access)) = self.awaited(ring) {
            self.questions.wants(Miss { ring, iova, access });
        }
    }

    // A ring that waited for a mapping and waits no more, as it lies elsewhere, is looked at, and needs no reply.
    pub(super) fn free(
        &mut self,
        ring: usize,
        before: Option<(u64, Permissions)>,
        after: Option<(u64, Permissions)>,
    )
        ensures { self.new ≡ freed_by self.old ring before after }
    {
        if before.is_some() && after.is_none() {
            self.kicks.add(ring);
            self.questions.stale(ring);
        }
    }

    fn settle_one(&mut self, ring: usize, awaited: Option<(u64, Permissions)>)
        ensures { self.new ≡ settled_by self.old ring awaited }
    {
        if awaited.is_none() {
            self.questions.stale(ring);
        }
    }

    fn count(&self) -> usize
        ensures { result ≡ length self.now.queues }
    {
        self.queues.count()
    }

    pub(super) fn awaited(&self, ring: usize) -> Option<(u64, Permissions)>
        ensures { result ≡ awaited (slice_get self.now.queues ring) }
    {
        self.queues.awaited(ring)
    }

    // Rings that wait for nothing need no reply.
    fn settle(&mut self)
        ensures { self.new ≡ settled self.old }
    {
        for ring in 0..self.count() {
            let awaited = self.awaited(ring);
            self.settle_one(ring, awaited);
        }
    }

    /// Nothing is kept or fetched for a ring any more, since the memory is gone. One that waits for a mapping is looked
    /// at.
    pub fn lose_memory(&mut self)
        ensures { self.new ≡ memory_lost self.old }
    {
        self.queues.kick_waiting(&mut self.kicks);
        self.queues.lose();
        self.settle();
    }

    // What waits goes on by the table as it is now.
    fn resume(&mut self, table: &Iotlb)
        ensures { Resumed (says table.now) self.old self.new }
    {
        self.queues.resume(table, &mut self.kicks);
        self.settle();
    }

    // Changes the table, after which what waits goes on. Returns how many ranges it evicted.
    fn change_and_resume(&mut self, table: &mut Iotlb, change: &TableChange) -> Option<usize>
        ensures changes { AfterChange change.now self.old table.old (is_some result) self.new table.new }
        ensures evicts { IfSome result (λ n. n ≡ evicted_for change.now table.old) }
    {
        match apply_to(table, change) {
            Some(evicted) => {
                self.resume(table);
                Some(evicted)
            }
            None => None,
        }
    }

    /// Changes the table as the message has it. What rings have of it is forgotten before if that leads elsewhere then,
    /// and what waits goes on after it. Returns how many ranges it evicted. `None` if nothing was done: an allocation
    /// failed, the message asks for memory that was not announced, or something that is under way would lead elsewhere.
    pub fn change_table<H, D: RingMemory<H>>(
        &mut self,
        mem: &D,
        host: &mut H,
        table: &mut Iotlb,
    ) -> Option<usize>
        requires { D.held mem.now host.old }
        ensures changes { ChangesTable (D.steps mem.now) self.old table.old host.old (is_some result) self.new table.new
            host.new }
        ensures evicts { IfSome result (λ n. n ≡ evicted_by self.old.change table.old) }
        ensures held { D.held mem.now host.new }
    {
        let Some(change) = self.change else {
            return None;
        };
        if self.queues.in_use(&change) {
            return None;
        }
        if self
            .queues
            .change(mem, host, &change, &mut self.kicks)
            .is_err()
        {
            return None;
        }
        self.change_and_resume(table, &change)
    }
}
