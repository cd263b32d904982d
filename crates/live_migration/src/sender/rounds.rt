//! The rounds of a sender: which pages wait to be copied, and what was copied and waits to be sent.
ghost use Rattle.std.specs.Prelude.{◌≡◌, ◌+◌, ◌^◌, ◌<◌, ◌≤◌, ◌⊎◌, length, IfErr, IfOk, IsErrOf, OnOk, OnErr};

use super::pages::{
    SendError, Target, copy_pages, has_target, mark_targets, take_pages, whole_block,
};
use crate::frame::MOST_PAGE_BYTES;
use std::alloc::Global;
use vm_memory_base::{Bitmap, ExactBitmap};
use vm_memory_guest::HostMemory;

/// The rounds of a sender, without its stream. The pages of one block at a time wait to be copied.
#[derive(Drop)]
pub struct Rounds {
    pub(crate) targets: Vec<Target>,
    pub(crate) round: u32,
    pub(crate) turn: usize,
    pub(crate) last: usize,
    pub(crate) waiting: Vec<usize>,
    pub(crate) next: usize,
    pub(crate) batch: Vec<u8>,
    ghost inside: { next ≤ length waiting.items },
    ghost short: { length batch.items ≤ 2 ^ 20 + 20 },
}

impl Rounds {
    ghost use Rattle.live_migration.specs.Following.{StaysAsItWas};
    ghost use Rattle.live_migration.specs.Sending.{AreMarkedAgain, CopiesPages, HarvestsNext, IsBusy, NoneHarvested};
    ghost use Rattle.live_migration.specs.Sending.{harvested};

    /// Takes the pages of the next block of the round, so that they wait to be copied and none of the block is dirty,
    /// and returns how many. In the first round these are all pages of the block, whoever harvested before.
    ///
    /// `Order` if pages of a block still wait, or the round has no more blocks. `Untracked` if the block has no
    /// bitmap of pages, `Changed` if the host no longer has it as it was, `Memory` if an allocation fails. Then
    /// nothing changes.
    pub fn harvest<B: ExactBitmap>(
        &mut self,
        alloc: Global,
        host: &mut HostMemory<B>,
    ) -> Result<usize, SendError>
        ensures taken { OnOk result (HarvestsNext B.pages self.old self.new host.old host.new) }
        ensures count { IfOk result (λ count. count ≡ length self.new.waiting.items) }
        ensures order { IsErrOf result SendError.Order → IsBusy self.old }
        ensures error { IfErr result (λ e. (e ≡ SendError.Order) ⊎ (e ≡ SendError.Untracked) ⊎ (e ≡ SendError.Changed)
            ⊎ (e ≡ SendError.Memory)) }
        ensures err { OnErr result ((self.new ≡ self.old) × (host.new ≡ host.old)) }
    {
        if self.next < self.waiting.len() {
            return Err(SendError::Order);
        }
        let Some(target) = self.targets.get(self.turn).copied() else {
            return Err(SendError::Order);
        };
        let pages = take_pages(alloc, host, &target, self.round)?;
        let count = pages.len();
        self.start(pages);
        Ok(count)
    }

    // Lets pages of the next block wait.
    pub(super) fn start(&mut self, pages: Vec<usize>)
        requires { self.old.turn < length self.old.targets.items }
        ensures next { self.new.next ≡ 0 }
        ensures turn { self.new.turn ≡ self.old.turn + 1 }
        ensures last { self.new.last ≡ self.old.turn }
        ensures waiting { self.new.waiting ≡ pages }
        ensures same { (self.new.targets ≡ self.old.targets) × (self.new.round ≡ self.old.round)
            × (self.new.batch ≡ self.old.batch) }
    {
        self.next = 0;
        self.waiting = pages;
        self.last = self.turn;
        self.turn += 1;
    }

    /// Copies pages that wait, as they are now, after what waits to be sent. One call copies at most 2^20 bytes of
    /// pages, zeros among them, and at most 2^20 + 20 bytes wait to be sent then. It returns how many pages were
    /// copied, which is 0 if there is no room.
    ///
    /// `Order` if no block was harvested yet, of a sender without blocks, and past 2^32 - 1 blocks. `Changed` if the
    /// host no longer has the block as it was, and `Memory` if the first allocation fails. Then nothing changes.
    pub fn copy_batch<B: Bitmap>(&mut self, host: &HostMemory<B>) -> Result<usize, SendError>
        ensures copied { IfOk result (λ count. CopiesPages count self.old self.new host.now) }
        ensures order { IsErrOf result SendError.Order → NoneHarvested self.old }
        ensures error { IfErr result (λ e. (e ≡ SendError.Order) ⊎ (e ≡ SendError.Changed) ⊎ (e ≡ SendError.Memory)) }
        ensures short { length self.new.batch.items ≤ 2 ^ 20 + 20 }
        ensures err { OnErr result (StaysAsItWas self.old self.new) }
    {
        let Some(target) = self.targets.get(self.last).copied() else {
            return Err(SendError::Order);
        };
        let page_size = target.entry.page_size as usize;
        let Ok(number) = u32::try_from(self.last) else {
            return Err(SendError::Order);
        };
        if !has_target(host, &target) || page_size == 0 || page_size > MOST_PAGE_BYTES {
            return Err(SendError::Changed);
        }
        let bytes = whole_block(host, target.block);
        let pages = &self.waiting.as_slice()[self.next..];
        let count = copy_pages(&mut self.batch, number, page_size, bytes, pages);
        if count == 0 && !pages.is_empty() && self.batch.is_empty() {
            return Err(SendError::Memory);
        }
        self.next += count;
        Ok(count)
    }

    /// Makes each harvested page of the blocks dirty again: in the first round all pages of a block
    /// are, so that none of it is known to be accepted. A block that the host no longer has as it was is left.
    pub fn mark_again<B: ExactBitmap>(&self, host: &mut HostMemory<B>)
        ensures { AreMarkedAgain B.pages (harvested self.now) host.old host.new }
    {
        let count = if self.round == 0 {
            self.turn.min(self.targets.len())
        } else {
            self.targets.len()
        };
        mark_targets(host, &self.targets.as_slice()[..count]);
    }
}
