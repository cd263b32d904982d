//! A machine that threads share.
ghost use Rattle.std.specs.Prelude.{IfOk, IfSome};
ghost use Rattle.vm_memory.specs.Journal.{IsEntry};

use super::command::{Command, Reply};
use super::journal::{CallError, Journal};
use std::alloc::AllocError;
use std::sync::{Mutex, Wait};
use vm_memory_base::ExactBitmap;
use vm_memory_device::Iommu;
use vm_memory_guest::GuestMemoryRegion;

/// A machine that threads share, one command at a time, with its journal.
///
/// Whenever the lock is free, it keeps a `Journal`: the commands of all threads and the replies to them are a run of
/// the model. A contract cannot name a locked journal; tests check what a call does to it.
///
/// Leaves open: which journal, and which entry of it, a reply is from, or that `fetch` finds none; errors at any time,
/// whatever ran; and which journal `into_journal` returns. The reply of `call` is that of its command in some run.
#[derive(Drop)]
pub struct SharedMachine<R: GuestMemoryRegion, I: Iommu, B: ExactBitmap> {
    journal: Mutex<Journal<R, I, B>>,
}

impl<R: GuestMemoryRegion, I: Iommu, B: ExactBitmap> SharedMachine<R, I, B> {
    /// Shares the machine of a journal.
    pub fn new(journal: Journal<R, I, B>) -> SharedMachine<R, I, B> {
        SharedMachine {
            journal: Mutex::new(journal),
        }
    }

    /// Serves a command, and returns the number of its entry and a copy of its reply. It waits while another thread
    /// calls. `Memory` if the allocation of the entry fails, and then nothing ran. `Ran` if the allocation of the copy
    /// fails: the command ran, and `fetch` gives the reply.
    pub fn call(&self, rt: &impl Wait, command: Command) -> Result<(usize, Reply), CallError>
        ensures { IfOk result (λ a. IsEntry a.0 command a.1) }
    {
        self.journal.lock(rt).call(command)
    }

    /// A copy of the reply of an entry, if there is one of this number. It waits while another thread calls.
    /// `AllocError` if the allocation of the copy fails.
    pub fn fetch(&self, rt: &impl Wait, number: usize) -> Result<Option<Reply>, AllocError>
        ensures { IfOk result (λ o. IfSome o (λ reply. (command : Command) × IsEntry number command reply)) }
    {
        self.journal.lock(rt).copied_reply(number)
    }

    /// Gives the journal back.
    pub fn into_journal(self) -> Journal<R, I, B> {
        let SharedMachine { journal } = self;
        journal.into_inner()
    }
}
