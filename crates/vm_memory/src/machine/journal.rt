//! The journal of a machine: each command that it served, with its reply.
ghost use Rattle.std.specs.Prelude.{◌≡◌, ℕ, List, ◌++◌, ◌∷◌, [], length, slice_get, IfOk, IfErr, OnErr, Some, IfSome};
ghost use Rattle.std.specs.Option.{option_copied};
ghost use Rattle.vm_memory.specs.Journal.{IsLed, IsEntry, Serves, TellsNone};
ghost use Rattle.vm_memory.specs.Parts.{state_of};

use super::Machine;
use super::command::{Command, Reply};
use std::alloc::{AllocError, Global};
use std::marker::Model;
use thiserror::Error;
use vm_memory_base::{ExactBitmap, IotlbFails, IovaRangeList, Items};
use vm_memory_device::Iommu;
use vm_memory_guest::GuestMemoryRegion;

/// Why `SharedMachine::call` returned no reply.
#[derive(Clone, Copy, Debug, PartialEq, Eq, Error)]
pub enum CallError {
    /// The allocation of the entry failed. Nothing ran.
    #[error("out of memory")]
    Memory,
    /// The command ran, and its reply is the journal's entry of this number. The allocation of a copy of it failed.
    #[error("entry {0} ran, its reply found no memory")]
    Ran(usize),
}

/// A machine with what it served: each command and its reply, in order.
///
/// These commands and replies are a run of the model from some state to the present one. The journal does not keep
/// the former.
#[derive(Drop)]
pub struct Journal<R: GuestMemoryRegion, I: Iommu, B: ExactBitmap> {
    machine: Machine<R, I, B>,
    commands: Vec<Command>,
    replies: Vec<Reply>,
}

impl<R: GuestMemoryRegion, I: Iommu, B: ExactBitmap> Model for Journal<R, I, B> {
    ghost use Rattle.vm_memory.specs.Journal.{Served, IsLed};
    ghost use Rattle.vm_memory.specs.Parts.{state_of};

    ghost Value = { Served R I B };

    ghost view = { λ j. record { machine = j.machine; commands = j.commands.items; replies = j.replies.items } };

    ghost invariant = { λ j. IsLed (state_of R.region I.number B.pages j.machine) j.commands.items j.replies.items };
}

impl<R: GuestMemoryRegion, I: Iommu, B: ExactBitmap> Journal<R, I, B> {
    /// A journal of a machine that has served nothing yet.
    pub fn new(machine: Machine<R, I, B>) -> Journal<R, I, B>
        ensures { result ≡ record { machine = machine; commands = []; replies = [] } }
    {
        let commands = Vec::new(machine.alloc);
        let replies = Vec::new(machine.alloc);
        Journal {
            machine,
            commands,
            replies,
        }
    }

    /// Runs a command, and returns the number of its entry: the number of entries before it. `AllocError` if the
    /// allocation of the entry fails, and then nothing ran.
    ///
    /// Leaves open: a failed allocation each time. Then nothing ran.
    pub fn serve(&mut self, command: Command) -> Result<usize, AllocError>
        ensures served { let state = state_of R.region I.number B.pages in
            IfOk result (λ n. (reply : Reply) × Serves state self.old n command reply self.new) }
        ensures refused { OnErr result (self.new ≡ self.old) }
    {
        self.commands.reserve(1)?;
        self.replies.reserve(1)?;
        let number = self.commands.len();
        let reply = self.machine.step(&command);
        self.commands.push(command)?;
        self.replies.push(reply)?;
        Ok(number)
    }

    /// The reply of an entry, if there is one of this number.
    pub fn reply(&self, number: usize) -> Option<&Reply>
        ensures { option_copied result ≡ slice_get self.now.replies number }
    {
        self.replies.get(number)
    }

    /// The command of an entry, if there is one of this number.
    pub fn command(&self, number: usize) -> Option<&Command>
        ensures { option_copied result ≡ slice_get self.now.commands number }
    {
        self.commands.get(number)
    }

    /// The number of entries.
    pub fn len(&self) -> usize
        ensures commands { result ≡ length self.now.commands }
        ensures replies { result ≡ length self.now.replies }
        ensures led { IsLed (state_of R.region I.number B.pages self.now.machine) self.now.commands self.now.replies }
    {
        self.commands.len()
    }

    // Serves a command, and copies its reply.
    pub(super) fn call(&mut self, command: Command) -> Result<(usize, Reply), CallError>
        ensures served { let state = state_of R.region I.number B.pages in
            IfOk result (λ a. Serves state self.old a.0 command a.1 self.new) }
        ensures entry { IfOk result (λ a. IsEntry a.0 command a.1) }
        ensures failed { let state = state_of R.region I.number B.pages in
            IfErr result (λ e. TellsNone state self.old command e self.new) }
    {
        let Ok(number) = self.serve(command) else {
            return Err(CallError::Memory);
        };
        match self.copied_reply(number) {
            Ok(Some(reply)) => Ok((number, reply)),
            _ => Err(CallError::Ran(number)),
        }
    }

    // A copy of the reply of an entry.
    pub(super) fn copied_reply(&self, number: usize) -> Result<Option<Reply>, AllocError>
        ensures copied { IfOk result (λ o. o ≡ slice_get self.now.replies number) }
        ensures entry { IfOk result (λ o. IfSome o (λ reply. (command : Command)
            × (slice_get self.now.commands number ≡ Some command) × IsEntry number command reply)) }
    {
        match self.reply(number) {
            Some(reply) => Ok(Some(copy_of(self.machine.alloc, reply)?)),
            None => Ok(None),
        }
    }
}

// A copy of a list.
fn items_of<T: Copy>(alloc: Global, items: &Items<T>) -> Result<Items<T>, AllocError>
    ensures { IfOk result (λ copy. copy ≡ items.now) }
{
    let items = Vec::from_slice(alloc, items.as_slice())?;
    Ok(Items::from_vec(items))
}

fn ranges_of(alloc: Global, ranges: &IovaRangeList) -> Result<IovaRangeList, AllocError>
    ensures { IfOk result (λ copy. copy ≡ ranges.now) }
{
    let ranges = Vec::from_slice(alloc, ranges.as_slice())?;
    Ok(IovaRangeList::from_vec(ranges))
}

// A copy of a reply.
fn copy_of(alloc: Global, reply: &Reply) -> Result<Reply, AllocError>
    ensures { IfOk result (λ copy. copy ≡ reply.now) }
{
    Ok(match reply {
        Reply::Layout(number) => Reply::Layout(*number),
        Reply::MemoryMade(number) => Reply::MemoryMade(*number),
        Reply::Done => Reply::Done,
        Reply::Count(count) => Reply::Count(*count),
        Reply::Value(value) => Reply::Value(*value),
        Reply::Truth(truth) => Reply::Truth(*truth),
        Reply::Bytes(bytes) => Reply::Bytes(items_of(alloc, bytes)?),
        Reply::Sent { ending, taken } => Reply::Sent {
            ending: *ending,
            taken: items_of(alloc, taken)?,
        },
        Reply::Pages(pages) => Reply::Pages(items_of(alloc, pages)?),
        Reply::Pieces(pieces) => Reply::Pieces(items_of(alloc, pieces)?),
        Reply::Fails(fails) => Reply::Fails(IotlbFails {
            misses: ranges_of(alloc, &fails.misses)?,
            access_fails: ranges_of(alloc, &fails.access_fails)?,
        }),
        Reply::Fault(fault) => Reply::Fault(*fault),
        Reply::NoSuch => Reply::NoSuch,
        Reply::BadRange => Reply::BadRange,
        Reply::Memory => Reply::Memory,
    })
}
