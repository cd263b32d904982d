//! A machine: a host, pools of regions and of translators, the layouts and memories that commands make, and the run
//! of a list of commands.
ghost use Rattle.std.specs.Prelude.{◌≡◌, ℕ, List, ◌++◌, [], IsSome, IsTrue, OnOk, OnErr};
ghost use Rattle.vm_memory_guest.specs.Collection.{regions_of};
ghost use Rattle.vm_memory.specs.Commands.{accessed_memory, is_transfer};
ghost use Rattle.vm_memory.specs.History.{AccessesFollowTables, AtEachState};
ghost use Rattle.vm_memory.specs.Machine.{Step, Run};
ghost use Rattle.vm_memory.specs.Parts.{HoldsRegions, HoldsTables, AreHeld, state_of};
ghost use Rattle.vm_memory.specs.Rounds.{IsTracked, RunsDirectly, KeepsImage, bytes_of_block};

mod accesses;
pub mod command;
mod copies;
pub mod device_step;
pub mod journal;
mod kept;
mod layouts;
pub mod list;
mod marks;
mod memories;
mod pages;
mod parts;
pub mod refusal;
mod replies;
mod rounds;
pub mod setup;
pub mod shared;
mod tables;
mod transfers;
mod typed;

use crate::laws::machine::{
    accesses_go_through_what_was_set_last, runs_keep_images, runs_keep_layouts,
};
use command::{Command, Reply};
use kept::KeptMemory;
use refusal::{checked, done, laid_out, memory_made, told};
use std::alloc::{AllocError, Global};
use std::marker::Model;
use std::sync::Arc;
use vm_memory_base::ExactBitmap;
use vm_memory_device::Iommu;
use vm_memory_guest::laws::host::blocks_are_short;
use vm_memory_guest::{GuestMemoryRegion, GuestRegionCollection, HostMemory};

/// A host, pools of regions and of translators, and the layouts and memories that commands made, each kind by number
/// from 0.
#[derive(Drop)]
pub struct Machine<R: GuestMemoryRegion, I: Iommu, B> {
    alloc: Global,
    host: HostMemory<B>,
    regions: Vec<Arc<R>>,
    translators: Vec<Arc<I>>,
    layouts: Vec<GuestRegionCollection<R>>,
    memories: Vec<KeptMemory<R, I>>,
}

impl<R: GuestMemoryRegion, I: Iommu, B> Model for Machine<R, I, B> {
    ghost use Rattle.vm_memory.specs.Parts.{Parts, AreHeld};

    ghost Value = { Parts R I B };

    ghost use Rattle.vm_memory.specs.Inside.{parts_of};

    ghost view = { parts_of };

    ghost invariant = { λ m. AreHeld R.region I.number (parts_of m) };
}

impl<R: GuestMemoryRegion, I: Iommu, B> Machine<R, I, B> {
    /// A machine with a host, and pools of regions and of translators, and nothing made yet. The host has to hold
    /// the bytes of the regions and the tables of the translators.
    pub fn new(
        alloc: Global,
        host: HostMemory<B>,
        regions: Vec<Arc<R>>,
        translators: Vec<Arc<I>>,
    ) -> Machine<R, I, B>
        requires regions { HoldsRegions R.region host (regions_of regions) }
        requires tables { HoldsTables I.number host (regions_of translators) }
        ensures { result ≡ record {
          host = host;
          regions = regions_of regions;
          translators = regions_of translators;
          layouts = [];
          memories = [];
        } }
    {
        Machine {
            alloc,
            host,
            regions,
            translators,
            layouts: Vec::new(alloc),
            memories: Vec::new(alloc),
        }
    }

    /// Lends the host, as the commands so far left it. It holds what the machine names, and each layout of the
    /// machine is one.
    pub fn host(&self) -> &HostMemory<B>
        ensures host { result.now ≡ self.now.host }
        ensures held { AreHeld R.region I.number self.now }
    {
        &self.host
    }

    /// Gives the host back, as the commands left it.
    pub fn into_host(self) -> HostMemory<B>
        ensures { result ≡ self.host }
    {
        let Machine { host, .. } = self;
        host
    }

    /// Takes the machine apart: gives back the host, as the commands left it, and the pools of regions and of
    /// translators, whose bytes and tables the host holds.
    pub fn into_parts(self) -> (HostMemory<B>, Vec<Arc<R>>, Vec<Arc<I>>)
        ensures host { result.0 ≡ self.host }
        ensures regions { regions_of result.1 ≡ self.regions }
        ensures translators { regions_of result.2 ≡ self.translators }
        ensures regions_held { HoldsRegions R.region result.0 (regions_of result.1) }
        ensures tables_held { HoldsTables I.number result.0 (regions_of result.2) }
    {
        let Machine {
            host,
            regions,
            translators,
            ..
        } = self;
        (host, regions, translators)
    }
}

impl<R: GuestMemoryRegion, I: Iommu, B: ExactBitmap> Machine<R, I, B> {
    // One command, by its call.
    fn step(&mut self, command: &Command) -> Reply
        ensures { let before = state_of R.region I.number B.pages self.old in
            Step before command.now result (state_of R.region I.number B.pages self.new) }
    {
        match command {
            Command::FromRegions(numbers) => laid_out(self.from_regions(numbers.as_slice())),
            Command::Insert { layout, region } => laid_out(self.insert(*layout, *region)),
            Command::Remove { layout, base, size } => laid_out(self.remove(*layout, *base, *size)),
            Command::Plain(layout) => memory_made(self.plain(*layout)),
            Command::NewMemory {
                layout,
                translator,
                space,
                on,
            } => memory_made(self.new_memory(*layout, *translator, *space, *on)),
            Command::ReplaceBackend { memory, layout } => {
                memory_made(self.replace_backend(*memory, *layout))
            }
            Command::Enable { memory, on } => done(self.enable(*memory, *on)),
            Command::Dirty(bitmap) => self.pages_listed(*bitmap),
            Command::Harvest(bitmap) => self.pages_taken(*bitmap),
            Command::Copy { from, to } => done(self.copy(*from, *to)),
            Command::Set {
                table,
                iova,
                map_to,
                length,
                perm,
            } => done(self.set_mapping(*table, *iova, *map_to, *length, *perm)),
            Command::Invalidate {
                table,
                iova,
                length,
            } => done(self.invalidate_mapping(*table, *iova, *length)),
            Command::InvalidateAll(table) => done(self.invalidate_all(*table)),
            Command::Lookup {
                table,
                iova,
                length,
                access,
            } => told(self.lookup(*table, *iova, *length, *access)),
            _ => self.access(command),
        }
    }

    // One command that accesses a memory, by its call.
    fn access(&mut self, command: &Command) -> Reply
        requires { IsSome (accessed_memory command.now) }
        ensures { let before = state_of R.region I.number B.pages self.old in
            Step before command.now result (state_of R.region I.number B.pages self.new) }
    {
        match command {
            Command::Read {
                memory,
                addr,
                count,
            } => self.bytes_read(*memory, *addr, *count),
            Command::Write {
                memory,
                addr,
                bytes,
            } => self.bytes_written(*memory, *addr, bytes.as_slice()),
            Command::ReadSlice {
                memory,
                addr,
                count,
            } => self.bytes_filled(*memory, *addr, *count),
            Command::WriteSlice {
                memory,
                addr,
                bytes,
            } => self.all_written(*memory, *addr, bytes.as_slice()),
            Command::Store {
                memory,
                width,
                addr,
                value,
            } => self.word_stored(*memory, *width, *addr, *value),
            Command::Load {
                memory,
                width,
                addr,
            } => self.word_loaded(*memory, *width, *addr),
            Command::CheckRange {
                memory,
                addr,
                count,
                access,
            } => checked(self.check_range(*memory, *addr, *count, *access)),
            _ => self.transfer(command),
        }
    }

    // One command that moves bytes from a source or to a sink, by its call.
    fn transfer(&mut self, command: &Command) -> Reply
        requires { IsTrue (is_transfer command.now) }
        ensures { let before = state_of R.region I.number B.pages self.old in
            Step before command.now result (state_of R.region I.number B.pages self.new) }
    {
        match command {
            Command::ReadFrom {
                memory,
                addr,
                count,
                source,
            } => self.received(*memory, *addr, *count, source.as_slice()),
            Command::ReadExactFrom {
                memory,
                addr,
                count,
                source,
            } => self.received_whole(*memory, *addr, *count, source.as_slice()),
            Command::WriteTo {
                memory,
                addr,
                count,
                sink,
            } => self.sent(*memory, *addr, *count, sink.as_slice()),
            Command::WriteAllTo {
                memory,
                addr,
                count,
                sink,
            } => self.sent_whole(*memory, *addr, *count, sink.as_slice()),
            _ => unreachable!(),
        }
    }
}

/// Runs commands in order, and appends a reply for each. It reserves room for the replies first. `AllocError` if
/// that fails, and then nothing ran and nothing was appended.
///
/// The replies, the bytes of the host and its dirty pages are those of a model: docs/PROVED.md, "The main theorem",
/// and the crate's README.md, "History" and "Images kept in rounds".
///
/// Leaves open: a failed allocation each time, also without commands, and the reply `Memory` each time that `MayWant`
/// allows it.
pub fn run<R: GuestMemoryRegion, I: Iommu, B: ExactBitmap>(
    machine: &mut Machine<R, I, B>,
    commands: &[Command],
    replies: &mut Vec<Reply>,
) -> Result<(), AllocError>
    ensures ran { let before = state_of R.region I.number B.pages machine.old in
        let after = state_of R.region I.number B.pages machine.new in
        OnOk result ((new : List Reply) × (replies.new.items ≡ replies.old.items ++ new)
        × (run : Run before commands.now new after)
        × AtEachState (AccessesFollowTables before) before commands.now new after run
        × ((block : ℕ) → IsTracked block before.host → RunsDirectly before commands.now new after run
        → KeepsImage block (bytes_of_block block before.host) before commands.now new after run)) }
    ensures refused { OnErr result ((machine.new ≡ machine.old) × (replies.new.items ≡ replies.old.items)) }
{
    blocks_are_short(&machine.host);
    runs_keep_images();
    runs_keep_layouts();
    accesses_go_through_what_was_set_last();
    replies.reserve(commands.len())?;
    for command in commands {
        let reply = machine.step(command);
        replies.push(reply)?;
    }
    Ok(())
}
