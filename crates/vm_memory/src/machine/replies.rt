//! The replies to commands whose calls take more than the command has: a buffer, a width, a source or a sink.
ghost use Rattle.std.specs.Prelude.{◌≡◌, length, IsOk, IfOk};
ghost use Rattle.vm_memory.specs.Machine.{Step};
ghost use Rattle.vm_memory.specs.Parts.{state_of};
ghost use Rattle.vm_memory.specs.Reply.{replied};
ghost use Rattle.vm_memory.specs.declared.machine.command.Command.TheVariants as command;
ghost use Rattle.vm_memory.specs.declared.machine.command.Reply.TheVariants as reply;

use super::Machine;
use super::command::{Ending, Reply, Width};
use super::list::{ByteList, NumberList};
use super::refusal::{Refusal, counted, done, refused};
use std::alloc::{AllocError, Global};
use vm_memory_base::{
    BitmapId, ExactBitmap, GuestAddress, ScriptSink, ScriptSource, SinkStep, SourceStep,
};
use vm_memory_device::Iommu;
use vm_memory_guest::GuestMemoryRegion;

impl<R: GuestMemoryRegion, I: Iommu, B: ExactBitmap> Machine<R, I, B> {
    // Reads at most so many bytes of a memory.
    pub(super) fn bytes_read(&self, memory: usize, addr: GuestAddress, count: usize) -> Reply
        ensures { let now = state_of R.region I.number B.pages self.now in
            Step now (command.Read memory addr count) result now }
    {
        if self.memory_at(memory).is_none() {
            return Reply::NoSuch;
        }
        let Ok(mut buffer) = zeroed(self.alloc, count) else {
            return Reply::Memory;
        };
        match self.read(memory, addr, buffer.as_mut_slice()) {
            Ok(count) => {
                buffer.truncate(count);
                Reply::Bytes(ByteList::from_vec(buffer))
            }
            Err(refusal) => refused(refusal),
        }
    }

    // Reads just so many bytes of a memory.
    pub(super) fn bytes_filled(&self, memory: usize, addr: GuestAddress, count: usize) -> Reply
        ensures { let now = state_of R.region I.number B.pages self.now in
            Step now (command.ReadSlice memory addr count) result now }
    {
        if self.memory_at(memory).is_none() {
            return Reply::NoSuch;
        }
        let Ok(mut buffer) = zeroed(self.alloc, count) else {
            return Reply::Memory;
        };
        match self.read_slice(memory, addr, buffer.as_mut_slice()) {
            Ok(()) => Reply::Bytes(ByteList::from_vec(buffer)),
            Err(refusal) => refused(refusal),
        }
    }

    // Writes bytes to a memory.
    #[inline(never)]
    pub(super) fn bytes_written(&mut self, memory: usize, addr: GuestAddress, bytes: &[u8]) -> Reply
        ensures { let before = state_of R.region I.number B.pages self.old in
            Step before (command.Write memory addr bytes.now) result (state_of R.region I.number B.pages self.new) }
    {
        counted(self.write(memory, addr, bytes))
    }

    // Writes all bytes to a memory.
    #[inline(never)]
    pub(super) fn all_written(&mut self, memory: usize, addr: GuestAddress, bytes: &[u8]) -> Reply
        ensures { let before = state_of R.region I.number B.pages self.old in
            Step before (command.WriteSlice memory addr bytes.now) result
            (state_of R.region I.number B.pages self.new) }
    {
        done(self.write_slice(memory, addr, bytes))
    }

    // Stores a number as an integer of this width, if it is one.
    pub(super) fn word_stored(
        &mut self,
        memory: usize,
        width: Width,
        addr: GuestAddress,
        value: u64,
    ) -> Reply
        ensures { let before = state_of R.region I.number B.pages self.old in
            Step before (command.Store memory width addr value) result
            (state_of R.region I.number B.pages self.new) }
    {
        if self.memory_at(memory).is_none() {
            return Reply::NoSuch;
        }
        if !width.fits(value) {
            return Reply::BadRange;
        }
        match width {
            Width::One => done(self.store(memory, addr, value as u8)),
            Width::Two => done(self.store(memory, addr, value as u16)),
            Width::Four => done(self.store(memory, addr, value as u32)),
            Width::Eight => done(self.store(memory, addr, value)),
        }
    }

    // Loads an integer of this width.
    pub(super) fn word_loaded(&self, memory: usize, width: Width, addr: GuestAddress) -> Reply
        ensures { let now = state_of R.region I.number B.pages self.now in
            Step now (command.Load memory width addr) result now }
    {
        match self.load_word(memory, width, addr) {
            Ok(value) => Reply::Value(value),
            Err(refusal) => refused(refusal),
        }
    }

    /// Loads an integer of this width from a memory, as a number. It is refused as `load` is.
    #[inline]
    pub fn load_word(&self, memory: usize, width: Width, addr: GuestAddress) -> Result<u64, Refusal>
        ensures { let now = state_of R.region I.number B.pages self.now in
            Step now (command.Load memory width addr) (replied reply.Value result) now }
    {
        match width {
            Width::One => match self.load::<u8>(memory, addr) {
                Ok(value) => Ok(u64::from(value)),
                Err(refusal) => Err(refusal),
            },
            Width::Two => match self.load::<u16>(memory, addr) {
                Ok(value) => Ok(u64::from(value)),
                Err(refusal) => Err(refusal),
            },
            Width::Four => match self.load::<u32>(memory, addr) {
                Ok(value) => Ok(u64::from(value)),
                Err(refusal) => Err(refusal),
            },
            Width::Eight => self.load::<u64>(memory, addr),
        }
    }

    // Receives bytes of a memory from a source that follows a script.
    pub(super) fn received(
        &mut self,
        memory: usize,
        addr: GuestAddress,
        count: usize,
        steps: &[SourceStep],
    ) -> Reply
        ensures { let before = state_of R.region I.number B.pages self.old in
            Step before (command.ReadFrom memory addr count steps.now) result
            (state_of R.region I.number B.pages self.new) }
    {
        let mut source = ScriptSource::new(steps);
        counted(self.read_volatile_from(memory, addr, &mut source, count))
    }

    // Receives all of these bytes.
    pub(super) fn received_whole(
        &mut self,
        memory: usize,
        addr: GuestAddress,
        count: usize,
        steps: &[SourceStep],
    ) -> Reply
        ensures { let before = state_of R.region I.number B.pages self.old in
            Step before (command.ReadExactFrom memory addr count steps.now) result
            (state_of R.region I.number B.pages self.new) }
    {
        let mut source = ScriptSource::new(steps);
        done(self.read_exact_volatile_from(memory, addr, &mut source, count))
    }

    // Sends bytes of a memory to a sink that follows a script, with room for as many.
    pub(super) fn sent(
        &self,
        memory: usize,
        addr: GuestAddress,
        count: usize,
        steps: &[SinkStep],
    ) -> Reply
        ensures { let now = state_of R.region I.number B.pages self.now in
            Step now (command.WriteTo memory addr count steps.now) result now }
    {
        if self.memory_at(memory).is_none() {
            return Reply::NoSuch;
        }
        let Ok(mut sink) = ScriptSink::new(self.alloc, steps, count) else {
            return Reply::Memory;
        };
        let ending = match self.write_volatile_to(memory, addr, &mut sink, count) {
            Ok(count) => Ending::Count(count),
            Err(Refusal::Fault(fault)) => Ending::Fault(fault),
            Err(refusal) => return refused(refusal),
        };
        let taken = ByteList::from_vec(sink.into_taken());
        Reply::Sent { ending, taken }
    }

    // Sends all of these bytes.
    pub(super) fn sent_whole(
        &self,
        memory: usize,
        addr: GuestAddress,
        count: usize,
        steps: &[SinkStep],
    ) -> Reply
        ensures { let now = state_of R.region I.number B.pages self.now in
            Step now (command.WriteAllTo memory addr count steps.now) result now }
    {
        if self.memory_at(memory).is_none() {
            return Reply::NoSuch;
        }
        let Ok(mut sink) = ScriptSink::new(self.alloc, steps, count) else {
            return Reply::Memory;
        };
        let ending = match self.write_all_volatile_to(memory, addr, &mut sink, count) {
            Ok(()) => Ending::Done,
            Err(Refusal::Fault(fault)) => Ending::Fault(fault),
            Err(refusal) => return refused(refusal),
        };
        let taken = ByteList::from_vec(sink.into_taken());
        Reply::Sent { ending, taken }
    }

    // The dirty pages of a bitmap.
    pub(super) fn pages_listed(&self, bitmap: BitmapId) -> Reply
        ensures { let now = state_of R.region I.number B.pages self.now in
            Step now (command.Dirty bitmap) result now }
    {
        let mut pages = Vec::new(self.alloc);
        match self.dirty(bitmap, &mut pages) {
            Ok(()) => Reply::Pages(NumberList::from_vec(pages)),
            Err(refusal) => refused(refusal),
        }
    }

    // The dirty pages of a bitmap, which are clean then.
    pub(super) fn pages_taken(&mut self, bitmap: BitmapId) -> Reply
        ensures { let before = state_of R.region I.number B.pages self.old in
            Step before (command.Harvest bitmap) result (state_of R.region I.number B.pages self.new) }
    {
        let mut pages = Vec::new(self.alloc);
        match self.harvest(bitmap, &mut pages) {
            Ok(()) => Reply::Pages(NumberList::from_vec(pages)),
            Err(refusal) => refused(refusal),
        }
    }
}

fn zeroed(alloc: Global, count: usize) -> Result<Vec<u8>, AllocError>
    ensures bytes { IfOk result (λ bytes. length bytes.items ≡ count) }
    ensures empty { count ≡ 0 → IsOk result }
{
    if count == 0 {
        return Ok(Vec::new(alloc));
    }
    vec![in alloc; 0u8; count]
}
