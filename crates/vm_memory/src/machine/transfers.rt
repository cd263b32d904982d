//! The calls that transfer between memories and sources or sinks.
ghost use Rattle.std.specs.Prelude.{◌≡◌, ◌⊎◌, ◌<◌, List, map, true, false, Err, Some, slice_get};
ghost use Rattle.vm_memory_base.specs.Script.{next_of};
ghost use Rattle.vm_memory_base.specs.declared.io.scripted.SinkStep as sinks;
ghost use Rattle.vm_memory_base.specs.declared.io.scripted.SourceStep as sources;
ghost use Rattle.vm_memory_base.specs.declared.iotlb.Permissions.TheVariants as permissions;
ghost use Rattle.vm_memory_guest.specs.Dirt.{with_pages};
ghost use Rattle.vm_memory_guest.specs.Host.{shape_of, Holds};
ghost use Rattle.vm_memory_guest.specs.Walk.{NeedsPieces};
ghost use Rattle.vm_memory_guest.specs.Transfer.{Fills, Once, Takes, UntilWhole, all_of, beside};
ghost use Rattle.vm_memory_guest.specs.declared.region.error.GuestMemoryError.TheVariants as errors;
ghost use Rattle.vm_memory.specs.Calls.{IsEmptySink, SendsAs, SentBy, TransfersOf};
ghost use Rattle.vm_memory.specs.Machine.{Step};
ghost use Rattle.vm_memory.specs.Parts.{state_of};
ghost use Rattle.vm_memory.specs.Reply.{as_done, replied};
ghost use Rattle.vm_memory.specs.Transfers.{beside_taken, receives, sends};
ghost use Rattle.vm_memory.specs.declared.machine.command.Command.TheVariants as command;
ghost use Rattle.vm_memory.specs.declared.machine.command.Reply.TheVariants as reply;
ghost use Rattle.vm_memory.specs.declared.machine.refusal.Refusal.TheVariants as refusal;

use super::Machine;
use super::refusal::Refusal;
use vm_memory_base::{ExactBitmap, GuestAddress, ReadVolatile, WriteVolatile};
use vm_memory_device::Iommu;
use vm_memory_guest::laws::transfers::{
    sinks_take_what_is_computed, transfers_in_are_computed, transfers_out_are_computed,
};
use vm_memory_guest::{Bytes, GuestMemory, GuestMemoryRegion, HostMemory};

impl<R: GuestMemoryRegion, I: Iommu, B: ExactBitmap> Machine<R, I, B> {
    /// Receives at most `count` bytes of a memory from a source, up to the first window that it does not fill at one
    /// try, and returns how many came. `NoSuch` if there is no such memory. Each error of `Bytes::read_volatile_from`
    /// becomes the fault of its name, except `Memory`.
    pub fn read_volatile_from<F: ReadVolatile>(
        &mut self,
        memory: usize,
        addr: GuestAddress,
        src: &mut F,
        count: usize,
    ) -> Result<usize, Refusal>
        ensures moved { let before = state_of R.region I.number B.pages self.old in
            TransfersOf (slice_get before.memories memory) before.host addr.0 count permissions.Write
            (Fills F.source F.reads F.known_left B.marks Once) (λ total. total)
            (beside src.old self.old.host) result (beside src.new self.new.host) }
        ensures rest { self.new ≡ record self.old { host = self.new.host } }
        ensures step { let before = state_of R.region I.number B.pages self.old in
            (steps : List sources.SourceStep) → F.source src.old ≡ Some (map next_of steps)
            → Step before (command.ReadFrom memory addr count steps) (replied reply.Count result)
            (state_of R.region I.number B.pages self.new) }
    {
        let Some(memory) = self.memories.get(memory) else {
            return Err(Refusal::NoSuch);
        };
        receive(memory, &mut self.host, addr, src, count)
    }

    /// Receives `count` bytes of a memory from a source. If it ends early, or the memory ends after the first
    /// byte, the fault says how many came. Other refusals come as in `read_volatile_from`.
    pub fn read_exact_volatile_from<F: ReadVolatile>(
        &mut self,
        memory: usize,
        addr: GuestAddress,
        src: &mut F,
        count: usize,
    ) -> Result<(), Refusal>
        ensures moved { let before = state_of R.region I.number B.pages self.old in
            TransfersOf (slice_get before.memories memory) before.host addr.0 count permissions.Write
            (Fills F.source F.reads F.known_left B.marks UntilWhole) (all_of errors.PartialBuffer count)
            (beside src.old self.old.host) result (beside src.new self.new.host) }
        ensures rest { self.new ≡ record self.old { host = self.new.host } }
        ensures step { let before = state_of R.region I.number B.pages self.old in
            (steps : List sources.SourceStep) → F.source src.old ≡ Some (map next_of steps)
            → Step before (command.ReadExactFrom memory addr count steps) (replied as_done result)
            (state_of R.region I.number B.pages self.new) }
    {
        let Some(memory) = self.memories.get(memory) else {
            return Err(Refusal::NoSuch);
        };
        receive_whole(memory, &mut self.host, addr, src, count)
    }

    /// Sends at most `count` bytes of a memory to a sink, and returns how many it took. `NoSuch` if there is no such
    /// memory. Each error of `Bytes::write_volatile_to` becomes the fault of its name, except `Memory`.
    pub fn write_volatile_to<F: WriteVolatile>(
        &self,
        memory: usize,
        addr: GuestAddress,
        dst: &mut F,
        count: usize,
    ) -> Result<usize, Refusal>
        ensures moved { let now = state_of R.region I.number B.pages self.now in
            TransfersOf (slice_get now.memories memory) now.host addr.0 count permissions.Read
            (Takes F.sink F.taken F.may_want F.writes now.host.blocks UntilWhole) (λ total. total)
            dst.old result dst.new }
        ensures step { let now = state_of R.region I.number B.pages self.now in
            (steps : List sinks.SinkStep) → IsEmptySink F.sink F.taken F.may_want steps count dst.old
            → SendsAs now (command.WriteTo memory addr count steps) (F.taken dst.new) (replied reply.Count result) }
    {
        let Some(memory) = self.memory_at(memory) else {
            return Err(Refusal::NoSuch);
        };
        send(memory, &self.host, addr, dst, count)
    }

    /// Sends `count` bytes of a memory to a sink. If the memory ends after the first byte, the fault says how many
    /// it took. Other refusals come as in `write_volatile_to`.
    pub fn write_all_volatile_to<F: WriteVolatile>(
        &self,
        memory: usize,
        addr: GuestAddress,
        dst: &mut F,
        count: usize,
    ) -> Result<(), Refusal>
        ensures moved { let now = state_of R.region I.number B.pages self.now in
            TransfersOf (slice_get now.memories memory) now.host addr.0 count permissions.Read
            (Takes F.sink F.taken F.may_want F.writes now.host.blocks UntilWhole) (all_of errors.PartialBuffer count)
            dst.old result dst.new }
        ensures step { let now = state_of R.region I.number B.pages self.now in
            (steps : List sinks.SinkStep) → IsEmptySink F.sink F.taken F.may_want steps count dst.old
            → SendsAs now (command.WriteAllTo memory addr count steps) (F.taken dst.new) (replied as_done result) }
    {
        let Some(memory) = self.memory_at(memory) else {
            return Err(Refusal::NoSuch);
        };
        send_whole(memory, &self.host, addr, dst, count)
    }
}

// Receives bytes of a memory from a source, up to the first window that it does not fill.
fn receive<F: ReadVolatile, M: GuestMemory, B: ExactBitmap>(
    memory: &M,
    host: &mut HostMemory<B>,
    addr: GuestAddress,
    src: &mut F,
    count: usize,
) -> Result<usize, Refusal>
    requires { Holds (shape_of host.old) (M.names memory.now) }
    ensures moved { TransfersOf (Some (M.memory memory.now)) (with_pages B.pages host.old) addr.0 count
        permissions.Write (Fills F.source F.reads F.known_left B.marks Once) (λ total. total)
        (beside src.old host.old) result (beside src.new host.new) }
    ensures step { let m = M.memory memory.now in let before = with_pages B.pages host.old in
        let after = with_pages B.pages host.new in
        (steps : List sources.SourceStep) → F.source src.old ≡ Some (map next_of steps)
        → ((replied reply.Count result, after) ≡ receives false m before addr.0 count steps)
        ⊎ ((result ≡ Err refusal.Memory) × NeedsPieces m before.tables addr.0 count permissions.Write
        × (after ≡ before)) }
    ensures shape { shape_of host.new ≡ shape_of host.old }
{
    transfers_in_are_computed::<F, B>();
    match memory.read_volatile_from(host, addr, src, count) {
        Ok(count) => Ok(count),
        Err(error) => Err(Refusal::from(error)),
    }
}

// Receives all of these bytes of a memory from a source.
fn receive_whole<F: ReadVolatile, M: GuestMemory, B: ExactBitmap>(
    memory: &M,
    host: &mut HostMemory<B>,
    addr: GuestAddress,
    src: &mut F,
    count: usize,
) -> Result<(), Refusal>
    requires { Holds (shape_of host.old) (M.names memory.now) }
    ensures moved { TransfersOf (Some (M.memory memory.now)) (with_pages B.pages host.old) addr.0 count
        permissions.Write (Fills F.source F.reads F.known_left B.marks UntilWhole) (all_of errors.PartialBuffer count)
        (beside src.old host.old) result (beside src.new host.new) }
    ensures step { let m = M.memory memory.now in let before = with_pages B.pages host.old in
        let after = with_pages B.pages host.new in
        (steps : List sources.SourceStep) → F.source src.old ≡ Some (map next_of steps)
        → ((replied as_done result, after) ≡ receives true m before addr.0 count steps)
        ⊎ ((result ≡ Err refusal.Memory) × NeedsPieces m before.tables addr.0 count permissions.Write
        × (after ≡ before)) }
    ensures shape { shape_of host.new ≡ shape_of host.old }
{
    transfers_in_are_computed::<F, B>();
    match memory.read_exact_volatile_from(host, addr, src, count) {
        Ok(()) => Ok(()),
        Err(error) => Err(Refusal::from(error)),
    }
}

// Sends bytes of a memory to a sink: those that it takes.
fn send<F: WriteVolatile, M: GuestMemory, B: ExactBitmap>(
    memory: &M,
    host: &HostMemory<B>,
    addr: GuestAddress,
    dst: &mut F,
    count: usize,
) -> Result<usize, Refusal>
    requires { Holds (shape_of host.now) (M.names memory.now) }
    ensures moved { TransfersOf (Some (M.memory memory.now)) (with_pages B.pages host.now) addr.0 count
        permissions.Read (Takes F.sink F.taken F.may_want F.writes host.now.blocks UntilWhole) (λ total. total)
        dst.old result dst.new }
    ensures step { let m = M.memory memory.now in let before = with_pages B.pages host.now in
        (steps : List sinks.SinkStep) → IsEmptySink F.sink F.taken F.may_want steps count dst.old
        → SentBy (sends false m before addr.0 count steps) (NeedsPieces m before.tables addr.0 count permissions.Read)
        (F.taken dst.new) (replied reply.Count result) }
{
    transfers_out_are_computed::<F>();
    sinks_take_what_is_computed::<F>();
    match memory.write_volatile_to(host, addr, dst, count) {
        Ok(count) => Ok(count),
        Err(error) => Err(Refusal::from(error)),
    }
}

// Sends bytes of a memory to a sink: all.
fn send_whole<F: WriteVolatile, M: GuestMemory, B: ExactBitmap>(
    memory: &M,
    host: &HostMemory<B>,
    addr: GuestAddress,
    dst: &mut F,
    count: usize,
) -> Result<(), Refusal>
    requires { Holds (shape_of host.now) (M.names memory.now) }
    ensures moved { TransfersOf (Some (M.memory memory.now)) (with_pages B.pages host.now) addr.0 count
        permissions.Read (Takes F.sink F.taken F.may_want F.writes host.now.blocks UntilWhole)
        (all_of errors.PartialBuffer count) dst.old result dst.new }
    ensures step { let m = M.memory memory.now in let before = with_pages B.pages host.now in
        (steps : List sinks.SinkStep) → IsEmptySink F.sink F.taken F.may_want steps count dst.old
        → SentBy (sends true m before addr.0 count steps) (NeedsPieces m before.tables addr.0 count permissions.Read)
        (F.taken dst.new) (replied as_done result) }
{
    transfers_out_are_computed::<F>();
    sinks_take_what_is_computed::<F>();
    match memory.write_all_volatile_to(host, addr, dst, count) {
        Ok(()) => Ok(()),
        Err(error) => Err(Refusal::from(error)),
    }
}
