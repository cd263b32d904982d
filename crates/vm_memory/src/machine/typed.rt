//! The calls that store and load values.
ghost use Rattle.std.specs.Prelude.{◌≡◌, ◌⊎◌, ℕ, Err, Some, length, slice_get};
ghost use Rattle.vm_memory_base.specs.declared.iotlb.Permissions.TheVariants as permissions;
ghost use Rattle.vm_memory_guest.specs.Dirt.{with_pages};
ghost use Rattle.vm_memory_guest.specs.Host.{shape_of, Holds};
ghost use Rattle.vm_memory_guest.specs.Walk.{NeedsPieces};
ghost use Rattle.vm_memory.specs.Calls.{AreIntegers, IsInteger, WritesOf, loaded};
ghost use Rattle.vm_memory.specs.Commands.{MayTranslate};
ghost use Rattle.vm_memory.specs.Machine.{Step};
ghost use Rattle.vm_memory.specs.Parts.{state_of};
ghost use Rattle.vm_memory.specs.Reply.{as_done, replied};
ghost use Rattle.vm_memory.specs.Typed.{stores_bytes};
ghost use Rattle.vm_memory.specs.declared.machine.command.Command.TheVariants as command;
ghost use Rattle.vm_memory.specs.declared.machine.command.Reply.TheVariants as reply;
ghost use Rattle.vm_memory.specs.declared.machine.command.Width as widths;
ghost use Rattle.vm_memory.specs.declared.machine.refusal.Refusal.TheVariants as refusal;

use super::Machine;
use super::refusal::Refusal;
use std::sync::atomic::Ordering;
use vm_memory_base::{AtomicAccess, ExactBitmap, GuestAddress};
use vm_memory_device::Iommu;
use vm_memory_guest::laws::typed::loads_and_stores_are_by_bytes;
use vm_memory_guest::{Bytes, GuestMemory, GuestMemoryRegion, HostMemory};

impl<R: GuestMemoryRegion, I: Iommu, B: ExactBitmap> Machine<R, I, B> {
    /// Stores a value in a memory, as one integer. `NoSuch` if there is no such memory. Each error of `Bytes::store`
    /// becomes the fault of its name, except `Memory`.
    #[inline(always)]
    pub fn store<T: AtomicAccess>(
        &mut self,
        memory: usize,
        addr: GuestAddress,
        value: T,
    ) -> Result<(), Refusal>
        ensures stored { let before = state_of R.region I.number B.pages self.old in
            WritesOf before memory addr.0 (length (T.bytes value))
            (λ m host. stores_bytes m host addr.0 (T.bytes value)) (replied as_done result)
            (state_of R.region I.number B.pages self.new) }
        ensures integer { let before = state_of R.region I.number B.pages self.old in
            (width : widths.Width) (number : ℕ) → IsInteger (T.bytes value) width number
            → Step before (command.Store memory width addr number) (replied as_done result)
            (state_of R.region I.number B.pages self.new) }
    {
        let Some(memory) = self.memories.get(memory) else {
            return Err(Refusal::NoSuch);
        };
        store_any(memory, &mut self.host, addr, value)
    }

    /// Loads a value of a memory, as one integer. `NoSuch` if there is no such memory. Each error of `Bytes::load`
    /// becomes the fault of its name, except `Memory`.
    #[inline(always)]
    pub fn load<T: AtomicAccess>(&self, memory: usize, addr: GuestAddress) -> Result<T, Refusal>
        ensures value { let now = state_of R.region I.number B.pages self.now in
            (result ≡ loaded T.value_of (slice_get now.memories memory) now.host addr.0 T.width)
            ⊎ ((result ≡ Err refusal.Memory) × MayTranslate now memory addr.0 T.width permissions.Read) }
        ensures integer { let now = state_of R.region I.number B.pages self.now in
            (width : widths.Width) (number : T → ℕ) → AreIntegers T.width T.value_of width number
            → Step now (command.Load memory width addr) (replied (λ v. reply.Value (number v)) result) now }
    {
        let Some(memory) = self.memory_at(memory) else {
            return Err(Refusal::NoSuch);
        };
        load_any(memory, &self.host, addr)
    }
}

// Stores a value in a memory.
#[inline(always)]
fn store_any<T: AtomicAccess, M: GuestMemory, B: ExactBitmap>(
    memory: &M,
    host: &mut HostMemory<B>,
    addr: GuestAddress,
    value: T,
) -> Result<(), Refusal>
    requires { Holds (shape_of host.old) (M.names memory.now) }
    ensures stored { let m = M.memory memory.now in let before = with_pages B.pages host.old in
        let after = with_pages B.pages host.new in
        ((replied as_done result, after) ≡ stores_bytes m before addr.0 (T.bytes value))
        ⊎ ((result ≡ Err refusal.Memory) × NeedsPieces m before.tables addr.0 (length (T.bytes value)) permissions.Write
        × (after ≡ before)) }
    ensures shape { shape_of host.new ≡ shape_of host.old }
{
    loads_and_stores_are_by_bytes::<B>();
    value.recall_law();
    match Bytes::store(memory, host, value, addr, Ordering::SeqCst) {
        Ok(()) => Ok(()),
        Err(error) => Err(Refusal::from(error)),
    }
}

// Loads a value of a memory.
#[inline(always)]
fn load_any<T: AtomicAccess, M: GuestMemory, B: ExactBitmap>(
    memory: &M,
    host: &HostMemory<B>,
    addr: GuestAddress,
) -> Result<T, Refusal>
    requires { Holds (shape_of host.now) (M.names memory.now) }
    ensures { let m = M.memory memory.now in let before = with_pages B.pages host.now in
        (result ≡ loaded T.value_of (Some m) before addr.0 T.width)
        ⊎ ((result ≡ Err refusal.Memory) × NeedsPieces m before.tables addr.0 T.width permissions.Read) }
{
    loads_and_stores_are_by_bytes::<B>();
    match Bytes::load(memory, host, addr, Ordering::SeqCst) {
        Ok(value) => Ok(value),
        Err(error) => Err(Refusal::from(error)),
    }
}
