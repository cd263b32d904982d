//! The calls that read, write and check memories.
ghost use Rattle.std.specs.Prelude.{◌≡◌, ◌⊎◌, ◌≤◌, true, false, length, take, IfOk, Err, Some};
ghost use Rattle.vm_memory_base.specs.declared.iotlb.Permissions.TheVariants as permissions;
ghost use Rattle.vm_memory_guest.specs.Dirt.{with_pages};
ghost use Rattle.vm_memory_guest.specs.Host.{shape_of, Holds};
ghost use Rattle.vm_memory_guest.specs.Walk.{NeedsPieces};
ghost use Rattle.vm_memory.specs.Calls.{ReadsInto, filled_from};
ghost use Rattle.vm_memory.specs.Machine.{Step};
ghost use Rattle.vm_memory.specs.Parts.{state_of};
ghost use Rattle.vm_memory.specs.Reply.{as_done, checks, reads, reads_whole, replied, writes};
ghost use Rattle.vm_memory.specs.declared.machine.command.Command.TheVariants as command;
ghost use Rattle.vm_memory.specs.declared.machine.command.Reply.TheVariants as reply;
ghost use Rattle.vm_memory.specs.declared.machine.refusal.Refusal.TheVariants as refusal;

use super::Machine;
use super::refusal::Refusal;
use vm_memory_base::{ExactBitmap, GuestAddress, Permissions};
use vm_memory_device::Iommu;
use vm_memory_guest::laws::accesses::accesses_are_by_bytes;
use vm_memory_guest::{Bytes, GuestMemory, GuestMemoryRegion, HostMemory};

impl<R: GuestMemoryRegion, I: Iommu, B: ExactBitmap> Machine<R, I, B> {
    /// Reads a memory into the beginning of the buffer, and returns how many bytes that is: README.md, "Calls
    /// of a machine". `NoSuch` if there is no such memory. Each error of `Bytes::read` becomes the fault of its name,
    /// except `Memory`.
    #[inline(always)]
    pub fn read(&self, memory: usize, addr: GuestAddress, buf: &mut [u8]) -> Result<usize, Refusal>
        ensures answer { let now = state_of R.region I.number B.pages self.now in
            ReadsInto now memory addr.0 (command.Read memory addr (length buf.old))
            (λ count. reply.Bytes (take count buf.new)) buf.old result buf.new }
        ensures at_most { IfOk result (λ count. count ≤ length buf.old) }
    {
        let Some(memory) = self.memories.get(memory) else {
            return Err(Refusal::NoSuch);
        };
        read_any(memory, &self.host, addr, buf)
    }

    /// Fills the whole buffer from a memory. If only its beginning can be filled, it fills that, and the fault
    /// says how long it is. Other refusals come as in `read`.
    #[inline(always)]
    pub fn read_slice(
        &self,
        memory: usize,
        addr: GuestAddress,
        buf: &mut [u8],
    ) -> Result<(), Refusal>
        ensures { let now = state_of R.region I.number B.pages self.now in
            ReadsInto now memory addr.0 (command.ReadSlice memory addr (length buf.old))
            (λ filled. reply.Bytes buf.new) buf.old result buf.new }
    {
        let Some(memory) = self.memories.get(memory) else {
            return Err(Refusal::NoSuch);
        };
        fill_any(memory, &self.host, addr, buf)
    }

    /// Writes the beginning of the buffer that fits to a memory, and returns how many bytes that is. `NoSuch` if there
    /// is no such memory. Each error of `Bytes::write` becomes the fault of its name, except `Memory`.
    #[inline(always)]
    pub fn write(&mut self, memory: usize, addr: GuestAddress, buf: &[u8]) -> Result<usize, Refusal>
        ensures { let before = state_of R.region I.number B.pages self.old in
            Step before (command.Write memory addr buf.now) (replied reply.Count result)
            (state_of R.region I.number B.pages self.new) }
    {
        let Some(memory) = self.memories.get(memory) else {
            return Err(Refusal::NoSuch);
        };
        write_any(memory, &mut self.host, addr, buf)
    }

    /// Writes the whole buffer to a memory. If only its beginning fits, it writes that, and the fault says how long
    /// it is. Other refusals come as in `write`.
    #[inline(always)]
    pub fn write_slice(
        &mut self,
        memory: usize,
        addr: GuestAddress,
        buf: &[u8],
    ) -> Result<(), Refusal>
        ensures { let before = state_of R.region I.number B.pages self.old in
            Step before (command.WriteSlice memory addr buf.now) (replied as_done result)
            (state_of R.region I.number B.pages self.new) }
    {
        let Some(memory) = self.memories.get(memory) else {
            return Err(Refusal::NoSuch);
        };
        write_whole_any(memory, &mut self.host, addr, buf)
    }

    /// Whether each of `count` bytes of a memory may be accessed so, and has a byte of the host. `NoSuch` if there
    /// is no such memory.
    pub fn check_range(
        &self,
        memory: usize,
        addr: GuestAddress,
        count: usize,
        access: Permissions,
    ) -> Result<bool, Refusal>
        ensures { let now = state_of R.region I.number B.pages self.now in
            Step now (command.CheckRange memory addr count access) (replied reply.Truth result) now }
    {
        let Some(memory) = self.memories.get(memory) else {
            return Err(Refusal::NoSuch);
        };
        check_in(memory, &self.host, addr, count, access)
    }
}

// Reads a memory into the beginning of a buffer.
#[inline(always)]
fn read_any<M: GuestMemory, B: ExactBitmap>(
    memory: &M,
    host: &HostMemory<B>,
    addr: GuestAddress,
    buf: &mut [u8],
) -> Result<usize, Refusal>
    requires { Holds (shape_of host.now) (M.names memory.now) }
    ensures answer { let m = M.memory memory.now in let before = with_pages B.pages host.now in
        ((replied (λ count. reply.Bytes (take count buf.new)) result ≡ reads m before addr.0 (length buf.old))
        × (buf.new ≡ filled_from (Some m) before addr.0 buf.old))
        ⊎ ((result ≡ Err refusal.Memory) × NeedsPieces m before.tables addr.0 (length buf.old) permissions.Read
        × (buf.new ≡ buf.old)) }
    ensures at_most { IfOk result (λ count. count ≤ length buf.old) }
{
    accesses_are_by_bytes::<B>();
    match memory.read(host, buf, addr) {
        Ok(count) => Ok(count),
        Err(error) => Err(Refusal::from(error)),
    }
}

// Fills a buffer from a memory.
#[inline(always)]
fn fill_any<M: GuestMemory, B: ExactBitmap>(
    memory: &M,
    host: &HostMemory<B>,
    addr: GuestAddress,
    buf: &mut [u8],
) -> Result<(), Refusal>
    requires { Holds (shape_of host.now) (M.names memory.now) }
    ensures { let m = M.memory memory.now in let before = with_pages B.pages host.now in
        ((replied (λ filled. reply.Bytes buf.new) result ≡ reads_whole m before addr.0 (length buf.old))
        × (buf.new ≡ filled_from (Some m) before addr.0 buf.old))
        ⊎ ((result ≡ Err refusal.Memory) × NeedsPieces m before.tables addr.0 (length buf.old) permissions.Read
        × (buf.new ≡ buf.old)) }
{
    accesses_are_by_bytes::<B>();
    match memory.read_slice(host, buf, addr) {
        Ok(()) => Ok(()),
        Err(error) => Err(Refusal::from(error)),
    }
}

// Writes the beginning of a buffer that fits to a memory.
#[inline(always)]
fn write_any<M: GuestMemory, B: ExactBitmap>(
    memory: &M,
    host: &mut HostMemory<B>,
    addr: GuestAddress,
    buf: &[u8],
) -> Result<usize, Refusal>
    requires { Holds (shape_of host.old) (M.names memory.now) }
    ensures written { let m = M.memory memory.now in let before = with_pages B.pages host.old in
        let after = with_pages B.pages host.new in
        ((replied reply.Count result, after) ≡ writes false m before addr.0 buf.now)
        ⊎ ((result ≡ Err refusal.Memory) × NeedsPieces m before.tables addr.0 (length buf.now) permissions.Write
        × (after ≡ before)) }
    ensures shape { shape_of host.new ≡ shape_of host.old }
{
    accesses_are_by_bytes::<B>();
    match memory.write(host, buf, addr) {
        Ok(count) => Ok(count),
        Err(error) => Err(Refusal::from(error)),
    }
}

// Writes a whole buffer to a memory.
#[inline(always)]
fn write_whole_any<M: GuestMemory, B: ExactBitmap>(
    memory: &M,
    host: &mut HostMemory<B>,
    addr: GuestAddress,
    buf: &[u8],
) -> Result<(), Refusal>
    requires { Holds (shape_of host.old) (M.names memory.now) }
    ensures written { let m = M.memory memory.now in let before = with_pages B.pages host.old in
        let after = with_pages B.pages host.new in
        ((replied as_done result, after) ≡ writes true m before addr.0 buf.now)
        ⊎ ((result ≡ Err refusal.Memory) × NeedsPieces m before.tables addr.0 (length buf.now) permissions.Write
        × (after ≡ before)) }
    ensures shape { shape_of host.new ≡ shape_of host.old }
{
    accesses_are_by_bytes::<B>();
    match memory.write_slice(host, buf, addr) {
        Ok(()) => Ok(()),
        Err(error) => Err(Refusal::from(error)),
    }
}

// Whether an access of a memory would reach all of its bytes.
fn check_in<M: GuestMemory, B: ExactBitmap>(
    memory: &M,
    host: &HostMemory<B>,
    addr: GuestAddress,
    count: usize,
    access: Permissions,
) -> Result<bool, Refusal>
    requires { Holds (shape_of host.now) (M.names memory.now) }
    ensures { let m = M.memory memory.now in let before = with_pages B.pages host.now in
        (replied reply.Truth result ≡ checks m before addr.0 count access)
        ⊎ ((result ≡ Err refusal.Memory) × NeedsPieces m before.tables addr.0 count access) }
{
    match memory.check_range(host, addr, count, access) {
        Ok(all) => Ok(all),
        Err(error) => Err(Refusal::from(error)),
    }
}
