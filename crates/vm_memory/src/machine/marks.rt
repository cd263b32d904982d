//! The calls that mark pages whose bytes something else wrote.
ghost use Rattle.std.specs.Prelude.{◌≡◌, ◌⊎◌, ◌^◌, ◌<◌, Err, Some, map, option_map};
ghost use Rattle.std.specs.List.{AllByRecursion, flat_map};
ghost use Rattle.vm_memory_base.specs.declared.iotlb.Permissions.TheVariants as permissions;
ghost use Rattle.vm_memory_guest.specs.Copy.{dirtied_cells};
ghost use Rattle.vm_memory_guest.specs.Dirt.{with_pages};
ghost use Rattle.vm_memory_guest.specs.Error.{error_of};
ghost use Rattle.vm_memory_guest.specs.Host.{shape_of, Holds};
ghost use Rattle.vm_memory_guest.specs.Memory.{memory_names};
ghost use Rattle.vm_memory_guest.specs.Pieces.{walk_of_pieces};
ghost use Rattle.vm_memory_guest.specs.Region.{region_names};
ghost use Rattle.vm_memory_guest.specs.Transfer.{ended};
ghost use Rattle.vm_memory_guest.specs.Walk.{NeedsPieces};
ghost use Rattle.vm_memory_guest.specs.Window.{MarksAll, cells, span, window_names};
ghost use Rattle.vm_memory_device.specs.Iommu.{of_translation};
ghost use Rattle.vm_memory_device.specs.Memories.{memory_meant, plain};
ghost use Rattle.vm_memory_device.specs.declared.machine_memory.MachineMemory.TheVariants as memories;
ghost use Rattle.vm_memory.specs.Calls.{WritesOf};
ghost use Rattle.vm_memory.specs.Effect.{apply, leaves};
ghost use Rattle.vm_memory.specs.Marks.{marks_range, marks_reached};
ghost use Rattle.vm_memory.specs.Parts.{state_of};
ghost use Rattle.vm_memory.specs.Reply.{as_done, refusal_of, refused_as, replied};
ghost use Rattle.vm_memory.specs.declared.machine.command.Reply.TheVariants as reply;
ghost use Rattle.vm_memory.specs.declared.machine.refusal.Refusal.TheVariants as refusal;

use super::Machine;
use super::command::BlockRange;
use super::copies::{has_block, window};
use super::refusal::Refusal;
use std::alloc::Global;
use vm_memory_base::laws::pages::mark_is_by_bytes;
use vm_memory_base::{Bitmap, ExactBitmap, GuestAddress, IommuError, MappedRange, Permissions};
use vm_memory_device::{Iommu, IommuMemory, MachineMemory};
use vm_memory_guest::{
    GuestMemoryBackend, GuestMemoryBackendSliceIterator, GuestMemoryError, GuestMemoryRegion,
    GuestRegionCollection, HostMemory,
};

impl<R: GuestMemoryRegion, I: Iommu, B: ExactBitmap> Machine<R, I, B> {
    /// Marks the pages of the bytes of a range of a block in the block's bitmap, as a write of these bytes would. It
    /// reads and writes no byte: it is for bytes that something else wrote, such as a virtual processor or a process.
    /// `NoSuch` if there is no such block or it was given back, `BadRange` if the range passes its block.
    pub fn mark_block(&mut self, range: BlockRange) -> Result<(), Refusal>
        ensures { let before = state_of R.region I.number B.pages self.old in
            (replied as_done result, state_of R.region I.number B.pages self.new)
            ≡ apply before (leaves (marks_range before.host range)) }
    {
        mark_in(&mut self.host, range)
    }

    /// Marks the pages of the bytes that a write of `count` bytes at `addr` would reach, each in the bitmap of its own
    /// block, and returns how many bytes these are. It is for bytes that something else wrote: it reads and writes
    /// none. If an IOMMU is on, a write marks a space, but this marks no space. `NoSuch` if there is no such memory.
    /// Other refusals come as in `write`, and change nothing.
    pub fn mark_reached(
        &mut self,
        memory: usize,
        addr: GuestAddress,
        count: usize,
    ) -> Result<usize, Refusal>
        ensures { let before = state_of R.region I.number B.pages self.old in
            WritesOf before memory addr.0 count (λ m host. marks_reached m host addr.0 count)
            (replied reply.Count result) (state_of R.region I.number B.pages self.new) }
    {
        let Some(memory) = self.memories.get(memory) else {
            return Err(Refusal::NoSuch);
        };
        mark_any(self.alloc, memory.kind(), &mut self.host, addr, count)
    }
}

// Marks a range of a block of a host.
fn mark_in<B: ExactBitmap>(host: &mut HostMemory<B>, range: BlockRange) -> Result<(), Refusal>
    ensures marked { (replied as_done result, with_pages B.pages host.new)
        ≡ marks_range (with_pages B.pages host.old) range }
    ensures shape { shape_of host.new ≡ shape_of host.old }
{
    if !has_block(host, range.block) {
        return Err(Refusal::NoSuch);
    }
    let Some(window) = window(host, range) else {
        return Err(Refusal::BadRange);
    };
    mark_is_by_bytes();
    host.mark_window(&window);
    Ok(())
}

// Marks what a write to a memory would reach.
fn mark_any<R: GuestMemoryRegion, I: Iommu, B: ExactBitmap>(
    alloc: Global,
    memory: &MachineMemory<R, I>,
    host: &mut HostMemory<B>,
    addr: GuestAddress,
    count: usize,
) -> Result<usize, Refusal>
    requires { Holds (shape_of host.old) (memory_names (memory_meant R.region I.number memory.now)) }
    ensures marked { let m = memory_meant R.region I.number memory.now in let before = with_pages B.pages host.old in
        let after = with_pages B.pages host.new in
        ((replied reply.Count result, after) ≡ marks_reached m before addr.0 count)
        ⊎ ((result ≡ Err refusal.Memory) × NeedsPieces m before.tables addr.0 count permissions.Write
        × (after ≡ before)) }
    ensures shape { shape_of host.new ≡ shape_of host.old }
{
    match memory {
        MachineMemory::Plain(layout) => mark_layout(layout, host, addr, count),
        MachineMemory::Translated(memory) => mark_translated(alloc, memory, host, addr, count),
    }
}

// Marks what a write to a layout would reach.
fn mark_layout<R: GuestMemoryRegion, B: ExactBitmap>(
    layout: &GuestRegionCollection<R>,
    host: &mut HostMemory<B>,
    addr: GuestAddress,
    count: usize,
) -> Result<usize, Refusal>
    requires { Holds (shape_of host.old) (flat_map region_names (map R.region layout.now)) }
    ensures marked { (replied reply.Count result, with_pages B.pages host.new)
        ≡ marks_reached (plain (map R.region layout.now)) (with_pages B.pages host.old) addr.0 count }
    ensures shape { shape_of host.new ≡ shape_of host.old }
{
    let all = [MappedRange {
        base: addr,
        length: count,
    }];
    mark_pieces(layout, host, &all)
}

// Marks what a write to a memory behind an IOMMU would reach: the pieces of its translation, if the IOMMU is on.
fn mark_translated<R: GuestMemoryRegion, I: Iommu, B: ExactBitmap>(
    alloc: Global,
    memory: &IommuMemory<GuestRegionCollection<R>, I>,
    host: &mut HostMemory<B>,
    addr: GuestAddress,
    count: usize,
) -> Result<usize, Refusal>
    requires { let m = memory_meant R.region I.number (memories.Translated memory.now) in
        Holds (shape_of host.old) (memory_names m) }
    ensures marked { let m = memory_meant R.region I.number (memories.Translated memory.now) in
        let before = with_pages B.pages host.old in let after = with_pages B.pages host.new in
        ((replied reply.Count result, after) ≡ marks_reached m before addr.0 count)
        ⊎ ((result ≡ Err refusal.Memory) × NeedsPieces m before.tables addr.0 count permissions.Write
        × (after ≡ before)) }
    ensures shape { shape_of host.new ≡ shape_of host.old }
{
    let layout = memory.get_backend();
    if !memory.get_iommu_enabled() {
        return mark_layout(layout, host, addr, count);
    }
    let iommu = memory.iommu();
    let table = host.table(iommu.table());
    match iommu.translate(alloc, table, addr, count, Permissions::Write) {
        Ok(pieces) => mark_pieces(layout, host, pieces.as_slice()),
        Err(error) => Err(refused(error)),
    }
}

// Marks the windows of pieces, one piece after the other, up to the first fault: how many bytes they have, or the fault
// if it comes before them.
fn mark_pieces<R: GuestMemoryRegion, B: ExactBitmap>(
    layout: &GuestRegionCollection<R>,
    host: &mut HostMemory<B>,
    pieces: &[MappedRange],
) -> Result<usize, Refusal>
    requires held { Holds (shape_of host.old) (flat_map region_names (map R.region layout.now)) }
    requires fits { span (walk_of_pieces (map R.region layout.now) pieces.now).windows < 2 ^ 64 }
    ensures answer { let walk = walk_of_pieces (map R.region layout.now) pieces.now in
        result ≡ refused_as (ended (span walk.windows) (option_map error_of walk.fault)) }
    ensures dirt { let walk = walk_of_pieces (map R.region layout.now) pieces.now in
        with_pages B.pages host.new ≡ dirtied_cells (cells walk.windows) (with_pages B.pages host.old) }
    ensures shape { shape_of host.new ≡ shape_of host.old }
{
    mark_is_by_bytes();
    let mut total = 0;
    for piece in pieces {
        let walk = GuestMemoryBackend::get_slices(layout, piece.base, piece.length);
        let (count, fault) = mark_windows(walk, host);
        total += count;
        if let Some(error) = fault {
            return stopped(total, error);
        }
    }
    Ok(total)
}

// Marks the windows of a walk, each at once, up to an error: how many bytes they have, and the error.
fn mark_windows<M: GuestMemoryBackend, B: Bitmap>(
    walk: GuestMemoryBackendSliceIterator<'_, M>,
    host: &mut HostMemory<B>,
) -> (usize, Option<GuestMemoryError>)
    requires held { AllByRecursion (λ w. Holds (shape_of host.old) (window_names w)) walk.windows }
    requires fits { span walk.windows < 2 ^ 64 }
    ensures count { result.0 ≡ span walk.entry.windows }
    ensures fault { result.1 ≡ option_map error_of walk.entry.fault }
    ensures marks { MarksAll B.marks walk.entry.windows host.old host.new }
    ensures shape { shape_of host.new ≡ shape_of host.old }
{
    let mut total = 0;
    for item in walk {
        match item {
            Ok(window) => {
                host.mark_window(&window);
                total += window.len();
            }
            Err(error) => return (total, Some(error)),
        }
    }
    (total, None)
}

// The answer if an error stops marks after so many bytes: how many these are, or the error if there are none.
fn stopped(total: usize, error: GuestMemoryError) -> Result<usize, Refusal>
    ensures { result ≡ refused_as (ended total (Some error)) }
{
    if total == 0 {
        return Err(Refusal::from(error));
    }
    Ok(total)
}

// The refusal for an error of a translation.
fn refused(error: IommuError) -> Refusal
    ensures { result ≡ refusal_of (of_translation error) }
{
    Refusal::from(match error {
        IommuError::Memory => GuestMemoryError::Memory,
        IommuError::CannotResolve { .. }
        | IommuError::Fragmented { .. }
        | IommuError::IommuMisconfigured { .. } => GuestMemoryError::IommuError(error),
    })
}
