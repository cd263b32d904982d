//! ELF images.

ghost use Rattle.std.specs.Prelude.{◌≡◌, ◌+◌, ◌*◌, ◌≤◌, length, All, AllPairs, IfOk, Some, Ok, Err};
ghost use Rattle.vm_memory_guest.specs.Host.{shape_of, Holds};
ghost use Rattle.linux_loader.specs.Elf.{ElfAllocates, capability, elf_header, elf_named, elf_plan, elf_planned};
ghost use Rattle.linux_loader.specs.Elf.{entry_at, headers_in, some_segments};
ghost use Rattle.linux_loader.specs.Load.{LoadsImage};
ghost use Rattle.linux_loader.specs.Image.{IfKnown};
ghost use Rattle.linux_loader.specs.Plan.{Apart, HasBytes, Lists, Names, Plans, address_or, planned_of};
ghost use Rattle.linux_loader.specs.declared.error.LoaderError.TheVariants as errors;

mod header;
mod notes;

use self::header::{
    ElfHeader, HEADER_SIZE, PROGRAM_HEADER_SIZE, ProgramHeader, header_of, program_headers,
    segments_of,
};
use self::notes::pvh_entry;
use crate::error::LoaderError;
use crate::image::KernelImage;
use crate::layout::highest_end;
use crate::plan::{KernelLoaderResult, KernelPlan, PvhBootCapability, apart};
use crate::segment::Segment;
use std::alloc::Global;
use vm_memory_base::{Bitmap, GuestAddress};
use vm_memory_guest::{GuestMemory, HostMemory};

/// ELF files of 64 bits for x86-64: executables and shared objects.
pub struct Elf;

// The header of an image of `size` bytes.
fn read_header<F: KernelImage>(
    image: &mut F,
    size: u64,
    highmem_start: u64,
) -> Result<ElfHeader, LoaderError>
    ensures known { IfKnown (F.bytes image.old) (λ all. (F.bytes image.new ≡ Some all)
        × (size ≡ length all → result ≡ elf_header all highmem_start)) }
    ensures within { IfOk result (λ h. h.table + 56 * h.count ≤ size) }
{
    if size < HEADER_SIZE as u64 {
        return Err(LoaderError::ReadElfHeader);
    }
    let mut header = [0; HEADER_SIZE];
    image.read_at(0, &mut header)?;
    header_of(&header, size, highmem_start)
}

// The program headers of an image.
fn read_program_headers<F: KernelImage>(
    alloc: Global,
    image: &mut F,
    header: &ElfHeader,
) -> Result<Vec<ProgramHeader>, LoaderError>
    ensures { IfKnown (F.bytes image.old) (λ all. (F.bytes image.new ≡ Some all)
        × (header.now.table + 56 * header.now.count ≤ length all
        → Lists (Ok (headers_in all header.now)) result)) }
{
    let mut table = vec![in alloc; 0u8; PROGRAM_HEADER_SIZE * header.count as usize]?;
    image.read_at(header.table, table.as_mut_slice())?;
    Ok(program_headers(alloc, table.as_slice(), header.count)?)
}

// The entry, as it is loaded.
fn entry_at(entry: u64, kernel_offset: u64) -> Result<GuestAddress, LoaderError>
    ensures { result ≡ entry_at entry kernel_offset }
{
    match entry.checked_add(kernel_offset) {
        Some(entry) => Ok(GuestAddress(entry)),
        None => Err(LoaderError::EntryOverflow),
    }
}

fn capability(entry: Option<u64>) -> PvhBootCapability
    ensures { result ≡ capability entry }
{
    match entry {
        Some(entry) => PvhBootCapability::PvhEntryPresent(GuestAddress(entry)),
        None => PvhBootCapability::PvhEntryNotPresent,
    }
}

// The segments that program headers name, of which there has to be one.
fn some_segments(
    alloc: Global,
    headers: &[ProgramHeader],
    size: u64,
    kernel_offset: u64,
) -> Result<Vec<Segment>, LoaderError>
    ensures listed { Lists (some_segments size kernel_offset headers.now) result }
    ensures some { IfOk result (λ segments. All HasBytes segments.items) }
{
    let segments = segments_of(alloc, headers, size, kernel_offset)?;
    if segments.is_empty() {
        return Err(LoaderError::NoLoadSegment);
    }
    Ok(segments)
}

// What is to be loaded of segments.
fn plan_of(segments: Vec<Segment>, entry: GuestAddress, pvh: Option<u64>) -> KernelPlan
    requires { All HasBytes segments.items }
    ensures { planned_of result ≡ elf_planned segments.items entry pvh }
{
    let kernel_end = highest_end(segments.as_slice());
    KernelPlan {
        segments,
        result: KernelLoaderResult {
            kernel_load: entry,
            kernel_end,
            runtime_area: None,
            setup_header: None,
            pvh_boot_cap: capability(pvh),
        },
    }
}

// What is to be loaded of an image of `size` bytes with this header, if the segments lie apart.
fn named<F: KernelImage>(
    alloc: Global,
    image: &mut F,
    header: &ElfHeader,
    size: u64,
    kernel_offset: u64,
) -> Result<KernelPlan, LoaderError>
    requires { header.now.table + 56 * header.now.count ≤ size }
    ensures named { IfKnown (F.bytes image.old) (λ all. (F.bytes image.new ≡ Some all)
        × (size ≡ length all → Names (elf_named all kernel_offset header.now) result)) }
    ensures none { header.now.count ≡ 0 → result ≡ Err errors.NoLoadSegment }
    ensures some { IfOk result (λ plan. All HasBytes plan.segments.items) }
{
    if header.count == 0 {
        return Err(LoaderError::NoLoadSegment);
    }
    let table = read_program_headers(alloc, image, header)?;
    let headers = table.as_slice();
    let segments = some_segments(alloc, headers, size, kernel_offset)?;
    let entry = entry_at(header.entry, kernel_offset)?;
    let pvh = pvh_entry(alloc, image, headers, size)?;
    Ok(plan_of(segments, entry, pvh))
}

impl Elf {
    /// What is to be loaded of an image, and where: each segment at its physical address plus `kernel_offset`. The
    /// entry may not lie below `highmem_start`. The first thing that is wrong is refused, in the order of README.md,
    /// "ELF files". `Image` if the source fails, and `Memory` if an allocation does: the first is for the program
    /// headers of a header that may be loaded.
    ///
    /// Leaves open: `Memory`, whatever else the image is, if the header is accepted and has program headers. If no
    /// clause says which bytes an image has, as of a `File`: the plan, and any error at any time.
    pub fn plan<F: KernelImage>(
        alloc: Global,
        kernel_offset: Option<GuestAddress>,
        image: &mut F,
        highmem_start: Option<GuestAddress>,
    ) -> Result<KernelPlan, LoaderError>
        ensures planned { IfKnown (F.bytes image.old) (λ all. (F.bytes image.new ≡ Some all)
            × Plans (ElfAllocates all (address_or 0 highmem_start))
            (elf_plan all (address_or 0 kernel_offset) (address_or 0 highmem_start)) result) }
        ensures apart { IfOk result (λ plan. AllPairs Apart plan.segments.items) }
    {
        let offset = kernel_offset.unwrap_or(GuestAddress(0)).0;
        let lowest = highmem_start.unwrap_or(GuestAddress(0)).0;
        let size = image.size()?;
        let header = read_header(image, size, lowest)?;
        let plan = named(alloc, image, &header, size, offset)?;
        apart(alloc, plan)
    }

    /// Loads an image as `plan` says. If there is no plan, memory is as it was. Otherwise segment after segment is
    /// loaded, up to the first that is refused, as `KernelPlan::load` says.
    ///
    /// Leaves open: the same as `plan` and `KernelPlan::load`.
    pub fn load<M: GuestMemory, F: KernelImage, B: Bitmap>(
        alloc: Global,
        mem: &M,
        host: &mut HostMemory<B>,
        kernel_offset: Option<GuestAddress>,
        image: &mut F,
        highmem_start: Option<GuestAddress>,
    ) -> Result<KernelLoaderResult, LoaderError>
        requires { Holds (shape_of host.old) (M.names mem.now) }
        ensures loads { LoadsImage F.bytes F.source F.reads F.known_left B.marks (M.memory mem.now)
            (λ all. ElfAllocates all (address_or 0 highmem_start))
            (λ all. elf_plan all (address_or 0 kernel_offset) (address_or 0 highmem_start))
            (image.old, host.old) result (image.new, host.new) }
        ensures shape { shape_of host.new ≡ shape_of host.old }
    {
        let plan = Elf::plan(alloc, kernel_offset, image, highmem_start)?;
        plan.load(mem, host, image)
    }
}
