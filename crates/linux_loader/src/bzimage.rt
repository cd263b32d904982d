//! bzImages.
ghost use Rattle.std.specs.Prelude.{◌≡◌, ◌+◌, ◌≤◌, ◌<◌, ◌^◌, length, take, drop, All, AllPairs, IfOk, OnOk, Some, Err};
ghost use Rattle.std.specs.Prelude.{MatchResult, [], ◌∷◌};
ghost use Rattle.vm_memory_guest.specs.Host.{shape_of, Holds};
ghost use Rattle.linux_loader.specs.BzImage.{BzAllocates, bz_kernel, bz_named, bz_plan, check_header, header_as_loaded};
ghost use Rattle.linux_loader.specs.BzImage.{header_in, header_size, is_header, kernel_of, kernel_start, load_address};
ghost use Rattle.linux_loader.specs.BzImage.{planned_with};
ghost use Rattle.linux_loader.specs.Image.{IfKnown};
ghost use Rattle.linux_loader.specs.Load.{LoadsImage};
ghost use Rattle.linux_loader.specs.Plan.{Apart, HasBytes, Lists, Names, Plans, address_or, planned_of};
ghost use Rattle.linux_loader.specs.declared.error.LoaderError.TheVariants as errors;

use crate::error::LoaderError;
use crate::image::KernelImage;
use crate::numbers::{u16_at, u32_at};
use crate::plan::{KernelLoaderResult, KernelPlan, PvhBootCapability, SetupHeader, apart};
use crate::runtime::{RuntimeArea, runtime_area};
use crate::segment::Segment;
use std::alloc::{AllocError, Global};
use vm_memory_base::{Bitmap, GuestAddress};
use vm_memory_guest::{GuestMemory, HostMemory};

// Where the setup header begins, and how many bytes it has at most.
const HEADER_START: u64 = 0x1f1;

const MOST_HEADER: u64 = 0x110;

// The offsets of its fields from its first byte on. `SIZE` is that of the byte at 0x201: how many bytes the header has
// after 0x202.
const SIZE: usize = 0x10;

const MAGIC: usize = 0x11;

const VERSION: usize = 0x15;

const LOADFLAGS: usize = 0x20;

const CODE32_START: usize = 0x23;

// "HdrS", as a number.
const HDRS: u32 = 0x5372_6448;

// How many bytes a header has at least: those up to the end of `code32_start`.
const LEAST_HEADER: usize = 0x27;

const SECTOR: u64 = 512;

/// Kernels of Linux with a boot sector, setup code and, after it, the protected mode kernel.
pub struct BzImage;

// So many bytes of an image, from a place on.
fn read_bytes<F: KernelImage>(
    alloc: Global,
    image: &mut F,
    offset: u64,
    count: usize,
) -> Result<Vec<u8>, LoaderError>
    ensures known { IfKnown (F.bytes image.old) (λ all. (F.bytes image.new ≡ Some all)
        × (offset + count ≤ length all → MatchResult result (λ bytes. bytes.items ≡ take count (drop offset all))
        (λ e. e ≡ LoaderError.Memory))) }
    ensures len { IfOk result (λ bytes. length bytes.items ≡ count) }
{
    let mut bytes = vec![in alloc; 0u8; count]?;
    image.read_at(offset, bytes.as_mut_slice())?;
    Ok(bytes)
}

// The header of an image of `size` bytes, and some more.
fn read_header<F: KernelImage>(
    alloc: Global,
    image: &mut F,
    size: u64,
) -> Result<Vec<u8>, LoaderError>
    ensures known { IfKnown (F.bytes image.old) (λ all. (F.bytes image.new ≡ Some all)
        × (size ≡ length all → Lists (header_in all) result)) }
    ensures short { size < 0x218 → result ≡ Err errors.ReadBzImageHeader }
    ensures long { IfOk result (λ header. 39 ≤ length header.items) }
{
    if size < HEADER_START + LEAST_HEADER as u64 {
        return Err(LoaderError::ReadBzImageHeader);
    }
    let count = (size - HEADER_START).min(MOST_HEADER) as usize;
    read_bytes(alloc, image, HEADER_START, count)
}

// How many bytes a header has.
fn header_size(header: &[u8]) -> usize
    requires { 39 ≤ length header.now }
    ensures { result ≡ header_size header.now }
{
    0x11 + header[SIZE] as usize
}

// Whether these are the first bytes of a header of a kernel that is loaded high.
fn is_header(header: &[u8]) -> bool
    requires { 39 ≤ length header.now }
    ensures { result ≡ is_header header.now }
{
    u32_at(header, MAGIC) == HDRS && u16_at(header, VERSION) >= 0x200 && header[LOADFLAGS] & 1 != 0
}

// Whether a header is one of a kernel that may be loaded.
fn check_header(header: &[u8]) -> Result<(), LoaderError>
    requires { 39 ≤ length header.now }
    ensures is { result ≡ check_header header.now }
    ensures whole { OnOk result (header_size header.now ≤ length header.now) }
    ensures long { OnOk result (39 ≤ header_size header.now) }
{
    if !is_header(header) {
        return Err(LoaderError::InvalidBzImage);
    }
    if header_size(header) < LEAST_HEADER {
        return Err(LoaderError::InvalidSetupHeaderSize);
    }
    if header.len() < header_size(header) {
        return Err(LoaderError::ReadBzImageHeader);
    }
    Ok(())
}

// Where the protected mode kernel begins.
fn kernel_start(header: &[u8]) -> u64
    requires { 39 ≤ length header.now }
    ensures { result ≡ kernel_start header.now }
{
    let sectors = if header[0] == 0 { 4 } else { header[0] };
    (u64::from(sectors) + 1) * SECTOR
}

// Where the kernel is loaded.
fn load_address(
    header: &[u8],
    kernel_offset: Option<GuestAddress>,
    highmem_start: u64,
) -> Result<u64, LoaderError>
    requires { 39 ≤ length header.now }
    ensures is { result ≡ load_address header.now kernel_offset highmem_start }
    ensures small { IfOk result (λ addr. addr < 2 ^ 32) }
{
    let code32_start = u64::from(u32_at(header, CODE32_START));
    if code32_start < highmem_start {
        return Err(LoaderError::InvalidKernelStartAddress);
    }
    let addr = kernel_offset.unwrap_or(GuestAddress(code32_start)).0;
    if addr > 0xffff_ffff {
        return Err(LoaderError::InvalidKernelStartAddress);
    }
    Ok(addr)
}

// The protected mode kernel of an image of `size` bytes.
fn kernel_of(header: &[u8], size: u64, addr: u64) -> Result<Segment, LoaderError>
    requires { 39 ≤ length header.now }
    ensures is { result ≡ kernel_of header.now size addr }
    ensures some { IfOk result HasBytes }
    ensures at { IfOk result (λ kernel. kernel.addr.0 ≡ addr) }
{
    let start = kernel_start(header);
    if size <= start {
        return Err(LoaderError::ReadBzImageCompressedKernel);
    }
    let count = size - start;
    if count > u64::MAX - addr {
        return Err(LoaderError::MemoryOverflow);
    }
    Ok(Segment {
        file_offset: start,
        addr: GuestAddress(addr),
        file_size: count,
        size: count,
    })
}

// The kernel of an image of `size` bytes with this header.
fn kernel_in(
    header: &[u8],
    size: u64,
    kernel_offset: Option<GuestAddress>,
    highmem_start: u64,
) -> Result<Segment, LoaderError>
    requires { 39 ≤ length header.now }
    ensures is { result ≡ bz_kernel header.now size kernel_offset highmem_start }
    ensures some { IfOk result HasBytes }
    ensures small { IfOk result (λ kernel. kernel.addr.0 < 2 ^ 32) }
    ensures whole { OnOk result (header_size header.now ≤ length header.now) }
    ensures long { OnOk result (39 ≤ header_size header.now) }
{
    check_header(header)?;
    let addr = load_address(header, kernel_offset, highmem_start)?;
    kernel_of(header, size, addr)
}

// The header, with where the kernel is loaded.
fn header_as_loaded(alloc: Global, header: &[u8], addr: u32) -> Result<SetupHeader, AllocError>
    requires some { 39 ≤ length header.now }
    requires whole { header_size header.now ≤ length header.now }
    requires long { 39 ≤ header_size header.now }
    ensures { IfOk result (λ h. h ≡ header_as_loaded header.now addr) }
{
    let size = header_size(header);
    let mut bytes = Vec::new(alloc);
    bytes.extend_from_slice(&header[0..CODE32_START])?;
    bytes.extend_from_slice(&addr.to_le_bytes())?;
    bytes.extend_from_slice(&header[LEAST_HEADER..size])?;
    Ok(SetupHeader { bytes })
}

// One segment.
fn one(alloc: Global, segment: Segment) -> Result<Vec<Segment>, AllocError>
    ensures { IfOk result (λ segments. segments.items ≡ segment ∷ []) }
{
    let mut segments = Vec::new(alloc);
    segments.push(segment)?;
    Ok(segments)
}

// A plan of these segments, of which the kernel is one.
fn plan_with(
    segments: Vec<Segment>,
    kernel: Segment,
    setup_header: SetupHeader,
    runtime_area: Option<RuntimeArea>,
) -> KernelPlan
    requires { HasBytes kernel }
    ensures { planned_of result ≡ planned_with segments.items kernel setup_header runtime_area }
{
    KernelPlan {
        segments,
        result: KernelLoaderResult {
            kernel_load: kernel.addr,
            kernel_end: kernel.addr.0 + kernel.size,
            runtime_area,
            setup_header: Some(setup_header),
            pvh_boot_cap: PvhBootCapability::PvhEntryNotPresent,
        },
    }
}

// What is to be loaded of an image of `size` bytes.
fn plan_of(
    alloc: Global,
    header: &[u8],
    size: u64,
    kernel_offset: Option<GuestAddress>,
    highmem_start: u64,
) -> Result<KernelPlan, LoaderError>
    requires { 39 ≤ length header.now }
    ensures named { Names (bz_named header.now size kernel_offset highmem_start) result }
    ensures some { IfOk result (λ plan. All HasBytes plan.segments.items) }
{
    let kernel = kernel_in(header, size, kernel_offset, highmem_start)?;
    let setup_header = header_as_loaded(alloc, header, kernel.addr.0 as u32)?;
    let area = runtime_area(setup_header.as_slice(), kernel.addr.0)?;
    let segments = one(alloc, kernel)?;
    Ok(plan_with(segments, kernel, setup_header, area))
}

impl BzImage {
    /// What is to be loaded of an image, and where: the protected mode kernel, at `kernel_offset`, or else at
    /// `code32_start`, which may not lie below `highmem_start`. The first thing that is wrong is refused, in the order
    /// of README.md, "bzImages". `Image` if the source fails, and `Memory` if an allocation does: the first
    /// is for the header of an image that is long enough.
    ///
    /// Leaves open: `Memory`, whatever else the image is, if it is long enough for its header. If no clause says which
    /// bytes an image has, as of a `File`: the plan, and any error at any time.
    pub fn plan<F: KernelImage>(
        alloc: Global,
        kernel_offset: Option<GuestAddress>,
        image: &mut F,
        highmem_start: Option<GuestAddress>,
    ) -> Result<KernelPlan, LoaderError>
        ensures planned { IfKnown (F.bytes image.old) (λ all. (F.bytes image.new ≡ Some all)
            × Plans (BzAllocates all) (bz_plan all kernel_offset (address_or 0 highmem_start)) result) }
        ensures apart { IfOk result (λ plan. AllPairs Apart plan.segments.items) }
    {
        let lowest = highmem_start.unwrap_or(GuestAddress(0)).0;
        let size = image.size()?;
        let header = read_header(alloc, image, size)?;
        let plan = plan_of(alloc, header.as_slice(), size, kernel_offset, lowest)?;
        apart(alloc, plan)
    }

    /// Loads an image as `plan` says, and `KernelPlan::load`. If there is no plan, memory is as it was.
    ///
    /// Leaves open: the same as `plan` and `KernelPlan::load`.
    pub fn load<M: GuestMemory, F: KernelImage, B: Bitmap>(
        alloc: Global,
        mem: &M,
        host: &mut HostMemory<B>,
        kernel_offset: Option<GuestAddress>,
        image: &mut F,
        highmem_start: Option<GuestAddress>,
    ) -> Result<KernelLoaderResult, LoaderError>
        requires { Holds (shape_of host.old) (M.names mem.now) }
        ensures loads { LoadsImage F.bytes F.source F.reads F.known_left B.marks (M.memory mem.now)
            BzAllocates (λ all. bz_plan all kernel_offset (address_or 0 highmem_start))
            (image.old, host.old) result (image.new, host.new) }
        ensures shape { shape_of host.new ≡ shape_of host.old }
    {
        let plan = BzImage::plan(alloc, kernel_offset, image, highmem_start)?;
        plan.load(mem, host, image)
    }
}
