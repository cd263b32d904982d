//! What is to be loaded of an image, and where, and how it is loaded.

ghost use Rattle.std.specs.Prelude.{◌≡◌, ◌⊎◌, All, AllPairs, MatchResult};
ghost use Rattle.vm_memory_guest.specs.Host.{shape_of, Holds};
ghost use Rattle.linux_loader.specs.Plan.{Apart, HasBytes, planned_of};
ghost use Rattle.linux_loader.specs.Load.{Clears, ClearsRest, FillsFront, LoadsAll, LoadsPlan, LoadsSegment};

use crate::error::LoaderError;
use crate::image::KernelImage;
use crate::layout::lie_apart;
use crate::runtime::{RuntimeArea, check_in_memory, check_outside};
use crate::segment::Segment;
use crate::zeros::Zeros;
use std::alloc::Global;
use std::marker::Model;
use vm_memory_base::{Bitmap, GuestAddress, GuestUsize};
use vm_memory_guest::{Bytes, GuestMemory, HostMemory};

/// Whether a kernel can be entered by the PVH boot protocol.
#[derive(Clone, Copy, Debug, PartialEq, Eq)]
pub enum PvhBootCapability {
    /// The entry, as it stands in the image.
    PvhEntryPresent(GuestAddress),
    /// The image names none.
    PvhEntryNotPresent,
}

/// What a loader returns.
#[derive(Debug, Drop)]
pub struct KernelLoaderResult {
    /// Where the kernel is entered: the entry of an ELF file, or the first byte of a bzImage.
    pub kernel_load: GuestAddress,
    /// The address after the last byte of the highest segment.
    pub kernel_end: GuestUsize,
    /// Where the kernel of a bzImage of protocol 2.10 or later runs.
    pub runtime_area: Option<RuntimeArea>,
    /// The setup header of a bzImage, with `code32_start` as loaded.
    pub setup_header: Option<SetupHeader>,
    /// The PVH entry of an ELF file.
    pub pvh_boot_cap: PvhBootCapability,
}

impl KernelLoaderResult {
    ghost use Rattle.std.specs.Prelude.{◌≡◌};
    ghost use Rattle.linux_loader.specs.Runtime.{check_outside};

    /// Refuses a range of bytes that shares one with the kernel's run time area, with `RuntimeAreaOverlap`.
    /// Whoever places boot parameters asks this first.
    pub fn check_outside(&self, addr: GuestAddress, size: u64) -> Result<(), LoaderError>
        ensures { result ≡ check_outside addr.0 size self.now.runtime_area }
    {
        check_outside(addr.0, size, self.runtime_area)
    }
}

/// The setup header of a bzImage: its bytes from 0x1f1 on.
#[derive(Debug, Drop)]
pub struct SetupHeader {
    pub(crate) bytes: Vec<u8>,
}

// It is seen as its bytes.
impl Model for SetupHeader {
    ghost use Rattle.std.specs.Prelude.{ℕ, List};

    ghost Value = { List ℕ };

    ghost view = { λ h. h.bytes.items };
}

impl SetupHeader {
    ghost use Rattle.std.specs.Prelude.{◌≡◌};

    /// Its bytes. The first lies at 0x1f1 of the image.
    pub fn as_slice(&self) -> &[u8]
        ensures { result.now ≡ self.now }
    {
        self.bytes.as_slice()
    }
}

/// What is to be loaded of an image, and what a loader then returns.
#[derive(Debug, Drop)]
pub struct KernelPlan {
    /// The segments, in the order of the image. They lie apart.
    pub segments: Vec<Segment>,
    /// What a loader returns.
    pub result: KernelLoaderResult,
}

// A plan, if its segments lie apart.
pub(crate) fn apart(alloc: Global, plan: KernelPlan) -> Result<KernelPlan, LoaderError>
    requires { All HasBytes plan.segments.items }
    ensures { MatchResult result (λ p. (planned_of p ≡ planned_of plan) × AllPairs Apart p.segments.items)
        (λ e. (e ≡ LoaderError.Memory)
        ⊎ ((e ≡ LoaderError.SegmentsOverlap) × ¬ AllPairs Apart plan.segments.items)) }
{
    if !lie_apart(alloc, plan.segments.as_slice())? {
        return Err(LoaderError::SegmentsOverlap);
    }
    Ok(plan)
}

// Lends an image the bytes of a segment that come from it.
fn fill<M: GuestMemory, F: KernelImage, B: Bitmap>(
    mem: &M,
    host: &mut HostMemory<B>,
    image: &mut F,
    segment: &Segment,
) -> Result<(), LoaderError>
    requires { Holds (shape_of host.old) (M.names mem.now) }
    ensures filled { FillsFront F.bytes F.source F.reads F.known_left B.marks (M.memory mem.now) segment.now
        (image.old, host.old) result (image.new, host.new) }
    ensures shape { shape_of host.new ≡ shape_of host.old }
{
    if segment.file_size == 0 {
        return Ok(());
    }
    image.seek_to(segment.file_offset)?;
    match Bytes::read_exact_volatile_from(
        mem,
        host,
        segment.addr,
        image,
        segment.file_size as usize,
    ) {
        Ok(()) => Ok(()),
        Err(error) => Err(LoaderError::of_access(error)),
    }
}

// Writes `count` zeros at an address.
fn clear_at<M: GuestMemory, B: Bitmap>(
    mem: &M,
    host: &mut HostMemory<B>,
    addr: u64,
    count: usize,
) -> Result<(), LoaderError>
    requires { Holds (shape_of host.old) (M.names mem.now) }
    ensures cleared { Clears B.marks (M.memory mem.now) addr count host.old result host.new }
    ensures shape { shape_of host.new ≡ shape_of host.old }
{
    let mut zeros = Zeros::new(count);
    match Bytes::read_exact_volatile_from(mem, host, GuestAddress(addr), &mut zeros, count) {
        Ok(()) => Ok(()),
        Err(error) => Err(LoaderError::of_access(error)),
    }
}

// Makes the rest of a segment zero.
fn clear<M: GuestMemory, B: Bitmap>(
    mem: &M,
    host: &mut HostMemory<B>,
    segment: &Segment,
) -> Result<(), LoaderError>
    requires { Holds (shape_of host.old) (M.names mem.now) }
    ensures cleared { ClearsRest B.marks (M.memory mem.now) segment.now host.old result host.new }
    ensures shape { shape_of host.new ≡ shape_of host.old }
{
    let count = segment.size.saturating_sub(segment.file_size) as usize;
    if count == 0 {
        return Ok(());
    }
    let Some(addr) = segment.addr.0.checked_add(segment.file_size) else {
        return Err(LoaderError::MemoryOverflow);
    };
    clear_at(mem, host, addr, count)
}

// Loads a segment.
pub(crate) fn load_segment<M: GuestMemory, F: KernelImage, B: Bitmap>(
    mem: &M,
    host: &mut HostMemory<B>,
    image: &mut F,
    segment: &Segment,
) -> Result<(), LoaderError>
    requires { Holds (shape_of host.old) (M.names mem.now) }
    ensures loaded { LoadsSegment F.bytes F.source F.reads F.known_left B.marks (M.memory mem.now) segment.now
        (image.old, host.old) result (image.new, host.new) }
    ensures shape { shape_of host.new ≡ shape_of host.old }
{
    match fill(mem, host, image, segment) {
        Ok(()) => clear(mem, host, segment),
        Err(error) => Err(error),
    }
}

impl KernelPlan {
    /// Loads each segment, one after the other, up to the first that is refused: its bytes from the image, and zeros
    /// after them. `RuntimeAreaNotInMemory` if memory does not have each address of the run time area: then nothing is
    /// loaded. `Image` if the image cannot be read from an offset on, `GuestMemory` if an access is refused or the
    /// image fails in it, and `Memory` if an allocation fails. What was loaded before stays.
    ///
    /// Leaves open: `Memory` for each access through an IOMMU that is on and allows it by two pieces or more. If no
    /// clause says which bytes an image has, as of a `File`: which bytes are loaded, and any error at any time.
    pub fn load<M: GuestMemory, F: KernelImage, B: Bitmap>(
        self,
        mem: &M,
        host: &mut HostMemory<B>,
        image: &mut F,
    ) -> Result<KernelLoaderResult, LoaderError>
        requires { Holds (shape_of host.old) (M.names mem.now) }
        ensures loaded { LoadsPlan F.bytes F.source F.reads F.known_left B.marks (M.memory mem.now) (planned_of self)
            (image.old, host.old) result (image.new, host.new) }
        ensures shape { shape_of host.new ≡ shape_of host.old }
    {
        check_in_memory(mem, host, self.result.runtime_area)?;
        load_segments(mem, host, image, self.segments.as_slice())?;
        Ok(self.result)
    }
}

// Loads segments, one after the other, up to the first that is refused.
fn load_segments<M: GuestMemory, F: KernelImage, B: Bitmap>(
    mem: &M,
    host: &mut HostMemory<B>,
    image: &mut F,
    segments: &[Segment],
) -> Result<(), LoaderError>
    requires { Holds (shape_of host.old) (M.names mem.now) }
    ensures loaded { LoadsAll F.bytes F.source F.reads F.known_left B.marks (M.memory mem.now) segments.now
        (image.old, host.old) result (image.new, host.new) }
    ensures shape { shape_of host.new ≡ shape_of host.old }
{
    for segment in segments {
        load_segment(mem, host, image, segment)?;
    }
    Ok(())
}
