//! Loads a kernel image to guest memory, and prints what lies where: its segments with the SHA-256 of each, the entry,
//! the command line, the initrd, and how many pages are dirty.
#![tactic(auto)]

mod asked;
mod memory;

use anyhow::{Context, Result, bail};
use asked::{Asked, read_words};
use linux_loader::{
    BzImage, Cmdline, Elf, KernelImage, KernelLoaderResult, KernelPlan, LoaderError,
    PvhBootCapability, Segment, SetupHeader, initrd_address, load_cmdline, load_initrd,
};
use memory::{
    AFTER_HOLE, Host, digest_of, dirty_pages, fits, last_address, last_low_address, memory_of,
};
use std::alloc::Global;
use std::env;
use std::fs::File;
use std::process::ExitCode;
use vm_memory_base::GuestAddress;
use vm_memory_guest::{GuestMemoryMmap, HostMemory};

// Where the command line lies.
const CMDLINE: u64 = 0x2_0000;

// Opens a file, whose name an error says.
fn open(rt: &HostRuntime, path: &str) -> Result<File> {
    Ok(File::open(rt, path).context(format_args!("{path}"))?)
}

// What is to be loaded of an image: an ELF file if it begins as one, or else a bzImage.
fn plan_of(
    alloc: Global,
    image: &mut File,
    offset: Option<u64>,
) -> Result<KernelPlan, LoaderError> {
    let mut magic = [0; 4];
    let is_elf = image.read_at(0, &mut magic).is_ok() && magic == [0x7f, b'E', b'L', b'F'];
    let offset = offset.map(GuestAddress);
    if is_elf {
        return Elf::plan(alloc, offset, image, None);
    }
    BzImage::plan(alloc, offset, image, None)
}

// Refuses a part of a kernel that has an address without memory.
fn check_part(part: &str, start: u64, end: u64, memory: u64) -> Result<()> {
    if fits(memory, start, end) {
        return Ok(());
    }
    let last = last_address(memory);
    if start < AFTER_HOLE && AFTER_HOLE < last {
        let last = last_low_address(memory);
        bail!("{part} takes {start:#x} to {end:#x}, and memory below 4 GiB ends after {last:#x}");
    }
    bail!("{part} takes {start:#x} to {end:#x}, and {memory} MiB of memory end after {last:#x}");
}

// Refuses a kernel with a part that has an address without memory.
fn check_plan(plan: &KernelPlan, memory: u64) -> Result<()> {
    for segment in plan.segments.iter() {
        let start = segment.addr.0;
        let end = start.saturating_add(segment.size);
        check_part("a segment", start, end, memory)?;
    }
    if let Some(area) = plan.result.runtime_area {
        let start = area.start.0;
        check_part("the kernel at run time", start, area.end, memory)?;
    }
    Ok(())
}

// How many characters the command line of a bzImage has at most. The header begins at 0x1f1 of the image; from version
// 2.06 on, the number stands at 0x238.
fn most_characters(header: &SetupHeader) -> u32 {
    match header.as_slice().first_chunk::<0x4b>() {
        Some(h) if u16::from_le_bytes([h[0x15], h[0x16]]) >= 0x206 => {
            u32::from_le_bytes([h[0x47], h[0x48], h[0x49], h[0x4a]])
        }
        _ => 255,
    }
}

// Refuses a command line that is longer than the image allows.
fn check_line(path: &str, kernel: &KernelLoaderResult, line: Option<&Cmdline>) -> Result<()> {
    if let (Some(header), Some(line)) = (&kernel.setup_header, line) {
        let most = most_characters(header);
        let count = line.text().len();
        if count > most as usize {
            bail!("{path} allows {most} characters of --cmdline, which has {count}");
        }
    }
    Ok(())
}

// The first address above all that a kernel uses.
fn first_free(kernel: &KernelLoaderResult) -> u64 {
    let end = kernel.kernel_end;
    kernel.runtime_area.map_or(end, |area| end.max(area.end))
}

// Opens the initrd, if one is asked for, and refuses one that has no room above the kernel.
fn open_initrd(
    rt: &HostRuntime,
    kernel: &KernelLoaderResult,
    asked: &Asked,
) -> Result<Option<File>> {
    let Some(path) = asked.initrd else {
        return Ok(None);
    };
    let mut file = open(rt, path)?;
    if file.metadata().context(format_args!("{path}"))?.is_dir() {
        bail!("{path}: is a directory");
    }
    let size = file.size().context(format_args!("{path}"))?;
    let limit = last_low_address(asked.memory);
    if let Err(error) = initrd_address(kernel, size, GuestAddress(limit)) {
        if let LoaderError::NoRoomForInitrd = error {
            let first = first_free(kernel);
            let memory = asked.memory;
            bail!(
                "{path} does not fit: its {size} bytes have no room from {first:#x} on in {memory} MiB of memory"
            );
        }
        return Err(error).context(format_args!("{path}"))?;
    }
    Ok(Some(file))
}

fn load(
    host: &mut Host,
    memory: &GuestMemoryMmap,
    plan: KernelPlan,
    image: &mut File,
) -> Result<KernelLoaderResult> {
    if !host.holds(memory) {
        bail!("the host does not hold the memory");
    }
    Ok(plan.load(memory, host, image)?)
}

fn tell_segment(
    rt: &HostRuntime,
    host: &Host,
    memory: &GuestMemoryMmap,
    name: usize,
    segment: &Segment,
) -> Result<()> {
    let offset = segment.file_offset;
    let addr = segment.addr.0;
    let count = segment.file_size;
    let rest = segment.size.saturating_sub(count);
    let digest = digest_of(rt.alloc(), host, memory, addr, segment.size)?;
    println!(rt; "segment {name} {offset:#x} {addr:#x} {count} {rest} {digest}")?;
    Ok(())
}

// Writes the command line, if one is asked for.
fn put_line(
    rt: &HostRuntime,
    host: &mut Host,
    memory: &GuestMemoryMmap,
    kernel: &KernelLoaderResult,
    line: Option<&Cmdline>,
) -> Result<()> {
    let Some(line) = line else {
        return Ok(());
    };
    if !host.holds(memory) {
        bail!("the host does not hold the memory");
    }
    load_cmdline(memory, host, kernel, GuestAddress(CMDLINE), line)?;
    let count = line.as_slice_with_nul().len();
    println!(rt; "command line {CMDLINE:#x} {count}")?;
    Ok(())
}

// Loads the initrd, if there is one.
fn put_initrd(
    rt: &HostRuntime,
    host: &mut Host,
    memory: &GuestMemoryMmap,
    kernel: &KernelLoaderResult,
    file: Option<File>,
    limit: u64,
) -> Result<()> {
    let Some(mut file) = file else {
        return Ok(());
    };
    if !host.holds(memory) {
        bail!("the host does not hold the memory");
    }
    let segment = load_initrd(memory, host, kernel, &mut file, GuestAddress(limit))?;
    let addr = segment.addr.0;
    let count = segment.size;
    println!(rt; "initrd {addr:#x} {count}")?;
    Ok(())
}

// Prints where a kernel is entered, and where it runs.
fn tell_kernel(rt: &HostRuntime, kernel: &KernelLoaderResult) -> Result<()> {
    let entry = kernel.kernel_load.0;
    let end = kernel.kernel_end;
    println!(rt; "entry {entry:#x}, end {end:#x}")?;
    if let Some(area) = kernel.runtime_area {
        let start = area.start.0;
        let end = area.end;
        println!(rt; "run time area {start:#x}, end {end:#x}")?;
    }
    if let PvhBootCapability::PvhEntryPresent(pvh) = kernel.pvh_boot_cap {
        let pvh = pvh.0;
        println!(rt; "PVH entry {pvh:#x}")?;
    }
    Ok(())
}

fn run(rt: &HostRuntime, asked: &Asked) -> Result<()> {
    let path = asked.image;
    let mut image = open(rt, path)?;
    let plan = plan_of(rt.alloc(), &mut image, asked.offset).context(format_args!("{path}"))?;
    check_line(path, &plan.result, asked.cmdline.as_ref())?;
    check_plan(&plan, asked.memory).context(format_args!("{path} does not fit"))?;
    let initrd = open_initrd(rt, &plan.result, asked)?;
    let mut host = HostMemory::new(rt.alloc());
    let memory = memory_of(rt.alloc(), &mut host, asked.memory)?;
    let segments = plan.segments.as_slice().to_vec(rt.alloc())?;
    let kernel = load(&mut host, &memory, plan, &mut image).context(format_args!("{path}"))?;
    println!(rt;
        "segment, place in the image, guest address, bytes from the image, zeroed bytes, SHA-256"
    )?;
    for (name, segment) in segments.iter().enumerate() {
        tell_segment(rt, &host, &memory, name, segment)?;
    }
    tell_kernel(rt, &kernel)?;
    let line = asked.cmdline.as_ref();
    put_line(rt, &mut host, &memory, &kernel, line).context("command line")?;
    let limit = last_low_address(asked.memory);
    put_initrd(rt, &mut host, &memory, &kernel, initrd, limit).context("initrd")?;
    let count = dirty_pages(rt.alloc(), &host, &memory)?;
    println!(rt; "dirty pages {count}")?;
    Ok(())
}

fn main(rt: HostRuntime) -> Result<ExitCode> {
    let words: Vec<String> = env::args(&rt)?.collect(rt.alloc())?;
    let asked = match read_words(rt.alloc(), words.as_slice()) {
        Ok(asked) => asked,
        Err(error) => {
            error.print(&rt)?;
            return Ok(ExitCode::from(error.exit_code() as u8));
        }
    };
    match run(&rt, &asked) {
        Ok(()) => Ok(ExitCode::SUCCESS),
        Err(error) => {
            eprintln!(rt; "vmmem_boot: {error:#}")?;
            Ok(ExitCode::FAILURE)
        }
    }
}
