//! Small images, edits of them, and memory to load them to.

use linux_loader::{KernelLoaderResult, LoaderError, PvhBootCapability};
use std::alloc::{AllocError, Global};
use std::test::Fail;
use vm_memory_base::{Bitmap, ExclusiveBitmap, GuestAddress, Permissions};
use vm_memory_guest::{Bytes, GuestMemory, GuestMemoryMmap, HostMemory};

pub type Host = HostMemory<ExclusiveBitmap>;

/// Where memory begins, where its two regions touch, and where it ends.
pub const BEGIN: u64 = 0x1000;

pub const MIDDLE: u64 = 0x1200;

pub const END: u64 = 0x1400;

/// What stands in each byte of memory before a load.
pub const BEFORE: u8 = 0xaa;

/// An edit: this many bytes from a place on become those of a number, the lowest first.
pub type Edit = (usize, usize, u64);

/// Puts the lowest bytes of a number at a place.
pub fn put(bytes: &mut Vec<u8>, (at, count, value): Edit) {
    let mut rest = value;
    for i in 0..count {
        if let Some(byte) = bytes.get_mut(at.wrapping_add(i)) {
            *byte = (rest & 0xff) as u8;
        }
        rest >>= 8;
    }
}

/// This many bytes that depend on their place, with edits.
pub fn image_of(alloc: Global, len: usize, edits: &[Edit]) -> Result<Vec<u8>, AllocError> {
    let mut bytes = Vec::new(alloc);
    for i in 0..len {
        bytes.push((i % 251) as u8)?;
    }
    for edit in edits {
        put(&mut bytes, *edit);
    }
    Ok(bytes)
}

/// How many bytes the small ELF file has.
pub const ELF_SIZE: usize = 0x188;

/// The small ELF file: a header, and program headers of three segments and of notes. One segment is cut across two
/// regions, and one has a rest to be zeroed.
pub const ELF: [Edit; 32] = [
    (0, 8, 0x0001_0102_464c_457f),
    (8, 8, 0),
    (16, 2, 2),
    (18, 2, 62),
    (20, 4, 1),
    (24, 8, 0x1100),
    (32, 8, 64),
    (52, 2, 64),
    (54, 2, 56),
    (56, 2, 4),
    (64, 4, 1),
    (72, 8, 0x120),
    (88, 8, 0x1100),
    (96, 8, 0x20),
    (104, 8, 0x20),
    (120, 4, 1),
    (128, 8, 0x140),
    (144, 8, 0x11f0),
    (152, 8, 0x20),
    (160, 8, 0x20),
    (176, 4, 1),
    (184, 8, 0x160),
    (200, 8, 0x1300),
    (208, 8, 0x10),
    (216, 8, 0x40),
    (232, 4, 4),
    (240, 8, 0x170),
    (264, 8, 0x18),
    (280, 8, 4),
    (0x170, 8, 0x0000_0008_0000_0004),
    (0x178, 8, 0x006e_6558_0000_0012),
    (0x180, 8, 0x1308),
];

/// How many bytes the small bzImage has.
pub const BZ_SIZE: usize = 0x410;

/// The small bzImage: a boot sector, one sector of setup code and a kernel of 16 bytes, loaded at 0x11f8. It moves
/// itself to run at 0x1100, and needs 16 bytes there.
pub const BZ: [Edit; 11] = [
    (0x1f1, 1, 1),
    (0x201, 1, 0x66),
    (0x202, 4, 0x5372_6448),
    (0x206, 2, 0x20f),
    (0x211, 1, 1),
    (0x214, 4, 0x11f8),
    (0x22c, 4, 0x7fff_ffff),
    (0x230, 4, 0x10),
    (0x234, 1, 0),
    (0x258, 8, 0x1100),
    (0x260, 4, 0x10),
];

/// Memory of two regions.
pub fn memory_of(alloc: Global, host: &mut Host) -> Result<GuestMemoryMmap, Fail> {
    let ranges = [
        (GuestAddress(BEGIN), (MIDDLE - BEGIN) as usize),
        (GuestAddress(MIDDLE), (END - MIDDLE) as usize),
    ];
    Ok(GuestMemoryMmap::from_ranges(alloc, host, &ranges)?)
}

/// Makes each byte of memory what it is before a load.
pub fn fill<M: GuestMemory, B: Bitmap>(
    alloc: Global,
    host: &mut HostMemory<B>,
    memory: &M,
) -> Result<(), Fail> {
    if !host.holds(memory) {
        return Err(Fail::new("the host does not hold the memory"));
    }
    let bytes = vec![in alloc; BEFORE; (END - BEGIN) as usize]?;
    memory.write_slice(host, bytes.as_slice(), GuestAddress(BEGIN))?;
    Ok(())
}

/// All bytes of memory.
pub fn bytes_of<M: GuestMemory, B: Bitmap>(
    alloc: Global,
    host: &HostMemory<B>,
    memory: &M,
) -> Result<Vec<u8>, Fail> {
    if !host.holds(memory) {
        return Err(Fail::new("the host does not hold the memory"));
    }
    let mut bytes = vec![in alloc; 0u8; (END - BEGIN) as usize]?;
    memory.read_slice(host, bytes.as_mut_slice(), GuestAddress(BEGIN))?;
    Ok(bytes)
}

/// What a loader returns, as text.
pub fn told(
    alloc: Global,
    answer: &Result<KernelLoaderResult, LoaderError>,
) -> Result<String, Fail> {
    match answer {
        Ok(loaded) => {
            let load = loaded.kernel_load.0;
            let end = loaded.kernel_end;
            match loaded.pvh_boot_cap {
                PvhBootCapability::PvhEntryPresent(entry) => {
                    let pvh = entry.0;
                    Ok(format!(in alloc; "load {load:#x} end {end:#x} pvh {pvh:#x}")?)
                }
                PvhBootCapability::PvhEntryNotPresent => {
                    Ok(format!(in alloc; "load {load:#x} end {end:#x}")?)
                }
            }
        }
        Err(error) => Ok(format!(in alloc; "{error:?}")?),
    }
}
