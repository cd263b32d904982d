//! Images in files past 2^31, 2^32 and 2^40 bytes, most of which are holes.

use crate::images::{BEFORE, ELF, ELF_SIZE, bytes_of, fill, image_of, memory_of, put};
use linux_loader::{Elf, KernelImage};
use std::alloc::Global;
use std::fs::{self, File};
use std::io::{Seek, SeekFrom, Write};
use std::test::Fail;
use vm_memory_base::{Bitmap, ReadVolatile, VolatileMemoryResult};
use vm_memory_guest::{GuestMemory, HostMemory};

// Where four bytes that are the case's number lie, after which a file ends.
const PLACES: [u64; 9] = [
    0,
    0x7fff_fffc,
    0x7fff_fffe,
    0x8000_0000,
    0xc000_0000,
    0xffff_fffc,
    0xffff_fffe,
    0x1_0000_0000,
    0x100_0000_0000,
];

fn byte_of(case: usize) -> u8 {
    (case % 100) as u8 + 1
}

// Makes a file of so many bytes with four at its end.
fn file_of(rt: &HostRuntime, case: usize, place: u64) -> Result<File, Fail> {
    fs::write(rt, "image", [].as_slice())?;
    let mut file = File::options().read(true).write(true).open(rt, "image")?;
    file.seek(SeekFrom::Start(place))?;
    file.write_all(&[byte_of(case); 4])?;
    Ok(file)
}

// The size of an image, the four bytes at a place, and those that are read next after it stands there.
fn seen<I: KernelImage>(
    image: &mut I,
    place: u64,
) -> VolatileMemoryResult<(u64, [u8; 4], [u8; 4])> {
    let size = image.size()?;
    let (mut bytes, mut next) = ([0; 4], [0; 4]);
    image.read_at(place, &mut bytes)?;
    image.seek_to(place)?;
    image.read_volatile(&mut next)?;
    Ok((size, bytes, next))
}

#[test]
fn images_in_large_files(rt: HostRuntime) -> Result<(), Fail> {
    for (case, place) in PLACES.iter().enumerate() {
        let mut file = file_of(&rt, case, *place)?;
        let four = [byte_of(case); 4];
        let size = place.saturating_add(4);
        let (len, bytes, next) = seen(&mut file, *place)?;
        assert!(rt;
            len == size && bytes == four && next == four,
            "case {case}: {len} {bytes:?} {next:?}"
        );
        // One byte more than the image has.
        assert!(rt;
            file.read_at(place.saturating_add(1), &mut [0; 4]).is_err(),
            "case {case}"
        );
        // A hole, which is full of zeros.
        if *place >= 4 {
            let (_, bytes, next) = seen(&mut file, place.saturating_sub(4))?;
            assert!(rt;
                bytes == [0; 4] && next == [0; 4],
                "case {case}: {bytes:?} {next:?}"
            );
        }
    }
    Ok(())
}

// Where the first segment of an ELF file begins in the file.
const FAR: [u64; 4] = [0x8000_0000, 0xffff_fff0, 0x1_0000_0000, 0x100_0000_0001];

// A small ELF file whose first segment has 32 bytes that lie far off.
fn elf_of(rt: &HostRuntime, place: u64) -> Result<File, Fail> {
    let mut header = image_of(rt.alloc(), ELF_SIZE, &ELF)?;
    put(&mut header, (72, 8, place));
    fs::write(rt, "elf", header.as_slice())?;
    let mut file = File::options().read(true).write(true).open(rt, "elf")?;
    file.seek(SeekFrom::Start(place))?;
    file.write_all(&[77; 32])?;
    Ok(file)
}

// Loads an image, and returns the bytes of memory then.
fn loaded<I: KernelImage, M: GuestMemory, B: Bitmap>(
    alloc: Global,
    host: &mut HostMemory<B>,
    memory: &M,
    image: &mut I,
) -> Result<Vec<u8>, Fail> {
    fill(alloc, host, memory)?;
    if !host.holds(memory) {
        return Err(Fail::new("the host does not hold the memory"));
    }
    Elf::load(alloc, memory, host, None, image, None)?;
    bytes_of(alloc, host, memory)
}

#[test]
fn segments_far_off_in_files(rt: HostRuntime) -> Result<(), Fail> {
    for place in FAR {
        let mut file = elf_of(&rt, place)?;
        let mut host = HostMemory::new(rt.alloc());
        let memory = memory_of(rt.alloc(), &mut host)?;
        let bytes = loaded(rt.alloc(), &mut host, &memory, &mut file)?;
        // The segment is loaded at 0x1100, and memory begins at 0x1000.
        let (before, after) = (bytes.get(0xff), bytes.get(0x120));
        assert!(rt;
            bytes.get(0x100..0x120) == Some([77; 32].as_slice())
                && before == Some(&BEFORE)
                && after == Some(&BEFORE),
            "{place:#x}: {bytes:?}"
        );
    }
    Ok(())
}
