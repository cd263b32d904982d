//! ELF files of many program headers, and of long segments.

use crate::images::{ELF, image_of, put};
use linux_loader::{Elf, ImageBytes, KernelImage};
use std::alloc::Global;
use std::fs::{self, File};
use std::test::Fail;

// A file of so many program headers. Each is of a segment of its first byte, at every 16th address from 0x1100 on.
fn file_of(alloc: Global, count: usize) -> Result<Vec<u8>, Fail> {
    let mut file = image_of(alloc, count.saturating_mul(56).saturating_add(64), &ELF)?;
    put(&mut file, (56, 2, count as u64));
    for i in 0..count {
        let at = i.wrapping_mul(56).wrapping_add(64);
        let address = (i as u64).wrapping_mul(16).wrapping_add(0x1100);
        for (place, size, value) in [
            (0, 4, 1),
            (8, 8, 0),
            (24, 8, address),
            (32, 8, 1),
            (40, 8, 1),
        ] {
            put(&mut file, (at.wrapping_add(place), size, value));
        }
    }
    Ok(file)
}

// Fails where an image does not have so many segments, each at its place.
fn expect_segments<I: KernelImage>(alloc: Global, image: &mut I, count: usize) -> Result<(), Fail> {
    let plan = match Elf::plan(alloc, None, image, None) {
        Ok(plan) => plan,
        Err(error) => return Err(Fail::new(format_args!("{count}: {error:?}"))),
    };
    let segments = plan.segments.as_slice();
    if segments.len() != count {
        return Err(Fail::new(format_args!("{} of {count} segments", segments.len())));
    }
    for (i, segment) in segments.iter().enumerate() {
        let address = (i as u64).wrapping_mul(16).wrapping_add(0x1100);
        if segment.addr.0 != address || segment.size != 1 {
            return Err(Fail::new(format_args!("segment {i} of {count}: {segment:?}")));
        }
    }
    Ok(())
}

// In memory, and in a file.
#[test]
fn many_program_headers(rt: HostRuntime) -> Result<(), Fail> {
    for count in [1, 16, 17, 64, 65, 73, 74, 300, 512, 513, 65_534] {
        let bytes = file_of(rt.alloc(), count)?;
        let mut image = ImageBytes::new(bytes.as_slice());
        expect_segments(rt.alloc(), &mut image, count)?;
        fs::write(&rt, "headers", bytes.as_slice())?;
        expect_segments(rt.alloc(), &mut File::open(&rt, "headers")?, count)?;
    }
    Ok(())
}

// Segments of many bytes in memory, of which one comes from the file.
#[test]
fn long_segments(rt: HostRuntime) -> Result<(), Fail> {
    for size in [
        0x7fff_ffff,
        0x8000_0000,
        0xffff_ffff,
        0x1_0000_0000,
        0x100_0000_0000,
        0x8000_0000_0000_0000u64,
    ] {
        let mut file = file_of(rt.alloc(), 2)?;
        // The second header begins at 120, and its segment at 0x1110.
        put(&mut file, (160, 8, size));
        let mut image = ImageBytes::new(file.as_slice());
        let plan = Elf::plan(rt.alloc(), None, &mut image, None)?;
        let end = plan.result.kernel_end;
        let last = plan
            .segments
            .as_slice()
            .last()
            .map_or(0, |segment| segment.size);
        assert!(rt;
            last == size && end == size.wrapping_add(0x1110),
            "{size:#x}: {last:#x} {end:#x}"
        );
    }
    Ok(())
}
