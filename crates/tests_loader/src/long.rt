//! Long command lines, and notes as long as they may be.

use crate::images::{ELF, ELF_SIZE, image_of, put};
use linux_loader::{Cmdline, CmdlineError, Elf, ImageBytes, KernelImage, PvhBootCapability};
use std::alloc::Global;
use std::fs::{self, File};
use std::test::Fail;
use vm_memory_base::GuestAddress;

// So many times a character.
fn text_of(alloc: Global, character: char, count: usize) -> Result<String, Fail> {
    let mut text = String::new(alloc);
    for _ in 0..count {
        text.push(character)?;
    }
    Ok(text)
}

// A line is filled by a text, or by a key and a value, and takes no more.
fn expect_filled(alloc: Global, count: usize) -> Result<(), Fail> {
    let text = text_of(alloc, 'a', count)?;
    let mut line = Cmdline::new(alloc, count.saturating_add(1))?;
    line.insert_str(alloc, text.as_str())?;
    let all = line.as_slice_with_nul();
    if line.text() != text.as_bytes() || all.len() != count.saturating_add(1) {
        return Err(Fail::new(format_args!("{} bytes of {count}", all.len())));
    }
    if line.insert_str(alloc, "b") != Err(CmdlineError::TooLarge) {
        return Err(Fail::new(format_args!("more than {count} bytes")));
    }
    let mut line = Cmdline::new(alloc, count.saturating_mul(2).saturating_add(5))?;
    line.insert_str(alloc, "c")?;
    line.insert(alloc, text.as_str(), text.as_str())?;
    let wanted = format!(in alloc; "c {text}={text}")?;
    if line.text() != wanted.as_bytes() {
        return Err(Fail::new(format_args!("another line of {count}")));
    }
    if line.insert(alloc, "d", "") != Err(CmdlineError::TooLarge) {
        return Err(Fail::new(format_args!("more than a pair of {count} bytes")));
    }
    Ok(())
}

#[test]
fn long_command_lines(rt: HostRuntime) -> Result<(), Fail> {
    for count in [
        1, 63, 64, 255, 256, 2047, 2048, 4095, 4096, 65_535, 65_536, 0x10_0001,
    ] {
        expect_filled(rt.alloc(), count)?;
    }
    // Capacities that no line fills.
    for capacity in [
        0x7fff_ffff,
        0x8000_0000,
        0xffff_ffff,
        0x1_0000_0001,
        usize::MAX,
    ] {
        let mut line = Cmdline::new(rt.alloc(), capacity)?;
        line.insert(rt.alloc(), "a", "b")?;
        line.insert_str(rt.alloc(), "c")?;
        assert!(rt; line.text() == b"a=b c".as_slice(), "{capacity:#x}");
    }
    Ok(())
}

const ENTRY: u64 = 0x1234_5678;

// The small ELF file with so many bytes of notes at its end: one of another kind that fills them, and that of the
// entry.
fn file_of(alloc: Global, count: u64) -> Result<Vec<u8>, Fail> {
    let start = ELF_SIZE as u64;
    let mut file = image_of(alloc, ELF_SIZE.saturating_add(count as usize), &ELF)?;
    let last = ELF_SIZE.saturating_add(count as usize).saturating_sub(20);
    for edit in [
        (240, 8, start),
        (264, 8, count),
        // No name, and what lies between its header and the last note.
        (ELF_SIZE, 4, 0),
        (ELF_SIZE.wrapping_add(4), 4, count.saturating_sub(32)),
        (ELF_SIZE.wrapping_add(8), 4, 1),
        // "Xen" and the entry, in four bytes each.
        (last, 4, 4),
        (last.wrapping_add(4), 4, 4),
        (last.wrapping_add(8), 4, 18),
        (last.wrapping_add(12), 4, 0x006e_6558),
        (last.wrapping_add(16), 4, ENTRY),
    ] {
        put(&mut file, edit);
    }
    Ok(file)
}

fn expect_entry<I: KernelImage>(alloc: Global, image: &mut I, count: u64) -> Result<(), Fail> {
    match Elf::plan(alloc, None, image, None) {
        Ok(plan) => {
            let wanted = PvhBootCapability::PvhEntryPresent(GuestAddress(ENTRY));
            if plan.result.pvh_boot_cap == wanted {
                return Ok(());
            }
            let told = plan.result.pvh_boot_cap;
            Err(Fail::new(format_args!("{count} bytes: {told:?}")))
        }
        Err(error) => Err(Fail::new(format_args!("{count} bytes: {error:?}"))),
    }
}

// In memory, and in a file.
#[test]
fn long_notes(rt: HostRuntime) -> Result<(), Fail> {
    for count in [32, 512, 4096, 4100, 8192, 32_768, 65_532, 65_536] {
        let bytes = file_of(rt.alloc(), count)?;
        let mut image = ImageBytes::new(bytes.as_slice());
        expect_entry(rt.alloc(), &mut image, count)?;
        fs::write(&rt, "notes", bytes.as_slice())?;
        expect_entry(rt.alloc(), &mut File::open(&rt, "notes")?, count)?;
    }
    Ok(())
}
