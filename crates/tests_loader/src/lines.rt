//! Command lines, and where initrds lie.

use crate::images::{BEGIN, BZ, BZ_SIZE, END, Edit, image_of, memory_of, put};
use linux_loader::{
    BzImage, Cmdline, ImageBytes, KernelLoaderResult, initrd_address, load_cmdline,
};
use std::alloc::Global;
use std::test::Fail;
use test_text::expect_text;
use vm_memory_base::{Bitmap, GuestAddress};
use vm_memory_guest::{Bytes, GuestMemory, HostMemory};

// A capacity, texts that are added (a pair where there is a value), and what is told.
type Line = (
    usize,
    &'static [(&'static str, Option<&'static str>)],
    &'static str,
);

const LINES: [Line; 16] = [
    (0, &[], "Err(InvalidCapacity)"),
    (1, &[], "''"),
    (1, &[("a", None)], "Err(TooLarge) ''"),
    (2, &[("a", None)], "Ok(()) 'a'"),
    (4, &[("a", None), ("b", None)], "Ok(()) Ok(()) 'a b'"),
    (3, &[("a", None), ("b", None)], "Ok(()) Err(TooLarge) 'a'"),
    (4, &[("a", Some("b"))], "Ok(()) 'a=b'"),
    (3, &[("a", Some("b"))], "Err(TooLarge) ''"),
    (8, &[("c", None), ("a", Some("b"))], "Ok(()) Ok(()) 'c a=b'"),
    (9, &[("a b=c", None)], "Ok(()) 'a b=c'"),
    (9, &[("a b", Some("c"))], "Err(HasSpace) ''"),
    (9, &[("a", Some("c d"))], "Err(HasSpace) ''"),
    (9, &[("a=b", Some("c"))], "Err(HasEquals) ''"),
    (9, &[("a", Some("b=c"))], "Err(HasEquals) ''"),
    (
        9,
        &[("a\t", None), ("é", None)],
        "Err(InvalidAscii) Err(InvalidAscii) ''",
    ),
    (9, &[("~", Some("\u{7f}"))], "Err(InvalidAscii) ''"),
];

fn line_of(alloc: Global, line: &Line) -> Result<String, Fail> {
    let mut cmdline = match Cmdline::new(alloc, line.0) {
        Ok(cmdline) => cmdline,
        Err(error) => return Ok(format!(in alloc; "Err({error:?})")?),
    };
    let mut told = String::new(alloc);
    for (text, value) in line.1 {
        let answer = match value {
            Some(value) => cmdline.insert(alloc, text, value),
            None => cmdline.insert_str(alloc, text),
        };
        write!(told, "{answer:?} ")?;
    }
    told.push_str("'")?;
    for byte in cmdline.text() {
        told.push(char::from(*byte))?;
    }
    told.push_str("'")?;
    Ok(told)
}

#[test]
fn texts_are_added_to_command_lines(rt: HostRuntime) -> Result<(), Fail> {
    for (number, line) in LINES.iter().enumerate() {
        expect_text(number, line_of(rt.alloc(), line)?.as_str(), line.2)?;
    }
    Ok(())
}

// Where a line of 3 bytes and its zero are written, and what is told: the answer, and the bytes there.
static PLACES: [(u64, &str); 12] = [
    (BEGIN, "Ok(()) [97, 61, 98, 0]"),
    (0x11fe, "Ok(()) [97, 61, 98, 0]"),
    (END - 4, "Ok(()) [97, 61, 98, 0]"),
    (
        END - 3,
        "Err(GuestMemory(PartialBuffer { expected: 4, completed: 3 })) [97, 61, 98, 0]",
    ),
    (
        END,
        "Err(GuestMemory(InvalidGuestAddress(GuestAddress(5120)))) [0, 0, 0, 0]",
    ),
    (
        0xffff_ffff_ffff_fffc,
        "Err(GuestMemory(InvalidGuestAddress(GuestAddress(18446744073709551612)))) [0, 0, 0, 0]",
    ),
    (
        0xffff_ffff_ffff_fffd,
        "Err(CommandLineOverflow) [0, 0, 0, 0]",
    ),
    // Before, over and after where the kernel runs, from 0x1100 to 0x1110.
    (0x10fc, "Ok(()) [97, 61, 98, 0]"),
    (0x10fd, "Err(RuntimeAreaOverlap) [0, 0, 0, 0]"),
    (0x1104, "Err(RuntimeAreaOverlap) [0, 0, 0, 0]"),
    (0x110f, "Err(RuntimeAreaOverlap) [0, 0, 0, 0]"),
    (0x1110, "Ok(()) [97, 61, 98, 0]"),
];

fn placed<M: GuestMemory, B: Bitmap>(
    alloc: Global,
    host: &mut HostMemory<B>,
    memory: &M,
    kernel: &KernelLoaderResult,
    addr: u64,
) -> Result<String, Fail> {
    let mut cmdline = Cmdline::new(alloc, 4)?;
    cmdline.insert(alloc, "a", "b")?;
    if !host.holds(memory) {
        return Err(Fail::new("the host does not hold the memory"));
    }
    let answer = load_cmdline(memory, host, kernel, GuestAddress(addr), &cmdline);
    let mut bytes = [0; 4];
    let _ = memory.read(host, &mut bytes, GuestAddress(addr));
    Ok(format!(in alloc; "{answer:?} {bytes:?}")?)
}

#[test]
fn command_lines_are_written(rt: HostRuntime) -> Result<(), Fail> {
    let bytes = image_of(rt.alloc(), BZ_SIZE, &BZ)?;
    let mut image = ImageBytes::new(bytes.as_slice());
    let plan = BzImage::plan(rt.alloc(), None, &mut image, None)?;
    for (number, (addr, wanted)) in PLACES.iter().enumerate() {
        let mut host = HostMemory::new(rt.alloc());
        let memory = memory_of(rt.alloc(), &mut host)?;
        let told = placed(rt.alloc(), &mut host, &memory, &plan.result, *addr)?;
        expect_text(number, told.as_str(), wanted)?;
    }
    Ok(())
}

// An address, how many bytes, and whether they may have parameters for a kernel that runs from 0x1100 to 0x1110.
static OUTSIDE: [(u64, u64, &str); 9] = [
    (0x10ff, 1, "Ok(())"),
    (0x10ff, 2, "Err(RuntimeAreaOverlap)"),
    (0x1100, 0, "Ok(())"),
    (0x1100, 1, "Err(RuntimeAreaOverlap)"),
    (0x110f, 1, "Err(RuntimeAreaOverlap)"),
    (0x110f, u64::MAX, "Err(RuntimeAreaOverlap)"),
    (0x1110, 1, "Ok(())"),
    (0x1110, u64::MAX, "Ok(())"),
    (0, u64::MAX, "Err(RuntimeAreaOverlap)"),
];

#[test]
fn boot_parameters_lie_outside(rt: HostRuntime) -> Result<(), Fail> {
    let bytes = image_of(rt.alloc(), BZ_SIZE, &BZ)?;
    let mut image = ImageBytes::new(bytes.as_slice());
    let plan = BzImage::plan(rt.alloc(), None, &mut image, None)?;
    for (number, (addr, size, wanted)) in OUTSIDE.iter().enumerate() {
        let answer = plan.result.check_outside(GuestAddress(*addr), *size);
        expect_text(
            number,
            format!(in rt.alloc(); "{answer:?}")?.as_str(),
            wanted,
        )?;
    }
    Ok(())
}

// Edits of the small bzImage, how many bytes an initrd has, a limit, and where it lies. The kernel ends at 0x1208, or
// where `init_size` says.
static INITRDS: [(&[Edit], u64, u64, &str); 31] = [
    (&[], 0, 0xffff_ffff, "Err(EmptyInitrd)"),
    (&[], 1, 0xffff, "Ok(GuestAddress(61440))"),
    (&[], 4096, 0xffff, "Ok(GuestAddress(61440))"),
    (&[], 4097, 0xffff, "Ok(GuestAddress(57344))"),
    (&[], 4096, 0xfffe, "Ok(GuestAddress(57344))"),
    // The page before the end of the kernel is its own.
    (&[], 0x1000, 0x2fff, "Ok(GuestAddress(8192))"),
    (&[], 0x1001, 0x2fff, "Err(NoRoomForInitrd)"),
    (&[], 0x1_0001, 0xffff, "Err(NoRoomForInitrd)"),
    (&[], u64::MAX, u64::MAX, "Err(NoRoomForInitrd)"),
    // The greatest address that the header tells.
    (&[], 0x1000, u64::MAX, "Ok(GuestAddress(2147479552))"),
    (
        &[(0x206, 2, 0x202)],
        0x1000,
        u64::MAX,
        "Ok(GuestAddress(939520000))",
    ),
    (
        &[(0x206, 2, 0x203)],
        0x1000,
        u64::MAX,
        "Ok(GuestAddress(2147479552))",
    ),
    // The end that the header tells, from version 2.10 on.
    (
        &[(0x260, 4, 0xff00)],
        0x1000,
        0x1_1fff,
        "Ok(GuestAddress(69632))",
    ),
    (
        &[(0x260, 4, 0xff01)],
        0x1000,
        0x1_1fff,
        "Err(NoRoomForInitrd)",
    ),
    (
        &[(0x260, 4, 0x10_0000), (0x206, 2, 0x209)],
        0x1000,
        0x2fff,
        "Ok(GuestAddress(8192))",
    ),
    // Debian's kernel 6.1 for machines runs from 0x1000000 to 0x4f98000.
    (&MACHINE, 0x15_f000, 0x4ff_ffff, "Err(NoRoomForInitrd)"),
    (&MACHINE, 0x6_8000, 0x4ff_ffff, "Ok(GuestAddress(83460096))"),
    (&MACHINE, 0x6_8001, 0x4ff_ffff, "Err(NoRoomForInitrd)"),
    // Its kernel for clouds from 0x1000000 to 0x4378000.
    (&CLOUD, 0x8_8000, 0x43f_ffff, "Ok(GuestAddress(70746112))"),
    (&CLOUD, 0x8_8001, 0x43f_ffff, "Err(NoRoomForInitrd)"),
    // Loaded elsewhere they run at the next multiple of 0x200000, from 0x1000000 on.
    (
        &LOADED_HIGH,
        0x1000,
        0x619_8fff,
        "Ok(GuestAddress(102334464))",
    ),
    (&LOADED_HIGH, 0x1000, 0x619_8ffe, "Err(NoRoomForInitrd)"),
    // An image for 0x1000000 to 0x3000000 that does not move itself, and one that may run anywhere from there on.
    (&FIXED, 0x140_0000, 0x3ff_ffff, "Err(NoRoomForInitrd)"),
    (&FIXED, 0x100_0000, 0x3ff_ffff, "Ok(GuestAddress(50331648))"),
    (&MOVED, 0x140_0000, 0x3ff_ffff, "Err(NoRoomForInitrd)"),
    (&MOVED, 0x100_0000, 0x3ff_ffff, "Ok(GuestAddress(50331648))"),
    // What no kernel may ask for.
    (
        &[(0x234, 1, 1), (0x230, 4, 0)],
        1,
        0xffff,
        "InvalidKernelAlignment",
    ),
    (
        &[(0x234, 1, 1), (0x230, 4, 0x30)],
        1,
        0xffff,
        "InvalidKernelAlignment",
    ),
    (
        &[(0x234, 1, 1), (0x258, 8, 0xffff_ffff_ffff_fff1)],
        1,
        0xffff,
        "RuntimeAreaOverflow",
    ),
    (
        &[(0x258, 8, 0xffff_ffff_ffff_fff0)],
        1,
        0xffff,
        "RuntimeAreaOverflow",
    ),
    (
        &[(0x258, 8, 0xffff_ffff_ffff_ffef)],
        1,
        0xffff,
        "Err(NoRoomForInitrd)",
    ),
];

// The headers of Debian's packages linux-image-amd64 and linux-image-cloud-amd64, of version 2.15.
const MACHINE: [Edit; 5] = [
    (0x214, 4, 0x10_0000),
    (0x230, 4, 0x20_0000),
    (0x234, 1, 1),
    (0x258, 8, 0x100_0000),
    (0x260, 4, 0x3f9_8000),
];

const CLOUD: [Edit; 5] = [
    (0x214, 4, 0x10_0000),
    (0x230, 4, 0x20_0000),
    (0x234, 1, 1),
    (0x258, 8, 0x100_0000),
    (0x260, 4, 0x337_8000),
];

const LOADED_HIGH: [Edit; 5] = [
    (0x214, 4, 0x210_0000),
    (0x230, 4, 0x20_0000),
    (0x234, 1, 1),
    (0x258, 8, 0x100_0000),
    (0x260, 4, 0x3f9_8000),
];

const MOVED: [Edit; 5] = [
    (0x214, 4, 0x10_0000),
    (0x230, 4, 0x20_0000),
    (0x234, 1, 1),
    (0x258, 8, 0x100_0000),
    (0x260, 4, 0x200_0000),
];

const FIXED: [Edit; 3] = [
    (0x214, 4, 0x10_0000),
    (0x258, 8, 0x100_0000),
    (0x260, 4, 0x200_0000),
];

fn lies(alloc: Global, edits: &[Edit], size: u64, limit: u64) -> Result<String, Fail> {
    let mut bytes = image_of(alloc, BZ_SIZE, &BZ)?;
    for edit in edits {
        put(&mut bytes, *edit);
    }
    let mut image = ImageBytes::new(bytes.as_slice());
    match BzImage::plan(alloc, None, &mut image, None) {
        Ok(plan) => {
            let place = initrd_address(&plan.result, size, GuestAddress(limit));
            Ok(format!(in alloc; "{place:?}")?)
        }
        Err(error) => Ok(format!(in alloc; "{error:?}")?),
    }
}

#[test]
fn initrds_lie_at_the_highest_page(rt: HostRuntime) -> Result<(), Fail> {
    for (number, (edits, size, limit, wanted)) in INITRDS.iter().enumerate() {
        let told = lies(rt.alloc(), edits, *size, *limit)?;
        expect_text(number, told.as_str(), wanted)?;
    }
    Ok(())
}
