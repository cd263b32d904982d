//! INVALIDATEs at the ends of the address space, and malformed ones.

use crate::payloads::{Parts, payload_of};
use crate::worlds::{FIRST, World, is_done, make_world, mapped};
use std::alloc::Global;
use std::test::Fail;
use test_text::expect_text;

const MAX: u64 = u64::MAX;

// What is mapped before a message comes: the first page, one below 2^32, where Linux hands out I/O addresses from the
// top down, and the last page but for the last address, which no UPDATE maps.
const PAGES: [(u64, u64); 3] = [
    (0, 0x1000),
    (0xffff_d000, 0x1000),
    (0xffff_ffff_ffff_f000, 0xfff),
];

// A byte of each of these pages, and one more of the first page.
const PLACES: [u64; 4] = [0, 1, 0xffff_dfff, MAX - 1];

// An INVALIDATE, whether it is done, and which bytes are mapped then.
static CASES: [(u64, u64, bool, &str); 20] = [
    // Those of QEMU for all addresses but those of interrupts.
    (0, 0xfee0_0000, true, "..mm"),
    (0xfef0_0000, 0xffff_ffff_0110_0000, true, "mm.."),
    // Up to the last address but one, and up to the last.
    (0xfef0_0000, 0xffff_ffff_010f_ffff, true, "mm.."),
    (0xffff_e000, 0xffff_ffff_0000_2000, true, "mmm."),
    (0xffff_d000, 0x1000, true, "mm.m"),
    (0xffff_ffff_ffff_f000, 0xfff, true, "mmm."),
    (0xffff_ffff_ffff_f000, 0x1000, true, "mmm."),
    (MAX - 1, 1, true, "mmm."),
    (MAX - 1, 2, true, "mmm."),
    (MAX, 1, true, "mmmm"),
    // All addresses, by three spellings, and all but the first.
    (0, MAX, true, "...."),
    (0, 0, true, "...."),
    (1, MAX, true, "m..."),
    // No addresses, or some past the last one: refused, and everything is invalidated.
    (1, 0, false, "...."),
    (0xffff_d000, 0, false, "...."),
    (MAX, 0, false, "...."),
    (2, MAX, false, "...."),
    (MAX, 2, false, "...."),
    (0xffff_ffff_ffff_f000, 0x1001, false, "...."),
    (MAX, MAX, false, "...."),
];

// Messages that are refused and unmap nothing: the range, the permissions and the kind.
static OTHERS: [((u64, u64), u8, u8); 5] = [
    // UPDATEs up to the last address, past it, and of nothing.
    ((0xffff_ffff_ffff_f000, 0x1000), 3, 2),
    ((0xffff_d000, MAX), 3, 2),
    ((0, 0), 3, 2),
    // Other kinds.
    ((0, 0), 3, 1),
    ((0, 0), 3, 5),
];

// What QEMU sends for a guest that runs its IOMMU lazily: a page near 2^32 is mapped, and all addresses but those of
// interrupts are invalidated in two messages. Each has its range, its user address, its permissions, its kind, and
// which bytes are mapped after it.
static LAZY: [((u64, u64), u64, u8, u8, &str); 3] = [
    ((0xffff_d000, 0x1000), 0x7fff_0000_0000, 3, 2, "..m."),
    ((0, 0xfee0_0000), 0, 0, 3, "..m."),
    ((0xfef0_0000, 0xffff_ffff_0110_0000), 0, 0, 3, "...."),
];

// Which of the bytes are mapped.
fn mapped_bytes(alloc: Global, world: &World) -> Result<String, Fail> {
    let mut text = String::new(alloc);
    for iova in PLACES {
        let is_mapped = mapped(&world.host, world.table.table, iova).is_some();
        text.push_str(if is_mapped { "m" } else { "." })?;
    }
    Ok(text)
}

// Makes a message of a payload's fields to the pages in a table of this limit. Returns whether it was done, and which
// bytes are mapped then.
fn run(alloc: Global, limit: usize, parts: Parts) -> Result<(bool, String), Fail> {
    let mut world = make_world(alloc, limit)?;
    for (iova, size) in PAGES {
        let page = Parts {
            iova,
            size,
            user: FIRST,
            permissions: 3,
            kind: 2,
        };
        if !is_done(&mut world, &payload_of(alloc, page)?) {
            return Err(Fail::new("a page is not mapped"));
        }
    }
    let is_done = is_done(&mut world, &payload_of(alloc, parts)?);
    Ok((is_done, mapped_bytes(alloc, &world)?))
}

#[test]
fn invalidates_end_at_the_last_address(rt: HostRuntime) -> Result<(), Fail> {
    let alloc = rt.alloc();
    for (case, (iova, size, done, wanted)) in CASES.iter().enumerate() {
        let parts = Parts {
            iova: *iova,
            size: *size,
            user: 5,
            permissions: 0,
            kind: 3,
        };
        for limit in [3, 64] {
            let (is_done, mapped) = run(alloc, limit, parts)?;
            expect_text(case, mapped.as_str(), wanted)?;
            assert!(rt; is_done == *done, "{iova:x}, {size:x}");
        }
    }
    Ok(())
}

#[test]
fn other_messages_unmap_nothing(rt: HostRuntime) -> Result<(), Fail> {
    for (case, ((iova, size), permissions, kind)) in OTHERS.iter().enumerate() {
        let parts = Parts {
            iova: *iova,
            size: *size,
            user: FIRST,
            permissions: *permissions,
            kind: *kind,
        };
        let (is_done, mapped) = run(rt.alloc(), 64, parts)?;
        expect_text(case, mapped.as_str(), "mmmm")?;
        assert!(rt; !is_done, "message {case}");
    }
    Ok(())
}

#[test]
fn messages_of_qemu(rt: HostRuntime) -> Result<(), Fail> {
    let alloc = rt.alloc();
    let mut world = make_world(alloc, 64)?;
    for (case, ((iova, size), user, permissions, kind, wanted)) in LAZY.iter().enumerate() {
        let parts = Parts {
            iova: *iova,
            size: *size,
            user: *user,
            permissions: *permissions,
            kind: *kind,
        };
        assert!(rt;
            is_done(&mut world, &payload_of(alloc, parts)?),
            "message {case}"
        );
        expect_text(case, mapped_bytes(alloc, &world)?.as_str(), wanted)?;
    }
    Ok(())
}
