//! Windows: parts and views of them, and access to their bytes.

use crate::accesses::{Access, expect_accesses};
use crate::cells::Cells;
use std::test::Fail;
use test_regions::window_of;
use test_text::expect_text;
use vm_memory_guest::{Bytes, HostMemory, VolatileMemory};

// Of a window of 8 bytes at 0x10, by an offset and a number: how long a u32 there is, how many of so many u16 from
// there on, where so many bytes end, how long the parts on both sides are, how long the rest is from the offset on,
// and how long a part of so many bytes is.
const VIEWS: [(usize, usize, [&str; 6]); 10] = [
    (
        3,
        2,
        ["Ok(4)", "Ok(2)", "Ok(5)", "Ok((3, 5))", "Ok(5)", "Ok(2)"],
    ),
    (
        4,
        2,
        ["Ok(4)", "Ok(2)", "Ok(6)", "Ok((4, 4))", "Ok(4)", "Ok(2)"],
    ),
    (
        4,
        4,
        [
            "Ok(4)",
            "Err(OutOfBounds { addr: 12 })",
            "Ok(8)",
            "Ok((4, 4))",
            "Ok(4)",
            "Ok(4)",
        ],
    ),
    (
        4,
        5,
        [
            "Ok(4)",
            "Err(OutOfBounds { addr: 14 })",
            "Err(OutOfBounds { addr: 9 })",
            "Ok((4, 4))",
            "Ok(4)",
            "Err(OutOfBounds { addr: 9 })",
        ],
    ),
    (
        5,
        2,
        [
            "Err(OutOfBounds { addr: 9 })",
            "Err(OutOfBounds { addr: 9 })",
            "Ok(7)",
            "Ok((5, 3))",
            "Ok(3)",
            "Ok(2)",
        ],
    ),
    (
        8,
        0,
        [
            "Err(OutOfBounds { addr: 12 })",
            "Ok(0)",
            "Ok(8)",
            "Ok((8, 0))",
            "Ok(0)",
            "Ok(0)",
        ],
    ),
    (
        9,
        0,
        [
            "Err(OutOfBounds { addr: 13 })",
            "Err(OutOfBounds { addr: 9 })",
            "Err(OutOfBounds { addr: 9 })",
            "Err(OutOfBounds { addr: 25 })",
            "Err(OutOfBounds { addr: 25 })",
            "Err(OutOfBounds { addr: 9 })",
        ],
    ),
    (
        usize::MAX,
        1,
        [
            "Err(Overflow { base: 18446744073709551615, offset: 4 })",
            "Err(Overflow { base: 18446744073709551615, offset: 2 })",
            "Err(Overflow { base: 18446744073709551615, offset: 1 })",
            "Err(Overflow { base: 16, offset: 18446744073709551615 })",
            "Err(Overflow { base: 16, offset: 18446744073709551615 })",
            "Err(Overflow { base: 18446744073709551615, offset: 1 })",
        ],
    ),
    (
        usize::MAX,
        2,
        [
            "Err(Overflow { base: 18446744073709551615, offset: 4 })",
            "Err(Overflow { base: 18446744073709551615, offset: 4 })",
            "Err(Overflow { base: 18446744073709551615, offset: 2 })",
            "Err(Overflow { base: 16, offset: 18446744073709551615 })",
            "Err(Overflow { base: 16, offset: 18446744073709551615 })",
            "Err(Overflow { base: 18446744073709551615, offset: 2 })",
        ],
    ),
    (
        0,
        0x4000_0000_0000_0000,
        [
            "Ok(4)",
            "Err(TooBig { nelements: 4611686018427387904, size: 2 })",
            "Err(OutOfBounds { addr: 4611686018427387904 })",
            "Ok((0, 8))",
            "Ok(8)",
            "Err(OutOfBounds { addr: 4611686018427387904 })",
        ],
    ),
];

#[test]
fn a_view_lies_in_its_window(rt: HostRuntime) -> Result<(), Fail> {
    let mut host: HostMemory<()> = HostMemory::new(rt.alloc());
    let window = window_of(&mut host, &[1, 2, 3, 4, 5, 6, 7, 8])?;
    let memory = window.as_volatile_slice();
    for (case, (at, count, wanted)) in VIEWS.iter().enumerate() {
        let value = memory.get_ref::<u32>(*at).map(|value| value.len());
        let array = memory.get_array_ref::<u16>(*at, *count);
        let number = array.map(|array| array.len());
        let end = memory.compute_end_offset(*at, *count);
        let parts = memory.split_at(*at);
        let lengths = parts.map(|parts| (parts.0.len(), parts.1.len()));
        let rest = window.offset(*at).map(|rest| rest.len());
        let part = window.subslice(*at, *count).map(|part| part.len());
        let told = format!(in rt.alloc();
            "{value:?} {number:?} {end:?} {lengths:?} {rest:?} {part:?}"
        )?;
        let [value, number, end, lengths, rest, part] = *wanted;
        let wanted = format!(in rt.alloc(); "{value} {number} {end} {lengths} {rest} {part}")?;
        expect_text(case, told.as_str(), wanted.as_str())?;
    }
    Ok(())
}

// To a window of 8 bytes, by an offset.
const ACCESSES: [Access<usize>; 6] = [
    (0, 8, "Ok(8)", "Ok(())"),
    (6, 2, "Ok(2)", "Ok(())"),
    (
        6,
        4,
        "Ok(2)",
        "Err(PartialBuffer { expected: 4, completed: 2 })",
    ),
    (
        8,
        1,
        "Err(OutOfBounds { addr: 8 })",
        "Err(OutOfBounds { addr: 8 })",
    ),
    (8, 0, "Ok(0)", "Ok(())"),
    (usize::MAX, 0, "Ok(0)", "Ok(())"),
];

// To the cells of such a window, by a number.
const CELLS: [Access<u16>; 4] = [
    (0, 8, "Ok(8)", "Ok(())"),
    (1, 4, "Ok(4)", "Ok(())"),
    (
        1,
        5,
        "Ok(4)",
        "Err(PartialBuffer { expected: 5, completed: 4 })",
    ),
    (
        2,
        1,
        "Err(OutOfBounds { addr: 8 })",
        "Err(OutOfBounds { addr: 8 })",
    ),
];

#[test]
fn an_access_reaches_to_the_end_of_its_window(rt: HostRuntime) -> Result<(), Fail> {
    let alloc = rt.alloc();
    let mut host: HostMemory<()> = HostMemory::new(alloc);
    let window = window_of(&mut host, &[0; 8])?;
    expect_accesses(alloc, &mut host, &window, &ACCESSES)?;
    expect_accesses(alloc, &mut host, &Cells { window }, &CELLS)?;
    // Beside a part of a window nothing is written.
    let whole = window_of(&mut host, &[0; 8])?;
    let part = whole.subslice(2, 4)?;
    assert!(rt; host.holds(&part) && host.holds(&whole));
    let count = part.write(&mut host, &[1, 2, 3, 4, 5, 6], 1)?;
    let mut buffer = [9; 8];
    whole.read_slice(&host, &mut buffer, 0)?;
    assert!(rt; count == 3 && buffer == [0, 0, 0, 1, 2, 3, 0, 0]);
    Ok(())
}

const CELL_VALUES: &str =
    "Ok(()) Ok(1234605615003729920) Err(PartialBuffer { expected: 8, completed: 4 }) \
                           Err(PartialBuffer { expected: 8, completed: 4 }) Err(OutOfBounds { addr: 8 }) \
                           [0, 0, 0, 0, 255, 255, 255, 255]";

// A value in the second cell of a window, one that goes past the last cell, written and read, and one after it.
#[test]
fn a_type_of_its_own_gives_access_to_bytes(rt: HostRuntime) -> Result<(), Fail> {
    let mut host: HostMemory<()> = HostMemory::new(rt.alloc());
    let window = window_of(&mut host, &[0; 8])?;
    let cells = Cells { window };
    assert!(rt; host.holds(&cells) && host.holds(&window));
    let wrote = cells.write_obj(&mut host, 0x1122_3344u32, 1);
    let whole = cells.read_obj::<u64, ()>(&host, 0);
    let past = cells.write_obj(&mut host, u64::MAX, 1);
    let short = cells.read_obj::<u64, ()>(&host, 1);
    let later = cells.read_obj::<u64, ()>(&host, 2);
    let mut bytes = [7; 8];
    window.read_slice(&host, &mut bytes, 0)?;
    let told = format!(in rt.alloc();
        "{wrote:?} {whole:?} {past:?} {short:?} {later:?} {bytes:?}"
    )?;
    expect_text(0, told.as_str(), CELL_VALUES)
}
