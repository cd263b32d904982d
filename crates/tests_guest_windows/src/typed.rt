//! Values of a type in windows: loads, stores, copies and arrays.

use std::alloc::Global;
use std::sync::atomic::Ordering;
use std::test::Fail;
use test_regions::window_of;
use test_text::expect_text;
use vm_memory_base::{Bitmap, ByteValued};
use vm_memory_guest::{
    Bytes, HostMemory, VolatileArrayRef, VolatileMemory, VolatileRef, VolatileSlice,
};

const ERRORS: &str = "Err(OutOfBounds { addr: 25 })
Err(TooBig { nelements: 4611686018427387904, size: 2 })
Err(Misaligned { addr: 17, alignment: 2 })
Err(Misaligned { addr: 17, alignment: 2 })
";

// Fails where bytes are not those that are due.
fn expect_bytes(bytes: &[u8], wanted: &[u8]) -> Result<(), Fail> {
    if bytes != wanted {
        return Err(Fail::new(format_args!("{bytes:?}, not {wanted:?}")));
    }
    Ok(())
}

// Stores and loads of the bytes 1 to 8: those that are refused, and one that is not.
fn expect_stores<B: Bitmap>(
    alloc: Global,
    host: &mut HostMemory<B>,
    window: VolatileSlice,
) -> Result<(), Fail> {
    if !host.holds(&window) {
        return Err(Fail::new("the host does not hold the window"));
    }
    let rest = window.offset(9);
    let many = window.get_array_ref::<u16>(0, 0x4000_0000_0000_0000);
    let stored = window.store(host, 0x0908u16, 1, Ordering::SeqCst);
    let loaded = window.load::<u16, B>(host, 1, Ordering::SeqCst);
    let text = format!(in alloc; "{rest:?}\n{many:?}\n{stored:?}\n{loaded:?}\n")?;
    expect_text(0, text.as_str(), ERRORS)?;
    window.store(host, 0x0b0au16, 6, Ordering::SeqCst)?;
    let mut bytes = [0; 8];
    window.read_slice(host, &mut bytes, 0)?;
    expect_bytes(&bytes, &[1, 2, 3, 4, 5, 6, 10, 11])
}

// A value of four of the bytes 1 to 8, and all of them as an array.
fn expect_views<B: Bitmap>(host: &mut HostMemory<B>, window: VolatileSlice) -> Result<(), Fail> {
    let value = window.get_ref::<u32>(3)?;
    let bytes = VolatileArrayRef::from(window);
    if !host.holds(&value) || !host.holds(&bytes) {
        return Err(Fail::new("the host does not hold the window"));
    }
    let before = value.load(host);
    value.store(host, 0x0e0d_0c0b);
    let values = [before, value.load(host)];
    let mut left = [0u8; 9];
    let count = bytes.copy_to(host, &mut left);
    let counts = [value.len(), bytes.element_size(), count];
    if values != [0x0706_0504, 0x0e0d_0c0b] || counts != [4, 1, 8] {
        return Err(Fail::new(format_args!("{values:?} {counts:?}")));
    }
    expect_bytes(&left, &[1, 2, 3, 11, 12, 13, 14, 8, 0])
}

#[test]
fn a_value_in_a_window(rt: HostRuntime) -> Result<(), Fail> {
    let mut host: HostMemory<()> = HostMemory::new(rt.alloc());
    let window = window_of(&mut host, &[1, 2, 3, 4, 5, 6, 7, 8])?;
    expect_stores(rt.alloc(), &mut host, window)?;
    let window = window_of(&mut host, &[1, 2, 3, 4, 5, 6, 7, 8])?;
    expect_views(&mut host, window)
}

// A window of two, by its number, and a part of it, by its offset and its length.
type Part = (usize, usize, usize);

// The part that is copied of two windows of six bytes in blocks of their own, which have 1 to 6 and 11 to 16, the part
// that it is copied to, and the bytes of both windows then.
const COPIES: [(Part, Part, [u8; 6], [u8; 6]); 8] = [
    (
        (0, 0, 4),
        (0, 2, 4),
        [1, 2, 1, 2, 3, 4],
        [11, 12, 13, 14, 15, 16],
    ),
    (
        (0, 2, 4),
        (0, 0, 4),
        [3, 4, 5, 6, 5, 6],
        [11, 12, 13, 14, 15, 16],
    ),
    (
        (0, 0, 2),
        (0, 4, 2),
        [1, 2, 3, 4, 1, 2],
        [11, 12, 13, 14, 15, 16],
    ),
    (
        (0, 4, 2),
        (0, 0, 2),
        [5, 6, 3, 4, 5, 6],
        [11, 12, 13, 14, 15, 16],
    ),
    // As many bytes are copied as both have.
    (
        (0, 1, 5),
        (1, 2, 3),
        [1, 2, 3, 4, 5, 6],
        [11, 12, 2, 3, 4, 16],
    ),
    (
        (1, 0, 2),
        (0, 3, 3),
        [1, 2, 3, 11, 12, 6],
        [11, 12, 13, 14, 15, 16],
    ),
    (
        (1, 3, 3),
        (1, 1, 5),
        [1, 2, 3, 4, 5, 6],
        [11, 14, 15, 16, 15, 16],
    ),
    (
        (1, 1, 0),
        (0, 0, 6),
        [1, 2, 3, 4, 5, 6],
        [11, 12, 13, 14, 15, 16],
    ),
];

// Copies a part of one of two windows to a part of one of them. Answers the bytes of both then.
fn copied<B: Bitmap>(
    host: &mut HostMemory<B>,
    windows: [VolatileSlice; 2],
    from: Part,
    to: Part,
) -> Result<[[u8; 6]; 2], Fail> {
    let [one, other] = windows;
    let source = if from.0 == 0 { one } else { other };
    let target = if to.0 == 0 { one } else { other };
    let source = source.subslice(from.1, from.2)?;
    let target = target.subslice(to.1, to.2)?;
    if !(host.holds(&source) && host.holds(&target) && host.holds(&one) && host.holds(&other)) {
        return Err(Fail::new("the host does not hold the windows"));
    }
    source.copy_to_volatile_slice(host, target);
    let mut of_one = [0; 6];
    one.read_slice(host, &mut of_one, 0)?;
    let mut of_other = [0; 6];
    other.read_slice(host, &mut of_other, 0)?;
    Ok([of_one, of_other])
}

#[test]
fn a_copy_moves_bytes_as_they_were(rt: HostRuntime) -> Result<(), Fail> {
    for (case, (from, to, left, right)) in COPIES.iter().enumerate() {
        let mut host: HostMemory<()> = HostMemory::new(rt.alloc());
        let one = window_of(&mut host, &[1, 2, 3, 4, 5, 6])?;
        let other = window_of(&mut host, &[11, 12, 13, 14, 15, 16])?;
        let told = copied(&mut host, [one, other], *from, *to)?;
        assert!(rt; told == [*left, *right], "case {case}");
    }
    Ok(())
}

// Whole values are copied.
fn expect_whole_values<B: Bitmap>(
    host: &mut HostMemory<B>,
    window: VolatileSlice,
) -> Result<(), Fail> {
    let five = window.subslice(0, 5)?;
    if !host.holds(&window) || !host.holds(&five) {
        return Err(Fail::new("the host does not hold the window"));
    }
    let mut values = [9u16; 3];
    let count = five.copy_to(host, &mut values);
    if count != 2 || values != [0x0201, 0x0403, 9] {
        return Err(Fail::new(format_args!("{count} {values:?}")));
    }
    five.copy_from(host, &[0x0c0bu16, 0x0e0d, 0x100f]);
    let mut bytes = [0; 6];
    window.read_slice(host, &mut bytes, 0)?;
    expect_bytes(&bytes, &[11, 12, 13, 14, 5, 6])
}

// Three values of two of the bytes 1 to 8, from the second on.
fn expect_array<B: Bitmap>(host: &mut HostMemory<B>, window: VolatileSlice) -> Result<(), Fail> {
    let array = window.get_array_ref::<u16>(1, 3)?;
    if !host.holds(&array) || array.len() != 3 {
        return Err(Fail::new("the host does not hold the array, or it is not of three"));
    }
    let last = array.ref_at(2);
    if !host.holds(&last) {
        return Err(Fail::new("the host does not hold the last one"));
    }
    array.store(host, 1, 0x0c0b);
    let loaded = [last.load(host), array.load(host, 1)];
    array.copy_from(host, &[0x1615, 0x1817, 0x1a19, 0x1c1b]);
    let mut values = [9; 4];
    let count = array.copy_to(host, &mut values);
    let counts = [array.element_size(), count];
    if loaded != [0x0706, 0x0c0b] || counts != [2, 3] || values != [0x1615, 0x1817, 0x1a19, 9] {
        return Err(Fail::new(format_args!("{loaded:?} {counts:?} {values:?}")));
    }
    Ok(())
}

#[test]
fn an_array_in_a_window(rt: HostRuntime) -> Result<(), Fail> {
    let mut host: HostMemory<()> = HostMemory::new(rt.alloc());
    let window = window_of(&mut host, &[1, 2, 3, 4, 5, 6])?;
    expect_whole_values(&mut host, window)?;
    let window = window_of(&mut host, &[1, 2, 3, 4, 5, 6, 7, 8])?;
    expect_array(&mut host, window)
}

// A pair of two of the bytes 1 to 8, from the second on, and then all of them as two pairs.
fn expect_pairs<B: Bitmap>(host: &mut HostMemory<B>, window: VolatileSlice) -> Result<(), Fail> {
    let pair: VolatileRef<[u16; 2]> = window.get_ref(1)?;
    let pairs: VolatileArrayRef<[u16; 2]> = window.get_array_ref(0, 2)?;
    if !host.holds(&pair) || !host.holds(&pairs) {
        return Err(Fail::new("the host does not hold the pairs"));
    }
    let before = pair.load(host);
    pair.store(host, [0x1312, 0x1514]);
    let loaded = [before, pair.load(host), pairs.load(host, 1)];
    pairs.store(host, 1, [0x2524, 0x2726]);
    let mut values = [[9u16; 2]; 3];
    let count = pairs.copy_to(host, &mut values);
    let counts = [pair.len(), pairs.element_size(), count];
    if loaded != [[0x0302, 0x0504], [0x1312, 0x1514], [0x0615, 0x0807]]
        || counts != [4, 4, 2]
        || values != [[0x1201, 0x1413], [0x2524, 0x2726], [9, 9]]
    {
        return Err(Fail::new(format_args!("{loaded:?} {counts:?} {values:?}")));
    }
    Ok(())
}

// Whether the value of these bytes is read of a window that has them.
fn is_read<B: Bitmap>(
    host: &HostMemory<B>,
    window: VolatileSlice,
    value: [u32; 2],
) -> Result<bool, Fail> {
    let place: VolatileRef<[u32; 2]> = window.get_ref(0)?;
    if !host.holds(&place) {
        return Err(Fail::new("the host does not hold the value"));
    }
    Ok(place.load(host) == value)
}

#[test]
fn a_pair_in_a_window(rt: HostRuntime) -> Result<(), Fail> {
    let mut host: HostMemory<()> = HostMemory::new(rt.alloc());
    let window = window_of(&mut host, &[1, 2, 3, 4, 5, 6, 7, 8])?;
    expect_pairs(&mut host, window)?;
    let bytes = [0, 0, 0, 0, 1, 1, 1, 1];
    let mut wide = <[u32; 2]>::zeroed();
    wide.set_bytes(0, &bytes);
    assert!(rt; wide == [0, 0x0101_0101] && <[u32; 2]>::from_slice(&bytes) == Some(wide));
    let window = window_of(&mut host, &bytes)?;
    assert!(rt; is_read(&host, window, wide)?);
    Ok(())
}

// Of a window of 8 bytes at 0x10: of a value, of an array, and of an array of none; of the bytes from an offset on, of
// those on both sides of it, and of a part.
const SEEN: &str = "false Block(0)+19 Ok(4) [4, 5, 6, 7, 9, 9]
false Block(0)+17 Ok(6) [2, 3, 4, 5, 6, 7]
true Block(0)+24 Err(OutOfBounds { addr: 0 }) [9, 9, 9, 9, 9, 9]
false Block(0)+19 Ok(5) [4, 5, 6, 7, 8, 9]
false Block(0)+16 Ok(3) [1, 2, 3, 9, 9, 9]
false Block(0)+19 Ok(5) [4, 5, 6, 7, 8, 9]
false Block(0)+18 Ok(4) [3, 4, 5, 6, 9, 9]
";

fn told_of_views<B: Bitmap>(
    alloc: Global,
    host: &HostMemory<B>,
    window: VolatileSlice,
) -> Result<String, Fail> {
    let value = window.get_ref::<u32>(3)?;
    let array = window.get_array_ref::<u16>(1, 3)?;
    let none = window.get_array_ref::<u16>(8, 0)?;
    let (rest, part) = (window.offset(3)?, window.subslice(2, 4)?);
    let (front, back) = window.split_at(3)?;
    let mut text = String::new(alloc);
    for (window, empty, bitmap) in [
        (value.to_slice(), false, value.bitmap()),
        (array.to_slice(), array.is_empty(), array.bitmap()),
        (none.to_slice(), none.is_empty(), none.bitmap()),
        (rest, false, rest.bitmap()),
        (front, false, front.bitmap()),
        (back, false, back.bitmap()),
        (part, false, part.bitmap()),
    ] {
        if !host.holds(&window) {
            return Err(Fail::new("the host does not hold the view"));
        }
        if bitmap != window.bitmap() || empty != VolatileMemory::is_empty(&window) {
            return Err(Fail::new(format_args!("{:?}+{}", bitmap.id, bitmap.base)));
        }
        let mut bytes = [9; 6];
        let count = window.read(host, &mut bytes, 0);
        let empty = window.is_empty();
        writeln!(
            text,
            "{empty} {:?}+{} {count:?} {bytes:?}",
            bitmap.id, bitmap.base
        )?;
    }
    Ok(text)
}

#[test]
fn a_view_has_the_window_of_its_bytes(rt: HostRuntime) -> Result<(), Fail> {
    let mut host: HostMemory<()> = HostMemory::new(rt.alloc());
    let window = window_of(&mut host, &[1, 2, 3, 4, 5, 6, 7, 8])?;
    let told = told_of_views(rt.alloc(), &host, window)?;
    expect_text(0, told.as_str(), SEEN)
}
