//! Values and their bytes.

use std::process::Abort;
use std::sync::atomic::Ordering;
use test_text::next_number;
use vm_memory_base::{AtomicAccess, AtomicInteger, Be16, ByteValued, Le16};

// Bytes of which each is another.
const BYTES: [u8; 48] = [
    1, 2, 3, 4, 5, 6, 7, 8, 9, 10, 11, 12, 13, 14, 15, 0xf0, 17, 18, 19, 20, 21, 22, 23, 24, 25,
    26, 27, 28, 29, 30, 31, 32, 33, 34, 35, 36, 37, 38, 39, 40, 41, 42, 43, 44, 45, 46, 47, 48,
];

// A list of bytes, the value with these, and the list again, at a type of `size` bytes.
fn round_trip<T: ByteValued + PartialEq>(rt: &impl Abort, size: usize) {
    assert!(rt; size < 48);
    let own = &BYTES[..size];
    assert!(rt; T::from_slice(&BYTES).is_none());
    let Some(mut value) = T::from_slice(own) else {
        return rt.abort();
    };
    let mut out = [0u8; 48];
    assert!(rt; !value.to_slice(&mut out));
    let back = &mut out[..size];
    assert!(rt; value.to_slice(back));
    let back: &[u8] = back;
    assert!(rt; back == own);
    for i in 0..T::size() {
        assert!(rt; i < size);
        assert!(rt; value.byte(i) == BYTES[i]);
        value.set_byte(i, 0);
    }
    assert!(rt; value == T::zeroed());
}

#[test]
fn round_trips(rt: HostRuntime) {
    round_trip::<u8>(&rt, 1);
    round_trip::<u16>(&rt, 2);
    round_trip::<u32>(&rt, 4);
    round_trip::<u64>(&rt, 8);
    round_trip::<u128>(&rt, 16);
    round_trip::<usize>(&rt, 8);
    round_trip::<i8>(&rt, 1);
    round_trip::<i16>(&rt, 2);
    round_trip::<i32>(&rt, 4);
    round_trip::<i64>(&rt, 8);
    round_trip::<i128>(&rt, 16);
    round_trip::<isize>(&rt, 8);
    round_trip::<[u8; 0]>(&rt, 0);
    round_trip::<[u8; 33]>(&rt, 33);
    round_trip::<[u16; 3]>(&rt, 6);
    round_trip::<[i64; 5]>(&rt, 40);
    round_trip::<[Be16; 2]>(&rt, 4);
    round_trip::<(u64, (u32, (u16, u16)))>(&rt, 16);
    round_trip::<(u8, [Be16; 3])>(&rt, 7);
    assert!(rt; u32::from_slice(&[1, 2, 3, 4]) == Some(0x0403_0201));
    assert!(rt; i16::from_slice(&[0xfe, 0xff]) == Some(-2));
    assert!(rt; Be16::from_slice(&[1, 2]) == Some(Be16::from(0x0102)));
    assert!(rt; Le16::from_slice(&[2, 1]) == Some(Le16::from(0x0102)));
    assert!(rt; <[u16; 2]>::from_slice(&[1, 0, 0, 1]) == Some([1, 0x0100]));
    assert!(rt; <(u16, u8)>::from_slice(&[1, 2, 3]) == Some((0x0201, 3)));
}

// The ends of each type of integer and their neighbours, as 8 bytes, the lowest first.
const WORDS: [u64; 32] = [
    0,
    1,
    2,
    0x7e,
    0x7f,
    0x80,
    0x81,
    0xfe,
    0xff,
    0x100,
    0x7ffe,
    0x7fff,
    0x8000,
    0x8001,
    0xfffe,
    0xffff,
    0x1_0000,
    0x7fff_fffe,
    0x7fff_ffff,
    0x8000_0000,
    0x8000_0001,
    0xffff_fffe,
    0xffff_ffff,
    0x1_0000_0000,
    0x1_0000_0001,
    0x7fff_ffff_ffff_fffe,
    0x7fff_ffff_ffff_ffff,
    0x8000_0000_0000_0000,
    0x8000_0000_0000_0001,
    0xffff_ffff_0000_0000,
    0xffff_ffff_ffff_fffe,
    0xffff_ffff_ffff_ffff,
];

// A value of these bytes through the atomic integer that stands for its type.
fn through_atomic<T: AtomicAccess + PartialEq>(rt: &impl Abort, bytes: &[u8])
where
    T::A: Drop,
{
    let Some(value) = T::from_slice(bytes) else {
        return rt.abort();
    };
    let word = T::A::new(value.into());
    assert!(rt; T::from(word.load(Ordering::Relaxed)) == value);
    word.store(T::zeroed().into(), Ordering::Relaxed);
    assert!(rt; T::from(word.load(Ordering::SeqCst)) == T::zeroed());
    word.store(value.into(), Ordering::SeqCst);
    assert!(rt; T::from(word.load(Ordering::SeqCst)) == value);
}

// The ends, and other values of as many bytes.
#[test]
fn atomic_values(rt: HostRuntime) {
    let mut state = 5;
    for number in 0..1000usize {
        let other = next_number(&mut state).wrapping_mul(0x9e37_79b9_7f4a_7c15);
        let word = WORDS.get(number).copied().unwrap_or(other);
        let bytes = word.to_le_bytes();
        through_atomic::<u8>(&rt, &bytes[..1]);
        through_atomic::<u16>(&rt, &bytes[..2]);
        through_atomic::<u32>(&rt, &bytes[..4]);
        through_atomic::<u64>(&rt, &bytes);
        through_atomic::<usize>(&rt, &bytes);
        through_atomic::<i8>(&rt, &bytes[..1]);
        through_atomic::<i16>(&rt, &bytes[..2]);
        through_atomic::<i32>(&rt, &bytes[..4]);
        through_atomic::<i64>(&rt, &bytes);
        through_atomic::<isize>(&rt, &bytes);
    }
}
