//! Integers whose bytes have an order.

use std::process::Abort;
use vm_memory_base::{
    Be16, Be32, Be64, BeSize, ByteValued, FixedInteger, Le16, Le32, Le64, LeSize,
};

// A value of an endian type, made from a native one, has these bytes, and leads back.
fn holds<T, E>(rt: &impl Abort, native: T, wanted: &[u8])
where
    T: FixedInteger + From<E>,
    E: ByteValued + From<T>,
{
    let value = E::from(native);
    let mut bytes = [0u8; 8];
    assert!(rt; wanted.len() <= 8);
    let own = &mut bytes[..wanted.len()];
    assert!(rt; value.to_slice(own));
    let own: &[u8] = own;
    assert!(rt; own == wanted);
    assert!(rt; T::from(value) == native);
}

#[test]
fn bytes_in_order(rt: HostRuntime) {
    holds::<u16, Le16>(&rt, 0xcdef, &[0xef, 0xcd]);
    holds::<u32, Le32>(&rt, 0x89ab_cdef, &[0xef, 0xcd, 0xab, 0x89]);
    let low_first = [0xef, 0xcd, 0xab, 0x89, 0x67, 0x45, 0x23, 0x01];
    holds::<u64, Le64>(&rt, 0x0123_4567_89ab_cdef, &low_first);
    holds::<usize, LeSize>(&rt, 0x0123_4567_89ab_cdef, &low_first);
    holds::<u16, Le16>(&rt, 0x0102, &[2, 1]);
    holds::<u16, Be16>(&rt, 0x0102, &[1, 2]);
    holds::<u32, Be32>(&rt, 0x89ab_cdef, &[0x89, 0xab, 0xcd, 0xef]);
    let high_first = [0x01, 0x23, 0x45, 0x67, 0x89, 0xab, 0xcd, 0xef];
    holds::<u64, Be64>(&rt, 0x0123_4567_89ab_cdef, &high_first);
    holds::<usize, BeSize>(&rt, 0x0123_4567_89ab_cdef, &high_first);
    assert!(rt; Be32::from(7).to_native() == 7);
    assert!(rt; Be32::from(7).equals_native(7));
    assert!(rt; !Le32::from(7).equals_native(0x0700_0000));
    assert!(rt; Le64::default().to_native() == 0);
    assert!(rt; Be16::from(1) != Be16::from(0x0100));
}
