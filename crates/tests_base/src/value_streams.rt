//! Values through readers and writers.

use crate::stub::{KINDS, STUB, Stub};
use std::io::ErrorKind;
use std::test::Fail;
use vm_memory_base::ByteValued;

// A value of many times the bytes that go to a writer or come from a reader at once, and a short one, also with a
// reader that ends before the value, and with a writer that has no room for it.
#[test]
fn values_go_through_streams(rt: HostRuntime) -> Result<(), Fail> {
    let mut long = [0u32; 256];
    for k in 0..256usize {
        long[k] = 0x0100 + k as u32;
    }
    let mut written = Vec::new(rt.alloc());
    long.write_all_to(&mut written)?;
    assert!(rt; written.len() == 1024);
    for k in 0..256usize {
        let bytes = (0x0100 + k as u32).to_le_bytes();
        assert!(rt; written.get(4 * k..4 * k + 4) == Some(&bytes[..]));
    }
    let mut longer = Vec::new(rt.alloc());
    [5u8; 0x5001].write_all_to(&mut longer)?;
    assert!(rt; longer.len() == 0x5001 && longer.iter().all(|byte| *byte == 5));
    let mut from: &[u8] = written.as_slice();
    assert!(rt; <[u32; 256]>::read_exact_from(&mut from)? == long);
    assert!(rt; from.len() == 0);
    let bytes = [0u8, 0, 0, 0, 1, 1, 1, 1];
    let mut whole = &bytes[..];
    let value = <[u32; 2]>::read_exact_from(&mut whole)?;
    assert!(rt; value == [0, 0x0101_0101]);
    let mut written = Vec::new(rt.alloc());
    value.write_all_to(&mut written)?;
    assert!(rt; written.as_slice() == &bytes[..]);
    let mut short: &[u8] = &[0, 0, 0, 0, 1, 1, 1];
    let told = <[u32; 2]>::read_exact_from(&mut short)
        .err()
        .map(|error| error.kind());
    assert!(rt; told == Some(ErrorKind::UnexpectedEof));
    let mut room = [0u8; 7];
    let mut full: &mut [u8] = &mut room;
    let told = [0u32, 0x0101_0101]
        .write_all_to(&mut full)
        .err()
        .map(|error| error.kind());
    assert!(rt; told == Some(ErrorKind::WriteZero));
    Ok(())
}

// Streams that fail after so many of the 200 bytes of a value, with each kind of error. Where one was interrupted, it
// is asked again.
#[test]
fn failing_streams(rt: HostRuntime) {
    for left in [0usize, 63, 64, 65, 128, 199] {
        for kind in KINDS {
            let wanted = (kind != ErrorKind::Interrupted).then_some(kind);
            let stub = Stub {
                left,
                error: Some(kind),
                ..STUB
            };
            let mut writer = stub;
            let told = [3u8; 200]
                .write_all_to(&mut writer)
                .err()
                .map(|error| error.kind());
            assert!(rt; told == wanted, "{left} bytes and {kind:?}");
            let mut reader = stub;
            match <[u8; 200]>::read_exact_from(&mut reader) {
                Ok(value) => assert!(rt; wanted.is_none() && value == [7; 200], "{left} bytes"),
                Err(error) => assert!(rt;
                    Some(error.kind()) == wanted,
                    "{left} bytes and {kind:?}"
                ),
            }
        }
    }
}
