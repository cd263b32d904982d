//! Each read of a reader and each write of a writer is one call of the system, with the whole buffer.

use crate::stub::{KINDS, STUB, Stub};
use crate::told::tell;
use std::alloc::Global;
use std::io::ErrorKind;
use std::test::Fail;
use test_text::expect_text;
use vm_memory_base::{ReadVolatile, WriteVolatile};

// Fails where a read or a write of bytes is not one call with all of them, or tells something else.
fn expect_once(
    alloc: Global,
    mut stub: Stub,
    bytes: &mut [u8],
    is_read: bool,
    wanted: &str,
) -> Result<(), Fail> {
    let mut text = String::new(alloc);
    if is_read {
        tell(&stub.read_volatile(bytes), &mut text)?;
    } else {
        tell(&stub.write_volatile(bytes), &mut text)?;
    }
    expect_text(bytes.len(), text.as_str(), wanted)?;
    if stub.calls != 1 || stub.asked != bytes.len() {
        return Err(Fail::new(format_args!("{} calls, of {}", stub.calls, stub.asked)));
    }
    Ok(())
}

// Fails if a call that moves at most so many bytes does not return their count, or a read does not write just these.
fn expect_count(alloc: Global, bytes: &mut [u8], most: usize) -> Result<(), Fail> {
    let count = bytes.len().min(most);
    let wanted = format!(in alloc; "Ok({count})")?;
    let stub = Stub { most, ..STUB };
    bytes.fill(0);
    expect_once(alloc, stub, bytes, true, wanted.as_str())?;
    let mut places = bytes.iter().enumerate();
    if !places.all(|(k, byte)| (*byte == 7) == (k < count)) {
        return Err(Fail::new(format_args!("not the first {count} bytes were read")));
    }
    expect_once(alloc, stub, bytes, false, wanted.as_str())
}

fn expect_counts(alloc: Global) -> Result<(), Fail> {
    for len in [0usize, 1, 5, 0x1000, 0x1001, 0x10_0001] {
        let mut bytes = vec![in alloc; 0u8; len]?;
        for most in [0usize, 3, usize::MAX] {
            expect_count(alloc, &mut bytes, most)?;
        }
    }
    Ok(())
}

fn expect_errors(alloc: Global) -> Result<(), Fail> {
    for kind in KINDS {
        let wanted = format!(in alloc; "{kind:?}")?;
        let stub = Stub {
            error: Some(kind),
            ..STUB
        };
        for len in [0usize, 5, 0x1001] {
            let mut bytes = vec![in alloc; 0u8; len]?;
            for is_read in [false, true] {
                expect_once(alloc, stub, &mut bytes, is_read, wanted.as_str())?;
            }
        }
    }
    Ok(())
}

#[test]
fn answers_are_those_of_one_call(rt: HostRuntime) -> Result<(), Fail> {
    expect_counts(rt.alloc())?;
    expect_errors(rt.alloc())
}

// All of ten bytes, of which six come before the error, and three at a call. One that was interrupted is asked again.
#[test]
fn errors_end_what_takes_many_calls(rt: HostRuntime) -> Result<(), Fail> {
    for kind in KINDS {
        let goes_on = kind == ErrorKind::Interrupted;
        let stub = Stub {
            most: 3,
            left: 6,
            error: Some(kind),
            ..STUB
        };
        let mut source = stub;
        let mut bytes = [0u8; 10];
        match source.read_exact_volatile(&mut bytes) {
            Ok(()) => assert!(rt; goes_on && bytes == [7; 10]),
            Err(fault) => {
                let mut text = String::new(rt.alloc());
                tell::<()>(&Err(fault.error), &mut text)?;
                let wanted = format!(in rt.alloc(); "{kind:?}")?;
                expect_text(fault.touched, text.as_str(), wanted.as_str())?;
                assert!(rt; !goes_on && fault.touched == 10);
            }
        }
        let calls = if goes_on { 5 } else { 3 };
        assert!(rt; source.calls == calls);
        let mut sink = stub;
        let mut text = String::new(rt.alloc());
        tell(&sink.write_all_volatile(&bytes), &mut text)?;
        let wanted = if goes_on {
            format!(in rt.alloc(); "Ok(())")?
        } else {
            format!(in rt.alloc(); "{kind:?}")?
        };
        expect_text(11, text.as_str(), wanted.as_str())?;
        assert!(rt; sink.calls == calls);
    }
    let mut none = STUB;
    assert!(rt; none.read_exact_volatile(&mut []).is_ok() && none.write_all_volatile(&[]).is_ok());
    assert!(rt; none.calls == 0);
    Ok(())
}
