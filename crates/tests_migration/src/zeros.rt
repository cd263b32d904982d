//! Pages of zeros: they change and mark nothing where zeros are.

use crate::guests::{Host, bytes_of, dirty_count};
use crate::streams::{LIMIT, stream_of};
use live_migration::{Destination, Receiver, Refusal};
use std::alloc::Global;
use std::test::Fail;
use vm_memory_base::{ExactBitmap, NewBitmap};
use vm_memory_guest::{BlockId, HostMemory};

// Frames for blocks of 5 bytes in pages of 2 and of 3 bytes in one page, and whether each block is marked then.
const CASES: [(&str, bool, bool); 6] = [
    // Zeros for each page of blocks of zeros, the cut ones, too.
    (
        "b 4,2 4,c 4,0 8,0 4,2 4,c 4,0 8,1 4,2 4,c 4,0 8,2 4,2 4,c 4,1 8,0",
        false,
        false,
    ),
    // Bytes that are not zero, and the page of zeros beside them.
    ("b 4,1 4,e 4,0 8,0 x,0002", true, false),
    ("b 4,2 4,c 4,0 8,2 4,1 4,f 4,1 8,0 x,000009", false, true),
    ("b 4,1 4,d 4,0 8,2 x,07 4,2 4,c 4,1 8,0", true, false),
    // Zeros that are sent as bytes mark.
    ("b 4,1 4,e 4,0 8,0 x,0000", true, false),
    ("b", false, false),
];

// Takes frames until the stream ends.
fn take_all<B: NewBitmap + Drop>(
    alloc: Global,
    stream: &[u8],
    host: &mut HostMemory<B>,
) -> Result<Refusal, Fail> {
    let mut input = stream;
    let mut receiver = Receiver::begin(alloc, &mut input, host, LIMIT)?;
    for _ in 0..u64::MAX {
        if let Err(refusal) = receiver.take(&mut input, host) {
            return Ok(refusal);
        }
    }
    Err(Fail::new("the stream did not end"))
}

// Which of the two blocks are marked after a stream.
fn marked<B: ExactBitmap + NewBitmap + Drop>(
    alloc: Global,
    text: &str,
    host: &mut HostMemory<B>,
) -> Result<(bool, bool), Fail> {
    let stream = stream_of(alloc, text)?;
    if take_all(alloc, stream.as_slice(), host)? != Refusal::Ended {
        return Err(Fail::new(format_args!("{text}: refused")));
    }
    Ok((
        dirty_count(host, alloc, BlockId(0))? > 0,
        dirty_count(host, alloc, BlockId(1))? > 0,
    ))
}

#[test]
fn zeros_mark_nothing(rt: HostRuntime) -> Result<(), Fail> {
    let alloc = rt.alloc();
    for (text, first, second) in CASES {
        let told = marked(alloc, text, &mut Host::new(alloc))?;
        assert!(rt; told == (first, second), "{text}: {told:?}");
    }
    Ok(())
}

// Frames for the first block, and its bytes then: pages that came are looked at, and those after them are not.
const LATER: [(&str, [u8; 5]); 4] = [
    (
        "b 4,1 4,10 4,0 8,0 x,01020304 4,2 4,c 4,0 8,1 4,2 4,c 4,0 8,2",
        [1, 2, 0, 0, 0],
    ),
    (
        "b 4,2 4,c 4,0 8,0 4,1 4,10 4,0 8,0 x,01020304 4,2 4,c 4,0 8,0",
        [0, 0, 3, 4, 0],
    ),
    (
        "b 4,1 4,d 4,0 8,2 x,05 4,2 4,c 4,0 8,0 4,2 4,c 4,0 8,2",
        [0, 0, 0, 0, 0],
    ),
    (
        "b 4,1 4,e 4,0 8,1 x,0304 4,1 4,e 4,0 8,0 x,0102 4,2 4,c 4,0 8,1",
        [1, 2, 0, 0, 0],
    ),
];

// The host of a destination that takes frames until the stream ends.
fn arrived(alloc: Global, text: &str) -> Result<Host, Fail> {
    let stream = stream_of(alloc, text)?;
    let mut input = stream.as_slice();
    let begun = Destination::begin(alloc, &mut input, Host::new(alloc), LIMIT);
    let Ok(mut destination) = begun else {
        return Err(Fail::new(format_args!("{text}: refused")));
    };
    for _ in 0..u64::MAX {
        match destination.take(&mut input) {
            Ok(_) => {}
            Err(Refusal::Ended) => {
                let (_, host) = destination.into_parts();
                return Ok(host);
            }
            Err(refusal) => return Err(Fail::new(format_args!("{text}: {refusal}"))),
        }
    }
    Err(Fail::new("the stream did not end"))
}

#[test]
fn destinations_know_zeros(rt: HostRuntime) -> Result<(), Fail> {
    let alloc = rt.alloc();
    for (text, first, second) in CASES {
        let host = arrived(alloc, text)?;
        let told = (
            dirty_count(&host, alloc, BlockId(0))? > 0,
            dirty_count(&host, alloc, BlockId(1))? > 0,
        );
        assert!(rt; told == (first, second), "{text}: {told:?}");
    }
    for (text, wanted) in LATER {
        let host = arrived(alloc, text)?;
        let bytes = bytes_of(&host, BlockId(0));
        assert!(rt; bytes == wanted.as_slice(), "{text}: {bytes:?}");
    }
    Ok(())
}
