//! What sections cost of a receiver's limit, however many come.

use crate::guests::Host;
use live_migration::{
    BlockEntry, Frame, MOST_PAGE_BYTES, Options, Receiver, Refusal, Stage, encode_header,
};
use std::alloc::Global;
use std::test::Fail;
use vm_memory_base::NewBitmap;
use vm_memory_guest::HostMemory;

// What a block of one byte leaves of the limit, the lengths of the name and of the bytes of each section, and how many
// of a million such sections are taken. Each costs 256 bytes beside its name and its bytes.
static CASES: [(u64, usize, usize, u64); 12] = [
    (0, 0, 0, 0),
    (255, 0, 0, 0),
    (256, 0, 0, 1),
    (511, 0, 0, 1),
    (512, 0, 0, 2),
    // Empty sections, of which each is nine bytes of the stream: 2^24 / 2^8.
    (0x100_0000, 0, 0, 0x1_0000),
    // A name or bytes alone, and both.
    (257, 2, 0, 0),
    (258, 0, 2, 1),
    (1000, 1, 1, 3),
    // As long as a section may be: 2^20 + 511.
    (0x10_01fe, 255, 0x10_0000, 0),
    (0x10_01ff, 255, 0x10_0000, 1),
    (0x30_05fc, 255, 0x10_0000, 2),
];

// A receiver of a block of one byte, with so much left for sections.
fn receiver_of<B: NewBitmap + Drop>(
    alloc: Global,
    host: &mut HostMemory<B>,
    left: u64,
) -> Result<Receiver, Fail> {
    let entry = BlockEntry {
        len: 1,
        page_size: 1,
        address: 0,
    };
    let header = encode_header(alloc, Options::default(), &[entry])?;
    let limit = left.saturating_add(1);
    Ok(Receiver::begin(alloc, &mut header.as_slice(), host, limit)?)
}

// Sends a million times the same section. How many were taken, and why the next one was not.
fn taken<B: NewBitmap + Drop>(
    alloc: Global,
    host: &mut HostMemory<B>,
    left: u64,
    name: &[u8],
    bytes: &[u8],
) -> Result<(u64, Option<Refusal>), Fail> {
    if name.len() > 255 || bytes.len() > MOST_PAGE_BYTES {
        return Err(Fail::new("no section is so long"));
    }
    let mut receiver = receiver_of(alloc, host, left)?;
    let mut section = Vec::new(alloc);
    Frame::Section { name, bytes }.encode(&mut section)?;
    for count in 0..1_000_000 {
        match receiver.take(&mut section.as_slice(), host) {
            Ok(Stage::Round) => {}
            Ok(_) => return Ok((count, None)),
            Err(refusal) => return Ok((count, Some(refusal))),
        }
    }
    Ok((1_000_000, None))
}

#[test]
fn sections_are_bounded(rt: HostRuntime) -> Result<(), Fail> {
    let alloc = rt.alloc();
    let name = vec![in alloc; 1u8; 255]?;
    let bytes = vec![in alloc; 2u8; 0x10_0000]?;
    for (case, (left, names, lengths, wanted)) in CASES.iter().enumerate() {
        let name = name.get(..*names).unwrap_or(&[]);
        let bytes = bytes.get(..*lengths).unwrap_or(&[]);
        let (count, refusal) = taken(alloc, &mut Host::new(alloc), *left, name, bytes)?;
        assert!(rt;
            count == *wanted && refusal == Some(Refusal::TooMuchMemory),
            "case {case}: {count} sections, {refusal:?}"
        );
    }
    Ok(())
}
