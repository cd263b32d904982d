//! How long a frame of pages may be: as long as the longest block, wherever it stands in the header, and at most 2^20
//! bytes. A page of zeros is as long as its own block says, and a header has up to 256 blocks.

use crate::guests::{Host, bytes_of};
use live_migration::{BlockEntry, Options, Receiver, Refusal, Stage, encode_header};
use std::alloc::Global;
use std::test::Fail;
use test_text::expect_text;
use vm_memory_base::NewBitmap;
use vm_memory_guest::{BlockId, HostMemory};

// The lengths of the blocks and of their pages, the block of a frame, how many bytes it has from the first page on, and
// what comes of it. Of a frame that is taken, the first page is then made zeros.
type Case = (&'static [(u64, u64)], u32, u32, &'static str);

const SHORT: (u64, u64) = (0x10, 0x10);

static CASES: [Case; 25] = [
    (&[SHORT], 0, 0x10, "Round"),
    (&[SHORT], 0, 0x11, "FrameLength"),
    // A longer block after a short one, or before it.
    (&[SHORT, (0x1_0000, 0x10)], 1, 0x1_0000, "Round"),
    (&[SHORT, (0x1_0000, 0x10)], 1, 0x20, "Round"),
    (&[SHORT, (0x1_0000, 0x10)], 1, 0x1_0001, "FrameLength"),
    (&[SHORT, (0x1_0000, 0x10)], 0, 0x20, "Page"),
    (&[(0x1_0000, 0x10), SHORT], 0, 0x1_0000, "Round"),
    (&[(0x1_0000, 0x10), SHORT], 1, 0x10, "Round"),
    (&[(0x1_0000, 0x10), SHORT], 0, 0x1_0001, "FrameLength"),
    (&[SHORT, (0x20, 0x10), (0x30, 0x10)], 2, 0x30, "Round"),
    (&[(0x30, 0x10), SHORT, (0x20, 0x10)], 2, 0x20, "Round"),
    (&[SHORT, (0x30, 0x10), (0x20, 0x10)], 1, 0x30, "Round"),
    (&[SHORT, (0x30, 0x10), (0x20, 0x10)], 1, 0x31, "FrameLength"),
    // 2^16, and 2^20 and more.
    (&[SHORT, (0xffff, 0x10)], 1, 0xffff, "Round"),
    (&[SHORT, (0x10_0000, 0x10)], 1, 0x10_0000, "Round"),
    (&[SHORT, (0x10_0000, 0x10)], 1, 0x10_0001, "FrameLength"),
    (&[SHORT, (0x28_0000, 0x10)], 1, 0x10_0000, "Round"),
    (&[SHORT, (0x28_0000, 0x10)], 1, 0x10_0001, "FrameLength"),
    (&[(0x28_0000, 0x10), SHORT], 0, 0x10_0001, "FrameLength"),
    // Longer pages after shorter ones, or before them.
    (&[SHORT, (0x4000, 0x1000)], 1, 0x1000, "Round"),
    (&[(0x4000, 0x1000), SHORT], 0, 0x2000, "Round"),
    (&[(0x4000, 0x1000), SHORT], 1, 0x10, "Round"),
    (&[SHORT, (0x4000, 0x1000), (0x40, 0x20)], 1, 0x1000, "Round"),
    (&[SHORT, (0x20_0000, 0x10_0000)], 1, 0x10_0000, "Round"),
    (&[SHORT, (0x4000, 0x1000)], 1, 0x800, "CutPage"),
];

fn byte_at(place: usize) -> u8 {
    (place % 249) as u8 + 1
}

fn receiver_of<B: NewBitmap + Drop>(
    alloc: Global,
    host: &mut HostMemory<B>,
    blocks: &[(u64, u64)],
) -> Result<Receiver, Fail> {
    let mut entries = Vec::new(alloc);
    let mut address = 0u64;
    for (len, page_size) in blocks {
        entries.push(BlockEntry {
            len: *len,
            page_size: *page_size,
            address,
        })?;
        address = address.saturating_add(*len);
    }
    if entries.len() > 256 {
        return Err(Fail::new("no header has so many blocks"));
    }
    let header = encode_header(alloc, Options::default(), entries.as_slice())?;
    Ok(Receiver::begin(alloc, &mut header.as_slice(), host, 0x100_0000)?)
}

// The kind and the payload's length of a frame, its block and its first page, written by hand.
fn head_of(alloc: Global, kind: u32, len: u32, block: u32) -> Result<Vec<u8>, Fail> {
    let mut frame = Vec::new(alloc);
    frame.extend_from_slice(&kind.to_le_bytes())?;
    frame.extend_from_slice(&len.to_le_bytes())?;
    frame.extend_from_slice(&block.to_le_bytes())?;
    frame.extend_from_slice(&0u64.to_le_bytes())?;
    Ok(frame)
}

// A frame of pages.
fn frame_of(alloc: Global, block: u32, count: u32) -> Result<Vec<u8>, Fail> {
    let mut frame = head_of(alloc, 1, count.saturating_add(12), block)?;
    for place in 0..count {
        frame.push(byte_at(place as usize))?;
    }
    Ok(frame)
}

// Fails where the blocks have other bytes than those of a frame that was taken, without so many that were made zeros.
fn expect_blocks<B: NewBitmap + Drop>(
    host: &HostMemory<B>,
    blocks: &[(u64, u64)],
    block: u32,
    zeros: usize,
    count: u32,
) -> Result<(), Fail> {
    for (number, (len, _)) in blocks.iter().enumerate() {
        let bytes = bytes_of(host, BlockId(number));
        if bytes.len() as u64 != *len {
            return Err(Fail::new("a block has another length"));
        }
        let moved = if number == block as usize {
            count as usize
        } else {
            0
        };
        for (place, byte) in bytes.iter().enumerate() {
            let is_moved = zeros <= place && place < moved;
            let wanted = if is_moved { byte_at(place) } else { 0 };
            if *byte != wanted {
                return Err(Fail::new(format_args!("byte {place} of block {number} is {byte}")));
            }
        }
    }
    Ok(())
}

fn told(alloc: Global, taken: Result<Stage, Refusal>) -> Result<String, Fail> {
    Ok(match taken {
        Ok(stage) => format!(in alloc; "{stage:?}")?,
        Err(refusal) => format!(in alloc; "{refusal:?}")?,
    })
}

fn run<B: NewBitmap + Drop>(
    alloc: Global,
    host: &mut HostMemory<B>,
    number: usize,
    case: &Case,
) -> Result<(), Fail> {
    let (blocks, block, count, wanted) = *case;
    let mut receiver = receiver_of(alloc, host, blocks)?;
    let frame = frame_of(alloc, block, count)?;
    let taken = receiver.take(&mut frame.as_slice(), host);
    expect_text(number, told(alloc, taken)?.as_str(), wanted)?;
    if taken.is_err() {
        return expect_blocks(host, blocks, block, 0, 0);
    }
    expect_blocks(host, blocks, block, 0, count)?;
    let zeros = head_of(alloc, 2, 12, block)?;
    let taken = receiver.take(&mut zeros.as_slice(), host);
    expect_text(number, told(alloc, taken)?.as_str(), "Round")?;
    let page_size = blocks
        .get(block as usize)
        .map_or(0, |(_, page_size)| *page_size as usize);
    expect_blocks(host, blocks, block, page_size, count)
}

#[test]
fn frames_are_as_long_as_the_longest_block(rt: HostRuntime) -> Result<(), Fail> {
    for (number, case) in CASES.iter().enumerate() {
        run(rt.alloc(), &mut Host::new(rt.alloc()), number, case)?;
    }
    Ok(())
}

// Frames to the last block and to one that there is not.
#[test]
fn a_header_has_up_to_256_blocks(rt: HostRuntime) -> Result<(), Fail> {
    for count in [17u32, 64, 65, 255, 256] {
        let blocks = vec![in rt.alloc(); SHORT; count as usize]?;
        let mut host = Host::new(rt.alloc());
        let mut receiver = receiver_of(rt.alloc(), &mut host, blocks.as_slice())?;
        let last = count.saturating_sub(1);
        for (block, wanted) in [(last, "Round"), (count, "Block")] {
            let frame = frame_of(rt.alloc(), block, 0x10)?;
            let taken = receiver.take(&mut frame.as_slice(), &mut host);
            expect_text(count as usize, told(rt.alloc(), taken)?.as_str(), wanted)?;
        }
        expect_blocks(&host, blocks.as_slice(), last, 0, 0x10)?;
    }
    Ok(())
}
