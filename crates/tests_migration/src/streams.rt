//! Streams that are written by hand, and what a receiver replies.

use crate::guests::{bytes_of, guest_of};
use live_migration::{Receiver, Refusal, Stage};
use sha2::{Digest, Sha256};
use std::alloc::Global;
use std::fmt::Write;
use std::test::Fail;
use test_text::expect_text;
use vm_memory_base::NewBitmap;
use vm_memory_guest::{BlockId, HostMemory};

/// A stream in words: `m` is the magic word, `4,7` a number of 32 bits, `8,7` one of 64, `x,01ff` bytes, `z,3` N zeros,
/// `e,0` the end of a round with the digest of all before it, and `n,0` one with none; numbers are hexadecimal. `a` is
/// a header that asks for digests, of a block of 5 bytes in pages of 2 and one of 3 bytes in a page of 4, and `b` the
/// same that asks for none. Then the bytes of both blocks, or why the receiver refused.
pub(crate) const CASES: [(&str, &str); 78] = [
    // Pages, one after the other and alone, zeros, cut pages, rounds, sections.
    ("a e,0 4,5 4,0 4,6 4,0", "[0, 0, 0, 0, 0] [0, 0, 0]"),
    (
        "a 4,1 4,11 4,0 8,0 x,0102030405 4,1 4,f 4,1 8,0 x,070809 e,0 4,5 4,0 4,6 4,0",
        "[1, 2, 3, 4, 5] [7, 8, 9]",
    ),
    (
        "a 4,1 4,d 4,0 8,2 x,05 4,1 4,e 4,0 8,1 x,0304 e,0 4,5 4,0 4,6 4,0",
        "[0, 0, 3, 4, 5] [0, 0, 0]",
    ),
    (
        "a 4,1 4,11 4,0 8,0 x,0102030405 4,2 4,c 4,0 8,2 4,2 4,c 4,0 8,0 e,0 4,5 4,0 4,6 4,0",
        "[0, 0, 3, 4, 0] [0, 0, 0]",
    ),
    (
        "a 4,4 4,3 x,02 x,6162 e,0 4,1 4,f 4,1 8,0 x,070809 e,1 4,5 4,0 4,6 4,0",
        "[0, 0, 0, 0, 0] [7, 8, 9]",
    ),
    // No digests are asked for.
    (
        "b 4,1 4,11 4,0 8,0 x,0102030405 n,0 4,1 4,f 4,1 8,0 x,070809 n,1 4,5 4,0 4,6 4,0",
        "[1, 2, 3, 4, 5] [7, 8, 9]",
    ),
    // No blocks.
    ("m 4,2 4,1 4,0 e,0 4,5 4,0 4,6 4,0", "[] []"),
    // The header.
    ("8,5441524749444d57 4,2 4,1 4,0", "Magic"),
    ("m 4,1 4,1 4,0", "Version"),
    ("m 4,3 4,1 4,0", "Version"),
    ("m 4,0 4,1 4,0", "Version"),
    ("m 4,2 4,2 4,0", "Options"),
    ("m 4,2 4,ffffffff 4,0", "Options"),
    ("m 4,2 4,1 4,101", "BlockCount"),
    ("m 4,2 4,1 4,ffffffff", "BlockCount"),
    ("m 4,2 4,1 4,1 8,0 8,1 8,0", "BlockLength"),
    ("m 4,2 4,1 4,1 8,8000000000000000 8,1 8,0", "BlockLength"),
    ("m 4,2 4,1 4,1 8,1 8,0 8,0", "PageSize"),
    ("m 4,2 4,1 4,1 8,1 8,100001 8,0", "PageSize"),
    ("m 4,2 4,1 4,1 8,1 8,1 8,ffffffffffffffff", "Place"),
    ("m 4,2 4,1 4,2 8,5 8,1 8,10 8,1 8,1 8,14", "Place"),
    ("m 4,2 4,1 4,2 8,5 8,1 8,10 8,1 8,1 8,0", "Place"),
    ("m 4,2 4,1 4,1 8,301 8,1 8,0", "TooMuchMemory"),
    ("m 4,2 4,1 4,2 8,2ff 8,1 8,0 8,2 8,1 8,2ff", "TooMuchMemory"),
    ("m 4,2 4,1 4,1 8,7fffffffffffffff 8,1 8,0", "TooMuchMemory"),
    // Kinds, and lengths that a kind or the header does not let be. Nothing of such a frame has come.
    ("a 4,0 4,0", "FrameKind"),
    ("a 4,7 4,0", "FrameKind"),
    ("a 4,80 4,0", "FrameKind"),
    ("a 4,1 4,12", "FrameLength"),
    ("a 4,1 4,10000d", "FrameLength"),
    ("a 4,1 4,ffffffff", "FrameLength"),
    ("a 4,1 4,b x,0000000000000000000000", "FrameLength"),
    ("a 4,2 4,d", "FrameLength"),
    ("a 4,2 4,b x,0000000000000000000000", "FrameLength"),
    ("a 4,3 4,25", "FrameLength"),
    ("a 4,3 4,23 z,23", "FrameLength"),
    ("a 4,3 4,5 4,0 z,1", "FrameLength"),
    ("b 4,3 4,3 z,3", "FrameLength"),
    ("a 4,4 4,100101", "FrameLength"),
    ("a 4,4 4,0", "FrameLength"),
    ("a 4,4 4,2 x,02 x,61", "FrameLength"),
    ("a 4,5 4,1", "FrameLength"),
    ("a 4,6 4,1", "FrameLength"),
    // Blocks and pages.
    ("a 4,1 4,e 4,2 8,0 x,0102", "Block"),
    ("a 4,2 4,c 4,ffffffff 8,0", "Block"),
    ("a 4,1 4,d 4,0 8,3 x,01", "Page"),
    ("a 4,1 4,d 4,1 8,1 x,01", "Page"),
    ("a 4,1 4,d 4,0 8,8000000000000000 x,01", "Page"),
    ("a 4,1 4,d 4,0 8,ffffffffffffffff x,01", "Page"),
    ("a 4,2 4,c 4,0 8,3", "Page"),
    ("a 4,2 4,c 4,1 8,1", "Page"),
    ("a 4,2 4,c 4,1 8,4000000000000000", "Page"),
    ("a 4,1 4,e 4,0 8,2 x,0102", "Page"),
    ("a 4,1 4,10 4,1 8,0 x,01020304", "Page"),
    ("a 4,1 4,c 4,0 8,0", "CutPage"),
    ("a 4,1 4,d 4,0 8,0 x,01", "CutPage"),
    ("a 4,1 4,f 4,0 8,0 x,010203", "CutPage"),
    ("a 4,1 4,e 4,1 8,0 x,0102", "CutPage"),
    // The order.
    ("a 4,5 4,0", "Order"),
    ("a 4,6 4,0", "Order"),
    ("a e,0 4,6 4,0", "Order"),
    ("a e,0 4,2 4,c 4,0 8,0 4,5 4,0", "Order"),
    ("a e,0 4,5 4,0 4,5 4,0", "Order"),
    ("a e,0 4,5 4,0 4,2 4,c 4,0 8,0", "Order"),
    ("a e,0 4,5 4,0 e,1", "Order"),
    ("a e,1", "Order"),
    ("a e,0 e,0", "Order"),
    ("a e,0 4,5 4,0 4,4 4,2 x,01 x,61", "Order"),
    // The digest.
    ("a 4,3 4,24 4,0 z,20", "Digest"),
    (
        "m 4,2 4,1 4,0 4,3 4,24 4,0 x,e3b0c44298fc1c149afbf4c8996fb92427ae41e4649b934ca495991b7852b855",
        "Digest",
    ),
    ("a n,0", "Digest"),
    ("b e,0", "Digest"),
    // A section costs 256 bytes and its own, here 258, of which 257 are left.
    (
        "m 4,2 4,1 4,1 8,1ff 8,1 8,0 4,4 4,3 x,01 x,6162",
        "TooMuchMemory",
    ),
    // Ends that come too early; each other cut is below.
    ("m 4,2 4,1 4,2 8,5 8,2 8,1000", "Ended"),
    ("a", "Ended"),
    ("a 4,1 4,e 4,0 8,0 x,01", "Ended"),
    ("a e,0", "Ended"),
    ("a e,0 4,5 4,0", "Ended"),
];

/// The stream of the cuts: each kind of frame, in two rounds.
pub(crate) const WHOLE: &str =
    "a 4,1 4,11 4,0 8,0 x,0102030405 4,2 4,c 4,1 8,0 e,0 4,1 4,f 4,1 8,0 x,070809 4,4 4,3 x,02 x,6162 e,1 \
     4,5 4,0 4,6 4,0";

/// What the blocks and sections of these streams may cost.
pub(crate) const LIMIT: u64 = 0x300;

// The value of a hexadecimal digit.
fn digit_of(byte: u8) -> u64 {
    (byte as char).to_digit(16).unwrap_or(0) as u64
}

fn number_of(text: &[u8]) -> u64 {
    let mut number: u64 = 0;
    for byte in text {
        number = number.wrapping_mul(16).wrapping_add(digit_of(*byte));
    }
    number
}

// Puts the bytes of a word.
fn put_word(stream: &mut Vec<u8>, word: &str) -> Result<(), Fail> {
    let bytes = word.as_bytes();
    let tail = bytes.get(2..).unwrap_or(b"");
    match bytes.first() {
        Some(b'm') => stream.extend_from_slice(b"VMMIGRAT")?,
        Some(b'4') => stream.extend_from_slice(&number_of(tail).to_le_bytes()[..4])?,
        Some(b'8') => stream.extend_from_slice(&number_of(tail).to_le_bytes())?,
        Some(b'z') => {
            for _ in 0..number_of(tail) {
                stream.push(0)?;
            }
        }
        Some(b'x') => {
            for pair in tail.chunks(2) {
                stream.push((number_of(pair) % 256) as u8)?;
            }
        }
        Some(b'e') => {
            let digest = Sha256::digest(stream.as_slice());
            stream.extend_from_slice(&[3, 0, 0, 0, 0x24, 0, 0, 0])?;
            stream.extend_from_slice(&number_of(tail).to_le_bytes()[..4])?;
            stream.extend_from_slice(&digest)?;
        }
        Some(b'n') => {
            stream.extend_from_slice(&[3, 0, 0, 0, 4, 0, 0, 0])?;
            stream.extend_from_slice(&number_of(tail).to_le_bytes()[..4])?;
        }
        _ => {}
    }
    Ok(())
}

/// The stream that words say.
pub(crate) fn stream_of(alloc: Global, text: &str) -> Result<Vec<u8>, Fail> {
    let mut stream = Vec::new(alloc);
    for word in text.split_whitespace() {
        let words = match word {
            "a" => "m 4,2 4,1 4,2 8,5 8,2 8,1000 8,3 8,4 8,2000",
            "b" => "m 4,2 4,0 4,2 8,5 8,2 8,1000 8,3 8,4 8,2000",
            _ => word,
        };
        for word in words.split_whitespace() {
            put_word(&mut stream, word)?;
        }
    }
    Ok(stream)
}

// Takes a stream to its end, in a host that has a block before.
fn taken<B: NewBitmap + Drop>(
    alloc: Global,
    stream: &[u8],
    host: &mut HostMemory<B>,
) -> Result<(), Refusal> {
    let mut input = stream;
    let mut receiver = Receiver::begin(alloc, &mut input, host, LIMIT)?;
    for _ in 0..u64::MAX {
        if receiver.take(&mut input, host)? == Stage::Gone {
            return Ok(());
        }
    }
    Ok(())
}

/// Takes a stream, and writes what came of it.
pub(crate) fn told(alloc: Global, stream: &[u8]) -> Result<String, Fail> {
    let (mut host, _) = guest_of(alloc, &[(4, 1)])?;
    told_in(alloc, stream, &mut host)
}

// Takes a stream into a host that has a block of four bytes.
fn told_in<B: NewBitmap + Drop>(
    alloc: Global,
    stream: &[u8],
    host: &mut HostMemory<B>,
) -> Result<String, Fail> {
    let outcome = taken(alloc, stream, host);
    if bytes_of(host, BlockId(0)) != [0, 0, 0, 0].as_slice() {
        return Ok(String::from_str(alloc, "another block changed")?);
    }
    let mut text = String::new(alloc);
    match outcome {
        Ok(()) => {
            let (first, second) = (bytes_of(host, BlockId(1)), bytes_of(host, BlockId(2)));
            write!(text, "{first:?} {second:?}")?;
        }
        Err(refusal) => write!(text, "{refusal:?}")?,
    }
    Ok(text)
}

#[test]
fn streams_by_hand(rt: HostRuntime) -> Result<(), Fail> {
    for (case, (text, wanted)) in CASES.iter().enumerate() {
        let stream = stream_of(rt.alloc(), text)?;
        expect_text(case, told(rt.alloc(), stream.as_slice())?.as_str(), wanted)?;
    }
    Ok(())
}

#[test]
fn streams_that_end_early(rt: HostRuntime) -> Result<(), Fail> {
    let stream = stream_of(rt.alloc(), WHOLE)?;
    for cut in 0..stream.len() {
        expect_text(cut, told(rt.alloc(), &stream[..cut])?.as_str(), "Ended")?;
    }
    expect_text(
        stream.len(),
        told(rt.alloc(), stream.as_slice())?.as_str(),
        "[1, 2, 3, 4, 5] [7, 8, 9]",
    )
}
