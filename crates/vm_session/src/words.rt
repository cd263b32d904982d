//! Lists as bytes: numbers of eight bytes each, the lowest first.
ghost use Rattle.std.specs.Prelude.{◌≡◌, ◌+◌, ◌*◌, ◌≤◌, ◌++◌, ℕ, length, take, drop, flat_map, IfOk, option_map};
ghost use Rattle.std.specs.Int.{w64, to_le_bytes};
ghost use Rattle.vm_session.specs.Words.{numbers_in, row_bytes};

use std::alloc::{AllocError, Global};
use vm_memory_base::{IovaRange, MappedRange};
use vm_memory_device::Segment;

// Puts a number at a place.
fn put_word(output: &mut [u8], at: usize, word: u64)
    requires { at + 8 ≤ length output.old }
    ensures { output.new ≡ take at output.old ++ (to_le_bytes w64 word ++ drop (at + 8) output.old) }
{
    output[at..at + 8].copy_from_slice(&word.to_le_bytes());
}

/// Puts numbers at the front.
pub(crate) fn put_words(words: &[usize], output: &mut [u8])
    requires { length words.now * 8 ≤ length output.old }
    ensures { output.new ≡ flat_map (to_le_bytes w64) words.now ++ drop (length words.now * 8) output.old }
{
    let mut at = 0;
    for word in words {
        put_word(output, at, *word as u64);
        at += 8;
    }
}

/// A range that a list has as two numbers.
pub(crate) trait Row {
    // Where it begins, and how long it is.
    ghost base: { Self → ℕ };

    ghost length: { Self → ℕ };

    fn base(&self) -> u64
        ensures { result ≡ base self.now };

    fn length(&self) -> u64
        ensures { result ≡ length self.now };
}

impl Row for MappedRange {
    ghost base = { λ r. r.base.0 };

    ghost length = { λ r. r.length };

    fn base(&self) -> u64 {
        self.base.0
    }

    fn length(&self) -> u64 {
        self.length as u64
    }
}

impl Row for IovaRange {
    ghost base = { λ r. r.base.0 };

    ghost length = { λ r. r.length };

    fn base(&self) -> u64 {
        self.base.0
    }

    fn length(&self) -> u64 {
        self.length as u64
    }
}

impl Row for Segment {
    ghost base = { λ s. s.addr.0 };

    ghost length = { λ s. s.len };

    fn base(&self) -> u64 {
        self.addr.0
    }

    fn length(&self) -> u64 {
        u64::from(self.len)
    }
}

/// Puts ranges at the front.
pub(crate) fn put_rows<T: Row>(rows: &[T], output: &mut [u8])
    requires { length rows.now * 16 ≤ length output.old }
    ensures { output.new ≡ flat_map (λ r. row_bytes (T.base r) (T.length r)) rows.now
        ++ drop (length rows.now * 16) output.old }
{
    let mut at = 0;
    for row in rows {
        put_row(output, at, row.base(), row.length());
        at += 16;
    }
}

// Puts two numbers at a place.
fn put_row(output: &mut [u8], at: usize, base: u64, size: u64)
    requires { at + 16 ≤ length output.old }
    ensures { output.new ≡ take at output.old ++ (row_bytes base size ++ drop (at + 16) output.old) }
{
    put_word(output, at, base);
    put_word(output, at + 8, size);
}

/// The numbers that bytes list, if they do, or `AllocError` if their allocation fails.
pub(crate) fn numbers_of(alloc: Global, input: &[u8]) -> Result<Option<Vec<usize>>, AllocError>
    ensures { IfOk result (λ o. option_map (λ v. v.items) o ≡ numbers_in input.now) }
{
    if input.len() % 8 != 0 {
        return Ok(None);
    }
    let mut numbers = Vec::with_capacity(alloc, input.len() / 8)?;
    let (words, _) = input.as_chunks::<8>();
    for word in words {
        numbers.push(u64::from_le_bytes(*word) as usize)?;
    }
    Ok(Some(numbers))
}
