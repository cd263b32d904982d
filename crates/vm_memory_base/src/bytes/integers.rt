//! The integers of a fixed number of bytes.

ghost use Rattle.std.specs.Prelude.{◌≡◌, ℕ, ◌-◌, ◌^◌, ◌<◌, ◌≤◌, ◌++◌, List, length, replicate, reverse, slice_index};
ghost use Rattle.std.specs.Prelude.{slice_set};
ghost use Rattle.std.specs.Int.{w8, w16, w32, w64, w128, bytes_low_first, to_le_bytes, from_le_bytes, cast_signed};
ghost use Rattle.std.specs.Int.{cast_unsigned};
ghost use Rattle.std.specs.Int.RustNames.{FitsSigned};
ghost use Rattle.std.specs.Bool.{Decides};
ghost use Rattle.std.proofs.lemmas.Bool.Decides.{Decides-eqb, Decides-int_eq};
ghost use Rattle.vm_memory_base.specs.Bytes.{IsByteCode};
ghost use Rattle.vm_memory_base.specs.lemmas.ByteCodes.{unsigned_code, signed_code, length-low};

use super::ByteSized;
use std::fmt::Debug;

/// Integers of at most 16 bytes without padding: the native integers, and those that name
/// the order of their bytes.
pub trait FixedInteger: ByteSized + Copy + Eq + Debug {
    // Holds of the values of the type.
    ghost is_value: { Self → Type 0 };

    // The bytes of a value, and the value with these bytes.
    ghost bytes: { Self → List ℕ };

    ghost value_of: { List ℕ → Self };

    /// How many bytes a value takes.
    fn bytes_count() -> usize
        ensures value { result ≡ Self.width }
        ensures positive { 0 < result }
        ensures small { result ≤ 16 };

    /// The number that the bytes of the value spell, the lowest first.
    fn to_bits(self) -> u128
        ensures bytes { bytes_low_first 0 Self.width result ≡ bytes self }
        ensures fits { result < 256 ^ Self.width }
        ensures known { is_value self };

    /// The value whose bytes spell this number, which has to fit them.
    fn from_bits(bits: u128) -> Self
        requires { bits < 256 ^ Self.width }
        ensures { result ≡ value_of (bytes_low_first 0 Self.width bits) };

    // Values and lists of bytes stand for one another.
    ghost laws: { IsByteCode Self.width is_value bytes value_of };

    // Whatever is taken for a value has as many bytes.
    ghost length_always: { (x : Self) → length (bytes x) ≡ Self.width };

    // Equal values are the same value.
    ghost equal: { (x y : Self) → Decides (Self.eq x y) (x ≡ y) };
}

/// Byte `i` of a number of `size` bytes, the lowest being byte 0.
#[inline]
pub(crate) fn byte_of(bits: u128, size: usize, i: usize) -> u8
    requires small { size ≤ 16 }
    requires inside { i < size }
    ensures { result ≡ slice_index (bytes_low_first 0 size bits) i }
{
    bits.to_le_bytes()[..size][i]
}

/// The number of at most 16 bytes that a slice spells, the lowest byte first.
#[inline]
pub(crate) fn number_in(data: &[u8]) -> u128
    requires { length «data».now ≤ 16 }
    ensures bytes { bytes_low_first 0 (length «data».now) result ≡ «data».now }
    ensures fits { result < 256 ^ length «data».now }
{
    u128::from_le_bytes(padded(data))
}

// The bytes, and zeros up to 16 of them.
#[inline]
fn padded(data: &[u8]) -> [u8; 16]
    requires { length «data».now ≤ 16 }
    ensures { result ≡ «data».now ++ replicate (16 - length «data».now) 0 }
{
    let mut all = [0u8; 16];
    let n = data.len();
    all[..n].copy_from_slice(data);
    all
}

/// Writes the lowest bytes of a number over a slice of at most 16 bytes, the lowest first.
#[inline]
pub(crate) fn write_number(bits: u128, out: &mut [u8])
    requires { length out.old ≤ 16 }
    ensures { out.new ≡ bytes_low_first 0 (length out.old) bits }
{
    let all = bits.to_le_bytes();
    let n = out.len();
    out.copy_from_slice(&all[..n]);
}

/// The number of `size` bytes with byte `i` replaced.
#[inline]
pub(crate) fn with_byte(bits: u128, size: usize, i: usize, b: u8) -> u128
    requires small { size ≤ 16 }
    requires inside { i < size }
    ensures bytes { bytes_low_first 0 size result ≡ slice_set (bytes_low_first 0 size bits) i b }
    ensures fits { result < 256 ^ size }
{
    let mut all = bits.to_le_bytes();
    all[i] = b;
    number_in(&all[..size])
}

/// The number of `size` bytes with its bytes reversed.
#[inline]
pub(crate) fn reversed(bits: u128, size: usize) -> u128
    requires { size ≤ 16 }
    ensures bytes { bytes_low_first 0 size result ≡ reverse (bytes_low_first 0 size bits) }
    ensures fits { result < 256 ^ size }
{
    let mut all = [0u8; 16];
    let own = &mut all[..size];
    write_number(bits, own);
    own.reverse();
    number_in(own)
}

impl ByteSized for u8 {
    ghost width = { 1 };
}

impl FixedInteger for u8 {
    ghost is_value = { λ n. n < 2 ^ 8 };

    ghost bytes = { to_le_bytes w8 };

    ghost value_of = { from_le_bytes w8 };

    #[inline]
    fn bytes_count() -> usize {
        1
    }

    #[inline]
    fn to_bits(self) -> u128 {
        self as u128
    }

    #[inline]
    fn from_bits(bits: u128) -> u8 {
        bits as u8
    }

    ghost laws = { unsigned_code w8 };

    ghost length_always = { length-low 0 1 };

    ghost equal = { Decides-eqb };
}

impl ByteSized for u16 {
    ghost width = { 2 };
}

impl FixedInteger for u16 {
    ghost is_value = { λ n. n < 2 ^ 16 };

    ghost bytes = { to_le_bytes w16 };

    ghost value_of = { from_le_bytes w16 };

    #[inline]
    fn bytes_count() -> usize {
        2
    }

    #[inline]
    fn to_bits(self) -> u128 {
        self as u128
    }

    #[inline]
    fn from_bits(bits: u128) -> u16 {
        bits as u16
    }

    ghost laws = { unsigned_code w16 };

    ghost length_always = { length-low 0 2 };

    ghost equal = { Decides-eqb };
}

impl ByteSized for u32 {
    ghost width = { 4 };
}

impl FixedInteger for u32 {
    ghost is_value = { λ n. n < 2 ^ 32 };

    ghost bytes = { to_le_bytes w32 };

    ghost value_of = { from_le_bytes w32 };

    #[inline]
    fn bytes_count() -> usize {
        4
    }

    #[inline]
    fn to_bits(self) -> u128 {
        self as u128
    }

    #[inline]
    fn from_bits(bits: u128) -> u32 {
        bits as u32
    }

    ghost laws = { unsigned_code w32 };

    ghost length_always = { length-low 0 4 };

    ghost equal = { Decides-eqb };
}

impl ByteSized for u64 {
    ghost width = { 8 };
}

impl FixedInteger for u64 {
    ghost is_value = { λ n. n < 2 ^ 64 };

    ghost bytes = { to_le_bytes w64 };

    ghost value_of = { from_le_bytes w64 };

    #[inline]
    fn bytes_count() -> usize {
        8
    }

    #[inline]
    fn to_bits(self) -> u128 {
        self as u128
    }

    #[inline]
    fn from_bits(bits: u128) -> u64 {
        bits as u64
    }

    ghost laws = { unsigned_code w64 };

    ghost length_always = { length-low 0 8 };

    ghost equal = { Decides-eqb };
}

impl ByteSized for u128 {
    ghost width = { 16 };
}

impl FixedInteger for u128 {
    ghost is_value = { λ n. n < 2 ^ 128 };

    ghost bytes = { to_le_bytes w128 };

    ghost value_of = { from_le_bytes w128 };

    #[inline]
    fn bytes_count() -> usize {
        16
    }

    #[inline]
    fn to_bits(self) -> u128 {
        self
    }

    #[inline]
    fn from_bits(bits: u128) -> u128 {
        bits
    }

    ghost laws = { unsigned_code w128 };

    ghost length_always = { length-low 0 16 };

    ghost equal = { Decides-eqb };
}

impl ByteSized for usize {
    ghost width = { 8 };
}

impl FixedInteger for usize {
    ghost is_value = { λ n. n < 2 ^ 64 };

    ghost bytes = { to_le_bytes w64 };

    ghost value_of = { from_le_bytes w64 };

    #[inline]
    fn bytes_count() -> usize {
        8
    }

    #[inline]
    fn to_bits(self) -> u128 {
        self as u128
    }

    #[inline]
    fn from_bits(bits: u128) -> usize {
        bits as usize
    }

    ghost laws = { unsigned_code w64 };

    ghost length_always = { length-low 0 8 };

    ghost equal = { Decides-eqb };
}

impl ByteSized for i8 {
    ghost width = { 1 };
}

impl FixedInteger for i8 {
    ghost is_value = { FitsSigned w8 };

    ghost bytes = { λ z. to_le_bytes w8 (cast_unsigned w8 z) };

    ghost value_of = { λ s. cast_signed w8 (from_le_bytes w8 s) };

    #[inline]
    fn bytes_count() -> usize {
        1
    }

    #[inline]
    fn to_bits(self) -> u128 {
        self.cast_unsigned() as u128
    }

    #[inline]
    fn from_bits(bits: u128) -> i8 {
        (bits as u8).cast_signed()
    }

    ghost laws = { signed_code w8 };

    ghost length_always = { λ z. length-low 0 1 (cast_unsigned w8 z) };

    ghost equal = { Decides-int_eq };
}

impl ByteSized for i16 {
    ghost width = { 2 };
}

impl FixedInteger for i16 {
    ghost is_value = { FitsSigned w16 };

    ghost bytes = { λ z. to_le_bytes w16 (cast_unsigned w16 z) };

    ghost value_of = { λ s. cast_signed w16 (from_le_bytes w16 s) };

    #[inline]
    fn bytes_count() -> usize {
        2
    }

    #[inline]
    fn to_bits(self) -> u128 {
        self.cast_unsigned() as u128
    }

    #[inline]
    fn from_bits(bits: u128) -> i16 {
        (bits as u16).cast_signed()
    }

    ghost laws = { signed_code w16 };

    ghost length_always = { λ z. length-low 0 2 (cast_unsigned w16 z) };

    ghost equal = { Decides-int_eq };
}

impl ByteSized for i32 {
    ghost width = { 4 };
}

impl FixedInteger for i32 {
    ghost is_value = { FitsSigned w32 };

    ghost bytes = { λ z. to_le_bytes w32 (cast_unsigned w32 z) };

    ghost value_of = { λ s. cast_signed w32 (from_le_bytes w32 s) };

    #[inline]
    fn bytes_count() -> usize {
        4
    }

    #[inline]
    fn to_bits(self) -> u128 {
        self.cast_unsigned() as u128
    }

    #[inline]
    fn from_bits(bits: u128) -> i32 {
        (bits as u32).cast_signed()
    }

    ghost laws = { signed_code w32 };

    ghost length_always = { λ z. length-low 0 4 (cast_unsigned w32 z) };

    ghost equal = { Decides-int_eq };
}

impl ByteSized for i64 {
    ghost width = { 8 };
}

impl FixedInteger for i64 {
    ghost is_value = { FitsSigned w64 };

    ghost bytes = { λ z. to_le_bytes w64 (cast_unsigned w64 z) };

    ghost value_of = { λ s. cast_signed w64 (from_le_bytes w64 s) };

    #[inline]
    fn bytes_count() -> usize {
        8
    }

    #[inline]
    fn to_bits(self) -> u128 {
        self.cast_unsigned() as u128
    }

    #[inline]
    fn from_bits(bits: u128) -> i64 {
        (bits as u64).cast_signed()
    }

    ghost laws = { signed_code w64 };

    ghost length_always = { λ z. length-low 0 8 (cast_unsigned w64 z) };

    ghost equal = { Decides-int_eq };
}

impl ByteSized for i128 {
    ghost width = { 16 };
}

impl FixedInteger for i128 {
    ghost is_value = { FitsSigned w128 };

    ghost bytes = { λ z. to_le_bytes w128 (cast_unsigned w128 z) };

    ghost value_of = { λ s. cast_signed w128 (from_le_bytes w128 s) };

    #[inline]
    fn bytes_count() -> usize {
        16
    }

    #[inline]
    fn to_bits(self) -> u128 {
        self.cast_unsigned()
    }

    #[inline]
    fn from_bits(bits: u128) -> i128 {
        bits.cast_signed()
    }

    ghost laws = { signed_code w128 };

    ghost length_always = { λ z. length-low 0 16 (cast_unsigned w128 z) };

    ghost equal = { Decides-int_eq };
}

impl ByteSized for isize {
    ghost width = { 8 };
}

impl FixedInteger for isize {
    ghost is_value = { FitsSigned w64 };

    ghost bytes = { λ z. to_le_bytes w64 (cast_unsigned w64 z) };

    ghost value_of = { λ s. cast_signed w64 (from_le_bytes w64 s) };

    #[inline]
    fn bytes_count() -> usize {
        8
    }

    #[inline]
    fn to_bits(self) -> u128 {
        self.cast_unsigned() as u128
    }

    #[inline]
    fn from_bits(bits: u128) -> isize {
        (bits as usize).cast_signed()
    }

    ghost laws = { signed_code w64 };

    ghost length_always = { λ z. length-low 0 8 (cast_unsigned w64 z) };

    ghost equal = { Decides-int_eq };
}
