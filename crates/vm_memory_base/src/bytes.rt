//! Values as bytes.

ghost use Rattle.std.specs.Prelude.{◌≡◌, ℕ, ◌+◌, ◌-◌, ◌^◌, ◌<◌, ◌≤◌, ◌↔◌, List, ◌++◌, min, length, take, drop};
ghost use Rattle.std.specs.Prelude.{replicate, slice_index, slice_set, SomeIff, IsTrue, OnOk, IfOk};
ghost use Rattle.std.specs.Io.KnownBytes.{Appends, Consumes};
ghost use Rattle.std.specs.Bool.{OnTrue, OnFalse};
ghost use Rattle.vm_memory_base.specs.Bytes.{IsByteCode};

mod arrays;
mod atomic;
mod integers;
mod pairs;
mod pieces;

pub use self::atomic::AtomicAccess;
pub use self::integers::FixedInteger;
pub(crate) use self::integers::reversed;
use self::pieces::{PIECE, copy_part, put_part, read_piece, write_piece};
use std::io::{self, Read, Write};

/// Types each of whose values takes the same number of bytes.
pub trait ByteSized {
    // How many bytes a value takes.
    ghost width: { ℕ };
}

/// Types whose values stand one for one for the lists of a fixed number of bytes.
///
/// The integers hold their lowest byte first. An array holds its elements one after the other, and a pair
/// of an integer and a value the bytes of the integer before those of the value. So a struct of fixed fields
/// is a value by a nest of pairs.
///
/// ```rust
/// use vm_memory_base::ByteValued;
///
/// assert_eq!(rt; u32::from_slice(&[1, 2, 0, 0]), Some(0x0201));
/// ```
pub trait ByteValued: ByteSized + Copy {
    // Holds of the values of the type.
    ghost is_value: { Self → Type 0 };

    // The bytes of a value, and the value with these bytes.
    ghost bytes: { Self → List ℕ };

    ghost value_of: { List ℕ → Self };

    /// How many bytes a value has, cut to 2^64 - 1.
    fn size() -> usize
        ensures { result ≡ min Self.width (2 ^ 64 - 1) };

    /// Byte `i` of the value. The value has to have it.
    fn byte(&self, i: usize) -> u8
        requires { i < Self.width }
        ensures { result ≡ slice_index (bytes self.now) i };

    /// Replaces byte `i` of the value. The value has to have it.
    fn set_byte(&mut self, i: usize, b: u8)
        requires { i < Self.width }
        ensures { bytes self.new ≡ slice_set (bytes self.old) i b };

    /// The value whose bytes are all 0.
    fn zeroed() -> Self
        ensures { bytes result ≡ replicate Self.width 0 };

    /// The value with the bytes of `data`, or `None` if these are not `size()` bytes.
    fn from_slice(data: &[u8]) -> Option<Self>
        ensures { SomeIff result (length «data».now ≡ Self.width) (value_of «data».now) };

    /// Writes the bytes of the value over `out`. If `out` does not have `size()` bytes, it writes nothing
    /// and returns false.
    fn to_slice(&self, out: &mut [u8]) -> bool
        ensures fits { IsTrue result ↔ (length out.old ≡ Self.width) }
        ensures written { OnTrue result (out.new ≡ bytes self.now) }
        ensures unchanged { OnFalse result (out.new ≡ out.old) };

    /// Does nothing. A proof learns from it that the value is one of the type.
    fn recall_law(&self)
        ensures { is_value self.now };

    // Values and lists of bytes stand for one another, so both round trips lead back.
    ghost laws: { IsByteCode Self.width is_value bytes value_of };

    /// Copies the bytes of the value, from byte `from` on, over `out`. The value has to have as many bytes
    /// there as `out`.
    #[inline]
    final fn copy_bytes(&self, from: usize, out: &mut [u8])
        requires inside { from + length out.old ≤ Self.width }
        requires fits { from + length out.old < 2 ^ 64 }
        ensures { out.new ≡ take (length out.old) (drop from (bytes self.now)) }
    {
        self.recall_law();
        if from > 0 || !self.to_slice(out) {
            copy_part(self, from, out);
        }
    }

    /// Replaces the bytes of the value, from byte `from` on, by those of `data`. The value has to have as
    /// many bytes there as `data`.
    #[inline]
    final fn set_bytes(&mut self, from: usize, data: &[u8])
        requires inside { from + length «data».now ≤ Self.width }
        requires fits { from + length «data».now < 2 ^ 64 }
        ensures { bytes self.new ≡ take from (bytes self.old) ++ «data».now
            ++ drop (from + length «data».now) (bytes self.old) }
    {
        self.recall_law();
        if from == 0 {
            if let Some(whole) = Self::from_slice(data) {
                *self = whole;
                return;
            }
        }
        put_part(self, from, data);
    }

    /// Writes the bytes of the value to a writer, at most 64 at once.
    ///
    /// An error is the writer's. How many of the bytes the writer took is not known.
    ///
    /// Leaves open: any error at any time, and then which bytes were moved.
    final fn write_all_to<W: Write>(&self, writer: &mut W) -> io::Result<()>
        ensures { Self.width < 2 ^ 64
            → OnOk result (Appends (W.contents writer.old) (W.contents writer.new) (bytes self.now)) }
    {
        self.recall_law();
        let size = Self::size();
        let mut done = 0;
        while done < size {
            let count = PIECE.min(size - done);
            write_piece(self, writer, done, count)?;
            done += count;
        }
        Ok(())
    }

    /// The value with the next `size()` bytes of a reader, taken at most 64 at once.
    ///
    /// An error is the reader's. How many bytes the reader gave is not known. If a reader ends too
    /// early, std's error is of the kind `UnexpectedEof`.
    ///
    /// Leaves open: any error at any time, and then which bytes were moved.
    final fn read_exact_from<R: Read>(reader: &mut R) -> io::Result<Self>
        ensures { Self.width < 2 ^ 64
            → IfOk result (λ x. Consumes (R.remaining reader.old) (R.remaining reader.new) (bytes x)) }
    {
        let size = Self::size();
        let mut value = Self::zeroed();
        let mut done = 0;
        while done < size {
            let count = PIECE.min(size - done);
            read_piece(&mut value, reader, done, count)?;
            done += count;
        }
        value.recall_law();
        Ok(value)
    }
}

impl<T: FixedInteger> ByteValued for T {
    ghost is_value = { T.is_value };

    ghost bytes = { T.bytes };

    ghost value_of = { T.value_of };

    #[inline]
    fn size() -> usize {
        T::bytes_count()
    }

    #[inline]
    fn byte(&self, i: usize) -> u8 {
        integers::byte_of(self.to_bits(), T::bytes_count(), i)
    }

    #[inline]
    fn set_byte(&mut self, i: usize, b: u8) {
        let bits = integers::with_byte(self.to_bits(), T::bytes_count(), i, b);
        *self = T::from_bits(bits);
    }

    #[inline]
    fn zeroed() -> T {
        T::from_bits(0)
    }

    #[inline]
    fn from_slice(data: &[u8]) -> Option<T> {
        if data.len() != T::bytes_count() {
            return None;
        }
        Some(T::from_bits(integers::number_in(data)))
    }

    #[inline]
    fn to_slice(&self, out: &mut [u8]) -> bool {
        if out.len() != T::bytes_count() {
            return false;
        }
        integers::write_number(self.to_bits(), out);
        true
    }

    #[inline]
    fn recall_law(&self) {
        self.to_bits();
    }

    ghost laws = { T.FixedInteger.laws };
}
