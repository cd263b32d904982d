//! Integers whose types name the order of their bytes, for structures that devices and
//! guests share.
//!
//! ```rust
//! use vm_memory_base::{Be16, ByteValued};
//!
//! assert_eq!(rt; Be16::from(0x0102).byte(0), 1);
//! ```

ghost use Rattle.std.specs.Prelude.{◌≡◌, ◌↔◌, IsTrue, reverse};
ghost use Rattle.std.proofs.Common.{refl};
ghost use Rattle.vm_memory_base.specs.lemmas.ByteCodes.{wrapped_code, reversed_code, length-reversed, wrapped_equal};

use crate::bytes::{ByteSized, FixedInteger, reversed};

/// An integer stored with its lowest byte first. It holds the native value.
#[derive(Clone, Copy, Debug, PartialEq, Eq, Default)]
pub struct LittleEndian<T>(pub T);

/// An integer stored with its highest byte first. It holds the native value.
#[derive(Clone, Copy, Debug, PartialEq, Eq, Default)]
pub struct BigEndian<T>(pub T);

/// A `u16` with its lowest byte first.
pub type Le16 = LittleEndian<u16>;

/// A `u32` with its lowest byte first.
pub type Le32 = LittleEndian<u32>;

/// A `u64` with its lowest byte first.
pub type Le64 = LittleEndian<u64>;

/// A `usize` with its lowest byte first.
pub type LeSize = LittleEndian<usize>;

/// A `u16` with its highest byte first.
pub type Be16 = BigEndian<u16>;

/// A `u32` with its highest byte first.
pub type Be32 = BigEndian<u32>;

/// A `u64` with its highest byte first.
pub type Be64 = BigEndian<u64>;

/// A `usize` with its highest byte first.
pub type BeSize = BigEndian<usize>;

impl<T: FixedInteger> LittleEndian<T> {
    /// The value as a native integer.
    #[inline]
    pub fn to_native(self) -> T
        ensures { result ≡ self.0 }
    {
        let LittleEndian(native) = self;
        native
    }

    /// Whether the value equals a native integer.
    #[inline]
    pub fn equals_native(self, native: T) -> bool
        ensures { IsTrue result ↔ (self.0 ≡ native) }
    {
        self.to_native() == native
    }
}

impl<T: FixedInteger> From<T> for LittleEndian<T> {
    ghost from_gives = { λ v r. r.0 ≡ v };

    #[inline]
    fn from(v: T) -> LittleEndian<T> {
        LittleEndian(v)
    }
}

impl From<LittleEndian<u16>> for u16 {
    ghost from_gives = { λ v r. r ≡ v.0 };

    #[inline]
    fn from(v: LittleEndian<u16>) -> u16 {
        v.to_native()
    }
}

impl From<LittleEndian<u32>> for u32 {
    ghost from_gives = { λ v r. r ≡ v.0 };

    #[inline]
    fn from(v: LittleEndian<u32>) -> u32 {
        v.to_native()
    }
}

impl From<LittleEndian<u64>> for u64 {
    ghost from_gives = { λ v r. r ≡ v.0 };

    #[inline]
    fn from(v: LittleEndian<u64>) -> u64 {
        v.to_native()
    }
}

impl From<LittleEndian<usize>> for usize {
    ghost from_gives = { λ v r. r ≡ v.0 };

    #[inline]
    fn from(v: LittleEndian<usize>) -> usize {
        v.to_native()
    }
}

impl<T: FixedInteger> ByteSized for LittleEndian<T> {
    ghost width = { T.width };
}

impl<T: FixedInteger> FixedInteger for LittleEndian<T> {
    ghost is_value = { λ x. T.is_value x.0 };

    ghost bytes = { λ x. T.bytes x.0 };

    ghost value_of = { λ s. record { 0 = T.value_of s } };

    #[inline]
    fn bytes_count() -> usize {
        T::bytes_count()
    }

    #[inline]
    fn to_bits(self) -> u128 {
        self.0.to_bits()
    }

    #[inline]
    fn from_bits(bits: u128) -> LittleEndian<T> {
        LittleEndian(T::from_bits(bits))
    }

    ghost laws = { wrapped_code (λ x. x.0) (λ v. record { 0 = v }) (λ x. refl) (λ v. refl)
        T.FixedInteger.laws };

    ghost length_always = { λ x. T.length_always x.0 };

    ghost equal = { wrapped_equal (λ x. x.0) (λ v. record { 0 = v }) (λ x. refl) T.equal };
}

impl<T: FixedInteger> BigEndian<T> {
    /// The value as a native integer.
    #[inline]
    pub fn to_native(self) -> T
        ensures { result ≡ self.0 }
    {
        let BigEndian(native) = self;
        native
    }

    /// Whether the value equals a native integer.
    #[inline]
    pub fn equals_native(self, native: T) -> bool
        ensures { IsTrue result ↔ (self.0 ≡ native) }
    {
        let BigEndian(own) = self;
        own == native
    }
}

impl<T: FixedInteger> From<T> for BigEndian<T> {
    ghost from_gives = { λ v r. r.0 ≡ v };

    #[inline]
    fn from(v: T) -> BigEndian<T> {
        BigEndian(v)
    }
}

impl From<BigEndian<u16>> for u16 {
    ghost from_gives = { λ v r. r ≡ v.0 };

    #[inline]
    fn from(v: BigEndian<u16>) -> u16 {
        v.to_native()
    }
}

impl From<BigEndian<u32>> for u32 {
    ghost from_gives = { λ v r. r ≡ v.0 };

    #[inline]
    fn from(v: BigEndian<u32>) -> u32 {
        v.to_native()
    }
}

impl From<BigEndian<u64>> for u64 {
    ghost from_gives = { λ v r. r ≡ v.0 };

    #[inline]
    fn from(v: BigEndian<u64>) -> u64 {
        v.to_native()
    }
}

impl From<BigEndian<usize>> for usize {
    ghost from_gives = { λ v r. r ≡ v.0 };

    #[inline]
    fn from(v: BigEndian<usize>) -> usize {
        v.to_native()
    }
}

impl<T: FixedInteger> ByteSized for BigEndian<T> {
    ghost width = { T.width };
}

impl<T: FixedInteger> FixedInteger for BigEndian<T> {
    ghost is_value = { λ x. T.is_value x.0 };

    // The bytes of the native value in turned order.
    ghost bytes = { λ x. reverse (T.bytes x.0) };

    ghost value_of = { λ s. record { 0 = T.value_of (reverse s) } };

    #[inline]
    fn bytes_count() -> usize {
        T::bytes_count()
    }

    #[inline]
    fn to_bits(self) -> u128 {
        reversed(self.0.to_bits(), T::bytes_count())
    }

    #[inline]
    fn from_bits(bits: u128) -> BigEndian<T> {
        BigEndian(T::from_bits(reversed(bits, T::bytes_count())))
    }

    ghost laws = { reversed_code (λ x. x.0) (λ v. record { 0 = v }) (λ x. refl) (λ v. refl)
        T.FixedInteger.laws };

    ghost length_always = { λ x. length-reversed (T.bytes x.0) (T.length_always x.0) };

    ghost equal = { wrapped_equal (λ x. x.0) (λ v. record { 0 = v }) (λ x. refl) T.equal };
}
