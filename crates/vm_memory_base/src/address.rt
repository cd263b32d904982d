//! Addresses: numbers of bytes from the start of an address space, which a type keeps apart from
//! other numbers and from the addresses of other spaces.
//!
//! ```rust
//! use vm_memory_base::{Address, GuestAddress};
//!
//! let start = GuestAddress(0x128);
//! assert_eq!(rt; start.checked_align_up(16), Some(GuestAddress(0x130)));
//! ```

ghost use Rattle.std.specs.Prelude.{◌≡◌, ℕ, ◌+◌, ◌-◌, ◌%◌, ◌^◌, ◌<◌, ◌≤◌, ◌==◌, ◌↔◌, IsTrue, SomeIff, bit_and, bit_or};
ghost use Rattle.std.specs.Ordering.{nat_cmp};
ghost use Rattle.std.specs.Option.{option_map};
ghost use Rattle.std.specs.Int.{next_multiple_of};
ghost use Rattle.vm_memory_base.specs.PowerOfTwo.{HasOneBit};
ghost use Rattle.std.proofs.Common.{ap, refl, rules};

use std::fmt::Debug;
use std::ops::{BitAnd, BitOr};

/// The unsigned integers of 64 bits that addresses are made of.
pub trait AddressWord: Copy + Ord + Debug {
    /// The whole number that a word stands for.
    ghost value: { Self → ℕ };

    /// The word with the number `n`.
    fn from_byte(n: u8) -> Self
        ensures { value result ≡ n };

    /// The bits that are set in both words.
    fn bits_and(self, other: Self) -> Self
        ensures { value result ≡ bit_and (value self) (value other) };

    /// The bits that are set in one of the words.
    fn bits_or(self, other: Self) -> Self
        ensures { value result ≡ bit_or (value self) (value other) };

    /// The sum, or `None` if it does not fit 64 bits.
    fn checked_add(self, other: Self) -> Option<Self>
        ensures { SomeIff (option_map value result) (value self + value other < 2 ^ 64)
            (value self + value other) };

    /// The difference, or `None` if `other` is greater.
    fn checked_sub(self, other: Self) -> Option<Self>
        ensures { SomeIff (option_map value result) (value other ≤ value self) (value self - value other) };

    /// The sum modulo 2^64, and whether it was too great for 64 bits.
    fn overflowing_add(self, other: Self) -> (Self, bool)
        ensures wrapped { value result.0 ≡ (value self + value other) % 2 ^ 64 }
        ensures overflow { IsTrue result.1 ↔ (2 ^ 64 ≤ value self + value other) };

    /// The difference modulo 2^64, and whether `other` was greater.
    fn overflowing_sub(self, other: Self) -> (Self, bool)
        ensures wrapped { value result.0 ≡ (value self + (2 ^ 64 - value other)) % 2 ^ 64 }
        ensures overflow { IsTrue result.1 ↔ (value self < value other) };

    /// The sum, which has to fit 64 bits.
    fn unchecked_add(self, other: Self) -> Self
        requires { value self + value other < 2 ^ 64 }
        ensures { value result ≡ value self + value other };

    /// The difference. `other` must not be greater.
    fn unchecked_sub(self, other: Self) -> Self
        requires { value other ≤ value self }
        ensures { value result ≡ value self - value other };

    /// The least multiple of `power_of_two`, which has to be a power of two, at or above the word.
    /// `None` if the sum of the word and one less than the power does not fit 64 bits.
    fn checked_align_up(self, power_of_two: Self) -> Option<Self>
        requires { HasOneBit (value power_of_two) }
        ensures { SomeIff (option_map value result) (value self + (value power_of_two - 1) < 2 ^ 64)
            (next_multiple_of (value self) (value power_of_two)) };

    /// The least multiple of `power_of_two`, which has to be a power of two, at or above the word.
    /// The sum of the word and one less than the power has to fit 64 bits.
    fn unchecked_align_up(self, power_of_two: Self) -> Self
        requires power { HasOneBit (value power_of_two) }
        requires fits { value self + (value power_of_two - 1) < 2 ^ 64 }
        ensures { value result ≡ next_multiple_of (value self) (value power_of_two) };
}

impl AddressWord for u64 {
    ghost value = { λ n. n };

    #[inline]
    fn from_byte(n: u8) -> u64 {
        u64::from(n)
    }

    #[inline]
    fn bits_and(self, other: u64) -> u64 {
        self & other
    }

    #[inline]
    fn bits_or(self, other: u64) -> u64 {
        self | other
    }

    #[inline]
    fn checked_add(self, other: u64) -> Option<u64> {
        self.checked_add(other)
    }

    #[inline]
    fn checked_sub(self, other: u64) -> Option<u64> {
        self.checked_sub(other)
    }

    #[inline]
    fn overflowing_add(self, other: u64) -> (u64, bool) {
        self.overflowing_add(other)
    }

    #[inline]
    fn overflowing_sub(self, other: u64) -> (u64, bool) {
        self.overflowing_sub(other)
    }

    #[inline]
    fn unchecked_add(self, other: u64) -> u64 {
        self + other
    }

    #[inline]
    fn unchecked_sub(self, other: u64) -> u64 {
        self - other
    }

    #[tactic(auto, using(crate::proofs::AlignUp::cleared_sum))]
    #[inline]
    fn checked_align_up(self, power_of_two: u64) -> Option<u64> {
        let mask = power_of_two - 1;
        let sum = self.checked_add(mask)?;
        Some(sum & !mask)
    }

    #[tactic(auto, using(crate::proofs::AlignUp::cleared_sum))]
    #[inline]
    fn unchecked_align_up(self, power_of_two: u64) -> u64 {
        let mask = power_of_two - 1;
        (self + mask) & !mask
    }
}

/// The raw value of an address.
pub trait AddressValue {
    /// The type of the raw value.
    type V: AddressWord;

    /// The raw value 0.
    #[inline]
    fn zero() -> Self::V
        ensures { Self.V.value result ≡ 0 }
    {
        Self::V::from_byte(0)
    }

    /// The raw value 1.
    #[inline]
    fn one() -> Self::V
        ensures { Self.V.value result ≡ 1 }
    {
        Self::V::from_byte(1)
    }
}

/// An address of an address space, with the arithmetic of whole numbers below 2^64.
pub trait Address: AddressValue
    + Sized
    + Default
    + Copy
    + Eq
    + PartialEq
    + Ord
    + PartialOrd
    + BitAnd<<Self as AddressValue>::V, Output = Self>
    + BitOr<<Self as AddressValue>::V, Output = Self> {
    /// The address as a whole number.
    ghost number: { Self → ℕ };

    /// The address with a raw value.
    fn new(addr: Self::V) -> Self
        ensures { number result ≡ Self.V.value addr };

    /// The raw value of the address.
    fn raw_value(&self) -> Self::V
        ensures { Self.V.value result ≡ number self.now };

    /// The bits of the address that are also set in the mask.
    #[inline]
    fn mask(&self, mask: Self::V) -> Self::V
        ensures { Self.V.value result ≡ bit_and (number self.now) (Self.V.value mask) }
    {
        self.raw_value().bits_and(mask)
    }

    /// The distance of the address above `base`, in bytes, or `None` if it lies below.
    #[inline]
    fn checked_offset_from(&self, base: Self) -> Option<Self::V>
        ensures { SomeIff (option_map Self.V.value result) (number base ≤ number self.now)
            (number self.now - number base) }
    {
        self.raw_value().checked_sub(base.raw_value())
    }

    /// The distance of the address above `base`, in bytes. It must not lie below.
    #[inline]
    fn unchecked_offset_from(&self, base: Self) -> Self::V
        requires { number base ≤ number self.now }
        ensures { Self.V.value result ≡ number self.now - number base }
    {
        self.raw_value().unchecked_sub(base.raw_value())
    }

    /// The least multiple of `power_of_two`, which has to be a power of two, at or above the
    /// address. `None` if the sum of the address and one less than the power does not fit
    /// 64 bits.
    #[inline]
    fn checked_align_up(&self, power_of_two: Self::V) -> Option<Self>
        requires { HasOneBit (Self.V.value power_of_two) }
        ensures { SomeIff (option_map number result)
            (number self.now + (Self.V.value power_of_two - 1) < 2 ^ 64)
            (next_multiple_of (number self.now) (Self.V.value power_of_two)) }
    {
        let aligned = self.raw_value().checked_align_up(power_of_two)?;
        Some(Self::new(aligned))
    }

    /// The address that lies `other` bytes above, or `None` if it does not fit 64 bits.
    #[inline]
    fn checked_add(&self, other: Self::V) -> Option<Self>
        ensures { SomeIff (option_map number result) (number self.now + Self.V.value other < 2 ^ 64)
            (number self.now + Self.V.value other) }
    {
        let sum = self.raw_value().checked_add(other)?;
        Some(Self::new(sum))
    }

    /// The address that lies `other` bytes above modulo 2^64, and whether the sum was too great for
    /// 64 bits.
    #[inline]
    fn overflowing_add(&self, other: Self::V) -> (Self, bool)
        ensures wrapped { number result.0 ≡ (number self.now + Self.V.value other) % 2 ^ 64 }
        ensures overflow { IsTrue result.1 ↔ (2 ^ 64 ≤ number self.now + Self.V.value other) }
    {
        let (sum, overflow) = self.raw_value().overflowing_add(other);
        (Self::new(sum), overflow)
    }

    /// The address that lies `offset` bytes above, which has to fit 64 bits.
    #[inline]
    fn unchecked_add(&self, offset: Self::V) -> Self
        requires { number self.now + Self.V.value offset < 2 ^ 64 }
        ensures { number result ≡ number self.now + Self.V.value offset }
    {
        Self::new(self.raw_value().unchecked_add(offset))
    }

    /// The address that lies `other` bytes below, or `None` if there is none.
    #[inline]
    fn checked_sub(&self, other: Self::V) -> Option<Self>
        ensures { SomeIff (option_map number result) (Self.V.value other ≤ number self.now)
            (number self.now - Self.V.value other) }
    {
        let difference = self.raw_value().checked_sub(other)?;
        Some(Self::new(difference))
    }

    /// The address that lies `other` bytes below modulo 2^64, and whether `other` was greater.
    #[inline]
    fn overflowing_sub(&self, other: Self::V) -> (Self, bool)
        ensures wrapped { number result.0 ≡ (number self.now + (2 ^ 64 - Self.V.value other)) % 2 ^ 64 }
        ensures overflow { IsTrue result.1 ↔ (number self.now < Self.V.value other) }
    {
        let (difference, overflow) = self.raw_value().overflowing_sub(other);
        (Self::new(difference), overflow)
    }

    /// The address that lies `other` bytes below. `other` must not be greater.
    #[inline]
    fn unchecked_sub(&self, other: Self::V) -> Self
        requires { Self.V.value other ≤ number self.now }
        ensures { number result ≡ number self.now - Self.V.value other }
    {
        Self::new(self.raw_value().unchecked_sub(other))
    }

    /// The least multiple of `power_of_two`, which has to be a power of two, at or above the
    /// address. The sum of the address and one less than the power has to fit 64 bits.
    #[inline]
    fn unchecked_align_up(&self, power_of_two: Self::V) -> Self
        requires power { HasOneBit (Self.V.value power_of_two) }
        requires fits { number self.now + (Self.V.value power_of_two - 1) < 2 ^ 64 }
        ensures { number result ≡ next_multiple_of (number self.now) (Self.V.value power_of_two) }
    {
        Self::new(self.raw_value().unchecked_align_up(power_of_two))
    }

    // The number tells the address.
    ghost same: { (a b : Self) → number a ≡ number b → a ≡ b };

    // Equality and order are those of the numbers.
    ghost equal: { (a b : Self) → Self.eq a b ≡ (number a == number b) };

    ghost ordered: { (a b : Self) → Self.cmp a b ≡ nat_cmp (number a) (number b) };

    // `&` and `|` with a raw value are those of the numbers.
    ghost can_and: { (a : Self) (m : Self.V) → Self.can_bitand a m };

    ghost and_of: { (a : Self) (m : Self.V) (r : Self) → Self.bitand_gives a m r
        → number r ≡ bit_and (number a) (Self.V.value m) };

    ghost can_or: { (a : Self) (m : Self.V) → Self.can_bitor a m };

    ghost or_of: { (a : Self) (m : Self.V) (r : Self) → Self.bitor_gives a m r
        → number r ≡ bit_or (number a) (Self.V.value m) };

    // The default is address 0.
    ghost default_of: { (a : Self) → Self.is_default a → number a ≡ 0 };
}

/// An address of a guest's physical memory, in bytes.
#[derive(Clone, Copy, Debug, PartialEq, Eq, PartialOrd, Ord, Default)]
pub struct GuestAddress(pub u64);

/// An offset from the first byte of a memory region, in bytes.
#[derive(Clone, Copy, Debug, PartialEq, Eq, PartialOrd, Ord, Default)]
pub struct MemoryRegionAddress(pub u64);

/// The type of lengths and offsets in a guest's memory, in bytes.
pub type GuestUsize = u64;

impl AddressValue for GuestAddress {
    type V = u64;
}

impl BitAnd<u64> for GuestAddress {
    type Output = GuestAddress;

    ghost bitand_gives = { λ a m r. r.0 ≡ bit_and a.0 m };

    #[inline]
    fn bitand(self, other: u64) -> GuestAddress {
        GuestAddress(self.0 & other)
    }
}

impl BitOr<u64> for GuestAddress {
    type Output = GuestAddress;

    ghost bitor_gives = { λ a m r. r.0 ≡ bit_or a.0 m };

    #[inline]
    fn bitor(self, other: u64) -> GuestAddress {
        GuestAddress(self.0 | other)
    }
}

impl Address for GuestAddress {
    ghost number = { λ a. a.0 };

    #[inline]
    fn new(addr: u64) -> GuestAddress {
        GuestAddress(addr)
    }

    #[inline]
    fn raw_value(&self) -> u64 {
        self.0
    }

    ghost same = { λ a b e. ap (λ n. record { 0 = n }) e };

    ghost equal = { λ a b. refl };

    ghost ordered = { λ a b. refl };

    ghost can_and = { λ _ _. tt };

    ghost and_of = { λ _ _ _ e. e };

    ghost can_or = { λ _ _. tt };

    ghost or_of = { λ _ _ _ e. e };

    ghost default_of = { λ a d. Prim.search rules };
}

impl AddressValue for MemoryRegionAddress {
    type V = u64;
}

impl BitAnd<u64> for MemoryRegionAddress {
    type Output = MemoryRegionAddress;

    ghost bitand_gives = { λ a m r. r.0 ≡ bit_and a.0 m };

    #[inline]
    fn bitand(self, other: u64) -> MemoryRegionAddress {
        MemoryRegionAddress(self.0 & other)
    }
}

impl BitOr<u64> for MemoryRegionAddress {
    type Output = MemoryRegionAddress;

    ghost bitor_gives = { λ a m r. r.0 ≡ bit_or a.0 m };

    #[inline]
    fn bitor(self, other: u64) -> MemoryRegionAddress {
        MemoryRegionAddress(self.0 | other)
    }
}

impl Address for MemoryRegionAddress {
    ghost number = { λ a. a.0 };

    #[inline]
    fn new(addr: u64) -> MemoryRegionAddress {
        MemoryRegionAddress(addr)
    }

    #[inline]
    fn raw_value(&self) -> u64 {
        self.0
    }

    ghost same = { λ a b e. ap (λ n. record { 0 = n }) e };

    ghost equal = { λ a b. refl };

    ghost ordered = { λ a b. refl };

    ghost can_and = { λ _ _. tt };

    ghost and_of = { λ _ _ _ e. e };

    ghost can_or = { λ _ _. tt };

    ghost or_of = { λ _ _ _ e. e };

    ghost default_of = { λ a d. Prim.search rules };
}
