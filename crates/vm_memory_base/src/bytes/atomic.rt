//! Values that are read and written as one atomic integer.

ghost use Rattle.std.specs.Prelude.{◌≡◌, ◌<◌, ◌≤◌};
ghost use Rattle.std.proofs.Common.{refl, ap, lit<, lit≤};

use super::ByteValued;
use crate::atomic_integer::AtomicInteger;
use std::sync::atomic::{
    AtomicI8, AtomicI16, AtomicI32, AtomicI64, AtomicIsize, AtomicU8, AtomicU16, AtomicU32,
    AtomicU64, AtomicUsize,
};

/// Types whose values are read and written in single steps, as an atomic integer of their size.
///
/// A value has the bytes of the integer that it is converted from and to.
pub trait AtomicAccess: ByteValued
    + From<<<Self as AtomicAccess>::A as AtomicInteger>::V>
    + Into<<<Self as AtomicAccess>::A as AtomicInteger>::V> {
    /// The atomic integer that stands for a value of the type.
    type A: AtomicInteger;

    // A value takes as many bytes as the atomic integer's.
    ghost same_width: { Self.width ≡ Self.A.V.width };

    // A value has 1 to 8 bytes.
    ghost fits_word: { (0 < Self.width) × (Self.width ≤ 8) };

    // The bytes stay when a value is converted, either way.
    ghost bytes_from: { (v : Self.A.V) (x : Self) → Self.from_gives v x → Self.bytes x ≡ Self.A.V.bytes v };

    ghost bytes_into: { (x : Self) (v : Self.A.V) → Self.converts x v → Self.A.V.bytes v ≡ Self.bytes x };
}

impl AtomicAccess for i8 {
    type A = AtomicI8;

    ghost same_width = { refl };

    ghost fits_word = { (lit< tt, lit≤ tt) };

    ghost bytes_from = { λ v x e. ap ⟦<i8 as ByteValued>⟧.bytes e };

    ghost bytes_into = { λ x v e. ap ⟦<i8 as ByteValued>⟧.bytes e };
}

impl AtomicAccess for i16 {
    type A = AtomicI16;

    ghost same_width = { refl };

    ghost fits_word = { (lit< tt, lit≤ tt) };

    ghost bytes_from = { λ v x e. ap ⟦<i16 as ByteValued>⟧.bytes e };

    ghost bytes_into = { λ x v e. ap ⟦<i16 as ByteValued>⟧.bytes e };
}

impl AtomicAccess for i32 {
    type A = AtomicI32;

    ghost same_width = { refl };

    ghost fits_word = { (lit< tt, lit≤ tt) };

    ghost bytes_from = { λ v x e. ap ⟦<i32 as ByteValued>⟧.bytes e };

    ghost bytes_into = { λ x v e. ap ⟦<i32 as ByteValued>⟧.bytes e };
}

impl AtomicAccess for i64 {
    type A = AtomicI64;

    ghost same_width = { refl };

    ghost fits_word = { (lit< tt, lit≤ tt) };

    ghost bytes_from = { λ v x e. ap ⟦<i64 as ByteValued>⟧.bytes e };

    ghost bytes_into = { λ x v e. ap ⟦<i64 as ByteValued>⟧.bytes e };
}

impl AtomicAccess for u8 {
    type A = AtomicU8;

    ghost same_width = { refl };

    ghost fits_word = { (lit< tt, lit≤ tt) };

    ghost bytes_from = { λ v x e. ap ⟦<u8 as ByteValued>⟧.bytes e };

    ghost bytes_into = { λ x v e. ap ⟦<u8 as ByteValued>⟧.bytes e };
}

impl AtomicAccess for u16 {
    type A = AtomicU16;

    ghost same_width = { refl };

    ghost fits_word = { (lit< tt, lit≤ tt) };

    ghost bytes_from = { λ v x e. ap ⟦<u16 as ByteValued>⟧.bytes e };

    ghost bytes_into = { λ x v e. ap ⟦<u16 as ByteValued>⟧.bytes e };
}

impl AtomicAccess for u32 {
    type A = AtomicU32;

    ghost same_width = { refl };

    ghost fits_word = { (lit< tt, lit≤ tt) };

    ghost bytes_from = { λ v x e. ap ⟦<u32 as ByteValued>⟧.bytes e };

    ghost bytes_into = { λ x v e. ap ⟦<u32 as ByteValued>⟧.bytes e };
}

impl AtomicAccess for u64 {
    type A = AtomicU64;

    ghost same_width = { refl };

    ghost fits_word = { (lit< tt, lit≤ tt) };

    ghost bytes_from = { λ v x e. ap ⟦<u64 as ByteValued>⟧.bytes e };

    ghost bytes_into = { λ x v e. ap ⟦<u64 as ByteValued>⟧.bytes e };
}

impl AtomicAccess for isize {
    type A = AtomicIsize;

    ghost same_width = { refl };

    ghost fits_word = { (lit< tt, lit≤ tt) };

    ghost bytes_from = { λ v x e. ap ⟦<isize as ByteValued>⟧.bytes e };

    ghost bytes_into = { λ x v e. ap ⟦<isize as ByteValued>⟧.bytes e };
}

impl AtomicAccess for usize {
    type A = AtomicUsize;

    ghost same_width = { refl };

    ghost fits_word = { (lit< tt, lit≤ tt) };

    ghost bytes_from = { λ v x e. ap ⟦<usize as ByteValued>⟧.bytes e };

    ghost bytes_into = { λ x v e. ap ⟦<usize as ByteValued>⟧.bytes e };
}
