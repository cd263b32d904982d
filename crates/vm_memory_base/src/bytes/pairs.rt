//! Pairs of values as bytes. A struct of fixed fields is a nest of pairs.

ghost use Rattle.std.specs.Prelude.{◌+◌, ◌++◌, take, drop};
ghost use Rattle.vm_memory_base.specs.lemmas.PairCodes.{pair_code};

use super::{ByteSized, ByteValued, FixedInteger};

impl<A: FixedInteger, B: ByteValued> ByteSized for (A, B) {
    ghost width = { A.width + B.width };
}

impl<A: FixedInteger, B: ByteValued> ByteValued for (A, B) {
    ghost is_value = { λ p. A.FixedInteger.is_value p.0 × B.is_value p.1 };

    // The bytes of the first, and then those of the second.
    ghost bytes = { λ p. A.FixedInteger.bytes p.0 ++ B.bytes p.1 };

    ghost value_of = { λ s. (A.FixedInteger.value_of (take A.width s), B.value_of (drop A.width s)) };

    #[inline]
    fn size() -> usize {
        A::bytes_count().saturating_add(B::size())
    }

    #[inline]
    fn byte(&self, i: usize) -> u8 {
        let width = A::bytes_count();
        if i < width {
            self.0.byte(i)
        } else {
            self.1.byte(i - width)
        }
    }

    #[inline]
    fn set_byte(&mut self, i: usize, b: u8) {
        let width = A::bytes_count();
        if i < width {
            self.0.set_byte(i, b);
        } else {
            self.1.set_byte(i - width, b);
        }
    }

    #[inline]
    fn zeroed() -> (A, B) {
        (A::zeroed(), B::zeroed())
    }

    #[inline]
    fn from_slice(data: &[u8]) -> Option<(A, B)> {
        let (first, second) = data.split_at_checked(A::bytes_count())?;
        Some((A::from_slice(first)?, B::from_slice(second)?))
    }

    #[inline]
    fn to_slice(&self, out: &mut [u8]) -> bool {
        if out.len() != Self::size() {
            return false;
        }
        let (first, second) = out.split_at_mut(A::bytes_count());
        self.0.to_slice(first);
        self.1.to_slice(second)
    }

    #[inline]
    fn recall_law(&self) {
        self.0.recall_law();
        self.1.recall_law();
    }

    ghost laws = { pair_code A.FixedInteger.laws A.length_always B.ByteValued.laws };
}
