//! Arrays of integers as bytes.

ghost use Rattle.std.specs.Prelude.{◌≡◌, ◌+◌, ◌*◌, ◌≤◌, ◌++◌, length, take, drop};
ghost use Rattle.std.specs.List.{flat_map};
ghost use Rattle.vm_memory_base.specs.Bytes.{IsArrayOf, values_of};
ghost use Rattle.vm_memory_base.specs.lemmas.ArrayCodes.{array_code};

use super::integers::{number_in, write_number};
use super::{ByteSized, ByteValued, FixedInteger};

impl<T: FixedInteger, const N: usize> ByteSized for [T; N] {
    ghost width = { N * T.width };
}

impl<T: FixedInteger, const N: usize> ByteValued for [T; N] {
    ghost is_value = { IsArrayOf T.is_value N };

    // The bytes of the elements, one after the other.
    ghost bytes = { flat_map T.bytes };

    ghost value_of = { values_of T.value_of T.width N };

    #[inline]
    fn size() -> usize {
        N.saturating_mul(T::bytes_count())
    }

    #[inline]
    fn byte(&self, i: usize) -> u8 {
        let width = T::bytes_count();
        let element = self[i / width];
        element.byte(i % width)
    }

    #[inline]
    fn set_byte(&mut self, i: usize, b: u8) {
        let width = T::bytes_count();
        let mut element = self[i / width];
        element.set_byte(i % width, b);
        self[i / width] = element;
    }

    #[inline]
    fn zeroed() -> [T; N] {
        [T::zeroed(); N]
    }

    #[inline]
    fn from_slice(data: &[u8]) -> Option<[T; N]> {
        if data.len() != Self::size() {
            return None;
        }
        let mut all = [T::zeroed(); N];
        for k in 0..N {
            all[k] = element_in(data, k);
        }
        Some(all)
    }

    #[inline]
    fn to_slice(&self, out: &mut [u8]) -> bool {
        if out.len() != Self::size() {
            return false;
        }
        for k in 0..N {
            write_element(self[k], out, k);
        }
        true
    }

    #[inline]
    fn recall_law(&self) {
        for x in self.iter() {
            x.recall_law();
        }
    }

    ghost laws = { array_code T.FixedInteger.laws T.length_always N };
}

// Element `k` of those whose bytes stand one after the other in a slice.
#[inline]
fn element_in<T: FixedInteger>(data: &[u8], k: usize) -> T
    requires { (k + 1) * T.width ≤ length «data».now }
    ensures { result ≡ T.value_of (take T.width (drop (k * T.width) «data».now)) }
{
    let width = T::bytes_count();
    T::from_bits(number_in(&data[k * width..(k + 1) * width]))
}

// Writes the bytes of element `k` over its place in a slice.
#[inline]
fn write_element<T: FixedInteger>(element: T, out: &mut [u8], k: usize)
    requires { (k + 1) * T.width ≤ length out.old }
    ensures { take ((k + 1) * T.width) out.new ≡ take (k * T.width) out.old ++ T.bytes element }
{
    let width = T::bytes_count();
    let place = &mut out[k * width..(k + 1) * width];
    write_number(element.to_bits(), place);
}
