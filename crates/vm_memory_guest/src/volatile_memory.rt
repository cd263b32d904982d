//! Windows of host memory, and types that give them.
ghost use Rattle.std.specs.Prelude.{◌≡◌, ℕ, ◌-◌, ◌*◌, ◌^◌, ◌<◌, ◌↔◌, ◌&&◌, nat_lt, if◌then◌else◌, Result, Ok, Err};
ghost use Rattle.std.specs.Prelude.{IsTrue, IfOk, IsOk};
ghost use Rattle.vm_memory_base.specs.declared.io.VolatileMemoryError as error;
ghost use Rattle.vm_memory_base.specs.declared.io.VolatileMemoryError.TheVariants.{TooBig};
ghost use Rattle.vm_memory_guest.specs.Typed.{size_of};
ghost use Rattle.vm_memory_guest.specs.Volatile.{array_of, end_of, sum_of};
ghost use Rattle.vm_memory_guest.specs.Window.{Window};

pub mod array;
pub mod reference;
pub mod slice;

use self::array::VolatileArrayRef;
use self::reference::VolatileRef;
use self::slice::VolatileSlice;
use vm_memory_base::{ByteValued, VolatileMemoryError, VolatileMemoryResult};

/// The sum of two numbers, or `Overflow` if it is not a 64-bit number.
#[inline]
pub fn compute_offset(base: usize, offset: usize) -> VolatileMemoryResult<usize>
    ensures { result ≡ sum_of base offset }
{
    base.checked_add(offset)
        .ok_or(VolatileMemoryError::Overflow { base, offset })
}

/// A type that gives windows of host memory, by offset and length in bytes.
///
/// ```text
/// let header = memory.get_slice(0, 16)?;
/// let entries = memory.get_array_ref::<u64>(16, 8)?;
/// ```
pub trait VolatileMemory {
    /// The number of its bytes.
    ghost size: { Self → ℕ };

    /// What it gives for some bytes from an offset on.
    ghost slice: { Self → ℕ → ℕ → Result Window error.VolatileMemoryError };

    /// The number of bytes.
    fn len(&self) -> usize
        ensures { result ≡ size self.now };

    /// The window of `count` bytes from `offset` on: `Overflow` if their sum passes 2^64 - 1, `OutOfBounds` if it
    /// passes the length.
    fn get_slice(&self, offset: usize, count: usize) -> VolatileMemoryResult<VolatileSlice>
        ensures { result ≡ slice self.now offset count };

    /// Whether there are no bytes.
    #[inline]
    final fn is_empty(&self) -> bool
        ensures { IsTrue result ↔ (size self.now ≡ 0) }
    {
        self.len() == 0
    }

    /// The window of all bytes.
    #[inline]
    final fn as_volatile_slice(&self) -> VolatileSlice
        ensures { slice self.now 0 (size self.now) ≡ Ok result }
    {
        self.get_slice(0, self.len()).unwrap()
    }

    /// The value at `offset`. It is refused as `get_slice` refuses its bytes.
    #[inline]
    final fn get_ref<T: ByteValued>(&self, offset: usize) -> VolatileMemoryResult<VolatileRef<T>>
        ensures { result ≡ slice self.now offset (size_of T.width) }
    {
        let slice = self.get_slice(offset, T::size())?;
        Ok(VolatileRef::new(slice))
    }

    /// The `n` values from `offset` on. `TooBig` if their number, or that of their bytes, passes 2^63 - 1. Otherwise
    /// it is refused as `get_slice` refuses their bytes.
    #[inline]
    final fn get_array_ref<T: ByteValued>(
        &self,
        offset: usize,
        n: usize,
    ) -> VolatileMemoryResult<VolatileArrayRef<T>>
        ensures { result ≡ array_of (slice self.now offset) n (size_of T.width) }
    {
        let size = array_size(n, T::size())?;
        let slice = self.get_slice(offset, size)?;
        Ok(VolatileArrayRef::new(slice, n))
    }

    /// Where `offset` bytes from `base` on end. `Overflow` if that is not a 64-bit number, `OutOfBounds` with that end
    /// if it passes the length.
    #[inline]
    final fn compute_end_offset(&self, base: usize, offset: usize) -> VolatileMemoryResult<usize>
        ensures { result ≡ end_of (size self.now) base offset }
    {
        let end = compute_offset(base, offset)?;
        if end > self.len() {
            return Err(VolatileMemoryError::OutOfBounds { addr: end });
        }
        Ok(end)
    }

    /// A window that is given has the length that was asked for.
    ghost gives_all: { (m : Self) (offset count : ℕ) → IfOk (slice m offset count) (λ w. w.size ≡ count) };

    /// The window of all bytes is given.
    ghost gives_whole: { (m : Self) → size m < 2 ^ 64 → IsOk (slice m 0 (size m)) };
}

const MAX_ARRAY: usize = 0x7fff_ffff_ffff_ffff;

// The number of bytes of so many values of a size.
#[inline]
fn array_size(nelements: usize, size: usize) -> VolatileMemoryResult<usize>
    ensures { result ≡ (if nat_lt nelements (2 ^ 63) && nat_lt (nelements * size) (2 ^ 63)
        then Ok (nelements * size) else Err (TooBig nelements size)) }
{
    match nelements.checked_mul(size) {
        Some(bytes) if nelements <= MAX_ARRAY && bytes <= MAX_ARRAY => Ok(bytes),
        _ => Err(VolatileMemoryError::TooBig { nelements, size }),
    }
}

impl VolatileMemory for VolatileSlice {
    ghost use Rattle.vm_memory_guest.specs.lemmas.TypedFacts.{subslice-sized, subslice-whole};
    ghost use Rattle.vm_memory_guest.specs.Window.{subslice_of};

    ghost size = { λ w. w.size };

    ghost slice = { subslice_of };

    #[inline]
    fn len(&self) -> usize {
        VolatileSlice::len(self)
    }

    #[inline]
    fn get_slice(&self, offset: usize, count: usize) -> VolatileMemoryResult<VolatileSlice> {
        self.subslice(offset, count)
    }

    ghost gives_all = { subslice-sized };

    ghost gives_whole = { subslice-whole };
}
