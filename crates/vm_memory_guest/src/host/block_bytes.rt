//! The bytes of a block: a vector of its own, or bytes that the caller of the library keeps at a place of his.
ghost use Rattle.std.specs.Prelude.{◌≡◌, ◌<◌, ◌^◌, ℕ, List, length};
ghost use Rattle.std.specs.Borrow.{sem, full_share, Array, u8};
ghost use Rattle.std.specs.Ptr.{lies_at};
ghost use Rattle.vm_memory_guest.specs.BlockBytes.{bytes_of, LendsBytes};

use std::marker::Model;
use std_alloc::vec::{Lodged, lodge};

/// `len` bytes at a pointer, which are the block's alone from the call on that takes them: 1 to 2^63 - 1.
#[repr(C)]
#[derive(Drop)]
pub struct HostPlace {
    at: *mut u8,
    len: usize,
    /// The bytes that lie there.
    pub ghost bytes: { List ℕ },
    ghost some: { 0 < len },
    ghost small: { len < 2 ^ 63 },
}

impl Model for HostPlace {
    ghost also_owns = { λ p. lies_at (Array u8 p.len) full_share p.at p.bytes };
}

impl HostPlace {
    // A vector over the place, which neither grows nor frees it.
    fn into_vec(self) -> Vec<u8, Lodged>
        ensures { (result.items ≡ self.bytes) × (0 < length result.items) × (length result.items < 2 ^ 63) }
    {
        let HostPlace { at, len } = self;
        // SAFETY: the place owns these bytes, so that the vector has them alone. It frees nothing.
        unsafe { lodge(at, len, len) }
    }
}

/// The bytes of a block. Pointer and length lie at the same offsets for both, so that an access has no branch.
#[derive(Drop)]
pub enum BlockBytes {
    /// Memory of the allocator's, which is freed with the block.
    Owned(Vec<u8>),
    /// A place of the caller's, which is never freed.
    Lent(Vec<u8, Lodged>),
}

impl BlockBytes {
    /// The bytes that lie at a place, as they are.
    pub fn at(place: HostPlace) -> BlockBytes
        ensures bytes { bytes_of result ≡ place.bytes }
        ensures some { 0 < length (bytes_of result) }
        ensures small { length (bytes_of result) < 2 ^ 63 }
    {
        BlockBytes::Lent(place.into_vec())
    }

    /// How many bytes there are.
    #[inline]
    pub fn len(&self) -> usize
        ensures { result ≡ length (bytes_of self.now) }
    {
        self.as_slice().len()
    }

    #[inline]
    pub(super) fn as_slice(&self) -> &[u8]
        ensures { result.now ≡ bytes_of self.now }
    {
        match self {
            BlockBytes::Owned(bytes) => bytes.as_slice(),
            BlockBytes::Lent(bytes) => bytes.as_slice(),
        }
    }

    #[inline]
    pub(super) fn as_mut_slice(&mut self) -> &mut [u8]
        ensures* lends { sem 𝓛 (LendsBytes self.entry result) }
        ensures value { result.now ≡ bytes_of self.old }
    {
        match self {
            BlockBytes::Owned(bytes) => bytes.as_mut_slice(),
            BlockBytes::Lent(bytes) => bytes.as_mut_slice(),
        }
    }
}
