//! The parts of an image that are loaded.

use vm_memory_base::GuestAddress;

/// A part of an image that is loaded to guest memory.
#[derive(Clone, Copy, Debug, PartialEq, Eq)]
pub struct Segment {
    /// Where its bytes begin in the image.
    pub file_offset: u64,
    /// The guest address of its first byte.
    pub addr: GuestAddress,
    /// How many bytes come from the image.
    pub file_size: u64,
    /// How many bytes it has in memory. Those after the image's are zero.
    pub size: u64,
}
