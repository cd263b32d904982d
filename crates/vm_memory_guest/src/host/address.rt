//! Where a byte of a host is, and bytes that lie side by side.

use super::BlockId;

/// Where a byte of a host is: its block, and its offset there in bytes.
#[derive(Clone, Copy, Debug, PartialEq, Eq)]
pub struct HostAddress {
    pub block: BlockId,
    pub offset: usize,
}

// Some bytes of a block: so many from an offset on.
#[derive(Clone, Copy)]
pub(crate) struct Place {
    pub(crate) block: usize,
    pub(crate) offset: usize,
    pub(crate) len: usize,
}
