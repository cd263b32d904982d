//! I/O address translation: permissions, and the table of an IOMMU.
ghost use Rattle.std.specs.Prelude.{◌≡◌, ◌-◌, ◌≤◌};
ghost use Rattle.vm_memory_base.specs.Permissions as set;

mod lookup;
mod mapped_run;
mod run_map;
mod site;
mod table;

use crate::address::GuestAddress;
pub use lookup::{
    IotlbFails, IotlbIterator, IovaRangeList, LookupError, MappedRange, MappedRangeList,
};
use std::fmt;
use std::ops::{BitAnd, BitOr, Range};
pub use table::Iotlb;
use thiserror::Error;

/// The accesses that a mapping permits, or that are asked for: a set of two bits.
#[derive(Clone, Copy, Debug, PartialEq, Eq)]
pub enum Permissions {
    No = 0,
    Read = 1,
    Write = 2,
    ReadWrite = 3,
}

impl Permissions {
    // The set of these two bits.
    fn of_bits(read: bool, write: bool) -> Permissions
        ensures { result ≡ set.of_bits read write }
    {
        match (read, write) {
            (false, false) => Permissions::No,
            (true, false) => Permissions::Read,
            (false, true) => Permissions::Write,
            (true, true) => Permissions::ReadWrite,
        }
    }

    /// Whether every access of `access` is among these. So `No` is always allowed.
    pub fn allow(&self, access: Self) -> bool
        ensures { result ≡ set.allow self.now access }
    {
        (!access.has_read() || self.has_read()) && (!access.has_write() || self.has_write())
    }

    fn has_read(&self) -> bool
        ensures { result ≡ set.has_read self.now }
    {
        matches!(*self, Permissions::Read | Permissions::ReadWrite)
    }

    /// Whether writing is among these.
    pub fn has_write(&self) -> bool
        ensures { result ≡ set.has_write self.now }
    {
        matches!(*self, Permissions::Write | Permissions::ReadWrite)
    }
}

/// The union of two sets.
impl BitOr for Permissions {
    type Output = Permissions;

    ghost bitor_gives = { λ a b r. r ≡ set.union a b };

    fn bitor(self, rhs: Permissions) -> Permissions {
        Permissions::of_bits(
            self.has_read() || rhs.has_read(),
            self.has_write() || rhs.has_write(),
        )
    }
}

/// The intersection of two sets.
impl BitAnd for Permissions {
    type Output = Permissions;

    ghost bitand_gives = { λ a b r. r ≡ set.intersection a b };

    fn bitand(self, rhs: Permissions) -> Permissions {
        Permissions::of_bits(
            self.has_read() && rhs.has_read(),
            self.has_write() && rhs.has_write(),
        )
    }
}

/// Why an I/O address range was refused.
#[derive(Clone, Copy, Debug, PartialEq, Eq)]
pub enum Reason {
    /// An address of the range has no mapping.
    MissingMapping,
    /// A mapping of the range does not permit the access.
    AccessNotAllowed,
    /// No call returns this.
    NotConfigured,
}

impl fmt::Display for Reason {
    fn fmt<W: fmt::Write>(&self, f: &mut fmt::Formatter<W>) -> fmt::Result {
        f.write_str(match self {
            Reason::MissingMapping => "missing mapping",
            Reason::AccessNotAllowed => "access not allowed",
            Reason::NotConfigured => "not configured",
        })
    }
}

/// A range of I/O addresses: `length` of them from `base` on.
#[derive(Clone, Copy, Debug, PartialEq, Eq)]
pub struct IovaRange {
    pub base: GuestAddress,
    pub length: usize,
}

impl IovaRange {
    /// The addresses of a range, which must not end before it starts.
    pub fn from_range(range: Range<u64>) -> IovaRange
        requires { range.start ≤ range.end }
        ensures { result ≡ record { base = record { 0 = range.start }; length = range.end - range.start } }
    {
        IovaRange {
            base: GuestAddress(range.start),
            length: (range.end - range.start) as usize,
        }
    }
}

/// Why a translation was refused.
#[derive(Clone, Copy, Debug, PartialEq, Eq, Error)]
pub enum IommuError {
    /// The range has an address without a mapping, or one whose mapping does not permit the access.
    #[error("Cannot translate I/O virtual address range 0x{:x}+{}: {reason}", iova_range.base.0, iova_range.length)]
    CannotResolve {
        iova_range: IovaRange,
        reason: Reason,
    },
    /// No call returns this.
    #[error("Expected 0x{:x}+{} to be a continuous I/O virtual address range, but only {continuous_length} bytes are", iova_range.base.0, iova_range.length)]
    Fragmented {
        iova_range: IovaRange,
        continuous_length: usize,
    },
    /// No call returns this.
    #[error("IOMMU not configured correctly, cannot operate: {reason}")]
    IommuMisconfigured {
        reason: Reason,
    },
    /// The allocation of the result failed.
    #[error("out of memory")]
    Memory,
}
