//! The texts of the errors.

use std::io;
use std::test::Fail;
use test_text::expect_text;
use vm_memory_base::{GuestAddress, IoError, IommuError, IovaRange, Reason, VolatileMemoryError};
use vm_memory_guest::{
    FromRangesError, GuestMemoryError, GuestRegionCollectionError, MmapRegionError,
};

const RANGE: IovaRange = IovaRange {
    base: GuestAddress(0xab),
    length: 20,
};

static OF_LAYOUTS: [GuestRegionCollectionError; 4] = [
    GuestRegionCollectionError::NoMemoryRegion,
    GuestRegionCollectionError::MemoryRegionOverlap,
    GuestRegionCollectionError::UnsortedMemoryRegions,
    GuestRegionCollectionError::Memory,
];

static OF_RANGES: [FromRangesError; 3] = [
    FromRangesError::Collection(GuestRegionCollectionError::MemoryRegionOverlap),
    FromRangesError::MmapRegion(MmapRegionError::InvalidSize),
    FromRangesError::InvalidGuestRegion,
];

static OF_BLOCKS: [MmapRegionError; 2] = [MmapRegionError::InvalidSize, MmapRegionError::Memory];

const TEXTS: &str = "\
Guest memory error: invalid guest address 1024
Guest memory error: the guest is gone
Guest memory error: unexpected end of file
Guest memory error: only used 4 bytes in 8 long buffer
Guest memory error: invalid backend address
Guest memory error: host virtual address not available
The length returned by the callback passed to `try_access` is outside the address range.
The address to be read by `try_access` is outside the address range
IOMMU failed to translate guest address: Cannot translate I/O virtual address range 0xab+20: missing mapping
out of memory
No memory region found
Some of the memory regions intersect with each other
The provided memory regions haven't been sorted
out of memory
Error constructing guest region collection: Some of the memory regions intersect with each other
Error setting up raw memory for guest region: invalid block size
Combination of guest address and region length invalid (would overflow)
invalid block size
out of memory
";

#[test]
fn an_error_has_its_text(rt: HostRuntime) -> Result<(), Fail> {
    let mut text = String::new(rt.alloc());
    let gone = IoError::from(io::Error::new(io::ErrorKind::BrokenPipe, "the guest is gone"));
    let ended = IoError::of_kind(io::ErrorKind::UnexpectedEof);
    for error in [
        GuestMemoryError::InvalidGuestAddress(GuestAddress(0x400)),
        GuestMemoryError::from(VolatileMemoryError::IOError(gone)),
        GuestMemoryError::IOError(ended),
        GuestMemoryError::PartialBuffer {
            expected: 8,
            completed: 4,
        },
        GuestMemoryError::InvalidBackendAddress,
        GuestMemoryError::HostAddressNotAvailable,
        GuestMemoryError::CallbackOutOfRange,
        GuestMemoryError::GuestAddressOverflow,
        GuestMemoryError::IommuError(IommuError::CannotResolve {
            iova_range: RANGE,
            reason: Reason::MissingMapping,
        }),
        GuestMemoryError::Memory,
    ] {
        writeln!(text, "{error}")?;
    }
    for error in &OF_LAYOUTS {
        writeln!(text, "{error}")?;
    }
    for error in &OF_RANGES {
        writeln!(text, "{error}")?;
    }
    for error in &OF_BLOCKS {
        writeln!(text, "{error}")?;
    }
    expect_text(0, text.as_str(), TEXTS)
}
