//! The texts of the errors.

use std::test::Fail;
use std::{fmt, io};
use test_text::expect_text;
use vm_memory_base::{
    GuestAddress, HarvestError, IoError, IommuError, Iotlb, IovaRange, LookupError, Permissions,
    Reason, VolatileMemoryError,
};

const RANGE: IovaRange = IovaRange {
    base: GuestAddress(0xab),
    length: 20,
};

static OF_TRANSLATIONS: [IommuError; 5] = [
    IommuError::CannotResolve {
        iova_range: RANGE,
        reason: Reason::MissingMapping,
    },
    IommuError::CannotResolve {
        iova_range: RANGE,
        reason: Reason::AccessNotAllowed,
    },
    IommuError::Fragmented {
        iova_range: RANGE,
        continuous_length: 16,
    },
    IommuError::IommuMisconfigured {
        reason: Reason::NotConfigured,
    },
    IommuError::Memory,
];

static OF_HARVESTS: [HarvestError; 2] = [HarvestError::Memory, HarvestError::RoundsSpent];

const TEXTS: &str = "\
address 0x19 is out of bounds
address 0xffffffffffffffff offset by 0xa would overflow
3 elements of size 9223372036854775808 would overflow a usize
address 0x13 is not aligned to 8
only used 4 bytes in 8 long buffer
out of memory
Cannot translate I/O virtual address range 0xab+20: missing mapping
Cannot translate I/O virtual address range 0xab+20: access not allowed
Expected 0xab+20 to be a continuous I/O virtual address range, but only 16 bytes are
IOMMU not configured correctly, cannot operate: not configured
out of memory
out of memory
rounds spent
out of memory
lookup failed
the guest is gone, operation interrupted, the guest is gone
";

fn add_lines<E: fmt::Display>(text: &mut String, errors: &[E]) -> fmt::Result {
    for error in errors {
        writeln!(text, "{error}")?;
    }
    Ok(())
}

#[test]
fn an_error_has_its_text(rt: HostRuntime) -> Result<(), Fail> {
    let mut text = String::new(rt.alloc());
    let windows = [
        VolatileMemoryError::OutOfBounds { addr: 0x19 },
        VolatileMemoryError::Overflow {
            base: usize::MAX,
            offset: 10,
        },
        VolatileMemoryError::TooBig {
            nelements: 3,
            size: 0x8000_0000_0000_0000,
        },
        VolatileMemoryError::Misaligned {
            addr: 0x13,
            alignment: 8,
        },
        VolatileMemoryError::PartialBuffer {
            expected: 8,
            completed: 4,
        },
        VolatileMemoryError::Memory,
    ];
    add_lines(&mut text, &windows)?;
    add_lines(&mut text, &OF_TRANSLATIONS)?;
    add_lines(&mut text, &OF_HARVESTS)?;
    writeln!(text, "{}", LookupError::Memory)?;
    let table = Iotlb::new(rt.alloc());
    match table.lookup(GuestAddress(0), 1, Permissions::No) {
        Ok(_) => return Err(Fail::new("something is mapped")),
        Err(error) => writeln!(text, "{error}")?,
    }
    let error = io::Error::new(io::ErrorKind::BrokenPipe, "the guest is gone");
    let of_window = VolatileMemoryError::IOError(IoError::from(error));
    let kind = IoError::of_kind(io::ErrorKind::Interrupted);
    let inner = IoError::from(error).into_inner();
    writeln!(text, "{of_window}, {kind}, {inner}")?;
    expect_text(0, text.as_str(), TEXTS)
}
