//! The texts of replies, of their faults, and of the errors of chains, of journals that threads share, and of scripts.

use std::io::ErrorKind;
use std::test::Fail;
use test_text::expect_text;
use vm_memory::{
    ByteList, CallError, ChainFault, DriveFault, Fault, GuestAddress, IommuError, IovaRange,
    Reason, Reply,
};

const RANGE: IovaRange = IovaRange {
    base: GuestAddress(0x5000),
    length: 2,
};

static FAULTS: [Fault; 19] = [
    Fault::InvalidGuestAddress(GuestAddress(0)),
    Fault::InvalidGuestAddress(GuestAddress(0xabc0)),
    Fault::IOError(ErrorKind::Interrupted),
    Fault::IOError(ErrorKind::WriteZero),
    Fault::IOError(ErrorKind::UnexpectedEof),
    Fault::IOError(ErrorKind::Other),
    Fault::PartialBuffer {
        expected: 8,
        completed: 6,
    },
    Fault::InvalidBackendAddress,
    Fault::HostAddressNotAvailable,
    Fault::CallbackOutOfRange,
    Fault::GuestAddressOverflow,
    Fault::IommuError(IommuError::CannotResolve {
        iova_range: RANGE,
        reason: Reason::MissingMapping,
    }),
    Fault::IommuError(IommuError::CannotResolve {
        iova_range: RANGE,
        reason: Reason::AccessNotAllowed,
    }),
    Fault::IommuError(IommuError::Fragmented {
        iova_range: RANGE,
        continuous_length: 1,
    }),
    Fault::IommuError(IommuError::IommuMisconfigured {
        reason: Reason::MissingMapping,
    }),
    Fault::IommuError(IommuError::Memory),
    Fault::NoMemoryRegion,
    Fault::MemoryRegionOverlap,
    Fault::UnsortedMemoryRegions,
];

static OF_CHAINS: [ChainFault; 3] = [ChainFault::Order, ChainFault::TooLong, ChainFault::Range];

static OF_CALLS: [CallError; 3] = [CallError::Memory, CallError::Ran(0), CallError::Ran(70_000)];

// Each with its status.
static OF_SCRIPTS: [DriveFault; 5] = [
    DriveFault::BadLine(1),
    DriveFault::BadLine(1204),
    DriveFault::Read,
    DriveFault::Write,
    DriveFault::Memory,
];

const TEXTS: &str = "\
layout 12
memory 3
count 256
bytes 000aff
bytes -
true
false
error G4
error G2 Interrupted
error G2 WriteZero
error G2 UnexpectedEof
error G2 Other
error NoSuch
error BadRange
error Memory
G1 0x0
G1 0xabc0
G2 Interrupted
G2 WriteZero
G2 UnexpectedEof
G2 Other
G3 8 6
G4
G5
G6
G7
G8 I1 0x5000+0x2 missing
G8 I1 0x5000+0x2 access
G8 I2 0x5000+0x2 1
G8 I3 missing
G8 I4
C1
C2
C3
chain order
chain too long
chain range
out of memory
entry 0 ran, its reply found no memory
entry 70000 ran, its reply found no memory
1 line 1: bad line
1 line 1204: bad line
2 read failed
2 write failed
3 out of memory
";

#[test]
fn each_reply_and_each_error_has_its_text(rt: HostRuntime) -> Result<(), Fail> {
    let some = ByteList::from_vec(vec![in rt.alloc(); 0u8, 0xa, 0xff]?);
    let none = ByteList::from_vec(Vec::new(rt.alloc()));
    let replies = vec![in rt.alloc();
        Reply::Layout(12),
        Reply::MemoryMade(3),
        Reply::Count(256),
        Reply::Bytes(some),
        Reply::Bytes(none),
        Reply::Truth(true),
        Reply::Truth(false),
        Reply::Fault(Fault::InvalidBackendAddress),
        Reply::Fault(Fault::IOError(ErrorKind::Interrupted)),
        Reply::Fault(Fault::IOError(ErrorKind::WriteZero)),
        Reply::Fault(Fault::IOError(ErrorKind::UnexpectedEof)),
        Reply::Fault(Fault::IOError(ErrorKind::Other)),
        Reply::NoSuch,
        Reply::BadRange,
        Reply::Memory,
    ]?;
    let mut text = String::new(rt.alloc());
    for reply in &replies {
        writeln!(text, "{reply}")?;
    }
    for fault in &FAULTS {
        writeln!(text, "{fault}")?;
    }
    for fault in &OF_CHAINS {
        writeln!(text, "{fault}")?;
    }
    for error in &OF_CALLS {
        writeln!(text, "{error}")?;
    }
    for fault in &OF_SCRIPTS {
        writeln!(text, "{} {fault}", fault.status())?;
    }
    expect_text(0, text.as_str(), TEXTS)
}
