//! Reply lines.
ghost use Rattle.std.specs.Prelude.{◌≡◌, ℕ, Some, List, map};
ghost use Rattle.std.specs.Fmt.{WritesOnOk, decimal};
ghost use Rattle.vm_memory.specs.Texts.{text_of, text_of_setup, text_of_ending, text_of_fault, text_of_refusal};
ghost use Rattle.vm_memory.specs.Texts.{text_of_range, text_of_piece, text_of_ranges, text_of_reason, text_of_kind};
ghost use Rattle.vm_memory.specs.Texts.{text_of_bytes, spaced};

use crate::machine::command::{Ending, Fault, Reply};
use crate::machine::setup::SetupReply;
use std::fmt;
use std::io::ErrorKind;
use vm_memory_base::{IommuError, IovaRange, IovaRangeList, MappedRange, Reason};

impl fmt::Display for SetupReply {
    ghost output = { λ r. Some (text_of_setup r) };

    fn fmt<W: fmt::Write>(&self, f: &mut fmt::Formatter<W>) -> fmt::Result {
        match self {
            SetupReply::BlockMade(number) => write!(f, "block {number}"),
            SetupReply::SpaceMade(number) => write!(f, "space {number}"),
            SetupReply::TableMade(number) => write!(f, "table {number}"),
            SetupReply::RegionMade(number) => write!(f, "region {number}"),
            SetupReply::TranslatorMade(number) => write!(f, "translator {number}"),
            SetupReply::InvalidSize => write!(f, "error M1"),
            SetupReply::InvalidRegion => write!(f, "error F3"),
            SetupReply::NoSuch => write!(f, "error NoSuch"),
            SetupReply::Memory => write!(f, "error Memory"),
        }
    }
}

impl fmt::Display for Reply {
    ghost output = { λ r. Some (text_of r) };

    fn fmt<W: fmt::Write>(&self, f: &mut fmt::Formatter<W>) -> fmt::Result {
        match self {
            Reply::Layout(number) => write!(f, "layout {number}"),
            Reply::MemoryMade(number) => write!(f, "memory {number}"),
            Reply::Done => write!(f, "ok"),
            Reply::Count(count) => write!(f, "count {count}"),
            Reply::Value(value) => write!(f, "value {value}"),
            Reply::Truth(truth) => write!(f, "{truth}"),
            Reply::Bytes(bytes) => write!(f, "bytes {}", Hex(bytes.as_slice())),
            Reply::Sent { ending, taken } => {
                write!(f, "sent {ending} taken {}", Hex(taken.as_slice()))
            }
            Reply::Pages(pages) => write!(f, "pages {}", Spaced(pages.as_slice())),
            Reply::Pieces(pieces) => write!(f, "pieces {}", Spaced(pieces.as_slice())),
            Reply::Fails(fails) => write!(
                f,
                "fails misses {} access {}",
                Ranges(&fails.misses),
                Ranges(&fails.access_fails)
            ),
            Reply::Fault(fault) => write!(f, "error {fault}"),
            Reply::NoSuch => write!(f, "error NoSuch"),
            Reply::BadRange => write!(f, "error BadRange"),
            Reply::Memory => write!(f, "error Memory"),
        }
    }
}

impl fmt::Display for Ending {
    ghost output = { λ e. Some (text_of_ending e) };

    fn fmt<W: fmt::Write>(&self, f: &mut fmt::Formatter<W>) -> fmt::Result {
        match self {
            Ending::Count(count) => write!(f, "count {count}"),
            Ending::Done => write!(f, "ok"),
            Ending::Fault(fault) => write!(f, "error {fault}"),
        }
    }
}

impl fmt::Display for Fault {
    ghost output = { λ f. Some (text_of_fault f) };

    fn fmt<W: fmt::Write>(&self, f: &mut fmt::Formatter<W>) -> fmt::Result {
        match self {
            Fault::InvalidGuestAddress(addr) => write!(f, "G1 0x{:x}", addr.0),
            Fault::IOError(kind) => write!(f, "G2 {}", name_of(*kind)),
            Fault::PartialBuffer {
                expected,
                completed,
            } => write!(f, "G3 {expected} {completed}"),
            Fault::InvalidBackendAddress => write!(f, "G4"),
            Fault::HostAddressNotAvailable => write!(f, "G5"),
            Fault::CallbackOutOfRange => write!(f, "G6"),
            Fault::GuestAddressOverflow => write!(f, "G7"),
            Fault::IommuError(error) => write!(f, "G8 {}", Translation(error)),
            Fault::NoMemoryRegion => write!(f, "C1"),
            Fault::MemoryRegionOverlap => write!(f, "C2"),
            Fault::UnsortedMemoryRegions => write!(f, "C3"),
        }
    }
}

// Why a translation was refused.
#[derive(Drop)]
struct Translation<'a>(&'a IommuError);

impl fmt::Display for Translation<'_> {
    ghost output = { λ t. Some (text_of_refusal t.0.now) };

    fn fmt<W: fmt::Write>(&self, f: &mut fmt::Formatter<W>) -> fmt::Result {
        match self.0 {
            IommuError::CannotResolve { iova_range, reason } => {
                write!(f, "I1 {} {}", Range(*iova_range), word_of(*reason))
            }
            IommuError::Fragmented {
                iova_range,
                continuous_length,
            } => write!(f, "I2 {} {continuous_length}", Range(*iova_range)),
            IommuError::IommuMisconfigured { reason } => write!(f, "I3 {}", word_of(*reason)),
            IommuError::Memory => write!(f, "I4"),
        }
    }
}

// The name of a kind that a script can meet. Any other is printed as `Other`.
fn name_of(kind: ErrorKind) -> &'static str
    ensures { result.now ≡ text_of_kind kind }
{
    match kind {
        ErrorKind::Interrupted => "Interrupted",
        ErrorKind::WriteZero => "WriteZero",
        ErrorKind::UnexpectedEof => "UnexpectedEof",
        _ => "Other",
    }
}

fn word_of(reason: Reason) -> &'static str
    ensures { result.now ≡ text_of_reason reason }
{
    match reason {
        Reason::MissingMapping => "missing",
        Reason::AccessNotAllowed => "access",
        Reason::NotConfigured => "configuration",
    }
}

// A range of addresses, by its base and its length.
#[derive(Clone, Copy)]
struct Range(IovaRange);

impl fmt::Display for Range {
    ghost output = { λ r. Some (text_of_range r.0.base.0 r.0.length) };

    fn fmt<W: fmt::Write>(&self, f: &mut fmt::Formatter<W>) -> fmt::Result {
        write!(f, "0x{:x}+0x{:x}", self.0.base.0, self.0.length)
    }
}

// What stands in a printed list.
trait Item {
    // Its text.
    ghost text: { Self → List ℕ };

    fn put<W: fmt::Write>(&self, f: &mut fmt::Formatter<W>) -> fmt::Result
        ensures { WritesOnOk W.write_str_gives f.old result (text self.now) f.new };
}

impl Item for usize {
    ghost text = { decimal };

    fn put<W: fmt::Write>(&self, f: &mut fmt::Formatter<W>) -> fmt::Result {
        write!(f, "{self}")
    }
}

impl Item for IovaRange {
    ghost text = { λ r. text_of_range r.base.0 r.length };

    fn put<W: fmt::Write>(&self, f: &mut fmt::Formatter<W>) -> fmt::Result {
        write!(f, "{}", Range(*self))
    }
}

impl Item for MappedRange {
    ghost text = { text_of_piece };

    fn put<W: fmt::Write>(&self, f: &mut fmt::Formatter<W>) -> fmt::Result {
        let range = IovaRange {
            base: self.base,
            length: self.length,
        };
        range.put(f)
    }
}

// A list with one space between any two items, or a dash if it is empty.
#[derive(Drop)]
struct Spaced<'a, T>(&'a [T]);

impl<T: Item> fmt::Display for Spaced<'_, T> {
    ghost output = { λ l. Some (spaced (map T.text l.0.now)) };

    fn fmt<W: fmt::Write>(&self, f: &mut fmt::Formatter<W>) -> fmt::Result {
        let Some((first, others)) = self.0.split_first() else {
            return write!(f, "-");
        };
        first.put(f)?;
        for item in others {
            write!(f, " ")?;
            item.put(f)?;
        }
        Ok(())
    }
}

// A list of ranges.
#[derive(Drop)]
struct Ranges<'a>(&'a IovaRangeList);

impl fmt::Display for Ranges<'_> {
    ghost output = { λ l. Some (text_of_ranges l.0.now) };

    fn fmt<W: fmt::Write>(&self, f: &mut fmt::Formatter<W>) -> fmt::Result {
        write!(f, "{}", Spaced(self.0.as_slice()))
    }
}

// Two hexadecimal digits a byte, or a dash if there are no bytes.
#[derive(Drop)]
struct Hex<'a>(&'a [u8]);

impl fmt::Display for Hex<'_> {
    ghost output = { λ h. Some (text_of_bytes h.0.now) };

    fn fmt<W: fmt::Write>(&self, f: &mut fmt::Formatter<W>) -> fmt::Result {
        if self.0.is_empty() {
            return write!(f, "-");
        }
        for &byte in self.0 {
            write!(f, "{byte:02x}")?;
        }
        Ok(())
    }
}
