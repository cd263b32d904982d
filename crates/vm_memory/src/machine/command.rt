//! Commands of a machine, and its replies.
ghost use Rattle.std.specs.Prelude.{◌≡◌};
ghost use Rattle.vm_memory.specs.Typed.{fits_width, integer_of};

use super::list::{ByteList, NumberList, PieceList, SinkList, SourceList};
use std::io::ErrorKind;
use vm_memory_base::{BitmapId, GuestAddress, GuestUsize, IommuError, IotlbFails, Permissions};

/// A call that a machine makes. Regions, layouts, memories and tables go by number, from 0 in the order of making.
#[derive(Debug, Drop)]
pub enum Command {
    /// Makes the layout of these regions of the pool.
    FromRegions(NumberList),
    /// Makes a layout with one more region of the pool.
    Insert {
        layout: usize,
        region: usize,
    },
    /// Makes a layout without the region of exactly these addresses: `size` of them, from `base` on.
    Remove {
        layout: usize,
        base: GuestAddress,
        size: GuestUsize,
    },
    /// Makes a memory of a layout, without an IOMMU.
    Plain(usize),
    /// Makes a memory of a layout behind an IOMMU: with a translator of the pool, and a space that its writes mark.
    NewMemory {
        layout: usize,
        translator: usize,
        space: usize,
        on: bool,
    },
    /// Makes a memory of a layout behind the IOMMU of another memory: with its translator, its space and its switch.
    ReplaceBackend {
        memory: usize,
        layout: usize,
    },
    /// Turns the IOMMU of a memory on or off.
    Enable {
        memory: usize,
        on: bool,
    },
    /// Reads `count` bytes of a memory.
    Read {
        memory: usize,
        addr: GuestAddress,
        count: usize,
    },
    /// Writes bytes to a memory.
    Write {
        memory: usize,
        addr: GuestAddress,
        bytes: ByteList,
    },
    /// Reads exactly `count` bytes of a memory, or none.
    ReadSlice {
        memory: usize,
        addr: GuestAddress,
        count: usize,
    },
    /// Writes bytes to a memory. If not all of them fit, those before the first that does not are written.
    WriteSlice {
        memory: usize,
        addr: GuestAddress,
        bytes: ByteList,
    },
    /// Stores a value in a memory, its lowest byte first, as one integer of this width.
    Store {
        memory: usize,
        width: Width,
        addr: GuestAddress,
        value: u64,
    },
    /// Loads a value of a memory, its lowest byte first, as one integer of this width.
    Load {
        memory: usize,
        width: Width,
        addr: GuestAddress,
    },
    /// Receives at most `count` bytes of a memory from a source, up to the first window that it does not fill
    /// at one try.
    ReadFrom {
        memory: usize,
        addr: GuestAddress,
        count: usize,
        source: SourceList,
    },
    /// Receives `count` bytes of a memory from a source. If it ends early, those that came are there.
    ReadExactFrom {
        memory: usize,
        addr: GuestAddress,
        count: usize,
        source: SourceList,
    },
    /// Sends at most `count` bytes of a memory to a sink.
    WriteTo {
        memory: usize,
        addr: GuestAddress,
        count: usize,
        sink: SinkList,
    },
    /// Sends `count` bytes of a memory to a sink. If not all are there, those before the first that is not
    /// are sent.
    WriteAllTo {
        memory: usize,
        addr: GuestAddress,
        count: usize,
        sink: SinkList,
    },
    /// Asks whether each of `count` bytes of a memory may be accessed so, and has a byte of the host.
    CheckRange {
        memory: usize,
        addr: GuestAddress,
        count: usize,
        access: Permissions,
    },
    /// Copies the first bytes of a range of a block to the front of another, up to the length of the shorter.
    Copy {
        from: BlockRange,
        to: BlockRange,
    },
    /// Maps `length` I/O addresses of a table, from `iova` on, to those from `map_to` on.
    Set {
        table: usize,
        iova: GuestAddress,
        map_to: GuestAddress,
        length: usize,
        perm: Permissions,
    },
    /// Unmaps `length` I/O addresses of a table, from `iova` on.
    Invalidate {
        table: usize,
        iova: GuestAddress,
        length: usize,
    },
    /// Unmaps all I/O addresses of a table.
    InvalidateAll(usize),
    /// Asks where `length` I/O addresses of a table lead, for an access.
    Lookup {
        table: usize,
        iova: GuestAddress,
        length: usize,
        access: Permissions,
    },
    /// Asks for the dirty pages of a block's bitmap or of a space.
    Dirty(BitmapId),
    /// Takes the dirty pages of a block's bitmap or of a space: afterwards none of them is dirty.
    Harvest(BitmapId),
}

/// A range of a block of the host: `len` bytes from `offset` on.
#[derive(Clone, Copy, Debug, PartialEq, Eq)]
pub struct BlockRange {
    pub block: usize,
    pub offset: usize,
    pub len: usize,
}

/// How many bytes a value that is stored or loaded takes.
#[derive(Clone, Copy, Debug, PartialEq, Eq)]
pub enum Width {
    One,
    Two,
    Four,
    Eight,
}

impl Width {
    /// Whether a value is an unsigned integer of this width.
    pub fn fits(self, value: u64) -> bool
        ensures { result ≡ fits_width (integer_of self) value }
    {
        let greatest = match self {
            Width::One => 0xff,
            Width::Two => 0xffff,
            Width::Four => 0xffff_ffff,
            Width::Eight => 0xffff_ffff_ffff_ffff,
        };
        value <= greatest
    }
}

/// Why a call was refused: the error of the call, by its name.
#[derive(Clone, Copy, Debug, PartialEq, Eq)]
pub enum Fault {
    /// No region holds the address.
    InvalidGuestAddress(GuestAddress),
    /// A source or a sink failed.
    IOError(ErrorKind),
    /// Fewer bytes were moved than were asked for.
    PartialBuffer { expected: usize, completed: usize },
    /// The access does not fit the region or the window.
    InvalidBackendAddress,
    /// The region has no host bytes.
    HostAddressNotAvailable,
    /// A callback returned more than was left. No command calls one.
    CallbackOutOfRange,
    /// A callback went past the greatest address. No command calls one.
    GuestAddressOverflow,
    /// The translation was refused.
    IommuError(IommuError),
    /// A layout without regions.
    NoMemoryRegion,
    /// A region reaches the next.
    MemoryRegionOverlap,
    /// A region starts above the next.
    UnsortedMemoryRegions,
}

/// How a transfer to a sink ended.
#[derive(Clone, Copy, Debug, PartialEq, Eq)]
pub enum Ending {
    /// How many bytes the sink took.
    Count(usize),
    /// The sink took all bytes.
    Done,
    /// The call was refused, or the sink failed.
    Fault(Fault),
}

/// The reply of a machine to a command. `NoSuch`, `BadRange` and `Memory` changed nothing.
#[derive(Debug, Drop)]
pub enum Reply {
    /// The number of the layout that was made.
    Layout(usize),
    /// The number of the memory that was made.
    MemoryMade(usize),
    /// The command did all that it asks for, and has nothing to report.
    Done,
    /// How many bytes were moved.
    Count(usize),
    /// The value that was loaded.
    Value(u64),
    /// Whether the range may be accessed.
    Truth(bool),
    /// The bytes that were read.
    Bytes(ByteList),
    /// How a transfer to a sink ended, and all bytes that the sink took.
    Sent { ending: Ending, taken: ByteList },
    /// The numbers of the dirty pages, ascending.
    Pages(NumberList),
    /// Where the addresses of a look-up lead, in order.
    Pieces(PieceList),
    /// What a look-up missed, and what failed.
    Fails(IotlbFails),
    /// The call was refused.
    Fault(Fault),
    /// A number in the command names nothing.
    NoSuch,
    /// A range of the command passes its block; or, for `Set` and `Invalidate`, its start plus its length passes
    /// 2^64 - 1; or its value has too many bytes.
    BadRange,
    /// An allocation failed.
    Memory,
}
