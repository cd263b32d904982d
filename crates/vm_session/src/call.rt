//! Calls and answers as plain numbers, as they cross to C.
ghost use Rattle.std.specs.Prelude.{◌≡◌, IfSome, IsTrue, Some, slice_get};
ghost use Rattle.vm_session.specs.Kinds.{access_at, is_access, is_message, is_queue, is_table, is_work, kinds};
ghost use Rattle.vm_session.specs.Kinds.{limit_at, marks, part_at, read_only_at, sets_up, switch_at, width_at};

use vm_memory::Width;
use vm_memory_base::Permissions;

/// A call of a session. Fields that its kind does not name are not read.
#[repr(C)]
#[derive(Clone, Copy, Debug, PartialEq, Eq)]
pub struct Call {
    /// What is called: the number of a `Kind`, from 0.
    pub kind: u32,
    /// How many bytes a value has: 1, 2, 4 or 8.
    pub width: u32,
    /// An access: 0 for none, 1 to read, 2 to write, 3 for both.
    pub access: u32,
    /// The numbers of what is named: blocks, spaces, tables, regions, translators, layouts and memories.
    pub first: usize,
    pub second: usize,
    pub third: usize,
    /// An address, or an offset in a block.
    pub address: u64,
    /// Where a mapping leads, or the offset that a copy goes to.
    pub target: u64,
    /// A number of bytes or of addresses, or a limit.
    pub length: usize,
    /// The bytes of a page, or those that a copy goes to.
    pub other_length: usize,
    /// A value that is stored; or of a switch 0 for off, 1 for on.
    pub value: u64,
}

/// The answer of a session.
#[repr(C)]
#[derive(Clone, Copy, Debug, PartialEq, Eq)]
pub struct Answer {
    /// 0, or why the call was refused.
    pub code: u32,
    /// How many bytes moved, or how many items the output lists.
    pub count: usize,
    /// The number of what was made, the value that was loaded, or a second number of a refusal.
    pub value: u64,
    /// The address that a refusal names.
    pub address: u64,
}

/// What a call that a table refused has to have first: `length` addresses from `address` on, for an access. They are
/// the first of those that the call wants and that the table misses or forbids.
#[repr(C)]
#[derive(Clone, Copy, Debug, PartialEq, Eq)]
pub struct Miss {
    /// The access: 1 to read, 2 to write, 3 for both; 0 if nothing is said.
    pub access: u32,
    pub address: u64,
    pub length: usize,
}

/// What is called, in the order of the lines of a script, and then what no script has a line for.
#[derive(Clone, Copy, Debug, PartialEq, Eq)]
pub enum Kind {
    /// Makes a block of `length` bytes, with pages of `other_length`.
    Block,
    /// Makes a space of `length` addresses, with pages of `other_length`.
    Space,
    /// Makes a table without a limit.
    Table,
    /// Makes a table that keeps at most `length` ranges.
    LimitedTable,
    /// Makes a region of the whole block `first` at `address`.
    Region,
    /// Makes a translator over the table `first`.
    Translator,
    /// Makes the layout of the regions whose numbers the input lists.
    Layout,
    /// Makes a layout of the layout `first` and the region `second`.
    Insert,
    /// Makes a layout of the layout `first` without its region of `length` bytes at `address`.
    Remove,
    /// Makes a memory of the layout `first`, without an IOMMU.
    Plain,
    /// Makes a memory of the layout `first` behind the translator `second`, whose writes mark the space `third`.
    /// `value` is its switch.
    Memory,
    /// Makes a memory of the layout `second` with the translator, the space and the switch of the memory `first`.
    Replace,
    /// Turns the IOMMU of the memory `first` as `value` says.
    Enable,
    /// Reads at most `length` bytes of the memory `first` at `address` into the output.
    Read,
    /// Writes the bytes of the input that fit to the memory `first` at `address`.
    Write,
    /// Reads exactly `length` bytes.
    ReadSlice,
    /// Writes all bytes of the input.
    WriteSlice,
    /// Stores `value` in the memory `first` at `address`, as an integer of `width` bytes.
    Store,
    /// Loads an integer of `width` bytes.
    Load,
    /// Receives at most `length` bytes of the memory `first` at `address` from the source whose steps the input lists.
    ReadFrom,
    /// Receives exactly that many.
    ReadExactFrom,
    /// Sends at most `length` bytes of the memory `first` at `address` to the sink whose steps the input lists. What it
    /// takes is the output.
    WriteTo,
    /// Sends exactly that many.
    WriteAllTo,
    /// Whether `length` bytes of the memory `first` at `address` may be accessed so.
    CheckRange,
    /// Copies `length` bytes at offset `address` of the block `first` to `other_length` at offset `target` of the block
    /// `second`, up to the shorter of the two.
    Copy,
    /// Maps `length` addresses of the table `first` from `address` on to those from `target` on, for this access.
    Set,
    /// Unmaps `length` addresses of the table `first` from `address` on.
    Invalidate,
    /// Unmaps all addresses of the table `first`.
    InvalidateAll,
    /// Where `length` addresses of the table `first` lead, from `address` on, for this access.
    Lookup,
    /// The dirty pages of the block `first`.
    DirtyBlock,
    /// The dirty pages of the space `first`.
    DirtySpace,
    /// Takes the dirty pages of the block `first`.
    HarvestBlock,
    /// Takes the dirty pages of the space `first`.
    HarvestSpace,
    /// Marks the pages of `length` bytes at offset `address` of the block `first`.
    MarkBlock,
    /// Marks the pages of the blocks that a write of `length` bytes to the memory `first` at `address` would reach.
    MarkReached,
    /// Makes a queue of at most `length` entries. The chains of it that are in flight have at most `other_length`
    /// descriptors in all.
    Queue,
    /// Sets the part `second` of the queue `first` to `value`: the number of a `QueuePart`, from 0.
    SetQueue,
    /// Resets the queue `first` to what it was when it was made. None of its chains is in flight then.
    ResetQueue,
    /// The state of the queue `first`, as a list of nine numbers in the order of the fields of `QueueState`, or of
    /// `PackedState`. A position of a packed queue is its slot, with its wrap counter in bit 15.
    QueueState,
    /// Drops the chain in flight of the head `third` of the queue `first`, without returning it.
    Forget,
    /// Whether the table and the rings of the queue `first` lie whole in the memory `second`.
    QueueIsValid,
    /// The driver's index in the available ring of the queue `first`.
    AvailIdx,
    /// The device's index as it lies in the used ring of the queue `first`.
    UsedIdx,
    /// Pops the next chain of the queue `first` on the memory `second`. Its chain is in flight then. `value` is its
    /// head, `count` how many readable bytes it has, and `address` how many writable ones.
    Pop,
    /// Reads at most `length` of the readable bytes of the chain in flight of the head `third` into the output, from
    /// the offset `address` on.
    ReadChain,
    /// Writes the bytes of the input to the writable ones of the chain in flight of the head `third`, from the offset
    /// `address` on, as far as there are any.
    WriteChain,
    /// Returns the chain in flight of the head `third` to the driver, with `value` bytes written.
    AddUsed,
    /// Whether the driver has to be notified of what was returned since the last such call.
    NeedsNotification,
    /// Asks the driver to notify the device of what it publishes next. The answer says whether there is more already.
    EnableNotification,
    /// Asks the driver not to notify the device.
    DisableNotification,
    /// What the chain in flight of the head `third` asks a block device for, whose disk has `target` sectors of 512
    /// bytes and is only read (`access` 1) or written, too (3), and whose driver accepted the features `value`.
    /// `length` is the most data segments, of which a chain has two fewer than segments, and `other_length` the most
    /// bytes of a segment, if the driver keeps such limits, and 0 if it does not.
    ///
    /// The answer's `value` is 0 for a read, 1 for a write, 2 for a write that has to be stable before it is finished,
    /// 4 for a flush, 8 for the device's name, 16 for a request that is refused, and 17 for one with no byte for its
    /// status.
    /// `address` is the sector, and `count` how many bytes are moved, or of a refused request the status.
    BeginRequest,
    /// Finishes the request of the chain in flight of the head `third`, to which `length` bytes were written: its
    /// status is
    /// `value`. The answer's `value` is the length that the chain is returned with.
    FinishRequest,
    /// Applies a message of a vhost front end to the I/O table of the memory `first`, whose IOMMU is on. The input has
    /// the message's 32 bytes, and then a row of 24 for each part of the memory that the front end announced: where the
    /// part begins in the front end's memory, where in guest memory, and how many bytes it has. An INVALIDATE needs no
    /// rows.
    IotlbMessage,
    /// `WriteChain` and then `AddUsed` in one call: writes the bytes of the input to the chain in flight of the head
    /// `third`, from the offset `address` of its writable bytes on, and returns it to the driver with `value` bytes
    /// written. A chain that did not take all of the input stays in flight: the answer says why, or how many bytes it
    /// took.
    CompleteChain,
    /// Makes a packed queue of at most `length` entries, as `Queue` makes a split one. The calls on a queue are for
    /// both.
    PackedQueue,
    /// The segments of the chain in flight of the head `third` of the queue `first`, as a list of two numbers for each:
    /// its address, and how many bytes it has. The answer's `count` is how many there are, and `value` how many of them
    /// are read, which come first, as in every chain.
    ListSegments,
}

/// A part of a queue that a transport sets as the driver asks.
#[derive(Clone, Copy, Debug, PartialEq, Eq)]
pub enum QueuePart {
    /// The number of entries.
    Size,
    /// The address of the table of descriptors, or of the ring of a packed queue.
    DescTable,
    /// The address of the available ring, or of the driver's area of a packed queue.
    AvailRing,
    /// The address of the used ring, or of the device's area of a packed queue.
    UsedRing,
    /// Whether the driver has enabled the queue: 1 or 0.
    Ready,
    /// Whether notifications go by event indices: 1 or 0.
    EventIdx,
    /// Which entry of the available ring is popped next.
    NextAvail,
    /// Which entry of the used ring is written next.
    NextUsed,
    /// Both positions of a packed queue, as `PackedQueue::vring_base` gives them. It has no part `NextAvail` or
    /// `NextUsed`, and a split queue does not have this one.
    VringBase,
}

impl Kind {
    // Whether a call of this kind sets up.
    #[inline(always)]
    pub(crate) fn sets_up(self) -> bool
        ensures { result ≡ sets_up self }
    {
        match self {
            Kind::Block
            | Kind::Space
            | Kind::Table
            | Kind::LimitedTable
            | Kind::Region
            | Kind::Translator => true,
            _ => false,
        }
    }

    // Whether a call of this kind makes a table.
    pub(crate) fn is_table(self) -> bool
        ensures { result ≡ is_table self }
    {
        matches!(self, Kind::Table | Kind::LimitedTable)
    }

    // Whether a call of this kind is one on queues alone.
    #[inline(always)]
    pub(crate) fn is_queue(self) -> bool
        ensures { result ≡ is_queue self }
    {
        matches!(
            self,
            Kind::Queue
                | Kind::SetQueue
                | Kind::ResetQueue
                | Kind::QueueState
                | Kind::Forget
                | Kind::PackedQueue
                | Kind::ListSegments
        )
    }

    // Whether a call of this kind is one on a queue and a memory.
    #[inline(always)]
    pub(crate) fn is_work(self) -> bool
        ensures { result ≡ is_work self }
    {
        matches!(
            self,
            Kind::QueueIsValid
                | Kind::AvailIdx
                | Kind::UsedIdx
                | Kind::Pop
                | Kind::ReadChain
                | Kind::WriteChain
                | Kind::AddUsed
                | Kind::NeedsNotification
                | Kind::EnableNotification
                | Kind::DisableNotification
                | Kind::BeginRequest
                | Kind::FinishRequest
                | Kind::CompleteChain
        )
    }

    // Whether a call of this kind marks pages.
    #[inline(always)]
    pub(crate) fn marks(self) -> bool
        ensures { result ≡ marks self }
    {
        matches!(self, Kind::MarkBlock | Kind::MarkReached)
    }

    // Whether a call of this kind is a message on an I/O table.
    #[inline(always)]
    pub(crate) fn is_message(self) -> bool
        ensures { result ≡ is_message self }
    {
        matches!(self, Kind::IotlbMessage)
    }
}

const KINDS: [Kind; 56] = [
    Kind::Block,
    Kind::Space,
    Kind::Table,
    Kind::LimitedTable,
    Kind::Region,
    Kind::Translator,
    Kind::Layout,
    Kind::Insert,
    Kind::Remove,
    Kind::Plain,
    Kind::Memory,
    Kind::Replace,
    Kind::Enable,
    Kind::Read,
    Kind::Write,
    Kind::ReadSlice,
    Kind::WriteSlice,
    Kind::Store,
    Kind::Load,
    Kind::ReadFrom,
    Kind::ReadExactFrom,
    Kind::WriteTo,
    Kind::WriteAllTo,
    Kind::CheckRange,
    Kind::Copy,
    Kind::Set,
    Kind::Invalidate,
    Kind::InvalidateAll,
    Kind::Lookup,
    Kind::DirtyBlock,
    Kind::DirtySpace,
    Kind::HarvestBlock,
    Kind::HarvestSpace,
    Kind::MarkBlock,
    Kind::MarkReached,
    Kind::Queue,
    Kind::SetQueue,
    Kind::ResetQueue,
    Kind::QueueState,
    Kind::Forget,
    Kind::QueueIsValid,
    Kind::AvailIdx,
    Kind::UsedIdx,
    Kind::Pop,
    Kind::ReadChain,
    Kind::WriteChain,
    Kind::AddUsed,
    Kind::NeedsNotification,
    Kind::EnableNotification,
    Kind::DisableNotification,
    Kind::BeginRequest,
    Kind::FinishRequest,
    Kind::IotlbMessage,
    Kind::CompleteChain,
    Kind::PackedQueue,
    Kind::ListSegments,
];

// The kind of a number, if it is one.
#[inline(always)]
pub(crate) fn kind_of(number: u32) -> Option<Kind>
    ensures { result ≡ slice_get kinds number }
{
    nth(&KINDS, number as usize)
}

#[inline(always)]
fn nth(kinds: &[Kind], number: usize) -> Option<Kind>
    ensures { result ≡ slice_get kinds.now number }
{
    if number < kinds.len() {
        Some(kinds[number])
    } else {
        None
    }
}

// The kind of a number, if it is that of a call that accesses bytes of a memory.
#[inline(always)]
pub(crate) fn access_kind(number: u32) -> Option<Kind>
    ensures { IfSome result (λ kind. (slice_get kinds number ≡ Some kind) × IsTrue (is_access kind)) }
{
    match number {
        13 => Some(Kind::Read),
        14 => Some(Kind::Write),
        15 => Some(Kind::ReadSlice),
        16 => Some(Kind::WriteSlice),
        17 => Some(Kind::Store),
        18 => Some(Kind::Load),
        _ => None,
    }
}

// The kind of a number, if it is that of a call on a queue and a memory.
#[inline(always)]
pub(crate) fn work_kind(number: u32) -> Option<Kind>
    ensures { IfSome result (λ kind. (slice_get kinds number ≡ Some kind) × IsTrue (is_work kind)) }
{
    match number {
        43 => Some(Kind::Pop),
        44 => Some(Kind::ReadChain),
        45 => Some(Kind::WriteChain),
        46 => Some(Kind::AddUsed),
        47 => Some(Kind::NeedsNotification),
        48 => Some(Kind::EnableNotification),
        50 => Some(Kind::BeginRequest),
        51 => Some(Kind::FinishRequest),
        53 => Some(Kind::CompleteChain),
        _ => None,
    }
}

// A part of a queue by its number, if it is one.
pub(crate) fn part_of(number: usize) -> Option<QueuePart>
    ensures { result ≡ part_at number }
{
    match number {
        0 => Some(QueuePart::Size),
        1 => Some(QueuePart::DescTable),
        2 => Some(QueuePart::AvailRing),
        3 => Some(QueuePart::UsedRing),
        4 => Some(QueuePart::Ready),
        5 => Some(QueuePart::EventIdx),
        6 => Some(QueuePart::NextAvail),
        7 => Some(QueuePart::NextUsed),
        8 => Some(QueuePart::VringBase),
        _ => None,
    }
}

// An access by its number, if it is one.
pub(crate) fn access_of(number: u32) -> Option<Permissions>
    ensures { result ≡ access_at number }
{
    match number {
        0 => Some(Permissions::No),
        1 => Some(Permissions::Read),
        2 => Some(Permissions::Write),
        3 => Some(Permissions::ReadWrite),
        _ => None,
    }
}

// Whether a disk that may be accessed so is only read. A disk can be read at least.
pub(crate) fn read_only_of(number: u32) -> Option<bool>
    ensures { result ≡ read_only_at number }
{
    match number {
        1 => Some(true),
        3 => Some(false),
        _ => None,
    }
}

// A limit by its number, which is 0 for none.
pub(crate) fn limit_of(number: usize) -> Option<usize>
    ensures { result ≡ limit_at number }
{
    match number {
        0 => None,
        most => Some(most),
    }
}

// A switch by its number, if it is one.
pub(crate) fn switch_of(number: u64) -> Option<bool>
    ensures { result ≡ switch_at number }
{
    match number {
        0 => Some(false),
        1 => Some(true),
        _ => None,
    }
}

// A width by its number of bytes, if it is one.
#[inline(always)]
pub(crate) fn width_of(number: u32) -> Option<Width>
    ensures { result ≡ width_at number }
{
    match number {
        1 => Some(Width::One),
        2 => Some(Width::Two),
        4 => Some(Width::Four),
        8 => Some(Width::Eight),
        _ => None,
    }
}
