//! The codes of answers.

/// The call did what it asks for.
pub const DONE: u32 = 0;

/// A number of the call names nothing.
pub const NO_SUCH: u32 = 1;

/// A range passes its block, or the greatest address; or a value has too many bytes.
pub const BAD_RANGE: u32 = 2;

/// An allocation failed.
pub const MEMORY: u32 = 3;

/// A look-up failed. The output lists what is missed, `count` ranges, and then what is not allowed, `value` ranges.
pub const FAILS: u32 = 4;

/// A block has 1 to 2^63 - 1 bytes.
pub const INVALID_SIZE: u32 = 5;

/// A region ends past the greatest address.
pub const INVALID_REGION: u32 = 6;

/// The machine has regions, layouts or memories, which may name the block.
pub const IN_USE: u32 = 7;

/// The call has no meaning: its kind, its width, its access or its switch is invalid, a page or a limit is 0, or the
/// input is not a list of the call.
pub const BAD_CALL: u32 = 16;

/// The output is too short. It has to have `count` bytes.
pub const SHORT: u32 = 18;

/// The driver has published no more chains. This is not a refusal.
pub const NO_CHAIN: u32 = 19;

/// The head of a chain in flight came again. The chain stays the next one.
pub const IN_FLIGHT: u32 = 20;

/// The chains in flight would have more descriptors than the queue's bound. The chain stays the next one.
pub const TOO_MANY: u32 = 21;

/// No chain of this head is in flight.
pub const NOT_IN_FLIGHT: u32 = 22;

/// No region holds `address`.
pub const INVALID_GUEST_ADDRESS: u32 = 32;

/// A source or a sink failed: it was interrupted, took nothing, ended, or failed in another way.
pub const IO_INTERRUPTED: u32 = 33;

pub const IO_WRITE_ZERO: u32 = 34;

pub const IO_UNEXPECTED_EOF: u32 = 35;

pub const IO_OTHER: u32 = 36;

/// `count` bytes were moved, and not `value`.
pub const PARTIAL_BUFFER: u32 = 37;

/// The access does not fit the window.
pub const INVALID_BACKEND_ADDRESS: u32 = 38;

/// The region has no host bytes.
pub const HOST_ADDRESS_NOT_AVAILABLE: u32 = 39;

pub const CALLBACK_OUT_OF_RANGE: u32 = 40;

pub const GUEST_ADDRESS_OVERFLOW: u32 = 41;

/// The IOMMU refused the `value` addresses from `address` on: one is not mapped, the access is not allowed, or the
/// IOMMU is not configured.
pub const IOMMU_MISSING: u32 = 42;

pub const IOMMU_NOT_ALLOWED: u32 = 43;

pub const IOMMU_NOT_CONFIGURED: u32 = 44;

/// Only the first `count` of these addresses lie in a row.
pub const IOMMU_FRAGMENTED: u32 = 45;

/// The IOMMU is misconfigured, for one of these reasons.
pub const MISCONFIGURED_MISSING: u32 = 46;

pub const MISCONFIGURED_NOT_ALLOWED: u32 = 47;

pub const MISCONFIGURED_NOT_CONFIGURED: u32 = 48;

pub const IOMMU_MEMORY: u32 = 49;

/// A layout without regions, of regions that overlap, or of regions that do not ascend.
pub const NO_MEMORY_REGION: u32 = 50;

pub const MEMORY_REGION_OVERLAP: u32 = 51;

pub const UNSORTED_MEMORY_REGIONS: u32 = 52;

/// The call needs more ranges than its I/O table keeps, which missed the `value` addresses from `address` on.
pub const IOTLB_TOO_SMALL: u32 = 53;

/// A message names a memory that lies behind no I/O table, or whose IOMMU is off.
pub const NO_IOTLB: u32 = 54;

/// Why a message on an I/O table is malformed. It maps nothing, and an INVALIDATE whose range is malformed invalidates
/// everything.
pub const MESSAGE_KIND: u32 = 57;

pub const MESSAGE_EMPTY_RANGE: u32 = 58;

pub const MESSAGE_RANGE: u32 = 59;

pub const MESSAGE_PERMISSIONS: u32 = 60;

pub const MESSAGE_USER_ADDRESS: u32 = 61;

/// Why a call of a queue was refused.
pub const INVALID_MAX_SIZE: u32 = 70;

pub const INVALID_QUEUE_SIZE: u32 = 71;

pub const INVALID_DESC_TABLE_ALIGN: u32 = 72;

pub const INVALID_AVAIL_RING_ALIGN: u32 = 73;

pub const INVALID_USED_RING_ALIGN: u32 = 74;

pub const QUEUE_NOT_READY: u32 = 75;

pub const ADDRESS_OVERFLOW: u32 = 76;

pub const INVALID_AVAIL_RING_INDEX: u32 = 77;

pub const INVALID_DESCRIPTOR_INDEX: u32 = 78;

pub const DESCRIPTOR_LOOP: u32 = 79;

pub const INDIRECT_WITH_NEXT: u32 = 80;

pub const NESTED_INDIRECT: u32 = 81;

pub const INVALID_INDIRECT_TABLE: u32 = 82;

pub const CHAIN_ORDER: u32 = 83;

pub const CHAIN_TOO_LONG: u32 = 84;

pub const CHAIN_RANGE: u32 = 85;

pub const INVALID_USED_ENTRY: u32 = 86;
