//! The features of a block device, each by its bit.

/// The feature bit of devices that follow version 1 of the specification, which every driver has to accept.
pub const VIRTIO_F_VERSION_1: u64 = 32;

/// The feature bit of read-only disks.
pub const VIRTIO_BLK_F_RO: u64 = 5;

/// The feature bit of requests that flush what was written to stable storage. If the driver did not accept
/// it, each write is flushed before its status is written.
pub const VIRTIO_BLK_F_FLUSH: u64 = 9;

/// The feature bit of indirect tables of descriptors.
pub const VIRTIO_RING_F_INDIRECT_DESC: u64 = 28;

/// The feature bit of notifications by event indices.
pub const VIRTIO_RING_F_EVENT_IDX: u64 = 29;
