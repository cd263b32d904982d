//! A virtio block device over guest memory: the crate's README.md.
#![tactic(auto)]

mod device;
mod disk;
mod features;
mod lent;
mod looks;
mod request;
mod steps;
mod text;

pub use device::BlockDevice;
pub use device::process::Served;
pub use disk::file::FileDisk;
pub use disk::memory::MemoryDisk;
pub use disk::{Disk, DiskError, SECTOR_SIZE};
pub use features::{
    VIRTIO_BLK_F_FLUSH, VIRTIO_BLK_F_RO, VIRTIO_F_VERSION_1, VIRTIO_RING_F_EVENT_IDX,
    VIRTIO_RING_F_INDIRECT_DESC,
};
pub use looks::{Fetches, Puts};
pub use request::{
    DeviceLimits, ID_LEN, Request, VIRTIO_BLK_S_IOERR, VIRTIO_BLK_S_OK, VIRTIO_BLK_S_UNSUPP,
    VIRTIO_BLK_T_FLUSH, VIRTIO_BLK_T_GET_ID, VIRTIO_BLK_T_IN, VIRTIO_BLK_T_OUT,
};
pub use steps::{begin, begin_from, finish, finish_from};
