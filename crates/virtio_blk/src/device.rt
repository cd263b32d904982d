//! The device: its features, its configuration, and the chains that it serves.
ghost use Rattle.std.specs.Prelude.{◌≡◌, ◌*◌, ◌<◌, ◌^◌, length, if◌then◌else◌, IfOk, bit_and, ◌==◌, not};
ghost use Rattle.std.specs.Int.{w64, to_le_bytes};
ghost use Rattle.vm_memory_guest.specs.Host.{shape_of, Holds};
ghost use Rattle.virtio_blk.specs.Config.{Device, acceptable, limits_of, offered};
ghost use Rattle.virtio_blk.specs.Served.{Serves};

mod pieces;
pub(crate) mod process;
mod serve;

use crate::disk::Disk;
use crate::features::{
    VIRTIO_BLK_F_FLUSH, VIRTIO_BLK_F_RO, VIRTIO_F_VERSION_1, VIRTIO_RING_F_EVENT_IDX,
    VIRTIO_RING_F_INDIRECT_DESC,
};
use crate::request::{DeviceLimits, ID_LEN};
use std::alloc::{AllocError, Global};
use std::marker::Model;
use vm_memory_device::Segment;

// How many bytes are moved between the guest and the disk at once.
pub(crate) const PIECE: usize = 65536;

/// A virtio block device on a disk: the crate's README.md.
///
/// ```text
/// let mut device = BlockDevice::new(alloc, disk, false, *b"the name of the disk")?;
/// let served = device.process(&mut queue, &memory, &mut host, 1024);
/// ```
#[derive(Drop)]
pub struct BlockDevice<D> {
    alloc: Global,
    disk: D,
    read_only: bool,
    id: [u8; ID_LEN],
    acked: u64,
    // How many chains it served for which an allocation failed.
    starved: u64,
    // What is on its way between the guest and the disk.
    buffer: Vec<u8>,
    // The list of the next chain.
    list: Vec<Segment>,
}

impl<D> Model for BlockDevice<D> {
    ghost use Rattle.std.specs.Prelude.{◌≡◌, length};
    ghost use Rattle.virtio_blk.specs.Config.{Device};

    ghost Value = { Device D };

    ghost view = { λ d. record {
      disk = d.disk;
      read_only = d.read_only;
      id = d.id;
      acked = d.acked;
      starved = d.starved;
    } };

    ghost invariant = { λ d. length d.buffer.items ≡ 65536 };
}

impl<D: Disk> BlockDevice<D> {
    /// A device on a disk, with a name that drivers can ask for. A read-only one refuses to write. It allocates
    /// what it needs to serve chains, once.
    ///
    /// Leaves open: a failed allocation each time.
    pub fn new(
        alloc: Global,
        disk: D,
        read_only: bool,
        id: [u8; ID_LEN],
    ) -> Result<BlockDevice<D>, AllocError>
        ensures { IfOk result
            (λ d. d ≡ record { disk = disk; read_only = read_only; id = id; acked = 0; starved = 0 }) }
    {
        let buffer = vec![in alloc; 0u8; PIECE]?;
        Ok(BlockDevice {
            alloc,
            disk,
            read_only,
            id,
            acked: 0,
            starved: 0,
            buffer,
            list: Vec::new(alloc),
        })
    }

    /// Its disk.
    pub fn disk(&self) -> &D
        ensures { result.now ≡ self.now.disk }
    {
        &self.disk
    }

    /// The disk of a device that is no longer needed.
    pub fn into_disk(self) -> D
        ensures { result ≡ self.disk }
    {
        self.disk
    }

    /// The features that it offers, each as its bit: VERSION_1, INDIRECT_DESC, EVENT_IDX, FLUSH, and RO if it is
    /// read-only.
    pub fn features(&self) -> u64
        ensures { result ≡ offered self.now.read_only }
    {
        let always = 1 << VIRTIO_F_VERSION_1
            | 1 << VIRTIO_RING_F_INDIRECT_DESC
            | 1 << VIRTIO_RING_F_EVENT_IDX
            | 1 << VIRTIO_BLK_F_FLUSH;
        if self.read_only {
            always | 1 << VIRTIO_BLK_F_RO
        } else {
            always
        }
    }

    /// Accepts the driver's feature bits, and returns whether the driver may have these features: they are
    /// offered, and VERSION_1 is among them. Else nothing changes.
    pub fn ack_features(&mut self, features: u64) -> bool
        ensures answer { result ≡ acceptable self.old.read_only features }
        ensures acked { self.new ≡ if result then record self.old { acked = features } else self.old }
    {
        if features & self.features() != features || features & (1 << VIRTIO_F_VERSION_1) == 0 {
            return false;
        }
        self.acked = features;
        true
    }

    /// The features that were accepted last, and 0 if none were.
    pub fn acked_features(&self) -> u64
        ensures { result ≡ self.now.acked }
    {
        self.acked
    }

    /// Whether the driver accepted that notifications go by event indices. The owner of the device then passes
    /// this to the queue, by `set_event_idx`.
    pub fn event_idx(&self) -> bool
        ensures { result ≡ not (bit_and self.now.acked (2 ^ 29) == 0) }
    {
        self.acked & (1 << VIRTIO_RING_F_EVENT_IDX) != 0
    }

    /// The configuration space: the capacity, in sectors, as a number of 8 bytes, the lowest first.
    pub fn config(&self) -> [u8; 8]
        ensures { result ≡ to_le_bytes w64 (D.sectors self.now.disk) }
    {
        self.disk.sectors().to_le_bytes()
    }

    /// How many chains it served, since it was made, with an access for whose translation no memory could be allocated.
    /// Their requests failed for that, or have no status. It stays at 2^64 - 1.
    pub fn starved(&self) -> u64
        ensures { result ≡ self.now.starved }
    {
        self.starved
    }

    // What its requests are checked against.
    fn limits(&self) -> DeviceLimits
        ensures limits { result ≡ limits_of D.sectors self.now }
        ensures small { D.sectors self.now.disk < 2 ^ 55 }
    {
        DeviceLimits {
            sectors: self.disk.sectors(),
            read_only: self.read_only,
            acked: self.acked,
            seg_max: None,
            size_max: None,
        }
    }
}
