//! A guest: its memory, and the driver's half of the queue in it.

use crate::request::{MOST, Request};
use anyhow::bail;
use std::alloc::Global;
use std::sync::Arc;
use virtio_blk::{
    BlockDevice, Disk, ID_LEN, VIRTIO_BLK_S_OK, VIRTIO_BLK_S_UNSUPP, VIRTIO_BLK_T_FLUSH,
    VIRTIO_BLK_T_GET_ID, VIRTIO_BLK_T_IN, VIRTIO_BLK_T_OUT,
};
use virtio_queue::{
    AnyQueue, Descriptor, DriverQueue, QueueField, VRING_DESC_F_INDIRECT, VRING_DESC_F_NEXT,
    VRING_DESC_F_WRITE, VRING_USED_F_NO_NOTIFY,
};
use vm_memory_base::{GuestAddress, Permissions};
use vm_memory_device::{IommuMemory, MachineMemory, TableIommu};
use vm_memory_guest::{Bytes, GuestMemoryMmap, GuestRegionMmap, HostMemory, TlbId};

// Where the queue lies, the table of a chain that the queue's own table is too small for, a header, a status, and
// data, for which there is room up to the end of memory.
const QUEUE: u64 = 0x1000;

const TABLE: u64 = 0x10_0000;

const HEADER: u64 = 0x10_1000;

const STATUS: u64 = 0x10_1100;

const DATA: u64 = 0x10_2000;

const END: u64 = 0x20_2000;

// Behind an IOMMU each page leads to another one.
const PAGE: u64 = 0x1000;

const PAGES: u64 = END / PAGE;

// A chain: a header, data in two segments, and a status.
const PARTS: u16 = 4;

// How many chains a call of the device serves at most, and how many calls follow one notification.
const CHAINS: u32 = 16;

const CALLS: u32 = 16;

type Host = HostMemory<()>;

type Memory = MachineMemory<GuestRegionMmap, TableIommu>;

// Maps a page to another one.
fn map_page(host: &mut Host, table: TlbId, page: u64) -> anyhow::Result<()> {
    if page >= PAGES || !host.shape().has_table(table) {
        bail!("the host has no such table");
    }
    let from = GuestAddress(page * PAGE);
    let to = GuestAddress((page * 5 + 3) % PAGES * PAGE);
    host.table_mut(table)
        .set_mapping(from, to, PAGE as usize, Permissions::ReadWrite)?;
    Ok(())
}

// Memory, which lies behind an IOMMU whose pages are scattered, or not.
fn memory_of(alloc: Global, host: &mut Host, iommu: bool) -> anyhow::Result<Memory> {
    let ranges = [(GuestAddress(0), END as usize)];
    let layout = GuestMemoryMmap::from_ranges(alloc, host, &ranges)?;
    if !iommu {
        return Ok(MachineMemory::Plain(layout));
    }
    let table = host.new_table()?;
    let space = host.new_space(())?;
    for page in 0..PAGES {
        map_page(host, table, page)?;
    }
    let iommu = Arc::new(alloc, TableIommu::new(table))?;
    Ok(MachineMemory::Translated(IommuMemory::new(alloc, layout, iommu, true, space)))
}

// Whether a driver whose index went from one to another notifies a device that waits for an event: the event is one of
// those between, modulo 2^16.
fn passes(event: u16, new: u16, old: u16) -> bool {
    new.wrapping_sub(event).wrapping_sub(1) < new.wrapping_sub(old)
}

// The bytes of a header.
fn header_of(kind: u32, sector: u64) -> [u8; 16] {
    let [a, b, c, d] = kind.to_le_bytes();
    let [s, t, u, v, w, x, y, z] = sector.to_le_bytes();
    [a, b, c, d, 0, 0, 0, 0, s, t, u, v, w, x, y, z]
}

/// A guest with a queue.
#[derive(Drop)]
pub struct Guest {
    host: Host,
    memory: Memory,
    driver: DriverQueue,
    queue: AnyQueue,
    // The driver's index when it last decided whether to notify the device.
    decided: u16,
}

impl Guest {
    /// A guest with a queue of this many descriptors.
    pub fn new(alloc: Global, size: u16, iommu: bool) -> anyhow::Result<Guest> {
        let mut host = HostMemory::new(alloc);
        let memory = memory_of(alloc, &mut host, iommu)?;
        let driver = DriverQueue::new(GuestAddress(QUEUE), size)?;
        let queue = AnyQueue::Split(driver.queue()?);
        Ok(Guest {
            host,
            memory,
            driver,
            queue,
            decided: 0,
        })
    }

    /// Accepts all features of a device.
    pub fn accept<D: Disk>(&mut self, device: &mut BlockDevice<D>) -> anyhow::Result<()> {
        if !device.ack_features(device.features()) {
            bail!("the device refuses its features");
        }
        self.queue.set_event_idx(device.event_idx());
        Ok(())
    }

    fn put(&mut self, addr: u64, bytes: &[u8]) -> anyhow::Result<()> {
        if !self.host.holds(&self.memory) {
            bail!("the host does not hold the memory");
        }
        self.memory
            .write_slice(&mut self.host, bytes, GuestAddress(addr))?;
        Ok(())
    }

    fn get(&self, addr: u64, bytes: &mut [u8]) -> anyhow::Result<()> {
        if !self.host.holds(&self.memory) {
            bail!("the host does not hold the memory");
        }
        self.memory
            .read_slice(&self.host, bytes, GuestAddress(addr))?;
        Ok(())
    }

    // Puts a descriptor into the table of the queue, or into the other one.
    fn describe(&mut self, index: u16, descriptor: Descriptor) -> anyhow::Result<()> {
        if !self.host.holds(&self.memory) {
            bail!("the host does not hold the memory");
        }
        if self.driver.size >= PARTS {
            self.driver
                .put_descriptor(&self.memory, &mut self.host, index, descriptor)?;
        } else {
            let addr = GuestAddress(TABLE + 16 * u64::from(index));
            self.memory.write_obj(&mut self.host, descriptor, addr)?;
        }
        Ok(())
    }

    // Lays out a chain, and publishes it.
    fn publish(&mut self, parts: [(u64, u32, u16); 4]) -> anyhow::Result<()> {
        let mut next = 0u16;
        for (addr, len, flags) in parts {
            let index = next;
            next = index.wrapping_add(1);
            let last = next == PARTS;
            let flags = if last {
                flags
            } else {
                flags | VRING_DESC_F_NEXT
            };
            self.describe(
                index,
                Descriptor {
                    addr,
                    len,
                    flags,
                    next,
                },
            )?;
        }
        if !self.host.holds(&self.memory) {
            bail!("the host does not hold the memory");
        }
        if self.driver.size < PARTS {
            let table = Descriptor {
                addr: TABLE,
                len: 64,
                flags: VRING_DESC_F_INDIRECT,
                next: 0,
            };
            self.driver
                .put_descriptor(&self.memory, &mut self.host, 0, table)?;
        }
        if !self.host.holds(&self.memory) {
            bail!("the host does not hold the memory");
        }
        self.driver.publish(&self.memory, &mut self.host, 0)?;
        Ok(())
    }

    // Whether the driver notifies the device of what it has published since it last decided that.
    fn notifies(&mut self) -> anyhow::Result<bool> {
        if !self.host.holds(&self.memory) {
            bail!("the host does not hold the memory");
        }
        let (new, old) = (self.driver.next_avail, self.decided);
        self.decided = new;
        if self.queue.event_idx_enabled() {
            let event = self
                .driver
                .field(&self.memory, &self.host, QueueField::AvailEvent)?;
            return Ok(passes(event, new, old));
        }
        let flags = self
            .driver
            .field(&self.memory, &self.host, QueueField::UsedFlags)?;
        Ok(flags & VRING_USED_F_NO_NOTIFY == 0)
    }

    // Lets the device serve what was published, as its owner does when the driver notifies it. It says whether the
    // owner calls it again.
    fn kick<D: Disk>(&mut self, device: &mut BlockDevice<D>) -> anyhow::Result<bool> {
        if !self.host.holds(&self.memory) {
            bail!("the host does not hold the memory");
        }
        let served = device.process(&mut self.queue, &self.memory, &mut self.host, CHAINS);
        match served.failed {
            Some(error) => bail!("the device fails: {error}"),
            None => Ok(served.more),
        }
    }

    // Notifies the device, where the rule says so, and takes what it returns.
    fn complete<D: Disk>(&mut self, device: &mut BlockDevice<D>) -> anyhow::Result<()> {
        if !self.notifies()? {
            bail!("the device does not ask to be notified of the request");
        }
        for _ in 0..CALLS {
            if !self.kick(device)? {
                break;
            }
        }
        if !self.host.holds(&self.memory) {
            bail!("the host does not hold the memory");
        }
        if self.driver.take_used(&self.memory, &self.host)?.is_none() {
            bail!("the device returned nothing");
        }
        Ok(())
    }

    // Has a request of this header served, whose data are so many bytes that the device writes or reads. It answers
    // the status.
    fn submit<D: Disk>(
        &mut self,
        device: &mut BlockDevice<D>,
        header: [u8; 16],
        len: usize,
        writes: bool,
    ) -> anyhow::Result<u8> {
        if len > 512 * MOST {
            bail!("the request is too long");
        }
        self.put(HEADER, &header)?;
        self.put(STATUS, &[255])?;
        let flags = if writes { VRING_DESC_F_WRITE } else { 0 };
        let front = len / 3;
        self.publish([
            (HEADER, 16, 0),
            (DATA, front as u32, flags),
            (DATA + front as u64, (len - front) as u32, flags),
            (STATUS, 1, VRING_DESC_F_WRITE),
        ])?;
        self.complete(device)?;
        let mut status = [0];
        self.get(STATUS, &mut status)?;
        Ok(status[0])
    }

    /// Has a request served, and prints what it comes to.
    pub fn ask<D: Disk>(
        &mut self,
        alloc: Global,
        device: &mut BlockDevice<D>,
        request: &Request,
    ) -> anyhow::Result<String> {
        let (kind, sector, len, writes) = match request {
            Request::Write(sector, bytes) => {
                self.put(DATA, bytes.as_slice())?;
                (VIRTIO_BLK_T_OUT, *sector, bytes.len(), false)
            }
            Request::Read(sector, count) => (
                VIRTIO_BLK_T_IN,
                *sector,
                count.saturating_mul(512),
                true,
            ),
            Request::Flush => (VIRTIO_BLK_T_FLUSH, 0, 0, true),
            Request::Id => (VIRTIO_BLK_T_GET_ID, 0, ID_LEN, true),
        };
        let status = self.submit(device, header_of(kind, sector), len, writes)?;
        if status == VIRTIO_BLK_S_UNSUPP {
            return Ok(String::from_str(alloc, "unsupported")?);
        }
        if status != VIRTIO_BLK_S_OK {
            return Ok(String::from_str(alloc, "error")?);
        }
        if !writes || len == 0 {
            return Ok(String::from_str(alloc, "ok")?);
        }
        let mut data = vec![in alloc; 0u8; len]?;
        self.get(DATA, data.as_mut_slice())?;
        let text = hex::encode(alloc, data.as_slice())?;
        Ok(format!(in alloc; "data {}", text.as_str())?)
    }
}
