//! Guest memory with a queue, and a device that serves it.

use std::alloc::Global;
use std::sync::Arc;
use std::test::Fail;
use virtio_blk::{BlockDevice, Disk, Served};
use virtio_queue::{AnyQueue, Descriptor, DriverQueue};
use vm_memory_base::{Bitmap, ExclusiveBitmap, GuestAddress, NewBitmap, Permissions};
use vm_memory_device::{IommuMemory, MachineMemory, TableIommu};
use vm_memory_guest::{Bytes, GuestMemory, GuestMemoryMmap, GuestRegionMmap, HostMemory, TlbId};

pub type Host = HostMemory<ExclusiveBitmap>;

pub type Memory = MachineMemory<GuestRegionMmap, TableIommu>;

/// Where memory begins, where its two regions touch, and where it ends.
pub const BEGIN: u64 = 0x10000;

const MIDDLE: u64 = 0x13100;

pub const END: u64 = 0x1_20000;

/// Where a header, data and a status lie. The queue lies at the beginning.
pub const HEADER: u64 = 0x11000;

pub const DATA: u64 = 0x13000;

pub const STATUS: u64 = 0x12000;

/// How many descriptors the queue has.
pub const SIZE: u16 = 16;

// The pages behind an IOMMU: each leads to another one.
pub const PAGE: u64 = 0x1000;

const PAGES: u64 = (END - BEGIN) / PAGE;

/// A name of 20 bytes, none of them 0 or 170.
pub const NAME: [u8; 20] = *b"the disk under tests";

/// A segment: its address, its length, and whether the device writes it.
pub type Part = (u64, u32, bool);

/// Maps a page to another one.
pub fn map_page<B: Bitmap>(host: &mut HostMemory<B>, table: TlbId, page: u64) -> Result<(), Fail> {
    if page >= PAGES || !host.shape().has_table(table) {
        return Err(Fail::new("the host has no such table"));
    }
    let from = GuestAddress(BEGIN + page * PAGE);
    let to = GuestAddress(BEGIN + (page * 5 + 3) % PAGES * PAGE);
    host.table_mut(table)
        .set_mapping(from, to, PAGE as usize, Permissions::ReadWrite)?;
    Ok(())
}

/// Memory of two regions, or the same behind an IOMMU whose pages are scattered.
pub fn memory_of(alloc: Global, host: &mut Host, scattered: bool) -> Result<Memory, Fail> {
    let ranges = [
        (GuestAddress(BEGIN), (MIDDLE - BEGIN) as usize),
        (GuestAddress(MIDDLE), (END - MIDDLE) as usize),
    ];
    let layout = GuestMemoryMmap::from_ranges(alloc, host, &ranges)?;
    if !scattered {
        return Ok(MachineMemory::Plain(layout));
    }
    let table = host.new_table()?;
    let space = host.new_space(ExclusiveBitmap::with_len(alloc, END as usize)?)?;
    for page in 0..PAGES {
        map_page(host, table, page)?;
    }
    let iommu = Arc::new(alloc, TableIommu::new(table))?;
    let memory = IommuMemory::new(alloc, layout, iommu, true, space);
    Ok(MachineMemory::Translated(memory))
}

/// A guest and its device.
#[derive(Drop)]
pub struct Bench<M: GuestMemory, B: Bitmap, D: Disk> {
    pub host: HostMemory<B>,
    pub memory: M,
    pub driver: DriverQueue,
    pub queue: AnyQueue,
    pub device: BlockDevice<D>,
}

/// A guest whose data is 170 and whose status is 255, with a device on a disk.
pub fn make_bench<D: Disk>(
    alloc: Global,
    scattered: bool,
    disk: D,
    read_only: bool,
) -> Result<Bench<Memory, ExclusiveBitmap, D>, Fail> {
    let mut host = HostMemory::new(alloc);
    let memory = memory_of(alloc, &mut host, scattered)?;
    let driver = DriverQueue::new(GuestAddress(BEGIN), SIZE)?;
    let queue = AnyQueue::Split(driver.queue()?);
    let device = BlockDevice::new(alloc, disk, read_only, NAME)?;
    let mut bench = Bench {
        host,
        memory,
        driver,
        queue,
        device,
    };
    bench.put(DATA, &[170; 4096])?;
    bench.put(STATUS, &[255])?;
    Ok(bench)
}

/// What is done with a guest and its device. What comes of it is written to `told`.
pub trait Scene<D: Disk> {
    fn tell<M: GuestMemory, B: Bitmap>(
        &self,
        alloc: Global,
        bench: &mut Bench<M, B, D>,
        told: &mut String,
    ) -> Result<(), Fail>;
}

/// Returns what a scene writes, with a device on a disk. A function that names the types of a guest is dear to prove,
/// so tests call this one.
pub fn told_of<D: Disk, S: Scene<D>>(
    alloc: Global,
    scattered: bool,
    disk: D,
    read_only: bool,
    scene: &S,
) -> Result<String, Fail> {
    let mut told = String::new(alloc);
    let mut bench = make_bench(alloc, scattered, disk, read_only)?;
    scene.tell(alloc, &mut bench, &mut told)?;
    Ok(told)
}

/// The bytes of a header.
pub fn header_of(kind: u32, sector: u64) -> [u8; 16] {
    let [a, b, c, d] = kind.to_le_bytes();
    let [s, t, u, v, w, x, y, z] = sector.to_le_bytes();
    [a, b, c, d, 1, 2, 3, 4, s, t, u, v, w, x, y, z]
}

impl<M: GuestMemory, B: Bitmap, D: Disk> Bench<M, B, D> {
    /// Puts bytes into guest memory.
    pub fn put(&mut self, addr: u64, bytes: &[u8]) -> Result<(), Fail> {
        if !self.host.holds(&self.memory) {
            return Err(Fail::new("the host does not hold the memory"));
        }
        self.memory
            .write_slice(&mut self.host, bytes, GuestAddress(addr))?;
        Ok(())
    }

    /// Bytes of guest memory.
    pub fn get(&self, alloc: Global, addr: u64, len: usize) -> Result<Vec<u8>, Fail> {
        if !self.host.holds(&self.memory) {
            return Err(Fail::new("the host does not hold the memory"));
        }
        let mut bytes = vec![in alloc; 0u8; len]?;
        self.memory
            .read_slice(&self.host, bytes.as_mut_slice(), GuestAddress(addr))?;
        Ok(bytes)
    }

    // Puts the descriptor of a segment, with the next one after it where there is one.
    fn put_part(&mut self, index: u16, part: Part, next: bool) -> Result<(), Fail> {
        let (addr, len, writable) = part;
        let flags = u16::from(next) + 2 * u16::from(writable);
        let descriptor = Descriptor {
            addr,
            len,
            flags,
            next: index.wrapping_add(1),
        };
        if !self.host.holds(&self.memory) {
            return Err(Fail::new("the host does not hold the memory"));
        }
        self.driver
            .put_descriptor(&self.memory, &mut self.host, index, descriptor)?;
        Ok(())
    }

    /// Publishes a chain of these segments, from a descriptor on.
    pub fn publish(&mut self, first: u16, parts: &[Part]) -> Result<(), Fail> {
        let mut index = first;
        for (number, part) in parts.iter().enumerate() {
            let next = number < parts.len() - 1;
            self.put_part(index, *part, next)?;
            index = index.wrapping_add(1);
        }
        if !self.host.holds(&self.memory) {
            return Err(Fail::new("the host does not hold the memory"));
        }
        self.driver.publish(&self.memory, &mut self.host, first)?;
        Ok(())
    }

    /// Lets the device serve what was published, at most this many chains.
    pub fn kick_at_most(&mut self, most: u32) -> Result<Served, Fail> {
        if !self.host.holds(&self.memory) {
            return Err(Fail::new("the host does not hold the memory"));
        }
        Ok(
            self.device
                .process(&mut self.queue, &self.memory, &mut self.host, most),
        )
    }

    /// Lets the device serve all that was published.
    pub fn kick(&mut self) -> Result<Served, Fail> {
        self.kick_at_most(1000)
    }

    /// Takes a used entry.
    pub fn take(&mut self) -> Result<(u32, u32), Fail> {
        if !self.host.holds(&self.memory) {
            return Err(Fail::new("the host does not hold the memory"));
        }
        match self.driver.take_used(&self.memory, &self.host)? {
            Some(entry) => Ok(entry),
            None => Err(Fail::new("no entry was returned")),
        }
    }

    /// Has a request served whose header this is, and writes the length of its result.
    pub fn ask(&mut self, header: [u8; 16], parts: &[Part]) -> Result<u32, Fail> {
        self.put(HEADER, &header)?;
        self.publish(0, parts)?;
        let served = self.kick()?;
        if served.count != 1 || served.more || served.failed.is_some() {
            return Err(Fail::new(format_args!("one is served: {served:?}")));
        }
        let (head, len) = self.take()?;
        if head != 0 {
            return Err(Fail::new("another head was returned"));
        }
        Ok(len)
    }
}
