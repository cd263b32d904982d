//! Requests to a block device, over plain memory and behind an IOMMU.

use crate::block_device::kicked;
use anyhow::{Context, bail};
use std::alloc::Global;
use std::sync::Arc;
use virtio_blk::{BlockDevice, Disk, MemoryDisk};
use virtio_queue::{
    AnyQueue, Descriptor, DriverQueue, QueueField, VRING_DESC_F_NEXT, VRING_DESC_F_WRITE,
};
use vm_memory::{
    Bitmap, Bytes, Chain, ExclusiveBitmap, GuestAddress, GuestMemory, GuestMemoryMmap, HostMemory,
    IommuMemory, NewBitmap, Permissions, Segment, TableIommu,
};

type Host = HostMemory<ExclusiveBitmap>;

// An address, a length in bytes, and whether the device writes there.
type Part = (u64, u32, bool);

// Requests whose header stands at the address 0 or 0x10.
const REQUESTS: [&[Part]; 9] = [
    &[(0, 16, false), (0x200, 512, false), (0x800, 1, true)],
    // Header and data may be cut anywhere.
    &[
        (0, 5, false),
        (5, 11, false),
        (0x200, 1000, false),
        (0x200, 24, false),
        (0x800, 1, true),
    ],
    // A header that is cut off, one that is not there, and one of another kind.
    &[(0, 15, false), (0x800, 1, true)],
    &[(0x1000, 16, false), (0x800, 1, true)],
    &[(0x10, 16, false), (0x800, 1, true)],
    // Data that ends in a hole, and data that passes the end of the disk.
    &[(0, 16, false), (0xf00, 512, false), (0x800, 1, true)],
    &[(0, 16, false), (0x200, 1536, false), (0x800, 1, true)],
    // No byte for the status, and one that cannot be written.
    &[(0, 16, false), (0x200, 512, false)],
    &[(0, 16, false), (0x200, 512, false), (0x1000, 1, true)],
];

// Guest memory with a hole, in a new host.
fn layout(alloc: Global, host: &mut Host) -> anyhow::Result<GuestMemoryMmap> {
    let regions = [(GuestAddress(0), 0x1000), (GuestAddress(0x2000), 0x1000)];
    Ok(GuestMemoryMmap::from_ranges(alloc, host, &regions)?)
}

// Puts two headers, data and a status that no device tells into memory.
fn prepare<M: GuestMemory>(host: &mut Host, memory: &M) -> anyhow::Result<()> {
    if !host.holds(memory) {
        bail!("the host does not hold the memory");
    }
    let header = [1, 0, 0, 0, 0, 0, 0, 0, 1, 0, 0, 0, 0, 0, 0, 0];
    let other = [7, 0, 0, 0, 0, 0, 0, 0, 1, 0, 0, 0, 0, 0, 0, 0];
    memory.write_slice(host, &header, GuestAddress(0))?;
    memory.write_slice(host, &other, GuestAddress(0x10))?;
    memory.write_slice(host, &[171; 1536], GuestAddress(0x200))?;
    memory.write_slice(host, &[255], GuestAddress(0x800))?;
    Ok(())
}

// A device on a new disk of three sectors.
fn device_of(alloc: Global) -> anyhow::Result<BlockDevice<MemoryDisk>> {
    let disk = MemoryDisk::new(vec![in alloc; 0u8; 1536]?);
    Ok(BlockDevice::new(alloc, disk, false, *b"a disk of the recipe")?)
}

// How each sector of a disk begins.
fn beginnings(disk: &MemoryDisk) -> anyhow::Result<[u8; 3]> {
    let bytes = disk.bytes();
    let first = bytes.first().context("there is a sector")?;
    let second = bytes.get(512).context("there is a sector")?;
    let third = bytes.get(1024).context("there is a sector")?;
    Ok([*first, *second, *third])
}

// Serves one request with a disk of its own. Tells how many bytes were written, the status, and how each sector begins
// then.
fn serve_one<M: GuestMemory>(
    rt: &impl Print,
    alloc: Global,
    host: &mut Host,
    memory: &M,
    parts: &[Part],
) -> anyhow::Result<()> {
    let mut segments = Vec::new(alloc);
    for (addr, len, writable) in parts {
        segments.push(Segment {
            addr: GuestAddress(*addr),
            len: *len,
            writable: *writable,
        })?;
    }
    let chain = Chain::new(segments)?;
    if !host.holds(memory) {
        bail!("the host does not hold the memory");
    }
    let mut device = device_of(alloc)?;
    let len = device.serve(memory, host, &chain);
    let status = memory.read_obj::<u8, _>(host, GuestAddress(0x800))?;
    println!(rt; "{len} {status} {:?}", beginnings(device.disk())?)?;
    Ok(())
}

// How many requests go over a queue, and how many descriptors that has.
const COUNT: u32 = 10_000;

const SIZE: u16 = 16;

// A driver, and the device's half of its queue.
#[derive(Drop)]
struct Halves {
    driver: DriverQueue,
    queue: AnyQueue,
}

// Puts the descriptors of the first request.
fn describe<M: GuestMemory, B: Bitmap>(
    host: &mut HostMemory<B>,
    memory: &M,
    driver: &DriverQueue,
) -> anyhow::Result<()> {
    let next = VRING_DESC_F_NEXT;
    let parts = [
        (0, 16, next),
        (0x200, 512, next),
        (0x800, 1, VRING_DESC_F_WRITE),
    ];
    let mut index = 0u16;
    for (addr, len, flags) in parts {
        if !host.holds(memory) {
            bail!("the host does not hold the memory");
        }
        let after = index.wrapping_add(1);
        let descriptor = Descriptor {
            addr,
            len,
            flags,
            next: after,
        };
        driver.put_descriptor(memory, host, index, descriptor)?;
        index = after;
    }
    Ok(())
}

// Publishes the request so many times, and says whether the driver notifies the device then: the head that the device
// waits for is among these.
fn publish<M: GuestMemory, B: Bitmap>(
    host: &mut HostMemory<B>,
    memory: &M,
    driver: &mut DriverQueue,
    count: u16,
) -> anyhow::Result<bool> {
    let old = driver.next_avail;
    for _ in 0..count {
        if !host.holds(memory) {
            bail!("the host does not hold the memory");
        }
        driver.publish(memory, host, 0)?;
    }
    if !host.holds(memory) {
        bail!("the host does not hold the memory");
    }
    let new = driver.next_avail;
    let event = driver.field(memory, host, QueueField::AvailEvent)?;
    Ok(new.wrapping_sub(event).wrapping_sub(1) < new.wrapping_sub(old))
}

// Takes what the device returned, and says how many requests that are.
fn take<M: GuestMemory, B: Bitmap>(
    host: &HostMemory<B>,
    memory: &M,
    driver: &mut DriverQueue,
) -> anyhow::Result<u32> {
    let mut count = 0u32;
    for _ in 0..SIZE {
        if !host.holds(memory) {
            bail!("the host does not hold the memory");
        }
        if driver.take_used(memory, host)?.is_none() {
            break;
        }
        count = count.saturating_add(1);
    }
    Ok(count)
}

// Has a burst of requests served: the device is called where the driver notifies it, and as long as there is more.
fn ask<D: Disk, M: GuestMemory, B: Bitmap>(
    host: &mut HostMemory<B>,
    memory: &M,
    halves: &mut Halves,
    device: &mut BlockDevice<D>,
    count: u16,
) -> anyhow::Result<u32> {
    let mut more = publish(host, memory, &mut halves.driver, count)?;
    let mut interrupt = false;
    for _ in 0..SIZE {
        if !more {
            break;
        }
        if !host.holds(memory) {
            bail!("the host does not hold the memory");
        }
        more = kicked(device, &mut halves.queue, memory, host, &mut interrupt)?;
    }
    take(host, memory, &mut halves.driver)
}

// Has requests served in bursts, and says how many were answered.
fn ask_all<D: Disk, M: GuestMemory, B: Bitmap>(
    host: &mut HostMemory<B>,
    memory: &M,
    device: &mut BlockDevice<D>,
) -> anyhow::Result<u32> {
    let driver = DriverQueue::new(GuestAddress(0x2000), SIZE)?;
    let mut queue = AnyQueue::Split(driver.queue()?);
    queue.set_event_idx(device.event_idx());
    let mut halves = Halves { driver, queue };
    describe(host, memory, &halves.driver)?;
    let (mut published, mut answered) = (0u32, 0u32);
    for burst in 0..COUNT {
        let count = (burst % u32::from(SIZE) + 1).min(COUNT.saturating_sub(published));
        published = published.saturating_add(count);
        let done = ask(host, memory, &mut halves, device, count as u16)?;
        answered = answered.saturating_add(done);
    }
    Ok(answered)
}

// Requests over a queue in plain memory, with event indices: the driver notifies the device only of what that waits
// for.
fn serve_over_a_queue(rt: &impl Print, alloc: Global) -> anyhow::Result<()> {
    let mut host = HostMemory::new(alloc);
    let memory = layout(alloc, &mut host)?;
    prepare(&mut host, &memory)?;
    let mut device = device_of(alloc)?;
    if !device.ack_features(device.features()) {
        bail!("the device refuses its features");
    }
    let answered = ask_all(&mut host, &memory, &mut device)?;
    println!(rt; "{answered} answered, {:?}", beginnings(device.disk())?)?;
    Ok(())
}

// All requests over plain memory.
fn serve_plain(rt: &impl Print, alloc: Global) -> anyhow::Result<()> {
    for parts in REQUESTS {
        let mut host = HostMemory::new(alloc);
        let memory = layout(alloc, &mut host)?;
        prepare(&mut host, &memory)?;
        serve_one(rt, alloc, &mut host, &memory, parts)?;
    }
    Ok(())
}

// All requests behind an IOMMU, where the first page leads to itself.
fn serve_translated(rt: &impl Print, alloc: Global) -> anyhow::Result<()> {
    for parts in REQUESTS {
        let mut host = HostMemory::new(alloc);
        let backend = layout(alloc, &mut host)?;
        let table = host.new_table()?;
        let space = host.new_space(ExclusiveBitmap::with_len(alloc, 0x10000)?)?;
        let zero = GuestAddress(0);
        host.table_mut(table)
            .set_mapping(zero, zero, 0x1000, Permissions::ReadWrite)?;
        let iommu = Arc::new(alloc, TableIommu::new(table))?;
        let memory = IommuMemory::new(alloc, backend, iommu, true, space);
        prepare(&mut host, &memory)?;
        serve_one(rt, alloc, &mut host, &memory, parts)?;
    }
    Ok(())
}

/// Serves each request over both, and many over a queue.
pub fn serve_requests(rt: &impl Print, alloc: Global) -> anyhow::Result<()> {
    serve_plain(rt, alloc)?;
    serve_translated(rt, alloc)?;
    serve_over_a_queue(rt, alloc)
}
