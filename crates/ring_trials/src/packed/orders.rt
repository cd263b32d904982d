//! Chains that are returned in every order of four, and events of drivers.

use super::slow;
use crate::draws::Numbers;
use anyhow::bail;
use std::alloc::Global;
use virtio_queue::{
    PackedBuffer, PackedDescriptor, PackedDriver, PackedField, PackedQueue, RingPosition,
    VRING_DESC_F_INDIRECT, VRING_DESC_F_NEXT, VRING_DESC_F_WRITE,
};
use vm_memory_base::GuestAddress;
use vm_memory_device::Segment;
use vm_memory_guest::{GuestMemoryMmap, HostMemory};

/// Sizes of rings, which need not be powers of two.
pub const SIZES: [u16; 6] = [1, 2, 3, 255, 256, 32768];

// Every order of four.
const ORDERS: [[u16; 4]; 24] = [
    [0, 1, 2, 3],
    [0, 1, 3, 2],
    [0, 2, 1, 3],
    [0, 2, 3, 1],
    [0, 3, 1, 2],
    [0, 3, 2, 1],
    [1, 0, 2, 3],
    [1, 0, 3, 2],
    [1, 2, 0, 3],
    [1, 2, 3, 0],
    [1, 3, 0, 2],
    [1, 3, 2, 0],
    [2, 0, 1, 3],
    [2, 0, 3, 1],
    [2, 1, 0, 3],
    [2, 1, 3, 0],
    [2, 3, 0, 1],
    [2, 3, 1, 0],
    [3, 0, 1, 2],
    [3, 0, 2, 1],
    [3, 1, 0, 2],
    [3, 1, 2, 0],
    [3, 2, 0, 1],
    [3, 2, 1, 0],
];

// How often each order comes, at other slots of the ring each time.
const ROUNDS: u16 = 20;

const BASE: u64 = 0x1000;

// Where an indirect table lies, after the longest ring, and how many bytes memory has.
const TABLE: u64 = 0x9_0000;

const SIZE: usize = 0x19_0000;

// Numbers of slots and of the rows of a table, around those at which lists grow, and the greatest.
const SLOTS: [u16; 11] = [16, 17, 64, 65, 512, 513, 1024, 4097, 32_766, 32_767, 32_768];

const ROWS: [u16; 11] = [16, 17, 64, 65, 512, 513, 1024, 4097, 32_769, 65_534, 65_535];

// The segment of a place in a chain of `count`: the second half is written.
fn segment_of(place: u16, count: u16) -> Segment {
    Segment {
        addr: GuestAddress(0x5000 + u64::from(place)),
        len: 16 + u32::from(place),
        writable: u32::from(place) * 2 >= u32::from(count),
    }
}

// Its descriptor, without a next one.
fn descriptor_of(place: u16, count: u16, id: u16) -> PackedDescriptor {
    let segment = segment_of(place, count);
    PackedDescriptor {
        addr: segment.addr.0,
        len: segment.len,
        id,
        flags: if segment.writable {
            VRING_DESC_F_WRITE
        } else {
            0
        },
    }
}

// Whether these are the segments of a chain of `count`.
fn are_all(segments: &[Segment], count: u16) -> bool {
    segments.len() == usize::from(count)
        && segments
            .iter()
            .zip(0..count)
            .all(|(segment, place)| *segment == segment_of(place, count))
}

// Both halves over one memory.
#[derive(Drop)]
struct Pair {
    host: HostMemory<()>,
    memory: GuestMemoryMmap,
    driver: PackedDriver,
    queue: PackedQueue,
}

impl Pair {
    // A pair that stands near the end of its ring.
    fn new(alloc: Global, size: u16) -> anyhow::Result<Pair> {
        let mut host = HostMemory::new(alloc);
        let ranges = [(GuestAddress(BASE), SIZE)];
        let memory = GuestMemoryMmap::from_ranges(alloc, &mut host, &ranges)?;
        let mut driver = PackedDriver::new(GuestAddress(BASE), size)?;
        let mut queue = driver.queue()?;
        let start = RingPosition {
            slot: size.saturating_sub(9),
            wrap: true,
        };
        driver.next_avail = start;
        driver.next_used = start;
        let bits = u32::from(start.to_bits());
        queue.set_vring_base(bits + 0x1_0000 * bits)?;
        Ok(Pair {
            host,
            memory,
            driver,
            queue,
        })
    }

    // Publishes a chain of as many descriptors as the buffer has slots. Only the id of the last one says which it is.
    fn publish(&mut self, buffer: PackedBuffer) -> anyhow::Result<()> {
        for left in 0..buffer.slots {
            let last = left.wrapping_add(1) == buffer.slots;
            let id = if last { buffer.id } else { !buffer.id };
            let mut descriptor = descriptor_of(left, buffer.slots, id);
            if !last {
                descriptor.flags |= VRING_DESC_F_NEXT;
            }
            self.publish_one(descriptor)?;
        }
        Ok(())
    }

    // Publishes a descriptor.
    fn publish_one(&mut self, descriptor: PackedDescriptor) -> anyhow::Result<()> {
        if !self.host.holds(&self.memory) {
            bail!("the host does not hold the memory");
        }
        self.driver
            .publish(&self.memory, &mut self.host, descriptor)?;
        Ok(())
    }

    // Publishes a chain of a table of `rows` descriptors.
    fn publish_table(&mut self, id: u16, rows: u16) -> anyhow::Result<()> {
        let table = PackedDriver {
            desc_ring: TABLE,
            ..self.driver
        };
        for row in 0..rows {
            if !self.host.holds(&self.memory) {
                bail!("the host does not hold the memory");
            }
            let descriptor = descriptor_of(row, rows, !id);
            table.put_descriptor(&self.memory, &mut self.host, row, descriptor)?;
        }
        self.publish_one(PackedDescriptor {
            addr: TABLE,
            len: 16 * u32::from(rows),
            id,
            flags: VRING_DESC_F_INDIRECT,
        })
    }

    // Pops the chain of a buffer, which has this number of segments, or finds none.
    fn pops(&mut self, alloc: Global, wanted: Option<(PackedBuffer, u16)>) -> anyhow::Result<()> {
        if !self.host.holds(&self.memory) {
            bail!("the host does not hold the memory");
        }
        let popped = self
            .queue
            .pop_descriptor_chain(alloc, &self.memory, &self.host)?;
        let Some((buffer, chain)) = popped else {
            if wanted.is_some() {
                bail!("no chain was popped");
            }
            return Ok(());
        };
        match wanted {
            Some((other, count)) if other == buffer && are_all(chain.segments(), count) => Ok(()),
            _ => bail!("another chain was popped"),
        }
    }

    // Returns a buffer: the driver finds it, and nothing before or after.
    fn returns(&mut self, buffer: PackedBuffer) -> anyhow::Result<()> {
        let len = u32::from(buffer.id) + 1;
        for wanted in [None, Some((buffer.id, len)), None] {
            if !self.host.holds(&self.memory) {
                bail!("the host does not hold the memory");
            }
            if self.driver.next_used(&self.memory, &self.host)? != wanted {
                bail!("the driver finds another buffer");
            }
            if wanted.is_some() {
                self.driver.skip(buffer.slots)?;
                return Ok(());
            }
            self.queue
                .add_used(&self.memory, &mut self.host, buffer, len)?;
        }
        Ok(())
    }
}

// Up to four buffers that fit the ring at once, of one to three slots each.
fn buffers(size: u16, round: u16) -> [Option<PackedBuffer>; 4] {
    let mut buffers = [None; 4];
    let mut left = size;
    for (i, place) in buffers.iter_mut().enumerate() {
        let slots = 1 + (i as u16 ^ round) % 3;
        if slots <= left {
            left -= slots;
            let id = round.wrapping_mul(2731).wrapping_add(i as u16);
            *place = Some(PackedBuffer { id, slots });
        }
    }
    buffers
}

// Returns buffers in an order, and counts them.
fn in_order(alloc: Global, pair: &mut Pair, order: &[u16; 4], round: u16) -> anyhow::Result<u64> {
    let size = pair.driver.size;
    let buffers = buffers(size, round);
    for buffer in buffers.iter().flatten() {
        pair.publish(*buffer)?;
    }
    for buffer in buffers.iter().flatten() {
        pair.pops(alloc, Some((*buffer, buffer.slots)))?;
    }
    pair.pops(alloc, None)?;
    let mut count = 0u64;
    for i in order {
        if let Some(Some(buffer)) = buffers.get(usize::from(*i)) {
            pair.returns(*buffer)?;
            count = count.wrapping_add(1);
        }
    }
    let state = pair.queue.state();
    if state.next_used != state.next_avail || pair.driver.next_used != state.next_used {
        bail!("the sides stand apart");
    }
    Ok(count)
}

/// Returns chains in every order of four, in a ring of this size. It returns how many.
pub fn all(alloc: Global, size: u16) -> anyhow::Result<u64> {
    let mut pair = Pair::new(alloc, size)?;
    let mut count = 0u64;
    for round in 0..ROUNDS {
        for order in &ORDERS {
            count = count.wrapping_add(in_order(alloc, &mut pair, order, round)?);
        }
    }
    Ok(count)
}

/// Pops and returns chains of many slots, and of tables of many descriptors. It returns how many of each.
pub fn long(alloc: Global) -> anyhow::Result<(usize, usize)> {
    let mut pair = Pair::new(alloc, 32768)?;
    for slots in SLOTS {
        let buffer = PackedBuffer { id: slots, slots };
        pair.publish(buffer)?;
        pair.pops(alloc, Some((buffer, slots)))?;
        pair.pops(alloc, None)?;
        pair.returns(buffer)?;
    }
    for rows in ROWS {
        let buffer = PackedBuffer { id: rows, slots: 1 };
        pair.publish_table(rows, rows)?;
        pair.pops(alloc, Some((buffer, rows)))?;
        pair.pops(alloc, None)?;
        pair.returns(buffer)?;
    }
    Ok((SLOTS.len(), ROWS.len()))
}

// An event: where the driver waits, its flags, and how many slots are used from a position on.
#[derive(Clone, Copy)]
struct Case {
    size: u16,
    from: RingPosition,
    count: u16,
    event: RingPosition,
    flags: u16,
    by_offset: bool,
}

impl Case {
    fn new(numbers: &mut Numbers) -> Case {
        let size = 1 + numbers.below(9) as u16;
        Case {
            size,
            from: RingPosition {
                slot: numbers.below(u64::from(size)) as u16,
                wrap: numbers.one_in(2),
            },
            count: 1 + numbers.below(u64::from(size)) as u16,
            event: RingPosition {
                slot: numbers.below(u64::from(size)) as u16,
                wrap: numbers.one_in(2),
            },
            flags: numbers.below(4) as u16,
            by_offset: !numbers.one_in(4),
        }
    }

    // Whether the driver is to be notified, slot by slot.
    fn wanted(&self) -> bool {
        if self.by_offset && self.flags == 2 {
            return slow::is_passed(self.size, self.from, self.count, self.event);
        }
        self.flags != 1
    }

    // Whether the queue says so, once after it did not know and once after it was asked.
    fn agrees(&self, pair: &mut Pair) -> anyhow::Result<bool> {
        let avail = slow::steps(self.size, self.from, self.count);
        let base = u32::from(avail.to_bits()) + 0x1_0000 * u32::from(self.from.to_bits());
        let queue = &mut pair.queue;
        queue.set_size(self.size)?;
        queue.set_event_idx(self.by_offset);
        queue.set_vring_base(base)?;
        for (field, value) in [
            (PackedField::DriverFlags, self.flags),
            (PackedField::DriverOffset, self.event.to_bits()),
        ] {
            if !pair.host.holds(&pair.memory) {
                bail!("the host does not hold the memory");
            }
            pair.driver
                .set_field(&pair.memory, &mut pair.host, field, value)?;
        }
        if !pair.host.holds(&pair.memory) {
            bail!("the host does not hold the memory");
        }
        if !queue.needs_notification(&pair.memory, &pair.host)? {
            return Ok(false);
        }
        let buffer = PackedBuffer {
            id: 1,
            slots: self.count,
        };
        queue.add_used(&pair.memory, &mut pair.host, buffer, 0)?;
        if !pair.host.holds(&pair.memory) {
            bail!("the host does not hold the memory");
        }
        Ok(queue.needs_notification(&pair.memory, &pair.host)? == self.wanted())
    }
}

/// Compares when drivers are notified. It returns how many were tried.
pub fn events(alloc: Global) -> anyhow::Result<u64> {
    let mut pair = Pair::new(alloc, 16)?;
    let mut numbers = Numbers::new(3);
    let count = 100_000u64;
    for _ in 0..count {
        if !Case::new(&mut numbers).agrees(&mut pair)? {
            bail!("another driver is notified");
        }
    }
    Ok(count)
}
