//! Copies of the descriptors of the next chain of a packed queue, and the chains that are made of them.

use std::alloc::Global;
use std::test::Fail;
use test_text::expect_text;
use virtio_queue::{
    AnyQueue, PackedBuffer, PackedDescriptor, PackedDriver, Queue, QueueError,
    VRING_DESC_F_INDIRECT, VRING_DESC_F_NEXT,
};
use vm_memory_base::GuestAddress;
use vm_memory_guest::{GuestMemoryMmap, HostMemory};

const BEGIN: u64 = 0x1000;

// Where an indirect table of two rows lies. It is full of zeros.
const TABLE: u64 = 0x1800;

const SLOTS: u16 = 4;

// Both halves of a queue over one memory.
#[derive(Drop)]
struct Ring {
    host: HostMemory<()>,
    memory: GuestMemoryMmap,
    driver: PackedDriver,
    queue: AnyQueue,
}

impl Ring {
    fn new(alloc: Global) -> Result<Ring, Fail> {
        let mut host = HostMemory::new(alloc);
        let ranges = [(GuestAddress(BEGIN), 0x1000)];
        let memory = GuestMemoryMmap::from_ranges(alloc, &mut host, &ranges)?;
        let driver = PackedDriver::new(GuestAddress(BEGIN), SLOTS)?;
        let queue = AnyQueue::Packed(driver.queue()?);
        Ok(Ring {
            host,
            memory,
            driver,
            queue,
        })
    }

    // Makes descriptors available in the next slots. Those that another follows have NEXT.
    fn publish(&mut self, descriptors: &[(u16, u16)]) -> Result<(), Fail> {
        for (id, flags) in descriptors {
            let descriptor = PackedDescriptor {
                addr: TABLE,
                len: 32,
                id: *id,
                flags: *flags,
            };
            if !self.host.holds(&self.memory) {
                return Err(Fail::new("the host does not hold the memory"));
            }
            self.driver
                .publish(&self.memory, &mut self.host, descriptor)?;
        }
        Ok(())
    }

    // The copies of the next chain, if there is one.
    fn copy(&self, list: &mut Vec<PackedDescriptor>) -> Result<Result<bool, QueueError>, Fail> {
        if !self.host.holds(&self.memory) {
            return Err(Fail::new("the host does not hold the memory"));
        }
        match &self.queue {
            AnyQueue::Packed(queue) => Ok(queue.next_copies(list, &self.memory, &self.host)),
            AnyQueue::Split(_) => Err(Fail::new("the queue is split")),
        }
    }

    // Pops the next chain, if it is the one that its copies make, and the queue goes where it was to go.
    fn pop(&mut self, alloc: Global, copies: &[PackedDescriptor]) -> Result<PackedBuffer, Fail> {
        if !self.host.holds(&self.memory) {
            return Err(Fail::new("the host does not hold the memory"));
        }
        let mut list = Vec::new(alloc);
        let made = self
            .queue
            .chain_again(alloc, &mut list, &self.memory, &self.host, 0, copies)?;
        let Ok(slots) = u16::try_from(copies.len()) else {
            return Err(Fail::new("there are too many copies"));
        };
        let after = self.queue.next_after(slots);
        let popped = self
            .queue
            .pop_descriptor_chain(alloc, &self.memory, &self.host)?;
        let Some((buffer, chain)) = popped else {
            return Err(Fail::new("there is no chain"));
        };
        if chain.segments() != made.segments() || self.queue.next_avail() != after {
            return Err(Fail::new("another chain is popped"));
        }
        Ok(buffer)
    }

    // Tells the flags of the copies of the next chain and what it is returned by, or that there is none, or the error.
    fn tell(&mut self, alloc: Global, told: &mut String) -> Result<(), Fail> {
        let mut copies = Vec::new(alloc);
        match self.copy(&mut copies)? {
            Ok(true) => {
                for copy in &copies {
                    write!(told, "{:x} ", copy.flags)?;
                }
                let buffer = self.pop(alloc, copies.as_slice())?;
                write!(told, "{} {}; ", buffer.id, buffer.slots)?;
            }
            Ok(false) => write!(told, "none {}; ", copies.len())?,
            Err(error) => write!(told, "{error:?}; ")?,
        }
        Ok(())
    }

    fn give_back(&mut self, buffer: PackedBuffer) -> Result<(), Fail> {
        if !self.host.holds(&self.memory) {
            return Err(Fail::new("the host does not hold the memory"));
        }
        self.queue
            .add_used(&self.memory, &mut self.host, buffer, 0)?;
        Ok(())
    }
}

const NEXT: u16 = VRING_DESC_F_NEXT;

#[test]
fn copies_make_the_chain_that_is_popped(rt: HostRuntime) -> Result<(), Fail> {
    let alloc = rt.alloc();
    let mut ring = Ring::new(alloc)?;
    let mut told = String::new(alloc);
    ring.tell(alloc, &mut told)?;
    ring.publish(&[(1, 0)])?;
    ring.tell(alloc, &mut told)?;
    // A table of two rows, which is one descriptor of the ring.
    ring.publish(&[(2, VRING_DESC_F_INDIRECT)])?;
    ring.tell(alloc, &mut told)?;
    ring.give_back(PackedBuffer { id: 1, slots: 2 })?;
    // Slots 2 and 3, and slot 0 with the other wrap counter.
    ring.publish(&[(3, NEXT), (4, NEXT), (5, 0)])?;
    ring.tell(alloc, &mut told)?;
    ring.tell(alloc, &mut told)?;
    expect_text(
        0,
        told.as_str(),
        "none 0; 80 1 1; 84 2 1; 81 81 8000 5 3; none 0; ",
    )
}

#[test]
fn no_more_is_copied_than_slots_are_free(rt: HostRuntime) -> Result<(), Fail> {
    let alloc = rt.alloc();
    let mut ring = Ring::new(alloc)?;
    let mut told = String::new(alloc);
    ring.publish(&[(1, 0), (2, NEXT), (3, NEXT), (4, NEXT)])?;
    ring.tell(alloc, &mut told)?;
    // The first slot is out. Three are free.
    ring.tell(alloc, &mut told)?;
    expect_text(0, told.as_str(), "80 1 1; DescriptorLoop; ")
}

#[test]
fn a_chain_of_a_split_queue_takes_one_entry(rt: HostRuntime) -> Result<(), Fail> {
    let mut queue = Queue::new(SLOTS)?;
    queue.set_next_avail(0xffff);
    if AnyQueue::Split(queue).next_after(3) != 0 {
        return Err(Fail::new("another entry comes next"));
    }
    Ok(())
}
