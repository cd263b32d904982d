//! Requests over a packed queue.

use crate::bench::{BEGIN, Bench, DATA, HEADER, STATUS, Scene, header_of, told_of};
use crate::requests::numbered;
use std::alloc::Global;
use std::test::Fail;
use test_text::expect_text;
use virtio_blk::{MemoryDisk, Served};
use virtio_queue::{
    AnyQueue, PackedDescriptor, PackedDriver, VRING_DESC_F_NEXT, VRING_DESC_F_WRITE,
};
use vm_memory_base::{Bitmap, GuestAddress};
use vm_memory_guest::GuestMemory;

// The ring's size is no power of two, and a request goes across its end.
const SLOTS: u16 = 7;

const REQUESTS: u16 = 50;

// Makes a read of a sector available, as three descriptors.
fn publish<M: GuestMemory, B: Bitmap>(
    bench: &mut Bench<M, B, MemoryDisk>,
    driver: &mut PackedDriver,
    id: u16,
) -> Result<(), Fail> {
    let parts = [
        (HEADER, 16, VRING_DESC_F_NEXT),
        (DATA, 512, VRING_DESC_F_NEXT + VRING_DESC_F_WRITE),
        (STATUS, 1, VRING_DESC_F_WRITE),
    ];
    for (addr, len, flags) in parts.iter() {
        let descriptor = PackedDescriptor {
            addr: *addr,
            len: *len,
            id,
            flags: *flags,
        };
        if !bench.host.holds(&bench.memory) {
            return Err(Fail::new("the host does not hold the memory"));
        }
        driver.publish(&bench.memory, &mut bench.host, descriptor)?;
    }
    Ok(())
}

// Takes the chain of an id.
fn take<M: GuestMemory, B: Bitmap>(
    bench: &mut Bench<M, B, MemoryDisk>,
    driver: &mut PackedDriver,
    id: u16,
) -> Result<(), Fail> {
    if !bench.host.holds(&bench.memory) {
        return Err(Fail::new("the host does not hold the memory"));
    }
    if driver.next_used(&bench.memory, &bench.host)? != Some((id, 513)) {
        return Err(Fail::new(format_args!("request {id} did not come back")));
    }
    driver.skip(3)?;
    Ok(())
}

// One request after the other. The device is called once more when there is nothing.
#[derive(Clone, Copy)]
struct Rounds {
    event_idx: bool,
}

impl Scene<MemoryDisk> for Rounds {
    fn tell<M: GuestMemory, B: Bitmap>(
        &self,
        alloc: Global,
        bench: &mut Bench<M, B, MemoryDisk>,
        told: &mut String,
    ) -> Result<(), Fail> {
        let mut driver = PackedDriver::new(GuestAddress(BEGIN), SLOTS)?;
        bench.queue = AnyQueue::Packed(driver.queue()?);
        bench.queue.set_event_idx(self.event_idx);
        for id in 0..REQUESTS {
            bench.put(HEADER, &header_of(0, u64::from(id) % 4))?;
            publish(bench, &mut driver, id)?;
            let served = bench.kick()?;
            if !is_one(&served) || bench.kick()?.count != 0 {
                return Err(Fail::new(format_args!("request {id}: {served:?}")));
            }
            take(bench, &mut driver, id)?;
            let status = bench.get(alloc, STATUS, 1)?;
            let data = bench.get(alloc, DATA, 2)?;
            if id < 4 {
                write!(told, "{:?} {:?}; ", status.as_slice(), data.as_slice())?;
            }
        }
        write!(told, "{}", bench.queue.next_avail())?;
        Ok(())
    }
}

// A chain was served, and the driver is to be interrupted.
fn is_one(served: &Served) -> bool {
    served.count == 1 && !served.more && served.interrupt && served.failed.is_none()
}

#[test]
fn packed_requests_are_served(rt: HostRuntime) -> Result<(), Fail> {
    // 150 slots of 7: 21 rounds and three slots.
    let wanted = "[0] [1, 1]; [0] [2, 2]; [0] [3, 3]; [0] [4, 4]; 3";
    for (number, event_idx) in [false, true].iter().enumerate() {
        let scene = Rounds {
            event_idx: *event_idx,
        };
        let scattered = *event_idx;
        let told = told_of(
            rt.alloc(),
            scattered,
            numbered(rt.alloc(), 4)?,
            false,
            &scene,
        )?;
        expect_text(number, told.as_str(), wanted)?;
    }
    Ok(())
}
