//! Queues of chains, interrupts, features and the configuration.

use crate::bench::{BEGIN, Bench, DATA, HEADER, SIZE, STATUS, Scene, header_of, told_of};
use crate::requests::{first_bytes, numbered};
use std::alloc::Global;
use std::test::Fail;
use test_text::expect_text;
use virtio_blk::{BlockDevice, MemoryDisk};
use virtio_queue::{AnyQueue, QueueField};
use vm_memory_base::{Bitmap, GuestAddress};
use vm_memory_guest::GuestMemory;

fn set<M: GuestMemory, B: Bitmap>(
    bench: &mut Bench<M, B, MemoryDisk>,
    field: QueueField,
    value: u16,
) -> Result<(), Fail> {
    if !bench.host.holds(&bench.memory) {
        return Err(Fail::new("the host does not hold the memory"));
    }
    bench
        .driver
        .set_field(&bench.memory, &mut bench.host, field, value)?;
    Ok(())
}

// Publishes a chain from a descriptor on.
fn publish<M: GuestMemory, B: Bitmap>(
    bench: &mut Bench<M, B, MemoryDisk>,
    first: u16,
) -> Result<(), Fail> {
    bench.publish(first, &[(HEADER, 16, false), (STATUS, 1, true)])
}

// Tells how many chains a call serves, and whether the driver is to be interrupted.
fn kick<M: GuestMemory, B: Bitmap>(
    bench: &mut Bench<M, B, MemoryDisk>,
    told: &mut String,
) -> Result<(), Fail> {
    let served = bench.kick()?;
    write!(told, "{} {}; ", served.count, served.interrupt)?;
    Ok(())
}

// Tells all of a call.
fn kick_whole<M: GuestMemory, B: Bitmap>(
    bench: &mut Bench<M, B, MemoryDisk>,
    told: &mut String,
) -> Result<(), Fail> {
    let served = bench.kick()?;
    let (count, more, interrupt) = (served.count, served.more, served.interrupt);
    write!(told, "{count} {more} {interrupt} {:?}; ", served.failed)?;
    Ok(())
}

// Two chains in one call, then none, and then one with the flag NO_INTERRUPT.
fn by_flags<M: GuestMemory, B: Bitmap>(
    bench: &mut Bench<M, B, MemoryDisk>,
    told: &mut String,
) -> Result<(), Fail> {
    publish(bench, 0)?;
    publish(bench, 2)?;
    kick(bench, told)?;
    kick(bench, told)?;
    set(bench, QueueField::AvailFlags, 1)?;
    publish(bench, 4)?;
    kick(bench, told)
}

// Event indices, of which the driver waits for the second.
fn by_events<M: GuestMemory, B: Bitmap>(
    bench: &mut Bench<M, B, MemoryDisk>,
    told: &mut String,
) -> Result<(), Fail> {
    bench.queue.set_event_idx(true);
    set(bench, QueueField::UsedEvent, 4)?;
    for head in [6, 8, 10] {
        publish(bench, head)?;
        kick(bench, told)?;
    }
    Ok(())
}

// Each head comes back once, in order.
fn all_return<M: GuestMemory, B: Bitmap>(bench: &mut Bench<M, B, MemoryDisk>) -> Result<(), Fail> {
    for head in [0, 2, 4, 6, 8, 10] {
        if bench.take()? != (head, 1) {
            return Err(Fail::new("the heads were not returned once each, in order"));
        }
    }
    Ok(())
}

fn interrupts<M: GuestMemory, B: Bitmap>(
    bench: &mut Bench<M, B, MemoryDisk>,
    told: &mut String,
) -> Result<(), Fail> {
    bench.put(HEADER, &header_of(4, 0))?;
    by_flags(bench, told)?;
    by_events(bench, told)?;
    all_return(bench)
}

// As many chains as the queue has entries, which one call serves.
fn fill<M: GuestMemory, B: Bitmap>(
    bench: &mut Bench<M, B, MemoryDisk>,
    told: &mut String,
) -> Result<(), Fail> {
    for head in 0..SIZE {
        bench.publish(head, &[(STATUS, 1, true)])?;
    }
    kick_whole(bench, told)
}

// A request whose answer goes over the driver's index.
fn overwrite_index<M: GuestMemory, B: Bitmap>(
    bench: &mut Bench<M, B, MemoryDisk>,
    kind: u32,
    len: u32,
    told: &mut String,
) -> Result<(), Fail> {
    let index = bench.driver.avail_ring.wrapping_add(2);
    bench.put(HEADER, &header_of(kind, 0))?;
    let parts = [(HEADER, 16, false), (index, len, true), (STATUS, 1, true)];
    bench.publish(0, &parts)?;
    kick_whole(bench, told)
}

// A queue that is not ready; and a head that is popped and cannot be returned, since the used ring lies nowhere.
fn fail<M: GuestMemory, B: Bitmap>(
    bench: &mut Bench<M, B, MemoryDisk>,
    told: &mut String,
) -> Result<(), Fail> {
    bench.queue.set_ready(false);
    kick_whole(bench, told)?;
    bench.queue.set_ready(true);
    if let AnyQueue::Split(queue) = &mut bench.queue {
        queue.try_set_used_ring_address(GuestAddress(0x100))?;
    }
    bench.put(HEADER, &header_of(1, 0))?;
    let parts = [(HEADER, 16, false), (DATA, 512, false), (STATUS, 1, true)];
    bench.publish(0, &parts)?;
    kick_whole(bench, told)
}

// The head was popped, and its request served.
fn tell_place<M: GuestMemory, B: Bitmap>(
    bench: &Bench<M, B, MemoryDisk>,
    told: &mut String,
) -> Result<(), Fail> {
    let first = first_bytes(bench.device.disk());
    write!(told, "{} {first:?}", bench.queue.next_avail())?;
    Ok(())
}

fn failures<M: GuestMemory, B: Bitmap>(
    bench: &mut Bench<M, B, MemoryDisk>,
    told: &mut String,
) -> Result<(), Fail> {
    fail(bench, told)?;
    tell_place(bench, told)
}

// Accepts features: none with VERSION_1, one that is not offered, some, and none again.
fn accept(device: &mut BlockDevice<MemoryDisk>, told: &mut String) -> Result<(), Fail> {
    write!(told, "{:#x} {:?}", device.features(), device.config())?;
    for features in [0x3000_0000, 0x1_0000_0001, 0x1_2000_0000, 0] {
        let may = device.ack_features(features);
        write!(
            told,
            ", {may} {:#x} {}",
            device.acked_features(),
            device.event_idx()
        )?;
    }
    Ok(())
}

// Heads that no chain has are returned, which changes no byte of the rings. Tells each answer, and `next_used` then.
fn return_past_the_table<M: GuestMemory, B: Bitmap>(
    alloc: Global,
    bench: &mut Bench<M, B, MemoryDisk>,
    told: &mut String,
) -> Result<(), Fail> {
    let before = bench.get(alloc, BEGIN, 0x1000)?;
    for head in [SIZE, 65535] {
        if !bench.host.holds(&bench.memory) {
            return Err(Fail::new("the host does not hold the memory"));
        }
        let AnyQueue::Split(queue) = &mut bench.queue else {
            return Err(Fail::new("the queue is packed"));
        };
        let answer = queue.add_used(&bench.memory, &mut bench.host, head, 1);
        write!(told, "{answer:?} {}; ", queue.next_used())?;
    }
    if bench.get(alloc, BEGIN, 0x1000)?.as_slice() != before.as_slice() {
        return Err(Fail::new("the rings changed"));
    }
    Ok(())
}

// What is done with the queue and the device.
#[derive(Clone, Copy)]
enum Act {
    ReturnPastTheTable,
    Interrupts,
    Fill,
    OverwriteIndex,
    Fail,
    AcceptFeatures,
}

impl Scene<MemoryDisk> for Act {
    fn tell<M: GuestMemory, B: Bitmap>(
        &self,
        alloc: Global,
        bench: &mut Bench<M, B, MemoryDisk>,
        told: &mut String,
    ) -> Result<(), Fail> {
        match *self {
            Act::ReturnPastTheTable => return_past_the_table(alloc, bench, told),
            Act::Interrupts => interrupts(bench, told),
            Act::Fill => fill(bench, told),
            Act::OverwriteIndex => overwrite_index(bench, 8, 2, told),
            Act::Fail => failures(bench, told),
            Act::AcceptFeatures => accept(&mut bench.device, told),
        }
    }
}

fn expect(alloc: Global, act: Act, read_only: bool, wanted: &str) -> Result<(), Fail> {
    let told = told_of(alloc, false, numbered(alloc, 4)?, read_only, &act)?;
    expect_text(0, told.as_str(), wanted)
}

#[test]
fn interrupts_as_the_driver_wants(rt: HostRuntime) -> Result<(), Fail> {
    let wanted = "2 true; 0 true; 1 false; 1 false; 1 true; 1 false; ";
    expect(rt.alloc(), Act::Interrupts, false, wanted)
}

#[test]
fn heads_past_the_table_are_not_returned(rt: HostRuntime) -> Result<(), Fail> {
    let wanted = "Err(InvalidDescriptorIndex) 0; Err(InvalidDescriptorIndex) 0; ";
    expect(rt.alloc(), Act::ReturnPastTheTable, false, wanted)
}

#[test]
fn calls_serve_as_many_as_the_size(rt: HostRuntime) -> Result<(), Fail> {
    let wanted = "16 false true None; ";
    expect(rt.alloc(), Act::Fill, false, wanted)
}

// The name goes over the index: "th" is 0x6874, so the index is too far ahead.
#[test]
fn requests_that_write_the_index(rt: HostRuntime) -> Result<(), Fail> {
    let wanted = "1 false true Some(InvalidAvailRingIndex); ";
    expect(rt.alloc(), Act::OverwriteIndex, false, wanted)
}

#[test]
fn queues_that_fail(rt: HostRuntime) -> Result<(), Fail> {
    let wanted = "0 false false Some(QueueNotReady); 0 false true Some(InvalidUsedEntry); \
        1 [170, 2, 3, 4]";
    expect(rt.alloc(), Act::Fail, false, wanted)
}

#[test]
fn features_and_capacity(rt: HostRuntime) -> Result<(), Fail> {
    for (read_only, wanted) in [
        (
            false,
            "0x130000200 [4, 0, 0, 0, 0, 0, 0, 0], false 0x0 false, false 0x0 false, \
                true 0x120000000 true, false 0x120000000 true",
        ),
        (
            true,
            "0x130000220 [4, 0, 0, 0, 0, 0, 0, 0], false 0x0 false, false 0x0 false, \
                true 0x120000000 true, false 0x120000000 true",
        ),
    ] {
        expect(rt.alloc(), Act::AcceptFeatures, read_only, wanted)?;
    }
    Ok(())
}
