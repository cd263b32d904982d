//! A driver that notifies its device by the rule of the specification, and by nothing else.

use crate::bench::{Bench, HEADER, SIZE, STATUS, Scene, header_of, told_of};
use crate::requests::numbered;
use std::alloc::Global;
use std::test::Fail;
use test_text::{expect_text, next_number};
use virtio_blk::MemoryDisk;
use virtio_queue::QueueField;
use vm_memory_base::Bitmap;
use vm_memory_guest::GuestMemory;

// How many requests are asked for, and how many of them the queue has room for: each takes two descriptors.
const REQUESTS: u32 = 10_000;

const ROOM: u32 = SIZE as u32 / 2;

// How many requests were published and answered, and whether the device was notified and has not served all since.
#[derive(Clone, Copy)]
struct Progress {
    published: u32,
    answered: u32,
    notified: bool,
}

// The rule of event indices, for a driver whose index goes from one to another: the one that the device waits for is
// among those between.
fn passes(event: u16, new: u16, old: u16) -> bool {
    new.wrapping_sub(event).wrapping_sub(1) < new.wrapping_sub(old)
}

fn field<M: GuestMemory, B: Bitmap>(
    bench: &Bench<M, B, MemoryDisk>,
    field: QueueField,
) -> Result<u16, Fail> {
    if !bench.host.holds(&bench.memory) {
        return Err(Fail::new("the host does not hold the memory"));
    }
    Ok(bench.driver.field(&bench.memory, &bench.host, field)?)
}

// Whether the driver notifies the device of what it has published since its index was the old one.
fn notifies<M: GuestMemory, B: Bitmap>(
    bench: &Bench<M, B, MemoryDisk>,
    old: u16,
) -> Result<bool, Fail> {
    let flags = field(bench, QueueField::UsedFlags)?;
    if !bench.queue.event_idx_enabled() {
        return Ok(flags & 1 == 0);
    }
    if flags != 0 {
        return Err(Fail::new("the device sets flags beside event indices"));
    }
    let event = field(bench, QueueField::AvailEvent)?;
    Ok(passes(event, bench.driver.next_avail, old))
}

// Publishes some requests, as many as there is room for, and then notifies the device if the rule says so.
fn publish<M: GuestMemory, B: Bitmap>(
    bench: &mut Bench<M, B, MemoryDisk>,
    progress: &mut Progress,
    burst: u32,
) -> Result<(), Fail> {
    let old = bench.driver.next_avail;
    for _ in 0..burst {
        let outstanding = progress.published.saturating_sub(progress.answered);
        if progress.published < REQUESTS && outstanding < ROOM {
            let place = progress.published % ROOM;
            let status = STATUS + u64::from(place);
            bench.put(status, &[255])?;
            let first = (place * 2) as u16;
            bench.publish(first, &[(HEADER, 16, false), (status, 1, true)])?;
            progress.published = progress.published.saturating_add(1);
        }
    }
    if bench.driver.next_avail != old && notifies(bench, old)? {
        progress.notified = true;
    }
    Ok(())
}

// Lets the device serve some chains, if it was notified. Where there may be more, it is still to be called.
fn serve<M: GuestMemory, B: Bitmap>(
    bench: &mut Bench<M, B, MemoryDisk>,
    progress: &mut Progress,
    most: u32,
) -> Result<(), Fail> {
    if !progress.notified {
        return Ok(());
    }
    let served = bench.kick_at_most(most)?;
    if served.failed.is_some() || served.count > most {
        return Err(Fail::new(format_args!("at most {most}: {served:?}")));
    }
    progress.notified = served.more;
    Ok(())
}

// Takes all that was returned: each request in order, with its status.
fn take<M: GuestMemory, B: Bitmap>(
    alloc: Global,
    bench: &mut Bench<M, B, MemoryDisk>,
    progress: &mut Progress,
) -> Result<(), Fail> {
    let index = field(bench, QueueField::UsedIdx)?;
    for _ in 0..index.wrapping_sub(bench.driver.next_used) {
        let place = progress.answered % ROOM;
        let entry = bench.take()?;
        let status = bench.get(alloc, STATUS + u64::from(place), 1)?;
        if entry != (place * 2, 1) || status.as_slice() != [0].as_slice() {
            return Err(Fail::new(format_args!("request {}", progress.answered)));
        }
        progress.answered = progress.answered.saturating_add(1);
    }
    Ok(())
}

// Asks for all requests in random bursts. The device is called at random times, only where it was notified or said
// that there may be more.
fn ask_all<M: GuestMemory, B: Bitmap>(
    alloc: Global,
    bench: &mut Bench<M, B, MemoryDisk>,
) -> Result<Progress, Fail> {
    let mut progress = Progress {
        published: 0,
        answered: 0,
        notified: false,
    };
    let mut state = 1;
    bench.put(HEADER, &header_of(4, 0))?;
    for _ in 0..20 * REQUESTS {
        let [what, count] = [next_number(&mut state) % 3, next_number(&mut state) % 6];
        match what {
            0 => publish(bench, &mut progress, count as u32)?,
            1 => serve(bench, &mut progress, count as u32)?,
            _ => take(alloc, bench, &mut progress)?,
        }
    }
    Ok(progress)
}

// A driver that accepts these features.
#[derive(Clone, Copy)]
struct Driver {
    features: u64,
}

impl Scene<MemoryDisk> for Driver {
    fn tell<M: GuestMemory, B: Bitmap>(
        &self,
        alloc: Global,
        bench: &mut Bench<M, B, MemoryDisk>,
        told: &mut String,
    ) -> Result<(), Fail> {
        if !bench.device.ack_features(self.features) {
            return Err(Fail::new("the features are refused"));
        }
        bench.queue.set_event_idx(bench.device.event_idx());
        let progress = ask_all(alloc, bench)?;
        write!(told, "{} {}", progress.published, progress.answered)?;
        Ok(())
    }
}

#[test]
fn drivers_notify_by_the_rule_alone(rt: HostRuntime) -> Result<(), Fail> {
    for (number, features) in [0x1_0000_0000, 0x1_2000_0000].iter().enumerate() {
        let driver = Driver {
            features: *features,
        };
        let told = told_of(rt.alloc(), false, numbered(rt.alloc(), 4)?, false, &driver)?;
        expect_text(number, told.as_str(), "10000 10000")?;
    }
    Ok(())
}
