//! Times requests of a block device beside plain accesses: `blk_speed BYTES SEGMENT CALLS ROUNDS`. A request has BYTES
//! bytes of data, in segments of SEGMENT bytes. It is served alone, and over a queue, of which the driver publishes 64
//! entries at a time. The plain accesses are those that a request needs: of as many bytes, of a header and of a status.
//! What is printed is the fastest of ROUNDS rounds of CALLS calls. Without arguments nothing is timed.
#![tactic(auto)]

ghost use Rattle.std.specs.Prelude.{◌≡◌};
ghost use Rattle.vm_memory_guest.specs.Host.{shape_of, Holds};

use anyhow::{Result, bail};
use std::alloc::Global;
use std::env;
use std::time::{Clock, Instant};
use virtio_blk::{BlockDevice, MemoryDisk};
use virtio_queue::{
    AnyQueue, Descriptor, DriverQueue, QueueField, VRING_DESC_F_NEXT, VRING_DESC_F_WRITE,
};
use vm_memory_base::{Bitmap, ExclusiveBitmap, GuestAddress};
use vm_memory_device::{Chain, Segment};
use vm_memory_guest::{Bytes, GuestMemory, GuestMemoryMmap, HostMemory};

const HEADER: u64 = 0x1000;

const STATUS: u64 = 0x2000;

const QUEUE: u64 = 0x3000;

// How many descriptors the queue has, and how many entries the driver publishes at a time.
const SIZE: u16 = 128;

const BATCH: u16 = 64;

const DATA: u64 = 0x1_0000;

// A request with so many bytes of data, in segments of at most `cut` bytes with gaps between them.
fn chain_of(alloc: Global, len: u32, writable: bool, cut: u32) -> Result<Chain> {
    let mut segments = Vec::new(alloc);
    segments.push(Segment {
        addr: GuestAddress(HEADER),
        len: 16,
        writable: false,
    })?;
    let mut at = 0u32;
    for _ in 0..64 {
        if at >= len {
            break;
        }
        let part = cut.min(len.saturating_sub(at));
        segments.push(Segment {
            addr: GuestAddress(DATA.saturating_add(2 * u64::from(at))),
            len: part,
            writable,
        })?;
        at = at.saturating_add(part);
    }
    segments.push(Segment {
        addr: GuestAddress(STATUS),
        len: 1,
        writable: true,
    })?;
    match Chain::new(segments) {
        Ok(chain) => Ok(chain),
        Err(_) => bail!("no chain"),
    }
}

// Serves a chain so many times.
#[inline(never)]
fn serve_all<M: GuestMemory, B: Bitmap>(
    device: &mut BlockDevice<MemoryDisk>,
    mem: &M,
    host: &mut HostMemory<B>,
    chain: &Chain,
    calls: u32,
) -> u64
    requires { Holds (shape_of host.old) (M.names mem.now) }
    ensures { shape_of host.new ≡ shape_of host.old }
{
    let mut sum = 0u64;
    for _ in 0..calls {
        sum = sum.wrapping_add(u64::from(device.serve(mem, host, chain)));
    }
    sum
}

// Publishes the same chain for a batch, and processes it. It says how many chains came back.
#[inline(always)]
fn process_batch<M: GuestMemory, B: Bitmap>(
    device: &mut BlockDevice<MemoryDisk>,
    queue: &mut AnyQueue,
    driver: &mut DriverQueue,
    mem: &M,
    host: &mut HostMemory<B>,
) -> u32
    requires { Holds (shape_of host.old) (M.names mem.now) }
    ensures { shape_of host.new ≡ shape_of host.old }
{
    let next = driver.next_avail.wrapping_add(BATCH);
    driver.next_avail = next;
    if driver
        .set_field(mem, host, QueueField::AvailIdx, next)
        .is_err()
    {
        return 0;
    }
    device.process(queue, mem, host, u32::from(BATCH)).count
}

// Processes so many batches.
#[inline(never)]
fn process_all<M: GuestMemory, B: Bitmap>(
    device: &mut BlockDevice<MemoryDisk>,
    queue: &mut AnyQueue,
    driver: &mut DriverQueue,
    mem: &M,
    host: &mut HostMemory<B>,
    batches: u32,
) -> u64
    requires { Holds (shape_of host.old) (M.names mem.now) }
    ensures { shape_of host.new ≡ shape_of host.old }
{
    let mut sum = 0u64;
    for _ in 0..batches {
        sum = sum.wrapping_add(u64::from(process_batch(device, queue, driver, mem, host)));
    }
    sum
}

// Writes bytes so many times.
#[inline(never)]
fn write_all<M: GuestMemory, B: Bitmap>(
    mem: &M,
    host: &mut HostMemory<B>,
    bytes: &[u8],
    addr: u64,
    calls: u32,
) -> u64
    requires { Holds (shape_of host.old) (M.names mem.now) }
    ensures { shape_of host.new ≡ shape_of host.old }
{
    let mut sum = 0u64;
    for _ in 0..calls {
        if mem.write_slice(host, bytes, GuestAddress(addr)).is_ok() {
            sum = sum.wrapping_add(1);
        }
    }
    sum
}

// Reads bytes so many times.
#[inline(never)]
fn read_all<M: GuestMemory, B: Bitmap>(
    mem: &M,
    host: &HostMemory<B>,
    bytes: &mut [u8],
    addr: u64,
    calls: u32,
) -> u64
    requires { Holds (shape_of host.now) (M.names mem.now) }
{
    let mut sum = 0u64;
    for _ in 0..calls {
        if mem.read_slice(host, bytes, GuestAddress(addr)).is_ok() {
            sum = sum.wrapping_add(1);
        }
    }
    sum
}

// Writes the header of a request of this kind, at the first sector.
fn put_header<M: GuestMemory, B: Bitmap>(mem: &M, host: &mut HostMemory<B>, kind: u8) {
    if host.holds(mem) {
        let mut header = [0u8; 16];
        header[0] = kind;
        let _ = mem.write_slice(host, &header, GuestAddress(HEADER));
    }
}

// What is timed.
#[derive(Clone, Copy)]
enum Part {
    Serve,
    Process,
    Write,
    Read,
    Header,
    Status,
}

// A guest and its device, with a request.
#[derive(Drop)]
struct Bench {
    host: HostMemory<ExclusiveBitmap>,
    memory: GuestMemoryMmap,
    device: BlockDevice<MemoryDisk>,
    chain: Chain,
    queue: AnyQueue,
    driver: DriverQueue,
    buffer: Vec<u8>,
    calls: u32,
}

// Does a part so many times.
fn run(bench: &mut Bench, part: Part) -> u64 {
    if !bench.host.holds(&bench.memory) {
        return 0;
    }
    match part {
        Part::Serve => serve_all(
            &mut bench.device,
            &bench.memory,
            &mut bench.host,
            &bench.chain,
            bench.calls,
        ),
        Part::Process => process_all(
            &mut bench.device,
            &mut bench.queue,
            &mut bench.driver,
            &bench.memory,
            &mut bench.host,
            bench.calls / u32::from(BATCH),
        ),
        Part::Write => write_all(
            &bench.memory,
            &mut bench.host,
            bench.buffer.as_slice(),
            DATA,
            bench.calls,
        ),
        Part::Read => read_all(
            &bench.memory,
            &bench.host,
            bench.buffer.as_mut_slice(),
            DATA,
            bench.calls,
        ),
        Part::Header => {
            let mut header = [0u8; 16];
            read_all(&bench.memory, &bench.host, &mut header, HEADER, bench.calls)
        }
        Part::Status => write_all(&bench.memory, &mut bench.host, &[0u8], STATUS, bench.calls),
    }
}

// The nanoseconds of a part.
fn time<R: Clock>(rt: &R, bench: &mut Bench, part: Part) -> Result<u64> {
    let start = Instant::now(rt)?;
    let sum = run(bench, part);
    let taken = start.elapsed(rt)?.as_nanos();
    if sum == 0 {
        bail!("nothing was done");
    }
    Ok(u64::try_from(taken).unwrap_or(u64::MAX))
}

// The least nanoseconds of a part in some rounds.
fn fastest<R: Clock>(rt: &R, bench: &mut Bench, part: Part, rounds: u32) -> Result<u64> {
    let mut least = u64::MAX;
    for _ in 0..rounds {
        least = least.min(time(rt, bench, part)?);
    }
    Ok(least)
}

// The driver's half of a queue, in whose table a chain lies from the first descriptor on. Each entry of the available
// ring has its head.
fn driver_of<M: GuestMemory, B: Bitmap>(
    mem: &M,
    host: &mut HostMemory<B>,
    chain: &Chain,
) -> Result<DriverQueue> {
    let driver = DriverQueue::new(GuestAddress(QUEUE), SIZE)?;
    let mut index = 0u16;
    let mut left = chain.segments().len();
    for segment in chain.segments() {
        if !host.holds(mem) {
            bail!("the host does not hold the memory");
        }
        left = left.saturating_sub(1);
        let next = index.wrapping_add(1);
        let goes_on = if left > 0 { VRING_DESC_F_NEXT } else { 0 };
        let is_written = if segment.writable {
            VRING_DESC_F_WRITE
        } else {
            0
        };
        let descriptor = Descriptor {
            addr: segment.addr.0,
            len: segment.len,
            flags: goes_on | is_written,
            next,
        };
        driver.put_descriptor(mem, host, index, descriptor)?;
        index = next;
    }
    Ok(driver)
}

// A guest with a request of this kind.
fn bench_of(alloc: Global, kind: u8, len: u32, cut: u32, calls: u32) -> Result<Bench> {
    let mut host: HostMemory<ExclusiveBitmap> = HostMemory::new(alloc);
    let memory = GuestMemoryMmap::from_ranges(alloc, &mut host, &[(GuestAddress(0), 0x40_0000)])?;
    let disk = MemoryDisk::new(vec![in alloc; 3u8; 0x10_0000]?);
    let mut device = BlockDevice::new(alloc, disk, false, *b"the disk under tests")?;
    if !device.ack_features(device.features()) {
        bail!("no features");
    }
    let chain = chain_of(alloc, len, kind == 0, cut)?;
    put_header(&memory, &mut host, kind);
    let driver = driver_of(&memory, &mut host, &chain)?;
    let mut queue = AnyQueue::Split(driver.queue()?);
    queue.set_event_idx(device.event_idx());
    Ok(Bench {
        host,
        memory,
        device,
        chain,
        queue,
        driver,
        buffer: vec![in alloc; 1u8; len as usize]?,
        calls,
    })
}

// Prints what each part takes.
fn tell<R: Clock + Print>(rt: &R, bench: &mut Bench, name: &str, rounds: u32) -> Result<()> {
    let calls = u64::from(bench.calls.max(1));
    for (part, what) in [
        (Part::Serve, "serve"),
        (Part::Process, "process"),
        (Part::Write, "write_slice"),
        (Part::Read, "read_slice"),
        (Part::Header, "read_slice of a header"),
        (Part::Status, "write_slice of a status"),
    ] {
        let tenths = fastest(rt, bench, part, rounds)?.saturating_mul(10) / calls;
        let (nanos, rest) = (tenths / 10, tenths % 10);
        println!(rt; "{name}: {what} {nanos}.{rest} ns")?;
    }
    Ok(())
}

// The numbers among words.
fn numbers(alloc: Global, words: &[String]) -> Result<Vec<u32>> {
    let mut numbers = Vec::new(alloc);
    for word in words {
        if let Ok(number) = word.as_str().parse::<u32>() {
            numbers.push(number)?;
        }
    }
    Ok(numbers)
}

fn main(rt: HostRuntime) -> Result<()> {
    let alloc = rt.alloc();
    let words: Vec<String> = env::args(&rt)?.collect(alloc)?;
    let numbers = numbers(alloc, words.as_slice())?;
    let &[len, cut, calls, rounds] = numbers.as_slice() else {
        println!(rt; "usage: blk_speed BYTES SEGMENT CALLS ROUNDS, each a number")?;
        return Ok(());
    };
    let mut writes = bench_of(alloc, 1, len, cut, calls)?;
    tell(&rt, &mut writes, "a write", rounds)?;
    let mut reads = bench_of(alloc, 0, len, cut, calls)?;
    tell(&rt, &mut reads, "a read", rounds)
}
