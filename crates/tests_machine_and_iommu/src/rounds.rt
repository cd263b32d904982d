//! The image of a block that is brought up to date in rounds.

use std::alloc::Global;
use std::num::NonZeroUsize;
use std::sync::Arc;
use std::test::Fail;
use test_machines::{layout_of, write_of};
use vm_memory::{
    BitmapId, BlockId, Bytes, Command, ExactBitmap, ExclusiveBitmap, GuestAddress,
    GuestMemoryRegion, GuestRegionMmap, HostMemory, Iommu, Machine, MemoryRegionAddress,
    MmapRegion, Reply, TableIommu, VolatileMemory, VolatileSlice, Width, run,
};

type TestMachine = Machine<GuestRegionMmap, TableIommu, ExclusiveBitmap>;

// A machine over a block of so many bytes in pages of so many, which lies at 0 and again at 0x10000.
fn machine_of(alloc: Global, size: usize, page_size: usize) -> Result<TestMachine, Fail> {
    let mut host = HostMemory::new(alloc);
    let page_size = NonZeroUsize::new(page_size).ok_or("a page has no bytes")?;
    let bitmap = ExclusiveBitmap::new(alloc, size, page_size)?;
    let block = host.new_block_with(size, bitmap)?;
    let mapping = MmapRegion::of_block(&host, block).ok_or("the host has no such block")?;
    let low = GuestRegionMmap::new(mapping, GuestAddress(0)).ok_or("the region does not fit")?;
    let high = GuestRegionMmap::new(mapping, GuestAddress(0x10000)).ok_or(
        "the region does not fit",
    )?;
    let regions = vec![in alloc; Arc::new(alloc, low)?, Arc::new(alloc, high)?]?;
    Ok(Machine::new(alloc, host, regions, Vec::new(alloc)))
}

// What a step of a test does.
#[derive(Clone, Copy)]
enum Step {
    /// Writes bytes at an address.
    Write(u64, &'static [u8]),
    /// Stores a byte at an address.
    Store(u64, u8),
    /// Takes the dirty pages, without the image.
    Harvest,
    /// Changes a byte of the image alone.
    Tear(usize, u8),
    /// Brings the image up to date. It ends with these bytes then, and all before are 0.
    Sync(&'static [u8]),
}

const STEPS: [Step; 14] = [
    Step::Sync(&[0, 0, 0, 0, 0]),
    Step::Write(0, &[1, 2, 3, 4, 5]),
    Step::Sync(&[1, 2, 3, 4, 5]),
    // page 1 alone
    Step::Write(3, &[9]),
    Step::Sync(&[1, 2, 3, 9, 5]),
    // the same block at its other address
    Step::Write(0x10002, &[6, 9]),
    Step::Sync(&[1, 2, 6, 9, 5]),
    // nothing of a page that is clean is copied, and all of one that is dirty
    Step::Tear(0, 7),
    Step::Tear(2, 7),
    Step::Write(3, &[8]),
    Step::Sync(&[7, 2, 6, 8, 5]),
    // what another took is missing
    Step::Write(4, &[6]),
    Step::Harvest,
    Step::Sync(&[7, 2, 6, 8, 5]),
];

// A page that a harvest took stays as it was in the image, and the last page is cut by the block's end. An empty write
// marks no page.
const LEFT_BY_A_HARVEST: [Step; 5] = [
    Step::Write(0xfff, &[1, 2]),
    Step::Harvest,
    Step::Store(0x2000, 7),
    Step::Write(0x1000, &[]),
    Step::Sync(&[7]),
];

// A whole block of 0x10000 bytes, each of them a page.
const WHOLE: [Step; 2] = [Step::Write(0, &[7; 0x1_0000]), Step::Sync(&[7; 0x1_0000])];

// The size of a block, that of its pages, the steps, and the bytes with which the block ends then.
const ROUNDS: [(usize, usize, &[Step], &[u8]); 3] = [
    (5, 2, &STEPS, &[1, 2, 6, 8, 6]),
    (0x2001, 0x1000, &LEFT_BY_A_HARVEST, &[0, 7]),
    (0x1_0000, 1, &WHOLE, &[7]),
];

// Runs one command, which is not refused.
fn run_one<R: GuestMemoryRegion, I: Iommu, B: ExactBitmap>(
    machine: &mut Machine<R, I, B>,
    alloc: Global,
    command: Command,
) -> Result<(), Fail> {
    let mut replies = Vec::new(alloc);
    run(machine, &[command], &mut replies)?;
    match replies.pop() {
        Some(Reply::Fault(_) | Reply::NoSuch | Reply::BadRange | Reply::Memory) | None => {
            Err(Fail::new("the command was refused"))
        }
        Some(_) => Ok(()),
    }
}

// Makes the steps, and fails where the image is not as wanted then.
fn follow<R: GuestMemoryRegion, I: Iommu, B: ExactBitmap>(
    machine: &mut Machine<R, I, B>,
    alloc: Global,
    image: &mut [u8],
    steps: &[Step],
) -> Result<(), Fail> {
    for step in steps {
        match *step {
            Step::Write(addr, bytes) => run_one(machine, alloc, write_of(alloc, 0, addr, bytes)?)?,
            Step::Store(addr, value) => {
                let command = Command::Store {
                    memory: 0,
                    width: Width::One,
                    addr: GuestAddress(addr),
                    value: u64::from(value),
                };
                run_one(machine, alloc, command)?;
            }
            Step::Harvest => run_one(machine, alloc, Command::Harvest(BitmapId::Block(0)))?,
            Step::Tear(at, byte) => *image.get_mut(at).ok_or("the image has no such byte")? = byte,
            Step::Sync(ends) => {
                if machine.host().shape().block_len(BlockId(0)) != Some(image.len()) {
                    return Err(Fail::new("the image is not as long as the block"));
                }
                machine.sync(BlockId(0), image)?;
                let (zeros, rest) = image.split_at(image.len().saturating_sub(ends.len()));
                if rest != ends || !zeros.iter().all(|byte| *byte == 0) {
                    return Err(Fail::new("the image is another"));
                }
            }
        }
    }
    Ok(())
}

// Makes the steps on a new memory of both regions, and fails where the block does not end with these bytes then.
fn expect_rounds<R: GuestMemoryRegion, I: Iommu, B: ExactBitmap + Drop>(
    mut machine: Machine<R, I, B>,
    alloc: Global,
    size: usize,
    steps: &[Step],
    ends: &[u8],
) -> Result<(), Fail> {
    run_one(&mut machine, alloc, layout_of(alloc, &[0, 1])?)?;
    run_one(&mut machine, alloc, Command::Plain(0))?;
    let mut image = vec![in alloc; 0u8; size]?;
    follow(&mut machine, alloc, image.as_mut_slice(), steps)?;
    let host = machine.into_host();
    let block = MmapRegion::of_block(&host, BlockId(0)).ok_or("the host has no such block")?;
    let window = block.as_volatile_slice();
    if !host.holds(&window) || !host.bytes(&window).ends_with(ends) {
        return Err(Fail::new(format_args!("a block of {size} bytes")));
    }
    Ok(())
}

#[test]
fn an_image_follows_its_block(rt: HostRuntime) -> Result<(), Fail> {
    for (size, page_size, steps, ends) in ROUNDS {
        let machine = machine_of(rt.alloc(), size, page_size)?;
        expect_rounds(machine, rt.alloc(), size, steps, ends)?;
    }
    Ok(())
}

// Fails where a write of a byte in a window is not done, or marks a page.
fn expect_unmarked<B: ExactBitmap>(
    alloc: Global,
    host: &mut HostMemory<B>,
    window: &VolatileSlice,
) -> Result<(), Fail> {
    if !host.holds(window) {
        return Err(Fail::new("the host does not hold the window"));
    }
    let count = window.write(host, &[1], 0)?;
    let dirty = host.bitmap_mut(window.bitmap().id).harvest(alloc)?;
    if count != 1 || !dirty.as_slice().is_empty() {
        return Err(Fail::new(format_args!("{count} bytes, pages {dirty:?}")));
    }
    Ok(())
}

#[test]
fn a_bitmap_may_end_before_its_block(rt: HostRuntime) -> Result<(), Fail> {
    let mut host: HostMemory<ExclusiveBitmap> = HostMemory::new(rt.alloc());
    let page = NonZeroUsize::new(0x1000).ok_or("a page has no bytes")?;
    let block = host.new_block_with(0x2000, ExclusiveBitmap::new(rt.alloc(), 0x1000, page)?)?;
    let mapping = MmapRegion::of_block(&host, block).ok_or("the host has no such block")?;
    let region = GuestRegionMmap::new(mapping, GuestAddress(0)).ok_or("the region does not fit")?;
    let window = region.get_slice(MemoryRegionAddress(0x1000), 1)?;
    expect_unmarked(rt.alloc(), &mut host, &window)
}
