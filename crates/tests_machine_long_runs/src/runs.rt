//! Long runs of a machine, and a long image.

use std::alloc::Global;
use std::num::NonZeroUsize;
use std::sync::Wait;
use std::test::Fail;
use test_machines::machine_of;
use test_regions::Place;
use vm_memory::{
    Bitmap, BlockId, Command, ExactBitmap, ExclusiveBitmap, GuestMemoryRegion, GuestRegionMmap,
    HostMemory, Iommu, Journal, Machine, Reply, SharedMachine, TableIommu, run,
};

type DirtyMachine = Machine<GuestRegionMmap, TableIommu, ExclusiveBitmap>;

// A machine of a block of so many bytes, all 0, in as many pages, all dirty.
fn dirty_machine(alloc: Global, size: usize) -> Result<DirtyMachine, Fail> {
    let mut bitmap = ExclusiveBitmap::new(alloc, size, NonZeroUsize::MIN)?;
    bitmap.mark_dirty(0, size);
    let mut host = HostMemory::new(alloc);
    host.new_block_with(size, bitmap)?;
    Ok(Machine::new(alloc, host, Vec::new(alloc), Vec::new(alloc)))
}

// Fails where an image is not the block of the machine after a sync.
fn expect_synced<R: GuestMemoryRegion, I: Iommu, B: ExactBitmap>(
    machine: &mut Machine<R, I, B>,
    image: &mut [u8],
) -> Result<(), Fail> {
    if machine.host().shape().block_len(BlockId(0)) != Some(image.len()) {
        return Err(Fail::new("the image is not as long as the block"));
    }
    machine.sync(BlockId(0), image)?;
    if !image.iter().all(|byte| *byte == 0) {
        return Err(Fail::new("the image is not the block"));
    }
    Ok(())
}

#[test]
fn an_image_of_a_mebibyte_is_synced(rt: HostRuntime) -> Result<(), Fail> {
    let mut image = vec![in rt.alloc(); 7u8; 0x10_0001]?;
    let mut machine = dirty_machine(rt.alloc(), image.len())?;
    expect_synced(&mut machine, image.as_mut_slice())
}

// Fails where a run of these commands on a machine that has no layout answers otherwise than that there is none.
fn expect_answered<R: GuestMemoryRegion, I: Iommu, B: ExactBitmap>(
    alloc: Global,
    machine: &mut Machine<R, I, B>,
    commands: &Vec<Command>,
) -> Result<(), Fail> {
    let mut replies = Vec::new(alloc);
    run(machine, commands.as_slice(), &mut replies)?;
    let none = replies.iter().all(|reply| matches!(reply, Reply::NoSuch));
    if !none || replies.len() != commands.len() {
        return Err(Fail::new(format_args!("{} replies", replies.len())));
    }
    Ok(())
}

// The same of a machine that is called with each command, and of its entries. Fails if they have other numbers.
fn expect_called<W: Wait, R: GuestMemoryRegion, I: Iommu, B: ExactBitmap>(
    rt: &W,
    shared: &SharedMachine<R, I, B>,
    commands: Vec<Command>,
) -> Result<(), Fail> {
    for (number, command) in commands.into_iter().enumerate() {
        let called = shared.call(rt, command);
        let is_next = matches!(called, Ok((entry, Reply::NoSuch)) if entry == number);
        if !is_next || !matches!(shared.fetch(rt, number)?, Some(Reply::NoSuch)) {
            return Err(Fail::new(format_args!("{called:?} is entry {number}")));
        }
    }
    Ok(())
}

#[test]
fn runs_and_journals_have_room_for_many_commands(rt: HostRuntime) -> Result<(), Fail> {
    let mut commands = Vec::new(rt.alloc());
    for _ in 0..0x2_0001 {
        commands.push(Command::Plain(0))?;
    }
    let mut machine = machine_of(rt.alloc(), &[Place::Block(0, 1)])?;
    expect_answered(rt.alloc(), &mut machine, &commands)?;
    let shared = SharedMachine::new(Journal::new(machine));
    expect_called(&rt, &shared, commands)?;
    assert!(rt; shared.into_journal().len() == 0x2_0001);
    Ok(())
}
