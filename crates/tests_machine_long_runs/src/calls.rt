//! A machine that threads share is called a thousand times: each command gets the reply of an equal machine.
ghost use Rattle.std.specs.Prelude.{IfOk};
ghost use Rattle.vm_memory_guest.specs.Collection.{regions_of};
ghost use Rattle.vm_memory.specs.Parts.{HoldsRegions};

use std::alloc::{AllocError, Global};
use std::num::NonZeroUsize;
use std::slice;
use std::sync::{Arc, Wait};
use std::test::Fail;
use test_machines::{layout_of, machine_of, read_of, write_of};
use test_regions::Place;
use vm_memory::{
    BitmapId, BlockId, BlockRange, ByteList, Command, ExactBitmap, ExclusiveBitmap, GuestAddress,
    GuestMemoryRegion, GuestRegionMmap, HostMemory, Iommu, Journal, Machine, MmapRegion,
    Permissions, Reply, SharedMachine, SinkList, SinkStep, SourceList, SourceStep, TableIommu,
    TlbId, Width, run,
};

pub type TestMachine = Machine<GuestRegionMmap, TableIommu, ExclusiveBitmap>;

// The number of bytes of the block, each of which is a page. It lies at 0 and at 0x10000.
const SIZE: usize = 5000;

const ROUNDS: usize = 40;

// How many mappings have a long look-up.
const MAPPINGS: u64 = 5001;

// Two regions of a block.
fn regions_at(
    alloc: Global,
    host: &HostMemory<ExclusiveBitmap>,
    block: BlockId,
) -> Result<Vec<Arc<GuestRegionMmap>>, Fail>
    ensures { IfOk result (λ regions.
        HoldsRegions ⟦<GuestRegionMmap as GuestMemoryRegion>⟧.region host.now (regions_of regions)) }
{
    let mapping = MmapRegion::of_block(host, block).ok_or("the host has no such block")?;
    let first = GuestRegionMmap::new(mapping, GuestAddress(0)).ok_or("the region does not fit")?;
    let second = GuestRegionMmap::new(mapping, GuestAddress(0x10000)).ok_or(
        "the region does not fit",
    )?;
    Ok(vec![in alloc; Arc::new(alloc, first)?, Arc::new(alloc, second)?]?)
}

// A machine of one block, a space and a table, and nothing made yet.
pub fn bare_machine(alloc: Global) -> Result<TestMachine, Fail> {
    let mut host = HostMemory::new(alloc);
    let _ = host.new_space(ExclusiveBitmap::new(alloc, 0x2_0000, NonZeroUsize::MIN)?)?;
    let _ = host.new_block_with(SIZE, ExclusiveBitmap::new(alloc, SIZE, NonZeroUsize::MIN)?)?;
    let _ = host.new_table()?;
    let regions = regions_at(alloc, &host, BlockId(0))?;
    let table = TlbId(0);
    if !host.shape().has_table(table) {
        return Err(Fail::new("the host has no such table"));
    }
    let translators = vec![in alloc; Arc::new(alloc, TableIommu::new(table))?]?;
    Ok(Machine::new(alloc, host, regions, translators))
}

// Commands that write bytes.
fn push_writes(
    alloc: Global,
    commands: &mut Vec<Command>,
    byte: u8,
    count: usize,
) -> Result<(), AllocError> {
    let bytes = vec![in alloc; byte; count]?;
    commands.push(write_of(alloc, 0, 0, bytes.as_slice())?)?;
    let bytes = ByteList::from_vec(vec![in alloc; byte, 2, 3]?);
    let iova = GuestAddress(0x5ffe);
    commands.push(Command::WriteSlice {
        memory: 1,
        addr: iova,
        bytes,
    })?;
    Ok(())
}

// Commands that transfer bytes. Each source gives three bytes less than it is asked for.
fn push_transfers(alloc: Global, commands: &mut Vec<Command>, byte: u8) -> Result<(), AllocError> {
    let (memory, addr) = (0, GuestAddress(0x10));
    let step = SourceStep::Give(ByteList::from_vec(vec![in alloc; 4u8, byte, 6]?));
    let source = SourceList::from_vec(vec![in alloc; step]?);
    commands.push(Command::ReadFrom {
        memory,
        addr,
        count: 6,
        source,
    })?;
    let step = SourceStep::Give(ByteList::from_vec(vec![in alloc; 7u8, 8, byte]?));
    let source = SourceList::from_vec(vec![in alloc; step]?);
    commands.push(Command::ReadExactFrom {
        memory,
        addr,
        count: 6,
        source,
    })?;
    let sink = SinkList::from_vec(vec![in alloc; SinkStep::Take(5)]?);
    commands.push(Command::WriteTo {
        memory,
        addr,
        count: 8,
        sink,
    })?;
    let sink = SinkList::from_vec(vec![in alloc; SinkStep::Take(3), SinkStep::Fail]?);
    commands.push(Command::WriteAllTo {
        memory,
        addr,
        count: 8,
        sink,
    })?;
    Ok(())
}

// Commands that make layouts and memories. Memory 0 is plain, and memory 1 behind the IOMMU.
fn makers() -> [Command; 5] {
    [
        Command::Insert {
            layout: 0,
            region: 1,
        },
        Command::Remove {
            layout: 1,
            base: GuestAddress(0x10000),
            size: SIZE as u64,
        },
        Command::Plain(1),
        Command::NewMemory {
            layout: 0,
            translator: 0,
            space: 0,
            on: true,
        },
        Command::ReplaceBackend {
            memory: 1,
            layout: 1,
        },
    ]
}

// Commands on mappings of the table.
fn mappings() -> [Command; 3] {
    let iova = GuestAddress(0x5000);
    [
        Command::Set {
            table: 0,
            iova,
            map_to: GuestAddress(0),
            length: 0x1000,
            perm: Permissions::ReadWrite,
        },
        Command::Invalidate {
            table: 0,
            iova,
            length: 8,
        },
        Command::Lookup {
            table: 0,
            iova,
            length: 0x20,
            access: Permissions::Read,
        },
    ]
}

// Commands without lists on memories. No memory is left for what the second asks for.
fn accesses() -> [Command; 7] {
    let (memory, addr) = (0, GuestAddress(0x10));
    let width = Width::Four;
    [
        Command::Read {
            memory,
            addr,
            count: 0x20,
        },
        Command::Read {
            memory,
            addr,
            count: usize::MAX,
        },
        Command::ReadSlice {
            memory: 1,
            addr: GuestAddress(0x5ff0),
            count: 0x10,
        },
        Command::Store {
            memory: 1,
            width,
            addr: GuestAddress(0x5010),
            value: 0x0102_0304,
        },
        Command::Load {
            memory,
            width,
            addr,
        },
        Command::CheckRange {
            memory: 1,
            addr: GuestAddress(0x5008),
            count: 8,
            access: Permissions::Write,
        },
        Command::Enable {
            memory: 1,
            on: false,
        },
    ]
}

// Commands on blocks, bitmaps and the table.
fn others() -> [Command; 8] {
    let from = BlockRange {
        block: 0,
        offset: 0,
        len: 9,
    };
    let to = BlockRange {
        block: 0,
        offset: 0x100,
        len: 8,
    };
    [
        Command::Copy { from, to },
        Command::Dirty(BitmapId::Block(0)),
        Command::Harvest(BitmapId::Block(0)),
        Command::Dirty(BitmapId::Block(0)),
        Command::Harvest(BitmapId::Space(0)),
        Command::Enable {
            memory: 1,
            on: true,
        },
        Command::InvalidateAll(0),
        Command::Plain(1_000_000),
    ]
}

// Commands with long replies: all bytes that a sink takes, the dirty pages of a long write, and what many mappings lead
// to and leave out.
fn push_long(alloc: Global, commands: &mut Vec<Command>) -> Result<(), AllocError> {
    commands.push(Command::WriteTo {
        memory: 0,
        addr: GuestAddress(0),
        count: SIZE,
        sink: SinkList::from_vec(vec![in alloc; SinkStep::Take(SIZE)]?),
    })?;
    for number in 0..14u64 {
        let iova = number.wrapping_mul(SIZE as u64).wrapping_add(0x8000);
        commands.push(set_of(iova, 0, SIZE, Permissions::ReadWrite))?;
    }
    let bytes = ByteList::from_vec(vec![in alloc; 5u8; 14 * SIZE]?);
    let addr = GuestAddress(0x8000);
    commands.push(Command::WriteSlice {
        memory: 1,
        addr,
        bytes,
    })?;
    commands.push(Command::Dirty(BitmapId::Space(0)))?;
    for (first, step) in [(0x10_0000u64, 2u64), (0x20_0000, 1)] {
        for number in 0..MAPPINGS {
            let iova = number.wrapping_mul(step).wrapping_add(first);
            commands.push(set_of(iova, number.wrapping_mul(2), 1, Permissions::Read))?;
        }
        for access in [Permissions::Read, Permissions::Write] {
            commands.push(Command::Lookup {
                table: 0,
                iova: GuestAddress(first),
                length: MAPPINGS.wrapping_mul(step) as usize,
                access,
            })?;
        }
    }
    Ok(())
}

fn set_of(iova: u64, to: u64, length: usize, perm: Permissions) -> Command {
    Command::Set {
        table: 0,
        iova: GuestAddress(iova),
        map_to: GuestAddress(to),
        length,
        perm,
    }
}

// All commands of a round. In the first a write reaches all pages, and replies are long.
fn round_of(alloc: Global, round: usize) -> Result<Vec<Command>, AllocError> {
    let mut commands = Vec::new(alloc);
    commands.push(layout_of(alloc, &[0])?)?;
    commands.append(&mut Vec::from_array(alloc, makers())?)?;
    commands.append(&mut Vec::from_array(alloc, mappings())?)?;
    let byte = (round % 200) as u8;
    let count = if round == 0 { SIZE } else { 4 };
    push_writes(alloc, &mut commands, byte, count)?;
    push_transfers(alloc, &mut commands, byte)?;
    commands.append(&mut Vec::from_array(alloc, accesses())?)?;
    commands.append(&mut Vec::from_array(alloc, others())?)?;
    if round == 0 {
        push_long(alloc, &mut commands)?;
    }
    Ok(commands)
}

// Calls each command, and runs it on another machine. Fails where the answers differ.
fn expect_called<W: Wait, R: GuestMemoryRegion, I: Iommu, B: ExactBitmap>(
    rt: &W,
    alloc: Global,
    shared: &SharedMachine<R, I, B>,
    machine: &mut Machine<R, I, B>,
    commands: Vec<Command>,
    replies: &mut Vec<Reply>,
) -> Result<(), Fail> {
    for command in commands {
        run(machine, slice::from_ref(&command), replies)?;
        let wanted = replies.last().ok_or("there is no reply")?;
        let wanted = format!(in alloc; "{} {wanted:?}", replies.len().saturating_sub(1))?;
        let (number, reply) = shared.call(rt, command).map_err(|_| AllocError)?;
        let told = format!(in alloc; "{number} {reply:?}")?;
        if told != wanted {
            return Err(Fail::new(format_args!("{told}, not {wanted}")));
        }
    }
    Ok(())
}

// Fails where an entry is fetched with another reply, or the journal has another command or reply, or one more.
fn expect_entries<W: Wait, R: GuestMemoryRegion, I: Iommu, B: ExactBitmap + Drop>(
    rt: &W,
    alloc: Global,
    shared: SharedMachine<R, I, B>,
    replies: &[Reply],
) -> Result<(), Fail> {
    for (number, reply) in replies.iter().enumerate() {
        let told = format!(in alloc; "{:?}", shared.fetch(rt, number)?)?;
        if told != format!(in alloc; "Some({reply:?})")? {
            return Err(Fail::new(format_args!("entry {number} is fetched as {told}")));
        }
    }
    if shared.fetch(rt, replies.len())?.is_some() {
        return Err(Fail::new("there is an entry after the last"));
    }
    let journal = shared.into_journal();
    let mut number = 0usize;
    for round in 0..ROUNDS {
        for command in round_of(alloc, round)? {
            let entry = (journal.command(number), journal.reply(number));
            let told = format!(in alloc; "{entry:?}")?;
            let wanted = (Some(&command), replies.get(number));
            if told != format!(in alloc; "{wanted:?}")? {
                return Err(Fail::new(format_args!("entry {number} is {told}")));
            }
            number = number.saturating_add(1);
        }
    }
    if journal.len() != number || journal.command(number).is_some() {
        return Err(Fail::new(format_args!("{} entries", journal.len())));
    }
    Ok(())
}

#[test]
fn calls_are_answered_as_runs_are(rt: HostRuntime) -> Result<(), Fail> {
    let shared = SharedMachine::new(Journal::new(bare_machine(rt.alloc())?));
    let mut machine = bare_machine(rt.alloc())?;
    let mut replies = Vec::new(rt.alloc());
    for round in 0..ROUNDS {
        let commands = round_of(rt.alloc(), round)?;
        expect_called(
            &rt,
            rt.alloc(),
            &shared,
            &mut machine,
            commands,
            &mut replies,
        )?;
    }
    assert!(rt; replies.len() > 1100);
    expect_entries(&rt, rt.alloc(), shared, replies.as_slice())
}

// Each command is the first of a journal, where it finds nothing made, and comes again in two rounds after that.
#[test]
fn the_first_entry_is_told_of_no_other(rt: HostRuntime) -> Result<(), Fail> {
    for number in 0..1000usize {
        let first: Vec<Command> = round_of(rt.alloc(), 1)?
            .into_iter()
            .skip(number)
            .take(1)
            .collect(rt.alloc())?;
        if first.is_empty() {
            assert!(rt; number > 25);
            break;
        }
        let shared = SharedMachine::new(Journal::new(bare_machine(rt.alloc())?));
        let mut machine = bare_machine(rt.alloc())?;
        let mut replies = Vec::new(rt.alloc());
        for commands in [first, round_of(rt.alloc(), 1)?, round_of(rt.alloc(), 2)?] {
            expect_called(
                &rt,
                rt.alloc(),
                &shared,
                &mut machine,
                commands,
                &mut replies,
            )?;
        }
    }
    Ok(())
}

// Fails if a call of a long read of zeros, the last byte of which is 7, has another reply, or its entry has. Of very
// long replies just the ends are compared.
fn expect_long_read<W: Wait, R: GuestMemoryRegion, I: Iommu, B: ExactBitmap>(
    rt: &W,
    shared: &SharedMachine<R, I, B>,
    command: Command,
    len: usize,
) -> Result<(), Fail> {
    let (number, reply) = shared.call(rt, command).map_err(|_| AllocError)?;
    for reply in [Some(reply), shared.fetch(rt, number)?] {
        let Some(Reply::Bytes(bytes)) = reply else {
            return Err(Fail::new("no bytes were read"));
        };
        let bytes = bytes.as_slice();
        let (zeros, last) = bytes.split_at(len.min(bytes.len()));
        let is_zero = zeros.iter().take(0x2_0000).all(|byte| *byte == 0);
        if zeros.len() != len || last != [7].as_slice() || !is_zero {
            return Err(Fail::new(format_args!("{} bytes are others", zeros.len())));
        }
    }
    Ok(())
}

// The last byte of each memory, and how many are asked for.
const LONG_READS: [(usize, usize); 4] = [
    (0x1000, 0x1001),
    (0x1_0000, 0x2_0000),
    (0x10_0000, 0x10_0001),
    (0x100_0000, 0x200_0000),
];

#[test]
fn calls_have_room_for_long_replies(rt: HostRuntime) -> Result<(), Fail> {
    for (last, count) in LONG_READS {
        let machine = machine_of(rt.alloc(), &[Place::Block(0, last.saturating_add(1))])?;
        let shared = SharedMachine::new(Journal::new(machine));
        let write = write_of(rt.alloc(), 0, last as u64, &[7])?;
        for command in [layout_of(rt.alloc(), &[0])?, Command::Plain(0), write] {
            shared.call(&rt, command).map_err(|_| AllocError)?;
        }
        expect_long_read(&rt, &shared, read_of(0, 0, count), last)?;
    }
    Ok(())
}
