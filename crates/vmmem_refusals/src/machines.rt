//! The commands of a machine, and the copy of a block that it keeps up to date.

ghost use Rattle.std.specs.Prelude.{IfOk};
ghost use Rattle.vm_memory_guest.specs.Collection.{regions_of};
ghost use Rattle.vm_memory.specs.Parts.{HoldsRegions};

use crate::calls::{Answer, Calls};
use std::alloc::{AllocError, Global};
use std::fmt::Debug;
use std::num::NonZeroUsize;
use std::slice;
use std::sync::Arc;
use std::test::Fail;
use vm_memory::{
    Bitmap, BitmapId, BlockId, BlockRange, ByteList, Command, Ending, ExactBitmap, ExclusiveBitmap,
    GuestAddress, GuestMemoryRegion, GuestRegionMmap, HostMemory, Iommu, Machine, MmapRegion,
    NumberList, Permissions, Reply, TableIommu, TlbId, VolatileMemory, Width, run,
};

pub type TestMachine = Machine<GuestRegionMmap, TableIommu, ExclusiveBitmap>;

// The number of bytes of the block, which lies at 0, 0x1000 and 0x2000.
pub const SIZE: usize = 0x40;

fn bitmap_of(alloc: Global, size: usize, page_size: usize) -> Result<ExclusiveBitmap, Fail> {
    let page_size = NonZeroUsize::new(page_size).ok_or("a page has no bytes")?;
    Ok(ExclusiveBitmap::new(alloc, size, page_size)?)
}

/// A host of one block, a space and a table.
pub fn host_of(alloc: Global) -> Result<HostMemory<ExclusiveBitmap>, Fail> {
    let mut host = HostMemory::new(alloc);
    let _ = host.new_space(bitmap_of(alloc, 0x6000, 0x10)?)?;
    let _ = host.new_block_with(SIZE, bitmap_of(alloc, SIZE, 4)?)?;
    let _ = host.new_table()?;
    Ok(host)
}

// Three regions of a block.
fn regions_at(
    alloc: Global,
    host: &HostMemory<ExclusiveBitmap>,
    block: BlockId,
) -> Result<Vec<Arc<GuestRegionMmap>>, Fail>
    ensures { IfOk result (λ regions.
        HoldsRegions ⟦<GuestRegionMmap as GuestMemoryRegion>⟧.region host.now (regions_of regions)) }
{
    let mapping = MmapRegion::of_block(host, block).ok_or("the host has no such block")?;
    let first = GuestRegionMmap::new(mapping, GuestAddress(0)).ok_or("the region does not fit")?;
    let second = GuestRegionMmap::new(mapping, GuestAddress(0x1000)).ok_or(
        "the region does not fit",
    )?;
    let third = GuestRegionMmap::new(mapping, GuestAddress(0x2000)).ok_or(
        "the region does not fit",
    )?;
    Ok(vec![in alloc;
        Arc::new(alloc, first)?,
        Arc::new(alloc, second)?,
        Arc::new(alloc, third)?,
    ]?)
}

// A machine of one block, a space and a table, and nothing made yet.
fn bare_machine(alloc: Global) -> Result<TestMachine, Fail> {
    let host = host_of(alloc)?;
    let regions = regions_at(alloc, &host, BlockId(0))?;
    let table = TlbId(0);
    if !host.shape().has_table(table) {
        return Err(Fail::new("the host has no such table"));
    }
    let translators = vec![in alloc; Arc::new(alloc, TableIommu::new(table))?]?;
    Ok(Machine::new(alloc, host, regions, translators))
}

/// Runs commands, and adds their replies.
pub fn run_on<G: GuestMemoryRegion, I: Iommu, B: ExactBitmap>(
    machine: &mut Machine<G, I, B>,
    commands: &[Command],
    replies: &mut Vec<Reply>,
) -> Result<(), AllocError> {
    run(machine, commands, replies)
}

fn numbers_of(alloc: Global, numbers: &[usize]) -> Result<NumberList, AllocError> {
    Ok(NumberList::from_vec(Vec::from_slice(alloc, numbers)?))
}

fn bytes_of(alloc: Global, bytes: &[u8]) -> Result<ByteList, AllocError> {
    Ok(ByteList::from_vec(Vec::from_slice(alloc, bytes)?))
}

/// A machine with a memory behind an IOMMU that is on and one without, and a mapping in two pieces.
pub fn machine_of(alloc: Global) -> Result<TestMachine, Fail> {
    let mut machine = bare_machine(alloc)?;
    let layout = Command::FromRegions(numbers_of(alloc, &[0])?);
    let memory = Command::NewMemory {
        layout: 0,
        translator: 0,
        space: 0,
        on: true,
    };
    let commands = [
        layout,
        memory,
        Command::Plain(0),
        set_of(0x5000, 0, 0x20),
        set_of(0x5020, 0x30, 0x10),
    ];
    run_on(&mut machine, &commands, &mut Vec::new(alloc))?;
    Ok(machine)
}

fn set_of(iova: u64, map_to: u64, length: usize) -> Command {
    Command::Set {
        table: 0,
        iova: GuestAddress(iova),
        map_to: GuestAddress(map_to),
        length,
        perm: Permissions::ReadWrite,
    }
}

// Where memory 0, which is behind the IOMMU, is accessed, and where memory 1 is: here both pieces have bytes.
const PLACES: [GuestAddress; 2] = [GuestAddress(0x501c), GuestAddress(0xc)];

// Commands that write bytes to a memory.
fn push_writes(
    alloc: Global,
    commands: &mut Vec<Command>,
    memory: usize,
    addr: GuestAddress,
) -> Result<(), AllocError> {
    let bytes = bytes_of(alloc, &[1, 2, 3, 4, 5, 6, 7, 8])?;
    commands.push(Command::Write {
        memory,
        addr,
        bytes,
    })?;
    Ok(())
}

// Commands that access a memory, and hold no list.
fn accesses_of(memory: usize, addr: GuestAddress) -> [Command; 5] {
    [
        Command::Read {
            memory,
            addr,
            count: 8,
        },
        Command::ReadSlice {
            memory,
            addr,
            count: 8,
        },
        Command::Store {
            memory,
            width: Width::Four,
            addr,
            value: 0x0102_0304,
        },
        Command::Load {
            memory,
            width: Width::Four,
            addr,
        },
        Command::CheckRange {
            memory,
            addr,
            count: 8,
            access: Permissions::ReadWrite,
        },
    ]
}

// Commands that make layouts and memories.
fn makers_of() -> [Command; 6] {
    [
        Command::Insert {
            layout: 0,
            region: 1,
        },
        Command::Insert {
            layout: 1,
            region: 2,
        },
        Command::Remove {
            layout: 2,
            base: GuestAddress(0x1000),
            size: 0x40,
        },
        Command::Plain(2),
        Command::NewMemory {
            layout: 2,
            translator: 0,
            space: 0,
            on: true,
        },
        Command::ReplaceBackend {
            memory: 0,
            layout: 3,
        },
    ]
}

// Commands on the bitmaps, which want memory for their replies alone.
fn bitmaps_of() -> [Command; 4] {
    [
        Command::Dirty(BitmapId::Block(0)),
        Command::Dirty(BitmapId::Space(0)),
        Command::Harvest(BitmapId::Block(0)),
        Command::Harvest(BitmapId::Space(0)),
    ]
}

// Commands on mappings of the table.
fn mappings_of() -> [Command; 4] {
    let iova = GuestAddress(0x5000);
    [
        Command::Lookup {
            table: 0,
            iova,
            length: 0x30,
            access: Permissions::Read,
        },
        set_of(0x5008, 0x10, 4),
        Command::Invalidate {
            table: 0,
            iova: GuestAddress(0x5010),
            length: 4,
        },
        Command::Lookup {
            table: 0,
            iova,
            length: 0x40,
            access: Permissions::Read,
        },
    ]
}

// Copies the last bytes of the block to its first.
fn copy_of() -> Command {
    let first = BlockRange {
        block: 0,
        offset: 0,
        len: 4,
    };
    let last = BlockRange {
        block: 0,
        offset: 0x3c,
        len: 4,
    };
    Command::Copy {
        from: last,
        to: first,
    }
}

// Commands that switch the IOMMU off, access memory 0 without it, switch it on again, and drop its mappings.
fn switches_of() -> [Command; 6] {
    let (memory, addr) = (0, GuestAddress(0));
    [
        Command::Enable { memory, on: false },
        Command::Store {
            memory,
            width: Width::One,
            addr,
            value: 7,
        },
        Command::CheckRange {
            memory,
            addr,
            count: 8,
            access: Permissions::Read,
        },
        Command::Read {
            memory,
            addr,
            count: 8,
        },
        Command::Enable { memory, on: true },
        Command::InvalidateAll(0),
    ]
}

fn push_all<const N: usize>(
    alloc: Global,
    commands: &mut Vec<Command>,
    more: [Command; N],
) -> Result<(), AllocError> {
    commands.append(&mut Vec::from_array(alloc, more)?)
}

// All commands, each of which succeeds once.
fn commands_of(alloc: Global) -> Result<Vec<Command>, AllocError> {
    let mut commands = Vec::new(alloc);
    push_all(alloc, &mut commands, makers_of())?;
    for memory in 0..2 {
        push_writes(alloc, &mut commands, memory, PLACES[memory])?;
        push_all(alloc, &mut commands, accesses_of(memory, PLACES[memory]))?;
    }
    push_all(alloc, &mut commands, bitmaps_of())?;
    push_all(alloc, &mut commands, mappings_of())?;
    commands.push(copy_of())?;
    push_all(alloc, &mut commands, switches_of())?;
    commands.push(Command::FromRegions(numbers_of(alloc, &[0, 1, 2])?))?;
    Ok(commands)
}

// What memories there are, with the bytes that each has, and what layouts there are: commands that change nothing.
fn looks_of(alloc: Global) -> Result<Vec<Command>, AllocError> {
    let mut looks = Vec::new(alloc);
    for number in 0..6 {
        for start in [0, 0x1000, 0x2000, 0x5000] {
            looks.push(Command::Read {
                memory: number,
                addr: GuestAddress(start),
                count: 0x30,
            })?;
        }
        looks.push(Command::Remove {
            layout: number,
            base: GuestAddress(1),
            size: 1,
        })?;
    }
    Ok(looks)
}

/// Writes all bytes of the block of a host, its table, and the bitmaps of its block and its space.
pub fn push_host<B: Bitmap + Debug>(text: &mut String, host: &HostMemory<B>) -> Result<(), Fail> {
    let (block, space, table) = (BitmapId::Block(0), BitmapId::Space(0), TlbId(0));
    let shape = host.shape();
    if !shape.has_bitmap(block) || !shape.has_bitmap(space) || !shape.has_table(table) {
        return Err(Fail::new("the host has not all its parts"));
    }
    writeln!(
        text,
        "{:?} {:?} {:?}",
        host.bitmap(block),
        host.bitmap(space),
        host.table(table)
    )?;
    push_block(text, host)
}

fn push_block<B: Bitmap>(text: &mut String, host: &HostMemory<B>) -> Result<(), Fail> {
    let block = MmapRegion::of_block(host, BlockId(0)).ok_or("the host has no such block")?;
    let window = block.as_volatile_slice();
    if !host.holds(&window) {
        return Err(Fail::new("the host does not hold the block"));
    }
    writeln!(text, "{:?}", host.bytes(&window))?;
    Ok(())
}

/// A machine, commands on it, and a copy of its block.
#[derive(Drop)]
pub struct Machines {
    alloc: Global,
    machine: TestMachine,
    commands: Vec<Command>,
    looks: Vec<Command>,
    reply: Option<Reply>,
    image: Vec<u8>,
}

impl Machines {
    pub fn new(alloc: Global) -> Result<Machines, Fail> {
        Ok(Machines {
            alloc,
            machine: machine_of(alloc)?,
            commands: commands_of(alloc)?,
            looks: looks_of(alloc)?,
            reply: None,
            image: vec![in alloc; 0u8; SIZE]?,
        })
    }
}

fn synced(machine: &mut TestMachine, image: &mut [u8]) -> Answer {
    if machine.host().shape().block_len(BlockId(0)) != Some(image.len()) {
        return Answer::Other;
    }
    match machine.sync(BlockId(0), image) {
        Ok(()) => Answer::Done,
        Err(_) => Answer::Refused,
    }
}

/// What a reply says. A check whose memory was refused does not say that the range may not be accessed.
pub fn answer_of(reply: &Reply) -> Answer {
    match reply {
        Reply::Memory => Answer::Refused,
        Reply::Fault(_) | Reply::NoSuch | Reply::BadRange | Reply::Truth(false) => Answer::Other,
        Reply::Sent {
            ending: Ending::Fault(_),
            ..
        } => Answer::Other,
        _ => Answer::Done,
    }
}

// The last call brings the copy up to date.
impl Calls for Machines {
    fn count(&self) -> usize {
        self.commands.len().saturating_add(1)
    }

    fn make(&mut self, number: usize) -> Answer {
        let Some(command) = self.commands.get(number) else {
            return synced(&mut self.machine, self.image.as_mut_slice());
        };
        let mut replies = Vec::new(self.alloc);
        if run_on(&mut self.machine, slice::from_ref(command), &mut replies).is_err() {
            return Answer::NotRun;
        }
        let Some(reply) = replies.pop() else {
            return Answer::Other;
        };
        let answer = answer_of(&reply);
        if answer == Answer::Done {
            self.reply = Some(reply);
        }
        answer
    }

    fn seen(&mut self, _number: usize) -> Result<String, Fail> {
        let mut replies = Vec::new(self.alloc);
        run_on(&mut self.machine, self.looks.as_slice(), &mut replies)?;
        let mut text = format!(in self.alloc; "{:?} {:?} {replies:?}\n", self.reply, self.image)?;
        push_host(&mut text, self.machine.host())?;
        Ok(text)
    }
}
