//! The calls of a memory behind an IOMMU that is on, which translate and so may fail to allocate, those of chains, and
//! transfers of a window to a vector.

use crate::calls::{Answer, Calls, keep};
use crate::machines::{SIZE, host_of, push_host};
use crate::memories::{count_answer, different_bytes, fill};
use std::alloc::{AllocError, Global};
use std::sync::Arc;
use std::test::Fail;
use vm_memory::{
    Bitmap, BlockId, Bytes, Chain, ExclusiveBitmap, GuestAddress, GuestMemory, GuestMemoryMmap,
    GuestRegionMmap, HostMemory, Iommu, IommuMemory, MmapRegion, Permissions, Segment, SpaceId,
    TableIommu, TlbId, VolatileMemory, VolatileMemoryError,
};

type Memory = IommuMemory<GuestMemoryMmap, TableIommu>;

// Where the addresses from here on lead: to the second half of the block, and then to its first.
const START: u64 = 0x5000;

// Which bytes are moved, over the bound of both mappings.
const PLACE: GuestAddress = GuestAddress(0x5010);

const MOVED: usize = 0x20;

// Where a value lies, over the same bound: within one mapping no access allocates.
const VALUE: GuestAddress = GuestAddress(0x501c);

/// A host of one block, a memory of it behind an IOMMU, a chain, and what was made and moved.
#[derive(Drop)]
pub struct Behind {
    alloc: Global,
    host: HostMemory<ExclusiveBitmap>,
    memory: Memory,
    made: Option<Memory>,
    chain: Chain,
    value: u64,
    buffer: Vec<u8>,
    sink: Vec<u8>,
}

fn map_halves<B>(host: &mut HostMemory<B>) -> Result<(), Fail> {
    if !host.shape().has_table(TlbId(0)) {
        return Err(Fail::new("the host has no such table"));
    }
    let table = host.table_mut(TlbId(0));
    let (half, all) = (SIZE / 2, Permissions::ReadWrite);
    table.set_mapping(GuestAddress(START), GuestAddress(half as u64), half, all)?;
    table.set_mapping(
        GuestAddress(START + half as u64),
        GuestAddress(0),
        half,
        all,
    )?;
    Ok(())
}

// The block at address 0.
fn layout_of<B>(alloc: Global, host: &HostMemory<B>) -> Result<GuestMemoryMmap, Fail> {
    let mapping = MmapRegion::of_block(host, BlockId(0)).ok_or("the host has no such block")?;
    let region = GuestRegionMmap::new(mapping, GuestAddress(0)).ok_or("the region does not fit")?;
    let regions = Vec::from_slice(alloc, &[region])?;
    Ok(GuestMemoryMmap::from_regions(alloc, regions)?)
}

// The space that its writes mark.
const SPACE: SpaceId = SpaceId(0);

fn memory_of(alloc: Global, layout: GuestMemoryMmap) -> Result<Memory, Fail> {
    let iommu = Arc::new(alloc, TableIommu::new(TlbId(0)))?;
    Ok(IommuMemory::new(alloc, layout, iommu, true, SPACE))
}

// A segment that is read, and one that is written.
fn chain_of(alloc: Global) -> Result<Chain, Fail> {
    let read = Segment {
        addr: PLACE,
        len: MOVED as u32,
        writable: false,
    };
    let written = Segment {
        writable: true,
        ..read
    };
    Ok(Chain::new(Vec::from_slice(alloc, &[read, written])?)?)
}

impl Behind {
    pub fn new(alloc: Global) -> Result<Behind, Fail> {
        let mut host = host_of(alloc)?;
        map_halves(&mut host)?;
        let layout = layout_of(alloc, &host)?;
        fill(&layout, &mut host, different_bytes(alloc, SIZE)?.as_slice())?;
        Ok(Behind {
            alloc,
            host,
            memory: memory_of(alloc, layout)?,
            made: None,
            chain: chain_of(alloc)?,
            value: 0,
            buffer: vec![in alloc; 0u8; MOVED]?,
            sink: Vec::new(alloc),
        })
    }

    // Sends bytes of the memory, or of a window of the block, to a vector, which is empty where it was refused.
    fn send(&mut self, number: usize) -> Answer {
        let mut sink = Vec::new(self.alloc);
        let answer = match number {
            5 => send_part(&self.memory, &self.host, &mut sink),
            6 => send_all(&self.memory, &self.host, &mut sink),
            _ => send_window(&self.host, number == 8, &mut sink),
        };
        match answer {
            Answer::Done if sink.len() == MOVED => self.sink = sink,
            Answer::Refused if sink.is_empty() => {}
            _ => return Answer::Other,
        }
        answer
    }
}

fn read_value<M: GuestMemory, B: Bitmap>(
    memory: &M,
    host: &HostMemory<B>,
    value: &mut u64,
) -> Answer {
    if !host.holds(memory) {
        return Answer::Other;
    }
    match memory.read_obj(host, VALUE) {
        Ok(read) => {
            *value = read;
            Answer::Done
        }
        Err(error) => count_answer(Err(error), 0),
    }
}

fn write_value<M: GuestMemory, B: Bitmap>(memory: &M, host: &mut HostMemory<B>) -> Answer {
    if !host.holds(memory) {
        return Answer::Other;
    }
    let answer = memory.write_obj(host, 0x1122_3344_5566_7788u64, VALUE);
    count_answer(answer.map(|_| 0), 0)
}

fn read_chain<M: GuestMemory, B: Bitmap>(
    chain: &Chain,
    memory: &M,
    host: &HostMemory<B>,
    buffer: &mut [u8],
) -> Answer {
    if !host.holds(memory) {
        return Answer::Other;
    }
    let mut reader = chain.reader();
    let answer = count_answer(reader.read(memory, host, buffer), MOVED);
    moved_answer(answer, reader.left())
}

fn write_chain<M: GuestMemory, B: Bitmap>(
    chain: &Chain,
    memory: &M,
    host: &mut HostMemory<B>,
) -> Answer {
    if !host.holds(memory) {
        return Answer::Other;
    }
    let mut writer = chain.writer();
    let answer = count_answer(writer.write(memory, host, &[0xa5; MOVED]), MOVED);
    moved_answer(answer, writer.left())
}

// A place moves by all bytes, or by none where the call was refused.
fn moved_answer(answer: Answer, left: usize) -> Answer {
    match (answer, left) {
        (Answer::Done, 0) | (Answer::Refused, MOVED) => answer,
        _ => Answer::Other,
    }
}

fn send_part<M: GuestMemory, B: Bitmap>(
    memory: &M,
    host: &HostMemory<B>,
    sink: &mut Vec<u8>,
) -> Answer {
    if !host.holds(memory) {
        return Answer::Other;
    }
    count_answer(memory.write_volatile_to(host, PLACE, sink, MOVED), MOVED)
}

fn send_all<M: GuestMemory, B: Bitmap>(
    memory: &M,
    host: &HostMemory<B>,
    sink: &mut Vec<u8>,
) -> Answer {
    if !host.holds(memory) {
        return Answer::Other;
    }
    let answer = memory.write_all_volatile_to(host, PLACE, sink, MOVED);
    count_answer(answer.map(|_| 0), 0)
}

fn send_window<B: Bitmap>(host: &HostMemory<B>, sends_all: bool, sink: &mut Vec<u8>) -> Answer {
    let Some(block) = MmapRegion::of_block(host, BlockId(0)) else {
        return Answer::Other;
    };
    let window = block.as_volatile_slice();
    if !host.holds(&window) {
        return Answer::Other;
    }
    let answer = if sends_all {
        window
            .write_all_volatile_to(host, 4, sink, MOVED)
            .map(|_| MOVED)
    } else {
        window.write_volatile_to(host, 4, sink, MOVED)
    };
    match answer {
        Ok(MOVED) => Answer::Done,
        Err(VolatileMemoryError::Memory) => Answer::Refused,
        _ => Answer::Other,
    }
}

// What a memory names.
fn push_names(text: &mut String, memory: &Memory) -> Result<(), AllocError> {
    let (layout, on) = (memory.get_backend(), memory.get_iommu_enabled());
    let (table, space) = (memory.iommu().table(), memory.bitmap());
    writeln!(text, "{layout:?} {on} {table:?} {space:?}")
}

impl Calls for Behind {
    fn count(&self) -> usize {
        9
    }

    fn make(&mut self, number: usize) -> Answer {
        match number {
            0 => read_value(&self.memory, &self.host, &mut self.value),
            1 => write_value(&self.memory, &mut self.host),
            2 => read_chain(
                &self.chain,
                &self.memory,
                &self.host,
                self.buffer.as_mut_slice(),
            ),
            3 => write_chain(&self.chain, &self.memory, &mut self.host),
            4 => keep(self.memory.clone(), &mut self.made),
            _ => self.send(number),
        }
    }

    fn seen(&mut self, _number: usize) -> Result<String, Fail> {
        let mut text = format!(in self.alloc;
            "{:x} {:?} {:?}\n",
            self.value, self.buffer, self.sink
        )?;
        push_names(&mut text, &self.memory)?;
        if let Some(made) = &self.made {
            push_names(&mut text, made)?;
        }
        push_host(&mut text, &self.host)?;
        Ok(text)
    }
}
