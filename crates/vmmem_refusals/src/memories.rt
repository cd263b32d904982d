//! The calls of hosts and of layouts of guest memory that may fail to allocate.

use crate::calls::{Answer, Calls, keep};
use std::alloc::{AllocError, Global};
use std::num::NonZeroUsize;
use std::sync::Arc;
use std::test::Fail;
use vm_memory_base::{Bitmap, ExclusiveBitmap, GuestAddress, Iotlb, Permissions};
use vm_memory_guest::{
    BlockId, Bytes, FromRangesError, GuestMemory, GuestMemoryError, GuestMemoryMmap,
    GuestMemoryResult, GuestRegionCollectionError, GuestRegionMmap, HostMemory, MmapRegionError,
    SpaceId, TlbId,
};

type Host = HostMemory<ExclusiveBitmap>;

// Two regions that touch.
const RANGES: [(GuestAddress, usize); 2] = [(GuestAddress(0), 0x400), (GuestAddress(0x400), 0x400)];

/// A host, a layout of two of its blocks, a region for a third address, and what was made of them.
#[derive(Drop)]
pub struct Memories {
    alloc: Global,
    host: Host,
    layout: GuestMemoryMmap,
    region: GuestRegionMmap,
    made: Option<GuestMemoryMmap>,
    // What the layout's bytes are, and those that a sink took.
    bytes: Vec<u8>,
    sink: Vec<u8>,
    was_cut: bool,
    // A host of layouts that are made together with their blocks, and how many regions such a layout has.
    other: Host,
    regions: Option<usize>,
}

fn bitmap_of(alloc: Global) -> Result<ExclusiveBitmap, AllocError> {
    ExclusiveBitmap::new(alloc, 0x100, NonZeroUsize::MIN)
}

// A layout of two blocks, and a region of a third.
fn parts_of(alloc: Global, host: &mut Host) -> Result<(GuestMemoryMmap, GuestRegionMmap), Fail> {
    let layout = GuestMemoryMmap::from_ranges(alloc, host, &RANGES)?;
    let region = GuestRegionMmap::from_range(host, GuestAddress(0x1000), 0x400)?;
    Ok((layout, region))
}

/// This many bytes, no two parts of which are alike.
pub fn different_bytes(alloc: Global, count: usize) -> Result<Vec<u8>, AllocError> {
    let mut bytes = Vec::new(alloc);
    for number in 0..count {
        bytes.push((number % 251) as u8)?;
    }
    Ok(bytes)
}

/// Writes bytes from address 0 on.
pub fn fill<M: GuestMemory, B: Bitmap>(
    memory: &M,
    host: &mut HostMemory<B>,
    bytes: &[u8],
) -> Result<(), Fail> {
    if !host.holds(memory) {
        return Err(Fail::new("the host does not hold the memory"));
    }
    memory.write_slice(host, bytes, GuestAddress(0))?;
    Ok(())
}

// The bytes of a memory of so many, from address 0 on.
fn push_bytes<M: GuestMemory, B: Bitmap>(
    text: &mut String,
    memory: &M,
    host: &HostMemory<B>,
    bytes: &mut [u8],
) -> Result<(), Fail> {
    if !host.holds(memory) {
        return Err(Fail::new("the host does not hold the memory"));
    }
    memory.read_slice(host, bytes, GuestAddress(0))?;
    writeln!(text, "{bytes:?}")?;
    Ok(())
}

impl Memories {
    pub fn new(alloc: Global) -> Result<Memories, Fail> {
        let mut host = HostMemory::new(alloc);
        let (layout, region) = parts_of(alloc, &mut host)?;
        let bytes = different_bytes(alloc, 0x800)?;
        fill(&layout, &mut host, bytes.as_slice())?;
        Ok(Memories {
            alloc,
            host,
            layout,
            region,
            made: None,
            bytes,
            sink: Vec::new(alloc),
            was_cut: false,
            other: HostMemory::new(alloc),
            regions: None,
        })
    }

    // The blocks that were made before a refusal stay.
    fn make_ranges(&mut self) -> Answer {
        match GuestMemoryMmap::from_ranges(self.alloc, &mut self.other, &RANGES) {
            Ok(layout) => {
                self.regions = Some(layout.num_regions());
                Answer::Done
            }
            Err(FromRangesError::MmapRegion(error)) => block_answer(Err(error)),
            Err(FromRangesError::Collection(error)) => keep_layout(Err(error), &mut self.made),
            Err(_) => Answer::Other,
        }
    }

    fn make_block(&mut self) -> Answer {
        let Ok(bitmap) = bitmap_of(self.alloc) else {
            return Answer::NotRun;
        };
        block_answer(self.host.new_block_with(0x100, bitmap))
    }

    fn make_space(&mut self) -> Answer {
        let Ok(bitmap) = bitmap_of(self.alloc) else {
            return Answer::NotRun;
        };
        answer_of(self.host.new_space(bitmap).is_ok())
    }

    fn insert(&mut self) -> Answer {
        let Ok(region) = Arc::new(self.alloc, self.region) else {
            return Answer::NotRun;
        };
        keep_layout(self.layout.insert_region(region), &mut self.made)
    }

    fn remove(&mut self) -> Answer {
        match self.layout.remove_region(GuestAddress(0x400), 0x400) {
            Ok((layout, _)) => keep_layout(Ok(layout), &mut self.made),
            Err(error) => keep_layout(Err(error), &mut self.made),
        }
    }

    // Sends both regions to a vector. It grows once for each, and has the bytes of the first where it cannot grow for
    // the second.
    fn send(&mut self, sends_all: bool) -> Answer {
        let mut sink = Vec::new(self.alloc);
        let answer = send_to(&self.layout, &self.host, sends_all, &mut sink);
        match answer {
            Answer::Done if sink.as_slice() == self.bytes.as_slice() => self.sink = sink,
            Answer::Refused if sink.is_empty() => {}
            Answer::Refused if Some(sink.as_slice()) == self.bytes.as_slice().get(..0x400) => {
                self.was_cut = true;
            }
            _ => return Answer::Other,
        }
        answer
    }

    // It takes no memory where none is translated.
    fn check(&mut self) -> Answer {
        if !self.host.holds(&self.layout) {
            return Answer::Other;
        }
        match self
            .layout
            .check_range(&self.host, GuestAddress(0), 0x800, Permissions::ReadWrite)
        {
            Ok(true) => Answer::Done,
            Err(GuestMemoryError::Memory) => Answer::Refused,
            _ => Answer::Other,
        }
    }
}

// Sends 0x800 bytes to a vector.
fn send_to<M: GuestMemory, B: Bitmap>(
    memory: &M,
    host: &HostMemory<B>,
    sends_all: bool,
    sink: &mut Vec<u8>,
) -> Answer {
    if !host.holds(memory) {
        return Answer::Other;
    }
    let start = GuestAddress(0);
    if sends_all {
        return count_answer(
            memory
                .write_all_volatile_to(host, start, sink, 0x800)
                .map(|_| 0x800),
            0x800,
        );
    }
    count_answer(memory.write_volatile_to(host, start, sink, 0x800), 0x800)
}

/// What a call that moves this many bytes returns.
pub fn count_answer(answer: GuestMemoryResult<usize>, wanted: usize) -> Answer {
    match answer {
        Ok(count) if count == wanted => Answer::Done,
        Err(GuestMemoryError::Memory) => Answer::Refused,
        _ => Answer::Other,
    }
}

fn answer_of(is_done: bool) -> Answer {
    if is_done {
        Answer::Done
    } else {
        Answer::Refused
    }
}

fn block_answer(answer: Result<BlockId, MmapRegionError>) -> Answer {
    match answer {
        Ok(_) => Answer::Done,
        Err(MmapRegionError::Memory) => Answer::Refused,
        Err(_) => Answer::Other,
    }
}

fn keep_layout(
    answer: Result<GuestMemoryMmap, GuestRegionCollectionError>,
    place: &mut Option<GuestMemoryMmap>,
) -> Answer {
    match answer {
        Ok(layout) => keep(Ok(layout), place),
        Err(GuestRegionCollectionError::Memory) => Answer::Refused,
        Err(_) => Answer::Other,
    }
}

// The first eight numbers of each kind: which of them name something.
fn push_shape(text: &mut String, host: &Host) -> Result<(), AllocError> {
    for number in 0..8usize {
        let block = host.shape().block_len(BlockId(number));
        let space = host.shape().has_space(SpaceId(number));
        let table = host.shape().has_table(TlbId(number));
        writeln!(text, "{block:?} {space} {table}")?;
    }
    Ok(())
}

impl Calls for Memories {
    fn count(&self) -> usize {
        13
    }

    fn make(&mut self, number: usize) -> Answer {
        match number {
            0 => block_answer(self.host.new_block(0x100)),
            1 => self.make_block(),
            2 => self.make_space(),
            3 => answer_of(self.other.new_table().is_ok()),
            4 => answer_of(
                self.host
                    .new_table_with(Iotlb::with_limit(self.alloc, 2))
                    .is_ok(),
            ),
            5 => match Vec::from_slice(self.alloc, &[self.region]) {
                Ok(regions) => keep_layout(
                    GuestMemoryMmap::from_regions(self.alloc, regions),
                    &mut self.made,
                ),
                Err(_) => Answer::NotRun,
            },
            6 => self.insert(),
            7 => self.remove(),
            8 => keep(self.layout.clone(), &mut self.made),
            9 => self.check(),
            10 => self.make_ranges(),
            11 => self.send(false),
            _ => self.send(true),
        }
    }

    fn seen(&mut self, _number: usize) -> Result<String, Fail> {
        let mut text = format!(in self.alloc;
            "{:?} {:?} {:?} {:?} {}\n",
            self.layout,
            self.made,
            self.sink,
            self.regions,
            self.other.shape().has_table(TlbId(0))
        )?;
        push_shape(&mut text, &self.host)?;
        push_bytes(
            &mut text,
            &self.layout,
            &self.host,
            vec![in self.alloc; 0u8; 0x800]?.as_mut_slice(),
        )?;
        Ok(text)
    }

    // A vector took the bytes of one region only, and a refusal left a block that no memory names.
    fn expect_met(&self) -> Result<(), Fail> {
        if self.was_cut && self.other.shape().block_len(BlockId(2)).is_some() {
            return Ok(());
        }
        Err(Fail::new("no refusal left the first of two parts"))
    }
}
