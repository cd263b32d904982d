//! Requests in two steps, on a disk that is not a `Disk` of the library, behind an IOMMU that gets its mappings later.

use crate::bench::{
    BEGIN, Bench, DATA, HEADER, NAME, PAGE, STATUS, Scene, header_of, map_page, told_of,
};
use crate::own_disk::serve;
use crate::requests::numbered;
use std::alloc::Global;
use std::test::Fail;
use test_text::expect_text;
use virtio_blk::MemoryDisk;
use vm_memory_base::{Bitmap, GuestAddress};
use vm_memory_device::{Chain, Segment};
use vm_memory_guest::{GuestMemory, HostMemory, TlbId};

const TABLE: TlbId = TlbId(0);

// A header, data of this length, and a status.
fn chain_of(alloc: Global, len: u32, writable: bool) -> Result<Chain, Fail> {
    let mut segments = Vec::new(alloc);
    for (addr, len, writable) in [
        (HEADER, 16, false),
        (DATA, len, writable),
        (STATUS, 1, true),
    ] {
        segments.push(Segment {
            addr: GuestAddress(addr),
            len,
            writable,
        })?;
    }
    Ok(Chain::new(segments)?)
}

fn unmap<B: Bitmap>(host: &mut HostMemory<B>, page: u64) -> Result<(), Fail> {
    if !host.shape().has_table(TABLE) || page >= DATA + PAGE {
        return Err(Fail::new("the host has no such table"));
    }
    host.table_mut(TABLE)
        .invalidate_mapping(GuestAddress(page), PAGE as usize)?;
    Ok(())
}

fn map_again<B: Bitmap>(host: &mut HostMemory<B>, page: u64) -> Result<(), Fail> {
    map_page(host, TABLE, page.saturating_sub(BEGIN) / PAGE)
}

// Serves a chain, and tells the length that it is returned with, or the error.
fn tell_served<M: GuestMemory, B: Bitmap>(
    bench: &mut Bench<M, B, MemoryDisk>,
    disk: &mut [u8],
    chain: &Chain,
    told: &mut String,
) -> Result<(), Fail> {
    if !bench.host.holds(&bench.memory) {
        return Err(Fail::new("the host does not hold the memory"));
    }
    match serve(disk, 0, &bench.memory, &mut bench.host, chain) {
        Ok(len) => write!(told, "{len}; ")?,
        Err(error) => write!(told, "{error}; ")?,
    }
    Ok(())
}

// The mapping of the header comes, and then that of the status.
fn tell_waiting<M: GuestMemory, B: Bitmap>(
    alloc: Global,
    bench: &mut Bench<M, B, MemoryDisk>,
    told: &mut String,
) -> Result<(), Fail> {
    let chain = chain_of(alloc, 7, true)?;
    bench.put(HEADER, &header_of(8, 0))?;
    unmap(&mut bench.host, HEADER)?;
    unmap(&mut bench.host, STATUS)?;
    for page in [HEADER, STATUS] {
        tell_served(bench, &mut [], &chain, told)?;
        map_again(&mut bench.host, page)?;
    }
    tell_served(bench, &mut [], &chain, told)
}

// A part of the device's name is told, and no byte after it changes.
fn expect_name<M: GuestMemory, B: Bitmap>(
    alloc: Global,
    bench: &Bench<M, B, MemoryDisk>,
) -> Result<(), Fail> {
    let data = bench.get(alloc, DATA, 8)?;
    if data.get(..7) != NAME.get(..7) || data.get(7) != Some(&170) {
        return Err(Fail::new("the name is not cut"));
    }
    Ok(())
}

// Fails unless the bytes from one place to another are 170 and all others 7, or the other way round.
fn expect_bytes(bytes: &[u8], begin: usize, end: usize, inside: u8) -> Result<(), Fail> {
    for (place, byte) in bytes.iter().enumerate() {
        let is_inside = begin <= place && place < end;
        if (*byte == inside) != is_inside || (*byte != 7 && *byte != 170) {
            return Err(Fail::new(format_args!("byte {place}")));
        }
    }
    Ok(())
}

// A sector is written to the disk.
fn tell_write<M: GuestMemory, B: Bitmap>(
    alloc: Global,
    bench: &mut Bench<M, B, MemoryDisk>,
    disk: &mut [u8],
    told: &mut String,
) -> Result<(), Fail> {
    bench.put(HEADER, &header_of(1, 2))?;
    let chain = chain_of(alloc, 512, false)?;
    tell_served(bench, disk, &chain, told)?;
    expect_bytes(disk, 1024, 1536, 170)
}

// A sector of 7s is read from the disk.
fn tell_read<M: GuestMemory, B: Bitmap>(
    alloc: Global,
    bench: &mut Bench<M, B, MemoryDisk>,
    disk: &mut [u8],
    told: &mut String,
) -> Result<(), Fail> {
    bench.put(HEADER, &header_of(0, 1))?;
    let chain = chain_of(alloc, 512, true)?;
    tell_served(bench, disk, &chain, told)?;
    let data = bench.get(alloc, DATA, 513)?;
    expect_bytes(data.as_slice(), 0, 512, 7)
}

// A chain of no segments, which no driver can publish. Tells what a read of a byte answers and leaves, how many bytes
// are left to be read, and the same of a write.
fn tell_empty<M: GuestMemory, B: Bitmap>(
    alloc: Global,
    bench: &mut Bench<M, B, MemoryDisk>,
    told: &mut String,
) -> Result<(), Fail> {
    let chain = Chain::new(Vec::new(alloc))?;
    let (mut reader, mut writer) = (chain.reader(), chain.writer());
    if !bench.host.holds(&bench.memory) {
        return Err(Fail::new("the host does not hold the memory"));
    }
    let mut byte = [7];
    let read = reader.read(&bench.memory, &bench.host, &mut byte);
    let written = writer.write(&bench.memory, &mut bench.host, &[1]);
    let (left, room) = (reader.left(), writer.left());
    write!(told, "{read:?} {byte:?} {left}; {written:?} {room}")?;
    Ok(())
}

// What is done with a device of two steps, or with a chain of no segments.
#[derive(Clone, Copy)]
enum Act {
    Empty,
    Wait,
    Move,
}

impl Scene<MemoryDisk> for Act {
    fn tell<M: GuestMemory, B: Bitmap>(
        &self,
        alloc: Global,
        bench: &mut Bench<M, B, MemoryDisk>,
        told: &mut String,
    ) -> Result<(), Fail> {
        match *self {
            Act::Empty => tell_empty(alloc, bench, told),
            Act::Wait => {
                tell_waiting(alloc, bench, told)?;
                expect_name(alloc, bench)
            }
            Act::Move => {
                let mut disk = vec![in alloc; 7u8; 2048]?;
                tell_write(alloc, bench, disk.as_mut_slice(), told)?;
                tell_read(alloc, bench, disk.as_mut_slice(), told)
            }
        }
    }
}

#[test]
fn requests_wait_for_mappings(rt: HostRuntime) -> Result<(), Fail> {
    let told = told_of(
        rt.alloc(),
        true,
        numbered(rt.alloc(), 4)?,
        false,
        &Act::Wait,
    )?;
    let wanted = "IOMMU failed to translate guest address: Cannot translate I/O virtual address \
        range 0x11000+16: missing mapping; IOMMU failed to translate guest address: Cannot \
        translate I/O virtual address range 0x12000+1: missing mapping; 8; ";
    expect_text(0, told.as_str(), wanted)
}

#[test]
fn sectors_go_to_a_disk_of_its_own(rt: HostRuntime) -> Result<(), Fail> {
    let told = told_of(
        rt.alloc(),
        false,
        numbered(rt.alloc(), 4)?,
        false,
        &Act::Move,
    )?;
    expect_text(0, told.as_str(), "1; 513; ")
}

#[test]
fn a_chain_of_no_segments_moves_nothing(rt: HostRuntime) -> Result<(), Fail> {
    for scattered in [false, true] {
        let disk = numbered(rt.alloc(), 4)?;
        let told = told_of(rt.alloc(), scattered, disk, false, &Act::Empty)?;
        expect_text(0, told.as_str(), "Ok(0) [7] 0; Ok(0) 0")?;
    }
    Ok(())
}
