//! Guest memory behind an IOMMU that is on and off: windows, snapshots, and a long value.

use std::alloc::Global;
use std::sync::{Arc, Wait};
use std::test::Fail;
use test_text::expect_text;
use vm_memory::{
    BitmapId, Bytes, ExactBitmap, ExclusiveBitmap, GuestAddress, GuestAddressSpace, GuestMemory,
    GuestMemoryAtomic, GuestMemoryBackend, GuestMemoryMmap, GuestMemoryRegion,
    GuestRegionCollection, GuestRegionMmap, HostMemory, Iommu, IommuMemory, Lends, MachineMemory,
    NewBitmap, Permissions, SpaceId, TableIommu, TlbId,
};

// An address, where it leads, so many bytes, and the accesses that are permitted.
type Mapping = (u64, u64, usize, Permissions);

// The pieces of an IOMMU for a read of 2 bytes at an address, and then the windows of it, each with the bitmap that it
// marks. What values and transfers come to there has rows in bindings/rust/tests/rows/scripts/iommus.txt.
#[derive(Clone, Copy)]
struct Case {
    mappings: &'static [Mapping],
    on: bool,
    addr: u64,
    windows: &'static str,
}

const TWO_PERMISSIONS: [Mapping; 2] = [
    (0, 0, 0x1000, Permissions::ReadWrite),
    (0x1000, 0x1000, 0x1000, Permissions::Read),
];

const ONE_PAGE: [Mapping; 1] = [(0x5000, 0, 0x1000, Permissions::ReadWrite)];

const PAGES_THE_OTHER_WAY: [Mapping; 2] = [
    (0x2000, 0x1000, 0x1000, Permissions::ReadWrite),
    (0x3000, 0, 0x1000, Permissions::ReadWrite),
];

const PAST_THE_REGION: [Mapping; 1] = [(0x8000, 0x1000, 0x2000, Permissions::ReadWrite)];

const CASES: [Case; 6] = [
    // Reads cross two mappings, and writes may not.
    Case {
        mappings: &TWO_PERMISSIONS,
        on: true,
        addr: 0xfff,
        windows: "0xfff+1 0x1000+1 ; 1 Space(1)+0xfff 1 Space(1)+0x1000",
    },
    // An address that is not mapped.
    Case {
        mappings: &TWO_PERMISSIONS,
        on: true,
        addr: 0x1fff,
        windows: "CannotResolve { iova_range: IovaRange { base: GuestAddress(8191), length: 2 }, reason: \
                  MissingMapping } ; IommuError(CannotResolve { iova_range: IovaRange { base: \
                  GuestAddress(8191), length: 2 }, reason: MissingMapping })",
    },
    // A write marks the space at the I/O address.
    Case {
        mappings: &ONE_PAGE,
        on: true,
        addr: 0x5000,
        windows: "0x0+2 ; 2 Space(1)+0x5000",
    },
    // With the IOMMU off it marks the block.
    Case {
        mappings: &ONE_PAGE,
        on: false,
        addr: 0x10,
        windows: "CannotResolve { iova_range: IovaRange { base: GuestAddress(16), length: 2 }, reason: \
                  MissingMapping } ; 2 Block(0)+0x10",
    },
    // Two mappings with other differences: the last byte of the block, and then its first.
    Case {
        mappings: &PAGES_THE_OTHER_WAY,
        on: true,
        addr: 0x2fff,
        windows: "0x1fff+1 0x0+1 ; 1 Space(1)+0x2fff 1 Space(1)+0x3000",
    },
    // A mapping that leads past the region.
    Case {
        mappings: &PAST_THE_REGION,
        on: true,
        addr: 0x8fff,
        windows: "0x1fff+2 ; 1 Space(1)+0x8fff InvalidGuestAddress(GuestAddress(8192))",
    },
];

// Memory of one region of two pages, behind an IOMMU of the second table of a host, and its second space, which has
// 16 pages.
fn memory_behind(
    alloc: Global,
    host: &mut HostMemory<ExclusiveBitmap>,
) -> Result<IommuMemory<GuestMemoryMmap, TableIommu>, Fail> {
    let layout = GuestMemoryMmap::from_ranges(alloc, host, &[(GuestAddress(0), 0x2000)])?;
    let _ = host.new_table()?;
    let _ = host.new_space(ExclusiveBitmap::with_len(alloc, 0x10000)?)?;
    let table = host.new_table()?;
    let space = host.new_space(ExclusiveBitmap::with_len(alloc, 0x10000)?)?;
    let iommu = Arc::new(alloc, TableIommu::new(table))?;
    Ok(IommuMemory::new(alloc, layout, iommu, false, space))
}

// Puts mappings into a table.
fn map_all<B: ExactBitmap>(
    host: &mut HostMemory<B>,
    table: TlbId,
    mappings: &[Mapping],
) -> Result<(), Fail> {
    for (iova, to, length, access) in mappings {
        if !host.shape().has_table(table) {
            return Err(Fail::new("the host has no such table"));
        }
        if iova.checked_add(*length as u64).is_none() {
            return Err(Fail::new("the range ends past the last address"));
        }
        let table = host.table_mut(table);
        table.set_mapping(GuestAddress(*iova), GuestAddress(*to), *length, *access)?;
    }
    Ok(())
}

// The dirty pages of the block and of the space.
fn dirt<B: ExactBitmap>(
    alloc: Global,
    host: &HostMemory<B>,
    space: SpaceId,
    text: &mut String,
) -> Result<(), Fail> {
    let block = BitmapId::Block(0);
    let space = BitmapId::Space(space.0);
    if !host.shape().has_bitmap(block) || !host.shape().has_bitmap(space) {
        return Err(Fail::new("the host has not both bitmaps"));
    }
    let block = host.bitmap(block).dirty_pages(alloc)?;
    let space = host.bitmap(space).dirty_pages(alloc)?;
    write!(text, "block {block:?} space {space:?}")?;
    Ok(())
}

// The pieces that an IOMMU gives for a read of 2 bytes.
fn pieces<I: Iommu, B: ExactBitmap>(
    alloc: Global,
    host: &HostMemory<B>,
    iommu: &I,
    at: GuestAddress,
) -> Result<String, Fail> {
    if !host.holds(iommu) {
        return Err(Fail::new("the host does not hold the table"));
    }
    let mut text = String::new(alloc);
    match iommu.translate(alloc, host.table(iommu.table()), at, 2, Permissions::Read) {
        Ok(pieces) => {
            for piece in pieces.as_slice() {
                write!(text, "{:#x}+{} ", piece.base.0, piece.length)?;
            }
        }
        Err(error) => write!(text, "{error:?} ")?,
    }
    text.push(';')?;
    Ok(text)
}

// The windows of a read of 2 bytes, each with the bitmap that it marks.
fn windows<M: GuestMemory, B: ExactBitmap>(
    host: &HostMemory<B>,
    memory: &M,
    at: GuestAddress,
    text: &mut String,
) -> Result<(), Fail> {
    if !host.holds(memory) {
        return Err(Fail::new("the host does not hold the memory"));
    }
    let walk = match memory.get_slices(host, at, 2, Permissions::Read) {
        Ok(walk) => walk,
        Err(error) => {
            write!(text, " {error:?}")?;
            return Ok(());
        }
    };
    for window in walk {
        match window {
            Ok(window) => {
                let marked = window.bitmap();
                write!(text, " {} {:?}+{:#x}", window.len(), marked.id, marked.base)?;
            }
            Err(error) => write!(text, " {error:?}")?,
        }
    }
    Ok(())
}

// Fails where a memory tells another than a case says.
fn expect_case<M: GuestMemoryBackend, I: Iommu, B: ExactBitmap>(
    alloc: Global,
    host: &HostMemory<B>,
    memory: &IommuMemory<M, I>,
    number: usize,
    case: &Case,
) -> Result<(), Fail> {
    let at = GuestAddress(case.addr);
    let mut told = pieces(alloc, host, &**memory.iommu(), at)?;
    windows(host, memory, at, &mut told)?;
    expect_text(number, told.as_str(), case.windows)
}

#[test]
fn pieces_and_windows_are_translated(rt: HostRuntime) -> Result<(), Fail> {
    let alloc = rt.alloc();
    for (number, case) in CASES.iter().enumerate() {
        let mut host = HostMemory::new(alloc);
        let mut memory = memory_behind(alloc, &mut host)?;
        map_all(&mut host, memory.iommu().table(), case.mappings)?;
        memory.set_iommu_enabled(case.on);
        expect_case(alloc, &host, &memory, number, case)?;
    }
    Ok(())
}

// The space and the table of a memory, its last address, whether its IOMMU is on, and whether it is physical.
fn parts<M: GuestMemoryBackend, I: Iommu>(
    memory: &IommuMemory<M, I>,
    text: &mut String,
) -> Result<(), Fail> {
    let space = memory.bitmap().0;
    let table = memory.iommu().table().0;
    let last = memory.get_backend().last_addr().0;
    let on = memory.get_iommu_enabled();
    let physical = memory.physical_memory().is_some();
    writeln!(text, "{space} {table} {last:#x} {on} {physical}")?;
    Ok(())
}

// The parts of a copy of a memory, and of one with another backend.
fn tell_copies<R: GuestMemoryRegion, I: Iommu>(
    memory: &IommuMemory<GuestRegionCollection<R>, I>,
    other: &GuestRegionCollection<R>,
    text: &mut String,
) -> Result<(), Fail> {
    parts(&memory.clone()?, text)?;
    parts(&memory.with_replaced_backend(other.clone()?)?, text)
}

// A machine tells which memory is translated.
fn tell_translated<R: GuestMemoryRegion, I: Iommu>(
    memory: &MachineMemory<R, I>,
    text: &mut String,
) -> Result<(), Fail> {
    match memory.translated() {
        Some(memory) => parts(memory, text),
        None => Ok(writeln!(text, "not translated")?),
    }
}

#[test]
fn a_memory_is_of_its_parts(rt: HostRuntime) -> Result<(), Fail> {
    let mut host = HostMemory::new(rt.alloc());
    let mut memory = memory_behind(rt.alloc(), &mut host)?;
    let mut text = String::new(rt.alloc());
    parts(&memory, &mut text)?;
    memory.set_iommu_enabled(true);
    parts(&memory, &mut text)?;
    let ranges = [(GuestAddress(0), 0x4000)];
    let other = GuestMemoryMmap::from_ranges(rt.alloc(), &mut host, &ranges)?;
    tell_copies(&memory, &other, &mut text)?;
    let plain: MachineMemory<GuestRegionMmap, TableIommu> = MachineMemory::Plain(other);
    tell_translated(&plain, &mut text)?;
    tell_translated(&MachineMemory::Translated(memory), &mut text)?;
    expect_text(
        0,
        text.as_str(),
        "1 1 0x1fff false true\n1 1 0x1fff true false\n\
         1 1 0x1fff true false\n1 1 0x3fff true false\nnot translated\n1 1 0x1fff true false\n",
    )
}

// The last address of the backend, if accesses go there as they are.
fn tell_physical<M: GuestMemory>(memory: &M, text: &mut String) -> Result<(), Fail> {
    match memory.physical_memory() {
        Some(backend) => writeln!(text, "{:#x}", backend.last_addr().0)?,
        None => text.push_str("translated\n")?,
    }
    Ok(())
}

// Tells of which memory a snapshot is after each replacement, and which one a reader lends.
fn tell_replaced<W: Wait, M: GuestMemory + Drop>(
    rt: &W,
    alloc: Global,
    first: M,
    others: Vec<M>,
    text: &mut String,
) -> Result<(), Fail> {
    let space = GuestMemoryAtomic::new(alloc, first)?;
    let mut reader = space.reader(rt)?;
    for memory in others {
        space.lock(rt).replace(rt, alloc, memory)?;
        let snapshot = space.memory(rt, alloc)?;
        tell_physical(snapshot.lend(), text)?;
        let lent = reader.memory(rt)?;
        tell_physical(lent.lend(), text)?;
    }
    Ok(())
}

// The IOMMU of the first memory is off. It is on, off, on and off in those that follow.
#[test]
fn memory_behind_an_iommu_is_replaced(rt: HostRuntime) -> Result<(), Fail> {
    let mut host = HostMemory::new(rt.alloc());
    let first = memory_behind(rt.alloc(), &mut host)?;
    let ranges = [(GuestAddress(0), 0x4000)];
    let other = GuestMemoryMmap::from_ranges(rt.alloc(), &mut host, &ranges)?;
    let mut second = first.with_replaced_backend(other)?;
    second.set_iommu_enabled(true);
    let mut third = second.clone()?;
    third.set_iommu_enabled(false);
    let mut fourth = first.clone()?;
    fourth.set_iommu_enabled(true);
    let others = vec![in rt.alloc(); second, third, fourth, first.clone()?]?;
    let mut text = String::new(rt.alloc());
    tell_replaced(&rt, rt.alloc(), first, others, &mut text)?;
    expect_text(
        0,
        text.as_str(),
        "translated\ntranslated\n0x3fff\n0x3fff\ntranslated\ntranslated\n0x1fff\n0x1fff\n",
    )
}

const FOUR_PIECES: [Mapping; 4] = [
    (0x5000, 0xc00, 0x400, Permissions::ReadWrite),
    (0x5400, 0x800, 0x400, Permissions::ReadWrite),
    (0x5800, 0x400, 0x400, Permissions::ReadWrite),
    (0x5c00, 0, 0x400, Permissions::ReadWrite),
];

// Fails where a value of a thousand words does not come back, or a word of it does not lie where its piece leads.
fn expect_long<M: GuestMemory, P: GuestMemory, B: ExactBitmap>(
    host: &mut HostMemory<B>,
    memory: &M,
    physical: &P,
) -> Result<(), Fail> {
    let mut long = [0u32; 0x400];
    for number in 0..0x400usize {
        long[number] = 0x0102_0304 * (number as u32 % 0x80 + 1) + number as u32;
    }
    if !host.holds(memory) {
        return Err(Fail::new("the host does not hold the memory"));
    }
    memory.write_obj(host, long, GuestAddress(0x5000))?;
    if memory.read_obj::<[u32; 0x400], B>(host, GuestAddress(0x5000))? != long {
        return Err(Fail::new("another value came back"));
    }
    if !host.holds(physical) {
        return Err(Fail::new("the host does not hold the backend"));
    }
    for number in 0..0x400u64 {
        let at = GuestAddress(0xc00 - number / 0x100 * 0x400 + number % 0x100 * 4);
        let word = physical.read_obj::<u32, B>(host, at)?;
        if word != long[number as usize] {
            return Err(Fail::new(format_args!("word {number} lies at {:#x}", at.0)));
        }
    }
    Ok(())
}

// A value of four pieces, each of which the IOMMU leads to another place, comes back, and its words lie there.
#[test]
fn a_long_value_is_translated(rt: HostRuntime) -> Result<(), Fail> {
    let mut host = HostMemory::new(rt.alloc());
    let mut memory = memory_behind(rt.alloc(), &mut host)?;
    map_all(&mut host, memory.iommu().table(), &FOUR_PIECES)?;
    memory.set_iommu_enabled(true);
    expect_long(&mut host, &memory, memory.get_backend())?;
    let mut text = String::new(rt.alloc());
    dirt(rt.alloc(), &host, memory.bitmap(), &mut text)?;
    expect_text(0, text.as_str(), "block [] space [5]")
}
