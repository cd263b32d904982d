//! The header of an ELF file, its program headers, and the segments that they name.
ghost use Rattle.std.specs.Prelude.{◌≡◌, ◌+◌, ◌*◌, ◌≤◌, length, All, IfOk, IfSome};
ghost use Rattle.linux_loader.specs.Elf.{header_of, kind_of, lies_in, places_of, program_header, program_headers};
ghost use Rattle.linux_loader.specs.Elf.{segment_of, segments_of};
ghost use Rattle.linux_loader.specs.Plan.{HasBytes, Lists};

use crate::error::LoaderError;
use crate::numbers::{u16_at, u32_at, u64_at};
use crate::segment::Segment;
use std::alloc::{AllocError, Global};
use vm_memory_base::GuestAddress;

// How many bytes the header of an ELF file has, and a program header.
pub(crate) const HEADER_SIZE: usize = 64;

pub(crate) const PROGRAM_HEADER_SIZE: usize = 56;

const MAGIC: u32 = 0x464c_457f;

const CLASS_64: u8 = 2;

const LITTLE_ENDIAN: u8 = 1;

const EXECUTABLE: u16 = 2;

const SHARED_OBJECT: u16 = 3;

const X86_64: u16 = 62;

const PN_XNUM: u16 = 0xffff;

const PT_LOAD: u32 = 1;

// What the header of an ELF file tells a loader.
#[derive(Clone, Copy)]
pub(crate) struct ElfHeader {
    pub(crate) entry: u64,
    // Where the program headers are, and how many.
    pub(crate) table: u64,
    pub(crate) count: u16,
}

// A program header.
#[derive(Clone, Copy)]
pub(crate) struct ProgramHeader {
    pub(crate) kind: u32,
    pub(crate) file_offset: u64,
    pub(crate) address: u64,
    pub(crate) file_size: u64,
    pub(crate) memory_size: u64,
    pub(crate) align: u64,
}

// Whether the header is that of an ELF file which may be loaded.
fn check_kind(header: &[u8]) -> Result<(), LoaderError>
    requires { length header.now ≡ 64 }
    ensures { result ≡ kind_of header.now }
{
    if u32_at(header, 0) != MAGIC {
        return Err(LoaderError::InvalidElfMagicNumber);
    }
    if header[4] != CLASS_64 {
        return Err(LoaderError::InvalidElfClass);
    }
    if header[5] != LITTLE_ENDIAN {
        return Err(LoaderError::BigEndianElfOnLittle);
    }
    let kind = u16_at(header, 16);
    if kind != EXECUTABLE && kind != SHARED_OBJECT {
        return Err(LoaderError::InvalidElfType);
    }
    if u16_at(header, 18) != X86_64 {
        return Err(LoaderError::InvalidElfMachine);
    }
    Ok(())
}

// What the header says of the places of an image of `size` bytes.
fn places_of(header: &[u8], size: u64, highmem_start: u64) -> Result<ElfHeader, LoaderError>
    requires { length header.now ≡ 64 }
    ensures is { result ≡ places_of size highmem_start header.now }
    ensures within { IfOk result (λ h. h.table + 56 * h.count ≤ size) }
{
    let entry = u64_at(header, 24);
    let table = u64_at(header, 32);
    let count = u16_at(header, 56);
    if u16_at(header, 54) as usize != PROGRAM_HEADER_SIZE {
        return Err(LoaderError::InvalidProgramHeaderSize);
    }
    if count == PN_XNUM {
        return Err(LoaderError::TooManyProgramHeaders);
    }
    if table < HEADER_SIZE as u64 {
        return Err(LoaderError::InvalidProgramHeaderOffset);
    }
    if entry < highmem_start {
        return Err(LoaderError::InvalidEntryAddress);
    }
    if table > size || size - table < PROGRAM_HEADER_SIZE as u64 * u64::from(count) {
        return Err(LoaderError::ReadProgramHeader);
    }
    Ok(ElfHeader {
        entry,
        table,
        count,
    })
}

// What the header says of an image of `size` bytes.
pub(crate) fn header_of(
    header: &[u8],
    size: u64,
    highmem_start: u64,
) -> Result<ElfHeader, LoaderError>
    requires { length header.now ≡ 64 }
    ensures is { result ≡ header_of size highmem_start header.now }
    ensures within { IfOk result (λ h. h.table + 56 * h.count ≤ size) }
{
    check_kind(header)?;
    places_of(header, size, highmem_start)
}

// The program header at the beginning of these bytes.
fn program_header(bytes: &[u8]) -> ProgramHeader
    requires { 56 ≤ length bytes.now }
    ensures { result ≡ program_header bytes.now }
{
    ProgramHeader {
        kind: u32_at(bytes, 0),
        file_offset: u64_at(bytes, 8),
        address: u64_at(bytes, 24),
        file_size: u64_at(bytes, 32),
        memory_size: u64_at(bytes, 40),
        align: u64_at(bytes, 48),
    }
}

// The program headers of a table of `count`.
pub(crate) fn program_headers(
    alloc: Global,
    table: &[u8],
    count: u16,
) -> Result<Vec<ProgramHeader>, AllocError>
    requires { length table.now ≡ 56 * count }
    ensures { IfOk result (λ headers. headers.items ≡ program_headers count table.now) }
{
    let mut headers = Vec::new(alloc);
    for place in 0..count as usize {
        headers.push(program_header(&table[PROGRAM_HEADER_SIZE * place..]))?;
    }
    Ok(headers)
}

// The segment that a program header names in an image of `size` bytes, if it names one with a byte.
fn segment_of(
    header: &ProgramHeader,
    size: u64,
    kernel_offset: u64,
) -> Result<Option<Segment>, LoaderError>
    ensures is { result ≡ segment_of size kernel_offset header.now }
    ensures some { IfOk result (λ segment. IfSome segment HasBytes) }
{
    if header.kind != PT_LOAD {
        return Ok(None);
    }
    if header.memory_size < header.file_size {
        return Err(LoaderError::InvalidSegmentSize);
    }
    if !lies_in(header, size) {
        return Err(LoaderError::ReadKernelImage);
    }
    let Some(addr) = header.address.checked_add(kernel_offset) else {
        return Err(LoaderError::InvalidProgramHeaderAddress);
    };
    if header.memory_size > u64::MAX - addr {
        return Err(LoaderError::MemoryOverflow);
    }
    if header.memory_size == 0 {
        return Ok(None);
    }
    Ok(Some(Segment {
        file_offset: header.file_offset,
        addr: GuestAddress(addr),
        file_size: header.file_size,
        size: header.memory_size,
    }))
}

// Whether what a program header names lies in an image of `size` bytes. None of no bytes lies anywhere.
pub(crate) fn lies_in(header: &ProgramHeader, size: u64) -> bool
    ensures { result ≡ lies_in size header.now }
{
    header.file_size == 0
        || (header.file_offset <= size && header.file_size <= size - header.file_offset)
}

// The segments that program headers name, in order.
pub(crate) fn segments_of(
    alloc: Global,
    headers: &[ProgramHeader],
    size: u64,
    kernel_offset: u64,
) -> Result<Vec<Segment>, LoaderError>
    ensures listed { Lists (segments_of size kernel_offset headers.now) result }
    ensures some { IfOk result (λ segments. All HasBytes segments.items) }
{
    let mut segments = Vec::new(alloc);
    for header in headers {
        match segment_of(header, size, kernel_offset)? {
            None => {}
            Some(segment) => {
                if segments.push(segment).is_err() {
                    return Err(LoaderError::Memory);
                }
            }
        }
    }
    Ok(segments)
}
