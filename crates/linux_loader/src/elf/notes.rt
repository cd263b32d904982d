//! The notes of an ELF file: Xen's note of the PVH entry.

ghost use Rattle.std.specs.Prelude.{◌≡◌, ◌+◌, ◌≤◌, ◌<◌, ◌^◌, length, Some};
ghost use Rattle.linux_loader.specs.Elf.{entry_of, pvh_entry};
ghost use Rattle.linux_loader.specs.Notes.{number_in, entry_in, note_align, note_of, padded};
ghost use Rattle.linux_loader.specs.Image.{IfKnown};
ghost use Rattle.linux_loader.specs.Plan.{Answers};

use super::header::{ProgramHeader, lies_in};
use crate::error::LoaderError;
use crate::image::KernelImage;
use crate::numbers::{u32_at, u64_at};
use std::alloc::Global;

const PT_NOTE: u32 = 4;

const XEN_ELFNOTE_PHYS32_ENTRY: u32 = 18;

// "Xen" with its terminating zero, as a number, and its length.
const XEN: u32 = 0x006e_6558;

const XEN_SIZE: u64 = 4;

// How many bytes come before the name of a note.
const NOTE_HEADER_SIZE: u64 = 12;

// How many bytes the notes of a segment have at most.
const MOST_NOTES: u64 = 0x1_0000;

// A number of bytes padded to a multiple of an alignment.
fn padded(count: u64, align: u64) -> u64
    requires some { 0 < align }
    requires small { count < 2 ^ 40 }
    requires near { align ≤ 8 }
    ensures { result ≡ padded count align }
{
    (count + (align - 1)) / align * align
}

// A note: the address that it tells, if it is Xen's of the PVH entry, and how many bytes it
// takes with its padding.
#[derive(Clone, Copy)]
struct Note {
    entry: Option<u64>,
    size: u64,
}

// The number of `size` bytes at a place of a descriptor.
fn number_in(bytes: &[u8], at: u64, size: u64) -> Result<u64, LoaderError>
    requires { at + size ≤ length bytes.now }
    ensures { result ≡ number_in size at bytes.now }
{
    if size == 4 {
        return Ok(u64::from(u32_at(bytes, at as usize)));
    }
    if size == 8 {
        return Ok(u64_at(bytes, at as usize));
    }
    Err(LoaderError::InvalidPvhNote)
}

// The note at the beginning of these bytes.
fn note_of(bytes: &[u8], align: u64) -> Result<Note, LoaderError>
    requires whole { 12 ≤ length bytes.now }
    requires some { 0 < align }
    requires near { align ≤ 8 }
    ensures { result ≡ note_of align bytes.now }
{
    let name_size = u64::from(u32_at(bytes, 0));
    let size = u64::from(u32_at(bytes, 4));
    let kind = u32_at(bytes, 8);
    let at = padded(NOTE_HEADER_SIZE + name_size, align);
    if (bytes.len() as u64) < at + size {
        return Err(LoaderError::InvalidNote);
    }
    let next = padded(at + size, align);
    if kind != XEN_ELFNOTE_PHYS32_ENTRY || name_size != XEN_SIZE || u32_at(bytes, 12) != XEN {
        return Ok(Note {
            entry: None,
            size: next,
        });
    }
    let entry = number_in(bytes, at, size)?;
    Ok(Note {
        entry: Some(entry),
        size: next,
    })
}

// The PVH entry among notes. They end where fewer bytes are left than a note's header has.
fn entry_in(notes: &[u8], align: u64) -> Result<Option<u64>, LoaderError>
    requires some { 0 < align }
    requires near { align ≤ 8 }
    ensures { result ≡ entry_in (length notes.now) align notes.now }
{
    let mut at = 0;
    for _place in 0..notes.len() {
        let rest = &notes[at..];
        if (rest.len() as u64) < NOTE_HEADER_SIZE {
            return Ok(None);
        }
        let note = note_of(rest, align)?;
        match note.entry {
            Some(entry) => return Ok(Some(entry)),
            None => at += rest.len().min(note.size as usize),
        }
    }
    Ok(None)
}

// The alignment of notes, of a header that tells this one.
fn note_align(align: u64) -> Result<u64, LoaderError>
    ensures { result ≡ note_align align }
{
    if align == 0 || align == 1 || align == 4 {
        return Ok(4);
    }
    if align == 8 {
        return Ok(8);
    }
    Err(LoaderError::InvalidNoteAlign)
}

// The PVH entry that a program header of an image of `size` bytes leads to.
fn entry_of<F: KernelImage>(
    alloc: Global,
    image: &mut F,
    header: &ProgramHeader,
    size: u64,
) -> Result<Option<u64>, LoaderError>
    ensures { IfKnown (F.bytes image.old) (λ all. (F.bytes image.new ≡ Some all)
        × (size ≡ length all → Answers (entry_of all header.now) result)) }
{
    if header.kind != PT_NOTE || header.file_size == 0 {
        return Ok(None);
    }
    let align = note_align(header.align)?;
    if header.file_size > MOST_NOTES {
        return Err(LoaderError::NotesTooLong);
    }
    if !lies_in(header, size) {
        return Err(LoaderError::ReadNoteHeader);
    }
    let mut notes = vec![in alloc; 0u8; header.file_size as usize]?;
    image.read_at(header.file_offset, notes.as_mut_slice())?;
    entry_in(notes.as_slice(), align)
}

// The PVH entry of an image: that of the first program header that leads to one.
pub(crate) fn pvh_entry<F: KernelImage>(
    alloc: Global,
    image: &mut F,
    headers: &[ProgramHeader],
    size: u64,
) -> Result<Option<u64>, LoaderError>
    ensures { IfKnown (F.bytes image.old) (λ all. (F.bytes image.new ≡ Some all)
        × (size ≡ length all → Answers (pvh_entry all headers.now) result)) }
{
    for header in headers {
        match entry_of(alloc, image, header, size)? {
            Some(entry) => return Ok(Some(entry)),
            None => {}
        }
    }
    Ok(None)
}
