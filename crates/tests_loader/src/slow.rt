//! Loaders that are written apart, byte by byte: what an image without errors leaves in memory, or the name of the
//! first thing that is wrong with it.

use crate::images::{BEFORE, BEGIN, END};
use std::alloc::{AllocError, Global};

/// What a load is to leave.
#[derive(Drop)]
pub struct Slow {
    /// The name of what is wrong, if something is.
    pub wrong: Option<&'static str>,
    /// The entry, the end, and the PVH entry.
    pub load: u64,
    pub end: u64,
    pub pvh: Option<u64>,
    /// For each byte of memory: what it is then, and whether a segment names it.
    pub memory: Vec<(u8, bool)>,
}

// The number of so many bytes at a place, the lowest first. Bytes past the end are 0.
fn number(image: &[u8], at: u64, count: u64) -> u64 {
    let mut value = 0u64;
    for i in 0..count {
        let place = at.wrapping_add(count).wrapping_sub(i).wrapping_sub(1);
        let byte = image.get(place as usize).copied().unwrap_or(0);
        value = value.wrapping_mul(256).wrapping_add(u64::from(byte));
    }
    value
}

impl Slow {
    fn new(alloc: Global) -> Result<Slow, AllocError> {
        let mut memory = Vec::new(alloc);
        for _ in BEGIN..END {
            memory.push((BEFORE, false))?;
        }
        Ok(Slow {
            wrong: None,
            load: 0,
            end: 0,
            pvh: None,
            memory,
        })
    }

    // Notes the first thing that is wrong.
    fn refuse(&mut self, name: &'static str) {
        if self.wrong.is_none() {
            self.wrong = Some(name);
        }
    }

    // Puts a segment of so many bytes to an address. Those of the image begin at a place, and there are so many.
    fn segment(&mut self, image: &[u8], part: &Part) {
        for i in 0..part.size.min(END) {
            let mut byte = 0;
            if i < part.count {
                byte = (number(image, part.place.wrapping_add(i), 1) & 0xff) as u8;
            }
            match self
                .memory
                .get_mut(part.addr.wrapping_add(i).wrapping_sub(BEGIN) as usize)
            {
                Some(slot) => *slot = (byte, true),
                None => self.refuse("GuestMemory"),
            }
        }
        self.end = self.end.max(part.addr.wrapping_add(part.size));
    }
}

// A segment: where its bytes begin in the image, its address, how many bytes come from the image, and how many it has.
#[derive(Clone, Copy)]
struct Part {
    place: u64,
    addr: u64,
    count: u64,
    size: u64,
}

// Whether a sum passes a number.
fn passes(first: u64, second: u64, most: u64) -> bool {
    u128::from(first).wrapping_add(u128::from(second)) > u128::from(most)
}

// What is wrong with the header of an ELF file, if something is.
fn header_fault(image: &[u8]) -> Option<&'static str> {
    let size = image.len() as u64;
    if size < 64 {
        return Some("ReadElfHeader");
    }
    let tests = [
        (number(image, 0, 4) == 0x464c_457f, "InvalidElfMagicNumber"),
        (number(image, 4, 1) == 2, "InvalidElfClass"),
        (number(image, 5, 1) == 1, "BigEndianElfOnLittle"),
        (matches!(number(image, 16, 2), 2 | 3), "InvalidElfType"),
        (number(image, 18, 2) == 62, "InvalidElfMachine"),
        (number(image, 54, 2) == 56, "InvalidProgramHeaderSize"),
        (number(image, 56, 2) != 0xffff, "TooManyProgramHeaders"),
        (number(image, 32, 8) >= 64, "InvalidProgramHeaderOffset"),
        (
            !passes(
                number(image, 32, 8),
                number(image, 56, 2).wrapping_mul(56),
                size,
            ),
            "ReadProgramHeader",
        ),
    ];
    for (holds, name) in tests {
        if !holds {
            return Some(name);
        }
    }
    None
}

// What is wrong with a program header of a segment, if something is.
fn segment_fault(image: &[u8], part: &Part) -> Option<&'static str> {
    if part.size < part.count {
        return Some("InvalidSegmentSize");
    }
    if part.count > 0 && passes(part.place, part.count, image.len() as u64) {
        return Some("ReadKernelImage");
    }
    if passes(part.addr, part.size, u64::MAX) {
        return Some("MemoryOverflow");
    }
    None
}

// The segments of an ELF file with a good header.
fn segments(alloc: Global, image: &[u8], slow: &mut Slow) -> Result<Vec<Part>, AllocError> {
    let mut parts = Vec::new(alloc);
    for i in 0..number(image, 56, 2) {
        let at = number(image, 32, 8).wrapping_add(i.wrapping_mul(56));
        let part = Part {
            place: number(image, at.wrapping_add(8), 8),
            addr: number(image, at.wrapping_add(24), 8),
            count: number(image, at.wrapping_add(32), 8),
            size: number(image, at.wrapping_add(40), 8),
        };
        if number(image, at, 4) != 1 {
            continue;
        }
        if let Some(name) = segment_fault(image, &part) {
            slow.refuse(name);
        }
        if part.size > 0 {
            parts.push(part)?;
        }
    }
    if parts.is_empty() {
        slow.refuse("NoLoadSegment");
    }
    Ok(parts)
}

// A number up to a multiple.
fn up(value: u64, align: u64) -> u64 {
    let mut value = value;
    for _ in 0..align {
        if value.checked_rem(align).unwrap_or(0) != 0 {
            value = value.wrapping_add(1);
        }
    }
    value
}

// Looks through the notes between two places.
fn notes(image: &[u8], from: u64, to: u64, align: u64, slow: &mut Slow) {
    let mut at = from;
    for _ in from..to {
        if slow.pvh.is_some() || slow.wrong.is_some() || to.wrapping_sub(at) < 12 || at > to {
            return;
        }
        let name = number(image, at, 4);
        let size = number(image, at.wrapping_add(4), 4);
        let start = up(name.wrapping_add(12), align);
        if start.wrapping_add(size) > to.wrapping_sub(at) {
            slow.refuse("InvalidNote");
            return;
        }
        let xen = number(image, at.wrapping_add(12), 4) == 0x006e_6558 && name == 4;
        if xen && number(image, at.wrapping_add(8), 4) == 18 {
            if size == 4 || size == 8 {
                slow.pvh = Some(number(image, at.wrapping_add(start), size));
            } else {
                slow.refuse("InvalidPvhNote");
            }
        }
        at = at.wrapping_add(up(start.wrapping_add(size), align));
    }
}

// Looks through the notes of an ELF file with a good header.
fn all_notes(image: &[u8], slow: &mut Slow) {
    for i in 0..number(image, 56, 2) {
        let at = number(image, 32, 8).wrapping_add(i.wrapping_mul(56));
        let from = number(image, at.wrapping_add(8), 8);
        let count = number(image, at.wrapping_add(32), 8);
        if number(image, at, 4) != 4 || count == 0 || slow.pvh.is_some() {
            continue;
        }
        let align = match number(image, at.wrapping_add(48), 8) {
            0 | 1 | 4 => 4,
            8 => 8,
            _ => {
                slow.refuse("InvalidNoteAlign");
                continue;
            }
        };
        if count > 65536 {
            slow.refuse("NotesTooLong");
        } else if passes(from, count, image.len() as u64) {
            slow.refuse("ReadNoteHeader");
        } else {
            notes(image, from, from.wrapping_add(count), align, slow);
        }
    }
}

// Whether two segments share an address.
fn meet(parts: &[Part]) -> bool {
    for (i, one) in parts.iter().enumerate() {
        for (j, two) in parts.iter().enumerate() {
            if i != j && one.addr <= two.addr && two.addr.wrapping_sub(one.addr) < one.size {
                return true;
            }
        }
    }
    false
}

/// What a load of an ELF file to where it says is to leave.
pub fn elf(alloc: Global, image: &[u8]) -> Result<Slow, AllocError> {
    let mut slow = Slow::new(alloc)?;
    if let Some(name) = header_fault(image) {
        slow.refuse(name);
        return Ok(slow);
    }
    let parts = segments(alloc, image, &mut slow)?;
    slow.load = number(image, 24, 8);
    all_notes(image, &mut slow);
    if meet(parts.as_slice()) {
        slow.refuse("SegmentsOverlap");
    }
    if slow.wrong.is_none() {
        for part in &parts {
            slow.segment(image, part);
        }
    }
    Ok(slow)
}

// What is wrong with the header of a bzImage, if something is.
fn bz_fault(image: &[u8], sectors: u64) -> Option<&'static str> {
    let size = image.len() as u64;
    if size < 0x218 {
        return Some("ReadBzImageHeader");
    }
    let more = number(image, 0x201, 1);
    let tests = [
        (number(image, 0x202, 4) == 0x5372_6448, "InvalidBzImage"),
        (number(image, 0x206, 2) >= 0x200, "InvalidBzImage"),
        (number(image, 0x211, 1) & 1 == 1, "InvalidBzImage"),
        (more >= 0x16, "InvalidSetupHeaderSize"),
        (!passes(0x202, more, size), "ReadBzImageHeader"),
        (sectors < size, "ReadBzImageCompressedKernel"),
    ];
    for (holds, name) in tests {
        if !holds {
            return Some(name);
        }
    }
    None
}

// What is wrong with where the kernel of a bzImage runs, if something is.
fn runtime_fault(image: &[u8], load: u64) -> Option<&'static str> {
    let header_end = number(image, 0x201, 1).wrapping_add(0x202);
    if number(image, 0x206, 2) < 0x20a || header_end < 0x264 {
        return None;
    }
    let mut start = number(image, 0x258, 8);
    if number(image, 0x234, 1) != 0 {
        let align = number(image, 0x230, 4);
        if align == 0 || align & align.wrapping_sub(1) != 0 {
            return Some("InvalidKernelAlignment");
        }
        if passes(start, align, u64::MAX) {
            return Some("RuntimeAreaOverflow");
        }
        start = up(start.max(load), align);
    }
    let size = number(image, 0x260, 4);
    if passes(start, size, u64::MAX) {
        return Some("RuntimeAreaOverflow");
    }
    if size > 0 && (start < BEGIN || passes(start, size, END)) {
        return Some("RuntimeAreaNotInMemory");
    }
    None
}

/// What a load of a bzImage to where it says is to leave.
pub fn bzimage(alloc: Global, image: &[u8]) -> Result<Slow, AllocError> {
    let mut slow = Slow::new(alloc)?;
    let mut sectors = number(image, 0x1f1, 1);
    if sectors == 0 {
        sectors = 4;
    }
    let start = sectors.wrapping_mul(512).wrapping_add(512);
    if let Some(name) = bz_fault(image, start) {
        slow.refuse(name);
        return Ok(slow);
    }
    let count = (image.len() as u64).wrapping_sub(start);
    slow.load = number(image, 0x214, 4);
    if let Some(name) = runtime_fault(image, slow.load) {
        slow.refuse(name);
        return Ok(slow);
    }
    let part = Part {
        place: start,
        addr: slow.load,
        count,
        size: count,
    };
    slow.segment(image, &part);
    Ok(slow)
}
