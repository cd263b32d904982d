//! Data between guest memory and a disk, in pieces.
ghost use Rattle.std.specs.Prelude.{◌≡◌, ◌⊎◌, ◌+◌, ◌-◌, ◌*◌, ◌%◌, ◌^◌, ◌<◌, ◌≤◌, ℕ, true, false, List, length, take};
ghost use Rattle.std.specs.Prelude.{drop, MatchBool, MatchOption, MatchResult};
ghost use Rattle.vm_memory_base.specs.declared.iotlb.Permissions.TheVariants.{Read, Write};
ghost use Rattle.vm_memory_device.specs.Chain.{entries_from, readable, text};
ghost use Rattle.vm_memory_guest.specs.Host.{shape_of, Holds};
ghost use Rattle.virtio_blk.specs.Disk.{LieAt, after_write, reads, writes};
ghost use Rattle.virtio_blk.specs.Served.{Flushes, Loads, Stores, StoresToStay};
ghost use Rattle.virtio_blk.specs.Texts.{Accessed, StopsAt, StopsWithin, WritesAt, reached, text_bytes};

use super::PIECE;
use crate::disk::Disk;
use crate::lent::{data_from, data_segment, lent};
use crate::request::{VIRTIO_BLK_S_IOERR, VIRTIO_BLK_S_OK};
use crate::text::{Stop, Written, read_all, write_front};
use vm_memory_base::{Bitmap, GuestAddress};
use vm_memory_device::{Chain, ChainReader, ChainWriter};
use vm_memory_guest::{GuestMemory, HostMemory};

// Writes bytes to the disk, from a sector on.
fn put<D: Disk>(disk: &mut D, sector: u64, bytes: &[u8]) -> Result<(), Stop>
    requires whole { length bytes.now % 512 ≡ 0 }
    requires inside { 512 * sector + length bytes.now ≤ 512 * D.sectors disk.old }
    ensures took { MatchResult result
        (λ _. (D.bytes disk.new ≡ after_write (512 * sector) bytes.now (D.bytes disk.old))
        × D.calls disk.old (writes sector bytes.now) true disk.new)
        (λ stop. (stop.wanted ≡ false) × (D.bytes disk.new ≡ D.bytes disk.old)
        × D.calls disk.old (writes sector bytes.now) false disk.new) }
    ensures sectors { D.sectors disk.new ≡ D.sectors disk.old }
{
    match disk.write(sector, bytes) {
        Ok(()) => Ok(()),
        Err(_) => Err(Stop { wanted: false }),
    }
}

// Moves the next bytes of a text to the disk, from a sector on. Guest memory lends them, if it is known where they are
// and they lie in one window. Else they go through a buffer that has room for just these.
fn store_piece<D: Disk, M: GuestMemory, B: Bitmap>(
    disk: &mut D,
    reader: &mut ChainReader<'_>,
    mem: &M,
    host: &HostMemory<B>,
    start: Option<GuestAddress>,
    sector: u64,
    piece: &mut [u8],
) -> Result<(), Stop>
    requires held { Holds (shape_of host.now) (M.names mem.now) }
    requires placed { MatchOption start (Unit {0}) (λ a. reader.old ≡ entries_from a.0 (length reader.old)) }
    requires some { 0 < length piece.old }
    requires enough { length piece.old ≤ length reader.old }
    requires whole { length piece.old % 512 ≡ 0 }
    requires inside { 512 * sector + length piece.old ≤ 512 * D.sectors disk.old }
    ensures stored { let m = M.memory mem.now in let n = length piece.old in MatchResult result
        (λ _. (n ≤ length (reached m host.now.tables reader.old)) × Accessed m host.now.tables Read reader.old n
        × (reader.new ≡ drop n reader.old)
        × (D.bytes disk.new ≡ after_write (512 * sector) (text_bytes m host.now reader.old n) (D.bytes disk.old))
        × D.calls disk.old (writes sector (text_bytes m host.now reader.old n)) true disk.new)
        (λ stop. (D.bytes disk.new ≡ D.bytes disk.old)
        × (((stop.wanted ≡ false)
        × D.calls disk.old (writes sector (text_bytes m host.now reader.old n)) false disk.new)
        ⊎ ((disk.new ≡ disk.old) × StopsWithin m host.now.tables Read reader.old n stop.wanted))) }
    ensures sectors { D.sectors disk.new ≡ D.sectors disk.old }
{
    match lent(mem, host, start, piece.len()) {
        Some(bytes) => {
            reader.skip(piece.len());
            put(disk, sector, bytes)
        }
        None => {
            read_all(reader, mem, host, piece)?;
            put(disk, sector, piece)
        }
    }
}

// Moves a text to the disk, from a sector on, and says the status, and whether an allocation failed. It is known where
// all of the text begins, or not.
pub(super) fn store<D: Disk, M: GuestMemory, B: Bitmap>(
    disk: &mut D,
    reader: &mut ChainReader<'_>,
    mem: &M,
    host: &HostMemory<B>,
    start: Option<GuestAddress>,
    sector: u64,
    buffer: &mut [u8],
) -> (u8, bool)
    requires held { Holds (shape_of host.now) (M.names mem.now) }
    requires placed { MatchOption start (Unit {0}) (λ a. reader.old ≡ entries_from a.0 (length reader.old)) }
    requires whole { length reader.old % 512 ≡ 0 }
    requires inside { 512 * sector + length reader.old ≤ 512 * D.sectors disk.old }
    requires small { D.sectors disk.old < 2 ^ 55 }
    requires room { length buffer.old ≡ 65536 }
    ensures { Stores D.bytes D.sectors D.calls (M.memory mem.now) host.now reader.old sector (length reader.old)
        disk.old result.0 result.1 disk.new }
{
    let len = reader.left();
    let mut moved = 0;
    while moved < len {
        let count = (len - moved).min(PIECE);
        let at = sector + (moved / 512) as u64;
        let here = data_from(start, moved);
        match store_piece(disk, reader, mem, host, here, at, &mut buffer[..count]) {
            Ok(()) => moved += count,
            Err(stop) => return (VIRTIO_BLK_S_IOERR, stop.wanted),
        }
    }
    (VIRTIO_BLK_S_OK, false)
}

// Brings what was written to where it stays, and says the status.
pub(super) fn flush<D: Disk>(disk: &mut D) -> u8
    ensures { Flushes D.bytes D.sectors D.calls disk.old result disk.new }
{
    match disk.flush() {
        Ok(()) => VIRTIO_BLK_S_OK,
        Err(_) => VIRTIO_BLK_S_IOERR,
    }
}

// Moves a text to the disk, from a sector on, brings it to where it stays, and says the status, and whether memory was
// wanted.
pub(super) fn store_to_stay<D: Disk, M: GuestMemory, B: Bitmap>(
    disk: &mut D,
    reader: &mut ChainReader<'_>,
    mem: &M,
    host: &HostMemory<B>,
    start: Option<GuestAddress>,
    sector: u64,
    buffer: &mut [u8],
) -> (u8, bool)
    requires held { Holds (shape_of host.now) (M.names mem.now) }
    requires placed { MatchOption start (Unit {0}) (λ a. reader.old ≡ entries_from a.0 (length reader.old)) }
    requires whole { length reader.old % 512 ≡ 0 }
    requires inside { 512 * sector + length reader.old ≤ 512 * D.sectors disk.old }
    requires small { D.sectors disk.old < 2 ^ 55 }
    requires room { length buffer.old ≡ 65536 }
    ensures { StoresToStay D.bytes D.sectors D.calls (M.memory mem.now) host.now reader.old sector (length reader.old)
        disk.old result.0 result.1 disk.new }
{
    let (stored, wanted) = store(disk, reader, mem, host, start, sector, buffer);
    if stored != VIRTIO_BLK_S_OK {
        return (stored, wanted);
    }
    (flush(disk), wanted)
}

// A reader of the data of a write: all readable bytes after the header.
fn data_reader(chain: &Chain) -> ChainReader<'_>
    ensures { result ≡ drop 16 (text (readable chain.now)) }
{
    let mut reader = chain.reader();
    reader.skip(16);
    reader
}

// Where the data of a write begin, if the disk takes guest memory and they are one segment.
#[inline]
fn lent_start<D: Disk>(disk: &D, chain: &Chain, len: usize) -> Option<GuestAddress>
    requires { len ≡ length (drop 16 (text (readable chain.now))) }
    ensures { MatchOption result (Unit {0}) (λ a. drop 16 (text (readable chain.now)) ≡ entries_from a.0 len) }
{
    if !disk.takes_guest_memory() {
        return None;
    }
    data_segment(chain, len)
}

// Moves the data of a write to the disk, from a sector on, brings it to where it stays if that is asked for, and says
// the status, and whether memory was wanted.
pub(super) fn store_data<D: Disk, M: GuestMemory, B: Bitmap>(
    disk: &mut D,
    mem: &M,
    host: &HostMemory<B>,
    chain: &Chain,
    sector: u64,
    flush: bool,
    buffer: &mut [u8],
) -> (u8, bool)
    requires held { Holds (shape_of host.now) (M.names mem.now) }
    requires whole { length (drop 16 (text (readable chain.now))) % 512 ≡ 0 }
    requires inside { 512 * sector + length (drop 16 (text (readable chain.now))) ≤ 512 * D.sectors disk.old }
    requires small { D.sectors disk.old < 2 ^ 55 }
    requires room { length buffer.old ≡ 65536 }
    ensures { let m = M.memory mem.now in let es = drop 16 (text (readable chain.now)) in MatchBool flush
        (StoresToStay D.bytes D.sectors D.calls m host.now es sector (length es) disk.old result.0 result.1 disk.new)
        (Stores D.bytes D.sectors D.calls m host.now es sector (length es) disk.old result.0 result.1 disk.new) }
{
    let mut reader = data_reader(chain);
    let start = lent_start(disk, chain, reader.left());
    if flush {
        store_to_stay(disk, &mut reader, mem, host, start, sector, buffer)
    } else {
        store(disk, &mut reader, mem, host, start, sector, buffer)
    }
}

// Moves bytes of the disk, from a sector on, to the next bytes of a text. The disk lends them, or they go through a
// buffer that has room for just these. It says how many were moved, and whether an allocation failed for the next one.
fn load_piece<D: Disk, M: GuestMemory, B: Bitmap>(
    disk: &mut D,
    writer: &mut ChainWriter<'_>,
    mem: &M,
    host: &mut HostMemory<B>,
    sector: u64,
    piece: &mut [u8],
) -> Written
    requires held { Holds (shape_of host.old) (M.names mem.now) }
    requires enough { length piece.old ≤ length writer.old }
    requires whole { length piece.old % 512 ≡ 0 }
    requires inside { 512 * sector + length piece.old ≤ 512 * D.sectors disk.old }
    ensures most { result.count ≤ length piece.old }
    ensures gave { (given : List ℕ) × (length given ≡ length piece.old)
        × LieAt (512 * sector) (take result.count given) (D.bytes disk.old)
        × WritesAt B.marks (M.memory mem.now) writer.old (take result.count given) host.old host.new
        × (((result.count ≡ 0) × (result.wanted ≡ false) × D.calls disk.old (reads sector given) false disk.new)
        ⊎ (D.calls disk.old (reads sector given) true disk.new × (result.count < length piece.old
        → StopsAt (M.memory mem.now) host.old.tables Write writer.old (length piece.old) result.wanted result.count))) }
    ensures place { writer.new ≡ drop result.count writer.old }
    ensures bytes { D.bytes disk.new ≡ D.bytes disk.old }
    ensures sectors { D.sectors disk.new ≡ D.sectors disk.old }
    ensures tables { host.new.tables ≡ host.old.tables }
    ensures shape { shape_of host.new ≡ shape_of host.old }
{
    if let Some(bytes) = disk.lend(sector, piece.len()) {
        return write_front(writer, mem, host, bytes);
    }
    if disk.read(sector, piece).is_err() {
        return Written {
            count: 0,
            wanted: false,
        };
    }
    write_front(writer, mem, host, piece)
}

// Moves bytes of the disk, from a sector on, to the front of a text of which one byte is left over. It says the status,
// how many were moved, and whether an allocation failed for the next one.
pub(super) fn load<D: Disk, M: GuestMemory, B: Bitmap>(
    disk: &mut D,
    writer: &mut ChainWriter<'_>,
    mem: &M,
    host: &mut HostMemory<B>,
    sector: u64,
    buffer: &mut [u8],
) -> (u8, Written)
    requires held { Holds (shape_of host.old) (M.names mem.now) }
    requires some { 0 < length writer.old }
    requires whole { (length writer.old - 1) % 512 ≡ 0 }
    requires inside { 512 * sector + (length writer.old - 1) ≤ 512 * D.sectors disk.old }
    requires small { D.sectors disk.old < 2 ^ 55 }
    requires room { length buffer.old ≡ 65536 }
    ensures loaded { (sent : List ℕ) × (length sent ≡ result.1.count)
        × Loads D.bytes D.sectors D.calls (M.memory mem.now) host.old writer.old sector (length writer.old - 1)
        disk.old result.0 result.1.wanted sent disk.new
        × WritesAt B.marks (M.memory mem.now) writer.old sent host.old host.new }
    ensures rest { result.1.count < length writer.old }
    ensures place { writer.new ≡ drop result.1.count writer.old }
    ensures tables { host.new.tables ≡ host.old.tables }
    ensures shape { shape_of host.new ≡ shape_of host.old }
{
    let len = writer.left() - 1;
    let mut moved = 0;
    while moved < len {
        let count = (len - moved).min(PIECE);
        let at = sector + (moved / 512) as u64;
        let done = load_piece(disk, writer, mem, host, at, &mut buffer[..count]);
        moved += done.count;
        if done.count < count {
            let written = Written {
                count: moved,
                wanted: done.wanted,
            };
            return (VIRTIO_BLK_S_IOERR, written);
        }
    }
    let written = Written {
        count: moved,
        wanted: false,
    };
    (VIRTIO_BLK_S_OK, written)
}
