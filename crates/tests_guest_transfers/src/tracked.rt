//! A host whose block is marked by a marker of a bitmap that others harvest.
ghost use Rattle.std.specs.Prelude.{IfSome, IfOk};
ghost use Rattle.test_regions.specs.Markers.{IsMarkerOf, AreMarkersOf};

use std::alloc::Global;
use std::num::NonZeroUsize;
use std::sync::Arc;
use std::test::Fail;
use test_regions::{MarkedHost, marked_host, memory_of_block, next_marker};
use test_text::expect_text;
use vm_memory_base::{BitmapId, GuestAddress, Marker, TrackedBitmap};
use vm_memory_guest::{Bytes, GuestMemoryError, GuestMemoryMmap, GuestMemoryResult};

// Writes so many bytes.
fn write_bytes(
    bitmap: &TrackedBitmap,
    host: &mut MarkedHost,
    memory: &GuestMemoryMmap,
    addr: u64,
    bytes: &[u8],
) -> GuestMemoryResult<usize>
    requires { AreMarkersOf bitmap.now host.old.bitmaps }
    ensures { AreMarkersOf bitmap.now host.new.bitmaps }
{
    if !host.holds(memory) {
        return Err(GuestMemoryError::HostAddressNotAvailable);
    }
    memory.write(host, bytes, GuestAddress(addr))
}

// Takes the marker back.
fn retired(bitmap: &TrackedBitmap, host: &mut MarkedHost) -> Option<Marker>
    requires { AreMarkersOf bitmap.now host.old.bitmaps }
    ensures { IfSome result (λ m. IsMarkerOf m bitmap.now) }
{
    if !host.shape().has_bitmap(BitmapId::Block(0)) {
        return None;
    }
    let (_, marker) = host.bitmap_mut(BitmapId::Block(0)).retire()?;
    Some(marker)
}

// Writes over boundaries of pages of 16 bytes, before the marker comes back and after.
fn written_by_marker(
    alloc: Global,
    bitmap: &Arc<TrackedBitmap>,
    marker: Marker,
) -> Result<Marker, Fail>
    requires { IsMarkerOf marker bitmap.now.value }
    ensures { IfOk result (λ m. IsMarkerOf m bitmap.now.value) }
{
    let mut host = marked_host(alloc, bitmap, marker)?;
    let memory = memory_of_block(alloc, &host)?;
    let two = write_bytes(&**bitmap, &mut host, &memory, 0x100f, &[7; 2]);
    let over = write_bytes(&**bitmap, &mut host, &memory, 0x11ff, &[7; 0x12]);
    let cut = write_bytes(&**bitmap, &mut host, &memory, 0x13ff, &[7; 9]);
    let past = write_bytes(&**bitmap, &mut host, &memory, 0x1400, &[7; 9]);
    let marker = retired(&**bitmap, &mut host).ok_or("there is no marker")?;
    if !host.holds(&memory) {
        return Err(Fail::new("the host does not hold the memory"));
    }
    let late = memory.write(&mut host, &[7], GuestAddress(0x1050));
    let told = format!(in alloc; "{two:?} {over:?} {cut:?} {past:?} {late:?}")?;
    expect_text(0, told.as_str(), ANSWERS)?;
    Ok(marker)
}

const ANSWERS: &str = "Ok(2) Ok(18) Ok(1) Err(InvalidGuestAddress(GuestAddress(5120))) Ok(1)";

#[test]
fn a_marker_that_retires_has_marked_what_was_written(rt: HostRuntime) -> Result<(), Fail> {
    let size = NonZeroUsize::new(16).ok_or("a page has no bytes")?;
    let (bitmap, mut harvester, mut markers) = TrackedBitmap::new(rt.alloc(), 0x400, size, 1)?;
    let marker = next_marker(&bitmap, &mut markers).ok_or("there is no marker")?;
    let shared = Arc::new(rt.alloc(), bitmap)?;
    let marker = written_by_marker(rt.alloc(), &shared, marker)?;
    shared.join(&mut harvester, marker);
    let bitmap = Arc::into_inner(shared).ok_or("the host still has the bitmap")?;
    match bitmap.close(harvester, rt.alloc()) {
        Ok(words) => assert!(rt; words.as_slice() == [0x8000_0003u32, 0x8000_0003].as_slice()),
        Err(_) => return Err(Fail::new("allocation failed")),
    }
    Ok(())
}
