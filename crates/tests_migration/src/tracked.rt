//! A migration of a block that a `TrackedBitmap` tracks: its host marks it, and so does a device, without the host.
ghost use Rattle.test_regions.specs.Markers.{IsHarvesterOf, IsMarkerOf};

use crate::guests::{Host, bytes_of, hear_ready, put, take_until};
use live_migration::{Options, Receiver, SendError, Sender, Stage};
use std::alloc::Global;
use std::num::NonZeroUsize;
use std::sync::Arc;
use std::test::Fail;
use test_regions::{MarkedHost, marked_host, next_marker};
use vm_memory_base::{GuestAddress, Harvester, Marker, TrackedBitmap};
use vm_memory_guest::BlockId;

// A sender and its stream.
#[derive(Drop)]
struct Sending {
    sender: Sender,
    stream: Vec<u8>,
}

impl Sending {
    // Sends the pages of these words in a round, and answers how many they were. The words of fewer pages are refused,
    // and change nothing.
    fn send_round(
        &mut self,
        alloc: Global,
        host: &MarkedHost,
        words: &[u32],
    ) -> Result<usize, SendError> {
        if self.sender.harvest_words(alloc, &[1]).is_ok() {
            return Err(SendError::Order);
        }
        let count = self.sender.harvest_words(alloc, words)?;
        self.sender.copy_batch(host)?;
        self.sender.send_batch(&mut self.stream)?;
        self.sender.end_round(alloc, &mut self.stream)?;
        Ok(count)
    }
}

// What happens before a round: a byte is written at an offset, and the device marks one. Then how many pages the round
// has.
type Case = (usize, usize, usize);

// Writes, marks, and sends a round. Answers whether it had so many pages.
fn round_of(
    alloc: Global,
    host: &mut MarkedHost,
    bitmap: &TrackedBitmap,
    harvester: &mut Harvester,
    device: &mut Marker,
    sending: &mut Sending,
    case: Case,
) -> Result<bool, Fail>
    requires harvester { IsHarvesterOf harvester.old bitmap.now }
    requires marker { IsMarkerOf device.old bitmap.now }
    ensures harvester { IsHarvesterOf harvester.new bitmap.now }
    ensures marker { IsMarkerOf device.new bitmap.now }
{
    let (at, marked, count) = case;
    put(host, BlockId(0), at, 7);
    bitmap.mark(device, marked, 1);
    let words = bitmap.get_and_reset(harvester, alloc)?;
    Ok(sending.send_round(alloc, host, words.as_slice())? == count)
}

// Sends a host of 64 pages in three rounds, and answers whether each had the pages that were marked.
fn are_right(
    alloc: Global,
    host: &mut MarkedHost,
    bitmap: &TrackedBitmap,
    harvester: &mut Harvester,
    device: &mut Marker,
    sending: &mut Sending,
) -> Result<bool, Fail>
    requires harvester { IsHarvesterOf harvester.old bitmap.now }
    requires marker { IsMarkerOf device.old bitmap.now }
{
    // The first round has all pages. The others have those that were marked, in both words and twice in one page.
    let first = round_of(
        alloc,
        host,
        bitmap,
        harvester,
        device,
        sending,
        (0x20, 0, 64),
    )?;
    let second = round_of(
        alloc,
        host,
        bitmap,
        harvester,
        device,
        sending,
        (0x3ff, 0x50, 2),
    )?;
    let third = round_of(
        alloc,
        host,
        bitmap,
        harvester,
        device,
        sending,
        (0x11, 0x1f, 1),
    )?;
    sending.sender.done(alloc, &mut sending.stream)?;
    Ok(first && second && third)
}

// Moves a host, and answers whether the rounds were right and the blocks are equal.
fn is_moved(
    alloc: Global,
    bitmap: &Arc<TrackedBitmap>,
    mut harvester: Harvester,
    marker: Marker,
    mut device: Marker,
) -> Result<bool, Fail>
    requires harvester { IsHarvesterOf harvester bitmap.now.value }
    requires marker { IsMarkerOf marker bitmap.now.value }
    requires device { IsMarkerOf device bitmap.now.value }
{
    let mut host = marked_host(alloc, bitmap, marker)?;
    let size = NonZeroUsize::new(0x10).ok_or("a page has no bytes")?;
    let mut stream = Vec::new(alloc);
    let places = [(BlockId(0), GuestAddress(0x1000), size)];
    let mut sender = Sender::begin_tracked(alloc, &host, &places, Options::default(), &mut stream)?;
    hear_ready(&mut sender)?;
    let mut sending = Sending { sender, stream };
    let is_right = are_right(
        alloc,
        &mut host,
        &**bitmap,
        &mut harvester,
        &mut device,
        &mut sending,
    )?;
    let mut other = Host::new(alloc);
    let mut input = sending.stream.as_slice();
    let mut receiver = Receiver::begin(alloc, &mut input, &mut other, 0x400)?;
    take_until(&mut receiver, input, &mut other, Stage::Done)?;
    Ok(is_right && bytes_of(&host, BlockId(0)) == bytes_of(&other, BlockId(0)))
}

#[test]
fn a_tracked_block_moves(rt: HostRuntime) -> Result<(), Fail> {
    let size = NonZeroUsize::new(0x10).ok_or("a page has no bytes")?;
    let (bitmap, harvester, mut markers) = TrackedBitmap::new(rt.alloc(), 0x400, size, 2)?;
    let marker = next_marker(&bitmap, &mut markers).ok_or("there is no marker")?;
    let device = next_marker(&bitmap, &mut markers).ok_or("there is no other marker")?;
    let shared = Arc::new(rt.alloc(), bitmap)?;
    assert!(rt; is_moved(rt.alloc(), &shared, harvester, marker, device)?);
    Ok(())
}
