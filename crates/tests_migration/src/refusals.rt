//! What a sender refuses: a harvest that finds no memory, bitmaps that do not cover their block, and blocks of which no
//! receiver accepts the header.

use crate::guests::{Host, hear_ready, put};
use live_migration::{Options, Refusal, SendError, Sender};
use std::alloc::{AllocError, Global};
use std::num::NonZeroUsize;
use std::test::Fail;
use vm_memory_base::{Bitmap, BitmapId, ExactBitmap, ExclusiveBitmap, GuestAddress};
use vm_memory_guest::{BlockId, HostMemory};

// A bitmap that is not harvested while there is said to be no memory.
#[derive(Drop)]
struct Poor<B> {
    bitmap: B,
    is_poor: bool,
}

impl<B: Bitmap> Bitmap for Poor<B> {
    ghost marks = { λ old offset len new. B.marks old.bitmap offset len new.bitmap };

    ghost tells = { λ b offset told. B.tells b.bitmap offset told };

    fn mark_dirty(&mut self, offset: usize, len: usize) {
        self.bitmap.mark_dirty(offset, len);
    }

    fn dirty_at(&self, offset: usize) -> bool {
        self.bitmap.dirty_at(offset)
    }
}

impl<B: ExactBitmap> ExactBitmap for Poor<B> {
    ghost pages = { λ b. B.pages b.bitmap };

    ghost fits = { λ b. B.fits b.bitmap };

    ghost marks_pages = { λ old new offset len h. B.marks_pages old.bitmap new.bitmap offset len h };

    ghost tells_pages = { λ b offset told h. B.tells_pages b.bitmap offset told h };

    ghost made_clean = { λ len b none. absurd none };

    fn shape(&self) -> Option<(usize, usize)> {
        self.bitmap.shape()
    }

    fn harvest(&mut self, alloc: Global) -> Result<Vec<usize>, AllocError> {
        if self.is_poor && !self.bitmap.dirty_pages(alloc)?.is_empty() {
            return Err(AllocError);
        }
        self.bitmap.harvest(alloc)
    }
}

type PoorHost = HostMemory<Poor<ExclusiveBitmap>>;

const BLOCK: BitmapId = BitmapId::Block(0);

// Says whether there is memory.
fn set_poor<B: ExactBitmap>(host: &mut HostMemory<Poor<B>>, is_poor: bool) {
    if host.shape().has_bitmap(BLOCK) {
        host.bitmap_mut(BLOCK).is_poor = is_poor;
    }
}

fn dirty_pages<B: ExactBitmap>(host: &HostMemory<B>, alloc: Global) -> Result<Vec<usize>, Fail> {
    if !host.shape().has_bitmap(BLOCK) {
        return Ok(Vec::new(alloc));
    }
    Ok(host.bitmap(BLOCK).dirty_pages(alloc)?)
}

// Harvests with no memory, and then with some. Answers whether the first was refused and left the dirty pages, and how
// many pages the second took.
fn harvest_twice<B: ExactBitmap>(
    alloc: Global,
    sender: &mut Sender,
    host: &mut HostMemory<Poor<B>>,
    wanted: &[usize],
) -> Result<Option<usize>, Fail> {
    set_poor(host, true);
    let refused = sender.harvest(alloc, host);
    set_poor(host, false);
    if !matches!(&refused, Err(SendError::Memory))
        || dirty_pages(host, alloc)?.as_slice() != wanted
    {
        return Ok(None);
    }
    Ok(Some(sender.harvest(alloc, host)?))
}

// Copies and sends what waits.
fn send_all<B: ExactBitmap>(
    alloc: Global,
    sender: &mut Sender,
    host: &HostMemory<B>,
    stream: &mut Vec<u8>,
) -> Result<(), SendError> {
    sender.copy_batch(host)?;
    sender.send_batch(stream)?;
    sender.end_round(alloc, stream)
}

// How many pages each of two rounds takes, of a block of 9 bytes in pages of two, where each harvest is refused first.
fn two_rounds<B: ExactBitmap>(
    alloc: Global,
    host: &mut HostMemory<Poor<B>>,
    block: BlockId,
) -> Result<(Option<usize>, Option<usize>), Fail> {
    let mut stream = Vec::new(alloc);
    let places = [(block, GuestAddress(0))];
    let mut sender = Sender::begin(alloc, host, &places, Options::default(), &mut stream)?;
    hear_ready(&mut sender)?;
    put(host, block, 3, 1);
    let first = harvest_twice(alloc, &mut sender, host, &[1])?;
    send_all(alloc, &mut sender, host, &mut stream)?;
    put(host, block, 8, 1);
    put(host, block, 0, 1);
    let second = harvest_twice(alloc, &mut sender, host, &[0, 4])?;
    send_all(alloc, &mut sender, host, &mut stream)?;
    Ok((first, second))
}

#[test]
fn a_refused_harvest_loses_no_page(rt: HostRuntime) -> Result<(), Fail> {
    let alloc = rt.alloc();
    let mut host = PoorHost::new(alloc);
    let size = NonZeroUsize::new(2).ok_or("a page has no bytes")?;
    let bitmap = Poor {
        bitmap: ExclusiveBitmap::new(alloc, 9, size)?,
        is_poor: false,
    };
    let block = host.new_block_with(9, bitmap)?;
    let pages = two_rounds(alloc, &mut host, block)?;
    // The first round takes all pages, and the second those that were written.
    assert!(rt; pages == (Some(5), Some(2)), "{pages:?}");
    Ok(())
}

// The answer to a sender of a block of 9 bytes whose bitmap has pages of 2 for so many bytes.
fn begun_with(alloc: Global, bytes: usize) -> Result<Result<Sender, SendError>, Fail> {
    let mut host = Host::new(alloc);
    let size = NonZeroUsize::new(2).ok_or("a page has no bytes")?;
    let bitmap = ExclusiveBitmap::new(alloc, bytes, size)?;
    let block = host.new_block_with(9, bitmap)?;
    let places = [(block, GuestAddress(0))];
    let mut stream = Vec::new(alloc);
    Ok(Sender::begin(alloc, &host, &places, Options::default(), &mut stream))
}

#[test]
fn bitmaps_cover_their_block(rt: HostRuntime) -> Result<(), Fail> {
    // The ninth byte has a page of its own.
    for (bytes, is_covered) in [
        (0, false),
        (7, false),
        (8, false),
        (9, true),
        (10, true),
        (11, true),
    ] {
        let begun = begun_with(rt.alloc(), bytes)?;
        let is_right = match begun {
            Ok(_) => is_covered,
            Err(SendError::Untracked) => !is_covered,
            Err(_) => false,
        };
        assert!(rt; is_right, "{bytes} bytes");
    }
    Ok(())
}

// Why a sender refuses blocks of these lengths, page sizes and addresses, if their header is the reason.
fn refusal_of(alloc: Global, blocks: &[(usize, usize, u64)]) -> Result<Option<Refusal>, Fail> {
    let mut host = Host::new(alloc);
    let mut places = Vec::new(alloc);
    for (len, page_size, address) in blocks {
        let size = NonZeroUsize::new(*page_size).ok_or("a page has no bytes")?;
        let bitmap = ExclusiveBitmap::new(alloc, *len, size)?;
        let block = host.new_block_with(*len, bitmap)?;
        places.push((block, GuestAddress(*address)))?;
    }
    let mut stream = Vec::new(alloc);
    match Sender::begin(
        alloc,
        &host,
        places.as_slice(),
        Options::default(),
        &mut stream,
    ) {
        Ok(_) => Ok(None),
        Err(SendError::Header(refusal)) if stream.is_empty() => Ok(Some(refusal)),
        Err(error) => Err(error)?,
    }
}

#[test]
fn blocks_that_no_receiver_accepts_are_refused(rt: HostRuntime) -> Result<(), Fail> {
    let alloc = rt.alloc();
    let cases: [(&[(usize, usize, u64)], Option<Refusal>); 8] = [
        (&[(8, 2, 0), (8, 2, 8)], None),
        (&[(8, 2, 0), (8, 2, u64::MAX - 8)], None),
        (&[(8, 2, 0), (8, 2, u64::MAX - 7)], Some(Refusal::Place)),
        (&[(8, 2, 0), (8, 2, 7)], Some(Refusal::Place)),
        (&[(8, 2, 8), (8, 2, 0)], Some(Refusal::Place)),
        (&[(8, 0x10_0000, 0)], None),
        (&[(8, 0x10_0001, 0)], Some(Refusal::PageSize)),
        // The first fault from the left.
        (&[(8, 2, 8), (8, 0x10_0001, 0)], Some(Refusal::PageSize)),
    ];
    for (blocks, wanted) in cases {
        let refusal = refusal_of(alloc, blocks)?;
        assert!(rt; refusal == wanted, "{blocks:?}: {refusal:?}");
    }
    let mut many = Vec::new(alloc);
    for i in 0..256 {
        many.push((1, 1, i))?;
    }
    assert!(rt; refusal_of(alloc, many.as_slice())? == None);
    many.push((1, 1, 256))?;
    assert!(rt; refusal_of(alloc, many.as_slice())? == Some(Refusal::BlockCount));
    Ok(())
}
