//! The calls of bitmaps that may fail to allocate.
ghost use Rattle.std.specs.Prelude.{◌≡◌};
ghost use Rattle.vm_memory_base.specs.Markers.{AreNew, table_of, harvester_table};

use crate::calls::{Answer, Calls, keep};
use std::alloc::{AllocError, Global};
use std::num::NonZeroUsize;
use std::sync::Arc;
use std::test::Fail;
use vm_memory_base::{
    ArcSlice, AtomicBitmap, Bitmap, ExactBitmap, ExclusiveBitmap, Harvester, Marker, NewBitmap,
    TrackedBitmap,
};

// A bitmap that threads mark, and what harvests it.
#[derive(Drop)]
struct Tracked {
    bitmap: TrackedBitmap,
    harvester: Harvester,
    ghost own: { harvester_table harvester ≡ table_of bitmap },
}

/// Bitmaps of each kind, and what was taken from them.
#[derive(Drop)]
pub struct Bitmaps {
    alloc: Global,
    one: ExclusiveBitmap,
    other: ExclusiveBitmap,
    atomic: AtomicBitmap,
    made: Option<ExclusiveBitmap>,
    made_atomic: Option<AtomicBitmap>,
    copied: Option<AtomicBitmap>,
    slice: ArcSlice<AtomicBitmap>,
    slice_made: Option<ArcSlice<AtomicBitmap>>,
    tracked: Option<Tracked>,
    pages: Option<Vec<usize>>,
    words: Option<Vec<u64>>,
    half_words: Option<Vec<u32>>,
}

// How many bytes a bitmap tracks, each of them a page.
const PAGES: usize = 0x100;

// A slice of a bitmap some of whose pages are dirty.
fn slice_of(alloc: Global) -> Result<ArcSlice<AtomicBitmap>, AllocError> {
    let bitmap = AtomicBitmap::new(alloc, PAGES, NonZeroUsize::MIN)?;
    bitmap.set_addr_range(70, 9);
    Ok(ArcSlice::new(Arc::new(alloc, bitmap)?, 20))
}

impl Bitmaps {
    pub fn new(alloc: Global) -> Result<Bitmaps, AllocError> {
        let mut bitmaps = Bitmaps {
            alloc,
            one: ExclusiveBitmap::new(alloc, PAGES, NonZeroUsize::MIN)?,
            other: ExclusiveBitmap::new(alloc, PAGES, NonZeroUsize::MIN)?,
            atomic: AtomicBitmap::new(alloc, PAGES, NonZeroUsize::MIN)?,
            made: None,
            made_atomic: None,
            copied: None,
            slice: slice_of(alloc)?,
            slice_made: None,
            tracked: None,
            pages: None,
            words: None,
            half_words: None,
        };
        bitmaps.one.mark_dirty(60, 70);
        bitmaps.other.mark_dirty(3, 200);
        bitmaps.atomic.mark_dirty(3, 200);
        Ok(bitmaps)
    }

    // Tracks more bytes.
    fn enlarge(&mut self) -> Answer {
        if self.atomic.byte_size() > PAGES {
            return Answer::Other;
        }
        match self.atomic.enlarge(PAGES) {
            Ok(()) => Answer::Done,
            Err(_) => Answer::Refused,
        }
    }

    fn track(&mut self) -> Answer {
        match TrackedBitmap::new(self.alloc, PAGES, NonZeroUsize::MIN, 3) {
            Ok((bitmap, harvester, markers)) => {
                self.tracked = marked(bitmap, harvester, markers);
                Answer::Done
            }
            Err(_) => Answer::Refused,
        }
    }

    fn harvest_tracked(&mut self) -> Answer {
        let Some(tracked) = &mut self.tracked else {
            return Answer::Other;
        };
        match tracked
            .bitmap
            .get_and_reset(&mut tracked.harvester, self.alloc)
        {
            Ok(words) => {
                self.half_words = Some(words);
                Answer::Done
            }
            Err(_) => Answer::Refused,
        }
    }

    fn close(&mut self) -> Answer {
        let Some(tracked) = self.tracked.take() else {
            return Answer::Other;
        };
        let Tracked { bitmap, harvester } = tracked;
        match bitmap.close(harvester, self.alloc) {
            Ok(words) => {
                self.half_words = Some(words);
                Answer::Done
            }
            Err((bitmap, harvester)) => {
                self.tracked = Some(Tracked { bitmap, harvester });
                Answer::Refused
            }
        }
    }
}

// A bitmap that one of its markers marked.
fn marked(bitmap: TrackedBitmap, harvester: Harvester, mut markers: Vec<Marker>) -> Option<Tracked>
    requires own { harvester_table harvester ≡ table_of bitmap }
    requires markers { AreNew (table_of bitmap) markers.items }
{
    let mut harvester = harvester;
    let mut marker = markers.pop()?;
    bitmap.mark(&mut marker, 60, 70);
    bitmap.join(&mut harvester, marker);
    Some(Tracked { bitmap, harvester })
}

// The dirty pages of a bitmap.
fn push_pages<B: Bitmap>(text: &mut String, bitmap: &B) -> Result<(), AllocError> {
    for page in 0..2 * PAGES {
        if bitmap.dirty_at(page) {
            write!(text, " {page}")?;
        }
    }
    text.push('\n')
}

fn push_tracked(text: &mut String, tracked: &Option<Tracked>) -> Result<(), AllocError> {
    let Some(tracked) = tracked else {
        return text.push('-');
    };
    for page in 0..PAGES {
        if tracked.bitmap.glance(page) {
            write!(text, " {page}")?;
        }
    }
    text.push('\n')
}

impl Calls for Bitmaps {
    fn count(&self) -> usize {
        14
    }

    fn make(&mut self, number: usize) -> Answer {
        match number {
            0 => keep(
                ExclusiveBitmap::new(self.alloc, PAGES, NonZeroUsize::MIN),
                &mut self.made,
            ),
            1 => keep(
                AtomicBitmap::new(self.alloc, PAGES, NonZeroUsize::MIN),
                &mut self.made_atomic,
            ),
            2 => keep(self.one.dirty_pages(self.alloc), &mut self.pages),
            3 => keep(self.one.harvest(self.alloc), &mut self.pages),
            4 => keep(self.other.get_and_reset(self.alloc), &mut self.words),
            5 => keep(self.atomic.clone(), &mut self.copied),
            6 => self.enlarge(),
            7 => keep(self.atomic.get_and_reset(self.alloc), &mut self.words),
            8 => self.track(),
            9 => self.harvest_tracked(),
            10 => self.close(),
            11 => keep(
                ExclusiveBitmap::with_len(self.alloc, 0x100 * 0x1000),
                &mut self.made,
            ),
            12 => keep(
                AtomicBitmap::with_len(self.alloc, 0x100 * 0x1000),
                &mut self.made_atomic,
            ),
            13 => keep(self.slice.slice_at(30), &mut self.slice_made),
            _ => Answer::Other,
        }
    }

    fn seen(&mut self, _number: usize) -> Result<String, Fail> {
        let mut text = format!(in self.alloc;
            "{:?} {:?} {:?}\n{:?} {:?} {:?} {}\n",
            self.one,
            self.other,
            self.made,
            self.pages,
            self.words,
            self.half_words,
            self.atomic.byte_size()
        )?;
        push_pages(&mut text, &self.atomic)?;
        push_pages(&mut text, &self.made_atomic)?;
        push_pages(&mut text, &self.copied)?;
        push_pages(&mut text, &self.slice)?;
        push_pages(&mut text, &self.slice_made)?;
        push_tracked(&mut text, &self.tracked)?;
        Ok(text)
    }
}
