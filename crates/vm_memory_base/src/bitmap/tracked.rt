//! A bitmap that several threads mark while one harvests.
ghost use Rattle.std.specs.Prelude.{◌≡◌, ℕ, ◌+◌, ◌-◌, ◌/◌, ◌^◌, ◌<◌, ◌≤◌, ◌↔◌, [], false, length, IfOk, OnOk, OnErr};
ghost use Rattle.std.specs.Prelude.{Err};
ghost use Rattle.std.specs.NonZero.{non_zero_usize_get};
ghost use Rattle.std.specs.Int.{div_ceil};
ghost use Rattle.vm_memory_base.specs.Notes.{rounds_of};
ghost use Rattle.vm_memory_base.specs.Paging.{bytes_of, page_size_of, count_of};
ghost use Rattle.vm_memory_base.specs.Tracked as tracked;

mod marker_bitmap;
mod plays;
mod view;

pub use self::marker_bitmap::MarkerBitmap;
use self::plays::{Both, Counts, Deal, Harvests, Looks, Marks, Note, Rounds};
use self::view::View;
use super::paging::Paging;
use atomic_table::{Seat, Shared, Table};
use std::alloc::{AllocError, Global};
use std::num::NonZeroUsize;
use thiserror::Error;

/// Tracks the pages of a number of bytes, for several threads that mark them and one that harvests.
#[derive(Drop)]
pub struct TrackedBitmap {
    table: Table<(), View, usize, Rounds, Global>,
    paging: Paging,
    ghost fits: { (table.shared.key ≡ count_of paging)
        × (table.shared.table_id.words ≡ tracked.words_for (count_of paging))
        × (table.shared.table_id.slots ≡ 0) },
}

/// What a thread marks a `TrackedBitmap` with.
#[derive(Drop)]
pub struct Marker {
    seat: Seat<(), View>,
    ghost marks_only: { (seat.me.1 ≡ []) × (seat.me.0.harvests ≡ []) × (seat.me.0.markers ≡ 1) },
}

/// What a thread harvests a `TrackedBitmap` with. There is one.
#[derive(Drop)]
pub struct Harvester {
    seat: Seat<(), View>,
    round: u64,
    ghost harvests_all: { (seat.id ≡ 0) × (round < 2 ^ 32)
        × tracked.AreHarvested seat.table_id.words round seat.me.0.harvests
        × tracked.AreSeen seat.table_id.words round seat.me.0 },
}

/// Why no pages were harvested.
#[derive(Clone, Copy, Debug, PartialEq, Eq, Error)]
pub enum HarvestError {
    /// The allocation of the pages failed.
    #[error("out of memory")]
    Memory,
    /// Each word was harvested 2^32 - 1 times, and the number of its round has no next one.
    #[error("rounds spent")]
    RoundsSpent,
}

impl TrackedBitmap {
    ghost use Rattle.vm_memory_base.specs.Markers.{
      AreNew,
      paging_of,
      table_of,
      marker_table,
      harvester_table,
      known_to,
      known_by,
      harvests_of,
    };
    ghost use Rattle.vm_memory_base.specs.declared.bitmap.tracked.HarvestError.TheVariants.{RoundsSpent};

    /// A bitmap for `byte_size` bytes in pages of `page_size` bytes, the last of which may be cut. No page is set.
    /// Its harvester and the requested number of markers come with it. `AllocError` if an allocation fails.
    pub fn new(
        alloc: Global,
        byte_size: usize,
        page_size: NonZeroUsize,
        markers: usize,
    ) -> Result<(TrackedBitmap, Harvester, Vec<Marker>), AllocError>
        ensures pages { IfOk result (λ r. (bytes_of (paging_of r.0) ≡ byte_size)
            × (page_size_of (paging_of r.0) ≡ non_zero_usize_get page_size)) }
        ensures harvester { IfOk result (λ r. (harvester_table r.1 ≡ table_of r.0)
            × (known_by r.1 ≡ tracked.new_harvester (count_of (paging_of r.0)) markers)) }
        ensures markers { IfOk result (λ r. (length r.2.items ≡ markers)
            × AreNew (table_of r.0) r.2.items) }
    {
        let paging = Paging::new(byte_size, page_size);
        let count = paging.count();
        let words = count.div_ceil(32).max(1);
        let zeros = vec![in alloc; 0u64; words]?;
        let (table, mut seat) = Table::of_words(alloc, &zeros, &count)?;
        let markers = Marker::deal(alloc, &table.shared, &mut seat, markers)?;
        let bitmap = TrackedBitmap { table, paging };
        Ok((bitmap, Harvester { seat, round: 0 }, markers))
    }

    /// The number of pages.
    pub fn len(&self) -> usize
        ensures { result ≡ count_of (paging_of self.now) }
    {
        self.paging.count()
    }

    // Marks one page.
    fn mark_page(&self, marker: &mut Marker, page: usize)
        requires own { marker_table marker.old ≡ table_of self.now }
        requires inside { page < count_of (paging_of self.now) }
        ensures same { marker_table marker.new ≡ marker_table marker.old }
        ensures marks { tracked.MarksPage page (known_to marker.old) (known_to marker.new) }
    {
        self.table
            .shared
            .fetch_or::<Marks>(&mut marker.seat, page / 32, 1 << (page % 32));
    }

    /// Marks the pages of `len` bytes from `addr` on, ascending, each by one step, and none if `len` is 0. A range
    /// that passes 2^64 - 1 ends there, and what lies past the last page is left out. The marker has to be one of
    /// this bitmap's.
    pub fn mark(&self, marker: &mut Marker, addr: usize, len: usize)
        requires own { marker_table marker.old ≡ table_of self.now }
        ensures same { marker_table marker.new ≡ marker_table marker.old }
        ensures marks { tracked.MarksRange (paging_of self.now) addr len
            (known_to marker.old) (known_to marker.new) }
    {
        let (first, end) = self.paging.pages_in(addr, len);
        for page in first..end {
            self.mark_page(marker, page);
        }
    }

    /// Whether the page of the byte at `addr` is seen set, by one step. False past the last page. The marker has to
    /// be one of this bitmap's.
    pub fn is_addr_set(&self, marker: &mut Marker, addr: usize) -> bool
        requires own { marker_table marker.old ≡ table_of self.now }
        ensures same { marker_table marker.new ≡ marker_table marker.old }
        ensures sees { addr / page_size_of (paging_of self.now) < count_of (paging_of self.now)
            → tracked.Sees (addr / page_size_of (paging_of self.now)) (known_to marker.old) (known_to marker.new)
            result }
        ensures past { count_of (paging_of self.now) ≤ addr / page_size_of (paging_of self.now)
            → (result ≡ false) × (marker.new ≡ marker.old) }
    {
        let page = self.paging.page_of(addr);
        if page >= self.len() {
            return false;
        }
        self.look(marker, page)
    }

    // Whether a page is set.
    fn look(&self, marker: &mut Marker, page: usize) -> bool
        requires own { marker_table marker.old ≡ table_of self.now }
        requires inside { page < count_of (paging_of self.now) }
        ensures same { marker_table marker.new ≡ marker_table marker.old }
        ensures sees { tracked.Sees page (known_to marker.old) (known_to marker.new) result }
    {
        let found = self.table.shared.load::<Looks>(&mut marker.seat, page / 32);
        (set_pages(found) >> (page % 32)) & 1 == 1
    }

    /// Whether the page of the byte at `addr` was set at some moment. It takes no marker, and promises only that it is
    /// false past the last page.
    ///
    /// Leaves open: whether a page is set, except past the last one.
    pub fn glance(&self, addr: usize) -> bool
        ensures { count_of (paging_of self.now) ≤ addr / page_size_of (paging_of self.now) → result ≡ false }
    {
        let page = self.paging.page_of(addr);
        if page >= self.len() {
            return false;
        }
        (set_pages(self.table.shared.peek(page / 32)) >> (page % 32)) & 1 == 1
    }

    // Takes the pages of one word, and opens its next round.
    fn harvest_word(&self, seat: &mut Seat<(), View>, word: usize, round: u64) -> u32
        requires own { (seat.old.table_id, seat.old.me.0.count) ≡ table_of self.now }
        requires first { seat.old.id ≡ 0 }
        requires inside { word < (table_of self.now).0.words }
        requires round { (round ≡ length (rounds_of word seat.old.me.0.harvests)) × (round + 1 < 2 ^ 32) }
        ensures same { (seat.new.table_id ≡ seat.old.table_id) × (seat.new.id ≡ seat.old.id) }
        ensures takes { seat.new.me.0 ≡ tracked.after_harvest word round result seat.old.me.0 }
        ensures within { tracked.IsWordBelow (count_of (paging_of self.now)) word result }
    {
        let found = self
            .table
            .shared
            .swap::<Harvests>(seat, word, (round + 1) << 32);
        set_pages(found)
    }

    /// Takes the pages of every word, in order: page `n` is bit `n % 32` of number `n / 32`. One step takes a word
    /// and opens its next round. `RoundsSpent` if there is a word that was harvested 2^32 - 1 times, `Memory`
    /// if the allocation of the result fails, and then nothing changes. The harvester has to be this bitmap's.
    ///
    /// Leaves open: a failed allocation each time, also without pages, but not if the rounds are spent. Then the
    /// harvester is as before.
    pub fn get_and_reset(
        &self,
        harvester: &mut Harvester,
        alloc: Global,
    ) -> Result<Vec<u32>, HarvestError>
        requires own { harvester_table harvester.old ≡ table_of self.now }
        ensures same { harvester_table harvester.new ≡ harvester_table harvester.old }
        ensures taken { IfOk result (λ words. (length words.items ≡ div_ceil (count_of (paging_of self.now)) 32)
            × (known_by harvester.new
            ≡ tracked.after_harvests (harvests_of harvester.old) words.items (known_by harvester.old))) }
        ensures within { IfOk result (λ words. tracked.AreWordsBelow (count_of (paging_of self.now)) words.items) }
        ensures refused { OnErr result (harvester.new ≡ harvester.old) }
        ensures spent { (result ≡ Err RoundsSpent) ↔ ((0 < count_of (paging_of self.now))
            × (harvests_of harvester.old ≡ 2 ^ 32 - 1)) }
    {
        let words = self.len().div_ceil(32);
        if words == 0 {
            return Ok(Vec::new(alloc));
        }
        if harvester.round == 0xffff_ffff {
            return Err(HarvestError::RoundsSpent);
        }
        let Ok(mut pages) = vec![in alloc; 0u32; words] else {
            return Err(HarvestError::Memory);
        };
        self.harvest_words(&mut harvester.seat, &mut harvester.round, &mut pages);
        Ok(pages)
    }

    // Takes the pages of every word, in order.
    fn harvest_words(&self, seat: &mut Seat<(), View>, round: &mut u64, pages: &mut [u32])
        requires own { (seat.old.table_id, seat.old.me.0.count) ≡ table_of self.now }
        requires first { seat.old.id ≡ 0 }
        requires room { length pages.old ≡ (table_of self.now).0.words }
        requires rounds { (round.old + 1 < 2 ^ 32)
            × tracked.AreHarvested (table_of self.now).0.words round.old seat.old.me.0.harvests }
        ensures same { (seat.new.table_id ≡ seat.old.table_id) × (seat.new.id ≡ seat.old.id) }
        ensures room { length pages.new ≡ length pages.old }
        ensures takes { seat.new.me.0 ≡ tracked.after_harvests round.old pages.new seat.old.me.0 }
        ensures within { tracked.AreWordsBelow (count_of (paging_of self.now)) pages.new }
        ensures next { round.new ≡ round.old + 1 }
    {
        for word in 0..pages.len() {
            pages[word] = self.harvest_word(seat, word, *round);
        }
        *round += 1;
    }

    /// Hands what a marker knows to the harvester, which then has the notes of one marker more. Both have to be this
    /// bitmap's.
    pub fn join(&self, harvester: &mut Harvester, marker: Marker)
        requires own { (harvester_table harvester.old ≡ table_of self.now)
            × (marker_table marker ≡ table_of self.now) }
        ensures same { harvester_table harvester.new ≡ harvester_table harvester.old }
        ensures joins { known_by harvester.new ≡ tracked.both (known_by harvester.old) (known_to marker) }
        ensures counted { (known_by harvester.new).markers ≡ (known_by harvester.old).markers + 1 }
    {
        let Marker { seat } = marker;
        self.table
            .shared
            .join_seat::<Both>(&mut harvester.seat, seat);
    }

    /// Lets a marker meet the harvester. From then on the marker has seen each round that the harvester has reached.
    /// Both have to be this bitmap's.
    pub fn meet(&self, marker: &mut Marker, harvester: &mut Harvester)
        requires own { (marker_table marker.old ≡ table_of self.now)
            × (harvester_table harvester.old ≡ table_of self.now) }
        ensures same { (marker_table marker.new ≡ marker_table marker.old)
            × (harvester_table harvester.new ≡ harvester_table harvester.old) }
        ensures records { tracked.HasSameRecords (known_to marker.old) (known_to marker.new)
            × tracked.HasSameRecords (known_by harvester.old) (known_by harvester.new) }
        ensures seen { (word : ℕ) → word < div_ceil (count_of (paging_of self.now)) 32
            → tracked.seen_of word (known_to marker.new) ≡ length (rounds_of word (known_by harvester.new).harvests) }
    {
        self.tell(&mut marker.seat, &mut harvester.seat);
        self.table.shared.load::<Counts>(&mut harvester.seat, 0);
        self.tell(&mut harvester.seat, &mut marker.seat);
    }

    // Notes for one seat the rounds that another saw.
    #[inline]
    fn tell(&self, teller: &mut Seat<(), View>, hearer: &mut Seat<(), View>)
        requires own { (teller.old.table_id ≡ (table_of self.now).0)
            × (hearer.old.table_id ≡ (table_of self.now).0) }
        ensures tells { (teller.new.table_id ≡ teller.old.table_id) × (teller.new.id ≡ teller.old.id)
            × (teller.new.me ≡ teller.old.me) }
        ensures hears { (hearer.new.table_id ≡ hearer.old.table_id) × (hearer.new.id ≡ hearer.old.id)
            × (hearer.new.me
            ≡ (tracked.both hearer.old.me.0 (tracked.note_of teller.old.me.0), hearer.old.me.1)) }
    {
        let told = self.table.shared.split_seat::<Note>(teller);
        self.table.shared.join_seat::<Both>(hearer, told);
    }

    /// Ends the bitmap, and returns the pages that are set, as `get_and_reset` does. If each marker was joined before,
    /// these are pages that markers marked, and no others. If the allocation of the result fails, bitmap and harvester
    /// come back. The harvester has to be this bitmap's.
    ///
    /// Leaves open: pages that nobody marked, if a marker was dropped or is not joined yet: it may have marked them.
    /// And a failed allocation each time, also without pages, which gives harvester and bitmap back.
    pub fn close(
        self,
        harvester: Harvester,
        alloc: Global,
    ) -> Result<Vec<u32>, (TrackedBitmap, Harvester)>
        requires own { harvester_table harvester ≡ table_of self }
        ensures left { IfOk result (λ words. (length words.items ≡ div_ceil (count_of (paging_of self)) 32)
            × tracked.IsLeft (known_by harvester) words.items) }
        ensures marked { tracked.HasAllMarkers (known_by harvester)
            → IfOk result (λ words. tracked.WereMarked (known_by harvester) words.items) }
        ensures last { IfOk result (λ words. tracked.AreLastPages (count_of (paging_of self)) (known_by harvester)
            words.items) }
        ensures within { IfOk result (λ words. tracked.AreWordsBelow (count_of (paging_of self)) words.items) }
        ensures refused { OnErr result (result ≡ Err (self, harvester)) }
    {
        let words = self.len().div_ceil(32);
        let Ok(mut pages) = vec![in alloc; 0u32; words] else {
            return Err((self, harvester));
        };
        let TrackedBitmap { table, paging: _ } = self;
        let Harvester { seat, round: _ } = harvester;
        let closed = table.close_with(seat);
        for word in 0..words {
            pages[word] = set_pages(closed.word(word));
        }
        closed.free();
        Ok(pages)
    }
}

impl Marker {
    ghost use Rattle.vm_memory_base.specs.Markers.{AreNew};

    // As many markers as are asked for.
    fn deal(
        alloc: Global,
        shared: &Shared<(), View, usize, Rounds>,
        seat: &mut Seat<(), View>,
        count: usize,
    ) -> Result<Vec<Marker>, AllocError>
        requires own { seat.old.table_id ≡ shared.now.table_id }
        requires first { seat.old.id ≡ 0 }
        requires some { 0 < shared.now.table_id.words }
        ensures same { (seat.new.table_id ≡ seat.old.table_id) × (seat.new.id ≡ seat.old.id) }
        ensures dealt { OnOk result (seat.new.me ≡ (tracked.after_deals count seat.old.me.0, seat.old.me.1)) }
        ensures markers { IfOk result (λ markers. (length markers.items ≡ count)
            × AreNew (shared.now.table_id, seat.old.me.0.count) markers.items) }
    {
        let mut markers = Vec::with_capacity(alloc, count)?;
        for _ in 0..count {
            markers.push(Marker {
                seat: shared.split_seat::<Deal>(seat),
            })?;
        }
        Ok(markers)
    }
}

// The low half of a word.
fn set_pages(word: u64) -> u32
    ensures { result ≡ tracked.set_pages word }
{
    (word % (1 << 32)) as u32
}
