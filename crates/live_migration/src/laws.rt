//! What becomes of the pages of a migration: each function here is a theorem, and does nothing.
ghost use Rattle.std.specs.Prelude.{◌≡◌, ◌+◌, ◌*◌, ◌^◌, ◌<◌, ◌≤◌, ◌⊎◌, ℕ, Bool, List, [], ◌∷◌, ◌++◌, Option, Some, All};
ghost use Rattle.std.specs.Prelude.{Contains, true, length, flat_map, slice_get};
ghost use Rattle.std.specs.Io.KnownBytes.{Appends};
ghost use Rattle.std.specs.List.{AllByRecursion};
ghost use Rattle.live_migration.specs.Calls.{Call, DoAll, EndsPaused, HasBegun, Moment, ReadsAll};
ghost use Rattle.live_migration.specs.Frame.{Go, IsMessage, Message, spelling};
ghost use Rattle.live_migration.specs.Header.{IsHeader, header_bytes};
ghost use Rattle.live_migration.specs.declared.header.BlockEntry.{BlockEntry};
ghost use Rattle.live_migration.specs.Following.{Follows};
ghost use Rattle.live_migration.specs.declared.sender.pages.Target.{Target};
ghost use Rattle.live_migration.specs.Receiving.{ReceivesAll, TakesFrame};
ghost use Rattle.live_migration.specs.Sending.{AreMarkedAgain, IsAsItWas};
ghost use Rattle.live_migration.specs.Words.{noted, pages_set};
ghost use Rattle.live_migration.specs.Writing.{MarksItsBlock};
ghost use Rattle.live_migration.specs.declared.receiver.progress.Progress.{Progress};
ghost use Rattle.vm_memory_base.specs.Markers.{known_by};
ghost use Rattle.vm_memory_base.specs.Notes.{IsNoted};
ghost use Rattle.vm_memory_base.specs.Table.{Table};
ghost use Rattle.vm_memory_base.specs.Tracked.{IsLeft, after_harvests};
ghost use Rattle.vm_memory_base.specs.declared.bitmap.tracked.Harvester.{Harvester};
ghost use Rattle.vm_memory_base.specs.declared.iotlb.Permissions.{Permissions};
ghost use Rattle.vm_memory_guest.specs.Access.{access_of};
ghost use Rattle.vm_memory_base.specs.Pages.{is_dirty_at};
ghost use Rattle.vm_memory_base.specs.declared.bitmap.BitmapId.{BitmapId};
ghost use Rattle.vm_memory_guest.specs.Dirt.{pages_at, with_pages};
ghost use Rattle.vm_memory_guest.specs.Host.{Host, block_at};
ghost use Rattle.vm_memory_guest.specs.Lent.{IsDirty, MarksChanges};
ghost use Rattle.vm_memory_guest.specs.Memory.{IsOn, Memory, route};
ghost use Rattle.vm_memory_guest.specs.Region.{IsRegion};
ghost use Rattle.vm_memory_guest.specs.Typed.{given, place_of};
ghost use Rattle.vm_memory_guest.specs.Walk.{reached};
ghost use Rattle.vm_memory_guest.specs.Window.{Window, Writes, block_window, part};
ghost use Rattle.live_migration.specs.Rounds.{Ends, Event, AllMay, IsBeginning, IsKept, story};

use vm_memory_base::laws::pages::{
    dirty_pages_are_listed, mark_is_by_bytes, mark_keeps_shape, marked_bytes_are_dirty,
};
use vm_memory_base::{Bitmap, ExactBitmap};

/// After any harvests, copies, sends, round ends and writes that mark what they change, in any order, no page of a
/// block is lost: it is dirty or due to the first harvest, or waits to be copied, or waits to be sent, or is equal at
/// both ends.
///
/// Witness: tests_migration::send_rounds
pub fn no_page_is_lost()
    ensures { (events : List Event) (s : Ends) → IsBeginning s → AllMay events s
        → let t = story events s in (block page : ℕ) → block < t.count → IsKept t block page }
{
    dirty_pages_are_listed();
}

/// A stream means one thing: the frames of a stream are decided by its bytes, and so are the options and the blocks of
/// a header, and what comes after it.
///
/// Witness: tests_migration::receive_twice
pub fn streams_mean_one_thing()
    ensures frames { (ms ns : List Message) → AllByRecursion IsMessage ms → AllByRecursion IsMessage ns
        → flat_map spelling ms ≡ flat_map spelling ns → ms ≡ ns }
    ensures header { (limit most : ℕ) (d e : Bool) (es fs : List BlockEntry) (x y : List ℕ) → IsHeader limit es
        → IsHeader most fs → header_bytes d es ++ x ≡ header_bytes e fs ++ y → (d ≡ e) × (es ≡ fs) × (x ≡ y) }
{}

/// A write of a host with exact bitmaps marks what it changes: what `Bytes::write` and its kin write, and what a window
/// of a host gets. Windows that physical addresses reach mark their own block, as do those of a block,
/// and their parts. Behind an IOMMU that is on they mark a space, and leave the block's bitmap as it is.
///
/// Witness: tests_migration::write_bytes, tests_migration::store_number, tests_migration::write_second
pub fn writes_mark_what_they_change<B: ExactBitmap>()
    ensures changes { (ws : List Window) (bytes : List ℕ) (old new : Host B) → Writes B.marks ws bytes old new
        → MarksChanges ws (with_pages B.pages old) (with_pages B.pages new) }
    ensures accesses { (memory : Memory) (tables : List Table) (a n : ℕ) (access : Permissions)
        → All IsRegion memory.regions → (IsOn memory → ⊥)
        → All MarksItsBlock (reached memory tables a n access).windows }
    ensures stores { (memory : Memory) (tables : List Table) (a n : ℕ) (access : Permissions)
        → All IsRegion memory.regions → (IsOn memory → ⊥)
        → All MarksItsBlock (given (place_of n (access_of memory.regions (route memory tables) a n access))) }
    ensures blocks { (block offset size : ℕ) → offset + size ≤ 2 ^ 64
        → MarksItsBlock (block_window block offset size) }
    ensures parts { (w : Window) (offset len : ℕ) → MarksItsBlock w → 0 < len → offset + len ≤ w.size
        → MarksItsBlock (part w offset len) }
{
    mark_is_by_bytes();
    mark_keeps_shape();
    marked_bytes_are_dirty();
}

/// What a sender sends, its receiver has. A sender begins on an empty stream. Then come any calls that
/// succeed, or are refused and leave the stream, and any writes that mark what they change. There are events that may
/// come by which the sender does as the rounds say, and once go is sent, a receiver that reads the whole stream has of
/// each block the image of the rounds. If the guest was paused for a last round, both ends have the same blocks.
///
/// Witness: tests_migration::send_rounds, tests_migration::send_whole
pub fn receivers_have_what_was_sent<B: ExactBitmap, C: Bitmap>()
    ensures rounds { (calls : List Call) (first last : Moment B) → HasBegun B.pages first
        → DoAll B.pages calls first last
        → (s : Ends) × (events : List Event) × IsBeginning s × AllMay events s
        × Follows B.pages last.sender.rounds last.host (story events s)
        × ((sent : Option (List ℕ)) (p : Progress) (next : Host C) → Appends last.stream sent (spelling Go)
        → ReadsAll C.made C.marks sent p next
        → (j : ℕ) (t : Target) → slice_get last.sender.rounds.targets.items j ≡ Some t
        → block_at next.blocks (p.base + j) ≡ (story events s).images j) }
    ensures equal { (first last : Moment B) (sent : Option (List ℕ)) (p : Progress) (next : Host C)
        → HasBegun B.pages first → EndsPaused B.pages first last → Appends last.stream sent (spelling Go)
        → ReadsAll C.made C.marks sent p next
        → (j : ℕ) (t : Target) → slice_get last.sender.rounds.targets.items j ≡ Some t
        → block_at next.blocks (p.base + j) ≡ block_at last.host.blocks t.block.0 }
{
    dirty_pages_are_listed();
}

/// How calls of a sender are put together for the theorem above.
///
/// Witness: tests_migration::send_rounds
pub fn calls_add_up<B: ExactBitmap>()
    ensures { (calls more : List Call) (first mid last : Moment B) → DoAll B.pages calls first mid
        → DoAll B.pages more mid last → DoAll B.pages (calls ++ more) first last }
{}

/// How frames that a receiver takes one by one are put together: nothing at first, and then one more.
///
/// Witness: tests_migration::take_all
pub fn frames_add_up<C: Bitmap>()
    ensures none { (stream : Option (List ℕ)) (base : ℕ) (entries : List BlockEntry) (host : Host C)
        → ReceivesAll C.marks stream stream base entries host host }
    ensures more { (before mid after : Option (List ℕ)) (base : ℕ) (entries : List BlockEntry) (old new : Progress)
        (host there next : Host C) → old.base ≡ base → old.entries.items ≡ entries
        → ReceivesAll C.marks before mid base entries host there → TakesFrame C.marks mid after old new there next
        → ReceivesAll C.marks before after base entries host next }
{}

/// What `abort` leaves: each byte of each block whose pages were harvested is dirty, if the host still has the block
/// as it was. No byte changed, and no page is clean that was dirty. So a migration that failed loses no page.
///
/// Witness: tests_migration::abort_early
pub fn aborted_rounds_lose_no_page<B: ExactBitmap>()
    ensures { (ts : List Target) (old new : Host B) → AreMarkedAgain B.pages ts old new
        → (new.blocks ≡ old.blocks)
        × ((id : BitmapId) (offset : ℕ) → is_dirty_at (pages_at id (with_pages B.pages old)) offset ≡ true
        → is_dirty_at (pages_at id (with_pages B.pages new)) offset ≡ true)
        × ((j : ℕ) (t : Target) → slice_get ts j ≡ Some t → IsAsItWas t old → (k : ℕ) → k < t.entry.len
        → IsDirty (BitmapId.Block t.block.0) k (with_pages B.pages new)) }
{
    mark_keeps_shape();
    marked_bytes_are_dirty();
}

/// A page that the harvester of a `TrackedBitmap` knows to be marked or seen set was harvested in its round, and waits
/// to be copied, if the words of this harvest are taken. Or it is among those that `close` leaves, for the last
/// round. A harvest adds its words to those that are known, and no other call does.
///
/// Witness: tests_migration::harvest_and_close
pub fn marks_are_harvested_or_left()
    ensures kept { (harvester : Harvester) (harvests : List (ℕ × List ℕ)) (left : List ℕ) (count word round page : ℕ)
        → (known_by harvester).harvests ≡ noted harvests → IsLeft (known_by harvester) left
        → IsNoted word round page (known_by harvester).marks ⊎ IsNoted word round page (known_by harvester).sightings
        → word < length left → page < 32 → 32 * word + page < count
        → ((words : List ℕ) × Contains harvests (round, words) × Contains (pages_set count words) (32 * word + page))
        ⊎ Contains (pages_set count left) (32 * word + page) }
    ensures more { (old new : Harvester) (harvests : List (ℕ × List ℕ)) (round : ℕ) (words : List ℕ)
        → (known_by old).harvests ≡ noted harvests → known_by new ≡ after_harvests round words (known_by old)
        → (known_by new).harvests ≡ noted ((round, words) ∷ harvests) }
{}
