//! What holds of every step and every run of a machine: each function here is a theorem, and does nothing.
//! It calls the theorems that it follows from.
ghost use Rattle.std.specs.Prelude.{◌≡◌, ◌≢◌, Bool, false, ℕ, ◌^◌, ◌<◌, List, length, slice_get, slice_index, All};
ghost use Rattle.std.specs.Prelude.{Some};
ghost use Rattle.std.specs.Prelude.{◌+◌, ◌-◌, ◌++◌, ◌∷◌, [], slice_index_or, true, None, Contains, ◌/◌};
ghost use Rattle.vm_memory_base.specs.Address.{step};
ghost use Rattle.vm_memory_base.specs.Pages.{Pages, PageSet, is_dirty_at};
ghost use Rattle.vm_memory_base.specs.Permissions.{allow};
ghost use Rattle.vm_memory_base.specs.Table as table;
ghost use Rattle.vm_memory_base.specs.Table.{Table, TableEvent, says, says_after, says_after_all, covers};
ghost use Rattle.vm_memory_base.specs.declared.address.GuestAddress.{GuestAddress};
ghost use Rattle.vm_memory_base.specs.declared.bitmap.BitmapId.{BitmapId};
ghost use Rattle.vm_memory_base.specs.declared.bitmap.BitmapId.TheVariants.{Block};
ghost use Rattle.vm_memory_base.specs.declared.iotlb.Permissions.{Permissions};
ghost use Rattle.vm_memory_base.specs.declared.iotlb.Permissions.TheVariants as permissions;
ghost use Rattle.vm_memory_base.specs.declared.iotlb.lookup.IotlbFails.{IotlbFails};
ghost use Rattle.vm_memory_base.specs.declared.iotlb.lookup.MappedRange.{MappedRange};
ghost use Rattle.vm_memory_guest.specs.Access.{Reached};
ghost use Rattle.vm_memory_guest.specs.Copy.{dirtied_cells};
ghost use Rattle.vm_memory_guest.specs.Dirt.{pages_at};
ghost use Rattle.vm_memory_guest.specs.Host.{Cell, Host};
ghost use Rattle.vm_memory_guest.specs.Memory as guest;
ghost use Rattle.vm_memory_guest.specs.Memory.{Translation, behind_of};
ghost use Rattle.vm_memory_guest.specs.Region.{Backed, Region, cell, has_address};
ghost use Rattle.vm_memory_device.specs.Reach.{IsLast, GoesThrough};
ghost use Rattle.vm_memory.specs.History.{AnsweredIn, table_events};
ghost use Rattle.vm_memory.specs.Lawful.{IsLawful};
ghost use Rattle.vm_memory.specs.Commands.{MayWant};
ghost use Rattle.vm_memory.specs.Machine.{Step, Run};
ghost use Rattle.vm_memory.specs.Parts.{state_of};
ghost use Rattle.vm_memory_device.specs.Reach.{reached_by};
ghost use Rattle.vm_memory.specs.Reply.{is_partial};
ghost use Rattle.vm_memory.specs.Rounds.{MirrorsBlock, IsTracked, RunsDirectly, KeepsImage};
ghost use Rattle.vm_memory.specs.Rounds.{image_now, bytes_of_block, IsSynced};
ghost use Rattle.vm_memory.specs.State.{State};
ghost use Rattle.vm_memory.specs.declared.machine.command.Command.{Command};
ghost use Rattle.vm_memory.specs.declared.machine.command.Command.TheVariants as command;
ghost use Rattle.vm_memory.specs.declared.machine.command.Command.TheVariants.{Harvest};
ghost use Rattle.vm_memory.specs.declared.machine.command.Reply.{Reply};
ghost use Rattle.vm_memory.specs.declared.machine.command.Reply.TheVariants.{Bytes, Value, Truth, NoSuch};
ghost use Rattle.vm_memory.specs.declared.machine.command.Ending.{Ending};
ghost use Rattle.vm_memory.specs.declared.machine.command.Reply.TheVariants.{BadRange, Memory, Pieces, Fails, Sent};
ghost use Rattle.vm_memory.specs.declared.machine.command.Reply.TheVariants as reply;
ghost use Rattle.vm_memory.specs.declared.machine.command.Fault.{Fault};

use vm_memory_base::ExactBitmap;
use vm_memory_base::laws::pages::{cleaned_is_clean, dirty_pages_are_listed};
use vm_memory_base::laws::table::tables_keep_to_their_limits;
use vm_memory_device::Iommu;
use vm_memory_device::laws::tables::{
    accesses_go_through_what_calls_left, tables_say_what_calls_left,
};
use vm_memory_guest::GuestMemoryRegion;
use vm_memory_guest::laws::effects::{
    dirt_stays, named_pages_are_dirty, other_bytes_stay, path_writes_keep_shapes,
};
use vm_memory_guest::laws::regions::{layouts_pass_the_tests, one_region_holds_an_address};
use vm_memory_guest::laws::transfers::{
    refused_transfers_in_change_nothing, transfers_in_mark_what_they_change,
};

/// A command that is refused, or whose allocation fails, changes nothing, and neither does a read, a load, a transfer
/// to a sink, a check or a look-up. A write, a read or a transfer in of all bytes whose reply says how many fitted does
/// not count as refused here, and neither does a transfer whose source failed: bytes may have been written.
pub fn refusals_change_nothing()
    ensures fault { (old new : State) (c : Command) (f : Fault) → is_partial f ≡ false
        → Step old c (reply.Fault f) new → new ≡ old }
    ensures no_such { (old new : State) (c : Command) → Step old c NoSuch new → new ≡ old }
    ensures memory { (old new : State) (c : Command) → Step old c Memory new → new ≡ old }
    ensures read { (old new : State) (c : Command) (bytes : List ℕ) → Step old c (Bytes bytes) new
        → new ≡ old }
    ensures load { (old new : State) (c : Command) (value : ℕ) → Step old c (Value value) new → new ≡ old }
    ensures check { (old new : State) (c : Command) (truth : Bool) → Step old c (Truth truth) new → new ≡ old }
    ensures pieces { (old new : State) (c : Command) (pieces : List MappedRange) → Step old c (Pieces pieces) new
        → new ≡ old }
    ensures fails { (old new : State) (c : Command) (fails : IotlbFails) → Step old c (Fails fails) new
        → new ≡ old }
    ensures sent { (old new : State) (c : Command) (ending : Ending) (taken : List ℕ)
        → Step old c (Sent ending taken) new → new ≡ old }
    ensures bad_range { (old new : State) (c : Command) → Step old c BadRange new → new ≡ old }
{
    refused_transfers_in_change_nothing();
}

/// Every run keeps an image that mirrors a block which its bitmap covers: at each state of it, patched
/// by the harvests before, it mirrors the block. A copy of the block is such an image.
///
/// Witness: vm_memory::run
pub fn runs_keep_images()
    ensures copy { (block : ℕ) (host : Host PageSet) → MirrorsBlock block host (bytes_of_block block host) }
    ensures kept { (block : ℕ) (image : List ℕ) (old : State) (cs : List Command) (rs : List Reply)
        (new : State) (run : Run old cs rs new) → IsTracked block old.host
        → length (bytes_of_block block old.host) < 2 ^ 64 → RunsDirectly old cs rs new run
        → MirrorsBlock block old.host image
        → KeepsImage block image old cs rs new run }
    ensures unharvested { (block : ℕ) (image : List ℕ) (old : State) (cs : List Command) (rs : List Reply)
        (new : State) (run : Run old cs rs new) → IsTracked block old.host
        → length (bytes_of_block block old.host) < 2 ^ 64 → RunsDirectly old cs rs new run
        → All (λ (c : Command). c ≢ Harvest (Block block)) cs
        → MirrorsBlock block old.host image → MirrorsBlock block new.host image }
{
    dirty_pages_are_listed();
    cleaned_is_clean();
    other_bytes_stay();
    named_pages_are_dirty();
    dirt_stays();
    path_writes_keep_shapes();
    transfers_in_mark_what_they_change();
}

/// An image that mirrors a block is the block after the next `sync`, if no harvest took the pages of the
/// block's bitmap in between.
pub fn synced_images_are_the_block()
    ensures { (block : ℕ) (image synced : List ℕ) (old mid new : State) (cs : List Command) (rs : List Reply)
        (run : Run old cs rs mid) → IsTracked block old.host
        → length (bytes_of_block block old.host) < 2 ^ 64 → RunsDirectly old cs rs mid run
        → All (λ (c : Command). c ≢ Harvest (Block block)) cs
        → MirrorsBlock block old.host image → IsSynced block mid image new synced
        → synced ≡ bytes_of_block block new.host }
{
    runs_keep_images();
}

/// If an image mirrors a block, the reply to a read has the bytes of the image for those of the block that it
/// reaches, patched with the pages that are dirty then.
pub fn reads_are_of_the_image()
    ensures { (block : ℕ) (image : List ℕ) (old new : State) (memory : ℕ) (addr : GuestAddress) (n : ℕ)
        (bytes : List ℕ) (m : guest.Memory) (k : ℕ) (x : Reached) → MirrorsBlock block old.host image
        → Step old (command.Read memory addr n) (Bytes bytes) new → slice_get old.memories memory ≡ Some m
        → slice_get (reached_by m old.host.tables addr.0 n permissions.Read).path k ≡ Some x
        → x.cell.block ≡ block
        → slice_get bytes k ≡ Some (slice_index (image_now block old.host image) x.cell.offset) }
{}

/// Each command of a run gets its reply in the state that the commands before it left.
pub fn runs_go_on()
    ensures { (old new : State) (before after : List Command) (c : Command) (rs : List Reply)
        → Run old (before ++ c ∷ after) rs new → AnsweredIn old before c after rs new }
{}

/// Two runs of the same commands from the same state, without a reply `Memory`, give the same replies and
/// leave the same state.
pub fn ample_runs_agree()
    ensures { (old new again : State) (cs : List Command) (rs qs : List Reply) → Run old cs rs new
        → Run old cs qs again → All (λ (r : Reply). r ≢ Memory) rs → All (λ (r : Reply). r ≢ Memory) qs
        → (qs ≡ rs) × (again ≡ new) }
{}

/// After a run a table says of each address what the last call or eviction that covers it made of it, and, if none
/// covers it, what the table said before the run. No table is made or taken away.
pub fn tables_say_what_was_set_last()
    ensures all { (old new : State) (cs : List Command) (rs : List Reply) (number x : ℕ) (t : Table)
        → Run old cs rs new → slice_get old.host.tables number ≡ Some t → x < 2 ^ 64
        → (u : Table) × (slice_get new.host.tables number ≡ Some u)
        × (says u x ≡ says_after_all (table_events number t cs rs) x (says t x)) }
    ensures last { (old new : State) (cs : List Command) (rs : List Reply) (number x : ℕ) (t u : Table)
        (call : TableEvent) → Run old cs rs new → slice_get old.host.tables number ≡ Some t
        → slice_get new.host.tables number ≡ Some u → x < 2 ^ 64
        → IsLast x (table_events number t cs rs) call → says u x ≡ says_after call x None }
    ensures opening { (old new : State) (cs : List Command) (rs : List Reply) (number x : ℕ) (t u : Table)
        → Run old cs rs new → slice_get old.host.tables number ≡ Some t
        → slice_get new.host.tables number ≡ Some u → x < 2 ^ 64
        → All (λ call. covers call x ≡ false) (table_events number t cs rs) → says u x ≡ says t x }
    ensures count { (old new : State) (cs : List Command) (rs : List Reply) → Run old cs rs new
        → length new.host.tables ≡ length old.host.tables }
{
    tables_keep_to_their_limits();
    tables_say_what_calls_left();
    path_writes_keep_shapes();
    transfers_in_mark_what_they_change();
}

/// In the state that a run leaves, an access behind an IOMMU that is on reaches each byte through the mapping
/// that was set last for its address and not invalidated or evicted since. What the table said before the run counts
/// as set before it.
///
/// Witness: vm_memory::run
pub fn accesses_go_through_what_was_set_last()
    ensures all { (old now : State) (cs : List Command) (rs : List Reply) (m : guest.Memory) (b : Translation)
        (t : Table) (a n i : ℕ) (access : Permissions) (x : Reached) → Run old cs rs now
        → behind_of m.iommu ≡ Some b → slice_get old.host.tables b.table ≡ Some t
        → slice_get (reached_by m now.host.tables a n access).path i ≡ Some x
        → GoesThrough m.regions (a + i) (says_after_all (table_events b.table t cs rs) (a + i) (says t (a + i)))
        access x }
    ensures set { (old now : State) (cs : List Command) (rs : List Reply) (m : guest.Memory) (b : Translation)
        (t : Table) (a n i iova to len : ℕ) (access perm : Permissions) (x : Reached) → Run old cs rs now
        → behind_of m.iommu ≡ Some b → slice_get old.host.tables b.table ≡ Some t
        → slice_get (reached_by m now.host.tables a n access).path i ≡ Some x
        → IsLast (a + i) (table_events b.table t cs rs) (table.Set iova to len perm)
        → (allow perm access ≡ true) × (cell m.regions (step to (a + i - iova)) ≡ Backed x.region x.cell) }
    ensures invalidated { (old now : State) (cs : List Command) (rs : List Reply) (m : guest.Memory) (b : Translation)
        (t : Table) (a n i : ℕ) (access : Permissions) (x : Reached) (call : TableEvent) → Run old cs rs now
        → behind_of m.iommu ≡ Some b → slice_get old.host.tables b.table ≡ Some t
        → slice_get (reached_by m now.host.tables a n access).path i ≡ Some x
        → IsLast (a + i) (table_events b.table t cs rs) call → says_after call (a + i) None ≡ None → ⊥ }
    ensures opening { (old now : State) (cs : List Command) (rs : List Reply) (m : guest.Memory) (b : Translation)
        (t : Table) (a n i : ℕ) (access : Permissions) (x : Reached) → Run old cs rs now
        → behind_of m.iommu ≡ Some b → slice_get old.host.tables b.table ≡ Some t
        → slice_get (reached_by m now.host.tables a n access).path i ≡ Some x
        → All (λ call. covers call (a + i) ≡ false) (table_events b.table t cs rs)
        → GoesThrough m.regions (a + i) (says t (a + i)) access x }
{
    accesses_go_through_what_calls_left();
    path_writes_keep_shapes();
    transfers_in_mark_what_they_change();
}

/// The reply to a command is `Memory` only if `MayWant` allows it.
pub fn memory_is_wanted_only_where_it_may_be()
    ensures { (old new : State) (c : Command) → Step old c Memory new → MayWant old c }
{
    refused_transfers_in_change_nothing();
}

/// A new machine is lawful: it has no layouts and no memories, and each of its regions fits.
pub fn new_machines_are_lawful<R: GuestMemoryRegion, I: Iommu, B: ExactBitmap>()
    ensures { (host : Host B) (regions : List R) (translators : List I)
        → IsLawful (state_of R.region I.number B.pages (record {
          host = host;
          regions = regions;
          translators = translators;
          layouts = [];
          memories = [];
        })) }
{}

/// A run keeps the layouts of a machine layouts, and so the regions of its memories, and so does `sync`. At most one
/// region of a memory has an address.
///
/// Witness: vm_memory::run
pub fn runs_keep_layouts()
    ensures kept { (old new : State) (cs : List Command) (rs : List Reply) → IsLawful old → Run old cs rs new
        → IsLawful new }
    ensures synced { (block : ℕ) (image synced : List ℕ) (old new : State) → IsLawful old
        → IsSynced block old image new synced → IsLawful new }
    ensures one_region { (s : State) (m : guest.Memory) (memory a i j : ℕ) (d : Region) → IsLawful s
        → slice_get s.memories memory ≡ Some m → i < length m.regions → j < length m.regions
        → has_address (slice_index_or m.regions i d) a ≡ true
        → has_address (slice_index_or m.regions j d) a ≡ true → i ≡ j }
{
    layouts_pass_the_tests();
    one_region_holds_an_address();
}

/// Marks of bytes that a machine did not write change only the bitmaps of blocks: no byte, no space and no table. They
/// make no page clean, and the page of each byte dirty, if there is one.
pub fn marks_change_bitmaps_alone()
    ensures rest { (cells : List Cell) (host : Host PageSet)
        → dirtied_cells cells host ≡ record host { bitmaps = (dirtied_cells cells host).bitmaps } }
    ensures stays { (cells : List Cell) (id : BitmapId) (offset : ℕ) (host : Host PageSet)
        → is_dirty_at (pages_at id host) offset ≡ true
        → is_dirty_at (pages_at id (dirtied_cells cells host)) offset ≡ true }
    ensures dirty { (cells : List Cell) (c : Cell) (host : Host PageSet) (p : Pages) → Contains cells c
        → c.offset < 2 ^ 64 → pages_at (Block c.block) host ≡ Some p → c.offset / p.page_size < length p.flags
        → is_dirty_at (pages_at (Block c.block) (dirtied_cells cells host)) c.offset ≡ true }
{
    dirt_stays();
    named_pages_are_dirty();
}
