//! What a machine replies and leaves in small cases: each function here is a theorem, and does nothing.
#![tactic(auto, unfolding(vm_memory_base::specs::Runs::runs, vm_memory_base::specs::Table::each, vm_memory_base::specs::Transfer::again_upto, vm_memory_base::specs::Transfer::rest_of, vm_memory_guest::specs::Access::path, vm_memory_guest::specs::Access::first_fault, vm_memory_guest::specs::Access::stretches, vm_memory_guest::specs::Dealt::in_order, vm_memory_guest::specs::Walk::IsSplit))]

ghost use Rattle.std.specs.Prelude.{◌≡◌, ℕ, ◌-◌, ◌^◌, [], ◌∷◌, ◌++◌, None, true, false};
ghost use Rattle.vm_memory_base.specs.Lookup.{mapped_ranges};
ghost use Rattle.vm_memory_base.specs.Pages.{PageSet};
ghost use Rattle.std.specs.declared.io.ErrorKind.TheVariants.{Other, WriteZero};
ghost use Rattle.vm_memory_base.specs.Table as table;
ghost use Rattle.vm_memory_base.specs.declared.bitmap.BitmapId.TheVariants.{Block, Space};
ghost use Rattle.vm_memory_base.specs.declared.io.scripted.SinkStep.TheVariants as sink;
ghost use Rattle.vm_memory_base.specs.declared.io.scripted.SourceStep.TheVariants.{Give};
ghost use Rattle.vm_memory_base.specs.declared.io.scripted.SourceStep.TheVariants as source;
ghost use Rattle.vm_memory_base.specs.declared.iotlb.Permissions.TheVariants.{No};
ghost use Rattle.vm_memory_base.specs.declared.iotlb.Permissions.TheVariants as permissions;
ghost use Rattle.vm_memory_base.specs.declared.iotlb.Reason.TheVariants.{MissingMapping, AccessNotAllowed};
ghost use Rattle.vm_memory_guest.specs.Region.{Region};
ghost use Rattle.vm_memory_guest.specs.declared.region.error.GuestMemoryError.TheVariants as errors;
ghost use Rattle.vm_memory_guest.specs.declared.region.error.GuestRegionCollectionError.TheVariants as layouts;
ghost use Rattle.vm_memory.specs.examples.Fixtures.{at, low, high, unbacked, block_pages, space_pages, host, machine};
ghost use Rattle.vm_memory.specs.examples.Fixtures.{translated_memory};
ghost use Rattle.vm_memory.specs.examples.Fixtures.{marked_host, marked_machine, range, failed, two_bytes, four_bytes};
ghost use Rattle.vm_memory.specs.examples.Fixtures.{with_bytes, with_translated_bytes, no_region_at, not_translated};
ghost use Rattle.vm_memory.specs.examples.Fixtures.{in_block};
ghost use Rattle.vm_memory.specs.History.{table_calls};
ghost use Rattle.vm_memory.specs.Commands.{MayWant};
ghost use Rattle.vm_memory.specs.Machine.{outcome, Step, Run};
ghost use Rattle.vm_memory.specs.Parts.{AreHeld, HoldsMemory, state_of};
ghost use Rattle.vm_memory.specs.Reply.{reply_of_error, reply_of_layout_error};
ghost use Rattle.vm_memory_guest.specs.Patch.{patched};
ghost use Rattle.vm_memory.specs.Rounds.{image_after, MirrorsBlock, IsTracked, IsDirect};
ghost use Rattle.vm_memory_device.specs.Iommu.{behind};
ghost use Rattle.vm_memory_device.specs.Memories.{plain};
ghost use Rattle.vm_memory_device.specs.declared.machine_memory.MachineMemory.TheVariants as memory;
ghost use Rattle.vm_memory.specs.declared.machine.command.Command.TheVariants.{FromRegions, Insert, Remove, ReadSlice};
ghost use Rattle.vm_memory.specs.declared.machine.command.Command.TheVariants.{WriteSlice};
ghost use Rattle.vm_memory.specs.declared.machine.command.Command.TheVariants.{NewMemory, ReplaceBackend, Enable};
ghost use Rattle.vm_memory.specs.declared.machine.command.Command.TheVariants.{Plain, Read, Write, Store, Load};
ghost use Rattle.vm_memory.specs.declared.machine.command.Command.TheVariants.{Copy, Dirty, Harvest};
ghost use Rattle.vm_memory.specs.declared.machine.command.Command.TheVariants.{CheckRange, Set, InvalidateAll};
ghost use Rattle.vm_memory.specs.declared.machine.command.Command.TheVariants.{Lookup, ReadFrom, ReadExactFrom};
ghost use Rattle.vm_memory.specs.declared.machine.command.Command.TheVariants.{Invalidate, WriteTo, WriteAllTo};
ghost use Rattle.vm_memory.specs.declared.machine.command.Ending.TheVariants as ending;
ghost use Rattle.vm_memory.specs.declared.machine.command.Reply.TheVariants.{Layout, MemoryMade, Count, Bytes, Pages};
ghost use Rattle.vm_memory.specs.declared.machine.command.Reply.TheVariants.{Fault, NoSuch, Memory, Truth};
ghost use Rattle.vm_memory.specs.declared.machine.command.Reply.TheVariants.{Done, Value, BadRange, Pieces, Fails};
ghost use Rattle.vm_memory.specs.declared.machine.command.Reply.TheVariants.{Sent};
ghost use Rattle.vm_memory.specs.declared.machine.command.Width.TheVariants.{One, Two, Four, Eight};
ghost use Rattle.vm_memory.specs.declared.machine.command.Fault.TheVariants as fault;

/// A layout of regions of the pool, or with one region more or less, is a new one, and the one before it stays; it
/// may be left without a region. A memory has the regions of its layout and is a new one. One over another layout has
/// the IOMMU of the memory that it is made of, and only the IOMMU of the memory that is named is turned on or off.
pub fn layouts_and_memories_are_made()
    ensures made { outcome machine (FromRegions (1 ∷ 2 ∷ []))
        ≡ (Layout 1, record machine { layouts = (low ∷ high ∷ []) ∷ (high ∷ unbacked ∷ []) ∷ [] }) }
    ensures removed { outcome machine (Remove 0 (at 0) 4)
        ≡ (Layout 1, record machine { layouts = (low ∷ high ∷ []) ∷ (high ∷ []) ∷ [] }) }
    ensures other_length { outcome machine (Remove 0 (at 0) 2) ≡ (Fault fault.NoMemoryRegion, machine) }
    ensures none_left { outcome (record machine { layouts = (low ∷ []) ∷ [] }) (Remove 0 (at 0) 4)
        ≡ (Layout 1, record machine { layouts = (low ∷ []) ∷ [] ∷ [] }) }
    ensures into_none { outcome (record machine { layouts = [] ∷ [] }) (Insert 0 1)
        ≡ (Layout 1, record machine { layouts = [] ∷ (high ∷ []) ∷ [] }) }
    ensures plain { outcome machine (Plain 0)
        ≡ (MemoryMade 3, record machine { memories = machine.memories ++ plain (low ∷ high ∷ []) ∷ [] }) }
    ensures behind_an_iommu { outcome machine (NewMemory 0 0 0 true)
        ≡ (MemoryMade 3, record machine { memories = machine.memories ++ translated_memory true ∷ [] }) }
    ensures replaced { let more = record machine { layouts = machine.layouts ++ (unbacked ∷ []) ∷ [] } in
        outcome more (ReplaceBackend 1 1)
        ≡ (MemoryMade 3, record more { memories = machine.memories ++ behind (unbacked ∷ []) 0 0 true ∷ [] }) }
    ensures replace_of_plain { outcome machine (ReplaceBackend 0 0) ≡ (NoSuch, machine) }
    ensures turned_off { outcome machine (Enable 1 false)
        ≡ (
          Done,
          record machine {
            memories = plain (low ∷ high ∷ unbacked ∷ []) ∷ translated_memory false ∷ translated_memory false ∷ [];
          },
        ) }
    ensures turn_of_plain { outcome machine (Enable 0 true) ≡ (NoSuch, machine) }
{}

/// Reads and writes go over touching regions, and stop at a hole and at a region without host bytes; for no bytes they
/// are not an error. A write marks the pages of its bytes in their blocks. With an IOMMU that is on it goes where its
/// addresses are mapped and marks the space, and if one address has no mapping that grants the access, nothing is
/// reached. If it is off, it is as if there were none.
pub fn bytes_are_answered()
    ensures up_to_a_hole { outcome machine (Read 0 (at 6) 4) ≡ (Bytes (7 ∷ 8 ∷ []), machine) }
    ensures bare_region { outcome machine (Read 0 (at 12) 1) ≡ (Fault fault.HostAddressNotAvailable, machine) }
    ensures nothing_in_a_hole { outcome machine (Read 0 (at 8) 0) ≡ (Bytes [], machine) }
    ensures whole_read_to_a_hole { outcome machine (ReadSlice 0 (at 6) 4) ≡ (Fault (fault.PartialBuffer 4 2), machine) }
    ensures write_over_two_regions { outcome machine (Write 0 (at 3) (9 ∷ 10 ∷ []))
        ≡ (
          Count 2,
          with_bytes (1 ∷ 2 ∷ 3 ∷ 9 ∷ []) (10 ∷ 6 ∷ 7 ∷ 8 ∷ []) (block_pages false true) (block_pages true false),
        ) }
    ensures write_in_a_hole { outcome machine (Write 0 (at 8) (9 ∷ [])) ≡ (Fault (no_region_at 8), machine) }
    ensures whole_write_to_a_hole { outcome machine (WriteSlice 0 (at 7) (9 ∷ 10 ∷ []))
        ≡ (
          Fault (fault.PartialBuffer 2 1),
          with_bytes (1 ∷ 2 ∷ 3 ∷ 4 ∷ []) (5 ∷ 6 ∷ 7 ∷ 9 ∷ []) (block_pages false false) (block_pages false true),
        ) }
    ensures translated_read { outcome machine (Read 1 (at 18) 4) ≡ (Bytes (5 ∷ 6 ∷ 5 ∷ 6 ∷ []), machine) }
    ensures translated_write { outcome machine (Write 1 (at 16) (9 ∷ []))
        ≡ (Count 1, with_translated_bytes (1 ∷ 2 ∷ 9 ∷ 4 ∷ []) (5 ∷ 6 ∷ 7 ∷ 8 ∷ [])) }
    ensures not_mapped { outcome machine (Read 1 (at 2) 1)
        ≡ (Fault (not_translated 2 1 MissingMapping), machine) }
    ensures not_allowed { outcome machine (Write 1 (at 19) (9 ∷ 9 ∷ []))
        ≡ (Fault (not_translated 19 2 AccessNotAllowed), machine) }
    ensures write_that_is_off { outcome machine (Write 2 (at 2) (9 ∷ []))
        ≡ (
          Count 1,
          with_bytes (1 ∷ 2 ∷ 9 ∷ 4 ∷ []) (5 ∷ 6 ∷ 7 ∷ 8 ∷ []) (block_pages false true) (block_pages false false),
        ) }
{}

/// A store leaves the bytes of its value, the lowest first, and marks their pages. A value is stored and loaded at a
/// place of its block that is a multiple of its width, in one region and through one mapping. A copy moves the bytes
/// of the shorter window, as they were, and is refused if a window passes its block.
pub fn values_and_copies_are_answered()
    ensures store { outcome machine (Store 0 Two (at 2) (two_bytes 9 10))
        ≡ (
          Done,
          with_bytes (1 ∷ 2 ∷ 9 ∷ 10 ∷ []) (5 ∷ 6 ∷ 7 ∷ 8 ∷ []) (block_pages false true) (block_pages false false),
        ) }
    ensures misaligned { outcome machine (Store 0 Two (at 1) 9) ≡ (Fault fault.InvalidBackendAddress, machine) }
    ensures over_two_regions { outcome machine (Store 0 Eight (at 0) 9)
        ≡ (Fault fault.InvalidBackendAddress, machine) }
    ensures too_great { outcome machine (Store 0 One (at 8) 256) ≡ (BadRange, machine) }
    ensures translated_store { outcome machine (Store 1 Two (at 16) (two_bytes 9 10))
        ≡ (Done, with_translated_bytes (1 ∷ 2 ∷ 9 ∷ 10 ∷ []) (5 ∷ 6 ∷ 7 ∷ 8 ∷ [])) }
    ensures load { outcome machine (Load 0 Four (at 4)) ≡ (Value (four_bytes 5 6 7 8), machine) }
    ensures translated_load { outcome machine (Load 1 Four (at 20)) ≡ (Value (four_bytes 5 6 7 8), machine) }
    ensures two_mappings { outcome machine (Load 1 Two (at 19)) ≡ (Fault fault.InvalidBackendAddress, machine) }
    ensures overlapping { outcome machine (Copy (in_block 0 0 3) (in_block 0 1 3))
        ≡ (
          Done,
          with_bytes (1 ∷ 1 ∷ 2 ∷ 3 ∷ []) (5 ∷ 6 ∷ 7 ∷ 8 ∷ []) (block_pages true true) (block_pages false false),
        ) }
    ensures lesser_length { outcome machine (Copy (in_block 0 2 2) (in_block 1 0 4))
        ≡ (
          Done,
          with_bytes (1 ∷ 2 ∷ 3 ∷ 4 ∷ []) (3 ∷ 4 ∷ 7 ∷ 8 ∷ []) (block_pages false false) (block_pages true false),
        ) }
    ensures nothing { outcome machine (Copy (in_block 0 4 0) (in_block 1 0 4)) ≡ (Done, machine) }
    ensures past_the_end { outcome machine (Copy (in_block 0 3 2) (in_block 1 0 4)) ≡ (BadRange, machine) }
{}

/// A check replies whether each byte of a range may be accessed so and is there. A look-up replies its pieces, or
/// what is not mapped and what is mapped without the access. Neither changes anything. A change of a table goes no
/// further than the last address.
pub fn checks_and_tables_are_answered()
    ensures check_into_a_hole { outcome machine (CheckRange 0 (at 6) 4 permissions.Read) ≡ (Truth false, machine) }
    ensures check_of_a_bare_region { outcome machine (CheckRange 0 (at 12) 1 No) ≡ (Truth false, machine) }
    ensures empty_check_in_a_hole { outcome machine (CheckRange 0 (at 8) 0 permissions.Read) ≡ (Truth true, machine) }
    ensures check_not_allowed { outcome machine (CheckRange 1 (at 19) 2 permissions.Write) ≡ (Truth false, machine) }
    ensures pieces { outcome machine (Lookup 0 (at 18) 4 permissions.Read)
        ≡ (Pieces (mapped_ranges (range 4 2 ∷ range 4 2 ∷ [])), machine) }
    ensures no_piece { outcome machine (Lookup 0 (at 2) 0 permissions.Write) ≡ (Pieces [], machine) }
    ensures fails { outcome machine (Lookup 0 (at 15) 6 permissions.Write)
        ≡ (Fails (failed (range 15 1 ∷ []) (range 20 1 ∷ [])), machine) }
    ensures past_the_end { outcome machine (Lookup 0 (at (2 ^ 64 - 1)) 1 No)
        ≡ (Fails (failed (range (2 ^ 64 - 1) 1 ∷ []) []), machine) }
    ensures no_table { outcome machine (Set 1 (at 0) (at 0) 1 permissions.Read) ≡ (NoSuch, machine) }
    ensures bad_range { outcome machine (Set 0 (at (2 ^ 64 - 1)) (at 0) 1 permissions.Read) ≡ (BadRange, machine) }
{}

/// Dirty pages are returned ascending, and stay dirty. A harvest returns them, and then none of them is dirty, and
/// all other bitmaps are as before. A patch takes the bytes of the listed pages, and no others: the last page may be
/// cut, and pages past it have no bytes.
pub fn pages_are_harvested()
    ensures dirty { outcome marked_machine (Dirty (Block 1)) ≡ (Pages (0 ∷ 1 ∷ []), marked_machine) }
    ensures harvest { outcome marked_machine (Harvest (Block 0))
        ≡ (
          Pages (1 ∷ []),
          record marked_machine {
            host = record marked_host { bitmaps = block_pages false false ∷ block_pages true true ∷ [] };
          },
        ) }
    ensures harvest_of_a_space { outcome marked_machine (Harvest (Space 0))
        ≡ (
          Pages (0 ∷ []),
          record marked_machine { host = record marked_host { spaces = space_pages false false ∷ [] } },
        ) }
    ensures patch { patched 2 (1 ∷ []) (6 ∷ 7 ∷ 8 ∷ 9 ∷ []) (1 ∷ 2 ∷ 3 ∷ 4 ∷ []) ≡ 1 ∷ 2 ∷ 8 ∷ 9 ∷ [] }
    ensures cut { patched 2 (1 ∷ 7 ∷ []) (6 ∷ 7 ∷ 8 ∷ []) (1 ∷ 2 ∷ 3 ∷ []) ≡ 1 ∷ 2 ∷ 8 ∷ [] }
    ensures no_page { patched 2 [] (6 ∷ 7 ∷ []) (1 ∷ 2 ∷ []) ≡ 1 ∷ 2 ∷ [] }
    ensures image { image_after 0 marked_host (Harvest (Block 0)) (Pages (1 ∷ [])) (9 ∷ 9 ∷ 9 ∷ 9 ∷ [])
        ≡ 9 ∷ 9 ∷ 3 ∷ 4 ∷ [] }
    ensures image_of_another { image_after 0 marked_host (Harvest (Block 1)) (Pages (1 ∷ [])) (9 ∷ 9 ∷ 9 ∷ 9 ∷ [])
        ≡ 9 ∷ 9 ∷ 9 ∷ 9 ∷ [] }
    ensures image_of_a_refused { image_after 0 marked_host (Harvest (Block 0)) Memory (9 ∷ []) ≡ 9 ∷ [] }
{}

/// An image mirrors a block if only bytes of dirty pages differ, and pages cover it that reach its end. A write to
/// a memory whose IOMMU is on is not direct, and everything else is.
pub fn images_that_mirror_a_block()
    ensures dirty_page { MirrorsBlock 0 marked_host (1 ∷ 2 ∷ 9 ∷ 9 ∷ []) }
    ensures clean_page { MirrorsBlock 0 marked_host (1 ∷ 9 ∷ 3 ∷ 4 ∷ []) → ⊥ }
    ensures shorter { MirrorsBlock 0 marked_host (1 ∷ 2 ∷ 3 ∷ []) → ⊥ }
    ensures covered { IsTracked 0 host }
    ensures past_the_pages { IsTracked 0 (record host { blocks = (1 ∷ 2 ∷ 3 ∷ 4 ∷ 5 ∷ []) ∷ [] }) → ⊥ }
    ensures no_pages { IsTracked 0 (record host { bitmaps = None ∷ [] }) → ⊥ }
    ensures direct { IsDirect machine (Write 0 (at 0) (9 ∷ [])) }
    ensures direct_that_is_off { IsDirect machine (Write 2 (at 0) (9 ∷ [])) }
    ensures not_direct { IsDirect machine (Write 1 (at 0) (9 ∷ [])) → ⊥ }
    ensures transfer_in { IsDirect machine (ReadFrom 1 (at 16) 1 []) → ⊥ }
    ensures transfer_out { IsDirect machine (WriteTo 1 (at 16) 1 []) }
    ensures no_memory { IsDirect machine (Write 3 (at 0) (9 ∷ [])) }
{}

/// An allocation may fail for what is made, for the bytes and the pages that are replied, for ranges of a table, and
/// for the pieces of a translation that is allowed, if there are two or more. Without any of these, none fails.
pub fn who_may_want_memory()
    ensures layout { MayWant machine (FromRegions (0 ∷ [])) }
    ensures memory { MayWant machine (Plain 0) }
    ensures read { MayWant machine (Read 0 (at 0) 1) }
    ensures read_of_nothing { MayWant machine (Read 0 (at 0) 0) → ⊥ }
    ensures translated_read_of_nothing { MayWant machine (Read 1 (at 0) 0) → ⊥ }
    ensures write { MayWant machine (Write 0 (at 0) (9 ∷ [])) → ⊥ }
    ensures transfer_out_of_nothing { MayWant machine (WriteTo 0 (at 0) 0 []) → ⊥ }
    ensures translated_write { MayWant machine (Write 1 (at 16) (9 ∷ [])) → ⊥ }
    ensures write_without_a_mapping { MayWant machine (Write 1 (at 0) (9 ∷ [])) → ⊥ }
    ensures write_that_is_not_allowed { MayWant machine (Write 1 (at 20) (9 ∷ [])) → ⊥ }
    ensures translated_write_of_nothing { MayWant machine (Write 1 (at 0) []) → ⊥ }
    ensures write_that_is_off { MayWant machine (Write 2 (at 0) (9 ∷ [])) → ⊥ }
    ensures translated_store { MayWant machine (Store 1 One (at 16) 9) → ⊥ }
    ensures load_over_two_mappings { MayWant machine (Load 1 Two (at 19)) }
    ensures check_over_two_mappings { MayWant machine (CheckRange 1 (at 19) 2 permissions.Read) }
    ensures check_that_is_not_allowed { MayWant machine (CheckRange 1 (at 19) 2 permissions.Write) → ⊥ }
    ensures store_too_great { MayWant machine (Store 1 One (at 0) 256) → ⊥ }
    ensures copy { MayWant machine (Copy (in_block 0 0 1) (in_block 1 0 1)) → ⊥ }
    ensures no_region { MayWant machine (FromRegions (0 ∷ 3 ∷ [])) → ⊥ }
    ensures no_layout { MayWant machine (Plain 1) → ⊥ }
    ensures no_remove { MayWant machine (Remove 0 (at 0) 2) → ⊥ }
    ensures dirty { MayWant marked_machine (Dirty (Block 0)) }
    ensures clean { MayWant machine (Harvest (Block 0)) → ⊥ }
    ensures untracked { MayWant (record machine { host = record host { bitmaps = None ∷ [] } }) (Harvest (Block 0))
        → ⊥ }
    ensures no_bitmap { MayWant machine (Harvest (Block 2)) → ⊥ }
    ensures set { MayWant machine (Set 0 (at 16) (at 2) 4 permissions.Read) }
    ensures set_of_nothing { MayWant machine (Set 0 (at 16) (at 2) 0 permissions.Read) → ⊥ }
    ensures invalidate_of_nothing { MayWant machine (Invalidate 0 (at 16) 0) → ⊥ }
    ensures look_up_of_nothing { MayWant machine (Lookup 0 (at 16) 0 permissions.Read) → ⊥ }
{}

/// A step has one reply, or `Memory`, which leaves the machine as it was. A run takes a step for each command, from
/// where the one before ended. Of its commands on a table those are the table's calls that were done: not one past the
/// last address, nor one whose allocation failed, nor one of another table.
pub fn steps_and_runs()
    ensures names_nothing { outcome machine (FromRegions (0 ∷ 3 ∷ [])) ≡ (NoSuch, machine) }
    ensures answer { Step machine (Read 0 (at 0) 2) (Bytes (1 ∷ 2 ∷ [])) machine }
    ensures other_bytes { Step machine (Read 0 (at 0) 2) (Bytes (1 ∷ 3 ∷ [])) machine → ⊥ }
    ensures want_of_memory { Step machine (Read 0 (at 0) 2) Memory machine }
    ensures want_that_changes { Step machine (Plain 0) Memory (record machine { layouts = [] }) → ⊥ }
    ensures want_of_a_write { Step machine (Write 0 (at 0) []) Memory machine → ⊥ }
    ensures run { Run
        (record machine { layouts = []; memories = [] })
        (FromRegions (1 ∷ []) ∷ Plain 0 ∷ Write 0 (at 4) (9 ∷ []) ∷ Read 0 (at 4) 2 ∷ [])
        (Layout 0 ∷ MemoryMade 0 ∷ Count 1 ∷ Bytes (9 ∷ 6 ∷ []) ∷ [])
        (record machine {
          layouts = (high ∷ []) ∷ [];
          memories = plain (high ∷ []) ∷ [];
          host = record host {
            blocks = (1 ∷ 2 ∷ 3 ∷ 4 ∷ []) ∷ (9 ∷ 6 ∷ 7 ∷ 8 ∷ []) ∷ [];
            bitmaps = block_pages false false ∷ block_pages true false ∷ [];
          };
        }) }
    ensures empty_run { Run machine [] [] machine }
    ensures no_reply { Run machine (Plain 0 ∷ []) [] machine → ⊥ }
    ensures calls { table_calls 0
        (Set 0 (at 16) (at 2) 4 permissions.Read ∷ Set 0 (at (2 ^ 64 - 1)) (at 0) 1 permissions.Read
        ∷ Set 1 (at 0) (at 8) 4 permissions.Write ∷ Invalidate 0 (at 18) 1 ∷ InvalidateAll 0 ∷ [])
        (Done ∷ BadRange ∷ Done ∷ Memory ∷ Done ∷ [])
        ≡ table.Set 16 2 4 permissions.Read ∷ table.InvalidateAll ∷ [] }
    ensures calls_of_another { table_calls 1
        (InvalidateAll 0 ∷ Set 1 (at 0) (at 8) 4 permissions.Write ∷ Invalidate 1 (at 1) 2 ∷ [])
        (Done ∷ Done ∷ Done ∷ [])
        ≡ table.Set 0 8 4 permissions.Write ∷ table.Invalidate 1 2 ∷ [] }
{}

/// A machine stands for what its regions, translators, memories and bitmaps mean. Its host holds the bytes of every
/// region, the table of every translator, and what every memory names. The reply to an error is its name, and the reply
/// to a failed allocation is `Memory`.
pub fn what_a_machine_stands_for()
    ensures state { state_of {R = Region} {I = ℕ} {B = PageSet} (λ r. r) (λ i. i) (λ b. b) (record {
      host = host;
      regions = low ∷ unbacked ∷ [];
      translators = 0 ∷ [];
      layouts = (low ∷ []) ∷ [];
      memories = memory.Plain (unbacked ∷ []) ∷ memory.Translated (record {
        backend = low ∷ [];
        iommu = 0;
        on = true;
        space = 0;
      }) ∷ [];
    })
        ≡ record {
          regions = low ∷ unbacked ∷ [];
          translators = 0 ∷ [];
          layouts = (low ∷ []) ∷ [];
          memories = plain (unbacked ∷ []) ∷ behind (low ∷ []) 0 0 true ∷ [];
          host = host;
        } }
    ensures held { AreHeld {R = Region} {I = ℕ} {B = PageSet} (λ r. r) (λ i. i) (record {
      host = host;
      regions = low ∷ unbacked ∷ [];
      translators = 0 ∷ [];
      layouts = [];
      memories = [];
    }) }
    ensures not_held { AreHeld {R = Region} {I = ℕ} {B = PageSet} (λ r. r) (λ i. i) (record {
      host = record host { blocks = [] };
      regions = low ∷ unbacked ∷ [];
      translators = [];
      layouts = [];
      memories = [];
    }) → ⊥ }
    ensures no_table { AreHeld {R = Region} {I = ℕ} {B = PageSet} (λ r. r) (λ i. i) (record {
      host = host;
      regions = [];
      translators = 1 ∷ [];
      layouts = [];
      memories = [];
    }) → ⊥ }
    ensures no_space { HoldsMemory {R = Region} {I = ℕ} {B = PageSet} (λ r. r) (λ i. i) host
        (memory.Translated (record { backend = []; iommu = 0; on = false; space = 1 })) → ⊥ }
    ensures error { reply_of_error (errors.PartialBuffer 4 2) ≡ Fault (fault.PartialBuffer 4 2) }
    ensures memory_is_wanting { reply_of_error errors.Memory ≡ Memory }
    ensures memory_of_a_layout { reply_of_layout_error layouts.Memory ≡ Memory }
{}

/// A transfer in leaves what its source gave, up to the first window that is not filled, or of all bytes until the
/// windows are full. A failed try leaves its scribble, and marks all of its window. A transfer that reaches nothing
/// asks its source for nothing.
pub fn transfers_in_are_answered()
    ensures short { outcome machine (ReadFrom 0 (at 2) 4 (Give (9 ∷ []) ∷ Give (10 ∷ []) ∷ []))
        ≡ (
          Count 1,
          with_bytes (1 ∷ 2 ∷ 9 ∷ 4 ∷ []) (5 ∷ 6 ∷ 7 ∷ 8 ∷ []) (block_pages false true) (block_pages false false),
        ) }
    ensures whole { outcome machine (ReadExactFrom 0 (at 2) 4 (Give (9 ∷ []) ∷ Give (10 ∷ 11 ∷ 12 ∷ []) ∷ []))
        ≡ (
          Done,
          with_bytes (1 ∷ 2 ∷ 9 ∷ 10 ∷ []) (11 ∷ 12 ∷ 7 ∷ 8 ∷ []) (block_pages false true) (block_pages true false),
        ) }
    ensures ended { outcome machine (ReadExactFrom 0 (at 2) 4 (Give (9 ∷ []) ∷ []))
        ≡ (
          Fault (fault.PartialBuffer 4 1),
          with_bytes (1 ∷ 2 ∷ 9 ∷ 4 ∷ []) (5 ∷ 6 ∷ 7 ∷ 8 ∷ []) (block_pages false true) (block_pages false false),
        ) }
    ensures failed { outcome machine (ReadFrom 0 (at 0) 4 (source.Fail (9 ∷ []) ∷ []))
        ≡ (
          Fault (fault.IOError Other),
          with_bytes (9 ∷ 2 ∷ 3 ∷ 4 ∷ []) (5 ∷ 6 ∷ 7 ∷ 8 ∷ []) (block_pages true true) (block_pages false false),
        ) }
    ensures in_a_hole { outcome machine (ReadFrom 0 (at 8) 1 (Give (9 ∷ []) ∷ [])) ≡ (Fault (no_region_at 8), machine) }
    ensures translated { outcome machine (ReadFrom 1 (at 16) 1 (Give (9 ∷ []) ∷ []))
        ≡ (Count 1, with_translated_bytes (1 ∷ 2 ∷ 9 ∷ 4 ∷ []) (5 ∷ 6 ∷ 7 ∷ 8 ∷ [])) }
    ensures not_allowed { outcome machine (ReadExactFrom 1 (at 20) 1 (Give (9 ∷ []) ∷ []))
        ≡ (Fault (not_translated 20 1 AccessNotAllowed), machine) }
    ensures no_such { outcome machine (ReadFrom 3 (at 0) 1 (Give (9 ∷ []) ∷ [])) ≡ (NoSuch, machine) }
    ensures never_wants { MayWant machine (ReadExactFrom 0 (at 0) 1 []) → ⊥ }
    ensures in_one_mapping { MayWant machine (ReadFrom 1 (at 16) 1 []) → ⊥ }
{}

/// The reply to a transfer out says how it ended, and which bytes its sink took, even if it failed. It changes nothing,
/// and may fail to allocate for what the sink takes.
pub fn transfers_out_are_answered()
    ensures over_two_regions { outcome machine (WriteTo 0 (at 2) 4 (sink.Take 3 ∷ []))
        ≡ (Sent (ending.Count 4) (3 ∷ 4 ∷ 5 ∷ 6 ∷ []), machine) }
    ensures failed { outcome machine (WriteTo 0 (at 2) 4 (sink.Take 1 ∷ sink.Fail ∷ []))
        ≡ (Sent (ending.Fault (fault.IOError Other)) (3 ∷ []), machine) }
    ensures none_taken { outcome machine (WriteTo 0 (at 0) 1 (sink.Take 0 ∷ []))
        ≡ (Sent (ending.Fault (fault.IOError WriteZero)) [], machine) }
    ensures whole { outcome machine (WriteAllTo 0 (at 4) 2 []) ≡ (Sent ending.Done (5 ∷ 6 ∷ []), machine) }
    ensures up_to_a_hole { outcome machine (WriteAllTo 0 (at 7) 2 [])
        ≡ (Sent (ending.Fault (fault.PartialBuffer 2 1)) (8 ∷ []), machine) }
    ensures in_a_hole { outcome machine (WriteTo 0 (at 8) 1 []) ≡ (Sent (ending.Fault (no_region_at 8)) [], machine) }
    ensures translated { outcome machine (WriteTo 1 (at 19) 2 []) ≡ (Sent (ending.Count 2) (6 ∷ 5 ∷ []), machine) }
    ensures not_mapped { outcome machine (WriteAllTo 1 (at 2) 1 [])
        ≡ (Sent (ending.Fault (not_translated 2 1 MissingMapping)) [], machine) }
    ensures no_such { outcome machine (WriteAllTo 3 (at 0) 1 []) ≡ (NoSuch, machine) }
    ensures may_want { MayWant machine (WriteAllTo 0 (at 0) 1 []) }
{}
