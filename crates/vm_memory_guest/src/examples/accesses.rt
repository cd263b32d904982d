//! What the definitions say of small windows, accesses and walks: each function here is a theorem, and does nothing.
#![tactic(auto, unfolding(vm_memory_base::specs::Table::each, crate::specs::Access::path, crate::specs::Access::first_fault, crate::specs::Access::stretches))]

ghost use Rattle.std.specs.Prelude.{◌≡◌, ◌-◌, ◌^◌, [], ◌∷◌, true, false};
ghost use Rattle.std.specs.Prelude.{Some, None, option_map, Ok, Err};
ghost use Rattle.vm_memory_base.specs.Address.{numbers};
ghost use Rattle.vm_memory_base.specs.Table.{Set, says_nothing, new_table_after};
ghost use Rattle.vm_memory_base.specs.Pages.{pages_with};
ghost use Rattle.vm_memory_base.specs.declared.bitmap.BitmapId.TheVariants.{Space};
ghost use Rattle.vm_memory_base.specs.declared.io.VolatileMemoryError.TheVariants.{OutOfBounds, Overflow};
ghost use Rattle.vm_memory_base.specs.declared.iotlb.Permissions.TheVariants.{Read, Write, ReadWrite};
ghost use Rattle.vm_memory_base.specs.declared.iotlb.Reason.TheVariants.{MissingMapping, AccessNotAllowed};
ghost use Rattle.vm_memory_guest.specs.Access.{access_of, windows, NoRegion, NoHostBytes, Refused};
ghost use Rattle.vm_memory_guest.specs.Answer.{told, filled_buffer, window_reach};
ghost use Rattle.vm_memory_guest.specs.Dirt.{after_write, bytes_read, path_cells};
ghost use Rattle.vm_memory_guest.specs.Error.{error_of};
ghost use Rattle.vm_memory_guest.specs.examples.Fixtures.{address_of, counted_access, exact_access, cannot_resolve};
ghost use Rattle.vm_memory_guest.specs.examples.Fixtures.{backed_region, unbacked_region, one_region};
ghost use Rattle.vm_memory_guest.specs.examples.Fixtures.{cell_of, window_marking};
ghost use Rattle.vm_memory_guest.specs.examples.Fixtures.{host_of, zeros};
ghost use Rattle.vm_memory_guest.specs.examples.Fixtures.{clean_pages, MarksExactly};
ghost use Rattle.vm_memory_guest.specs.examples.Fixtures.{run_of, table_of, memory_with_iommu, memory_without_iommu};
ghost use Rattle.vm_memory_guest.specs.examples.Fixtures.{piece};
ghost use Rattle.vm_memory_guest.specs.examples.Fixtures.{two_regions, touching_regions, regions_with_hole};
ghost use Rattle.vm_memory_guest.specs.Memory.{Direct, Through, route};
ghost use Rattle.vm_memory_guest.specs.Pieces.{marking, walk_of_pieces};
ghost use Rattle.vm_memory_guest.specs.Region.{slice_of};
ghost use Rattle.vm_memory_guest.specs.Transfer.{all_of, ended};
ghost use Rattle.vm_memory_guest.specs.Walk.{items_of, reach_of, walk_of, GivesAccess, RefusesAccess};
ghost use Rattle.vm_memory_guest.specs.Window.{block_window, cells, span, subslice_of, Writes};
ghost use Rattle.vm_memory_guest.specs.declared.region.error.GuestMemoryError.TheVariants.{HostAddressNotAvailable};
ghost use Rattle.vm_memory_guest.specs.declared.region.error.GuestMemoryError.TheVariants.{InvalidBackendAddress};
ghost use Rattle.vm_memory_guest.specs.declared.region.error.GuestMemoryError.TheVariants.{InvalidGuestAddress};
ghost use Rattle.vm_memory_guest.specs.declared.region.error.GuestMemoryError.TheVariants.{PartialBuffer};

/// A part of a window keeps its place, and what passes the end is refused with the offset that passes it. An access
/// of a window moves what the window has from the offset on; at its end it is refused, unless it is empty. Each
/// window of a write has its bytes, and its bitmap is marked for them; a window of no bytes marks nothing.
pub fn windows_of_a_block()
    ensures part { subslice_of (block_window 0 1 3) 1 2 ≡ Ok (block_window 0 2 2) }
    ensures empty_part_at_the_end { subslice_of (block_window 0 1 3) 3 0 ≡ Ok (block_window 0 4 0) }
    ensures part_past_the_end { subslice_of (block_window 0 1 3) 2 2 ≡ Err (OutOfBounds 4) }
    ensures no_sum { subslice_of (block_window 0 1 3) (2 ^ 64 - 1) 2 ≡ Err (Overflow (2 ^ 64 - 1) 2) }
    ensures access_in_part { let reached = window_reach (block_window 0 1 3) 1 4 in
        ended (span reached.windows) reached.fault ≡ Ok 2 }
    ensures access_at_the_end { let reached = window_reach (block_window 0 1 3) 3 1 in
        ended (span reached.windows) reached.fault ≡ Err (OutOfBounds 3) }
    ensures empty_access_past_the_end { let reached = window_reach (block_window 0 1 3) 9 0 in
        ended (span reached.windows) reached.fault ≡ Ok 0 }
    ensures buffer { let reached = window_reach (block_window 0 1 3) 1 4 in
        filled_buffer ((5 ∷ 6 ∷ 7 ∷ 8 ∷ []) ∷ []) (cells reached.windows) (0 ∷ 0 ∷ 0 ∷ 9 ∷ [])
        ≡ 7 ∷ 8 ∷ 0 ∷ 9 ∷ [] }
    ensures of_a_region { slice_of (backed_region 100 4 0 2) 1 3 ≡ Ok (block_window 0 3 3) }
    ensures past_a_region { slice_of (backed_region 100 4 0 2) 2 3 ≡ Err InvalidBackendAddress }
    ensures no_host_bytes { slice_of (unbacked_region 100 4) 0 1 ≡ Err HostAddressNotAvailable }
    ensures write_to_two { let clean = clean_pages 4 1 in
        let before = host_of (zeros 4 ∷ zeros 4 ∷ []) (clean ∷ clean ∷ []) (clean_pages 16 2 ∷ []) [] in
        let both = block_window 0 3 1 ∷ window_marking 1 0 2 (Space 0) 20 ∷ [] in
        Writes MarksExactly both (1 ∷ 2 ∷ 3 ∷ []) before (record before {
          blocks = (0 ∷ 0 ∷ 0 ∷ 1 ∷ []) ∷ (2 ∷ 3 ∷ 0 ∷ 0 ∷ []) ∷ [];
          bitmaps = pages_with 4 (true ∷ []) ∷ clean ∷ [];
          spaces = pages_with 16 (false ∷ true ∷ []) ∷ [];
        }) }
    ensures write_to_none { let host = host_of (zeros 4 ∷ []) (clean_pages 4 1 ∷ []) [] [] in
        Writes MarksExactly (block_window 0 2 0 ∷ []) [] host host }
{}

/// An access goes on over regions that touch, and after the greatest address at 0. It ends at a hole, and where a
/// region has no host bytes, and is refused if it begins there, unless it is empty. Of each block the pages of
/// the bytes that were written are dirty. A byte that is met twice keeps what was written last.
pub fn accesses_of_regions()
    ensures over_two_regions { let reached = access_of touching_regions Direct 3 3 Write in
        (path_cells reached.path ≡ cell_of 0 3 ∷ cell_of 1 0 ∷ cell_of 1 1 ∷ [])
        × (windows reached.path ≡ block_window 0 3 1 ∷ block_window 1 0 2 ∷ [])
        × (counted_access reached ≡ Ok 3)
        × (exact_access reached 3 ≡ Ok tt) }
    ensures left_in_two_regions { let reached = access_of touching_regions Direct 3 3 Write in
        let before = host_of (zeros 4 ∷ zeros 4 ∷ []) (clean_pages 4 1 ∷ clean_pages 4 1 ∷ []) [] [] in
        after_write reached.path (1 ∷ 2 ∷ 3 ∷ []) before ≡ record before {
          blocks = (0 ∷ 0 ∷ 0 ∷ 1 ∷ []) ∷ (2 ∷ 3 ∷ 0 ∷ 0 ∷ []) ∷ [];
          bitmaps = pages_with 4 (true ∷ []) ∷ pages_with 4 (true ∷ []) ∷ [];
        } }
    ensures into_a_hole { let reached = access_of regions_with_hole Direct 2 4 Write in
        (windows reached.path ≡ block_window 0 2 2 ∷ [])
        × (counted_access reached ≡ Ok 2)
        × (exact_access reached 4 ≡ Err (PartialBuffer 4 2))
        × (reached.fault ≡ Some (NoRegion 4)) }
    ensures left_before_a_hole { let reached = access_of regions_with_hole Direct 2 4 Write in
        let before = host_of (zeros 4 ∷ zeros 4 ∷ []) (clean_pages 2 2 ∷ clean_pages 2 2 ∷ []) [] [] in
        after_write reached.path (1 ∷ 2 ∷ 3 ∷ 4 ∷ []) before ≡ record before {
          blocks = (0 ∷ 0 ∷ 1 ∷ 2 ∷ []) ∷ zeros 4 ∷ [];
          bitmaps = pages_with 2 (false ∷ true ∷ []) ∷ clean_pages 2 2 ∷ [];
        } }
    ensures from_a_hole { let reached = access_of regions_with_hole Direct 4 1 Write in
        (counted_access reached ≡ Err (NoRegion 4))
        × (exact_access reached 1 ≡ Err (InvalidGuestAddress (address_of 4))) }
    ensures over_a_hole { let reached = access_of regions_with_hole Direct 2 8 Read in
        path_cells reached.path ≡ cell_of 0 2 ∷ cell_of 0 3 ∷ [] }
    ensures empty_in_a_hole { let reached = access_of regions_with_hole Direct 4 0 Write in
        (windows reached.path ≡ [])
        × (counted_access reached ≡ Ok 0)
        × (exact_access reached 0 ≡ Ok tt) }
    ensures over_the_greatest { let regions = two_regions 0 (2 ^ 64 - 4) in
        let reached = access_of regions Direct (2 ^ 64 - 1) 2 Read in
        let host = host_of (numbers 1 4 ∷ numbers 5 4 ∷ []) (None ∷ None ∷ []) [] [] in
        (windows reached.path ≡ block_window 1 3 1 ∷ block_window 0 0 1 ∷ [])
        × (counted_access reached ≡ Ok 2)
        × (bytes_read reached.path host ≡ 8 ∷ 1 ∷ []) }
    ensures hole_at_0 { let regions = backed_region (2 ^ 64 - 4) 4 1 0 ∷ [] in
        let reached = access_of regions Direct (2 ^ 64 - 1) 2 Read in
        reached.fault ≡ Some (NoRegion 0) }
    ensures met_twice { let regions = backed_region 0 4 0 0 ∷ backed_region 4 4 0 0 ∷ [] in
        let reached = access_of regions Direct 0 5 Write in
        let before = host_of (zeros 4 ∷ []) (clean_pages 4 1 ∷ []) [] [] in
        (windows reached.path ≡ block_window 0 0 4 ∷ block_window 0 0 1 ∷ [])
        × (counted_access reached ≡ Ok 5)
        × (after_write reached.path (1 ∷ 1 ∷ 1 ∷ 1 ∷ 9 ∷ []) before ≡ record before {
          blocks = (9 ∷ 1 ∷ 1 ∷ 1 ∷ []) ∷ [];
          bitmaps = pages_with 4 (true ∷ []) ∷ [];
        }) }
    ensures into_no_host_bytes { let regions = backed_region 0 4 0 0 ∷ unbacked_region 4 4 ∷ [] in
        let reached = access_of regions Direct 2 4 Read in
        (windows reached.path ≡ block_window 0 2 2 ∷ [])
        × (counted_access reached ≡ Ok 2)
        × (reached.fault ≡ Some NoHostBytes)
        × (exact_access reached 4 ≡ Err (PartialBuffer 4 2)) }
    ensures from_no_host_bytes { let regions = backed_region 0 4 0 0 ∷ unbacked_region 4 4 ∷ [] in
        let reached = access_of regions Direct 4 1 Read in
        (counted_access reached ≡ Err NoHostBytes)
        × (option_map error_of reached.fault ≡ Some HostAddressNotAvailable) }
    ensures empty_in_no_host_bytes { let reached = access_of (unbacked_region 4 4 ∷ []) Direct 4 0 Read in
        (counted_access reached ≡ Ok 0)
        × (exact_access reached 0 ≡ Ok tt) }
{}

/// With an IOMMU an access is refused as a whole if one of its addresses does not permit it or has no mapping,
/// unless it is empty. It ends where a mapping leads to no region, and goes on at 0 where one leads over the
/// greatest address. A write marks the memory's space at the I/O address, if there is such a page, and with the
/// IOMMU off the block.
pub fn accesses_through_an_iommu()
    ensures not_permitted { let says = new_table_after (Set 0 0 4 ReadWrite ∷ Set 4 4 4 Read ∷ []) in
        let reached = access_of (one_region 8) (Through says 0) 3 2 Write in
        let host = host_of (numbers 1 8 ∷ []) (clean_pages 4 2 ∷ []) (clean_pages 4 2 ∷ []) [] in
        (reached.path ≡ [])
        × (counted_access reached ≡ Err (Refused 3 2 AccessNotAllowed))
        × (exact_access reached 2 ≡ Err (cannot_resolve 3 2 AccessNotAllowed))
        × (option_map error_of reached.fault ≡ Some (cannot_resolve 3 2 AccessNotAllowed))
        × (after_write reached.path (9 ∷ 9 ∷ []) host ≡ host) }
    ensures two_permissions { let says = new_table_after (Set 0 0 4 ReadWrite ∷ Set 4 4 4 Read ∷ []) in
        let reached = access_of (one_region 8) (Through says 0) 3 2 Read in
        let host = host_of (numbers 1 8 ∷ []) (clean_pages 4 2 ∷ []) (clean_pages 4 2 ∷ []) [] in
        (windows reached.path ≡ window_marking 0 3 1 (Space 0) 3 ∷ window_marking 0 4 1 (Space 0) 4 ∷ [])
        × (counted_access reached ≡ Ok 2)
        × (bytes_read reached.path host ≡ 4 ∷ 5 ∷ []) }
    ensures not_mapped { let reached = access_of (one_region 8) (Through says_nothing 0) 2 1 Read in
        (reached.path ≡ [])
        × (counted_access reached ≡ Err (Refused 2 1 MissingMapping)) }
    ensures mapped_in_part { let says = new_table_after (Set 0 0 4 ReadWrite ∷ []) in
        let reached = access_of (one_region 8) (Through says 0) 3 2 Read in
        counted_access reached ≡ Err (Refused 3 2 MissingMapping) }
    ensures greatest_address { let says = new_table_after (Set (2 ^ 64 - 1) 0 1 ReadWrite ∷ []) in
        let reached = access_of (one_region 8) (Through says 0) (2 ^ 64 - 1) 1 Read in
        counted_access reached ≡ Err (Refused (2 ^ 64 - 1) 1 MissingMapping) }
    ensures empty { let reached = access_of (one_region 8) (Through says_nothing 0) 2 0 Read in
        counted_access reached ≡ Ok 0 }
    ensures to_a_hole { let says = new_table_after (Set 20 6 4 Read ∷ []) in
        let reached = access_of (one_region 8) (Through says 0) 20 4 Read in
        (counted_access reached ≡ Ok 2)
        × (reached.fault ≡ Some (NoRegion 8)) }
    ensures over_the_greatest { let says = new_table_after (Set 20 (2 ^ 64 - 2) 4 Read ∷ []) in
        let reached = access_of (two_regions 0 (2 ^ 64 - 4)) (Through says 0) 20 4 Read in
        (windows reached.path ≡ window_marking 1 2 2 (Space 0) 20 ∷ window_marking 0 0 2 (Space 0) 22 ∷ [])
        × (counted_access reached ≡ Ok 4) }
    ensures marks_the_space { let memory = memory_with_iommu (one_region 8) 0 0 in
        let tables = table_of (run_of 20 4 (2 ^ 64 - 20) ReadWrite ∷ []) ∷ [] in
        let reached = access_of memory.regions (route memory tables) 20 1 Write in
        let before = host_of (zeros 8 ∷ []) (clean_pages 4 2 ∷ []) (clean_pages 4 8 ∷ []) tables in
        (windows reached.path ≡ window_marking 0 0 1 (Space 0) 20 ∷ [])
        × (after_write reached.path (7 ∷ []) before ≡ record before {
          blocks = (7 ∷ zeros 7) ∷ [];
          spaces = pages_with 4 (false ∷ false ∷ false ∷ false ∷ false ∷ true ∷ false ∷ false ∷ []) ∷ [];
        }) }
    ensures marks_the_block { let memory = memory_without_iommu (one_region 8) in
        let tables = table_of (run_of 20 4 (2 ^ 64 - 20) ReadWrite ∷ []) ∷ [] in
        let reached = access_of memory.regions (route memory tables) 1 1 Write in
        let before = host_of (zeros 8 ∷ []) (clean_pages 4 2 ∷ []) (clean_pages 4 8 ∷ []) tables in
        after_write reached.path (7 ∷ []) before ≡ record before {
          blocks = (0 ∷ 7 ∷ zeros 6) ∷ [];
          bitmaps = pages_with 4 (true ∷ false ∷ []) ∷ [];
        } }
    ensures marks_no_page { let memory = memory_with_iommu (one_region 8) 0 0 in
        let tables = table_of (run_of 20 4 (2 ^ 64 - 20) ReadWrite ∷ []) ∷ [] in
        let reached = access_of memory.regions (route memory tables) 20 1 Write in
        let before = host_of (zeros 8 ∷ []) (clean_pages 4 2 ∷ []) (clean_pages 4 2 ∷ []) tables in
        after_write reached.path (7 ∷ []) before ≡ record before { blocks = (7 ∷ zeros 7) ∷ [] } }
{}

/// Windows are cut where the region changes, though the bytes lie side by side, and where the difference or the
/// permissions of the mapping change. A walk over pieces gives the windows of each, up to the first fault, and two
/// windows also where pieces touch. Its items are the windows, and then the error that stopped it.
pub fn windows_and_walks()
    ensures one_region { let reached = access_of (one_region 8) Direct 1 6 Read in
        windows reached.path ≡ block_window 0 1 6 ∷ [] }
    ensures two_regions { let regions = backed_region 0 4 0 0 ∷ backed_region 4 4 0 4 ∷ [] in
        let reached = access_of regions Direct 1 6 Read in
        windows reached.path ≡ block_window 0 1 3 ∷ block_window 0 4 3 ∷ [] }
    ensures one_mapping { let says = new_table_after (Set 20 2 4 Read ∷ Set 24 6 4 Read ∷ []) in
        let reached = access_of (one_region 16) (Through says 0) 21 6 Read in
        windows reached.path ≡ window_marking 0 3 6 (Space 0) 21 ∷ [] }
    ensures two_differences { let says = new_table_after (Set 20 2 4 Read ∷ Set 24 8 4 Read ∷ []) in
        let reached = access_of (one_region 16) (Through says 0) 21 6 Read in
        windows reached.path ≡ window_marking 0 3 3 (Space 0) 21 ∷ window_marking 0 8 3 (Space 0) 24 ∷ [] }
    ensures two_permissions { let says = new_table_after (Set 20 2 4 Read ∷ Set 24 6 4 ReadWrite ∷ []) in
        let reached = access_of (one_region 16) (Through says 0) 21 6 Read in
        windows reached.path ≡ window_marking 0 3 3 (Space 0) 21 ∷ window_marking 0 6 3 (Space 0) 24 ∷ [] }
    ensures touching_pieces { marking 5 20 (walk_of_pieces (one_region 8) (piece 1 2 ∷ piece 3 0 ∷ piece 3 4 ∷ []))
        ≡ record {
          windows = window_marking 0 1 2 (Space 5) 20 ∷ window_marking 0 3 4 (Space 5) 22 ∷ [];
          fault = None;
        } }
    ensures stopped_piece { marking 5 20 (walk_of_pieces regions_with_hole (piece 2 4 ∷ piece 0 1 ∷ [])) ≡ record {
      windows = window_marking 0 2 2 (Space 5) 20 ∷ [];
      fault = Some (NoRegion 4);
    } }
    ensures no_piece { walk_of_pieces (one_region 8) [] ≡ record { windows = []; fault = None } }
    ensures stopped_items { items_of (walk_of regions_with_hole 2 4)
        ≡ Ok (block_window 0 2 2) ∷ Err (InvalidGuestAddress (address_of 4)) ∷ [] }
    ensures no_item { items_of (walk_of regions_with_hole 4 0) ≡ [] }
    ensures answer_at_a_hole { let access = access_of regions_with_hole Direct 2 4 Read in
        let reached = told error_of (reach_of access) in
        let blocks = numbers 1 4 ∷ numbers 5 4 ∷ [] in
        (ended (span reached.windows) reached.fault ≡ Ok 2)
        × (all_of PartialBuffer 4 (ended (span reached.windows) reached.fault) ≡ Err (PartialBuffer 4 2))
        × (filled_buffer blocks (cells reached.windows) (9 ∷ 9 ∷ 9 ∷ 9 ∷ []) ≡ 3 ∷ 4 ∷ 9 ∷ 9 ∷ []) }
    ensures refused { let memory = memory_with_iommu (one_region 8) 0 0 in
        let tables = table_of (run_of 0 4 0 ReadWrite ∷ run_of 4 4 0 Read ∷ []) ∷ [] in
        RefusesAccess memory tables 3 2 Write (cannot_resolve 3 2 AccessNotAllowed) }
    ensures given { let memory = memory_with_iommu (one_region 8) 0 0 in
        let tables = table_of (run_of 0 4 0 ReadWrite ∷ run_of 4 4 0 Read ∷ []) ∷ [] in
        GivesAccess memory tables 3 2 Read (record {
          windows = window_marking 0 3 1 (Space 0) 3 ∷ window_marking 0 4 1 (Space 0) 4 ∷ [];
          fault = None;
        }) }
{}
