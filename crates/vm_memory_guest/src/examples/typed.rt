//! What the definitions of loads, stores, copies and arrays say in small cases: each function here is a
//! theorem, and does nothing.
#![tactic(auto, unfolding(vm_memory_base::specs::Table::each, crate::specs::Access::path, crate::specs::Access::first_fault, crate::specs::Access::stretches))]

ghost use Rattle.std.specs.Prelude.{◌≡◌, ◌-◌, ◌^◌, false, true, [], ◌∷◌, None, Ok, Err};
ghost use Rattle.vm_memory_base.specs.Table.{Set, new_table_after};
ghost use Rattle.vm_memory_base.specs.Pages.{pages_with};
ghost use Rattle.vm_memory_base.specs.declared.io.VolatileMemoryError.TheVariants.{
  Misaligned,
  OutOfBounds,
  TooBig,
};
ghost use Rattle.vm_memory_base.specs.declared.iotlb.Permissions.TheVariants.{Read, Write, ReadWrite};
ghost use Rattle.vm_memory_base.specs.declared.iotlb.Reason.TheVariants.{AccessNotAllowed};
ghost use Rattle.vm_memory_guest.specs.Access.{access_of};
ghost use Rattle.vm_memory_guest.specs.Copy.{after_copy};
ghost use Rattle.vm_memory_guest.specs.Dirt.{after_write, bytes_read};
ghost use Rattle.vm_memory_guest.specs.examples.Fixtures.{address_of, backed_region, cannot_resolve, clean_pages};
ghost use Rattle.vm_memory_guest.specs.examples.Fixtures.{host_of, one_region, touching_regions};
ghost use Rattle.vm_memory_guest.specs.Host.{cells_from};
ghost use Rattle.vm_memory_guest.specs.Memory.{Direct, Through};
ghost use Rattle.vm_memory_guest.specs.Typed.{aligned_of, answered, path_given, typed_path};
ghost use Rattle.vm_memory_guest.specs.Volatile.{array_of, element_at};
ghost use Rattle.vm_memory_guest.specs.Window.{block_window, subslice_of};
ghost use Rattle.vm_memory_guest.specs.declared.region.error.GuestMemoryError.TheVariants.{
  InvalidBackendAddress,
  InvalidGuestAddress,
};

/// A value is loaded or stored at a place of its block that is a multiple of its size, wherever the window begins,
/// and in one window: not in two regions, even if these are neighbours in one block, nor over a hole or two
/// mappings. With an IOMMU a store marks the space, and is refused if it is not permitted.
pub fn loads_and_stores_that_are_cut()
    ensures aligned { aligned_of (block_window 0 0x11 8) 1 2 ≡ Ok (block_window 0 0x12 2) }
    ensures misaligned { aligned_of (block_window 0 0x10 8) 1 2 ≡ Err (Misaligned 0x11 2) }
    ensures past_the_end { aligned_of (block_window 0 0x10 8) 5 4 ≡ Err (OutOfBounds 9) }
    ensures in_two_regions { typed_path 4 (access_of touching_regions Direct 2 4 Read) ≡ Err InvalidBackendAddress }
    ensures in_two_regions_of_one_block { let regions = backed_region 0 4 0 0 ∷ backed_region 4 4 0 4 ∷ [] in
        typed_path 8 (access_of regions Direct 0 8 Read) ≡ Err InvalidBackendAddress }
    ensures address_is_a_multiple { let regions = backed_region 1 4 0 0 ∷ [] in
        typed_path 2 (access_of regions Direct 2 2 Read) ≡ Err InvalidBackendAddress }
    ensures place_is_a_multiple { let regions = backed_region 1 4 0 0 ∷ [] in
        let host = host_of ((1 ∷ 2 ∷ 3 ∷ 4 ∷ []) ∷ []) (None ∷ []) [] [] in
        answered (λ xs. bytes_read xs host) (typed_path 2 (access_of regions Direct 3 2 Read))
        ≡ Ok (3 ∷ 4 ∷ []) }
    ensures ends_in_a_hole { typed_path 4 (access_of (one_region 4) Direct 2 4 Read)
        ≡ Err InvalidBackendAddress }
    ensures begins_in_a_hole { typed_path 4 (access_of (one_region 4) Direct 4 4 Read)
        ≡ Err (InvalidGuestAddress (address_of 4)) }
    ensures refused { let route = Through (new_table_after (Set 8 0 4 Read ∷ [])) 0 in
        typed_path 2 (access_of (one_region 4) route 8 2 Write) ≡ Err (cannot_resolve 8 2 AccessNotAllowed) }
    ensures two_mappings { let says = new_table_after (Set 8 0 2 ReadWrite ∷ Set 10 2 2 Write ∷ []) in
        let route = Through says 0 in
        typed_path 4 (access_of (one_region 4) route 8 4 Write) ≡ Err InvalidBackendAddress }
    ensures left { let route = Through (new_table_after (Set 8 0 4 Write ∷ [])) 0 in
        after_write (path_given (typed_path 2 (access_of (one_region 4) route 10 2 Write))) (7 ∷ 9 ∷ [])
        (host_of ((1 ∷ 2 ∷ 3 ∷ 4 ∷ []) ∷ []) (clean_pages 4 1 ∷ []) (clean_pages 4 3 ∷ []) [])
        ≡ host_of ((1 ∷ 2 ∷ 7 ∷ 9 ∷ []) ∷ []) (clean_pages 4 1 ∷ [])
        (pages_with 4 (false ∷ false ∷ true ∷ []) ∷ []) [] }
{}

/// Bytes are copied as they were, even over one another, and the pages that were copied to are dirty. An
/// array has the window of its values' bytes. One whose values or bytes are too many is refused as such, wherever it
/// is.
pub fn copies_and_arrays()
    ensures upwards { after_copy (cells_from 0 0 4) (cells_from 0 2 4)
        (host_of ((1 ∷ 2 ∷ 3 ∷ 4 ∷ 5 ∷ 6 ∷ []) ∷ []) (clean_pages 2 3 ∷ []) [] [])
        ≡ host_of ((1 ∷ 2 ∷ 1 ∷ 2 ∷ 3 ∷ 4 ∷ []) ∷ []) (pages_with 2 (false ∷ true ∷ true ∷ []) ∷ []) [] [] }
    ensures downwards { after_copy (cells_from 0 2 4) (cells_from 0 0 4)
        (host_of ((1 ∷ 2 ∷ 3 ∷ 4 ∷ 5 ∷ 6 ∷ []) ∷ []) (clean_pages 2 3 ∷ []) [] [])
        ≡ host_of ((3 ∷ 4 ∷ 5 ∷ 6 ∷ 5 ∷ 6 ∷ []) ∷ []) (pages_with 2 (true ∷ true ∷ false ∷ []) ∷ []) [] [] }
    ensures to_another_block { after_copy (cells_from 0 1 2) (cells_from 1 0 2)
        (host_of ((1 ∷ 2 ∷ 3 ∷ []) ∷ (7 ∷ 8 ∷ 9 ∷ []) ∷ []) (clean_pages 2 2 ∷ clean_pages 2 2 ∷ []) [] [])
        ≡ host_of ((1 ∷ 2 ∷ 3 ∷ []) ∷ (2 ∷ 3 ∷ 9 ∷ []) ∷ [])
        (clean_pages 2 2 ∷ pages_with 2 (true ∷ false ∷ []) ∷ []) [] [] }
    ensures inside { array_of (subslice_of (block_window 0 0x10 8) 2) 3 2
        ≡ Ok (record { window = block_window 0 0x12 6; count = 3 }) }
    ensures past_the_end { array_of (subslice_of (block_window 0 0x10 8) 4) 3 2 ≡ Err (OutOfBounds 10) }
    ensures too_big { array_of (subslice_of (block_window 0 0x10 8) 0) (2 ^ 62) 2 ≡ Err (TooBig (2 ^ 62) 2) }
    ensures too_many { array_of (subslice_of (block_window 0 0x10 8) (2 ^ 64 - 1)) (2 ^ 63) 0
        ≡ Err (TooBig (2 ^ 63) 0) }
    ensures element { element_at (record { window = block_window 0 0x12 6; count = 3 }) 2 1
        ≡ block_window 0 0x14 2 }
{}
