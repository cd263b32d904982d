//! What the definitions say of small hosts, layouts and ranges: each function here is a theorem, and does nothing.
ghost use Rattle.std.specs.Prelude.{◌≡◌, ◌-◌, ◌^◌, [], ◌∷◌, ◌++◌, false};
ghost use Rattle.std.specs.Prelude.{Some, None};
ghost use Rattle.vm_memory_base.specs.declared.bitmap.BitmapId.TheVariants.{Space};
ghost use Rattle.vm_memory_guest.specs.examples.Fixtures.{address_of};
ghost use Rattle.vm_memory_guest.specs.examples.Fixtures.{backed_region, unbacked_region, one_region};
ghost use Rattle.vm_memory_guest.specs.examples.Fixtures.{window_marking};
ghost use Rattle.vm_memory_guest.specs.examples.Fixtures.{host_of, one_block_shape, zeros};
ghost use Rattle.vm_memory_guest.specs.examples.Fixtures.{clean_pages};
ghost use Rattle.vm_memory_guest.specs.examples.Fixtures.{memory_switched, memory_without_iommu};
ghost use Rattle.vm_memory_guest.specs.examples.Fixtures.{two_regions, touching_regions};
ghost use Rattle.vm_memory_guest.specs.Host as names;
ghost use Rattle.vm_memory_guest.specs.Host.{IsHeld, Holds, Place, Tlb};
ghost use Rattle.vm_memory_guest.specs.Layout.{inserted, removed, binary_digits};
ghost use Rattle.vm_memory_guest.specs.Memory.{memory_names};
ghost use Rattle.vm_memory_guest.specs.Ranges.{HasBlocks, range_error, range_regions};
ghost use Rattle.vm_memory_guest.specs.Region.{containing_region, layout_error, IsRegion};
ghost use Rattle.vm_memory_guest.specs.Window.{window_names};
ghost use Rattle.vm_memory_guest.specs.declared.mmap.FromRangesError.TheVariants.{MmapRegion, InvalidGuestRegion};
ghost use Rattle.vm_memory_guest.specs.declared.host.MmapRegionError.TheVariants.{InvalidSize};
ghost use Rattle.vm_memory_guest.specs.declared.region.error.GuestRegionCollectionError.TheVariants as errors;

/// A host holds a place of a block that ends with the block, and none that goes past it; a window is held if
/// its place and its bitmap are. A memory names the places of its regions' bytes, and its table and its space, even
/// if its IOMMU is off.
pub fn what_a_host_holds()
    ensures inside { IsHeld one_block_shape (Place 0 1 3) }
    ensures past_the_end { IsHeld one_block_shape (Place 0 1 4) → ⊥ }
    ensures no_block { IsHeld one_block_shape (Place 1 0 0) → ⊥ }
    ensures space { IsHeld one_block_shape (names.Space 0) }
    ensures no_space { IsHeld one_block_shape (names.Space 1) → ⊥ }
    ensures no_table { IsHeld one_block_shape (Tlb 0) → ⊥ }
    ensures window { Holds one_block_shape (window_names (window_marking 0 1 3 (Space 0) 20)) }
    ensures window_without_its_space { let window = window_marking 0 1 3 (Space 1) 20 in
        Holds one_block_shape (window_names window) → ⊥ }
    ensures names { memory_names (memory_without_iommu (backed_region 100 4 0 2 ∷ unbacked_region 200 4 ∷ []))
        ≡ Place 0 2 4 ∷ [] }
    ensures names_of_an_iommu_that_is_off { memory_names (memory_switched false (backed_region 100 4 0 2 ∷ []) 3 5)
        ≡ Place 0 2 4 ∷ Tlb 3 ∷ names.Space 5 ∷ [] }
{}

/// Regions make a layout if each begins above the end of the one before; of two neighbours it is tested first
/// that they ascend, then that they are apart. A region may end at the greatest address. One that is put in stands
/// after each that starts no higher, and one is taken out by its start and its length.
pub fn layouts_of_regions()
    ensures greatest { IsRegion (backed_region (2 ^ 64 - 4) 4 1 0) }
    ensures past_the_greatest { IsRegion (backed_region (2 ^ 64 - 3) 4 1 0) → ⊥ }
    ensures no_address { IsRegion (backed_region 0 0 1 0) → ⊥ }
    ensures no_region { layout_error [] ≡ Some errors.NoMemoryRegion }
    ensures unsorted { layout_error (two_regions 8 4) ≡ Some errors.UnsortedMemoryRegions }
    ensures last_address_shared { layout_error (two_regions 0 3) ≡ Some errors.MemoryRegionOverlap }
    ensures touching { layout_error touching_regions ≡ None }
    ensures first_of_two { layout_error (two_regions 4 4 ++ backed_region 0 4 2 0 ∷ [])
        ≡ Some errors.MemoryRegionOverlap }
    ensures found { containing_region touching_regions 4 ≡ Some (backed_region 4 4 1 0) }
    ensures not_found { containing_region touching_regions 8 ≡ None }
    ensures put_after { inserted (λ r. r) (two_regions 0 8) (backed_region 0 2 2 0)
        ≡ backed_region 0 4 0 0 ∷ backed_region 0 2 2 0 ∷ backed_region 8 4 1 0 ∷ [] }
    ensures taken { removed (λ r. r) (two_regions 0 8) 8 4
        ≡ Some (backed_region 0 4 0 0 ∷ [], backed_region 8 4 1 0) }
    ensures other_length { removed (λ r. r) (one_region 4) 0 2 ≡ None }
    ensures no_digit { binary_digits 0 ≡ 0 }
    ensures digits_of_ones { binary_digits 7 ≡ 3 }
    ensures digits_of_a_power { binary_digits 1024 ≡ 11 }
{}

/// The size of a range is tested before its end. Ranges that fit are regions over the next blocks, which are
/// zeroed.
pub fn ranges_of_addresses()
    ensures size_first { range_error (address_of (2 ^ 64 - 1)) (2 ^ 63) ≡ Some (MmapRegion InvalidSize) }
    ensures past { range_error (address_of (2 ^ 64 - 4)) 4 ≡ Some InvalidGuestRegion }
    ensures fits { range_error (address_of (2 ^ 64 - 5)) 4 ≡ None }
    ensures regions { range_regions 3 ((address_of 0, 4) ∷ (address_of 8, 2) ∷ [])
        ≡ backed_region 0 4 3 0 ∷ backed_region 8 2 4 0 ∷ [] }
    ensures blocks { HasBlocks (λ size set. set ≡ clean_pages 1 size)
        ((address_of 0, 1) ∷ (address_of 8, 2) ∷ []) (host_of [] [] [] [])
        (host_of (zeros 1 ∷ zeros 2 ∷ []) (clean_pages 1 1 ∷ clean_pages 1 2 ∷ []) [] []) }
{}
