//! What questions about addresses, and accesses by a callback, return in small cases: each function here
//! is a theorem, and does nothing.
#![tactic(auto, unfolding(vm_memory_base::specs::Table::each, crate::specs::Access::path, crate::specs::Access::first_fault))]

ghost use Rattle.std.specs.Prelude.{◌≡◌, ◌-◌, ◌^◌, [], ◌∷◌, ◌++◌, true, false, Some, None, Ok, Err};
ghost use Rattle.vm_memory_base.specs.declared.iotlb.Permissions.TheVariants.{Read, Write};
ghost use Rattle.vm_memory_guest.specs.Access.{NoRegion, access_of};
ghost use Rattle.vm_memory_guest.specs.examples.Fixtures.{address_of, backed_region, unbacked_region, one_region};
ghost use Rattle.vm_memory_guest.specs.examples.Fixtures.{regions_with_hole, run_of, table_of, memory_with_iommu};
ghost use Rattle.vm_memory_guest.specs.examples.Fixtures.{itself, AnswersLength, AnswersNumber, CalledWithNothing};
ghost use Rattle.vm_memory_guest.specs.Memory.{Direct, route};
ghost use Rattle.vm_memory_guest.specs.Queries.{address_above, greatest_last, host_address_at};
ghost use Rattle.vm_memory_guest.specs.Queries.{host_address_of, is_whole, offset_in, offset_of, slice_at};
ghost use Rattle.vm_memory_guest.specs.RegionBytes.{region_reach, region_place};
ghost use Rattle.vm_memory_guest.specs.TryAccess.{TryAccess};
ghost use Rattle.vm_memory_guest.specs.Walk.{windows_before};
ghost use Rattle.vm_memory_guest.specs.Window.{block_window};
ghost use Rattle.vm_memory_guest.specs.declared.region.error.GuestMemoryError.TheVariants.{
  CallbackOutOfRange,
  GuestAddressOverflow,
  HostAddressNotAvailable,
  InvalidBackendAddress,
  InvalidGuestAddress,
};

/// A region has an address at each offset below its length. A layout says of an address what the region that holds
/// it says, and without one names the address. Its last address is the greatest of its regions, even if an earlier
/// one ended higher, and 0 without a region.
pub fn addresses_that_are_asked()
    ensures last_offset { offset_in (backed_region 100 4 0 2) 3 ≡ Some (record { 0 = 3 }) }
    ensures no_offset { offset_in (backed_region 100 4 0 2) 4 ≡ None }
    ensures of_the_last { offset_of (backed_region 100 4 0 2) 103 ≡ Some (record { 0 = 3 }) }
    ensures of_the_next { offset_of (backed_region 100 4 0 2) 104 ≡ None }
    ensures below { offset_of (backed_region 100 4 0 2) 99 ≡ None }
    ensures no_host_bytes { host_address_of (unbacked_region 100 4) 9 ≡ Err HostAddressNotAvailable }
    ensures over_the_hole { address_above itself regions_with_hole 3 5 ≡ Some (address_of 8) }
    ensures into_the_hole { address_above itself regions_with_hole 3 4 ≡ None }
    ensures past_all { address_above itself (one_region 4) 3 (2 ^ 64 - 3) ≡ None }
    ensures no_byte { host_address_at itself regions_with_hole 4 ≡ Err (InvalidGuestAddress (address_of 4)) }
    ensures past_the_end { slice_at itself regions_with_hole 2 3 ≡ Err InvalidBackendAddress }
    ensures last_of_none { greatest_last [] ≡ 0 }
    ensures first_is_higher { greatest_last (backed_region 8 4 0 0 ∷ backed_region 0 4 1 0 ∷ []) ≡ 11 }
{}

/// A range is whole if each byte of it has a byte of the host and may be accessed so, and an empty one is
/// everywhere. If the error of a walk comes first, it is returned; later it ends the windows silently. An
/// access of a region by offset is one of the window of all its bytes, and refused if there is none, even if it
/// is empty.
pub fn ranges_and_regions()
    ensures inside { is_whole (access_of regions_with_hole Direct 1 3 Read).path 3 ≡ true }
    ensures into_a_hole { is_whole (access_of regions_with_hole Direct 1 4 Read).path 4 ≡ false }
    ensures over_a_hole { is_whole (access_of regions_with_hole Direct 2 8 Read).path 8 ≡ false }
    ensures empty_in_a_hole { is_whole (access_of regions_with_hole Direct 4 0 Read).path 0 ≡ true }
    ensures bare { is_whole (access_of (one_region 4 ++ unbacked_region 4 4 ∷ []) Direct 2 4 Read).path 4 ≡ false }
    ensures not_mapped { let t = table_of (run_of 16 2 (2 ^ 64 - 16) Read ∷ []) in
        let way = route (memory_with_iommu (one_region 4) 0 0) (t ∷ []) in
        is_whole (access_of (one_region 4) way 16 3 Read).path 3 ≡ false }
    ensures not_allowed { let t = table_of (run_of 16 2 (2 ^ 64 - 16) Read ∷ []) in
        let way = route (memory_with_iommu (one_region 4) 0 0) (t ∷ []) in
        is_whole (access_of (one_region 4) way 16 2 Write).path 2 ≡ false }
    ensures error_first { windows_before [] (Some (NoRegion 4)) ≡ Err (InvalidGuestAddress (address_of 4)) }
    ensures error_later { windows_before (block_window 0 2 2 ∷ []) (Some (NoRegion 4))
        ≡ Ok (block_window 0 2 2 ∷ []) }
    ensures in_part { (region_reach (backed_region 100 4 0 2) 3 2).windows ≡ block_window 0 5 1 ∷ [] }
    ensures past_the_end { (region_reach (backed_region 100 4 0 2) 4 1).fault ≡ Some InvalidBackendAddress }
    ensures no_host_bytes { (region_reach (unbacked_region 100 4) 0 1).fault ≡ Some HostAddressNotAvailable }
    ensures empty_in_no_host_bytes { (region_reach (unbacked_region 100 4) 0 0).fault
        ≡ Some HostAddressNotAvailable }
    ensures empty_past_the_end { (region_reach (backed_region 100 4 0 2) 9 0).fault ≡ None }
    ensures misaligned { region_place (backed_region 100 4 0 2) 1 2 ≡ Err InvalidBackendAddress }
{}

/// Eight bytes from the last four of a region on, before a hole: a callback that handles all that it is given
/// handles four of them. One that returns nine of eight is out of range, and so is a move over the greatest
/// address. For no byte it is called once, if there is a region.
pub fn accesses_by_a_callback()
    ensures before_a_hole { TryAccess itself regions_with_hole AnswersLength 0 8 tt 0 0 (Ok 4) tt }
    ensures all { TryAccess itself regions_with_hole AnswersLength 8 2 tt 0 8 (Ok 2) tt }
    ensures out_of_range { TryAccess itself regions_with_hole (AnswersNumber 9) 0 8 tt 0 0
        (Err CallbackOutOfRange) tt }
    ensures nothing { TryAccess itself regions_with_hole CalledWithNothing 2 0 tt 0 2 (Ok 0) tt }
    ensures nowhere { TryAccess itself regions_with_hole AnswersLength 4 0 tt 0 4
        (Err (InvalidGuestAddress (address_of 4))) tt }
    ensures past_all { TryAccess itself (backed_region (2 ^ 64 - 16) 15 0 0 ∷ []) (AnswersNumber 17)
        (2 ^ 64 - 16) 32 tt 0 (2 ^ 64 - 16) (Err GuestAddressOverflow) tt }
    ensures over_the_greatest { let regions = backed_region 0 4 0 0 ∷ backed_region (2 ^ 64 - 4) 4 1 0 ∷ [] in
        TryAccess itself regions AnswersLength (2 ^ 64 - 1) 2 tt 0 (2 ^ 64 - 1) (Ok 2) tt }
{}
