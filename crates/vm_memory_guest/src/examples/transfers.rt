//! Transfers into and out of small memories that are written out, by computation.
#![tactic(auto, unfolding(vm_memory_base::specs::Transfer::again_upto, vm_memory_base::specs::Transfer::rest_of, crate::specs::Access::path, crate::specs::Access::first_fault, crate::specs::Access::stretches, crate::specs::Dealt::in_order))]

ghost use Rattle.std.specs.Prelude.{◌≡◌, ◌++◌, false, true, [], ◌∷◌, replicate, None, Ok, Err, option_map};
ghost use Rattle.std.specs.declared.io.ErrorKind.TheVariants.{Interrupted, Other, WriteZero};
ghost use Rattle.vm_memory_base.specs.Transfer.{Gives, Fails, Takes};
ghost use Rattle.vm_memory_base.specs.Pages.{pages_with};
ghost use Rattle.vm_memory_base.specs.declared.io.VolatileMemoryError.TheVariants as window_errors;
ghost use Rattle.vm_memory_base.specs.declared.iotlb.Permissions.TheVariants.{Read, Write};
ghost use Rattle.vm_memory_guest.specs.Access.{access_of, windows};
ghost use Rattle.vm_memory_guest.specs.Dealt.{given_out, received};
ghost use Rattle.vm_memory_guest.specs.Error.{error_of, of_window};
ghost use Rattle.vm_memory_guest.specs.examples.Fixtures.{address_of, clean_pages, host_of, one_region};
ghost use Rattle.vm_memory_guest.specs.examples.Fixtures.{touching_regions, two_zero_blocks, zeros};
ghost use Rattle.vm_memory_guest.specs.Memory.{Direct};
ghost use Rattle.vm_memory_guest.specs.Transfer.{all_of};
ghost use Rattle.vm_memory_guest.specs.declared.region.error.GuestMemoryError.TheVariants.{IOError};
ghost use Rattle.vm_memory_guest.specs.declared.region.error.GuestMemoryError.TheVariants.{InvalidGuestAddress};
ghost use Rattle.vm_memory_guest.specs.declared.region.error.GuestMemoryError.TheVariants.{PartialBuffer};

/// Two touching regions of four bytes, with pages of one byte. A transfer stops at the first window that the source
/// does not fill, and the exact form goes on until each is full; if the source ends early, the error says how
/// many bytes came. A failed or interrupted try leaves its scribble, and marks all of the window that it was lent.
/// 64 interruptions in a row are tried again, and the 65th is returned. Over an empty path the source is asked for
/// nothing, and a transfer of no byte returns 0.
pub fn transfers_into_two_regions()
    ensures short { let ws = windows (access_of touching_regions Direct 0 8 Write).path in
        let before = two_zero_blocks in
        let source = Gives (1 ∷ 2 ∷ []) ∷ Gives (3 ∷ 4 ∷ 5 ∷ 6 ∷ []) ∷ [] in
        received of_window None false ws 0 source before ≡ record {
          answer = Ok 2;
          left = Gives (3 ∷ 4 ∷ 5 ∷ 6 ∷ []) ∷ [];
          host = record before {
            blocks = (1 ∷ 2 ∷ 0 ∷ 0 ∷ []) ∷ zeros 4 ∷ [];
            bitmaps = pages_with 1 (true ∷ true ∷ false ∷ false ∷ []) ∷ clean_pages 1 4 ∷ [];
          };
        } }
    ensures filled { let ws = windows (access_of touching_regions Direct 0 8 Write).path in
        let before = two_zero_blocks in
        let source = Gives (1 ∷ 2 ∷ []) ∷ Gives (3 ∷ 4 ∷ []) ∷ Gives (5 ∷ 6 ∷ []) ∷ [] in
        received of_window None true ws 0 source before ≡ record {
          answer = Ok 6;
          left = [];
          host = record before {
            blocks = (1 ∷ 2 ∷ 3 ∷ 4 ∷ []) ∷ (5 ∷ 6 ∷ 0 ∷ 0 ∷ []) ∷ [];
            bitmaps = pages_with 1 (true ∷ true ∷ true ∷ true ∷ [])
                ∷ pages_with 1 (true ∷ true ∷ false ∷ false ∷ []) ∷ [];
          };
        } }
    ensures ends { all_of PartialBuffer 8 (Ok 6) ≡ Err (PartialBuffer 8 6) }
    ensures nothing { let ws = windows (access_of touching_regions Direct 0 8 Write).path in
        let before = two_zero_blocks in
        all_of PartialBuffer 8 (received of_window None true ws 0 [] before).answer ≡ Err (PartialBuffer 8 0) }
    ensures scribble { let ws = windows (access_of touching_regions Direct 0 8 Write).path in
        let before = two_zero_blocks in
        let source = Gives (1 ∷ 2 ∷ 3 ∷ 4 ∷ []) ∷ Fails (9 ∷ []) (window_errors.IOError Other) ∷ [] in
        received of_window None false ws 0 source before ≡ record {
          answer = Err (IOError Other);
          left = [];
          host = record before {
            blocks = (1 ∷ 2 ∷ 3 ∷ 4 ∷ []) ∷ (9 ∷ 0 ∷ 0 ∷ 0 ∷ []) ∷ [];
            bitmaps = pages_with 1 (true ∷ true ∷ true ∷ true ∷ [])
                ∷ pages_with 1 (true ∷ true ∷ true ∷ true ∷ []) ∷ [];
          };
        } }
    ensures interruptions { let ws = windows (access_of (one_region 4) Direct 0 4 Write).path in
        let before = host_of (zeros 4 ∷ []) (clean_pages 4 1 ∷ []) [] [] in
        let source = replicate 64 (Fails [] (window_errors.IOError Interrupted)) ++ Gives (1 ∷ 2 ∷ 3 ∷ 4 ∷ []) ∷ [] in
        (received of_window None false ws 0 source before).answer ≡ Ok 4 }
    ensures one_more { let ws = windows (access_of (one_region 4) Direct 0 4 Write).path in
        let before = host_of (zeros 4 ∷ []) (clean_pages 4 1 ∷ []) [] [] in
        let source = replicate 65 (Fails [] (window_errors.IOError Interrupted)) ++ Gives (1 ∷ 2 ∷ 3 ∷ 4 ∷ []) ∷ [] in
        (received of_window None false ws 0 source before).answer ≡ Err (IOError Interrupted) }
    ensures marked { let ws = windows (access_of (one_region 4) Direct 0 4 Write).path in
        let before = host_of (zeros 4 ∷ []) (clean_pages 1 4 ∷ []) [] [] in
        let source = Fails (9 ∷ []) (window_errors.IOError Interrupted) ∷ [] in
        (received of_window None false ws 0 source before).host ≡ record before {
          blocks = (9 ∷ 0 ∷ 0 ∷ 0 ∷ []) ∷ [];
          bitmaps = pages_with 1 (true ∷ true ∷ true ∷ true ∷ []) ∷ [];
        } }
    ensures stopped { let reached = access_of touching_regions Direct 8 1 Write in
        let before = two_zero_blocks in
        let source = Gives (1 ∷ []) ∷ [] in
        received of_window (option_map error_of reached.fault) false (windows reached.path) 0 source before
        ≡ record { answer = Err (InvalidGuestAddress (address_of 8)); left = source; host = before } }
    ensures no_byte { let reached = access_of touching_regions Direct 8 0 Write in
        let before = two_zero_blocks in
        let source = Gives (1 ∷ []) ∷ [] in
        received of_window (option_map error_of reached.fault) false (windows reached.path) 0 source before
        ≡ record { answer = Ok 0; left = source; host = before } }
{}

/// A transfer out offers each window until all of its bytes are taken. A sink that takes none of the bytes that are
/// left fails, and a sink over an empty path is offered nothing.
pub fn transfers_out_of_two_regions()
    ensures whole { let ws = windows (access_of touching_regions Direct 0 8 Read).path in
        given_out of_window None ws 0 (record { next = Takes 3 ∷ []; room = None })
        ≡ record { answer = Ok 8; taken = 8; left = record { next = []; room = None } } }
    ensures stops { let ws = windows (access_of touching_regions Direct 0 8 Read).path in
        given_out of_window None ws 0 (record { next = Takes 3 ∷ Takes 0 ∷ []; room = None })
        ≡ record { answer = Err (IOError WriteZero); taken = 3; left = record { next = []; room = None } } }
    ensures short { let reached = access_of touching_regions Direct 2 8 Read in
        let given = given_out of_window (option_map error_of reached.fault) (windows reached.path) 0
        (record { next = []; room = None }) in
        (given.answer ≡ Ok 6) × (all_of PartialBuffer 8 given.answer ≡ Err (PartialBuffer 8 6)) }
    ensures empty { let reached = access_of touching_regions Direct 8 1 Read in
        given_out of_window (option_map error_of reached.fault) (windows reached.path) 0
        (record { next = Takes 0 ∷ []; room = None })
        ≡ record {
          answer = Err (InvalidGuestAddress (address_of 8));
          taken = 0;
          left = record { next = Takes 0 ∷ []; room = None };
        } }
{}
