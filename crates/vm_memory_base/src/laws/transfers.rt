//! Sources and sinks in small cases, by computation.
#![tactic(auto, unfolding(crate::specs::Transfer::again_upto, crate::specs::Transfer::rest_of))]

ghost use Rattle.std.specs.Prelude.{◌≡◌, ℕ, ◌++◌, false, List, [], ◌∷◌, length, replicate, Result, Some, None};
ghost use Rattle.vm_memory_base.specs.InMemory.{HasAllOrNone};
ghost use Rattle.vm_memory_base.specs.Transfer.{Gives, Fails, tried, again, lending, lent_once, filled_whole, Takes};
ghost use Rattle.vm_memory_base.specs.Transfer.{Refuses, offered, Whole, Dry, sent, sent_as};
ghost use Rattle.vm_memory_base.specs.Transfer.{Answer, Again, FillsAs, FillsBy, Keeps, OffersAs, SendsAs, SendsBy};
ghost use Rattle.vm_memory_base.specs.Transfer.{TakesOnce, count_of};
ghost use Rattle.vm_memory_base.specs.declared.io.ReadExactFault.{ReadExactFault};
ghost use Rattle.vm_memory_base.specs.declared.io.VolatileMemoryError.TheVariants.{IOError};
ghost use Rattle.vm_memory_base.specs.declared.io.VolatileMemoryError.{VolatileMemoryError};
ghost use Rattle.std.specs.declared.io.ErrorKind.TheVariants.{Interrupted, Other, UnexpectedEof, WriteZero};

use crate::io::{ReadVolatile, WriteVolatile};

/// What a source does not give at one try it gives at the next, and after a failure its scribble stays. 64
/// interruptions in a row are tried again, and the 65th is returned. A buffer is filled by repeated tries. If the
/// source ends early, what is filled may have changed, and all of it if a try was interrupted or failed. A source that
/// knows that it is short refuses at once.
pub fn what_sources_give()
    ensures short { tried 4 (Gives (1 ∷ 2 ∷ []) ∷ Fails [] (IOError Other) ∷ [])
        ≡ record { bytes = 1 ∷ 2 ∷ []; answer = Ok 2; left = Fails [] (IOError Other) ∷ [] } }
    ensures part { tried 2 (Gives (1 ∷ 2 ∷ 3 ∷ []) ∷ [])
        ≡ record { bytes = 1 ∷ 2 ∷ []; answer = Ok 2; left = Gives (3 ∷ []) ∷ [] } }
    ensures scribble { tried 2 (Fails (7 ∷ 8 ∷ 9 ∷ []) (IOError Other) ∷ [])
        ≡ record { bytes = 7 ∷ 8 ∷ []; answer = Err (IOError Other); left = [] } }
    ensures nothing_asked { tried 0 (Fails (7 ∷ []) (IOError Other) ∷ [])
        ≡ record { bytes = []; answer = Ok 0; left = Fails (7 ∷ []) (IOError Other) ∷ [] } }
    ensures interruptions { let source = replicate 64 (Fails [] (IOError Interrupted)) ++ Gives (1 ∷ 2 ∷ []) ∷ [] in
        (again lent_once (lending (0 ∷ 0 ∷ []) source)).answer ≡ Ok 2 }
    ensures one_more { let source = replicate 65 (Fails [] (IOError Interrupted)) ++ Gives (1 ∷ 2 ∷ []) ∷ [] in
        (again lent_once (lending (0 ∷ 0 ∷ []) source)).answer ≡ Err (IOError Interrupted) }
    ensures scribbled { let source = Fails (9 ∷ []) (IOError Interrupted) ∷ [] in
        (again lent_once (lending (0 ∷ 0 ∷ []) source)).left.buffer ≡ 9 ∷ 0 ∷ [] }
    ensures filled { filled_whole None (0 ∷ 0 ∷ 0 ∷ []) (Gives (1 ∷ []) ∷ Gives (2 ∷ 3 ∷ 4 ∷ []) ∷ [])
        ≡ record { buffer = 1 ∷ 2 ∷ 3 ∷ []; answer = Ok tt; left = Gives (4 ∷ []) ∷ [] } }
    ensures ends { (filled_whole None (0 ∷ 0 ∷ 0 ∷ []) (Gives (1 ∷ []) ∷ [])).answer
        ≡ Err (record { touched = 1; error = IOError UnexpectedEof }) }
    ensures ends_interrupted { let source = Fails [] (IOError Interrupted) ∷ Gives (1 ∷ []) ∷ [] in
        (filled_whole None (0 ∷ 0 ∷ 0 ∷ []) source).answer
        ≡ Err (record { touched = 3; error = IOError UnexpectedEof }) }
    ensures fails { filled_whole None (0 ∷ 0 ∷ 0 ∷ []) (Gives (1 ∷ []) ∷ Fails (9 ∷ []) (IOError Other) ∷ [])
        ≡ record {
          buffer = 1 ∷ 9 ∷ 0 ∷ [];
          answer = Err (record { touched = 3; error = IOError Other });
          left = [];
        } }
    ensures knows { filled_whole (Some 1) (0 ∷ 0 ∷ 0 ∷ []) (Gives (1 ∷ []) ∷ [])
        ≡ record {
          buffer = 0 ∷ 0 ∷ 0 ∷ [];
          answer = Err (record { touched = 0; error = IOError UnexpectedEof });
          left = Gives (1 ∷ []) ∷ [];
        } }
{}

/// A sink takes at most what it has room for. Bytes are sent by repeated tries, with up to 64 interruptions in a row,
/// and a sink that takes none of the rest ends it.
pub fn what_sinks_take()
    ensures most { offered 5 (record { next = Takes 3 ∷ []; room = Some 4 })
        ≡ record { answer = Ok 3; left = record { next = []; room = Some 1 } } }
    ensures room { offered 5 (record { next = []; room = Some 4 })
        ≡ record { answer = Ok 4; left = record { next = []; room = Some 0 } } }
    ensures all { offered 5 (record { next = []; room = None })
        ≡ record { answer = Ok 5; left = record { next = []; room = None } } }
    ensures refuses { offered 5 (record { next = Refuses (IOError Other) ∷ []; room = Some 4 })
        ≡ record { answer = Err (IOError Other); left = record { next = []; room = Some 4 } } }
    ensures sent { sent 8 (record { next = Takes 3 ∷ []; room = None })
        ≡ record { count = 8; stop = Whole; left = record { next = []; room = None } } }
    ensures stops { sent 8 (record { next = Takes 3 ∷ Takes 0 ∷ []; room = None })
        ≡ record { count = 3; stop = Dry; left = record { next = []; room = None } } }
    ensures interruptions { let next = replicate 64 (Refuses (IOError Interrupted)) in
        (again (offered 2) (record { next = next; room = None })).answer ≡ Ok 2 }
    ensures one_more { let next = replicate 65 (Refuses (IOError Interrupted)) in
        (again (offered 2) (record { next = next; room = None })).answer ≡ Err (IOError Interrupted) }
{}

/// If what a source does next is known, a buffer that it fills by repeated reads is computed, and so are the result
/// and what it does then.
///
/// Witness: tests_base::fill
pub fn fills_are_computed<S: ReadVolatile>()
    ensures { (old new : _) (buf after : List ℕ) (answer : Result (Unit {0}) ReadExactFault)
        → FillsBy S.source S.reads S.known_left old buf answer after new
        → FillsAs (S.known_left old) (S.source old) buf answer after (S.source new) }
{}

/// If what a sink does next is known, what comes of bytes that are offered by tries is computed, or its allocation
/// failed, and what it keeps are the first bytes. A sink that never fails to allocate does not come to do so.
///
/// Witness: tests_base::offer
pub fn offers_are_computed<S: WriteVolatile>()
    ensures { (old new : _) (bytes : List ℕ) (answer : Answer)
        → Again (TakesOnce S.sink S.taken S.may_want S.writes bytes) old answer new
        → OffersAs (S.may_want old) (S.sink old) (length bytes) answer (S.sink new)
        × Keeps (S.taken old) bytes (count_of answer) (S.taken new) × (S.may_want new → S.may_want old) }
{}

/// The same for bytes that are sent by tries of the rest.
///
/// Witness: tests_base::send
pub fn sends_are_computed<S: WriteVolatile>()
    ensures { (old new : _) (bytes : List ℕ) (count : ℕ) (answer : Result (Unit {0}) VolatileMemoryError)
        → SendsBy (TakesOnce S.sink S.taken S.may_want S.writes) old bytes count answer new
        → SendsAs (S.may_want old) (S.sink old) (length bytes) count answer (S.sink new)
        × Keeps (S.taken old) bytes count (S.taken new) × (S.may_want new → S.may_want old) }
{}

/// A vector that is sent bytes gets all of them, or none if the allocation failed. So it holds whole pieces.
///
/// Witness: tests_base::keep
pub fn vectors_take_whole_pieces()
    ensures { let w = ⟦<Vec<u8> as WriteVolatile>⟧ in (old new : _) (bytes : List ℕ) (count : ℕ)
        (answer : Result (Unit {0}) VolatileMemoryError)
        → SendsBy (TakesOnce w.sink w.taken w.may_want w.writes) old bytes count answer new
        → HasAllOrNone old.items bytes answer new.items }
{}
