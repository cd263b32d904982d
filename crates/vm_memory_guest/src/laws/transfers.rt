//! What a transfer of guest memory is, from a source or to a sink, known or not: each function here is a theorem, and
//! does nothing. It calls the theorems that it follows from.
ghost use Rattle.std.specs.Prelude.{◌≡◌, ◌⊎◌, ℕ, ◌+◌, ◌++◌, ◌≤◌, Bool, true, All, List, Option, Some, Result, Ok, Err};
ghost use Rattle.std.specs.Prelude.{IfOk, IfErr, length, take};
ghost use Rattle.vm_memory_base.specs.Pages.{PageSet};
ghost use Rattle.vm_memory_base.specs.Transfer.{Next, Sink};
ghost use Rattle.vm_memory_base.specs.declared.io.VolatileMemoryError.{VolatileMemoryError};
ghost use Rattle.vm_memory_guest.specs.Access.{Reached, windows};
ghost use Rattle.vm_memory_guest.specs.Dealt.{given_out, received};
ghost use Rattle.vm_memory_guest.specs.Dirt.{with_pages};
ghost use Rattle.vm_memory_guest.specs.Error.{of_window};
ghost use Rattle.vm_memory_guest.specs.Host.{Host, bytes_at};
ghost use Rattle.vm_memory_guest.specs.Lent.{AllWhole, AreDirty, MarksChanges, fails_as};
ghost use Rattle.vm_memory_guest.specs.Transfer.{Fills, InOrder, Takes, UntilWhole, beside, filling};
ghost use Rattle.vm_memory_guest.specs.Window.{Window, cells, span};
ghost use Rattle.vm_memory_guest.specs.declared.region.error.GuestMemoryError.{GuestMemoryError};

use std::io::ErrorKind;
use vm_memory_base::laws::pages::{mark_is_by_bytes, mark_keeps_shape, marked_bytes_are_dirty};
use vm_memory_base::{Bitmap, ExactBitmap, ReadVolatile, VolatileMemoryError, WriteVolatile};

/// A transfer in from a source that says what it does next, into a host with exact bitmaps. What the source was to do
/// determines its result, what the source does next, and the bytes and the pages of the host.
pub fn transfers_in_are_computed<S: ReadVolatile, B: ExactBitmap>()
    ensures { (until_full : Bool) (fault : Option GuestMemoryError) (ws : List Window) (total : ℕ)
        (next : List Next) (source after : S) (old new : Host B) (answer : Result ℕ GuestMemoryError)
        → S.source source ≡ Some next
        → InOrder of_window fault (Fills S.source S.reads S.known_left B.marks (filling until_full)) ws total
        (beside source old) answer (beside after new)
        → let dealt = received of_window fault until_full ws total next (with_pages B.pages old) in
        (answer ≡ dealt.answer) × (S.source after ≡ Some dealt.left) × (with_pages B.pages new ≡ dealt.host) }
{
    mark_is_by_bytes();
}

/// A transfer in changes only bytes of the windows that it was lent, and marks each that it changes.
pub fn transfers_in_mark_what_they_change()
    ensures { (fault : Option GuestMemoryError) (until_full : Bool) (ws : List Window) (total : ℕ)
        (next : List Next) (host : Host PageSet)
        → MarksChanges ws host (received of_window fault until_full ws total next host).host }
{
    mark_keeps_shape();
    marked_bytes_are_dirty();
}

/// A transfer in that returns an error returns a failure of its source, or what kept it from reaching any byte. In
/// the second case nothing changed. After a failure, what came before it and what it wrote over stay.
pub fn refused_transfers_in_change_nothing()
    ensures { (test : VolatileMemoryError → Bool) (fault : Option GuestMemoryError) (until_full : Bool)
        (xs : List Reached) (next : List Next) (host : Host PageSet) (e : GuestMemoryError)
        → All (λ n. fails_as test n ≡ true) next
        → let dealt = received of_window fault until_full (windows xs) 0 next host in dealt.answer ≡ Err e
        → ((v : VolatileMemoryError) × (test v ≡ true) × (e ≡ of_window v))
        ⊎ ((fault ≡ Some e) × (dealt.host ≡ host)) }
{}

/// A transfer in that lends each window until it is full, and returns no fewer bytes than its windows have, returns
/// just as many. It filled each window whole, one after the other. This holds of any source, known or not.
pub fn whole_transfers_in_fill_each_window<S: ReadVolatile, B: Bitmap>()
    ensures { (fault : Option GuestMemoryError) (ws : List Window) (n : ℕ) (source after : S) (old new : Host B)
        → let Moves = Fills S.source S.reads S.known_left B.marks UntilWhole in
        InOrder of_window fault Moves ws 0 (beside source old) (Ok n) (beside after new) → span ws ≤ n
        → (n ≡ span ws) × AllWhole Moves ws (beside source old) (beside after new) }
{}

/// Every error of a transfer in is an error of its source, or the fault that ended the walk: if each error of a
/// read passes a test, the transfer's is one that passes. So over a file, whose errors are I/O errors, no allocation
/// of its own fails.
pub fn transfers_in_fail_as_reads_do<S: ReadVolatile, B: Bitmap>()
    ensures { (test : VolatileMemoryError → Bool) (fault : Option GuestMemoryError) (until_full : Bool)
        (ws : List Window) (source after : S) (old new : Host B) (e : GuestMemoryError)
        → ((s t : S) (lent left : List ℕ) (a : Result ℕ VolatileMemoryError) → S.reads s lent a left t
        → IfErr a (λ v. test v ≡ true))
        → InOrder of_window fault (Fills S.source S.reads S.known_left B.marks (filling until_full)) ws 0
        (beside source old) (Err e) (beside after new)
        → ((v : VolatileMemoryError) × (test v ≡ true) × (e ≡ of_window v)) ⊎ (fault ≡ Some e) }
{}

/// Likewise, every error of a transfer out is an error of its sink, or the fault that ended the walk. A sink that
/// takes none of the bytes that are left is `WriteZero`.
pub fn transfers_out_fail_as_writes_do<S: WriteVolatile>()
    ensures { (test : VolatileMemoryError → Bool) (fault : Option GuestMemoryError) (ws : List Window) (old new : S)
        (blocks : List (List ℕ)) (e : GuestMemoryError)
        → test (VolatileMemoryError.IOError ErrorKind.WriteZero) ≡ true
        → ((s t : S) (bytes : List ℕ) (a : Result ℕ VolatileMemoryError) → S.writes s bytes a t
        → IfErr a (λ v. test v ≡ true))
        → InOrder of_window fault (Takes S.sink S.taken S.may_want S.writes blocks UntilWhole) ws 0 old (Err e) new
        → ((v : VolatileMemoryError) × (test v ≡ true) × (e ≡ of_window v)) ⊎ (fault ≡ Some e) }
{}

/// Each byte of a window that any source filled whole is dirty then, if the bitmaps are exact.
pub fn filled_windows_are_dirty<S: ReadVolatile, B: ExactBitmap>()
    ensures { (ws : List Window) (source after : S) (old new : Host B)
        → AllWhole (Fills S.source S.reads S.known_left B.marks UntilWhole) ws (beside source old) (beside after new)
        → AreDirty ws (with_pages B.pages new) }
{
    mark_is_by_bytes();
    mark_keeps_shape();
    marked_bytes_are_dirty();
}

/// A transfer out to a sink that says what it does next. What the sink was to do determines the result and what the
/// sink does next. Or the sink's allocation failed, if it may.
pub fn transfers_out_are_computed<S: WriteVolatile>()
    ensures { (fault : Option GuestMemoryError) (ws : List Window) (total : ℕ) (state : Sink) (old new : S)
        (blocks : List (List ℕ)) (answer : Result ℕ GuestMemoryError) → S.sink old ≡ Some state
        → InOrder of_window fault (Takes S.sink S.taken S.may_want S.writes blocks UntilWhole) ws total old answer new
        → let given = given_out of_window fault ws total state in
        ((answer ≡ Err GuestMemoryError.Memory) × S.may_want old)
        ⊎ ((answer ≡ given.answer) × (S.sink new ≡ Some given.left)) }
{}

/// A transfer out to a sink that says what it does next, and keeps what it takes. What the sink was to do determines
/// how many of the windows' first bytes it took. Or the sink's allocation failed, if it may.
pub fn sinks_take_what_is_computed<S: WriteVolatile>()
    ensures { (fault : Option GuestMemoryError) (ws : List Window) (total : ℕ) (state : Sink) (before : List ℕ)
        (old new : S) (blocks : List (List ℕ)) (answer : Result ℕ GuestMemoryError) → S.sink old ≡ Some state
        → S.taken old ≡ Some before
        → InOrder of_window fault (Takes S.sink S.taken S.may_want S.writes blocks UntilWhole) ws total old answer new
        → let given = given_out of_window fault ws total state in
        ((answer ≡ Err GuestMemoryError.Memory) × S.may_want old)
        ⊎ ((count : ℕ) × (given.taken ≡ total + count)
        × (S.taken new ≡ Some (before ++ take count (bytes_at blocks (cells ws))))) }
{}

/// A transfer out to a sink that keeps what it takes: it took the first bytes of the windows, in order, and as many as
/// the result counts, if it is a count.
pub fn sinks_take_the_first_bytes<S: WriteVolatile>()
    ensures { (fault : Option GuestMemoryError) (ws : List Window) (total : ℕ) (before : List ℕ) (old new : S)
        (blocks : List (List ℕ)) (answer : Result ℕ GuestMemoryError) → S.taken old ≡ Some before
        → InOrder of_window fault (Takes S.sink S.taken S.may_want S.writes blocks UntilWhole) ws total old answer new
        → (count : ℕ) × (count ≤ span ws) × (S.taken new ≡ Some (before ++ take count (bytes_at blocks (cells ws))))
        × IfOk answer (λ n. n ≡ total + count) }
{}

/// A transfer out to a vector: it gets the bytes of the first windows, each whole. If the result is a count, it
/// gets those of all windows.
pub fn vectors_take_whole_windows()
    ensures { let w = ⟦<Vec<u8> as WriteVolatile>⟧ in (fault : Option GuestMemoryError) (ws : List Window) (total : ℕ)
        (old new : _) (blocks : List (List ℕ)) (answer : Result ℕ GuestMemoryError)
        → InOrder of_window fault (Takes w.sink w.taken w.may_want w.writes blocks UntilWhole) ws total old answer new
        → (k : ℕ) × (new.items ≡ old.items ++ bytes_at blocks (cells (take k ws)))
        × IfOk answer (λ n. k ≡ length ws) }
{}
