//! `stop_on_error`: windows up to the first error.
ghost use Rattle.std.specs.Prelude.{◌≡◌, Result, Option, is_none};
ghost use Rattle.std.specs.Iterator.{IsFinite, YieldsFirst, item_count};
ghost use Rattle.vm_memory_guest.specs.Access.{AccessFault};
ghost use Rattle.vm_memory_guest.specs.Answer.{Reach};
ghost use Rattle.vm_memory_guest.specs.Walk.{items_of, windows_before, windows_from};
ghost use Rattle.vm_memory_guest.specs.Window.{Window};
ghost use Rattle.vm_memory_guest.specs.declared.region.error.GuestMemoryError.{GuestMemoryError};

use crate::region::error::GuestMemoryResult;
use crate::volatile_memory::slice::VolatileSlice;
use std::marker::Model;

/// The windows of an access, one after the other, and then the error that stopped it. After its end or
/// an error it stays ended.
///
/// ```text
/// for window in memory.get_slices(&host, addr, 8, Permissions::Read)?.stop_on_error()? {
///     count += window.len();
/// }
/// ```
pub trait GuestMemorySliceIterator: Iterator<Item = GuestMemoryResult<VolatileSlice>> {
    /// The windows that are left, and what stops it after them.
    ghost left: { Self → Reach AccessFault };

    /// The windows without the error. If the error comes first, it is returned. If it comes later, it ends
    /// them silently.
    #[inline]
    final fn stop_on_error(mut self) -> GuestMemoryResult<StopOnError<Self>>
    where
        Self: Sized,
        ensures { result ≡ windows_before (left self).windows (left self).fault }
    {
        match self.next() {
            Some(Ok(window)) => Ok(StopOnError {
                next: Some(window),
                rest: self,
            }),
            Some(Err(error)) => Err(error),
            None => Ok(StopOnError {
                next: None,
                rest: self,
            }),
        }
    }

    /// A walk can always be asked for its next item.
    ghost can: { (it : Self) → Self.can_next it };

    /// A walk ends.
    ghost ends: { (it : Self) → IsFinite (Self.remaining it) };

    /// A walk gives the windows that are left, in order, and then its error.
    ghost gives: { (old : Self) (item : Option (Result Window GuestMemoryError)) (new : Self)
        → Self.next_gives old item new → YieldsFirst (λ it. items_of (left it)) old item new };
}

/// Windows that are left, without the error that may come after them. After its end it stays ended.
#[derive(Drop)]
pub struct StopOnError<I: GuestMemorySliceIterator> {
    next: Option<VolatileSlice>,
    rest: I,
}

impl<I: GuestMemorySliceIterator> Model for StopOnError<I> {
    ghost use Rattle.std.specs.Prelude.{List};
    ghost use Rattle.vm_memory_guest.specs.Walk.{windows_from};
    ghost use Rattle.vm_memory_guest.specs.Window.{Window};

    ghost Value = { List Window };

    ghost view = { λ it. windows_from it.next (I.left it.rest).windows };
}

impl<I: GuestMemorySliceIterator> Iterator for StopOnError<I> {
    type Item = VolatileSlice;

    ghost next_gives = { YieldsFirst (λ rest. rest) };

    ghost remaining = { item_count (λ rest. rest) };

    #[inline]
    fn next(&mut self) -> Option<VolatileSlice> {
        let window = self.next?;
        self.next = next_window(&mut self.rest);
        Some(window)
    }
}

// The next window of a walk, or `None` at its end or its error.
#[inline]
fn next_window<I: GuestMemorySliceIterator>(walk: &mut I) -> Option<VolatileSlice>
    ensures { (I.left walk.old).windows ≡ windows_from result (I.left walk.new).windows }
{
    match walk.next() {
        Some(Ok(window)) => Some(window),
        Some(Err(_)) => None,
        None => None,
    }
}

// Whether a walk gives no error.
#[inline(always)]
pub(super) fn ends_well<I: GuestMemorySliceIterator>(walk: I) -> bool
    ensures { result ≡ is_none (I.left walk).fault }
{
    for item in walk {
        match item {
            Ok(_) => {}
            Err(_) => return false,
        }
    }
    true
}
