//! References and owners that lend a value.
ghost use Rattle.std.specs.Prelude.{◌≡◌};

use std::rc::Rc;
use std::sync::Arc;

/// A reference or an owner of a value, which lends it.
///
/// ```text
/// let regions = snapshot.lend().num_regions();
/// ```
pub trait Lends {
    /// The type of the value.
    type Target;

    /// The value.
    ghost lent: { Self → Self.Target };

    /// Lends the value.
    fn lend(&self) -> &Self::Target
        ensures { result.now ≡ lent self.now };
}

impl<T> Lends for &T {
    type Target = T;

    ghost lent = { λ lender. lender.now };

    #[inline]
    fn lend(&self) -> &T {
        *self
    }
}

impl<T> Lends for Rc<T> {
    type Target = T;

    ghost lent = { λ owner. owner.value };

    #[inline]
    fn lend(&self) -> &T {
        &**self
    }
}

impl<T> Lends for Arc<T> {
    type Target = T;

    ghost lent = { λ owner. owner.value };

    #[inline]
    fn lend(&self) -> &T {
        &**self
    }
}
