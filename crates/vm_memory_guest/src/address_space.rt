//! Types that give snapshots of guest memory.
ghost use Rattle.std.specs.Prelude.{◌≡◌, IfOk};

use crate::guest_memory::GuestMemory;
use std::alloc::{AllocError, Global};
use std::rc::Rc;
use std::sync::{Arc, Wait};
use vm_memory_base::Lends;

/// Gives snapshots of guest memory that stays the same, or that another thread may replace.
///
/// A snapshot never changes, so a device may use it for as long as it likes.
///
/// ```text
/// let snapshot = space.memory(&rt, alloc)?;
/// let count = snapshot.lend().read(&host, &mut buffer, GuestAddress(0x1000))?;
/// ```
pub trait GuestAddressSpace {
    /// The type of the memory.
    type M: GuestMemory;

    /// The type of a snapshot.
    type T: Lends<Target = Self::M>;

    /// The memories that a snapshot taken now may be of.
    ghost may_be: { Self → Self.M → Type 0 };

    /// A snapshot of the memory. It may wait for a lock. `AllocError` if the memory cannot be shared once
    /// more, because it has 2^63 - 1 owners.
    fn memory(&self, rt: &impl Wait, alloc: Global) -> Result<Self::T, AllocError>
        ensures { IfOk result (λ snapshot. may_be self.now (Self.T.lent snapshot)) };
}

impl<'a, M: GuestMemory> GuestAddressSpace for &'a M {
    type M = M;

    type T = &'a M;

    ghost may_be = { λ space memory. memory ≡ space.now };

    #[inline]
    fn memory(&self, _rt: &impl Wait, _alloc: Global) -> Result<&'a M, AllocError> {
        Ok(*self)
    }
}

impl<M: GuestMemory + Drop> GuestAddressSpace for Rc<M> {
    type M = M;

    type T = Rc<M>;

    ghost may_be = { λ space memory. memory ≡ space.value };

    #[inline]
    fn memory(&self, _rt: &impl Wait, _alloc: Global) -> Result<Rc<M>, AllocError> {
        self.clone()
    }
}

impl<M: GuestMemory> GuestAddressSpace for Arc<M> {
    type M = M;

    type T = Arc<M>;

    ghost may_be = { λ space memory. memory ≡ space.value };

    #[inline]
    fn memory(&self, _rt: &impl Wait, _alloc: Global) -> Result<Arc<M>, AllocError> {
        Arc::try_clone(self)
    }
}
