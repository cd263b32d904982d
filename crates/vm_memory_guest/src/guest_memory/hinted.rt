//! A memory that asks the region of the last access first.
ghost use Rattle.std.specs.Prelude.{◌≡◌};

use super::{GuestMemory, IommuMemorySliceIterator};
use crate::host::{HostMemory, HostShape, Named};
use crate::region::error::GuestMemoryResult;
use crate::volatile_memory::slice::VolatileSlice;
use std::cell::Cell;
use std::marker::Model;
use vm_memory_base::{Bitmap, GuestAddress, Permissions};

/// A memory for accesses that stay near one another: each asks the region of the one before it first, and searches only
/// if that does not hold its address. All answers are those of the memory that it lends.
///
/// ```text
/// let near = Hinted::new(&memory);
/// let value: u32 = near.read_obj(&host, GuestAddress(0x5000))?;
/// ```
#[derive(Drop)]
pub struct Hinted<'a, M: GuestMemory> {
    memory: &'a M,
    hint: Cell<usize>,
}

impl<'a, M: GuestMemory> Model for Hinted<'a, M> {
    ghost Value = { M };

    ghost view = { λ h. h.memory.now };
}

impl<'a, M: GuestMemory> Hinted<'a, M> {
    /// The memory with a hint of its own. It allocates nothing.
    #[inline]
    pub fn new(memory: &'a M) -> Hinted<'a, M>
        ensures { result ≡ memory.now }
    {
        Hinted::after(memory, 0)
    }

    /// The memory with the hint that `hint` returned before.
    #[inline]
    pub fn after(memory: &'a M, hint: usize) -> Hinted<'a, M>
        ensures { result ≡ memory.now }
    {
        Hinted {
            memory,
            hint: Cell::new(hint),
        }
    }

    /// The hint, for a memory that is made later. Any number will do.
    #[inline]
    pub fn hint(&self) -> usize {
        self.hint.get()
    }
}

impl<'a, M: GuestMemory> Named for Hinted<'a, M> {
    ghost names = { λ m. M.names m };

    fn held_by(&self, shape: &HostShape) -> bool {
        self.memory.held_by(shape)
    }
}

impl<'a, M: GuestMemory> GuestMemory for Hinted<'a, M> {
    type PhysicalMemory = M::PhysicalMemory;

    ghost memory = { λ m. M.memory m };

    ghost each_fits = { λ m. M.each_fits m };

    ghost names_memory = { λ m. M.names_memory m };

    #[inline(always)]
    fn get_slices<B: Bitmap>(
        &self,
        host: &HostMemory<B>,
        addr: GuestAddress,
        count: usize,
        access: Permissions,
    ) -> GuestMemoryResult<IommuMemorySliceIterator<'_, M::PhysicalMemory>> {
        self.memory.get_slices(host, addr, count, access)
    }

    #[inline(always)]
    fn find_window<B: Bitmap>(
        &self,
        host: &HostMemory<B>,
        addr: GuestAddress,
        count: usize,
        access: Permissions,
        _hint: usize,
    ) -> (Option<VolatileSlice>, usize) {
        let hint = self.hint.get();
        let (found, next) = self.memory.find_window(host, addr, count, access, hint);
        self.hint.set(next);
        (found, next)
    }

    #[inline]
    fn physical_memory(&self) -> Option<&M::PhysicalMemory> {
        self.memory.physical_memory()
    }
}
