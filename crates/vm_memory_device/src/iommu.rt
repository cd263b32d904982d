//! Guest memory behind an IOMMU.
ghost use Rattle.std.specs.Prelude.{◌≡◌, ◌⊎◌, ◌<◌, ◌∷◌, ◌++◌, [], ℕ, IfOk, IfSome, MatchResult, map};
ghost use Rattle.vm_memory_base.specs.Lookup.{Translates, RefusesTranslation};
ghost use Rattle.vm_memory_base.specs.Table.{says};
ghost use Rattle.vm_memory_guest.specs.Host as names;
ghost use Rattle.vm_memory_device.specs.Iommu.{behind, of_translation};

use std::alloc::{AllocError, Global};
use std::marker::Model;
use std::sync::Arc;
use vm_memory_base::{
    Bitmap, GuestAddress, IommuError, Iotlb, MappedRange, MappedRangeList, Permissions,
};
use vm_memory_guest::laws::host::names_are_held_one_by_one;
use vm_memory_guest::{
    GuestMemory, GuestMemoryBackend, GuestMemoryError, GuestMemoryResult, HostMemory, HostShape,
    IommuMemorySliceIterator, Named, SpaceId, TlbId, VolatileSlice,
};

/// An IOMMU: it translates I/O addresses. Its table lies in the host, which lends it.
///
/// ```text
/// let pieces = iommu.translate(alloc, host.table(iommu.table()), addr, 8, Permissions::Read)?;
/// for piece in pieces.as_slice() {
///     count += piece.length;
/// }
/// ```
pub trait Iommu: Named + Drop {
    /// The number of its table.
    ghost number: { Self → ℕ };

    /// The number of its table in the host.
    fn table(&self) -> TlbId
        ensures { result.0 ≡ number self.now };

    /// Translates `length` addresses from `iova` on for an access, to pieces in order: those of a look-up in the table.
    /// `CannotResolve`, with the whole range, if the table does not allow it: `MissingMapping` if an address is not
    /// mapped or the end is not an address, and `AccessNotAllowed` otherwise. `Memory` if the table allows the access,
    /// which has two pieces or more, but their allocation fails. There are no other errors.
    ///
    /// Leaves open: a failed allocation for addresses that the table allows by two pieces or more.
    fn translate(
        &self,
        alloc: Global,
        table: &Iotlb,
        iova: GuestAddress,
        length: usize,
        access: Permissions,
    ) -> Result<MappedRangeList, IommuError>
        ensures { MatchResult result
            (λ found. Translates (says table.now) iova.0 length access found)
            (RefusesTranslation (says table.now) iova.0 length access) };

    /// The piece of a translation that leads to one, if it is found at once. It allocates nothing, and `None` says
    /// nothing of the translation.
    #[inline]
    fn translate_one(
        &self,
        table: &Iotlb,
        iova: GuestAddress,
        length: usize,
        access: Permissions,
    ) -> Option<MappedRange>
        ensures { IfSome result (λ piece. Translates (says table.now) iova.0 length access (piece ∷ [])) }
    {
        table.resolve_one(iova, length, access)
    }

    /// It names its table.
    ghost names_table: { (iommu : Self) → Self.names iommu ≡ names.Tlb (number iommu) ∷ [] };
}

/// An IOMMU that allows exactly what its table allows.
#[derive(Clone, Copy, Debug, Drop)]
pub struct TableIommu {
    table: TlbId,
}

impl Model for TableIommu {
    ghost use Rattle.std.specs.Prelude.{ℕ};

    ghost Value = { ℕ };

    ghost view = { λ iommu. iommu.table.0 };

    ghost inverse = { λ number. record { table = record { 0 = number } } };
}

impl TableIommu {
    /// An IOMMU over the table of this number.
    pub fn new(table: TlbId) -> TableIommu
        ensures { result ≡ table.0 }
    {
        TableIommu { table }
    }
}

impl Named for TableIommu {
    ghost names = { λ number. names.Tlb number ∷ [] };

    fn held_by(&self, shape: &HostShape) -> bool {
        shape.has_table(self.table)
    }
}

impl Iommu for TableIommu {
    ghost use Rattle.std.specs.Prelude.{refl};

    ghost number = { λ number. number };

    fn table(&self) -> TlbId {
        self.table
    }

    #[inline]
    fn translate(
        &self,
        _alloc: Global,
        table: &Iotlb,
        iova: GuestAddress,
        length: usize,
        access: Permissions,
    ) -> Result<MappedRangeList, IommuError> {
        table.resolve(iova, length, access)
    }

    ghost names_table = { λ iommu. refl };
}

// The error of guest memory for an error of a translation: a failed allocation is an error of its own.
fn error_of_translation(error: IommuError) -> GuestMemoryError
    ensures { result ≡ of_translation error }
{
    match error {
        IommuError::Memory => GuestMemoryError::Memory,
        IommuError::CannotResolve { .. }
        | IommuError::Fragmented { .. }
        | IommuError::IommuMisconfigured { .. } => GuestMemoryError::IommuError(error),
    }
}

/// Guest memory behind an IOMMU. While the IOMMU is on, each access goes through its table: it is refused before any
/// byte moves, or its windows are where the table leads in the backend, and a write marks a space of the host at the
/// I/O address. While it is off, each access goes to the backend.
///
/// ```text
/// let mut memory = IommuMemory::new(alloc, layout, Arc::new(alloc, TableIommu::new(table))?, false, space);
/// memory.set_iommu_enabled(true);
/// let value: u32 = memory.read_obj(&host, GuestAddress(0x5000))?;
/// ```
#[derive(Drop)]
pub struct IommuMemory<M: GuestMemoryBackend, I: Iommu> {
    alloc: Global,
    backend: M,
    iommu: Arc<I>,
    use_iommu: bool,
    space: SpaceId,
}

impl<M: GuestMemoryBackend, I: Iommu> Model for IommuMemory<M, I> {
    ghost use Rattle.vm_memory_device.specs.Iommu.{Behind};

    ghost Value = { Behind M I };

    ghost view = { λ m. record {
      backend = m.backend;
      iommu = m.iommu.value;
      on = m.use_iommu;
      space = m.space.0;
    } };
}

impl<M: GuestMemoryBackend, I: Iommu> IommuMemory<M, I> {
    /// Memory behind an IOMMU, which is on if `use_iommu` is true. Writes through it mark the space `space`.
    /// Translations allocate from `alloc`.
    pub fn new(
        alloc: Global,
        backend: M,
        iommu: Arc<I>,
        use_iommu: bool,
        space: SpaceId,
    ) -> IommuMemory<M, I>
        ensures { result ≡ record {
          backend = backend;
          iommu = iommu.value;
          on = use_iommu;
          space = space.0;
        } }
    {
        IommuMemory {
            alloc,
            backend,
            iommu,
            use_iommu,
            space,
        }
    }

    /// The same memory over another backend: it shares the IOMMU, and keeps the space and whether the IOMMU is on.
    /// `AllocError` if the IOMMU already has 2^63 - 1 owners.
    pub fn with_replaced_backend(&self, new_backend: M) -> Result<IommuMemory<M, I>, AllocError>
        ensures { IfOk result (λ new. new ≡ record self.now { backend = new_backend }) }
    {
        Ok(IommuMemory {
            alloc: self.alloc,
            backend: new_backend,
            iommu: self.iommu.clone()?,
            use_iommu: self.use_iommu,
            space: self.space,
        })
    }

    /// The space that writes mark while the IOMMU is on.
    pub fn bitmap(&self) -> SpaceId
        ensures { result.0 ≡ self.now.space }
    {
        self.space
    }

    /// Turns the IOMMU on or off. While it is off, accesses go to the backend untranslated.
    pub fn set_iommu_enabled(&mut self, enabled: bool)
        ensures { self.new ≡ record self.old { on = enabled } }
    {
        self.use_iommu = enabled;
    }

    /// Whether the IOMMU is on.
    pub fn get_iommu_enabled(&self) -> bool
        ensures { result ≡ self.now.on }
    {
        self.use_iommu
    }

    /// Lends the IOMMU, whether it is on or off.
    pub fn iommu(&self) -> &Arc<I>
        ensures { result.now.value ≡ self.now.iommu }
    {
        &self.iommu
    }

    /// Lends the backend, whose addresses are physical.
    pub fn get_backend(&self) -> &M
        ensures { result.now ≡ self.now.backend }
    {
        &self.backend
    }
}

/// The backend is cloned, and the IOMMU is shared. `AllocError` if either fails.
impl<M: GuestMemoryBackend + Clone, I: Iommu> Clone for IommuMemory<M, I> {
    ghost is_clone = { λ old new. M.is_clone old.backend new.backend
        × (new ≡ record old { backend = new.backend }) };

    fn clone(&self) -> Result<Self, AllocError> {
        let backend = self.backend.clone()?;
        self.with_replaced_backend(backend)
    }
}

impl<M: GuestMemoryBackend, I: Iommu> Named for IommuMemory<M, I> {
    ghost names = { λ m. M.names m.backend ++ (I.names m.iommu ++ names.Space m.space ∷ []) };

    fn held_by(&self, shape: &HostShape) -> bool {
        names_are_held_one_by_one();
        if !self.backend.held_by(shape) || !self.iommu.held_by(shape) {
            return false;
        }
        shape.has_space(self.space)
    }
}

impl<M: GuestMemoryBackend, I: Iommu> GuestMemory for IommuMemory<M, I> {
    ghost use Rattle.vm_memory_guest.specs.Collection.{each_is_region};
    ghost use Rattle.vm_memory_device.specs.Iommu.{names-parts};

    type PhysicalMemory = M;

    ghost memory = { λ m. behind (map M.R.region (M.regions m.backend)) (I.number m.iommu) m.space m.on };

    ghost each_fits = { λ m. each_is_region M.R.region M.R.fits (M.regions m.backend) };

    ghost names_memory = { λ m. names-parts (map M.R.region (M.regions m.backend)) m.space
        (M.names_regions m.backend) (I.names_table m.iommu) };

    #[inline(always)]
    fn get_slices<B: Bitmap>(
        &self,
        host: &HostMemory<B>,
        addr: GuestAddress,
        count: usize,
        access: Permissions,
    ) -> GuestMemoryResult<IommuMemorySliceIterator<'_, M>> {
        self.backend.recall_law();
        if !self.use_iommu {
            return GuestMemory::get_slices(&self.backend, host, addr, count, access);
        }
        let table = host.table(self.iommu.table());
        if let Some(piece) = self.iommu.translate_one(table, addr, count, access) {
            let pieces = MappedRangeList::one(self.alloc, piece);
            return Ok(IommuMemorySliceIterator::of_pieces(&self.backend, pieces, addr, self.space));
        }
        match self.iommu.translate(self.alloc, table, addr, count, access) {
            Ok(pieces) => Ok(IommuMemorySliceIterator::of_pieces(
                &self.backend,
                pieces,
                addr,
                self.space,
            )),
            Err(error) => Err(error_of_translation(error)),
        }
    }

    #[inline(always)]
    fn find_window<B: Bitmap>(
        &self,
        host: &HostMemory<B>,
        addr: GuestAddress,
        count: usize,
        access: Permissions,
        hint: usize,
    ) -> (Option<VolatileSlice>, usize) {
        if self.use_iommu {
            let table = host.table(self.iommu.table());
            let Some(piece) = self.iommu.translate_one(table, addr, count, access) else {
                return (None, hint);
            };
            return IommuMemorySliceIterator::window_of_piece(
                &self.backend,
                piece,
                addr,
                self.space,
                hint,
            );
        }
        GuestMemory::find_window(&self.backend, host, addr, count, access, hint)
    }

    #[inline]
    fn physical_memory(&self) -> Option<&M> {
        if self.use_iommu {
            return None;
        }
        Some(&self.backend)
    }
}
