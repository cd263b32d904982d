//! Collections of regions: layouts of guest physical memory, which are backends of guest memory.
ghost use Rattle.std.specs.Prelude.{◌≡◌, ℕ, ◌-◌, ◌<◌, ◌≤◌, ◌↔◌, ◌⊎◌, [], map, flat_map, length, slice_index};
ghost use Rattle.std.specs.Prelude.{slice_get, insert, remove, IsTrue, None, Some, IfOk, IfErr, IsErrOf};
ghost use Rattle.std.specs.Prelude.{MatchOption, MatchResult, ◌+◌};
ghost use Rattle.std.specs.Option.{option_copied};
ghost use Rattle.std.specs.declared.alloc.Global.{Global};
ghost use Rattle.std.specs.declared.sync.Arc.{Arc};
ghost use Rattle.vm_memory_guest.specs.Collection.{regions_of};
ghost use Rattle.vm_memory_guest.specs.Host.{Holds};
ghost use Rattle.vm_memory_guest.specs.Layout.{inserted, removed, binary_digits, IsFault};
ghost use Rattle.vm_memory_guest.specs.Region.{containing_in, region_names};
ghost use Rattle.vm_memory_guest.specs.Region.{IsLayout, neighbours_of, layout_error, fault_of};

use crate::guest_memory::backend::GuestMemoryBackend;
use crate::host::{HostShape, Named};
use crate::region::GuestMemoryRegion;
use crate::region::error::GuestRegionCollectionError;
use std::alloc::{AllocError, Global};
use std::marker::Model;
use std::sync::Arc;
use vm_memory_base::{GuestAddress, GuestUsize, MemoryRegionAddress};

/// A layout of guest physical memory: disjoint regions, ascending.
#[derive(Debug, Drop)]
pub struct GuestRegionCollection<R: GuestMemoryRegion> {
    regions: Vec<Arc<R>>,
    // The starts lie side by side, so that a search reads only the region that it finds.
    starts: Vec<u64>,
}

impl<R: GuestMemoryRegion> Model for GuestRegionCollection<R> {
    ghost use Rattle.std.specs.Prelude.{List, map};
    ghost use Rattle.vm_memory_guest.specs.Collection.{regions_of, IsIndexed};

    ghost Value = { List R };

    ghost view = { λ c. regions_of c.regions };

    ghost invariant = { λ c. IsIndexed (map R.region (regions_of c.regions)) c.starts.items };
}

impl<R: GuestMemoryRegion> GuestRegionCollection<R> {
    ghost use Rattle.vm_memory_guest.specs.Collection.{regions_of};

    /// A layout without regions. It allocates nothing.
    pub fn new(alloc: Global) -> Self
        ensures { result ≡ [] }
    {
        GuestRegionCollection {
            regions: Vec::new(alloc),
            starts: Vec::new(alloc),
        }
    }

    /// The layout of these regions, in order, as `from_arc_regions` makes it. An allocation may fail before an error in
    /// the regions is found.
    ///
    /// Leaves open: a failed allocation each time, also if the regions have a fault.
    pub fn from_regions(alloc: Global, regions: Vec<R>) -> Result<Self, GuestRegionCollectionError>
        ensures { MatchResult result
            (λ c. (layout_error (map R.region regions.items) ≡ None) × (c ≡ regions.items))
            (λ e. IsFault (layout_error (map R.region regions.items)) e) }
    {
        let Ok(regions) = shared_each(alloc, regions) else {
            return Err(GuestRegionCollectionError::Memory);
        };
        GuestRegionCollection::from_arc_regions(regions)
    }

    /// The layout of these regions, in order. An empty list is `NoMemoryRegion`. The first two neighbours that are out
    /// of order are `UnsortedMemoryRegions` if the earlier starts above the later, and `MemoryRegionOverlap` otherwise.
    /// `Memory` if an allocation fails; an error in the regions is reported first.
    pub fn from_arc_regions(regions: Vec<Arc<R>>) -> Result<Self, GuestRegionCollectionError>
        ensures { MatchResult result
            (λ c. (layout_error (map R.region (regions_of regions)) ≡ None) × (c ≡ regions_of regions))
            (λ e. layout_error (map R.region (regions_of regions)) ≡ fault_of e) }
    {
        if regions.is_empty() {
            return Err(GuestRegionCollectionError::NoMemoryRegion);
        }
        for next in 1..regions.len() {
            neighbours(&*regions[next - 1], &*regions[next])?;
        }
        let Ok(starts) = starts_of(&regions) else {
            return Err(GuestRegionCollectionError::Memory);
        };
        Ok(GuestRegionCollection { regions, starts })
    }

    /// A layout with one more region, which shares its bytes. The region goes before the first that starts above it;
    /// then the regions are tested as in `from_arc_regions`. An allocation may fail before that. This layout does not
    /// change.
    ///
    /// Leaves open: a failed allocation each time, also if the regions have a fault.
    pub fn insert_region(&self, region: Arc<R>) -> Result<Self, GuestRegionCollectionError>
        ensures { let regions = inserted R.region self.now region.value in MatchResult result
            (λ c. (layout_error (map R.region regions) ≡ None) × (c ≡ regions))
            (λ e. IsFault (layout_error (map R.region regions)) e) }
    {
        let (place, _, _) = first_above(self.starts.as_slice(), region.start_addr().0);
        let Ok(regions) = with_region(&self.regions, place, region) else {
            return Err(GuestRegionCollectionError::Memory);
        };
        GuestRegionCollection::from_arc_regions(regions)
    }

    /// A layout without the region of exactly these addresses, which may have no region left, and that region.
    /// `NoMemoryRegion` if no region starts at `base` and has `size` bytes, `Memory` if an allocation fails. This
    /// layout does not change.
    pub fn remove_region(
        &self,
        base: GuestAddress,
        size: GuestUsize,
    ) -> Result<(Self, Arc<R>), GuestRegionCollectionError>
        ensures ok { IfOk result (λ p. removed R.region self.now base.0 size ≡ Some (p.0, p.1.value)) }
        ensures none { IsErrOf result GuestRegionCollectionError.NoMemoryRegion
            ↔ (removed R.region self.now base.0 size ≡ None) }
        ensures errors { IfErr result (λ e. (e ≡ GuestRegionCollectionError.NoMemoryRegion)
            ⊎ (e ≡ GuestRegionCollectionError.Memory)) }
    {
        let place = self
            .place_of(base, size)
            .ok_or(GuestRegionCollectionError::NoMemoryRegion)?;
        match self.without(place) {
            Ok(parts) => Ok(parts),
            Err(_) => Err(GuestRegionCollectionError::Memory),
        }
    }

    // The index of the region of exactly these addresses.
    fn place_of(&self, base: GuestAddress, size: GuestUsize) -> Option<usize>
        ensures { MatchOption result
            (removed R.region self.now base.0 size ≡ None)
            (λ place. (r : R) × (place < length self.now) × (slice_get self.now place ≡ Some r)
            × (removed R.region self.now base.0 size ≡ Some (remove self.now place, r))) }
    {
        let (next, start, _) = first_above(self.starts.as_slice(), base.0);
        if next == 0 || start != base.0 {
            return None;
        }
        let region = &*self.regions[next - 1];
        if region.len() == size {
            Some(next - 1)
        } else {
            None
        }
    }

    // All regions but the one at an index, and that one.
    fn without(&self, place: usize) -> Result<(Self, Arc<R>), AllocError>
        requires { place < length self.now }
        ensures { IfOk result (λ p. (p.0 ≡ remove self.now place)
            × (slice_get self.now place ≡ Some p.1.value)) }
    {
        let mut regions = shared(&self.regions)?;
        let region = regions.remove(place);
        let starts = starts_of(&regions)?;
        Ok((GuestRegionCollection { regions, starts }, region))
    }

    /// The number of regions.
    #[inline]
    pub fn num_regions(&self) -> usize
        ensures count { result ≡ length self.now }
        ensures layout { IsLayout (map R.region self.now) }
    {
        self.regions.len()
    }

    /// The region that holds an address, found by binary search: it compares the address with one region's start for
    /// each binary digit of the number of regions.
    #[inline]
    pub fn find_region(&self, addr: GuestAddress) -> Option<&R>
        ensures found { option_copied result ≡ containing_in R.region self.now addr.0 }
        ensures layout { IsLayout (map R.region self.now) }
    {
        self.find_region_counted(addr).0
    }

    /// The region that holds an address, and how often the address was compared with a region's start: once for each
    /// binary digit of the number of regions, and so never if there is no region.
    // Always inlined, so that a caller that ignores the number does not pay for counting.
    #[inline(always)]
    pub fn find_region_counted(&self, addr: GuestAddress) -> (Option<&R>, usize)
        ensures found { option_copied result.0 ≡ containing_in R.region self.now addr.0 }
        ensures probes { result.1 ≡ binary_digits (length self.now) }
        ensures layout { IsLayout (map R.region self.now) }
    {
        let (found, _, probes) = self.search(addr);
        match found {
            Some((region, _)) => (Some(region), probes),
            None => (None, probes),
        }
    }

    // The region that holds an address and the address's offset there, a number that is the region's, and the number
    // of probes. The start that the search found gives the offset, so that the region's is not read again.
    #[inline(always)]
    fn search(&self, addr: GuestAddress) -> (Option<(&R, MemoryRegionAddress)>, usize, usize)
        ensures found { let home = containing_in R.region self.now addr.0 in
            MatchOption result.0 (home ≡ None)
            (λ p. (home ≡ Some p.0.now) × (p.1.0 ≡ addr.0 - (R.region p.0.now).start)) }
        ensures probes { result.2 ≡ binary_digits (length self.now) }
        ensures layout { IsLayout (map R.region self.now) }
    {
        let (next, start, probes) = first_above(self.starts.as_slice(), addr.0);
        if next == 0 {
            return (None, 0, probes);
        }
        let region = &*self.regions[next - 1];
        let offset = addr.0 - start;
        if offset < region.len() {
            (
                Some((region, MemoryRegionAddress(offset))),
                next - 1,
                probes,
            )
        } else {
            (None, next - 1, probes)
        }
    }
}

impl<R: GuestMemoryRegion> GuestRegionCollection<R> {
    /// The region of this index, from 0, in the order of addresses.
    #[inline]
    pub fn region_at(&self, index: usize) -> Option<&R>
        ensures { option_copied result ≡ slice_get self.now index }
    {
        match self.regions.get(index) {
            Some(region) => Some(&**region),
            None => None,
        }
    }
}

impl<R: GuestMemoryRegion> GuestRegionCollection<R> {
    // Whether a host of this shape holds the bytes of each region.
    pub(crate) fn each_held(&self, shape: &HostShape) -> bool
        ensures { IsTrue result ↔ Holds shape.now (flat_map region_names (map R.region self.now)) }
    {
        for region in &self.regions {
            if !region.held_by(shape) {
                return false;
            }
        }
        true
    }
}

impl<R: GuestMemoryRegion> Clone for GuestRegionCollection<R> {
    ghost use Rattle.std.specs.Prelude.{◌≡◌};

    ghost is_clone = { λ old new. new ≡ old };

    fn clone(&self) -> Result<Self, AllocError> {
        let regions = shared(&self.regions)?;
        let starts = self.starts.clone()?;
        Ok(GuestRegionCollection { regions, starts })
    }
}

impl<R: GuestMemoryRegion> Named for GuestRegionCollection<R> {
    ghost names = { λ rs. flat_map region_names (map R.region rs) };

    fn held_by(&self, shape: &HostShape) -> bool {
        self.each_held(shape)
    }
}

impl<R: GuestMemoryRegion> GuestMemoryBackend for GuestRegionCollection<R> {
    ghost use Rattle.std.specs.Prelude.{refl};

    type R = R;

    ghost regions = { λ rs. rs };

    ghost names_regions = { λ rs. refl };

    #[inline]
    fn num_regions(&self) -> usize {
        GuestRegionCollection::num_regions(self)
    }

    #[inline]
    fn region_at(&self, index: usize) -> Option<&R> {
        GuestRegionCollection::region_at(self, index)
    }

    #[inline]
    fn find_region(&self, addr: GuestAddress) -> Option<&R> {
        GuestRegionCollection::find_region(self, addr)
    }

    #[inline]
    fn to_region_addr(&self, addr: GuestAddress) -> Option<(&R, MemoryRegionAddress)> {
        self.search(addr).0
    }

    #[inline(always)]
    fn find_near(
        &self,
        addr: GuestAddress,
        hint: usize,
    ) -> (Option<(&R, MemoryRegionAddress)>, usize) {
        self.recall_law();
        if let Some(region) = GuestRegionCollection::region_at(self, hint) {
            if let Some(offset) = region.to_region_addr(addr) {
                return (Some((region, offset)), hint);
            }
        }
        let (found, number, _) = self.search(addr);
        (found, number)
    }
}

// The index of the first start above an address, or the number of starts if there is none; the start before it; and
// the number of probes: one for each binary digit of the number of starts.
//
// The compiler turns a single conditional move into a branch, which is often predicted wrongly. It does not with two
// that have the same condition: so the start is kept beside the index. Always inlined, so that a caller that ignores
// the number of probes does not pay for counting.
#[inline(always)]
fn first_above(starts: &[u64], addr: u64) -> (usize, u64, usize)
    requires { (i j : ℕ) → i ≤ j → j < length starts.now →
        slice_index starts.now i ≤ slice_index starts.now j }
    ensures within { result.0 ≤ length starts.now }
    ensures below { (k : ℕ) → k < result.0 → slice_index starts.now k ≤ addr }
    ensures above { (k : ℕ) → result.0 ≤ k → k < length starts.now → addr < slice_index starts.now k }
    ensures start { 0 < result.0 → result.1 ≡ slice_index starts.now (result.0 - 1) }
    ensures probes { result.2 ≡ binary_digits (length starts.now) }
{
    let mut next = 0;
    let mut start = 0;
    let mut probes = 0;
    let mut size = starts.len();
    // A branch is predicted, so that an access to the only region need not wait for its address.
    if size == 1 {
        let only = starts[0];
        return if addr < only { (0, 0, 1) } else { (1, only, 1) };
    }
    if size == 0 {
        return (0, 0, 0);
    }
    while size > 1 {
        let half = size / 2;
        let after = next + (size - half);
        let probe = starts[after - 1];
        let is_above = addr < probe;
        next = if is_above { next } else { after };
        start = if is_above { start } else { probe };
        probes += 1;
        size = half;
    }
    // One start is left.
    let probe = starts[next];
    let is_above = addr < probe;
    next = if is_above { next } else { next + 1 };
    start = if is_above { start } else { probe };
    probes += 1;
    (next, start, probes)
}

// The starts of regions, in order.
fn starts_of<R: GuestMemoryRegion>(regions: &Vec<Arc<R>>) -> Result<Vec<u64>, AllocError>
    ensures { IfOk result (λ starts.
        starts.items ≡ map (λ (r : Arc R Global). (R.region r.value).start) regions.now.items) }
{
    regions
        .iter()
        .map(|region| region.start_addr().0)
        .collect(*regions.allocator())
}

// The same regions, each with one more reference.
fn shared<R: Drop>(regions: &Vec<Arc<R>>) -> Result<Vec<Arc<R>>, AllocError>
    ensures { IfOk result (λ copy. regions_of copy ≡ regions_of regions.now) }
{
    regions.clone()
}

// The same regions with one more at an index, the others with one more reference each.
fn with_region<R: Drop>(
    regions: &Vec<Arc<R>>,
    place: usize,
    region: Arc<R>,
) -> Result<Vec<Arc<R>>, AllocError>
    requires { place ≤ length (regions_of regions.now) }
    ensures { IfOk result (λ copy. regions_of copy ≡ insert (regions_of regions.now) place region.value) }
{
    let mut copy = shared(regions)?;
    copy.insert(place, region)?;
    Ok(copy)
}

// The regions, each in an `Arc`.
fn shared_each<R: Drop>(alloc: Global, regions: Vec<R>) -> Result<Vec<Arc<R>>, AllocError>
    ensures { IfOk result (λ shared. regions_of shared ≡ regions.items) }
{
    let mut shared = Vec::with_capacity(alloc, regions.len())?;
    for region in regions {
        shared.push(Arc::new(alloc, region)?)?;
    }
    Ok(shared)
}

// Whether one region may follow another. The start of the later is read once, and that of the earlier only if it may
// not.
fn neighbours<R: GuestMemoryRegion>(
    previous: &R,
    next: &R,
) -> Result<(), GuestRegionCollectionError>
    ensures { result ≡ neighbours_of (R.region previous.now) (R.region next.now) }
{
    let start = next.start_addr();
    if previous.last_addr() < start {
        return Ok(());
    }
    if previous.start_addr() > start {
        return Err(GuestRegionCollectionError::UnsortedMemoryRegions);
    }
    Err(GuestRegionCollectionError::MemoryRegionOverlap)
}
