//! Where a split queue goes on.
ghost use Rattle.std.specs.Prelude.{◌≡◌, ◌⊎◌, ◌^◌, ◌≤◌, ◌&&◌, ◌==◌, false, true, nat_le, nat_lt};
ghost use Rattle.std.specs.Prelude.{IfErr, IfOk, List, None, OnOk, Some, length, map};
ghost use Rattle.std.specs.List.{list_any};
ghost use Rattle.vhost_inflight.specs.SplitBytes.{region_of, region_with};
ghost use Rattle.vhost_inflight.specs.SplitStart.{IsInFlight, Starts, batch, cleared, fault, greatest, header_fault};
ghost use Rattle.vhost_inflight.specs.SplitStart.{returned, settled_fault, start_fault, start_stores};
ghost use Rattle.vhost_inflight.specs.declared.split_region.SplitEntry.{SplitEntry};

use crate::split::{SplitInFlight, SplitStore};
use crate::split_region::{ENTRY_LEN, HEADER_LEN, SplitEntry, SplitHeader, entries_in, header_in};
use std::alloc::{AllocError, Global};
use thiserror::Error;

/// Why a queue does not start on its region. Nothing is stored then.
#[derive(Clone, Copy, Debug, PartialEq, Eq, Error)]
pub enum StartError {
    /// An allocation failed.
    #[error("out of memory")]
    Memory,
    /// The region has fewer bytes than its descriptors need.
    #[error("too short a region")]
    TooShort,
    /// The ring has more descriptors than the region.
    #[error("a ring larger than the region")]
    RingSize,
    /// The layout has another version.
    #[error("unknown version of the region")]
    Version,
    /// The region was written for another number of descriptors.
    #[error("a region for another number of descriptors")]
    DescNum,
    /// More chains were returned at once than the ring has descriptors.
    #[error("more chains returned than the ring has")]
    TooManyReturned,
    /// The ring has no such descriptor, and it is said to be the head of a chain.
    #[error("a head that is no descriptor of the ring")]
    Head,
    /// A descriptor is neither in flight nor not.
    #[error("invalid mark of a descriptor in flight")]
    Mark,
    /// A count that no run reaches.
    #[error("invalid count of a descriptor in flight")]
    Counter,
}

impl From<AllocError> for StartError {
    ghost use Rattle.vhost_inflight.specs.declared.split_start.StartError.TheVariants.{Memory};

    ghost from_gives = { λ e r. r ≡ Memory };

    fn from(_: AllocError) -> StartError {
        StartError::Memory
    }
}

/// Where a split queue goes on.
#[derive(Debug, Drop)]
pub struct SplitStart {
    /// What the back end keeps of the region from now on.
    pub in_flight: SplitInFlight,
    /// The heads of the chains to serve again, in the order of their pops.
    pub again: Vec<u16>,
    /// The next available index: the chains in front of it were popped.
    pub next_avail: u16,
    /// What to store to the region before anything is popped, returned or served.
    pub stores: Vec<SplitStore>,
}

// As many heads of a batch, the last one first.
fn batch(
    alloc: Global,
    entries: &[SplitEntry],
    size: u16,
    count: u16,
    head: u16,
) -> Result<Vec<u16>, StartError>
    requires { size ≤ length entries.now }
    ensures ok { IfOk result (λ heads. (heads.items ≡ batch entries.now count head)
        × (list_any (λ h. nat_le size h) heads.items ≡ false)) }
    ensures err { IfErr result (λ e. (e ≡ StartError.Memory) ⊎ ((e ≡ StartError.Head)
        × (list_any (λ h. nat_le size h) (batch entries.now count head) ≡ true))) }
{
    let mut heads = Vec::new(alloc);
    let mut next = head;
    for i in 0..count {
        if next >= size {
            return Err(StartError::Head);
        }
        if let Err(error) = heads.push(next) {
            return Err(AllocError::from(error).into());
        }
        next = entries[next as usize].next;
    }
    Ok(heads)
}

// The heads that were returned, though the region does not say so yet.
fn returned(
    alloc: Global,
    header: SplitHeader,
    entries: &[SplitEntry],
    descriptors: u16,
    size: u16,
    used_idx: u16,
) -> Result<Vec<u16>, StartError>
    requires { size ≤ length entries.now }
    ensures ok { IfOk result (λ heads. (heads.items ≡ returned (region_with header entries.now) used_idx)
        × (list_any (λ h. nat_le (length entries.now) h) heads.items ≡ false)
        × (header_fault descriptors size (region_with header entries.now) used_idx ≡ None)) }
    ensures err { IfErr result (λ e. (e ≡ StartError.Memory)
        ⊎ (header_fault descriptors size (region_with header entries.now) used_idx ≡ Some e)) }
{
    match header.version {
        0 => return Ok(Vec::new(alloc)),
        1 => {}
        _ => return Err(StartError::Version),
    }
    if header.desc_num != descriptors {
        return Err(StartError::DescNum);
    }
    let count = used_idx.wrapping_sub(header.used_idx);
    if count > size {
        return Err(StartError::TooManyReturned);
    }
    batch(alloc, entries, size, count, header.last_batch_head)
}

// Takes these heads for in flight no longer.
fn clear(entries: &mut [SplitEntry], heads: &[u16])
    requires { list_any (λ h. nat_le (length entries.old) h) heads.now ≡ false }
    ensures { entries.new ≡ cleared entries.old heads.now }
{
    for head in heads {
        entries[*head as usize].in_flight = 0;
    }
}

fn has_bad_mark(entries: &[SplitEntry]) -> bool
    ensures { result ≡ list_any (λ e. nat_lt 1 e.in_flight) entries.now }
{
    entries.iter().any(|entry| entry.in_flight > 1)
}

// Whether one of these is in flight.
fn has_in_flight(entries: &[SplitEntry]) -> bool
    ensures { result ≡ list_any (λ e. e.in_flight == 1) entries.now }
{
    entries.iter().any(|entry| entry.in_flight == 1)
}

// Whether one of these is in flight with a count that no run reaches.
fn has_bad_count(entries: &[SplitEntry]) -> bool
    ensures { result ≡ list_any (λ e. e.in_flight == 1 && nat_le (2 ^ 63) e.counter) entries.now }
{
    entries
        .iter()
        .any(|entry| entry.in_flight == 1 && entry.counter >= 1 << 63)
}

// The greatest count of what is in flight.
fn greatest(entries: &[SplitEntry]) -> u64
    ensures { result ≡ greatest entries.now }
{
    entries.iter().fold(0, |most, entry| {
        most.max(if entry.in_flight == 1 {
            entry.counter
        } else {
            0
        })
    })
}

// The heads of pairs.
fn heads_of(alloc: Global, pairs: &[(u64, u16)]) -> Result<Vec<u16>, AllocError>
    ensures { IfOk result (λ heads. heads.items ≡ map (λ p. p.1) pairs.now) }
{
    pairs.iter().map(|pair| pair.1).collect(alloc)
}

// The heads in flight, in their order.
fn in_order(alloc: Global, entries: &[SplitEntry], descriptors: u16) -> Result<Vec<u16>, AllocError>
    requires { length entries.now ≡ descriptors }
    ensures order { IfOk result (λ heads. IsInFlight entries.now heads.items) }
    ensures len { IfOk result (λ heads. length heads.items ≤ length entries.now) }
{
    let mut pairs = Vec::new(alloc);
    for head in 0..descriptors {
        let entry = entries[head as usize];
        if entry.in_flight == 1 {
            pairs.push((entry.counter, head))?;
        }
    }
    pairs.sort_unstable();
    let heads = heads_of(alloc, &pairs)?;
    Ok(heads)
}

fn start_stores(
    alloc: Global,
    header: SplitHeader,
    heads: &[u16],
    descriptors: u16,
    used_idx: u16,
) -> Result<Vec<SplitStore>, AllocError>
    // Whatever the entries are, of which these heads were returned.
    ensures { IfOk result (λ stores. (entries : List SplitEntry)
        → returned (region_with header entries) used_idx ≡ heads.now
        → stores.items ≡ start_stores descriptors (region_with header entries) used_idx) }
{
    let mut stores = Vec::new(alloc);
    if header.version == 0 {
        stores.push(SplitStore::DescNum(descriptors))?;
        stores.push(SplitStore::UsedIdx(used_idx))?;
        stores.push(SplitStore::Version(1))?;
        return Ok(stores);
    }
    if header.used_idx == used_idx {
        return Ok(stores);
    }
    for head in heads {
        stores.push(SplitStore::InFlight(*head, false))?;
    }
    stores.push(SplitStore::UsedIdx(used_idx))?;
    Ok(stores)
}

// What is wrong with the entries, once what was returned is in flight no longer.
fn settled_fault(entries: &[SplitEntry], size: u16) -> Option<StartError>
    requires { size ≤ length entries.now }
    ensures { result ≡ settled_fault size entries.now }
{
    if has_in_flight(&entries[size as usize..]) {
        return Some(StartError::Head);
    }
    if has_bad_count(entries) {
        return Some(StartError::Counter);
    }
    None
}

// The same as `start_split`, by what the region says.
fn start_from(
    alloc: Global,
    header: SplitHeader,
    mut entries: Vec<SplitEntry>,
    descriptors: u16,
    size: u16,
    used_idx: u16,
) -> Result<SplitStart, StartError>
    requires len { length entries.items ≡ descriptors }
    requires fits { size ≤ descriptors }
    ensures ok { IfOk result (Starts descriptors (region_with header entries.items) used_idx) }
    ensures sound { OnOk result (fault descriptors size (region_with header entries.items) used_idx ≡ None) }
    ensures err { IfErr result (λ e. (e ≡ StartError.Memory)
        ⊎ (fault descriptors size (region_with header entries.items) used_idx ≡ Some e)) }
{
    let heads = returned(alloc, header, &entries, descriptors, size, used_idx)?;
    if has_bad_mark(&entries) {
        return Err(StartError::Mark);
    }
    clear(&mut entries, &heads);
    if let Some(error) = settled_fault(&entries, size) {
        return Err(error);
    }
    let again = in_order(alloc, &entries, descriptors)?;
    let stores = start_stores(alloc, header, &heads, descriptors, used_idx)?;
    let next_avail = used_idx.wrapping_add(again.len() as u16);
    let in_flight = SplitInFlight::new(header.last_batch_head, greatest(&entries));
    Ok(SplitStart {
        in_flight,
        again,
        next_avail,
        stores,
    })
}

/// Where a queue goes on, by a copy of its region and the ring's used index: which chains to serve again, what the next
/// available index is, and what to store to the region first. The region was made for `descriptors`, and the ring has
/// `size` of them. A fresh region is taken as one that says nothing was returned.
///
/// It may be called again after a crash, also one among its stores. A region that nobody could have written is refused,
/// and whatever it says, no head is outside of the ring.
pub fn start_split(
    alloc: Global,
    bytes: &[u8],
    descriptors: u16,
    size: u16,
    used_idx: u16,
) -> Result<SplitStart, StartError>
    ensures ok { IfOk result (Starts descriptors (region_of descriptors bytes.now) used_idx) }
    ensures sound { OnOk result (start_fault descriptors size bytes.now used_idx ≡ None) }
    // It gives up only for want of memory, or for the fault.
    ensures err { IfErr result (λ e. (e ≡ StartError.Memory)
        ⊎ (start_fault descriptors size bytes.now used_idx ≡ Some e)) }
{
    if bytes.len() < HEADER_LEN + ENTRY_LEN * descriptors as usize {
        return Err(StartError::TooShort);
    }
    if descriptors < size {
        return Err(StartError::RingSize);
    }
    let header = header_in(bytes);
    let entries = entries_in(alloc, bytes, descriptors)?;
    start_from(alloc, header, entries, descriptors, size, used_idx)
}
