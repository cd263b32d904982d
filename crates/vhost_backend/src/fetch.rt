//! Ranges of I/O addresses that are fetched from a table before a queue uses them: the areas of a ring, rows of an
//! indirect table, the bytes of a chain. They are taken piece by piece, as their mappings come.
ghost use Rattle.std.specs.Prelude.{◌≡◌, ◌+◌, ◌^◌, ◌<◌, [], All, IfOk, IfSome, not};
ghost use Rattle.std.specs.List.{list_all, list_any};
ghost use Rattle.vm_memory_base.specs.Table.{Says, says};
ghost use Rattle.vhost_iotlb.specs.Kept.{Fits, IsCurrent, IsReal, differs};
ghost use Rattle.vhost_backend.specs.Fetch.{is_same_place, same_area};
ghost use Rattle.vhost_backend.specs.Fetch.{Resumes, access_of, after_drop, areas_of, chain_wants, event_len};
ghost use Rattle.vhost_backend.specs.Fetch.{guest_chain, guest_segment, has_gap, is_dropped, is_real, last_want};
ghost use Rattle.vhost_backend.specs.Fetch.{ring_wants, segment_want, state_by, status_want, used_of, waits, want};
ghost use Rattle.vhost_backend.specs.RingUse.{IsPossible, IsWanted, Uses};

use crate::fetch_laws::{
    guest_chain_is_the_drivers, what_a_ring_uses_is_fetched, what_came_is_taken,
};
use std::alloc::{AllocError, Global};
use std::marker::Model;
use vhost_iotlb::{Change, Kept, Progress, Taking, Want, any_differs};
use virtio_queue::{AnyQueue, PackedBuffer};
use vm_memory_base::{GuestAddress, Iotlb, Permissions};
use vm_memory_device::{Chain as Descriptors, Segment};

fn want(iova: u64, len: u64, access: Permissions) -> Want
    ensures { result ≡ want iova len access }
{
    Want { iova, len, access }
}

// How many bytes event indices add to an area.
fn event_len(on: bool) -> u64
    ensures { result ≡ event_len on }
{
    if on { 2 } else { 0 }
}

// The areas of a queue, and as the last one that which is read and written.
fn areas_of(queue: &AnyQueue) -> (Want, Want, Want)
    ensures { result ≡ areas_of queue.now }
{
    match queue {
        AnyQueue::Split(queue) => {
            let state = queue.state();
            let size = u64::from(state.size);
            let event = event_len(state.event_idx_enabled);
            (
                want(state.desc_table, 16 * size, Permissions::Read),
                want(state.avail_ring, 4 + 2 * size + event, Permissions::Read),
                want(
                    state.used_ring,
                    4 + 8 * size + event,
                    Permissions::ReadWrite,
                ),
            )
        }
        AnyQueue::Packed(queue) => {
            let state = queue.state();
            let size = u64::from(state.size);
            (
                want(state.driver_area, 4, Permissions::Read),
                want(state.device_area, 4, Permissions::Write),
                want(state.desc_ring, 16 * size, Permissions::ReadWrite),
            )
        }
    }
}

fn same_area(one: Want, other: Want) -> bool
    ensures { result ≡ same_area one other }
{
    one.iova == other.iova && one.len == other.len
}

/// Whether two queues have the same areas.
pub fn is_same_place(one: &AnyQueue, other: &AnyQueue) -> bool
    ensures { result ≡ is_same_place one.now other.now }
{
    let a = areas_of(one);
    let b = areas_of(other);
    same_area(a.0, b.0) && same_area(a.1, b.1) && same_area(a.2, b.2)
}

// The area that the front end calls the used ring.
fn used_of(queue: &AnyQueue) -> Want
    ensures { result ≡ used_of queue.now }
{
    let areas = areas_of(queue);
    match queue {
        AnyQueue::Split(_) => areas.2,
        AnyQueue::Packed(_) => areas.1,
    }
}

/// What a ring's queue reads and writes of its ring, and as many bytes from where writes to the used ring are logged,
/// if that is elsewhere.
pub fn ring_wants(
    alloc: Global,
    queue: &AnyQueue,
    log: Option<u64>,
) -> Result<Vec<Want>, AllocError>
    ensures { IfOk result (λ wants. wants.items ≡ ring_wants queue.now log) }
{
    let areas = areas_of(queue);
    let used = used_of(queue);
    let mut wants = Vec::with_capacity(alloc, 4)?;
    wants.push(areas.0)?;
    wants.push(areas.1)?;
    if let Some(log) = log {
        if log != used.iova {
            wants.push(want(log, used.len, Permissions::Write))?;
        }
    }
    wants.push(areas.2)?;
    Ok(wants)
}

fn access_of(writes: bool) -> Permissions
    ensures { result ≡ access_of writes }
{
    if writes {
        Permissions::Write
    } else {
        Permissions::Read
    }
}

fn segment_want(segment: Segment) -> Want
    ensures { result ≡ segment_want segment }
{
    want(
        segment.addr.0,
        u64::from(segment.len),
        access_of(segment.writable),
    )
}

/// All bytes of a chain, in order.
pub fn chain_wants(alloc: Global, segments: &[Segment]) -> Result<Vec<Want>, AllocError>
    ensures { IfOk result (λ wants. wants.items ≡ chain_wants segments.now) }
{
    let mut wants = Vec::with_capacity(alloc, segments.len())?;
    for segment in segments {
        if segment.len > 0 {
            wants.push(segment_want(*segment))?;
        }
    }
    Ok(wants)
}

// The last byte of a segment, if it is written.
fn last_want(segment: Segment) -> Option<Want>
    ensures { result ≡ last_want segment }
{
    if segment.writable && segment.len > 0 {
        let iova = segment.addr.0.saturating_add(u64::from(segment.len - 1));
        Some(want(iova, 1, Permissions::Write))
    } else {
        None
    }
}

/// The last byte of a chain that is written, which is that of the status.
pub fn status_want(segments: &[Segment]) -> Option<Want>
    ensures { result ≡ status_want segments.now }
{
    let mut found = None;
    for segment in segments {
        if let Some(last) = last_want(*segment) {
            found = Some(last);
        }
    }
    found
}

/// Whether a chain has bytes that are written before the last one.
pub fn has_gap(chain: &Descriptors) -> bool
    ensures { result ≡ has_gap chain.now }
{
    chain.writer().left() > 1
}

// The segment of a kept range.
fn guest_segment(kept: &Kept) -> Segment
    requires { kept.now.len < 2 ^ 32 }
    ensures { result ≡ guest_segment kept.now }
{
    Segment {
        addr: GuestAddress(kept.base),
        len: kept.len as u32,
        writable: matches!(kept.access, Permissions::Write),
    }
}

/// The chain of guest addresses to which a driver's chain leads, by what was found of it. `None` if these ranges are
/// no chain.
pub fn guest_chain(alloc: Global, kept: &[Kept]) -> Result<Option<Descriptors>, AllocError>
    ensures { IfOk result (λ chain. chain ≡ guest_chain kept.now) }
{
    let mut segments = Vec::with_capacity(alloc, kept.len())?;
    for one in kept {
        if one.len > u64::from(u32::MAX) {
            return Ok(None);
        }
        segments.push(guest_segment(one))?;
    }
    match Descriptors::new(segments) {
        Ok(chain) => Ok(Some(chain)),
        Err(_) => Ok(None),
    }
}

// A queue can have its state.
fn is_possible(queue: &AnyQueue)
    ensures { IsPossible queue.now }
{
    match queue {
        AnyQueue::Split(queue) => {
            let _state = queue.state();
        }
        AnyQueue::Packed(queue) => {
            let _state = queue.state();
        }
    }
}

/// A chain that was found in a ring, of I/O addresses.
#[derive(Drop)]
pub struct Found {
    /// Its segments.
    pub chain: Descriptors,
    /// What it is returned by.
    pub buffer: PackedBuffer,
    /// Where the queue pops its next chain after this one.
    pub after: u16,
}

/// What ranges are fetched for.
#[derive(Drop)]
pub enum Goal {
    /// The areas of a ring.
    Ring,
    /// Rows of an indirect table.
    Rows,
    /// All bytes of a chain.
    Chain(Found),
    /// The status of a chain, of which nothing else can be fetched.
    Status(Found),
}

/// How far ranges are fetched.
#[derive(Clone, Copy, Debug, PartialEq, Eq)]
pub enum State {
    /// They are looked up when the ring has its turn.
    Begun,
    /// This I/O address has no mapping, and is wanted for this access.
    Waits(u64, Permissions),
    /// A mapping forbids the access, or they are too many.
    Stops,
    /// All are found.
    Whole,
}

// How far a fetch is, by why it stopped.
fn state_by(progress: Progress) -> State
    ensures { result ≡ state_by progress }
{
    match progress {
        Progress::Whole => State::Whole,
        Progress::Misses(iova, access) => State::Waits(iova, access),
        Progress::Bars(_, _) | Progress::TooMany => State::Stops,
        Progress::NoMemory => State::Begun,
    }
}

// Whether a range has bytes, and its end is an address.
fn is_real(want: &Want) -> bool
    ensures { result ≡ is_real want.now }
{
    want.len > 0 && want.iova <= u64::MAX - want.len
}

fn are_real(wants: &[Want]) -> bool
    ensures { result ≡ list_all is_real wants.now }
{
    wants.iter().all(|one| is_real(one))
}

/// Ranges that are fetched. What was found of them stands outside of the table, which may evict it.
#[derive(Drop)]
pub struct Fetch {
    goal: Goal,
    taking: Taking,
    state: State,
}

impl Model for Fetch {
    ghost use Rattle.vhost_iotlb.specs.Taking.{AreReal, left};
    ghost use Rattle.vhost_backend.specs.Fetch.{Awaits, FetchState, IsFor};

    ghost Value = { FetchState };

    ghost view = { λ f. record { goal = f.goal; wants = f.taking.wants; kept = f.taking.kept; state = f.state } };

    ghost invariant = { λ f. IsFor f.goal f.taking.wants × AreReal f.taking.wants
        × Awaits f.state (left f.taking.wants 0 f.taking.kept) };
}

impl Fetch {
    ghost use Rattle.std.specs.Prelude.{ℕ, ◌∷◌, option_to_list};
    ghost use Rattle.vm_memory_base.specs.declared.iotlb.Permissions.TheVariants as permissions;
    ghost use Rattle.virtio_queue.specs.Any.{returning};
    ghost use Rattle.virtio_queue.specs.declared.packed.state.PackedBuffer.{PackedBuffer};
    ghost use Rattle.vhost_iotlb.specs.Taking.{Covers};
    ghost use Rattle.vhost_backend.specs.Fetch.{GoesOn, IsFor, IsFound, LeadsAs, TakesWhatCame, begun, stopped};
    ghost use Rattle.vhost_backend.specs.declared.fetch.Goal.{Goal};
    ghost use Rattle.vhost_backend.specs.declared.fetch.Goal.TheVariants as goal;
    ghost use Rattle.vhost_backend.specs.declared.fetch.State.TheVariants.{Whole};

    /// Nothing is found yet of these ranges. What is found goes into the vector `kept`, which is cleared. `None` if a
    /// range has no byte, or its end is no address.
    pub fn new(goal: Goal, wants: Vec<Want>, kept: Vec<Kept>) -> Option<Fetch>
        requires { IsFor goal wants.items }
        ensures { result ≡ begun goal wants.items }
    {
        if !are_real(&wants) {
            return None;
        }
        Some(Fetch {
            goal,
            taking: Taking::new(wants, kept),
            state: State::Begun,
        })
    }

    /// The areas of a ring.
    pub fn of_ring(
        alloc: Global,
        queue: &AnyQueue,
        log: Option<u64>,
    ) -> Result<Option<Fetch>, AllocError>
        ensures begun { IfOk result (λ fetch. fetch ≡ begun goal.Ring (ring_wants queue.now log)) }
        ensures enough { (buffer : PackedBuffer) (len : ℕ)
            → Uses (IsWanted (ring_wants queue.now log)) (returning queue.now buffer len) }
    {
        what_a_ring_uses_is_fetched();
        is_possible(queue);
        let wants = ring_wants(alloc, queue, log)?;
        Ok(Fetch::new(Goal::Ring, wants, Vec::new(alloc)))
    }

    /// A row of an indirect table. The rest of its page is not fetched with it: areas of rings may lie there, which are
    /// kept for longer.
    pub fn of_row(alloc: Global, iova: u64, len: u64) -> Result<Option<Fetch>, AllocError>
        ensures { IfOk result (λ fetch. fetch ≡ begun goal.Rows (want iova len permissions.Read ∷ [])) }
    {
        let mut wants = Vec::with_capacity(alloc, 1)?;
        wants.push(want(iova, len, Permissions::Read))?;
        Ok(Fetch::new(Goal::Rows, wants, Vec::new(alloc)))
    }

    /// All bytes of a chain.
    pub fn of_chain(alloc: Global, found: Found) -> Result<Option<Fetch>, AllocError>
        ensures { IfOk result (λ fetch. fetch ≡ begun (goal.Chain found) (chain_wants found.chain)) }
    {
        let wants = chain_wants(alloc, found.chain.segments())?;
        Ok(Fetch::new(Goal::Chain(found), wants, Vec::new(alloc)))
    }

    /// The status of a chain alone.
    pub fn of_status(alloc: Global, found: Found) -> Result<Option<Fetch>, AllocError>
        ensures { IfOk result (λ fetch. fetch ≡ begun (goal.Status found) (option_to_list (status_want found.chain))) }
    {
        let mut wants = Vec::new(alloc);
        if let Some(last) = status_want(found.chain.segments()) {
            wants.push(last)?;
        }
        Ok(Fetch::new(Goal::Status(found), wants, Vec::new(alloc)))
    }

    /// What they are fetched for.
    pub fn goal(&self) -> &Goal
        ensures { result.now ≡ self.now.goal }
    {
        &self.goal
    }

    /// How far they are fetched.
    pub fn state(&self) -> State
        ensures { result ≡ self.now.state }
    {
        self.state
    }

    /// Lends what was found.
    pub fn kept(&self) -> &[Kept]
        ensures lent { result.now ≡ self.now.kept }
        ensures covers { Covers self.now.wants 0 self.now.kept }
        ensures real { All IsReal self.now.kept }
    {
        self.taking.kept()
    }

    /// Gives back what they were fetched for, and what was found.
    pub fn into_parts(self) -> (Goal, Vec<Kept>)
        ensures goal { result.0 ≡ self.goal }
        ensures kept { result.1.items ≡ self.kept }
        ensures real { All IsReal self.kept }
        ensures wants { IsFor self.goal self.wants }
        ensures found { self.state ≡ Whole → IsFound self.wants self.kept }
    {
        let Fetch { goal, taking, .. } = self;
        (goal, taking.into_kept())
    }

    /// The chain of guest addresses to which the chain leads that was fetched, or its status alone. `None` if what was
    /// found is no chain.
    pub fn chain_of_found(&self, alloc: Global) -> Result<Option<Descriptors>, AllocError>
        ensures chain { IfOk result (λ chain. chain ≡ guest_chain self.now.kept) }
        ensures leads { IfOk result (λ chain. IfSome chain (λ guest. (f : Says) → All (IsCurrent f) self.now.kept
            → self.now.state ≡ Whole → LeadsAs f self.now.goal guest)) }
    {
        guest_chain_is_the_drivers();
        guest_chain(alloc, self.taking.kept())
    }

    /// Looks up what is not found yet, while fewer than `most` ranges are kept. Returns whether its ring can go on: it
    /// does not wait for a mapping.
    ///
    /// Leaves open: that an allocation fails each time that something could be found.
    pub fn go_on(&mut self, table: &Iotlb, most: usize) -> bool
        ensures goes_on { GoesOn (says table.now) most self.old self.new }
        ensures came { TakesWhatCame (says table.now) most self.old self.new }
        ensures can { result ≡ not (waits self.new.state) }
    {
        what_came_is_taken();
        let progress = self.taking.go_on(table, most);
        let _kept = self.taking.kept();
        self.state = state_by(progress);
        !self.waits()
    }

    // Whether it waits for a mapping.
    fn waits(&self) -> bool
        ensures { result ≡ waits self.now.state }
    {
        matches!(self.state, State::Waits(_, _))
    }

    /// Stops, if it waits: the mapping does not come.
    pub fn stop(&mut self)
        ensures { self.new ≡ stopped self.old }
    {
        if self.waits() {
            self.state = State::Stops;
        }
    }

    /// Whether something of what was found may lead elsewhere after a change, or nowhere.
    pub fn is_dropped_by(&self, change: &Change) -> bool
        requires { Fits change.now }
        ensures { result ≡ list_any (differs change.now) self.now.kept }
    {
        any_differs(change, self.taking.kept())
    }
}

/// Drops a fetch if something of what was found may lead elsewhere after a change, or nowhere. Returns whether it did.
pub fn drop_changed(fetch: &mut Option<Fetch>, change: &Change) -> bool
    requires { Fits change.now }
    ensures dropped { result ≡ is_dropped change.now fetch.old }
    ensures after { fetch.new ≡ after_drop change.now fetch.old }
{
    let dropped = match fetch {
        Some(fetch) => fetch.is_dropped_by(change),
        None => false,
    };
    if dropped {
        *fetch = None;
    }
    dropped
}

/// Has a fetch go on that waits. Returns whether it waits no more.
pub fn resume(fetch: &mut Option<Fetch>, table: &Iotlb, most: usize) -> bool
    ensures { Resumes (says table.now) most fetch.old result fetch.new }
{
    match fetch {
        Some(fetch) if fetch.waits() => fetch.go_on(table, most),
        _ => false,
    }
}
