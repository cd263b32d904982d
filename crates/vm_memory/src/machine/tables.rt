//! The commands on I/O tables.
ghost use Rattle.std.specs.Prelude.{◌≡◌, ◌⊎◌, ◌<◌, false, length, slice_get, IsSome, IfOk, Err, Some};
ghost use Rattle.vm_memory_base.specs.Lookup.{mapped_ranges};
ghost use Rattle.vm_memory_base.specs.Table as tables;
ghost use Rattle.vm_memory_base.specs.Table.{overruns};
ghost use Rattle.vm_memory_guest.specs.Host.{shape_of};
ghost use Rattle.vm_memory.specs.Machine.{Step};
ghost use Rattle.vm_memory.specs.Parts.{state_of};
ghost use Rattle.vm_memory.specs.Reply.{as_done, replied};
ghost use Rattle.vm_memory.specs.Tables.{changes, looked_up, looks_up};
ghost use Rattle.vm_memory.specs.declared.machine.command.Command.TheVariants as command;
ghost use Rattle.vm_memory.specs.declared.machine.command.Reply.TheVariants as reply;
ghost use Rattle.vm_memory.specs.declared.machine.refusal.Refusal.TheVariants as refusal;

use super::Machine;
use super::list::PieceList;
use super::refusal::Refusal;
use std::alloc::{AllocError, Global};
use vm_memory_base::{
    ExactBitmap, GuestAddress, IotlbFails, IotlbIterator, LookupError, Permissions,
};
use vm_memory_device::Iommu;
use vm_memory_guest::{GuestMemoryRegion, HostMemory, TlbId};

impl<R: GuestMemoryRegion, I: Iommu, B: ExactBitmap> Machine<R, I, B> {
    /// Maps `length` I/O addresses of a table, from `iova` on, to those from `map_to` on. `NoSuch` if there is no
    /// such table, `BadRange` if `iova` plus `length` passes 2^64 - 1.
    pub fn set_mapping(
        &mut self,
        table: usize,
        iova: GuestAddress,
        map_to: GuestAddress,
        length: usize,
        perm: Permissions,
    ) -> Result<(), Refusal>
        ensures { let before = state_of R.region I.number B.pages self.old in
            Step before (command.Set table iova map_to length perm) (replied as_done result)
            (state_of R.region I.number B.pages self.new) }
    {
        if !self.host.shape().has_table(TlbId(table)) {
            return Err(Refusal::NoSuch);
        }
        set_in(&mut self.host, table, iova, map_to, length, perm)
    }

    /// Unmaps `length` I/O addresses of a table, from `iova` on. `NoSuch` if there is no such
    /// table, `BadRange` if `iova` plus `length` passes 2^64 - 1.
    pub fn invalidate_mapping(
        &mut self,
        table: usize,
        iova: GuestAddress,
        length: usize,
    ) -> Result<(), Refusal>
        ensures { let before = state_of R.region I.number B.pages self.old in
            Step before (command.Invalidate table iova length) (replied as_done result)
            (state_of R.region I.number B.pages self.new) }
    {
        if !self.host.shape().has_table(TlbId(table)) {
            return Err(Refusal::NoSuch);
        }
        invalidate_in(&mut self.host, table, iova, length)
    }

    /// Unmaps all I/O addresses of a table. `NoSuch` if there is no such table.
    pub fn invalidate_all(&mut self, table: usize) -> Result<(), Refusal>
        ensures { let before = state_of R.region I.number B.pages self.old in
            Step before (command.InvalidateAll table) (replied as_done result)
            (state_of R.region I.number B.pages self.new) }
    {
        if !self.host.shape().has_table(TlbId(table)) {
            return Err(Refusal::NoSuch);
        }
        clear_in(&mut self.host, table);
        Ok(())
    }

    /// Where `length` I/O addresses of a table lead, from `iova` on, for an access: the pieces in order, or what is
    /// missed and what fails. `NoSuch` if there is no such table.
    pub fn lookup(
        &self,
        table: usize,
        iova: GuestAddress,
        length: usize,
        access: Permissions,
    ) -> Result<Result<PieceList, IotlbFails>, Refusal>
        ensures { let now = state_of R.region I.number B.pages self.now in
            Step now (command.Lookup table iova length access) (replied looked_up result) now }
    {
        if !self.host.shape().has_table(TlbId(table)) {
            return Err(Refusal::NoSuch);
        }
        look_up_in(self.alloc, &self.host, table, iova, length, access)
    }
}

// Sets a range of a table of a host.
fn set_in<B>(
    host: &mut HostMemory<B>,
    table: usize,
    iova: GuestAddress,
    map_to: GuestAddress,
    len: usize,
    perm: Permissions,
) -> Result<(), Refusal>
    requires { table < length host.old.tables }
    ensures answer { ((replied as_done result, host.new)
        ≡ changes host.old table iova.0 len (tables.Set iova.0 map_to.0 len perm))
        ⊎ ((result ≡ Err refusal.Memory) × IsSome (slice_get host.old.tables table) × (overruns iova.0 len ≡ false)
        × (0 < len) × (host.new ≡ host.old)) }
    ensures shape { shape_of host.new ≡ shape_of host.old }
{
    if iova.0.checked_add(len as u64).is_none() {
        return Err(Refusal::BadRange);
    }
    let set = host
        .table_mut(TlbId(table))
        .set_mapping(iova, map_to, len, perm);
    match set {
        Ok(()) => Ok(()),
        Err(_) => Err(Refusal::Memory),
    }
}

// Invalidates a range of a table of a host.
fn invalidate_in<B>(
    host: &mut HostMemory<B>,
    table: usize,
    iova: GuestAddress,
    len: usize,
) -> Result<(), Refusal>
    requires { table < length host.old.tables }
    ensures answer { ((replied as_done result, host.new)
        ≡ changes host.old table iova.0 len (tables.Invalidate iova.0 len))
        ⊎ ((result ≡ Err refusal.Memory) × IsSome (slice_get host.old.tables table) × (overruns iova.0 len ≡ false)
        × (0 < len) × (host.new ≡ host.old)) }
    ensures shape { shape_of host.new ≡ shape_of host.old }
{
    if iova.0.checked_add(len as u64).is_none() {
        return Err(Refusal::BadRange);
    }
    let invalidated = host.table_mut(TlbId(table)).invalidate_mapping(iova, len);
    match invalidated {
        Ok(()) => Ok(()),
        Err(_) => Err(Refusal::Memory),
    }
}

// Invalidates all of a table of a host.
fn clear_in<B>(host: &mut HostMemory<B>, table: usize)
    requires { table < length host.old.tables }
    ensures answer { (reply.Done, host.new) ≡ changes host.old table 0 0 tables.InvalidateAll }
    ensures shape { shape_of host.new ≡ shape_of host.old }
{
    host.table_mut(TlbId(table)).invalidate_all();
}

// Looks a range of a table of a host up.
fn look_up_in<B>(
    alloc: Global,
    host: &HostMemory<B>,
    table: usize,
    iova: GuestAddress,
    len: usize,
    access: Permissions,
) -> Result<Result<PieceList, IotlbFails>, Refusal>
    requires { table < length host.now.tables }
    ensures { (t : tables.Table) × (slice_get host.now.tables table ≡ Some t)
        × ((replied looked_up result ≡ looks_up (tables.says t) iova.0 len access)
        ⊎ ((result ≡ Err refusal.Memory) × (0 < len))) }
{
    match host.table(TlbId(table)).lookup(iova, len, access) {
        Ok(_) if len == 0 => Ok(Ok(PieceList::from_vec(Vec::new(alloc)))),
        Ok(pieces) => match listed(alloc, pieces) {
            Ok(pieces) => Ok(Ok(pieces)),
            Err(_) => Err(Refusal::Memory),
        },
        Err(LookupError::Fails(fails)) => Ok(Err(fails)),
        Err(LookupError::Memory) => Err(Refusal::Memory),
    }
}

// The pieces of a look-up, as a list.
fn listed(alloc: Global, pieces: IotlbIterator<'_>) -> Result<PieceList, AllocError>
    ensures { IfOk result (λ list. list ≡ mapped_ranges pieces.entry) }
{
    Ok(PieceList::from_vec(pieces.collect(alloc)?))
}
