//! A bounded table of a host, and what messages make of it.
ghost use Rattle.std.specs.Prelude.{◌≡◌, ◌⊎◌, ◌+◌, ◌^◌, ◌<◌, true, false, List, [], length, Some, IfNone, IfOk, IfSome};
ghost use Rattle.std.specs.Prelude.{Ok, Err, IfErr, MatchResult, OnErr, OnOk, OnSome, slice_get};
ghost use Rattle.vm_memory_base.specs.Table as tables;
ghost use Rattle.vm_memory_base.specs.Table.{TableEvent};
ghost use Rattle.vm_memory_guest.specs.Host.{shape_of, with_given_table};
ghost use Rattle.vhost_iotlb.specs.Changes.{Applies, Changes, ChangesFor, LeftByRefused, MayWant, call_of, done_of};
ghost use Rattle.vhost_iotlb.specs.Changes.{evicted_for, guest_asked, invalidated};
ghost use Rattle.vhost_iotlb.specs.Kept.{Fits, event_of};
ghost use Rattle.vhost_iotlb.specs.declared.table.Refusal.TheVariants as refusal;
ghost use Rattle.vhost_message.specs.declared.regions.MemoryRegion.{MemoryRegion};

use crate::kept::Change;
use std::alloc::{AllocError, Global};
use thiserror::Error;
use vhost_message::{IotlbMessage, Malformed, MemoryRegions};
use vm_memory_base::{GuestAddress, Iotlb, Permissions};
use vm_memory_guest::{HostMemory, TlbId};

/// Why a message was not applied. Then nothing changed, except that a malformed INVALIDATE invalidated everything.
#[derive(Clone, Copy, Debug, PartialEq, Eq, Error)]
pub enum Refusal {
    /// The message is malformed.
    #[error("malformed message: {0}")]
    Malformed(Malformed),
    /// The memory that the front end announced does not hold the range.
    #[error("user address outside the announced memory")]
    UserAddress,
    /// An allocation failed.
    #[error("out of memory")]
    Memory,
    /// The host has no such table.
    #[error("no such table")]
    NoTable,
}

/// How a message changes what the front end maps, if `guest` is the guest memory that the user address of an UPDATE is.
///
/// `Malformed` with `Kind` for a message that a front end does not send, with `EmptyRange` for an INVALIDATE of no
/// addresses, and with `Range` for an INVALIDATE past the last address and an UPDATE up to it. `UserAddress` for an
/// UPDATE if `guest` is nothing.
pub fn change_of(message: &IotlbMessage, guest: Option<GuestAddress>) -> Result<Change, Refusal>
    ensures call { (regions : List MemoryRegion) → guest ≡ guest_asked regions message.now → MatchResult result
        (λ c. call_of regions message.now ≡ Ok (event_of c)) (λ e. call_of regions message.now ≡ Err e) }
    ensures fits { IfOk result Fits }
{
    match *message {
        IotlbMessage::Update {
            iova,
            size,
            permissions,
            ..
        } => {
            if iova.checked_add(size).is_none() {
                return Err(Refusal::Malformed(Malformed::Range));
            }
            let Some(to) = guest else {
                return Err(Refusal::UserAddress);
            };
            Ok(Change::Map {
                iova,
                to: to.0,
                len: size,
                permissions,
            })
        }
        IotlbMessage::Invalidate { iova, size } => match invalidated(iova, size) {
            Ok(len) => Ok(Change::Unmap { iova, len }),
            Err(error) => Err(Refusal::Malformed(error)),
        },
        IotlbMessage::Miss { .. } | IotlbMessage::AccessFail { .. } => {
            Err(Refusal::Malformed(Malformed::Kind))
        }
    }
}

/// A table of a host that a front end fills, and the memory that it announced.
#[derive(Debug, Drop)]
pub struct DeviceTable {
    /// The number of the table.
    pub table: TlbId,
    /// What user addresses mean.
    pub memory: MemoryRegions,
}

// Maps a range of a table of a host, and returns how many ranges the table evicted, or nothing if an allocation failed.
fn set_in<B>(
    host: &mut HostMemory<B>,
    table: TlbId,
    iova: u64,
    to: GuestAddress,
    size: u64,
    permissions: Permissions,
) -> Option<usize>
    requires there { table.0 < length host.old.tables }
    requires fits { iova + size < 2 ^ 64 }
    ensures set { OnSome result (Changes table.0 (tables.Set iova to.0 size permissions) host.old host.new) }
    ensures count { IfSome result
        (λ n. n ≡ evicted_for (Ok (tables.Set iova to.0 size permissions)) (slice_get host.old.tables table.0)) }
    ensures refused { IfNone result (host.new ≡ host.old) }
    ensures shape { shape_of host.new ≡ shape_of host.old }
{
    let set = host
        .table_mut(table)
        .set_mapping_counted(GuestAddress(iova), to, size as usize, permissions);
    match set {
        Ok(count) => Some(count),
        Err(_) => None,
    }
}

// How many addresses an INVALIDATE invalidates: those that it names, up to the last one, which no table maps.
fn invalidated(iova: u64, size: u64) -> Result<u64, Malformed>
    ensures length { result ≡ invalidated iova size }
    ensures fits { IfOk result (λ len. iova + len < 2 ^ 64) }
{
    let most = u64::MAX - iova;
    if size == 0 {
        return if iova == 0 {
            Ok(most)
        } else {
            Err(Malformed::EmptyRange)
        };
    }
    if size - 1 > most {
        return Err(Malformed::Range);
    }
    Ok(size.min(most))
}

/// Invalidates the mappings of a range, or all if memory is short: to invalidate a part of a range may want some.
pub fn take_back(table: &mut Iotlb, iova: u64, size: u64)
    requires { iova + size < 2 ^ 64 }
    ensures { (table.new ≡ tables.changed (tables.Invalidate iova size) table.old)
        ⊎ (table.new ≡ tables.changed tables.InvalidateAll table.old) }
{
    if table
        .invalidate_mapping(GuestAddress(iova), size as usize)
        .is_err()
    {
        table.invalidate_all();
    }
}

// Invalidates all mappings of a table of a host.
fn invalidate_all<B>(host: &mut HostMemory<B>, table: TlbId)
    requires { table.0 < length host.old.tables }
    ensures changed { Changes table.0 tables.InvalidateAll host.old host.new }
    ensures shape { shape_of host.new ≡ shape_of host.old }
{
    host.table_mut(table).invalidate_all();
}

// Invalidates the mappings of a range of a table of a host, or all.
fn take_back_in<B>(host: &mut HostMemory<B>, table: TlbId, iova: u64, size: u64)
    requires there { table.0 < length host.old.tables }
    requires fits { iova + size < 2 ^ 64 }
    ensures changed { Changes table.0 (tables.Invalidate iova size) host.old host.new
        ⊎ Changes table.0 tables.InvalidateAll host.old host.new }
    ensures shape { shape_of host.new ≡ shape_of host.old }
{
    take_back(host.table_mut(table), iova, size);
}

// Makes a change to a table of a host, and returns how many ranges the table evicted. `Memory` if an allocation failed.
fn make<B>(host: &mut HostMemory<B>, table: TlbId, change: Change) -> Result<usize, Refusal>
    requires there { table.0 < length host.old.tables }
    requires fits { Fits change }
    ensures made { OnOk result (ChangesFor table.0 (event_of change) host.old host.new) }
    ensures count { IfOk result (λ n. n ≡ evicted_for (Ok (event_of change)) (slice_get host.old.tables table.0)) }
    ensures refused { IfErr result
        (λ e. (e ≡ refusal.Memory) × MayWant (Ok (event_of change)) × (host.new ≡ host.old)) }
    ensures shape { shape_of host.new ≡ shape_of host.old }
{
    match change {
        Change::Map {
            iova,
            to,
            len,
            permissions,
        } => match set_in(host, table, iova, GuestAddress(to), len, permissions) {
            Some(count) => Ok(count),
            None => Err(Refusal::Memory),
        },
        Change::Unmap { iova, len } => {
            take_back_in(host, table, iova, len);
            Ok(0)
        }
    }
}

// A message is refused: a malformed INVALIDATE invalidates everything.
fn refuse<B>(host: &mut HostMemory<B>, table: TlbId, message: &IotlbMessage)
    requires { table.0 < length host.old.tables }
    ensures refused { LeftByRefused table.0 message.now host.old host.new }
    ensures shape { shape_of host.new ≡ shape_of host.old }
{
    if let IotlbMessage::Invalidate { .. } = message {
        invalidate_all(host, table);
    }
}

// Where the range of an UPDATE lies in guest memory.
fn guest_asked(memory: &MemoryRegions, message: &IotlbMessage) -> Option<GuestAddress>
    ensures { result ≡ guest_asked memory.now message.now }
{
    match *message {
        IotlbMessage::Update {
            size,
            user_address,
            ..
        } => memory.guest_of(user_address, size),
        _ => None,
    }
}

impl DeviceTable {
    /// Makes a table of a host that keeps at most `limit` ranges, which has to be 1 or more, for a front end that
    /// announced this memory. `AllocError` if its allocation fails, and then nothing changes.
    ///
    /// Leaves open: a failed allocation each time.
    pub fn new<B>(
        alloc: Global,
        host: &mut HostMemory<B>,
        limit: usize,
        memory: MemoryRegions,
    ) -> Result<DeviceTable, AllocError>
        requires { 0 < limit }
        ensures number { IfOk result (λ d. d.table.0 ≡ length host.old.tables) }
        ensures memory { IfOk result (λ d. d.memory ≡ memory) }
        ensures ok { OnOk result (host.new ≡ with_given_table host.old (record { limit = Some limit; ranges = [] })) }
        ensures err { OnErr result (host.new ≡ host.old) }
    {
        let table = host.new_table_with(Iotlb::with_limit(alloc, limit))?;
        Ok(DeviceTable { table, memory })
    }

    /// Applies a message of the front end to the table: an UPDATE maps its range to the guest memory that its user
    /// address is, and an INVALIDATE invalidates its range, which may end at the last address; (0, 0) stands for all
    /// addresses. If an allocation fails for that, it invalidates everything, which the table then misses: an
    /// INVALIDATE is never refused for that reason. An UPDATE is, with `Memory`.
    ///
    /// `Malformed` with `Kind` for a message that a front end does not send, with `EmptyRange` for an INVALIDATE of no
    /// addresses, and with `Range` for an INVALIDATE past the last address and an UPDATE up to it. `UserAddress` if the
    /// announced memory does not hold an UPDATE's. `NoTable` if the host has no such table. What is refused changes
    /// nothing, except that a malformed INVALIDATE invalidates everything: which of the front end's mappings still hold
    /// is not known then.
    ///
    /// Leaves open: `Memory` for each UPDATE of an announced range, and then nothing changed; and that an INVALIDATE of
    /// a range invalidates everything, each time.
    pub fn apply<B>(&self, host: &mut HostMemory<B>, message: &IotlbMessage) -> Result<(), Refusal>
        ensures applied { (calls : List TableEvent)
            × Applies self.now.table.0 self.now.memory message.now result calls host.old host.new }
        ensures shape { shape_of host.new ≡ shape_of host.old }
    {
        match self.apply_counted(host, message) {
            Ok(_) => Ok(()),
            Err(refusal) => Err(refusal),
        }
    }

    /// Does what [`apply`](Self::apply) does, and returns how many ranges the table evicted for an UPDATE, and 0 for an
    /// INVALIDATE.
    pub fn apply_counted<B>(
        &self,
        host: &mut HostMemory<B>,
        message: &IotlbMessage,
    ) -> Result<usize, Refusal>
        ensures applied { (calls : List TableEvent)
            × Applies self.now.table.0 self.now.memory message.now (done_of result) calls host.old host.new }
        ensures evicted { IfOk result (λ n. n
            ≡ evicted_for (call_of self.now.memory message.now) (slice_get host.old.tables self.now.table.0)) }
        ensures shape { shape_of host.new ≡ shape_of host.old }
    {
        if !host.shape().has_table(self.table) {
            return Err(Refusal::NoTable);
        }
        match change_of(message, guest_asked(&self.memory, message)) {
            Ok(change) => make(host, self.table, change),
            Err(error) => {
                refuse(host, self.table, message);
                Err(error)
            }
        }
    }
}
