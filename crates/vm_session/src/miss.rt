//! What a call misses that a table refused.
ghost use Rattle.std.specs.Prelude.{◌≡◌, ◌==◌, false, MatchOption, slice_get, map};
ghost use Rattle.vm_memory_base.specs.Lookup.{range_in};
ghost use Rattle.vm_session.specs.Misses.{LooksUp, access_of, first_of, is_untranslated, miss_at, miss_of, no_miss};
ghost use Rattle.vm_session.specs.Misses.{number_of};
ghost use Rattle.vm_session.specs.Requests.{address};
ghost use Rattle.vm_memory.specs.Reply.{replied};
ghost use Rattle.vm_memory.specs.ScriptMachine.{state_made};
ghost use Rattle.vm_memory.specs.Tables.{looked_up};

use crate::call::{Answer, Miss};
use crate::code;
use vm_memory::{PieceList, Refusal, ScriptMachine};
use vm_memory_base::{GuestAddress, IotlbFails, IovaRange, Permissions};

impl Answer {
    // Whether a table refused the call.
    #[inline(always)]
    pub(crate) fn is_untranslated(&self) -> bool
        ensures { result ≡ is_untranslated self.now }
    {
        self.code == code::IOMMU_MISSING
            || (self.code == code::IOMMU_NOT_ALLOWED || self.code == code::IOTLB_TOO_SMALL)
    }

    // Whether its code is one of those around them. This test is made of each answer, and takes two instructions.
    #[inline(always)]
    pub(crate) fn may_be_untranslated(&self) -> bool
        ensures refused { result ≡ false → is_untranslated self.now ≡ false }
        ensures missing { result ≡ false → (self.now.code == 42) ≡ false }
    {
        self.code >= code::IOMMU_MISSING && self.code <= code::IOTLB_TOO_SMALL
    }
}

impl Miss {
    /// Nothing is missed.
    pub fn none() -> Miss
        ensures { result ≡ no_miss }
    {
        Miss {
            access: 0,
            address: 0,
            length: 0,
        }
    }

    fn at(access: Permissions, range: &IovaRange) -> Miss
        ensures { result ≡ miss_at access (range_in range.now) }
    {
        Miss {
            access: number_of(access),
            address: range.base.0,
            length: range.length,
        }
    }
}

fn number_of(access: Permissions) -> u32
    ensures { result ≡ number_of access }
{
    match access {
        Permissions::No => 0,
        Permissions::Read => 1,
        Permissions::Write => 2,
        Permissions::ReadWrite => 3,
    }
}

// The first of ranges that are missed or else of ranges that are forbidden: those that are missed can be asked for.
fn first_of(access: Permissions, misses: &[IovaRange], forbidden: &[IovaRange]) -> Miss
    ensures { result ≡ first_of access (map range_in misses.now) (map range_in forbidden.now) }
{
    match (misses, forbidden) {
        ([miss, ..], _) => Miss::at(access, miss),
        ([], [fail, ..]) => Miss::at(access, fail),
        ([], []) => Miss::none(),
    }
}

// What a look-up for an access misses.
fn miss_of(access: Permissions, found: Result<Result<PieceList, IotlbFails>, Refusal>) -> Miss
    ensures { result ≡ miss_of access (replied looked_up found) }
{
    match found {
        Ok(Ok(_)) => Miss::none(),
        Ok(Err(fails)) => {
            first_of(
                access,
                fails.misses.as_slice(),
                fails.access_fails.as_slice(),
            )
        }
        Err(Refusal::NoSuch | Refusal::BadRange | Refusal::Memory | Refusal::Fault(_)) => {
            Miss::none()
        }
    }
}

// Looks up what an answer names in a table, for an access.
pub(crate) fn look_up(
    machine: &ScriptMachine,
    answer: &Answer,
    access: Permissions,
    table: usize,
) -> Miss
    ensures { LooksUp (state_made machine.now) answer.now access table result }
{
    let start = GuestAddress(answer.address);
    let found = machine.lookup(table, start, answer.value as usize, access);
    miss_of(access, found)
}
