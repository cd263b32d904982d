//! Ranges of I/O addresses that are kept with what they lead to, and the changes that they do not outlive.
ghost use Rattle.std.specs.Prelude.{◌≡◌, ◌+◌, ◌^◌, ◌<◌, All};
ghost use Rattle.std.specs.List.{list_any};
ghost use Rattle.vm_memory_base.specs.Address.{difference};
ghost use Rattle.vhost_iotlb.specs.Kept.{Fits, IsReal, differs, overlap};

use vm_memory_base::Permissions;

/// A range of I/O addresses, which a look-up found to lead on from a guest address.
#[derive(Clone, Copy, Debug, PartialEq, Eq)]
pub struct Kept {
    /// The first I/O address.
    pub iova: u64,
    /// The guest address that it leads to.
    pub base: u64,
    /// How many bytes there are.
    pub len: u64,
    /// The access that its mapping permits.
    pub access: Permissions,
}

/// How a message of the front end changes its mappings.
#[derive(Clone, Copy, Debug, PartialEq, Eq)]
pub enum Change {
    /// `len` addresses from `iova` on lead to those from `to` on.
    Map {
        iova: u64,
        to: u64,
        len: u64,
        permissions: Permissions,
    },
    /// `len` addresses from `iova` on lead nowhere.
    Unmap {
        iova: u64,
        len: u64,
    },
}

// How far a target lies from an address, modulo 2^64.
fn distance(iova: u64, to: u64) -> u64
    ensures { result ≡ difference iova to }
{
    to.wrapping_sub(iova)
}

// Whether a kept range has one of `len` addresses from `iova` on.
fn overlap(iova: u64, len: u64, kept: &Kept) -> bool
    requires fits { iova + len < 2 ^ 64 }
    requires real { IsReal kept.now }
    ensures { result ≡ overlap iova len kept.now }
{
    iova < kept.iova + kept.len && kept.iova < iova + len
}

/// Whether a kept range may lead elsewhere after a change, or nowhere. The same mapping once more, also as a part of a
/// larger one, makes no difference.
pub fn differs(change: &Change, kept: &Kept) -> bool
    requires fits { Fits change.now }
    requires real { IsReal kept.now }
    ensures { result ≡ differs change.now kept.now }
{
    match *change {
        Change::Map {
            iova,
            to,
            len,
            permissions,
        } => {
            let same = distance(iova, to) == distance(kept.iova, kept.base);
            overlap(iova, len, kept) && !(same && permissions.allow(kept.access))
        }
        Change::Unmap { iova, len } => overlap(iova, len, kept),
    }
}

/// Whether one of these ranges may lead elsewhere after a change, or nowhere.
pub fn any_differs(change: &Change, kept: &[Kept]) -> bool
    requires fits { Fits change.now }
    requires real { All IsReal kept.now }
    ensures { result ≡ list_any (differs change.now) kept.now }
{
    kept.iter().any(|one| differs(change, one))
}
