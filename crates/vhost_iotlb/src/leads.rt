//! Where the first bytes of an I/O range lead, as far as one mapping has them.
ghost use Rattle.std.specs.Prelude.{◌+◌, ◌^◌, ◌<◌};
ghost use Rattle.vm_memory_base.specs.Table.{says};
ghost use Rattle.vhost_iotlb.specs.Leads.{Leads};

use vm_memory_base::{GuestAddress, IommuError, Iotlb, Permissions, Reason};

const PAGE_SIZE: u64 = 4096;

/// Where a range of I/O addresses leads for an access.
#[derive(Clone, Copy, Debug, PartialEq, Eq)]
pub enum Lead {
    /// As many of its first bytes lead to memory from this guest address on: (address, count).
    To(u64, u64),
    /// Its first byte has no mapping.
    Missed,
    /// The mapping of its first byte forbids the access.
    Forbidden,
}

// Where one byte leads. A look-up of one byte allocates nothing.
fn lead_of_one(table: &Iotlb, iova: u64, access: Permissions) -> Lead
    requires { iova + 1 < 2 ^ 64 }
    ensures { Leads (says table.now) iova 1 access result }
{
    match table.resolve(GuestAddress(iova), 1, access) {
        Ok(found) => match found.as_slice() {
            [piece, ..] => Lead::To(piece.base.0, 1),
            [] => Lead::Missed,
        },
        Err(error) => match error {
            IommuError::CannotResolve { reason, .. } => match reason {
                Reason::AccessNotAllowed => Lead::Forbidden,
                _ => Lead::Missed,
            },
            _ => Lead::Missed,
        },
    }
}

/// Where the first bytes of `len` from `iova` on lead for an access: all of them if one mapping has them, and otherwise
/// as many as one has of the page of 4 KiB, of a half of that, and so on, but at least the first byte if that has a
/// mapping which permits the access. It allocates nothing and looks the table up at most 14 times.
pub fn lead_of(table: &Iotlb, iova: u64, len: u64, access: Permissions) -> Lead
    requires some { 0 < len }
    requires fits { iova + len < 2 ^ 64 }
    ensures { Leads (says table.now) iova len access result }
{
    let start = GuestAddress(iova);
    if let Some(piece) = table.resolve_one(start, len as usize, access) {
        return Lead::To(piece.base.0, len);
    }
    let mut count = len.min(PAGE_SIZE - iova % PAGE_SIZE);
    while count > 1 {
        if let Some(piece) = table.resolve_one(start, count as usize, access) {
            return Lead::To(piece.base.0, count);
        }
        count /= 2;
    }
    lead_of_one(table, iova, access)
}
