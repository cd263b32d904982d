//! Mappings of guest memory.
ghost use Rattle.std.specs.Prelude.{◌≡◌};
ghost use Rattle.vhost_backend.specs.Mapping.{mapping_in, mapping_of};

use vhost_message::{FrontendReq, MemoryRegion, MemoryTable};

/// What is to be done with mappings of guest memory.
#[derive(Clone, Copy, Debug)]
pub enum Mapping {
    /// Each region that is mapped is unmapped.
    UnmapAll,
    /// A region is mapped from its file: the descriptor of this number among those that came with the message.
    Map(MemoryRegion, usize),
}

// Of a table of memory: what was mapped goes, and then its regions are mapped in order.
fn mapping_in(table: &MemoryTable, number: usize) -> Option<Mapping>
    ensures { result ≡ mapping_in table.now number }
{
    if number == 0 {
        return Some(Mapping::UnmapAll);
    }
    match table.regions().get(number - 1) {
        Some(region) => Some(Mapping::Map(*region, number - 1)),
        None => None,
    }
}

// Of a request.
pub(crate) fn mapping_of(request: &FrontendReq, number: usize) -> Option<Mapping>
    ensures { result ≡ mapping_of request.now number }
{
    match request {
        FrontendReq::SetMemTable(table) => mapping_in(table, number),
        _ => None,
    }
}
