//! The calls of I/O tables that may fail to allocate, on tables of 1 to 40 ranges.
ghost use Rattle.std.specs.Prelude.{◌≤◌};

use crate::calls::{Answer, Calls};
use std::alloc::Global;
use std::test::Fail;
use vm_memory_base::{GuestAddress, IommuError, Iotlb, IotlbFails, LookupError, Permissions};

// The most ranges of a table.
const RANGES: usize = 40;

/// Tables, every second of which has a limit, and what the last look-up missed.
#[derive(Drop)]
pub struct Tables {
    alloc: Global,
    tables: Vec<Iotlb>,
    fails: Option<IotlbFails>,
}

impl Tables {
    pub fn new(alloc: Global) -> Result<Tables, Fail> {
        let mut tables = Vec::new(alloc);
        for ranges in 1..RANGES + 1 {
            tables.push(table_of(alloc, ranges)?)?;
        }
        Ok(Tables {
            alloc,
            tables,
            fails: None,
        })
    }
}

// A table of so many ranges, with room for one more where it has a limit.
fn table_of(alloc: Global, ranges: usize) -> Result<Iotlb, Fail>
    requires { ranges ≤ 40 }
{
    let mut table = if ranges % 2 == 0 {
        Iotlb::new(alloc)
    } else {
        Iotlb::with_limit(alloc, ranges + 1)
    };
    for range in 0..ranges {
        let iova = GuestAddress(0x1000 * range as u64);
        table.set_mapping(iova, GuestAddress(0x10_0000), 0x800, Permissions::Read)?;
    }
    Ok(table)
}

fn answer_of(answer: Result<(), IommuError>) -> Answer {
    match answer {
        Ok(()) => Answer::Done,
        Err(IommuError::Memory) => Answer::Refused,
        Err(_) => Answer::Other,
    }
}

// A look-up that misses what lies between the ranges, and may not write to them.
fn look_up(table: &Iotlb, fails: &mut Option<IotlbFails>) -> Answer {
    match table.lookup(GuestAddress(0), 0x1000 * RANGES, Permissions::Write) {
        Ok(_) => Answer::Other,
        Err(LookupError::Fails(found)) => {
            *fails = Some(found);
            Answer::Done
        }
        Err(LookupError::Memory) => Answer::Refused,
    }
}

// Three calls of each table. A mapping and an invalidation lie within its middle range, and so cut it in three.
impl Calls for Tables {
    fn count(&self) -> usize {
        3 * RANGES
    }

    fn make(&mut self, number: usize) -> Answer {
        let Some(table) = self.tables.get_mut(number / 3) else {
            return Answer::Other;
        };
        let middle = 0x1000 * (number / 6 % RANGES) as u64;
        match number % 3 {
            0 => look_up(table, &mut self.fails),
            1 => answer_of(table.set_mapping(
                GuestAddress(middle + 0x200),
                GuestAddress(0),
                0x100,
                Permissions::ReadWrite,
            )),
            _ => answer_of(table.invalidate_mapping(GuestAddress(middle + 0x500), 0x100)),
        }
    }

    fn seen(&mut self, number: usize) -> Result<String, Fail> {
        let table = self.tables.get(number / 3);
        Ok(format!(in self.alloc; "{table:?} {:?}", self.fails)?)
    }
}
