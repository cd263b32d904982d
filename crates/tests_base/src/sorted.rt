//! An I/O table as a sorted vector, compared with the table that is a tree.

use crate::lookups::{expect_look_up, next_range, permissions};
use std::alloc::Global;
use std::fmt::Write;
use std::test::Fail;
use test_text::next_number;
use vm_memory_base::{GuestAddress, Iotlb, LookupError, MappedRange, Permissions};

// Neighbouring addresses, how far on their targets lie, and the accesses.
#[derive(Clone, Copy)]
struct Mapped {
    start: u64,
    end: u64,
    difference: u64,
    permissions: Permissions,
}

// Ascending ranges. Those that touch are not mapped alike.
#[derive(Drop)]
struct SortedTable {
    ranges: Vec<Mapped>,
    alloc: Global,
}

// Adds a range after the others, which joins the last one where that touches it and is mapped alike.
fn add(ranges: &mut Vec<Mapped>, range: Mapped) -> Result<(), Fail> {
    if let Some(last) = ranges.last_mut() {
        let alike = last.difference == range.difference && last.permissions == range.permissions;
        if last.end == range.start && alike {
            last.end = range.end;
            return Ok(());
        }
    }
    ranges.push(range)?;
    Ok(())
}

impl SortedTable {
    // Says this, or nothing, of the addresses from one up to another.
    fn change(
        &mut self,
        start: u64,
        end: u64,
        now: Option<(u64, Permissions)>,
    ) -> Result<(), Fail> {
        if start == end {
            return Ok(());
        }
        let mut put = Vec::new(self.alloc);
        for range in self.ranges.iter() {
            if range.start < start {
                let end = range.end.min(start);
                add(&mut put, Mapped { end, ..*range })?;
            }
        }
        if let Some((difference, permissions)) = now {
            let range = Mapped {
                start,
                end,
                difference,
                permissions,
            };
            add(&mut put, range)?;
        }
        for range in self.ranges.iter() {
            if end < range.end {
                let start = range.start.max(end);
                add(&mut put, Mapped { start, ..*range })?;
            }
        }
        self.ranges = put;
        Ok(())
    }

    // What a look-up tells.
    fn told(&self, first: u64, len: usize, access: Permissions) -> Result<String, Fail> {
        let mut pieces = String::new(self.alloc);
        let mut misses = String::new(self.alloc);
        let mut fails = String::new(self.alloc);
        let Some(end) = first.checked_add(len as u64) else {
            write!(misses, "misses {first:#x}+{len:#x} access")?;
            return Ok(misses);
        };
        let mut at = first;
        for range in self.ranges.iter() {
            let from = range.start.max(first);
            let to = range.end.min(end);
            if to <= from {
                continue;
            }
            let len = to.saturating_sub(from);
            if at < from {
                let gap = from.saturating_sub(at);
                write!(misses, " {at:#x}+{gap:#x}")?;
            }
            if !range.permissions.allow(access) {
                write!(fails, " {from:#x}+{len:#x}")?;
            }
            let base = from.wrapping_add(range.difference);
            write!(pieces, " {base:#x}+{len:#x}")?;
            at = to;
        }
        if at < end {
            let gap = end.saturating_sub(at);
            write!(misses, " {at:#x}+{gap:#x}")?;
        }
        if misses.is_empty() && fails.is_empty() {
            return Ok(pieces);
        }
        let mut text = String::new(self.alloc);
        write!(text, "misses{} access{}", misses.as_str(), fails.as_str())?;
        Ok(text)
    }
}

// How many addresses the tables speak of.
const ADDRESSES: u64 = 1000;

// Fails where a range is not kept as one, with its target, or permits other accesses.
fn expect_range(table: &Iotlb, range: &Mapped, access: Permissions) -> Result<(), Fail> {
    let len = range.end.saturating_sub(range.start) as usize;
    let base = GuestAddress(range.start.wrapping_add(range.difference));
    let mut found = table.lookup(GuestAddress(range.start), len, access);
    let is_as_wanted = match &mut found {
        Ok(pieces) => {
            let is_whole = pieces.next() == Some(MappedRange { base, length: len });
            range.permissions.allow(access) && is_whole && pieces.next().is_none()
        }
        Err(LookupError::Fails(_)) => !range.permissions.allow(access),
        Err(LookupError::Memory) => false,
    };
    if !is_as_wanted {
        return Err(Fail::new(format_args!("the range at {:#x}", range.start)));
    }
    Ok(())
}

// Changes a range of both tables.
fn change(
    table: &mut Iotlb,
    sorted: &mut SortedTable,
    base: u64,
    state: &mut u64,
) -> Result<(), Fail> {
    let most = if next_number(state) % 8 == 0 { 400 } else { 40 };
    let (start, len) = next_range(state, ADDRESSES, most);
    let first = base.wrapping_add(start);
    let Some(end) = first.checked_add(len as u64) else {
        return Err(Fail::new("the range ends past the last address"));
    };
    let before = table.num_ranges();
    let difference = (next_number(state) % 3).wrapping_mul(0x7fff_ffff_ffff_f000);
    let perm = permissions(next_number(state));
    let (changed, now) = if next_number(state) % 3 == 0 {
        (table.invalidate_mapping(GuestAddress(first), len), None)
    } else {
        let map_to = GuestAddress(first.wrapping_add(difference));
        (
            table.set_mapping(GuestAddress(first), map_to, len, perm),
            Some((difference, perm)),
        )
    };
    changed?;
    sorted.change(first, end, now)?;
    if before.saturating_add(2) < table.num_ranges() {
        return Err(Fail::new("more than two ranges came on top"));
    }
    if table.num_ranges() != sorted.ranges.len() {
        return Err(Fail::new("the number of ranges is another one"));
    }
    for range in sorted.ranges.iter() {
        expect_range(table, range, range.permissions)?;
        expect_range(table, range, permissions(state.wrapping_shr(40)))?;
    }
    Ok(())
}

#[test]
fn a_tree_of_ranges_is_a_sorted_vector(rt: HostRuntime) -> Result<(), Fail> {
    for base in [0, 0xffff_ffff_ffff_ffff - ADDRESSES] {
        let mut table = Iotlb::new(rt.alloc());
        let mut sorted = SortedTable {
            ranges: Vec::new(rt.alloc()),
            alloc: rt.alloc(),
        };
        let mut state = 29;
        for step in 0..5000 {
            change(&mut table, &mut sorted, base, &mut state)?;
            let access = permissions(next_number(&mut state));
            let (start, len) = if step % 16 == 0 {
                (0, ADDRESSES as usize)
            } else {
                let most = if step % 8 == 1 { 400 } else { 40 };
                next_range(&mut state, ADDRESSES, most)
            };
            let first = base.wrapping_add(start);
            let right = sorted.told(first, len, access)?;
            expect_look_up(
                rt.alloc(),
                step,
                &table,
                (first, len),
                access,
                right.as_str(),
            )?;
        }
    }
    Ok(())
}
