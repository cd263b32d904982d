//! I/O tables: changes and look-ups, compared with a plain table of single addresses.

use crate::lookups::{expect_look_up, next_range, permissions};
use std::alloc::Global;
use std::fmt::Write;
use std::test::Fail;
use test_text::next_number;
use vm_memory_base::{GuestAddress, Iotlb, Permissions};

// What is said of an address: how far on its target lies, and the accesses.
type Said = Option<(u64, Permissions)>;

// How many addresses the plain table has.
const ADDRESSES: usize = 48;

// Each is a set of the two bits of its number.
#[test]
fn permissions_are_sets(rt: HostRuntime) {
    for number in 0..4u64 {
        let one = permissions(number);
        assert!(rt; one.has_write() == (number >= 2));
        for asked in 0..4u64 {
            let other = permissions(asked);
            assert!(rt; one & other == permissions(number & asked));
            assert!(rt; one | other == permissions(number | asked));
            assert!(rt; one.allow(other) == (number & asked == asked));
        }
    }
}

// Writes the runs of neighbouring addresses of which the same is said, each at its target or at itself, and tells how
// many these are.
fn write_runs(
    text: &mut String,
    said: &[Said],
    first: u64,
    at_targets: bool,
) -> Result<usize, Fail> {
    let mut start = 0;
    let mut count = 0usize;
    for (k, now) in said.iter().enumerate() {
        if k > 0 && said[k - 1] != *now {
            start = k;
        }
        let Some((difference, _)) = now else {
            continue;
        };
        let end = k.saturating_add(1);
        if said.get(end) != Some(now) {
            let shift = if at_targets { *difference } else { 0 };
            let base = first.wrapping_add(start as u64).wrapping_add(shift);
            let len = end.saturating_sub(start);
            write!(text, " {base:#x}+{len:#x}")?;
            count = count.saturating_add(1);
        }
    }
    Ok(count)
}

// What a look-up of these addresses has to tell.
fn wanted(alloc: Global, said: &[Said], first: u64, access: Permissions) -> Result<String, Fail> {
    let mut misses = Vec::new(alloc);
    let mut fails = Vec::new(alloc);
    let mut allowed = true;
    for now in said {
        let missed: Said = match now {
            Some(_) => None,
            None => Some((0, Permissions::No)),
        };
        let failed: Said = match now {
            Some((_, perm)) if !perm.allow(access) => *now,
            _ => None,
        };
        allowed = allowed && missed.is_none() && failed.is_none();
        misses.push(missed)?;
        fails.push(failed)?;
    }
    let mut text = String::new(alloc);
    if allowed {
        write_runs(&mut text, said, first, true)?;
        return Ok(text);
    }
    write!(text, "misses")?;
    write_runs(&mut text, misses.as_slice(), first, false)?;
    write!(text, " access")?;
    write_runs(&mut text, fails.as_slice(), first, false)?;
    Ok(text)
}

// Changes a range of both tables, or all of both.
fn change(table: &mut Iotlb, said: &mut [Said], base: u64, state: &mut u64) -> Result<(), Fail> {
    let (start, len) = next_range(state, ADDRESSES as u64, 13);
    let first = base.wrapping_add(start);
    let kind = next_number(state) % 32;
    let difference = match next_number(state) % 3 {
        0 => 0,
        1 => 0x1000,
        _ => 0xffff_ffff_ffff_fff0,
    };
    let perm = permissions(next_number(state));
    if first.checked_add(len as u64).is_none() {
        return Err(Fail::new("the range ends past the last address"));
    }
    let now = match kind {
        0 => {
            table.invalidate_all();
            for place in said.iter_mut() {
                *place = None;
            }
            return Ok(());
        }
        1..=10 => {
            table.invalidate_mapping(GuestAddress(first), len)?;
            None
        }
        _ => {
            let map_to = GuestAddress(first.wrapping_add(difference));
            table.set_mapping(GuestAddress(first), map_to, len, perm)?;
            Some((difference, perm))
        }
    };
    for place in said.iter_mut().skip(start as usize).take(len) {
        *place = now;
    }
    Ok(())
}

#[test]
fn changes_and_look_ups_are_those_of_single_addresses(rt: HostRuntime) -> Result<(), Fail> {
    for base in [0, 0xffff_ffff_ffff_ffff - 48] {
        let mut table = Iotlb::new(rt.alloc());
        let mut said: Vec<Said> = vec![in rt.alloc(); None; ADDRESSES]?;
        let mut state = 2026;
        for step in 0..2000 {
            if step % 2 == 0 {
                change(&mut table, &mut said, base, &mut state)?;
                let mut runs = String::new(rt.alloc());
                if table.num_ranges() != write_runs(&mut runs, said.as_slice(), base, false)? {
                    return Err(Fail::new(format_args!("step {step}: the ranges are the runs")));
                }
                continue;
            }
            let (start, len) = next_range(&mut state, ADDRESSES as u64, 13);
            let access = permissions(next_number(&mut state));
            let first = base.wrapping_add(start);
            let start = start as usize;
            let Some(asked) = said.get(start..start.saturating_add(len)) else {
                return Err(Fail::new("the range is not in the plain table"));
            };
            let right = wanted(rt.alloc(), asked, first, access)?;
            expect_look_up(
                rt.alloc(),
                step,
                &table,
                (first, len),
                access,
                right.as_str(),
            )?;
        }
    }
    Ok(())
}
