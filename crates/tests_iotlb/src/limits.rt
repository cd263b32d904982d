//! Tables that keep few ranges, beside a plain list of pages.

use crate::payloads::{Parts, payload_of};
use crate::worlds::{FIRST, IOVA, PAGE, World, is_done, make_world};
use std::alloc::Global;
use std::test::Fail;
use test_text::next_number;
use vhost_iotlb::{Lead, lead_of};
use vm_memory_base::{Iotlb, Permissions};

// How many pages of I/O addresses there are, and how many messages come.
const SPACE: usize = 24;

const MESSAGES: usize = 300;

// What is said of each page: where it leads, and the permissions.
type Model = [Option<(u64, u8)>; SPACE];

// Whether a page goes on with the range of the page before it.
fn goes_on(model: &Model, page: usize) -> bool {
    if page == 0 || page >= SPACE {
        return false;
    }
    match (model[page - 1], model[page]) {
        (Some((before, p)), Some((here, q))) => before.wrapping_add(PAGE) == here && p == q,
        _ => false,
    }
}

// Takes back the first range that does not have this page.
fn evict_first(model: &mut Model, kept: Option<usize>) {
    let mut from = 0;
    for page in 0..SPACE {
        if !goes_on(model, page) {
            from = page;
        }
        let last = !goes_on(model, page.saturating_add(1));
        let has = kept.is_some_and(|k| from <= k && k <= page);
        if last && model[page].is_some() && !has {
            for gone in from..page.saturating_add(1) {
                if gone < SPACE {
                    model[gone] = None;
                }
            }
            return;
        }
    }
}

fn range_count(model: &Model) -> usize {
    let mut count = 0usize;
    for page in 0..SPACE {
        if model[page].is_some() && !goes_on(model, page) {
            count = count.saturating_add(1);
        }
    }
    count
}

// A change of some pages: where the first leads, and the permissions, or nothing where they are taken back.
#[derive(Clone, Copy)]
struct Change {
    first: usize,
    count: usize,
    to: Option<(u64, u8)>,
}

fn change_model(model: &mut Model, limit: usize, change: Change) {
    for i in 0..change.count {
        let page = change.first.saturating_add(i);
        if page < SPACE {
            model[page] = match change.to {
                Some((to, permissions)) => {
                    Some((to.wrapping_add((i as u64).wrapping_mul(PAGE)), permissions))
                }
                None => None,
            };
        }
    }
    let kept = change.to.map(|_| change.first);
    for _ in 0..SPACE {
        if range_count(model) <= limit {
            return;
        }
        evict_first(model, kept);
    }
}

fn next_change(state: &mut u64) -> Change {
    let first = next_number(state) as usize % SPACE;
    let count = (1 + next_number(state) as usize % 3).min(SPACE - first);
    let to = next_number(state) % 5 * PAGE;
    let permissions = (1 + next_number(state) % 3) as u8;
    let sets = next_number(state) % 4 > 0;
    Change {
        first,
        count,
        to: if sets { Some((to, permissions)) } else { None },
    }
}

fn message_of(change: Change) -> Parts {
    let iova = IOVA.wrapping_add((change.first as u64).wrapping_mul(PAGE));
    let size = (change.count as u64).wrapping_mul(PAGE);
    match change.to {
        Some((to, permissions)) => Parts {
            iova,
            size,
            user: FIRST.wrapping_add(to),
            permissions,
            kind: 2,
        },
        None => Parts {
            iova,
            size,
            user: 0,
            permissions: 0,
            kind: 3,
        },
    }
}

// Fails where a page leads elsewhere than the model says, or another access is allowed.
fn expect_page(table: &Iotlb, model: &Model, page: usize) -> Result<(), Fail> {
    let said = if page < SPACE { model[page] } else { None };
    let wanted = match said {
        Some((_, 2)) => Lead::Forbidden,
        Some((to, _)) => Lead::To(to.wrapping_add(40), 8),
        None => Lead::Missed,
    };
    let iova = IOVA + (page % SPACE) as u64 * PAGE + 40;
    let lead = lead_of(table, iova, 8, Permissions::Read);
    if lead != wanted {
        return Err(Fail::new(format_args!("page {page}: {lead:?}, not {wanted:?}")));
    }
    Ok(())
}

// Makes a change, and returns how many ranges the table has then.
fn apply(alloc: Global, world: &mut World, model: &Model, change: Change) -> Result<usize, Fail> {
    if !is_done(world, &payload_of(alloc, message_of(change))?) {
        return Err(Fail::new("a change is not made"));
    }
    if !world.host.shape().has_table(world.table.table) {
        return Err(Fail::new("the host has no such table"));
    }
    let table = world.host.table(world.table.table);
    for page in 0..SPACE {
        expect_page(table, model, page)?;
    }
    Ok(table.num_ranges())
}

// Applies messages to a table of so many ranges.
fn run(alloc: Global, limit: usize) -> Result<usize, Fail> {
    let mut state = limit as u64;
    let mut model: Model = [None; SPACE];
    let mut world = make_world(alloc, limit)?;
    let mut most = 0usize;
    for _ in 0..MESSAGES {
        let change = next_change(&mut state);
        change_model(&mut model, limit, change);
        let count = apply(alloc, &mut world, &model, change)?;
        if count != range_count(&model) || count > limit {
            return Err(Fail::new(format_args!("{count} ranges")));
        }
        most = most.max(count);
    }
    Ok(most)
}

#[test]
fn tables_keep_what_was_set_last(rt: HostRuntime) -> Result<(), Fail> {
    for (limit, most) in [(1, 1), (2, 2), (64, 14)] {
        let found = run(rt.alloc(), limit)?;
        assert!(rt;
            found >= most.min(limit) && found <= limit,
            "limit {limit}: {found} ranges"
        );
    }
    Ok(())
}
