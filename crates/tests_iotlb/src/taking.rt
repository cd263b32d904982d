//! Ranges that are taken from tables piece by piece, as their mappings come and are evicted.
ghost use Rattle.std.specs.Prelude.{◌≡◌, ◌⊎◌, ◌+◌, ◌<◌, ◌∷◌, ℕ, true, All, List, IfOk, IfSome, flat_map};
ghost use Rattle.vm_memory_base.specs.Address.{is_within, numbers};
ghost use Rattle.vm_memory_base.specs.Table.{says, says_nothing};
ghost use Rattle.vm_memory_base.specs.declared.iotlb.Permissions.TheVariants as permissions;
ghost use Rattle.vhost_iotlb.specs.Kept.{IsCurrent, IsReal, after_change};
ghost use Rattle.vhost_iotlb.specs.Leads.{LeadOn, LeadsTo};
ghost use Rattle.vhost_iotlb.specs.Taking.{AreReal, left};
ghost use Rattle.vhost_iotlb.specs.declared.kept.Change.TheVariants.{Map, Unmap};
ghost use Rattle.vhost_iotlb.specs.declared.leads.Lead.TheVariants.{To};
ghost use Rattle.vhost_iotlb.specs.declared.taking.Progress.TheVariants.{TooMany, NoMemory};
ghost use Rattle.vhost_iotlb.specs.declared.taking.Want.{Want};

use std::alloc::{AllocError, Global};
use std::test::Fail;
use test_text::expect_text;
use vhost_iotlb::taking_laws::{
    a_mapping_that_comes_is_taken, kept_ranges_stay_current, tables_say_what_messages_say,
    what_is_taken_is_what_was_wanted,
};
use vhost_iotlb::{
    Change, IotlbMessage, Kept, Lead, Progress, Taking, Want, any_differs, change_of, differs,
    lead_of,
};
use vm_memory_base::{GuestAddress, IommuError, Iotlb, Permissions};

const PAGE: u64 = 0x1000;

// The last address at which a page may begin.
const LAST: u64 = 0xffff_ffff_ffff_efff;

// Keeps where the first bytes of a range lead, if the change that a message makes leaves that as it is.
fn keep_over_change(
    table: &Iotlb,
    message: &IotlbMessage,
    guest: Option<GuestAddress>,
    want: Want,
) -> Option<(Change, Kept)>
    ensures current { IfSome result (λ p. IsCurrent (after_change p.0 (says table.now)) p.1) }
    ensures apart { IfSome result (λ p. (iova len i : ℕ) → p.0 ≡ Unmap iova len → i < p.1.len
        → is_within iova len (p.1.iova + i) ≡ true → ⊥) }
{
    kept_ranges_stay_current();
    let Ok(change) = change_of(message, guest) else {
        return None;
    };
    if want.len == 0 || want.iova.checked_add(want.len).is_none() {
        return None;
    }
    let Lead::To(base, len) = lead_of(table, want.iova, want.len, want.access) else {
        return None;
    };
    let kept = Kept {
        iova: want.iova,
        base,
        len,
        access: want.access,
    };
    if differs(&change, &kept) {
        return None;
    }
    Some((change, kept))
}

// Where a page leads that was mapped in a table of one range before another page was.
fn lead_after_eviction(
    alloc: Global,
    first: u64,
    second: u64,
    to: GuestAddress,
) -> Result<Lead, IommuError>
    ensures { IfOk result (λ lead. (base count : ℕ) → lead ≡ To base count
        → LeadOn (after_change (Map second to.0 4096 permissions.ReadWrite)
        (after_change (Map first to.0 4096 permissions.ReadWrite) says_nothing)) first count base permissions.Read) }
{
    tables_say_what_messages_say();
    if first > LAST || second > LAST {
        return Ok(Lead::Missed);
    }
    let mut table = Iotlb::with_limit(alloc, 1);
    table.set_mapping(
        GuestAddress(first),
        to,
        PAGE as usize,
        Permissions::ReadWrite,
    )?;
    table.set_mapping(
        GuestAddress(second),
        to,
        PAGE as usize,
        Permissions::ReadWrite,
    )?;
    Ok(lead_of(&table, first, PAGE, Permissions::Read))
}

// Takes a range from a table, if that has all of it.
fn take_range(
    alloc: Global,
    table: &Iotlb,
    want: Want,
    most: usize,
) -> Result<Option<Vec<Kept>>, AllocError>
    ensures { IfOk result (λ taken. IfSome taken (λ ks. flat_map (λ k. numbers k.iova k.len) ks.items
        ≡ numbers want.iova want.len)) }
{
    what_is_taken_is_what_was_wanted();
    if want.len == 0 || want.iova.checked_add(want.len).is_none() {
        return Ok(None);
    }
    let mut wants = Vec::new(alloc);
    wants.push(want)?;
    let mut taking = Taking::new(wants, Vec::new(alloc));
    match taking.go_on(table, most) {
        Progress::Whole => Ok(Some(taking.into_kept())),
        _ => Ok(None),
    }
}

// Takes what a table has by now of what is wanted.
fn take_what_came(taking: &mut Taking, table: &Iotlb, most: usize) -> Progress
    ensures { (w : Want) (ws : List Want) (from to : ℕ)
        → left taking.new.wants 0 taking.new.kept ≡ (w ∷ ws, from)
        → LeadsTo (says table.now) (w.iova + from) to w.access → (result ≡ TooMany) ⊎ (result ≡ NoMemory) }
{
    a_mapping_that_comes_is_taken();
    taking.go_on(table, most)
}

// I/O addresses: the first, how many, and where they lead or what they are wanted for.
type Mapped = (u64, u64, u64, Permissions);

type Wanted = (u64, u64, Permissions);

// What is mapped, what is wanted, how many ranges may be kept, and what comes of it.
type Case = (&'static [Mapped], &'static [Wanted], usize, &'static str);

static CASES: [Case; 11] = [
    // A part of one mapping.
    (
        &[(0x1000, 0x3000, 0x9000, Permissions::ReadWrite)],
        &[(0x1800, 0x2000, Permissions::Write)],
        8,
        "1800>9800+2000 Whole",
    ),
    // Three pages in another order, as two wanted ranges.
    (
        &[
            (0x1000, 0x1000, 0xa000, Permissions::Read),
            (0x2000, 0x1000, 0xc000, Permissions::Read),
            (0x3000, 0x1000, 0xb000, Permissions::Read),
        ],
        &[
            (0x1000, 0x2000, Permissions::Read),
            (0x3000, 0x1000, Permissions::Read),
        ],
        8,
        "1000>a000+1000 2000>c000+1000 3000>b000+1000 Whole",
    ),
    // A mapping that ends in the middle of a page.
    (
        &[(0x1000, 0x1800, 0x5000, Permissions::ReadWrite)],
        &[(0x1000, 0x2000, Permissions::Read)],
        8,
        "1000>5000+1000 2000>6000+800 Misses(10240, Read)",
    ),
    // One byte alone.
    (
        &[(0x1fff, 1, 0x7, Permissions::Write)],
        &[(0x1fff, 2, Permissions::Write)],
        8,
        "1fff>7+1 Misses(8192, Write)",
    ),
    // A mapping for reads alone, at the second page of a write.
    (
        &[
            (0x1000, 0x1000, 0x5000, Permissions::ReadWrite),
            (0x2000, 0x1000, 0x6000, Permissions::Read),
        ],
        &[(0x1ff0, 0x20, Permissions::Write)],
        8,
        "1ff0>5ff0+10 Bars(8192, Write)",
    ),
    // The greatest address that a range can have.
    (
        &[(u64::MAX - 1, 1, 0x5000, Permissions::Read)],
        &[(u64::MAX - 1, 1, Permissions::Read)],
        8,
        "fffffffffffffffe>5000+1 Whole",
    ),
    // Ranges of more than 2^32 bytes, of which the first byte is mapped or not.
    (
        &[(5, 0x2_0000_0000, 0x1000, Permissions::ReadWrite)],
        &[(6, 0x1_ffff_ffff, Permissions::Write)],
        8,
        "6>1001+1ffffffff Whole",
    ),
    (
        &[(1, u64::MAX - 2, 0, Permissions::ReadWrite)],
        &[(0, u64::MAX - 1, Permissions::Write)],
        8,
        "Misses(0, Write)",
    ),
    // As many ranges as may be kept, of which the last is the last one wanted or not.
    (
        &[
            (0x1000, 0x1000, 0xa000, Permissions::Read),
            (0x2000, 0x1000, 0xc000, Permissions::Read),
        ],
        &[(0x1000, 0x2000, Permissions::Read)],
        2,
        "1000>a000+1000 2000>c000+1000 Whole",
    ),
    (
        &[
            (0x1000, 0x1000, 0xa000, Permissions::Read),
            (0x2000, 0x1000, 0xc000, Permissions::Read),
        ],
        &[(0x1000, 0x2000, Permissions::Read)],
        1,
        "1000>a000+1000 TooMany",
    ),
    // Nothing is wanted.
    (&[], &[], 0, "Whole"),
];

// Wanted ranges, if each has bytes and its end is an address.
fn wants_of(alloc: Global, ranges: &[Wanted]) -> Result<Vec<Want>, Fail>
    ensures { IfOk result (λ ws. AreReal ws.items) }
{
    let mut wants = Vec::new(alloc);
    for (iova, len, access) in ranges {
        if *len == 0 || iova.checked_add(*len).is_none() {
            return Err(Fail::new("a wanted range is empty or too long"));
        }
        wants.push(Want {
            iova: *iova,
            len: *len,
            access: *access,
        })?;
    }
    Ok(wants)
}

// Maps ranges, each of which ends at an address.
fn map_all(table: &mut Iotlb, ranges: &[Mapped]) -> Result<(), Fail> {
    for (iova, len, to, permissions) in ranges {
        if iova.checked_add(*len).is_none() {
            return Err(Fail::new("a mapped range is too long"));
        }
        table.set_mapping(
            GuestAddress(*iova),
            GuestAddress(*to),
            *len as usize,
            *permissions,
        )?;
    }
    Ok(())
}

// Ranges that are kept, and why no more are.
fn text_of(alloc: Global, kept: &[Kept], progress: Progress) -> Result<String, Fail> {
    let mut text = String::new(alloc);
    for one in kept {
        let told = format!(in alloc; "{:x}>{:x}+{:x} ", one.iova, one.base, one.len)?;
        text.push_str(&told)?;
    }
    let told = format!(in alloc; "{progress:?}")?;
    text.push_str(&told)?;
    Ok(text)
}

fn run_case(alloc: Global, number: usize, case: &Case) -> Result<(), Fail> {
    let (mapped, wanted, most, expected) = *case;
    let mut table = Iotlb::new(alloc);
    map_all(&mut table, mapped)?;
    let wants = wants_of(alloc, wanted)?;
    let mut taking = Taking::new(wants, Vec::new(alloc));
    let progress = taking.go_on(&table, most);
    let text = text_of(alloc, taking.kept(), progress)?;
    expect_text(number, &text, expected)
}

#[test]
fn ranges_are_taken_in_order(rt: HostRuntime) -> Result<(), Fail> {
    for (number, case) in CASES.iter().enumerate() {
        run_case(rt.alloc(), number, case)?;
    }
    Ok(())
}

// What is mapped in a table of one range, one after the other, and what is then taken of three pages.
static STORY: [(&[Mapped], &str); 4] = [
    (&[], "Misses(4096, Write)"),
    (
        &[(0x1000, 0x1000, 0x11000, Permissions::ReadWrite)],
        "1000>11000+1000 Misses(8192, Write)",
    ),
    (
        &[(0x2000, 0x1000, 0x12000, Permissions::ReadWrite)],
        "1000>11000+1000 2000>12000+1000 Misses(12288, Write)",
    ),
    (
        &[(0x3000, 0x1000, 0x13000, Permissions::ReadWrite)],
        "1000>11000+1000 2000>12000+1000 3000>13000+1000 Whole",
    ),
];

// UPDATEs, with where they lead, and INVALIDATEs, and whether they change where one of the three pages leads.
static CHANGES: [(u64, u64, Option<(u64, Permissions)>, bool); 9] = [
    (
        0x2000,
        0x1000,
        Some((0x12000, Permissions::ReadWrite)),
        false,
    ),
    (0, 0x20_0000, Some((0x10000, Permissions::ReadWrite)), false),
    (0, 0x20_0000, Some((0x10000, Permissions::Read)), true),
    (
        0x2000,
        0x1000,
        Some((0x99000, Permissions::ReadWrite)),
        true,
    ),
    (0x4000, 0x1000, Some((0, Permissions::No)), false),
    (0x4000, 0x1000, None, false),
    (0, 0x1000, None, false),
    (0x3fff, 1, None, true),
    (0, 0, None, true),
];

// The message for a range that is mapped, or taken back.
fn message_of(iova: u64, size: u64, mapped: Option<(u64, Permissions)>) -> IotlbMessage {
    match mapped {
        Some((_, permissions)) => IotlbMessage::Update {
            iova,
            size,
            user_address: 0,
            permissions,
        },
        None => IotlbMessage::Invalidate { iova, size },
    }
}

// Whether each message changes where one of these ranges leads, as it should.
fn expect_changes(kept: &[Kept]) -> Result<(), Fail>
    requires { All IsReal kept.now }
{
    for (iova, size, mapped, expected) in &CHANGES {
        let message = message_of(*iova, *size, *mapped);
        let guest = mapped.map(|(to, _)| GuestAddress(to));
        let Ok(change) = change_of(&message, guest) else {
            return Err(Fail::new("a message is malformed"));
        };
        if any_differs(&change, kept) != *expected {
            return Err(Fail::new(format_args!("{message:?}")));
        }
    }
    Ok(())
}

#[test]
fn a_table_of_one_range_serves_three_pages(rt: HostRuntime) -> Result<(), Fail> {
    let alloc = rt.alloc();
    let mut table = Iotlb::with_limit(alloc, 1);
    let wants = wants_of(alloc, &[(0x1000, 0x3000, Permissions::Write)])?;
    let mut taking = Taking::new(wants, Vec::new(alloc));
    for (number, (mapped, expected)) in STORY.iter().enumerate() {
        map_all(&mut table, mapped)?;
        let progress = take_what_came(&mut taking, &table, 8);
        let text = text_of(alloc, taking.kept(), progress)?;
        expect_text(number, &text, expected)?;
    }
    expect_changes(taking.kept())
}

// A table that has one page.
fn table_of_a_page(alloc: Global) -> Result<Iotlb, Fail> {
    let mut table = Iotlb::new(alloc);
    map_all(
        &mut table,
        &[(0x1000, 0x1000, 0x11000, Permissions::ReadWrite)],
    )?;
    Ok(table)
}

#[test]
fn a_range_is_kept_over_changes(rt: HostRuntime) -> Result<(), Fail> {
    let alloc = rt.alloc();
    let table = table_of_a_page(alloc)?;
    let want = Want {
        iova: 0x1800,
        len: 0x1000,
        access: Permissions::Read,
    };
    let kept = keep_over_change(&table, &message_of(0x2000, 0x1000, None), None, want);
    assert!(rt;
        matches!(
            kept,
            Some((
                Change::Unmap { .. },
                Kept {
                    base: 0x11800,
                    len: 0x800,
                    ..
                }
            ))
        )
    );
    assert!(rt; keep_over_change(&table, &message_of(0x1fff, 1, None), None, want).is_none());
    assert!(rt; take_range(alloc, &table, want, 8)?.is_none());
    let part = Want { len: 0x800, ..want };
    assert!(rt; take_range(alloc, &table, part, 8)?.is_some());
    let to = GuestAddress(0x11000);
    assert!(rt; lead_after_eviction(alloc, 0x1000, 0x2000, to)? == Lead::Missed);
    assert!(rt; lead_after_eviction(alloc, 0x1000, 0x1000, to)? == Lead::To(0x11000, 0x1000));
    Ok(())
}
