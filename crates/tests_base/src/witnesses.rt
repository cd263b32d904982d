//! Functions that meet the premises of laws, and whose clauses follow from them.
ghost use Rattle.std.specs.Prelude.{◌≡◌, ◌/◌, ◌<◌, ◌+◌, ℕ, [], true, false, length, map, slice_get, Some, IfOk};
ghost use Rattle.vm_memory_base.specs.Exclusive.{pages_of};
ghost use Rattle.vm_memory_base.specs.InMemory.{HasAllOrNone};
ghost use Rattle.vm_memory_base.specs.Pages.{IsPageSet, is_dirty_at};
ghost use Rattle.vm_memory_base.specs.Permissions.{allow, same};
ghost use Rattle.vm_memory_base.specs.Runs.{cut_to, runs, value_at};
ghost use Rattle.vm_memory_base.specs.Table.{canonical_list, failures, misses, piece_of, pieces, says};
ghost use Rattle.vm_memory_base.specs.Transfer.{FillsAs, Keeps, OffersAs, SendsAs, count_of};
ghost use Rattle.vm_memory_base.specs.declared.iotlb.Reason.TheVariants.{AccessNotAllowed};

use std::alloc::{AllocError, Global};
use std::num::NonZeroUsize;
use std::test::Fail;
use vm_memory_base::laws::pages::new_pages_cover;
use vm_memory_base::laws::permissions::{allowed_by_bits, permissions_are_sets};
use vm_memory_base::laws::runs::{
    canonical_list_is_unique, runs_are_cut, runs_decide_the_function,
};
use vm_memory_base::laws::table::{
    canonical_list_decides_the_table, kept_list_is_the_canonical_list, look_up_by_addresses,
    pieces_are_cut, reason_of_a_refusal, tables_that_say_the_same,
};
use vm_memory_base::laws::transfers::{
    fills_are_computed, offers_are_computed, sends_are_computed, vectors_take_whole_pieces,
};
use vm_memory_base::{
    ExclusiveBitmap, GuestAddress, IommuError, Iotlb, Permissions, ReadExactFault, ReadVolatile,
    Reason, VolatileMemoryError, WriteVolatile, offer_again,
};

// Whether one set allows another, and that one a third.
fn allow_in_turn(a: Permissions, b: Permissions, c: Permissions) -> bool
    ensures { result ≡ true → allow a c ≡ true }
{
    allowed_by_bits();
    a.allow(b) && b.allow(c)
}

// A new bitmap, in which each byte lies in a clean page.
fn clean_bitmap(
    alloc: Global,
    bytes: usize,
    size: NonZeroUsize,
) -> Result<ExclusiveBitmap, AllocError>
    ensures { IfOk result (λ b. IsPageSet (Some (pages_of b)) × ((offset : ℕ) → offset < bytes
        → (is_dirty_at (Some (pages_of b)) offset ≡ false)
        × (offset / (pages_of b).page_size < length (pages_of b).flags))) }
{
    new_pages_cover();
    let bitmap = ExclusiveBitmap::new(alloc, bytes, size)?;
    Ok(bitmap)
}

// The runs of a list of permissions, cut to a part: once or twice, and before they are made or after it.
fn runs_of_part(list: &[Permissions], from: u32, count: u32) -> usize
    ensures part { let all = runs same (slice_get list.now) 0 (from + count) in
        runs same (slice_get list.now) from count ≡ cut_to from count all }
    ensures twice { let all = runs same (slice_get list.now) 0 (from + count) in
        cut_to from count (cut_to from count all) ≡ cut_to from count all }
{
    permissions_are_sets();
    canonical_list_is_unique::<Permissions>();
    runs_decide_the_function::<Permissions>();
    runs_are_cut::<Permissions>();
    list.len()
}

// The ranges that a table keeps of some addresses are those of what it says there.
fn ranges_there(table: &Iotlb, iova: u32, length: u32) -> usize
    ensures pieces { pieces (says table.now) iova length ≡ map piece_of (cut_to iova length table.now.ranges) }
    ensures kept { canonical_list (value_at (canonical_list (says table.now))) ≡ canonical_list (says table.now) }
{
    canonical_list_decides_the_table();
    kept_list_is_the_canonical_list();
    pieces_are_cut();
    table.num_ranges()
}

// Whether a table grants an access. Then nothing is missed, and nothing fails.
fn grants(table: &Iotlb, iova: u64, length: usize, access: Permissions) -> bool
    ensures { result ≡ true → (misses (says table.now) iova length ≡ [])
        × (failures (says table.now) iova length access ≡ []) }
{
    look_up_by_addresses();
    let Ok(_) = table.lookup(GuestAddress(iova), length, access) else {
        return false;
    };
    true
}

// Why a table refuses an access, if it does.
fn refusal_of(
    table: &Iotlb,
    iova: GuestAddress,
    length: usize,
    access: Permissions,
) -> Option<Reason>
    ensures { result ≡ Some AccessNotAllowed → misses (says table.now) iova.0 length ≡ [] }
{
    reason_of_a_refusal();
    let Err(IommuError::CannotResolve { reason, .. }) = table.resolve(iova, length, access) else {
        return None;
    };
    Some(reason)
}

// A table that mapped a range and forgot it is a new table.
fn forgotten(alloc: Global, iova: u32, length: u32) -> Result<(Iotlb, Iotlb), IommuError>
    ensures { IfOk result (λ r. r.0 ≡ r.1) }
{
    let mut table = Iotlb::new(alloc);
    let start = GuestAddress(u64::from(iova));
    table.set_mapping(start, start, length as usize, Permissions::Read)?;
    table.invalidate_all();
    let new = Iotlb::new(alloc);
    tables_that_say_the_same(&table, &new);
    Ok((table, new))
}

// Fills a buffer from any source.
fn fill<S: ReadVolatile>(source: &mut S, buf: &mut [u8]) -> Result<(), ReadExactFault>
    ensures { FillsAs (S.known_left source.old) (S.source source.old) buf.old result buf.new (S.source source.new) }
{
    fills_are_computed::<S>();
    source.read_exact_volatile(buf)
}

// Offers bytes to any sink.
fn offer<S: WriteVolatile>(sink: &mut S, bytes: &[u8]) -> Result<usize, VolatileMemoryError>
    ensures { OffersAs (S.may_want sink.old) (S.sink sink.old) (length bytes.now) result (S.sink sink.new)
        × Keeps (S.taken sink.old) bytes.now (count_of result) (S.taken sink.new) }
{
    offers_are_computed::<S>();
    offer_again(sink, bytes)
}

// Sends bytes to any sink.
fn send<S: WriteVolatile>(sink: &mut S, bytes: &[u8]) -> Result<(), VolatileMemoryError>
    ensures { (count : ℕ)
        × SendsAs (S.may_want sink.old) (S.sink sink.old) (length bytes.now) count result (S.sink sink.new)
        × Keeps (S.taken sink.old) bytes.now count (S.taken sink.new) }
{
    sends_are_computed::<S>();
    sink.write_all_volatile(bytes)
}

// Sends bytes to a vector.
fn keep(vector: &mut Vec<u8>, bytes: &[u8]) -> Result<(), VolatileMemoryError>
    ensures { HasAllOrNone vector.old.items bytes.now result vector.new.items }
{
    vectors_take_whole_pieces();
    vector.write_all_volatile(bytes)
}

#[test]
fn witnesses_of_tables(rt: HostRuntime) -> Result<(), Fail> {
    let alloc = rt.alloc();
    assert!(rt; allow_in_turn(Permissions::ReadWrite, Permissions::Write, Permissions::No));
    let size = NonZeroUsize::new(0x10).ok_or("a page has no bytes")?;
    assert!(rt; clean_bitmap(alloc, 0x25, size)?.len() == 3);
    let (table, new) = forgotten(alloc, 0x100, 0x10)?;
    let list = [Permissions::Read, Permissions::Read, Permissions::No];
    assert!(rt; runs_of_part(&list, 1, 2) == 3);
    assert!(rt; ranges_there(&table, 0x100, 0x10) == ranges_there(&new, 0, 1));
    let mut mapped = Iotlb::new(alloc);
    mapped.set_mapping(GuestAddress(0x10), GuestAddress(0), 0x10, Permissions::Read)?;
    let start = GuestAddress(0x18);
    assert!(rt; grants(&mapped, 0x18, 8, Permissions::Read));
    let refused = refusal_of(&mapped, start, 8, Permissions::Write);
    assert!(rt; refused == Some(Reason::AccessNotAllowed));
    Ok(())
}

#[test]
fn witnesses_of_sources_and_sinks(rt: HostRuntime) -> Result<(), Fail> {
    let alloc = rt.alloc();
    let mut source: &[u8] = &[1, 2, 3];
    let mut buf = [0; 2];
    assert!(rt; fill(&mut source, &mut buf).is_ok() && buf == [1, 2]);
    let mut sink = Vec::new(alloc);
    assert!(rt; offer(&mut sink, &buf).is_ok());
    assert!(rt; send(&mut sink, source).is_ok());
    assert!(rt; keep(&mut sink, &[4]).is_ok());
    assert!(rt; sink.as_slice() == [1, 2, 3, 4].as_slice());
    Ok(())
}
