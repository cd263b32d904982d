//! How often the device's I/O table was changed.
ghost use Rattle.std.specs.Prelude.{◌≡◌};
ghost use Rattle.vhost_backend.specs.TableCounts.{counted, counted_by, counted_if, missed, no_table_counts};

use crate::table_change::TableChange;
use vhost_iotlb::Change;

/// How often the table was changed, and mappings were asked for.
#[repr(C)]
#[derive(Clone, Copy, Debug, PartialEq, Eq)]
pub struct TableCounts {
    /// How many mappings were asked for.
    pub misses: u64,
    /// How many messages mapped a range.
    pub updates: u64,
    /// How many invalidated one.
    pub invalidations: u64,
    /// How many ranges the table evicted for one that was mapped.
    pub evictions: u64,
}

pub(crate) fn no_table_counts() -> TableCounts
    ensures { result ≡ no_table_counts }
{
    TableCounts {
        misses: 0,
        updates: 0,
        invalidations: 0,
        evictions: 0,
    }
}

// A mapping was asked for.
pub(crate) fn missed(counts: TableCounts) -> TableCounts
    ensures { result ≡ missed counts }
{
    TableCounts {
        misses: counts.misses.saturating_add(1),
        ..counts
    }
}

fn counted_by(counts: TableCounts, change: &Change, evicted: usize) -> TableCounts
    ensures { result ≡ counted_by counts change.now evicted }
{
    match change {
        Change::Map { .. } => TableCounts {
            updates: counts.updates.saturating_add(1),
            evictions: counts.evictions.saturating_add(evicted as u64),
            ..counts
        },
        Change::Unmap { .. } => TableCounts {
            invalidations: counts.invalidations.saturating_add(1),
            ..counts
        },
    }
}

// The table was changed, if it was, and evicted so many ranges.
fn counted(counts: TableCounts, change: Option<TableChange>, evicted: usize) -> TableCounts
    ensures { result ≡ counted counts change evicted }
{
    match change {
        Some(change) => counted_by(counts, change.get(), evicted),
        None => counts,
    }
}

// So it is counted if it was done.
pub(crate) fn counted_if(
    counts: TableCounts,
    change: Option<TableChange>,
    evicted: Option<usize>,
) -> TableCounts
    ensures { result ≡ counted_if counts change evicted }
{
    match evicted {
        Some(evicted) => counted(counts, change, evicted),
        None => counts,
    }
}
