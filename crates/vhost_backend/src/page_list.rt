//! Pages of guest memory that were changed, and are to be marked in the front end's log.
ghost use Rattle.std.specs.Prelude.{◌≡◌, IfOk};
ghost use Rattle.vhost_backend.specs.PageList.{TakesPages, added, hull, marked, no_pages, pages_of, touch};

use std::alloc::{AllocError, Global};
use std::marker::Model;
use vhost_user::LOG_PAGE;

/// How many ranges of pages are kept beside the last one: as many as a chain has segments, if each lies alone.
pub const RANGES: usize = 1024;

/// Pages that lie together.
#[derive(Clone, Copy, Debug, PartialEq, Eq)]
pub struct PageRange {
    /// The number of the first: its address by 4,096.
    pub first: u64,
    /// The number of the one after the last.
    pub end: u64,
}

// Whether no page lies between the two.
fn touch(one: PageRange, other: PageRange) -> bool
    ensures { result ≡ touch one other }
{
    one.first <= other.end && other.first <= one.end
}

// The pages of both, and those between them.
fn hull(one: PageRange, other: PageRange) -> PageRange
    ensures { result ≡ hull one other }
{
    PageRange {
        first: one.first.min(other.first),
        end: one.end.max(other.end),
    }
}

// The pages of `len` bytes so far after an address that are among the first `pages`.
fn pages_of(pages: u64, base: u64, offset: u64, len: u64) -> Option<PageRange>
    ensures { result ≡ pages_of pages base offset len }
{
    if len == 0 {
        return None;
    }
    let from = base.saturating_add(offset);
    let last = from.saturating_add(len - 1);
    let first = from / LOG_PAGE;
    if first >= pages {
        return None;
    }
    Some(PageRange {
        first,
        end: pages.min(last / LOG_PAGE + 1),
    })
}

/// Ranges of pages that were changed while writes were logged. Those that touch become one, and so do the last ones if
/// there are too many: then pages between them are marked, too.
#[derive(Drop)]
pub struct PageList {
    // How many pages have a bit in the log: none if writes are not logged.
    pages: u64,
    last: Option<PageRange>,
    others: Vec<PageRange>,
}

impl Model for PageList {
    ghost use Rattle.std.specs.Prelude.{◌≡◌, ◌≤◌, None, [], length, vec_capacity};
    ghost use Rattle.vhost_backend.specs.PageList.{Pages};
    ghost use Rattle.vhost_backend.specs.declared.page_list.TheConstants.{RANGES};

    ghost Value = { Pages };

    ghost view = { λ l. record { pages = l.pages; last = l.last; others = l.others.items } };

    ghost invariant = { λ l. (length l.others.items ≤ RANGES) × (RANGES ≤ vec_capacity l.others)
        × (l.last ≡ None → l.others.items ≡ []) };
}

impl PageList {
    ghost use Rattle.std.specs.Prelude.{is_none};

    /// No page, while writes are not logged.
    pub fn new(alloc: Global) -> Result<PageList, AllocError>
        ensures { IfOk result (λ l. l ≡ no_pages) }
    {
        Ok(PageList {
            pages: 0,
            last: None,
            others: Vec::with_capacity(alloc, RANGES)?,
        })
    }

    /// Sets how many pages have a bit in the log.
    pub fn set_pages(&mut self, pages: u64)
        ensures { self.new ≡ record self.old { pages = pages } }
    {
        self.pages = pages;
    }

    /// Whether no page is to be marked.
    #[inline]
    pub fn is_empty(&self) -> bool
        ensures { result ≡ is_none self.now.last }
    {
        self.last.is_none()
    }

    /// Adds each page that has one of `len` bytes so far after an address, and a bit in the log.
    #[inline]
    pub fn mark(&mut self, base: u64, offset: u64, len: u64)
        ensures { self.new ≡ marked self.old base offset len }
    {
        if let Some(range) = pages_of(self.pages, base, offset, len) {
            self.add(range);
        }
    }

    fn add(&mut self, range: PageRange)
        ensures { self.new ≡ added self.old range }
    {
        match self.last {
            None => self.last = Some(range),
            Some(last) => {
                if touch(last, range) || self.others.len() >= RANGES {
                    self.last = Some(hull(last, range));
                } else {
                    self.others.push_reserved(last);
                    self.last = Some(range);
                }
            }
        }
    }

    /// Takes the range that was added last, if there is one.
    pub fn take(&mut self) -> Option<PageRange>
        ensures { TakesPages self.old result self.new }
    {
        let last = self.last;
        self.last = self.others.pop();
        last
    }
}
