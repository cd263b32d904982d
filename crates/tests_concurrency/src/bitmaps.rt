//! Bitmaps that threads mark while one harvests.

use std::test::Fail;
use test_threads::{Marks, expect_atomic, expect_cleared, expect_shared_words, expect_tracked};

// How many rounds there are at least, and the pages of each. The last are two markers on the pages 0 to 63 and 32 to
// 95. One round meets few of the moments in which a page can be lost, so there are many, and more until a harvest took
// pages while threads marked.
const ROUNDS: [(usize, Marks); 5] = [
    (
        7,
        Marks {
            pages: 30_000,
            lot: 1,
            width: 1,
            threads: 4,
        },
    ),
    (
        7,
        Marks {
            pages: 10_001,
            lot: 3,
            width: 3,
            threads: 4,
        },
    ),
    (
        7,
        Marks {
            pages: 5000,
            lot: 70,
            width: 1,
            threads: 4,
        },
    ),
    (
        20,
        Marks {
            pages: 20_000,
            lot: 1,
            width: 5,
            threads: 4,
        },
    ),
    (
        300,
        Marks {
            pages: 96,
            lot: 16,
            width: 4,
            threads: 2,
        },
    ),
];

#[test]
fn markers_and_a_harvester_lose_no_page(rt: HostRuntime) -> Result<(), Fail> {
    for (rounds, marks) in &ROUNDS {
        let mut taken = 0usize;
        for round in 0..rounds.saturating_add(100) {
            if round >= *rounds && taken > 0 {
                break;
            }
            taken = taken.saturating_add(expect_tracked(&rt, rt.alloc(), marks)?);
        }
        assert!(rt;
            taken > 0,
            "harvests take pages of {} while threads mark",
            marks.pages
        );
    }
    Ok(())
}

// Bitmaps, and lots of them. One round meets few of the moments in which a page can be lost, so there are six of each
// or more, until a harvest took pages while threads marked.
const MARKS: [Marks; 5] = [
    Marks {
        pages: 30_000,
        lot: 1,
        width: 1,
        threads: 4,
    },
    Marks {
        pages: 10_001,
        lot: 3,
        width: 3,
        threads: 4,
    },
    Marks {
        pages: 5000,
        lot: 70,
        width: 1,
        threads: 4,
    },
    Marks {
        pages: 20_000,
        lot: 1,
        width: 4,
        threads: 4,
    },
    // Runs of three pages, each before three pages of no thread. Those of the first thread begin 39 pages apart. So its
    // run 36 has the pages 1404 to 1406, of which the last is page 62 of its word, and page 1407, the last of the word,
    // stays as it was.
    Marks {
        pages: 10_000,
        lot: 3,
        width: 1,
        threads: 4,
    },
];

#[test]
fn words_lose_no_page(rt: HostRuntime) -> Result<(), Fail> {
    for marks in &MARKS {
        let mut taken = 0usize;
        for round in 0..106 {
            if round >= 6 && taken > 0 {
                break;
            }
            taken = taken.saturating_add(expect_atomic(&rt, rt.alloc(), marks)?);
            expect_cleared(&rt, rt.alloc(), marks)?;
        }
        assert!(rt;
            taken > 0,
            "harvests take pages of {} while threads mark",
            marks.pages
        );
    }
    Ok(())
}

#[test]
fn words_that_two_threads_change_lose_no_page(rt: HostRuntime) -> Result<(), Fail> {
    expect_shared_words(&rt, rt.alloc(), 100)
}
