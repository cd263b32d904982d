//! Scripts whose sources and sinks are interrupted.

use crate::long::Piece::Text;
use crate::long::{Rows, expect_long};
use std::test::Fail;

// A source or a sink is tried again when it was interrupted, up to 64 times in a row. Each script begins with zeros.
const INTERRUPTED: [(Rows, Rows); 8] = [
    (
        &[
            (1, &[Text(ZEROS), Text("fromx 0 0 4 ")]),
            (64, &[Text("i:-,")]),
            (1, &[Text("g:01,")]),
            (64, &[Text("i:-,")]),
            (1, &[Text("g:020304\nread 0 0 4\n")]),
        ],
        &[(1, &[Text(MADE), Text("ok\nbytes 01020304\n")])],
    ),
    (
        &[
            (1, &[Text(ZEROS), Text("fromx 0 0 4 g:01")]),
            (65, &[Text(",i:-")]),
            (1, &[Text("\nread 0 0 4\n")]),
        ],
        &[(
            1,
            &[Text(MADE), Text("error G2 Interrupted\nbytes 01000000\n")],
        )],
    ),
    // One try more than 64, and then what would have come.
    (
        &[
            (1, &[Text(ZEROS), Text("fromx 0 0 4 g:01,")]),
            (65, &[Text("i:-,")]),
            (1, &[Text("g:020304\nread 0 0 4\n")]),
        ],
        &[(
            1,
            &[Text(MADE), Text("error G2 Interrupted\nbytes 01000000\n")],
        )],
    ),
    // A source that ends.
    (
        &[
            (1, &[Text(ZEROS), Text("fromx 0 0 4 g:01,")]),
            (64, &[Text("i:-,")]),
            (1, &[Text("g:02\nread 0 0 4\n")]),
        ],
        &[(1, &[Text(MADE), Text("error G3 4 2\nbytes 01020000\n")])],
    ),
    (
        &[
            (1, &[Text(ZEROS), Text("from 0 0 4 ")]),
            (64, &[Text("i:-,")]),
            (1, &[Text("g:01020304\nread 0 0 4\n")]),
        ],
        &[(1, &[Text(MADE), Text("count 4\nbytes 01020304\n")])],
    ),
    (
        &[
            (1, &[Text(ZEROS), Text("from 0 0 4 ")]),
            (65, &[Text("i:-,")]),
            (1, &[Text("g:01020304\nread 0 0 4\n")]),
        ],
        &[(
            1,
            &[Text(MADE), Text("error G2 Interrupted\nbytes 00000000\n")],
        )],
    ),
    (
        &[
            (1, &[Text(ZEROS), Text("write 0 0 01020304\nto 0 0 4 ")]),
            (64, &[Text("i,")]),
            (1, &[Text("t:4\ntox 0 0 4 ")]),
            (64, &[Text("i,")]),
            (1, &[Text("t:1,")]),
            (64, &[Text("i,")]),
            (1, &[Text("t:3\n")]),
        ],
        &[
            (
                1,
                &[Text(MADE), Text("count 4\nsent count 4 taken 01020304\n")],
            ),
            (1, &[Text("sent ok taken 01020304\n")]),
        ],
    ),
    (
        &[
            (1, &[Text(ZEROS), Text("write 0 0 01020304\nto 0 0 4 ")]),
            (65, &[Text("i,")]),
            (1, &[Text("t:4\ntox 0 0 4 t:1,")]),
            (65, &[Text("i,")]),
            (1, &[Text("t:3\n")]),
        ],
        &[
            (
                1,
                &[
                    Text(MADE),
                    Text("count 4\nsent error G2 Interrupted taken -\n"),
                ],
            ),
            (1, &[Text("sent error G2 Interrupted taken 01\n")]),
        ],
    ),
];

// Two blocks of four bytes, one after the other.
const ZEROS: &str = "block 4 1\nblock 4 1\nregion 0 0\nregion 1 4\nlayout 0 1\nplain 0\n";

const MADE: &str = "block 0\nblock 1\nregion 0\nregion 1\nlayout 0\nmemory 0\n";

#[test]
fn sixty_four_interruptions_are_tried_again(rt: HostRuntime) -> Result<(), Fail> {
    expect_long(rt.alloc(), &INTERRUPTED)
}
