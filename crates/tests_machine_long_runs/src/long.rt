//! Scripts of many lines, long lines and great numbers.

use crate::ends::told;
use std::alloc::{AllocError, Global};
use std::test::Fail;

/// A part of a text that is repeated. A number is `m` times the number of the time, and `a`.
#[derive(Clone, Copy)]
pub enum Piece {
    Text(&'static str),
    /// The number `m * time + a` in decimal.
    Number(u64, u64),
    /// The same in hexadecimal.
    Hex(u64, u64),
    /// The rest of the same by 251, as a byte.
    Byte(u64, u64),
    /// The sum of the number of the time and this, as 16 bytes.
    Long(u64),
}

use Piece::{Byte, Hex, Long, Number, Text};

/// Parts of a text, each with how often it is repeated.
pub type Rows = &'static [(usize, &'static [Piece])];

// What a number is multiplied by that falls.
const DOWN: u64 = u64::MAX;

fn text_of(alloc: Global, rows: Rows) -> Result<String, AllocError> {
    let mut text = String::new(alloc);
    for (times, pieces) in rows {
        for time in 0..*times as u64 {
            for piece in *pieces {
                match *piece {
                    Text(part) => text.push_str(part)?,
                    Number(m, a) => write!(text, "{}", m.wrapping_mul(time).wrapping_add(a))?,
                    Hex(m, a) => write!(text, "{:#x}", m.wrapping_mul(time).wrapping_add(a))?,
                    Byte(m, a) => {
                        write!(text, "{:02x}", m.wrapping_mul(time).wrapping_add(a) % 251)?;
                    }
                    Long(a) => write!(text, "{:032x}", time.wrapping_add(a))?,
                }
            }
        }
    }
    Ok(text)
}

/// Fails if a script has other replies than the text that belongs to it.
pub fn expect_long(alloc: Global, scripts: &[(Rows, Rows)]) -> Result<(), Fail> {
    for (case, (script, wanted)) in scripts.iter().enumerate() {
        let script = text_of(alloc, script)?;
        let wanted = text_of(alloc, wanted)?;
        if told(alloc, script.as_bytes())? != wanted {
            return Err(Fail::new(format_args!("script {case} has other replies")));
        }
    }
    Ok(())
}

// A thousand blocks of a byte each lie one after the other, in two layouts. I/O address 1000 leads to the last of
// them, the next to the one before, and so on. Accesses and transfers reach all of them. At last every fourth mapping
// is taken out, and the one after it is for reads alone.
const THOUSAND: (Rows, Rows) = (
    &[
        (1000, &[Text("block 1 1\n")]),
        (
            1000,
            &[
                Text("region "),
                Number(1, 0),
                Text(" "),
                Number(1, 0),
                Text("\n"),
            ],
        ),
        (1, &[Text("space 2000 1\ntable\ntranslator 0\nlayout")]),
        (1000, &[Text(" "), Number(1, 0)]),
        (
            1,
            &[Text("\nremove 0 999 1\ninsert 1 999\nplain 0\nmemory 2 0 0 on\nreplace 1 0\n")],
        ),
        (
            1000,
            &[
                Text("set 0 "),
                Number(1, 1000),
                Text(" "),
                Number(DOWN, 999),
                Text(" 1 rw\n"),
            ],
        ),
        (1, &[Text("write 0 0 ")]),
        (1000, &[Byte(1, 0)]),
        (
            1,
            &[Text("\nread 0 0 1000\nread 1 1000 1000\nreadx 2 1000 1000\nwrite 1 1000 ")],
        ),
        (1000, &[Byte(1, 0)]),
        (1, &[Text("\nreadx 0 0 1000\nwritex 2 1000 ")]),
        (1000, &[Byte(1, 0)]),
        (1, &[Text("\ndirty space 0\nfrom 1 1000 1000 g:")]),
        (1000, &[Byte(1, 0)]),
        (1, &[Text("\nto 1 1000 1000 -\nfromx 2 1000 1000 g:")]),
        (1000, &[Byte(1, 0)]),
        (
            1,
            &[Text("\ntox 2 1000 1000 -\nto 0 0 1000 -\ncheck 1 1000 1000 rw\nload 2 1 1999\n")],
        ),
        (
            1,
            &[Text("store 2 1 1999 5\nload 0 1 0\nharvest space 0\nlookup 0 1000 1000 rw\n")],
        ),
        (
            250,
            &[
                Text("invalidate 0 "),
                Number(4, 1000),
                Text(" 1\nset 0 "),
                Number(4, 1001),
                Text(" 0 1 r\n"),
            ],
        ),
        (1, &[Text("lookup 0 1000 1000 w\nread 1 1000 1000\n")]),
    ],
    &[
        (1000, &[Text("block "), Number(1, 0), Text("\n")]),
        (1000, &[Text("region "), Number(1, 0), Text("\n")]),
        (
            1,
            &[Text("space 0\ntable 0\ntranslator 0\nlayout 0\nlayout 1\nlayout 2\nmemory 0\n")],
        ),
        (1, &[Text("memory 1\nmemory 2\n")]),
        (1000, &[Text("ok\n")]),
        (1, &[Text("count 1000\nbytes ")]),
        (1000, &[Byte(1, 0)]),
        (1, &[Text("\nbytes ")]),
        (1000, &[Byte(DOWN, 999)]),
        (1, &[Text("\nbytes ")]),
        (1000, &[Byte(DOWN, 999)]),
        (1, &[Text("\ncount 1000\nbytes ")]),
        (1000, &[Byte(DOWN, 999)]),
        (1, &[Text("\nok\npages")]),
        (1000, &[Text(" "), Number(1, 1000)]),
        (1, &[Text("\ncount 1000\nsent count 1000 taken ")]),
        (1000, &[Byte(1, 0)]),
        (1, &[Text("\nok\nsent ok taken ")]),
        (1000, &[Byte(1, 0)]),
        (1, &[Text("\nsent count 1000 taken ")]),
        (1000, &[Byte(DOWN, 999)]),
        (1, &[Text("\ntrue\nvalue 246\nok\nvalue 5\npages")]),
        (1000, &[Text(" "), Number(1, 1000)]),
        (1, &[Text("\npieces")]),
        (1000, &[Text(" "), Hex(DOWN, 999), Text("+0x1")]),
        (1, &[Text("\n")]),
        (500, &[Text("ok\n")]),
        (1, &[Text("fails misses")]),
        (250, &[Text(" "), Hex(4, 1000), Text("+0x1")]),
        (1, &[Text(" access")]),
        (250, &[Text(" "), Hex(4, 1001), Text("+0x1")]),
        (1, &[Text("\nerror G8 I1 0x3e8+0x3e8 missing\n")]),
    ],
);

// A block of 64 mebibytes and its bitmap of a million pages, of which the last two are dirty.
const LARGE_BLOCK: (Rows, Rows) = (
    &[
        (
            1,
            &[Text(
                "block 0x4000000 0x40\nregion 0 0\nlayout 0\nplain 0\nwrite 0 0x3ffffbf 0102\n",
            )],
        ),
        (
            1,
            &[Text("dirty block 0\nharvest block 0\nharvest block 0\nload 0 1 0x3ffffc0\n")],
        ),
    ],
    &[
        (
            1,
            &[Text("block 0\nregion 0\nlayout 0\nmemory 0\ncount 2\n")],
        ),
        (
            1,
            &[Text("pages 1048574 1048575\npages 1048574 1048575\npages -\nvalue 2\n")],
        ),
    ],
);

// Many spaces, tables, translators, layouts and memories.
const MANY_OF_EACH: (Rows, Rows) = (
    &[
        (1, &[Text("block 1 1\nregion 0 0\n")]),
        (1100, &[Text("space 1 1\n")]),
        (1100, &[Text("table\n")]),
        (1100, &[Text("translator "), Number(1, 0), Text("\n")]),
        (1100, &[Text("layout 0\n")]),
        (1100, &[Text("plain "), Number(1, 0), Text("\n")]),
        (1, &[Text("read 1099 0 1\n")]),
    ],
    &[
        (1, &[Text("block 0\nregion 0\n")]),
        (1100, &[Text("space "), Number(1, 0), Text("\n")]),
        (1100, &[Text("table "), Number(1, 0), Text("\n")]),
        (1100, &[Text("translator "), Number(1, 0), Text("\n")]),
        (1100, &[Text("layout "), Number(1, 0), Text("\n")]),
        (1100, &[Text("memory "), Number(1, 0), Text("\n")]),
        (1, &[Text("bytes 00\n")]),
    ],
);

// Fifteen hundred regions in one layout, of which one is taken out and put in again.
const MANY_REGIONS: (Rows, Rows) = (
    &[
        (1, &[Text("block 1 1\n")]),
        (1500, &[Text("region 0 "), Number(1, 0), Text("\n")]),
        (1, &[Text("layout 0\n")]),
        (
            1499,
            &[
                Text("insert "),
                Number(1, 0),
                Text(" "),
                Number(1, 1),
                Text("\n"),
            ],
        ),
        (
            1,
            &[Text("remove 1499 700 1\ninsert 1500 700\nplain 1501\n")],
        ),
    ],
    &[
        (1, &[Text("block 0\n")]),
        (1500, &[Text("region "), Number(1, 0), Text("\n")]),
        (1502, &[Text("layout "), Number(1, 0), Text("\n")]),
        (1, &[Text("memory 0\n")]),
    ],
);

// Twenty thousand mappings, of which every second address is one, and all are taken out again.
const MANY_MAPPINGS: (Rows, Rows) = (
    &[
        (1, &[Text("table\n")]),
        (20000, &[Text("set 0 "), Number(2, 0), Text(" 0 1 r\n")]),
        (1, &[Text("lookup 0 39998 1 r\n")]),
        (20000, &[Text("invalidate 0 "), Number(2, 0), Text(" 1\n")]),
        (1, &[Text("lookup 0 0 40000 r\nclear 0\n")]),
    ],
    &[
        (1, &[Text("table 0\n")]),
        (20000, &[Text("ok\n")]),
        (1, &[Text("pieces 0x0+0x1\n")]),
        (20000, &[Text("ok\n")]),
        (1, &[Text("fails misses 0x0+0x9c40 access -\nok\n")]),
    ],
);

// Two tables: one of every second address, and one of neighbours that lead to every second address.
const MANY_RANGES: (Rows, Rows) = (
    &[
        (2, &[Text("table\n")]),
        (
            2500,
            &[
                Text("set 0 "),
                Number(2, 0),
                Text(" "),
                Number(1, 0),
                Text(" 1 r\n"),
            ],
        ),
        (
            2500,
            &[
                Text("set 1 "),
                Number(1, 0),
                Text(" "),
                Number(2, 0),
                Text(" 1 r\n"),
            ],
        ),
        (1, &[Text("lookup 0 0 5000 w\nlookup 1 0 2500 r\n")]),
    ],
    &[
        (2, &[Text("table "), Number(1, 0), Text("\n")]),
        (5000, &[Text("ok\n")]),
        (1, &[Text("fails misses")]),
        (2500, &[Text(" "), Hex(2, 1), Text("+0x1")]),
        (1, &[Text(" access")]),
        (2500, &[Text(" "), Hex(2, 0), Text("+0x1")]),
        (1, &[Text("\npieces")]),
        (2500, &[Text(" "), Hex(2, 0), Text("+0x1")]),
        (1, &[Text("\n")]),
    ],
);

#[test]
fn scripts_have_room_for_many_ranges(rt: HostRuntime) -> Result<(), Fail> {
    expect_long(
        rt.alloc(),
        &[LARGE_BLOCK, MANY_MAPPINGS, MANY_RANGES, GREAT_LIMITS],
    )
}

// A block of a mebibyte is written whole and read whole: each 16 bytes are a number, from 0 on.
const MEBIBYTE: (Rows, Rows) = (
    &[
        (
            1,
            &[Text("block 0x100000 0x1000\nregion 0 0\nlayout 0\nplain 0\nwrite 0 0 ")],
        ),
        (0x1_0000, &[Long(0)]),
        (1, &[Text("\nread 0 0 0x100000\n")]),
    ],
    &[
        (
            1,
            &[Text("block 0\nregion 0\nlayout 0\nmemory 0\ncount 1048576\nbytes ")],
        ),
        (0x1_0000, &[Long(0)]),
        (1, &[Text("\n")]),
    ],
);

// A block of a mebibyte lies at two addresses, one after the other. After a write of all its bytes one writes the last
// byte of the block and then its first.
const MEBIBYTE_TWICE: (Rows, Rows) = (
    &[
        (
            1,
            &[Text("block 0x100000 1\nregion 0 0x1000\nregion 0 0x101000\nlayout 0 1\nplain 0\n")],
        ),
        (1, &[Text("write 0 0x1000 ")]),
        (0x1_0000, &[Long(0)]),
        (
            1,
            &[Text("\nwrite 0 0x100fff feff\nread 0 0x1000 0x200000\n")],
        ),
    ],
    &[
        (
            1,
            &[Text("block 0\nregion 0\nregion 1\nlayout 0\nmemory 0\ncount 1048576\ncount 2\n")],
        ),
        (1, &[Text("bytes ff000000000000000000000000000000")]),
        (0xfffe, &[Long(1)]),
        (1, &[Text("0000000000000000000000000000fffe")]),
        (1, &[Text("ff000000000000000000000000000000")]),
        (0xfffe, &[Long(1)]),
        (1, &[Text("0000000000000000000000000000fffe\n")]),
    ],
);

// A mebibyte comes from a source that gives it in two halves and is interrupted after each, and goes to a sink.
const MEBIBYTE_MOVED: (Rows, Rows) = (
    &[
        (
            1,
            &[Text(
                "block 0x100000 1\nregion 0 0x1000\nlayout 0\nplain 0\nfromx 0 0x1000 0x100000 g:",
            )],
        ),
        (0x8000, &[Long(0)]),
        (1, &[Text(",i:eeeeee,g:")]),
        (0x8000, &[Long(0x8000)]),
        (
            1,
            &[Text(",i:eeeeee\nto 0 0x1000 0x100000 t:0x7ffff,i\ntox 0 0x1000 0x100000 -\n")],
        ),
        (1, &[Text("from 0 0x1000 0x100000 g:")]),
        (0x8000, &[Long(1)]),
        (1, &[Text(",g:eeee\nread 0 0x80ff0 0x20\n")]),
    ],
    &[
        (
            1,
            &[Text("block 0\nregion 0\nlayout 0\nmemory 0\nok\nsent count 1048576 taken ")],
        ),
        (0x1_0000, &[Long(0)]),
        (1, &[Text("\nsent ok taken ")]),
        (0x1_0000, &[Long(0)]),
        (1, &[Text("\ncount 524288\nbytes ")]),
        (2, &[Text("00000000000000000000000000008000")]),
        (1, &[Text("\n")]),
    ],
);

#[test]
fn mebibytes_are_written_and_read(rt: HostRuntime) -> Result<(), Fail> {
    expect_long(rt.alloc(), &[MEBIBYTE, MEBIBYTE_TWICE])
}

#[test]
fn mebibytes_come_and_go(rt: HostRuntime) -> Result<(), Fail> {
    expect_long(rt.alloc(), &[MEBIBYTE_MOVED])
}

// Accesses and transfers of more than 65,535 bytes, some of which go through an IOMMU.
const LONG_REPLIES: (Rows, Rows) = (
    &[
        (
            1,
            &[Text(
                "block 0x20100 0x1000\nregion 0 0\nspace 0x20100 0x1000\ntable\ntranslator 0\n",
            )],
        ),
        (
            1,
            &[Text("layout 0\nplain 0\nmemory 0 0 0 on\nset 0 0 0 0x20100 rw\nwrite 1 0 ")],
        ),
        (0x2_0100, &[Byte(1, 0)]),
        (
            1,
            &[Text(
                "\nread 1 0 0x20100\ntox 0 0 0x20100 -\ncheck 1 0 0x20100 rw\nfromx 1 0 0x20100 g:",
            )],
        ),
        (0x2_0100, &[Byte(1, 7)]),
        (1, &[Text("\nreadx 0 0 0x20100\n")]),
    ],
    &[
        (
            1,
            &[Text(
                "block 0\nregion 0\nspace 0\ntable 0\ntranslator 0\nlayout 0\nmemory 0\nmemory 1\n",
            )],
        ),
        (1, &[Text("ok\ncount 131328\nbytes ")]),
        (0x2_0100, &[Byte(1, 0)]),
        (1, &[Text("\nsent ok taken ")]),
        (0x2_0100, &[Byte(1, 0)]),
        (1, &[Text("\ntrue\nok\nbytes ")]),
        (0x2_0100, &[Byte(1, 7)]),
        (1, &[Text("\n")]),
    ],
);

// A list of more than 65,535 words, whose last word alone names nothing, and transfers of as many steps.
const LONG_LISTS: (Rows, Rows) = (
    &[
        (
            1,
            &[Text("block 70000 1\nregion 0 0\nlayout 0\nplain 0\nlayout")],
        ),
        (70_000, &[Text(" 0")]),
        (1, &[Text(" 1\nlayout")]),
        (70_000, &[Text(" 0")]),
        (1, &[Text("\nfromx 0 0 70000 g:00")]),
        (69_999, &[Text(",g:"), Byte(1, 1)]),
        (1, &[Text("\nto 0 0 70000 t:1")]),
        (69_999, &[Text(",t:1")]),
        (1, &[Text(",t:0\n")]),
    ],
    &[
        (
            1,
            &[Text("block 0\nregion 0\nlayout 0\nmemory 0\nerror NoSuch\nerror C2\nok\n")],
        ),
        (1, &[Text("sent count 70000 taken ")]),
        (70_000, &[Byte(1, 0)]),
        (1, &[Text("\n")]),
    ],
);

// A table of up to 5,000 ranges forgets the first of 5,001, and one of up to 2^64 - 1 none of two.
const GREAT_LIMITS: (Rows, Rows) = (
    &[
        (1, &[Text("table 5000\ntable 0xffffffffffffffff\n")]),
        (5001, &[Text("set 0 "), Number(2, 0), Text(" 0 1 r\n")]),
        (
            1,
            &[Text("lookup 0 0 1 r\nlookup 0 2 1 r\nlookup 0 10000 1 r\n")],
        ),
        (
            1,
            &[Text("set 1 0 0 1 r\nset 1 2 0 1 r\nlookup 1 0 1 r\nlookup 1 2 1 r\n")],
        ),
    ],
    &[
        (1, &[Text("table 0\ntable 1\n")]),
        (5001, &[Text("ok\n")]),
        (
            1,
            &[Text("fails misses 0x0+0x1 access -\npieces 0x0+0x1\npieces 0x0+0x1\n")],
        ),
        (1, &[Text("ok\nok\npieces 0x0+0x1\npieces 0x0+0x1\n")]),
    ],
);

// A comment of a hundred thousand letters, and steps that scribble or fail with as many bytes.
const LONG_COMMENT_AND_STEPS: (Rows, Rows) = (
    &[
        (1, &[Text("#")]),
        (100_000, &[Text("x")]),
        (
            1,
            &[Text("\nblock 8 1\nregion 0 0\nlayout 0\nplain 0\nfrom 0 0 4 i:")],
        ),
        (100_000, &[Text("09")]),
        (
            1,
            &[Text(",g:01\nread 0 0 8\nharvest block 0\nfromx 0 4 4 f:")],
        ),
        (100_000, &[Text("0a")]),
        (1, &[Text("\nread 0 0 8\nharvest block 0\n")]),
    ],
    &[
        (
            1,
            &[Text(
                "block 0\nregion 0\nlayout 0\nmemory 0\ncount 1\nbytes 0109090900000000\npages 0 1 2 3\n",
            )],
        ),
        (
            1,
            &[Text("error G2 Other\nbytes 010909090a0a0a0a\npages 4 5 6 7\n")],
        ),
    ],
);

// A bad line after many that are none.
const LATE_LINE: (Rows, Rows) = (
    &[
        (70_000, &[Text("# "), Number(1, 0), Text("\n")]),
        (1, &[Text("block 1 1\nblock\nblock 1 1\n")]),
    ],
    &[(1, &[Text("block 0\n1 line 70002: bad line")])],
);

#[test]
fn scripts_have_room_for_many_regions_and_long_lines(rt: HostRuntime) -> Result<(), Fail> {
    let scripts = [
        THOUSAND,
        MANY_OF_EACH,
        MANY_REGIONS,
        LONG_REPLIES,
        LONG_LISTS,
        LONG_COMMENT_AND_STEPS,
        LATE_LINE,
    ];
    expect_long(rt.alloc(), &scripts)
}
