//! Bytes in memory and scripts as sources and sinks.

use crate::told::{fills, reads, writes};
use std::alloc::Global;
use std::fmt::Write;
use std::io::Cursor;
use std::test::Fail;
use test_text::expect_text;
use vm_memory_base::{
    ByteList, ReadVolatile, ScriptSink, ScriptSource, SinkStep, SourceStep, WriteVolatile,
};

// What a source does at a try.
#[derive(Clone, Copy)]
enum Did {
    Give(&'static [u8]),
    Interrupted(&'static [u8]),
    Fail(&'static [u8]),
}

// Each source is asked by one try, and then for all that is wanted.
const READ_SCRIPTS: [&[Did]; 3] = [
    &[Did::Give(&[1, 2]), Did::Give(&[3, 4, 5])],
    &[
        Did::Interrupted(&[9]),
        Did::Give(&[1]),
        Did::Interrupted(&[9]),
    ],
    &[Did::Give(&[1]), Did::Give(&[2]), Did::Fail(&[8, 7])],
];

const READS: &str = "\
Ok(2) [1, 2, 0, 0, 0]
touched 0 UnexpectedEof [0, 0, 0, 0, 0]
Ok(4) [1, 2, 3, 4, 0]
whole [5, 6, 7, 8, 0]
Ok(3) [3, 4, 5, 0, 0]
touched 0 UnexpectedEof [0, 0, 0, 0, 0]
Ok(0) [0, 0, 0, 0, 0]
touched 0 UnexpectedEof [0, 0, 0, 0, 0]
Ok(2) [1, 2, 0, 0, 0]
touched 3 UnexpectedEof [3, 4, 5, 0, 0]
Interrupted [9, 0, 0, 0, 0]
touched 4 UnexpectedEof [1, 9, 0, 0, 0]
Ok(1) [1, 0, 0, 0, 0]
touched 4 Other [2, 8, 7, 0, 0]
";

#[test]
fn sources_give_what_they_have(rt: HostRuntime) -> Result<(), Fail> {
    let alloc = rt.alloc();
    let mut out = String::new(alloc);
    for count in [2usize, 11] {
        let bytes = [1u8, 2, 3, 4, 5, 6, 7, 8, 9, 10, 11];
        let mut source = &bytes[..count];
        reads(&mut source, &mut out)?;
        fills(&mut source, &mut out)?;
    }
    for position in [2, 9] {
        let mut cursor = Cursor::new(&[1u8, 2, 3, 4, 5][..]);
        cursor.set_position(position);
        reads(&mut cursor, &mut out)?;
        fills(&mut cursor, &mut out)?;
    }
    for script in READ_SCRIPTS {
        let mut steps = Vec::new(alloc);
        for did in script {
            let (Did::Give(bytes) | Did::Interrupted(bytes) | Did::Fail(bytes)) = did;
            let bytes = ByteList::from_vec(bytes.to_vec(alloc)?);
            steps.push(match did {
                Did::Give(_) => SourceStep::Give(bytes),
                Did::Interrupted(_) => SourceStep::Interrupted(bytes),
                Did::Fail(_) => SourceStep::Fail(bytes),
            })?;
        }
        let mut source = ScriptSource::new(steps.as_slice());
        reads(&mut source, &mut out)?;
        fills(&mut source, &mut out)?;
    }
    expect_text(0, out.as_str(), READS)
}

// Seven bytes after a cursor as a source: two tries, all that is wanted twice, and both past their end.
fn reads_on<T>(cursor: &mut Cursor<T>, out: &mut String) -> Result<(), Fail>
where
    Cursor<T>: ReadVolatile,
{
    reads(cursor, out)?;
    reads(cursor, out)?;
    writeln!(out, "at {}", cursor.position())?;
    cursor.set_position(0);
    fills(cursor, out)?;
    fills(cursor, out)?;
    writeln!(out, "at {}", cursor.position())?;
    cursor.set_position(u64::MAX);
    reads(cursor, out)?;
    fills(cursor, out)?;
    writeln!(out, "at {}", cursor.position())?;
    Ok(())
}

const AFTER_A_CURSOR: &str = "\
Ok(4) [1, 2, 3, 4, 0]
Ok(3) [5, 6, 7, 0, 0]
at 7
whole [1, 2, 3, 4, 0]
touched 0 UnexpectedEof [0, 0, 0, 0, 0]
at 4
Ok(0) [0, 0, 0, 0, 0]
touched 0 UnexpectedEof [0, 0, 0, 0, 0]
at 18446744073709551615
";

#[test]
fn cursors_give_the_bytes_behind_them(rt: HostRuntime) -> Result<(), Fail> {
    let mut bytes = [1u8, 2, 3, 4, 5, 6, 7];
    let mut out = String::new(rt.alloc());
    reads_on(&mut Cursor::new(&bytes[..]), &mut out)?;
    expect_text(0, out.as_str(), AFTER_A_CURSOR)?;
    let mut out = String::new(rt.alloc());
    reads_on(&mut Cursor::new(&mut bytes[..]), &mut out)?;
    expect_text(1, out.as_str(), AFTER_A_CURSOR)?;
    assert!(rt; bytes == [1, 2, 3, 4, 5, 6, 7]);
    Ok(())
}

// What sinks do at their tries, and how many bytes they have room for.
const SINK_SCRIPTS: [(&[SinkStep], usize); 3] = [
    (&[SinkStep::Take(3)], 10),
    (&[SinkStep::Take(3)], 6),
    (
        &[
            SinkStep::Interrupted,
            SinkStep::Take(1),
            SinkStep::Interrupted,
            SinkStep::Fail,
        ],
        10,
    ),
];

// Of cursors where they are then, of places how much is left of them, and of all what they took.
const WRITES: &str = "\
Ok(4) Ok(())
at 8 [1, 2, 3, 4, 1, 2, 3, 4, 9]
Ok(4) WriteZero
at 9 [9, 9, 1, 2, 3, 4, 1, 2, 3]
Ok(2) WriteZero
at 9 [9, 9, 9, 9, 9, 9, 9, 1, 2]
Ok(0) WriteZero
at 10 [9, 9, 9, 9, 9, 9, 9, 9, 9]
Ok(0) WriteZero
at 18446744073709551615 [9, 9, 9, 9, 9, 9, 9, 9, 9]
Ok(3) WriteZero
left []
[1, 2, 3, 9, 9, 9, 9, 9, 9, 9]
Ok(4) WriteZero
left []
[1, 2, 3, 4, 1, 2, 3, 9, 9, 9]
Ok(4) Ok(())
left [9]
[1, 2, 3, 4, 1, 2, 3, 4, 9, 9]
Ok(4) Ok(())
[1, 2, 3, 4, 1, 2, 3, 4]
Ok(3) Ok(())
[1, 2, 3, 1, 2, 3, 4]
[1, 2, 3, 1, 2, 3, 4]
Ok(3) WriteZero
[1, 2, 3, 1, 2, 3]
[1, 2, 3, 1, 2, 3]
Interrupted Other
[1]
[1]
";

#[test]
fn sinks_take_what_they_can(rt: HostRuntime) -> Result<(), Fail> {
    let alloc = rt.alloc();
    let mut out = String::new(alloc);
    for position in [0, 2, 7, 10, u64::MAX] {
        let mut place = [9u8; 9];
        let mut cursor = Cursor::new(&mut place[..]);
        cursor.set_position(position);
        writes(&mut cursor, &mut out)?;
        write!(out, "at {} ", cursor.position())?;
        writeln!(out, "{place:?}")?;
    }
    for room in [3usize, 7, 9] {
        let mut place = [9u8; 10];
        let mut sink = &mut place[..room];
        writes(&mut sink, &mut out)?;
        writeln!(out, "left {sink:?}")?;
        writeln!(out, "{place:?}")?;
    }
    let mut sink: Vec<u8> = Vec::new(alloc);
    writes(&mut sink, &mut out)?;
    writeln!(out, "{:?}", sink.as_slice())?;
    for (steps, room) in SINK_SCRIPTS {
        let mut sink = ScriptSink::new(alloc, steps, room)?;
        writes(&mut sink, &mut out)?;
        writeln!(out, "{:?}", sink.taken())?;
        writeln!(out, "{:?}", sink.into_taken().as_slice())?;
    }
    expect_text(0, out.as_str(), WRITES)
}

// Whether a place with room for so many bytes takes as many of the list by one try, and keeps what lies past them; and
// whether a vector takes all.
fn takes(alloc: Global, bytes: &[u8], room: usize) -> Result<bool, Fail> {
    let mut place = vec![in alloc; 255u8; room.saturating_add(2)]?;
    let room = room.min(place.len());
    let mut sink = &mut place[..room];
    let count = sink.write_volatile(bytes)?;
    let left = sink.len();
    let has_bytes = bytes
        .iter()
        .zip(place.iter())
        .take(count)
        .all(|(sent, taken)| sent == taken);
    let is_rest = place.iter().skip(count).all(|byte| *byte == 255);
    let mut vector: Vec<u8> = Vec::new(alloc);
    let is_whole = vector.write_volatile(bytes)? == bytes.len() && vector.as_slice() == bytes;
    Ok(
        is_whole
            && has_bytes
            && is_rest
            && count == room.min(bytes.len())
            && left == room.saturating_sub(count),
    )
}

// Places with room for one byte less than they are given, for all, and for one more.
#[test]
fn places_take_long_lists(rt: HostRuntime) -> Result<(), Fail> {
    for len in [0x40usize, 0x1001, 0x1_0001, 0x10_0001] {
        let bytes: Vec<u8> = (0..len).map(|k| (k % 251) as u8).collect(rt.alloc())?;
        for room in [len.saturating_sub(1), len, len.saturating_add(1)] {
            assert!(rt;
                takes(rt.alloc(), bytes.as_slice(), room)?,
                "{room} of {len} bytes"
            );
        }
    }
    Ok(())
}

// A sink has room for many bytes, of which it takes few.
#[test]
fn sinks_have_much_room(rt: HostRuntime) -> Result<(), Fail> {
    for room in [0x401_0000, 0x1001_0000, 0x4001_0000] {
        let mut sink = ScriptSink::new(rt.alloc(), &[SinkStep::Take(1)], room)?;
        sink.write_all_volatile(&[1, 2, 3])?;
        assert!(rt; sink.taken() == [1, 2, 3].as_slice());
    }
    Ok(())
}
