//! Files and the standard output as sources and sinks.

use crate::told::{expect_passed, fills, reads, tell, writes};
use std::fmt::Write as _;
use std::fs::{self, File};
use std::io::{Seek, SeekFrom, Write};
use std::test::Fail;
use test_text::expect_text;
use vm_memory_base::{IoError, ReadVolatile, VolatileMemoryError, WriteVolatile};

// Of files that took bytes at one try, and what their handles read of them.
const THROUGH_A_FILE: &str = "\
Ok(2) [1, 2]
Ok(2) [1, 2, 0, 0, 0]
Ok(2) [1, 2, 0, 0, 0]
Ok(2) [1, 2, 0, 0, 0]
touched 2 UnexpectedEof [1, 2, 0, 0, 0]
Ok(4) [1, 2, 3, 4]
Ok(4) [1, 2, 3, 4, 0]
Ok(4) [1, 2, 3, 4, 0]
Ok(4) [1, 2, 3, 4, 0]
whole [1, 2, 3, 4, 0]
Ok(5) [5, 6, 7, 8, 9]
Ok(4) [5, 6, 7, 8, 0]
Ok(4) [5, 6, 7, 8, 0]
Ok(4) [5, 6, 7, 8, 0]
whole [5, 6, 7, 8, 0]
";

#[test]
fn files_tell_how_much_they_moved(rt: HostRuntime) -> Result<(), Fail> {
    let path = "base-vectors-test";
    let mut out = String::new(rt.alloc());
    let cases: [&[u8]; 3] = [&[1, 2], &[1, 2, 3, 4], &[5, 6, 7, 8, 9]];
    for bytes in cases {
        let mut file = File::create(&rt, path)?;
        tell(&file.write_volatile(bytes), &mut out)?;
        let back = fs::read(&rt, path)?;
        writeln!(out, " {:?}", back.as_slice())?;
        let mut file = File::open(&rt, path)?;
        fs::remove_file(&rt, path)?;
        reads(&mut file, &mut out)?;
        file.rewind()?;
        reads(&mut &file, &mut out)?;
        file.rewind()?;
        reads(&mut &mut file, &mut out)?;
        file.rewind()?;
        fills(&mut file, &mut out)?;
    }
    expect_text(0, out.as_str(), THROUGH_A_FILE)
}

// Of a file that was opened to be written as a source, and of one that was opened to be read as a sink.
const THE_OTHER_WAY: &str = "\
Uncategorized [0, 0, 0, 0, 0]
Uncategorized [0, 0, 0, 0, 0]
Uncategorized [0, 0, 0, 0, 0]
touched 4 Uncategorized [0, 0, 0, 0, 0]
Uncategorized Uncategorized
Uncategorized Uncategorized
Uncategorized Uncategorized
";

const NOT_OPENED_SO: &str = "\
Bad file descriptor (os error 9)
Bad file descriptor (os error 9)
";

#[test]
fn files_are_read_or_written(rt: HostRuntime) -> Result<(), Fail> {
    let mut out = String::new(rt.alloc());
    let path = "base-vectors-direction-test";
    let mut sink = File::create(&rt, path)?;
    let mut source = File::open(&rt, path)?;
    fs::remove_file(&rt, path)?;
    reads(&mut sink, &mut out)?;
    reads(&mut &sink, &mut out)?;
    reads(&mut &mut sink, &mut out)?;
    fills(&mut sink, &mut out)?;
    writes(&mut source, &mut out)?;
    writes(&mut &source, &mut out)?;
    writes(&mut &mut source, &mut out)?;
    expect_text(0, out.as_str(), THE_OTHER_WAY)?;
    expect_passed(0, &mut sink, &mut source)?;
    expect_passed(1, &mut &sink, &mut &source)?;
    expect_passed(2, &mut &mut sink, &mut &mut source)?;
    let mut lent = [0u8; 2];
    let ended = source.read_exact_volatile(&mut lent);
    let text = format!(in rt.alloc(); "{ended:?} {lent:?}")?;
    let wanted = "Err(ReadExactFault { touched: 0, error: IOError(Kind(UnexpectedEof)) }) [0, 0]";
    expect_text(3, text.as_str(), wanted)?;
    // The error keeps the text of the system.
    let mut text = String::new(rt.alloc());
    for answer in [source.write_volatile(&lent), sink.read_volatile(&mut lent)] {
        if let Err(error) = answer {
            writeln!(text, "{error}")?;
        }
    }
    expect_text(4, text.as_str(), NOT_OPENED_SO)
}

// What a file tells of four bytes where it has room for two, by a handle or by the call of the system, and how long it
// is then. Some systems refuse all four. The greatest position is sought first, bit by bit, of which there are many.
fn cut(case: usize, file: &mut File, out: &mut String) -> Result<(), Fail> {
    let mut last = 0u64;
    let mut step = 0x4000_0000_0000_0000u64;
    for _ in 0..63 {
        if file.seek(SeekFrom::Start(last | step)).is_ok() {
            last |= step;
        }
        step /= 2;
    }
    if last < 0x7fff_ffff {
        return Err(Fail::new(format_args!("{last} is the last position")));
    }
    let start = last.saturating_sub(2);
    file.set_len(0)?;
    file.seek(SeekFrom::Start(start))?;
    let bytes = [1u8, 2, 3, 4];
    let answer = match case {
        0 => file.write_volatile(&bytes),
        1 => (&*file).write_volatile(&bytes),
        2 => (&mut &mut *file).write_volatile(&bytes),
        _ => match file.write(&bytes) {
            Ok(count) => Ok(count),
            Err(error) => Err(VolatileMemoryError::IOError(IoError::from(error))),
        },
    };
    let len = file.metadata()?.len();
    if let Ok(count) = &answer
        && len.saturating_sub(start) != *count as u64
    {
        return Err(Fail::new(format_args!("case {case}: {count}, and {len} bytes")));
    }
    tell(&answer, out)?;
    write!(out, " {len}")?;
    Ok(())
}

#[test]
fn full_files_tell_what_they_took(rt: HostRuntime) -> Result<(), Fail> {
    let path = "base-vectors-full-test";
    let mut file = File::create(&rt, path)?;
    fs::remove_file(&rt, path)?;
    let mut wanted = String::new(rt.alloc());
    cut(3, &mut file, &mut wanted)?;
    for case in 0..3usize {
        let mut told = String::new(rt.alloc());
        cut(case, &mut file, &mut told)?;
        expect_text(case, told.as_str(), wanted.as_str())?;
    }
    Ok(())
}

// How many bytes the process wrote so far, as the system tells it.
fn written_so_far(rt: &HostRuntime) -> Result<u64, Fail> {
    let text = fs::read_to_string(rt, "/proc/self/io")?;
    let line = text.lines().find(|line| line.starts_with("wchar: "));
    let number = line.and_then(|line| line.strip_prefix("wchar: "));
    Ok(number.ok_or("there is no number of bytes")?.parse()?)
}

#[test]
fn the_standard_output_takes_lines(rt: HostRuntime) -> Result<(), Fail> {
    let before = written_so_far(&rt)?;
    let mut out = String::new(rt.alloc());
    let mut sink = rt.stdout();
    tell(&sink.write_volatile(b"one\n"), &mut out)?;
    tell(&(&sink).write_volatile(b"two\n"), &mut out)?;
    tell(&sink.write_all_volatile(b"three\n"), &mut out)?;
    expect_text(0, out.as_str(), "Ok(4)Ok(4)Ok(())")?;
    let after = written_so_far(&rt)?;
    assert!(rt; after.checked_sub(before) == Some(14));
    Ok(())
}
