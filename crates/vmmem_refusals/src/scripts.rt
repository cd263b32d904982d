//! Scripts that find no memory: from their beginning on, and at each of their lines.

use crate::calls::Refusals;
use crate::famine::{Famine, MOST, STEP};
use std::alloc::{AllocError, Global};
use std::io;
use std::io::{ErrorKind, Write};
use std::test::Fail;
use vm_memory::{DriveFault, drive};

// Room for the replies of a script.
const ROOM: usize = 0x4_0000;

// The reply for want of memory.
const REFUSAL: &str = "error Memory\n";

// What is replied to a line that fills up, and how many of these lines fill the buffer of replies, so that it is
// written.
const NO_SUCH: &str = "error NoSuch\n";

const FILLERS: usize = 0x280;

// How many steps go by little, and by how many bytes the others go: these begin at four times as many.
const FINE: usize = 0x20;

const COARSE: usize = 0x100;

// Keeps what is written. All memory is taken at the first write, but for so many bytes, and given back at the second.
#[derive(Drop)]
struct Gate<'a> {
    famine: &'a mut Famine,
    left: usize,
    writes: usize,
    told: &'a mut Vec<u8>,
}

impl Write for Gate<'_> {
    fn write(&mut self, buf: &[u8]) -> io::Result<usize> {
        if self.writes == 1 {
            self.famine.end();
        }
        self.told.extend_from_slice(buf)?;
        if self.writes == 0 && self.famine.begin(self.left).is_err() {
            return Err(io::Error::from(ErrorKind::Other));
        }
        self.writes = self.writes.saturating_add(1);
        Ok(buf.len())
    }

    fn flush(&mut self) -> io::Result<()> {
        Ok(())
    }
}

// The replies of a script, and the status that it ends with.
fn replies_of(alloc: Global, script: &str, replies: &mut Vec<u8>) -> u8 {
    let mut input = script.as_bytes();
    replies.clear();
    status_of(&drive(alloc, &mut input, replies))
}

fn status_of(ending: &Result<(), DriveFault>) -> u8 {
    match ending {
        Ok(()) => 0,
        Err(fault) => fault.status(),
    }
}

// The replies of a script, if it runs to its end.
fn told_by(alloc: Global, script: &str) -> Result<Option<String>, Fail> {
    let mut replies = Vec::with_capacity(alloc, ROOM)?;
    if replies_of(alloc, script, &mut replies) != 0 {
        return Ok(None);
    }
    Ok(Some(String::from_utf8(replies)?))
}

// Whether a line has a reply.
fn is_replied(line: &str) -> bool {
    !line.is_empty() && !line.starts_with('#')
}

// How many lines begin so.
fn count_of(lines: &str, beginning: &str) -> usize {
    let mut count = 0usize;
    for line in lines.lines() {
        if line.starts_with(beginning) {
            count = count.saturating_add(1);
        }
    }
    count
}

// A line that is replied that a number names nothing, before or after a line of the same kind. It takes no memory.
fn filler_of(line: &str) -> &'static str {
    match line.split(' ').next() {
        Some("block" | "space" | "table" | "region" | "translator") => "region 99 0\n",
        _ => "plain 99\n",
    }
}

// Makes a layout of each region alone, and a memory of each layout.
fn push_layouts(looks: &mut String, replies: &str) -> Result<(), AllocError> {
    let regions = count_of(replies, "region ");
    for number in 0..regions {
        writeln!(looks, "layout {number}")?;
    }
    for number in 0..count_of(replies, "layout ").saturating_add(regions) {
        writeln!(looks, "plain {number}")?;
    }
    Ok(())
}

// Reads a memory where a line placed a region or set a mapping.
fn push_read(
    looks: &mut String,
    line: &str,
    memory: usize,
    count: usize,
) -> Result<(), AllocError> {
    let mut words = line.split(' ');
    match (words.next(), words.next(), words.next()) {
        (Some("region"), _, Some(addr)) => writeln!(looks, "read {memory} {addr} {count}"),
        (Some("set"), _, Some(addr)) => writeln!(looks, "read {memory} {addr} 2"),
        _ => Ok(()),
    }
}

// Reads all memories, and those of one region alone as a whole.
fn push_reads(looks: &mut String, before: &str, replies: &str) -> Result<(), AllocError> {
    let made = count_of(replies, "memory ").saturating_add(count_of(replies, "layout "));
    let regions = count_of(replies, "region ");
    for line in before.lines() {
        for memory in 0..made {
            push_read(looks, line, memory, 0x10)?;
        }
        for region in 0..regions {
            push_read(looks, line, made.saturating_add(region), 0x2100)?;
        }
    }
    Ok(())
}

// Looks up what a line set.
fn push_mapping(looks: &mut String, line: &str) -> Result<(), AllocError> {
    let mut words = line.split(' ');
    if words.next() != Some("set") {
        return Ok(());
    }
    let (table, iova, _) = (words.next(), words.next(), words.next());
    match (table, iova, words.next()) {
        (Some(table), Some(iova), Some(length)) => {
            writeln!(looks, "lookup {table} {iova} {length} no")?;
            writeln!(looks, "lookup {table} {iova} 1 no")
        }
        _ => Ok(()),
    }
}

// Looks at all bitmaps, and up all tables.
fn push_host(looks: &mut String, before: &str, replies: &str) -> Result<(), AllocError> {
    for number in 0..count_of(replies, "block ") {
        writeln!(looks, "dirty block {number}")?;
    }
    for number in 0..count_of(replies, "space ") {
        writeln!(looks, "dirty space {number}")?;
    }
    for number in 0..count_of(replies, "table ") {
        for access in ["r", "w", "no"] {
            writeln!(looks, "lookup {number} 0 0xffffffffffffffff {access}")?;
        }
    }
    for line in before.lines() {
        push_mapping(looks, line)?;
    }
    Ok(())
}

// Lines that look at all that these lines made, whose replies are known.
fn looks_of(alloc: Global, before: &str, replies: &str) -> Result<String, AllocError> {
    let mut looks = String::new(alloc);
    push_layouts(&mut looks, replies)?;
    push_reads(&mut looks, before, replies)?;
    push_host(&mut looks, before, replies)?;
    Ok(looks)
}

// A script whose replies are written before a line runs, and again after it.
fn gated_script(
    alloc: Global,
    before: &str,
    line: &str,
    filler: &str,
    looks: &str,
) -> Result<String, AllocError> {
    let filler = filler.repeat(alloc, FILLERS)?;
    format!(in alloc; "{before}{filler}{line}\n{filler}{looks}")
}

// Runs a script, and takes all memory but so many bytes while one of its lines runs.
fn gated(famine: &mut Famine, alloc: Global, script: &str, left: usize, told: &mut Vec<u8>) -> u8 {
    told.clear();
    let mut input = script.as_bytes();
    let mut gate = Gate {
        famine,
        left,
        writes: 0,
        told,
    };
    let ending = drive(alloc, &mut input, &mut gate);
    gate.famine.end();
    status_of(&ending)
}

// Whether a script told what it tells without a line, and at this place want of memory.
fn is_refused(told: &str, without: &str, place: usize) -> bool {
    match (
        told.get(..place),
        told.get(place..),
        without.get(..place),
        without.get(place..),
    ) {
        (Some(before), Some(after), Some(without_before), Some(without_after)) => {
            before == without_before && after.strip_prefix(REFUSAL) == Some(without_after)
        }
        _ => false,
    }
}

// A line, a script that it stands in, what that tells without the line, and the place of its reply.
#[derive(Drop)]
struct Refused<'a> {
    line: &'a str,
    script: &'a str,
    without: &'a str,
    place: usize,
}

// How a line ended that was left so many bytes.
#[derive(Clone, Copy, PartialEq, Eq)]
enum Outcome {
    Done,
    // It replied want of memory.
    Refused,
    // It ended its script for want of memory.
    Ended,
}

// Runs a line with so many bytes left. `wanted` is what its script tells with ample memory.
fn try_line(
    famine: &mut Famine,
    alloc: Global,
    refused: &Refused<'_>,
    wanted: &[u8],
    left: usize,
    told: &mut Vec<u8>,
) -> Result<Outcome, Fail> {
    let status = gated(famine, alloc, refused.script, left, told);
    if status == 0 && told.as_slice() == wanted {
        return Ok(Outcome::Done);
    }
    let replies = str::from_utf8(told.as_slice())?;
    match status {
        0 if is_refused(replies, refused.without, refused.place) => Ok(Outcome::Refused),
        3 if Some(replies) == refused.without.get(..refused.place) => Ok(Outcome::Ended),
        _ => Err(wrong(
            refused.line,
            "it changed something, or answered something else",
        )),
    }
}

// How many bytes are left at a step: a little more each time, and more than a little where much is wanted.
fn left_at(step: usize) -> usize {
    if step < FINE {
        return STEP.saturating_mul(step);
    }
    COARSE.saturating_mul(step.saturating_sub(FINE).saturating_add(4))
}

// Refuses each request of a line. False where its script cannot run with it. Small requests after a large one are met
// by going back by a little once the line is done.
fn refuse_line(
    famine: &mut Famine,
    alloc: Global,
    refused: &Refused<'_>,
    refusals: &mut Refusals,
) -> Result<bool, Fail> {
    let mut wanted = Vec::with_capacity(alloc, ROOM)?;
    if replies_of(alloc, refused.script, &mut wanted) != 0 {
        return Ok(false);
    }
    let mut told = Vec::with_capacity(alloc, ROOM)?;
    let (mut is_told, mut has_ended) = (false, false);
    for step in 0..MOST / COARSE + FINE {
        let left = left_at(step);
        match try_line(famine, alloc, refused, wanted.as_slice(), left, &mut told)? {
            Outcome::Refused => is_told = true,
            Outcome::Ended => has_ended = true,
            Outcome::Done => {
                if step > FINE && go_back(famine, alloc, refused, wanted.as_slice(), left)? {
                    is_told = true;
                }
                refusals.count(is_told, has_ended);
                return Ok(true);
            }
        }
    }
    Err(wrong(refused.line, "it is refused where there is memory"))
}

// Runs a line with a little less than so many bytes left, and then with less each time. It tells whether the line
// replied want of memory.
fn go_back(
    famine: &mut Famine,
    alloc: Global,
    refused: &Refused<'_>,
    wanted: &[u8],
    left: usize,
) -> Result<bool, Fail> {
    let mut told = Vec::with_capacity(alloc, ROOM)?;
    let mut is_told = false;
    for step in 1..2 * COARSE / STEP {
        let less = left.saturating_sub(STEP * step);
        if try_line(famine, alloc, refused, wanted, less, &mut told)? == Outcome::Refused {
            is_told = true;
        }
    }
    Ok(is_told)
}

fn wrong(line: &str, what: &str) -> Fail {
    Fail::new(format_args!("the line {line:?}: {what}"))
}

// Refuses each request of a line after others. False where they cannot run so.
fn expect_line(
    famine: &mut Famine,
    alloc: Global,
    before: &str,
    line: &str,
    refusals: &mut Refusals,
) -> Result<bool, Fail> {
    let filler = filler_of(line);
    let replies = told_by(alloc, before)?.ok_or("the lines before it do not run")?;
    let looks = looks_of(alloc, before, replies.as_str())?;
    let script = gated_script(alloc, before, "", filler, looks.as_str())?;
    let Some(without) = told_by(alloc, script.as_str())? else {
        return Ok(false);
    };
    let script = gated_script(alloc, before, line, filler, looks.as_str())?;
    let refused = Refused {
        line,
        script: script.as_str(),
        without: without.as_str(),
        place: replies
            .len()
            .saturating_add(FILLERS.saturating_mul(NO_SUCH.len())),
    };
    refuse_line(famine, alloc, &refused, refusals)
}

/// Refuses memory to each line of a script, up to the one that ends it: from the first request of the line on, from its
/// second on, and so on. After each refusal all that the lines before made is to be as before. It tells how many lines
/// were tried.
pub fn expect_lines(
    famine: &mut Famine,
    alloc: Global,
    script: &str,
    refusals: &mut Refusals,
) -> Result<usize, Fail> {
    let mut before = String::new(alloc);
    let mut tried = 0usize;
    for line in script.lines() {
        if is_replied(line) {
            if !expect_line(famine, alloc, before.as_str(), line, refusals)? {
                return Ok(tried);
            }
            tried = tried.saturating_add(1);
        }
        writeln!(before, "{line}")?;
    }
    Ok(tried)
}

// The lines of a script that were not refused, and their replies.
#[derive(Drop)]
struct Rest {
    lines: String,
    replies: String,
}

// What is left of a script without the lines that were refused, and those that have no reply.
fn rest_of(alloc: Global, script: &str, told: &str) -> Result<Rest, AllocError> {
    let mut rest = Rest {
        lines: String::new(alloc),
        replies: String::new(alloc),
    };
    let mut replies = told.lines();
    for line in script.lines() {
        if !is_replied(line) {
            continue;
        }
        match replies.next() {
            Some("error Memory") | None => {}
            Some(reply) => {
                writeln!(rest.lines, "{line}")?;
                writeln!(rest.replies, "{reply}")?;
            }
        }
    }
    Ok(rest)
}

// Fails where the lines that were not refused reply something else by themselves.
fn expect_rest(alloc: Global, script: &str, told: &str) -> Result<(), Fail> {
    let rest = rest_of(alloc, script, told)?;
    match told_by(alloc, rest.lines.as_str())? {
        Some(told) if told.as_str() == rest.replies.as_str() => Ok(()),
        _ => Err(Fail::new("a line that was refused changed something")),
    }
}

/// Refuses memory to a script, from its first request on, from its second on, and so on. It is to go on to its end, or
/// to end because an allocation failed.
pub fn expect_script(famine: &mut Famine, alloc: Global, script: &str) -> Result<(), Fail> {
    let mut wanted = Vec::with_capacity(alloc, ROOM)?;
    let ending = replies_of(alloc, script, &mut wanted);
    let count = count_of(str::from_utf8(wanted.as_slice())?, "");
    let mut told = Vec::with_capacity(alloc, ROOM)?;
    for step in 0..MOST / STEP {
        famine.begin(STEP * step)?;
        let status = replies_of(alloc, script, &mut told);
        famine.end();
        let replies = str::from_utf8(told.as_slice())?;
        if status != 3 && (status != ending || count_of(replies, "") != count) {
            return Err(Fail::new("a script ended in another way"));
        }
        expect_rest(alloc, script, replies)?;
        if status == ending && told.as_slice() == wanted.as_slice() {
            return if step == 0 {
                Err(Fail::new("a script was not refused"))
            } else {
                Ok(())
            };
        }
    }
    Err(Fail::new("a script was refused although there was memory"))
}
