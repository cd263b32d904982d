//! Runs scripts, each on a machine of its own, and reports the first line at which the replies are not those expected.

use crate::compare::first_difference;
use crate::sections::{Section, lines_of};
use std::alloc::{AllocError, AllocFailed, Global};
use std::io::Write;
use thiserror::Error;
use vm_memory::{DriveFault, drive};

/// Why a replay did not come to its end.
#[derive(Debug, Drop, Error)]
pub enum ReplayFault {
    /// Its allocation failed.
    #[error("out of memory")]
    Memory,
    /// The output failed.
    #[error("write failed")]
    Write,
}

impl From<AllocError> for ReplayFault {
    fn from(_error: AllocError) -> ReplayFault {
        ReplayFault::Memory
    }
}

impl<T: Drop> From<AllocFailed<T>> for ReplayFault {
    fn from(_error: AllocFailed<T>) -> ReplayFault {
        ReplayFault::Memory
    }
}

/// The replies to a script, and the place of the bad line that ended it, if one did.
pub fn replies_to(alloc: Global, lines: &[&[u8]]) -> Result<(Vec<u8>, Option<usize>), ReplayFault> {
    let mut script = Vec::new(alloc);
    for line in lines {
        script.extend_from_slice(line)?;
        script.push(b'\n')?;
    }
    let mut replies = Vec::new(alloc);
    match drive(alloc, &mut script.as_slice(), &mut replies) {
        Ok(()) => Ok((replies, None)),
        Err(DriveFault::BadLine(number)) => Ok((replies, Some(number.saturating_sub(1)))),
        Err(_) => Err(ReplayFault::Memory),
    }
}

// Whether a good line has a reply.
fn has_reply(line: &[u8]) -> bool {
    match line.first() {
        None => false,
        Some(byte) => *byte != b'#',
    }
}

// The place of the line that has the reply of this number, from 0.
fn line_of_reply(lines: &[&[u8]], reply: usize) -> Option<usize> {
    let mut before = 0usize;
    for (place, line) in lines.iter().enumerate() {
        if has_reply(line) {
            if before == reply {
                return Some(place);
            }
            before = before.saturating_add(1);
        }
    }
    None
}

/// The replies that are recorded, each of which is taken once.
#[derive(Drop)]
pub struct Replies<'a, 'b> {
    sections: &'a [Section<'b>],
    taken: Vec<bool>,
    next: usize,
}

impl<'a, 'b> Replies<'a, 'b> {
    /// These, none of which is taken yet.
    pub fn new(alloc: Global, sections: &'a [Section<'b>]) -> Result<Replies<'a, 'b>, AllocError> {
        Ok(Replies {
            sections,
            taken: vec![in alloc; false; sections.len()]?,
            next: 0,
        })
    }

    /// Takes those of the script of this number, if there are some.
    pub fn take(&mut self, number: u64) -> Option<&'a Section<'b>> {
        let place = self.place_of(number)?;
        if let Some(taken) = self.taken.get_mut(place) {
            *taken = true;
        }
        self.next = place.saturating_add(1);
        self.sections.get(place)
    }

    // Scripts and replies mostly stand in one order, so the next is tried first.
    fn place_of(&self, number: u64) -> Option<usize> {
        if self.is_free(self.next, number) {
            return Some(self.next);
        }
        for place in 0..self.sections.len() {
            if self.is_free(place, number) {
                return Some(place);
            }
        }
        None
    }

    fn is_free(&self, place: usize, number: u64) -> bool {
        match (self.sections.get(place), self.taken.get(place)) {
            (Some(section), Some(taken)) => section.number == number && !*taken,
            _ => false,
        }
    }

    /// Reports each that was not taken.
    pub fn tell_left<W: Write>(&self, tally: &mut Tally, out: &mut W) -> Result<(), ReplayFault> {
        for (section, taken) in self.sections.iter().zip(&self.taken) {
            if !*taken {
                tally.tell_alone(section.number, "has replies alone", out)?;
            }
        }
        Ok(())
    }
}

/// Prints the machine's replies to a script after a line of its number, and returns the number of its bad line in the
/// file, if it has one.
pub fn record<W: Write>(
    alloc: Global,
    script: &Section<'_>,
    out: &mut W,
) -> Result<Option<usize>, ReplayFault> {
    let number = script.number;
    let (replies, bad) = replies_to(alloc, script.lines.as_slice())?;
    writeln!(out, "# script {number}").map_err(|_| ReplayFault::Write)?;
    out.write_all(replies.as_slice())
        .map_err(|_| ReplayFault::Write)?;
    Ok(bad.map(|place| script.first_line.saturating_add(place)))
}

/// How many scripts were replayed, how many lines they had, and how many of them differ.
#[derive(Drop)]
pub struct Tally {
    /// Scripts.
    pub scripts: usize,
    /// Their lines, with empty lines and comments.
    pub lines: usize,
    /// Scripts whose replies are not those expected, and scripts that stand in only one file.
    pub differ: usize,
    /// How many of those are reported.
    pub most: usize,
}

impl Tally {
    /// Nothing replayed, and at most this many reported.
    pub fn new(most: usize) -> Tally {
        Tally {
            scripts: 0,
            lines: 0,
            differ: 0,
            most,
        }
    }

    // Counts a script that differs, and answers whether it is told.
    fn is_told(&mut self) -> bool {
        let told = self.differ < self.most;
        self.differ = self.differ.saturating_add(1);
        told
    }

    /// Runs a script, and reports where its replies are not those expected, or that none are recorded.
    pub fn replay<W: Write>(
        &mut self,
        alloc: Global,
        script: &Section<'_>,
        wanted: Option<&Section<'_>>,
        out: &mut W,
    ) -> Result<(), ReplayFault> {
        self.scripts = self.scripts.saturating_add(1);
        self.lines = self.lines.saturating_add(script.lines.len());
        let Some(wanted) = wanted else {
            return self.tell_alone(script.number, "has no replies", out);
        };
        let (replies, bad) = replies_to(alloc, script.lines.as_slice())?;
        let came = lines_of(alloc, replies.as_slice())?;
        let (wanted, came) = (wanted.lines.as_slice(), came.as_slice());
        match (first_difference(wanted, came), bad) {
            (Some(reply), Some(bad)) if reply >= came.len() => self.tell_bad(script, bad, out),
            (None, Some(bad)) => self.tell_bad(script, bad, out),
            (Some(reply), _) => self.tell_parted(script, reply, wanted, came, out),
            (None, None) => Ok(()),
        }
    }

    /// Reports that a script stands in only one file.
    pub fn tell_alone<W: Write>(
        &mut self,
        number: u64,
        what: &str,
        out: &mut W,
    ) -> Result<(), ReplayFault> {
        if self.is_told() {
            writeln!(out, "script {number} {what}").map_err(|_| ReplayFault::Write)?;
        }
        Ok(())
    }

    // Tells that a script ended at the line at this place, which is a bad one.
    fn tell_bad<W: Write>(
        &mut self,
        script: &Section<'_>,
        place: usize,
        out: &mut W,
    ) -> Result<(), ReplayFault> {
        if !self.is_told() {
            return Ok(());
        }
        write_place(out, script, Some(place))?;
        write_line(out, b"  is a bad line", b"")
    }

    // Tells the two replies of this number.
    fn tell_parted<W: Write>(
        &mut self,
        script: &Section<'_>,
        reply: usize,
        wanted: &[&[u8]],
        came: &[&[u8]],
        out: &mut W,
    ) -> Result<(), ReplayFault> {
        if !self.is_told() {
            return Ok(());
        }
        write_place(out, script, line_of_reply(script.lines.as_slice(), reply))?;
        write_reply(out, b"  wanted: ", wanted.get(reply))?;
        write_reply(out, b"  came:   ", came.get(reply))
    }

    /// Reports how many differ that were not reported, and the numbers of all.
    pub fn tell_sum<W: Write>(&self, out: &mut W) -> Result<(), ReplayFault> {
        if self.differ > self.most {
            let more = self.differ - self.most;
            writeln!(out, "{more} more, which --all tells").map_err(|_| ReplayFault::Write)?;
        }
        let (scripts, lines, differ) = (self.scripts, self.lines, self.differ);
        writeln!(out, "{scripts} scripts, {lines} lines, {differ} differ").map_err(
            |_| ReplayFault::Write,
        )
    }
}

// Writes which line of a script it is: its number in the file, and the line.
fn write_place<W: Write>(
    out: &mut W,
    script: &Section<'_>,
    place: Option<usize>,
) -> Result<(), ReplayFault> {
    let number = script.number;
    let Some(place) = place else {
        return writeln!(out, "script {number}, after its last line").map_err(
            |_| ReplayFault::Write,
        );
    };
    let file_line = script.first_line.saturating_add(place);
    write!(out, "script {number}, line {file_line}: ").map_err(|_| ReplayFault::Write)?;
    match script.lines.get(place) {
        Some(line) => write_line(out, b"", line),
        None => write_line(out, b"", b""),
    }
}

// Writes a reply, or that there is none.
fn write_reply<W: Write>(
    out: &mut W,
    name: &[u8],
    reply: Option<&&[u8]>,
) -> Result<(), ReplayFault> {
    match reply {
        Some(line) => write_line(out, name, line),
        None => write_line(out, name, b"no reply"),
    }
}

// Writes a line of two parts.
fn write_line<W: Write>(out: &mut W, front: &[u8], back: &[u8]) -> Result<(), ReplayFault> {
    for part in [front, back, b"\n"] {
        out.write_all(part).map_err(|_| ReplayFault::Write)?;
    }
    Ok(())
}
