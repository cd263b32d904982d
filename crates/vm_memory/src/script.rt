//! Scripts: lines that set up a host and command a machine, and a reply line for each. docs/SCRIPT.md has their
//! language, the replies and the codes of refusals.

ghost use Rattle.std.specs.Prelude.{◌≡◌, ℕ, List, [], Option, Some, Err, IfSome, MatchBool, MatchResult};
ghost use Rattle.std.specs.Io.KnownBytes.{Appends};
ghost use Rattle.vm_memory.specs.Script.{Drives, Ends, status_of, text_of_drive_fault};
ghost use Rattle.vm_memory.specs.Told.{IsOutside, TellsAll, kept};
ghost use Rattle.vm_memory.specs.Words.{parts_of};
ghost use Rattle.vm_memory.specs.declared.script.DriveFault.TheVariants as fault;

mod commands;
mod line;
mod lines;
mod output;
mod reply;
mod session;
mod setup;
mod words;

use lines::Lines;
use output::{ROOM, write_all};
use session::Session;
use std::alloc::Global;
use std::error::Error;
use std::fmt;
use std::io::{ErrorKind, Read, Write};

/// Why a script did not run to its end.
#[derive(Debug, Drop)]
pub enum DriveFault {
    /// The line with this number, from 1, has none of the forms, or is a setup line after a command.
    BadLine(usize),
    /// The input failed.
    Read,
    /// The output failed.
    Write,
    /// The allocation of the script or of its machine's replies failed.
    Memory,
}

impl fmt::Display for DriveFault {
    ghost output = { λ fault. Some (text_of_drive_fault fault) };

    fn fmt<W: fmt::Write>(&self, f: &mut fmt::Formatter<W>) -> fmt::Result {
        match self {
            DriveFault::BadLine(number) => write!(f, "line {number}: bad line"),
            DriveFault::Read => write!(f, "read failed"),
            DriveFault::Write => write!(f, "write failed"),
            DriveFault::Memory => write!(f, "out of memory"),
        }
    }
}

impl Error for DriveFault {}

impl DriveFault {
    /// The status that a program ends with: 1 for a bad line, 2 for input and output, 3 for memory.
    pub fn status(&self) -> u8
        ensures { result ≡ status_of self.now }
    {
        match self {
            DriveFault::BadLine(_) => 1,
            DriveFault::Read | DriveFault::Write => 2,
            DriveFault::Memory => 3,
        }
    }
}

/// Reads the whole input, then runs it line by line, and writes a reply for each line that has one.
///
/// It stops at the first bad line with `BadLine`, after the replies to the lines before it. It stops with `Read` if the
/// input fails, with `Write` if the output fails, and with `Memory` if an allocation of its own fails. If a setup line
/// or a command fails to allocate, its reply says so, and the script goes on.
///
/// Leaves open: `Read`, `Write` and `Memory` at any time, after the beginning of the answers.
pub fn drive<R: Read, W: Write>(
    alloc: Global,
    input: &mut R,
    output: &mut W,
) -> Result<(), DriveFault>
    ensures { IfSome (R.remaining input.old) (λ text. (written : List ℕ)
        × Appends (W.contents output.old) (W.contents output.new) written × Drives text result written) }
{
    let text = read_all(alloc, input)?;
    let mut waiting = Vec::with_capacity(alloc, ROOM).map_err(|_| DriveFault::Memory)?;
    let outcome = answer_lines(alloc, text.as_slice(), output, &mut waiting);
    finish(outcome, output, waiting.as_slice())
}

fn read_all<R: Read>(alloc: Global, input: &mut R) -> Result<Vec<u8>, DriveFault>
    ensures { MatchResult result (λ text. IfSome (R.remaining input.old) (λ all. text.items ≡ all)) IsOutside }
{
    let mut text = Vec::new(alloc);
    match input.read_to_end(&mut text) {
        Ok(_) => Ok(text),
        Err(error) if error.kind() == ErrorKind::OutOfMemory => Err(DriveFault::Memory),
        Err(_) => Err(DriveFault::Read),
    }
}

fn answer_lines<W: Write>(
    alloc: Global,
    text: &[u8],
    output: &mut W,
    waiting: &mut Vec<u8>,
) -> Result<(), DriveFault>
    requires { waiting.old.items ≡ [] }
    ensures { TellsAll (parts_of 10 text.now) result (W.contents output.old) (W.contents output.new) waiting.new.items }
{
    let mut session = Session::new(alloc)?;
    let mut lines = Lines::new(text);
    let mut number = 0usize;
    while let Some(line) = lines.next() {
        number = number.saturating_add(1);
        session.answer(alloc, line, number, output, waiting)?;
    }
    Ok(())
}

// Writes what waits, unless a write failed before.
fn finish<W: Write>(
    outcome: Result<(), DriveFault>,
    output: &mut W,
    waiting: &[u8],
) -> Result<(), DriveFault>
    ensures { (lines : List (List ℕ)) (before : Option (List ℕ)) →
        TellsAll lines outcome before (W.contents output.old) waiting.now →
        (written : List ℕ) × Appends before (W.contents output.new) written × Ends lines result written }
{
    if is_unwritten(&outcome) {
        return Err(DriveFault::Write);
    }
    if !write_all(output, waiting) {
        return Err(DriveFault::Write);
    }
    if output.flush().is_err() {
        return Err(DriveFault::Write);
    }
    outcome
}

// Whether a write failed.
fn is_unwritten(outcome: &Result<(), DriveFault>) -> bool
    ensures { MatchBool result (outcome.now ≡ Err fault.Write)
        ((waiting : List ℕ) → kept outcome.now waiting ≡ waiting) }
{
    match outcome {
        Ok(()) => false,
        Err(fault) => match fault {
            DriveFault::Write => true,
            DriveFault::BadLine(_) | DriveFault::Read | DriveFault::Memory => false,
        },
    }
}
