//! Lines of a script.
ghost use Rattle.std.specs.Prelude.{◌≡◌};
ghost use Rattle.vm_memory.specs.Words.{parts_of};
ghost use Rattle.vm_memory.specs.Lines.{Parses, is_blank};
ghost use Rattle.vm_memory.specs.LineReading.{IsShown, line_at};

use super::words::{LineError, Words};
use super::{commands, setup};
use crate::machine::command::Command;
use crate::machine::setup::Setup;
use std::alloc::Global;

/// A line that has one of the forms.
#[derive(Drop)]
pub(super) enum Line {
    /// Empty, or a comment.
    Nothing,
    /// A line that may only come before the first command.
    Setup(Setup),
    /// A command of the machine.
    Command(Command),
}

/// Parses a line from bytes without a line feed.
pub(super) fn parse(alloc: Global, line: &[u8]) -> Result<Line, LineError>
    ensures { Parses line.now result }
{
    if is_blank(line) {
        return Ok(Line::Nothing);
    }
    match str::from_utf8(line) {
        Ok(text) => of_words(alloc, text),
        Err(_) => Err(LineError::Bad),
    }
}

// Parses a line from its words.
#[tactic(auto, unfolding(crate::specs::LineReading::line_at))]
fn of_words(alloc: Global, text: &str) -> Result<Line, LineError>
    ensures { IsShown result (line_at (parts_of 32 text.now)) }
{
    let mut words = Words::new(text);
    let word = words.word()?;
    match setup::parse(word, &mut words)? {
        Some(setup) => {
            words.end()?;
            Ok(Line::Setup(setup))
        }
        None => {
            let command = commands::parse(alloc, word, &mut words)?;
            words.end()?;
            Ok(Line::Command(command))
        }
    }
}

// Whether a line is empty, or a comment.
fn is_blank(line: &[u8]) -> bool
    ensures { result ≡ is_blank line.now }
{
    match line.first() {
        None => true,
        Some(first) => *first == b'#',
    }
}
