//! A script that runs: what it has made so far, and its reply to one line.
ghost use Rattle.std.specs.Prelude.{◌≡◌, ◌∷◌, ◌++◌, [], IfOk, IfErr, IfSome, MatchResult};
ghost use Rattle.vm_memory.specs.Lines.{Means};
ghost use Rattle.vm_memory.specs.Machine.{Step};
ghost use Rattle.vm_memory.specs.ScriptMachine.{state_made};
ghost use Rattle.vm_memory.specs.Script.{beginning};
ghost use Rattle.vm_memory.specs.Told.{Refuses, Tells, TellsMeaning, TellsText, stage_of};
ghost use Rattle.vm_memory.specs.declared.script.DriveFault.TheVariants as fault;
ghost use Rattle.vm_memory.specs.declared.script.line.Line.TheVariants as lines;

use super::DriveFault;
use super::line::{self, Line};
use super::output::put;
use super::words::LineError;
use crate::machine::command::{Command, Reply};
use crate::machine::run;
use crate::machine::setup::{ScriptMachine, Setup};
use std::alloc::Global;
use std::fmt;
use std::io::Write;

// Room for the text of a reply. A longer one allocates more as it needs it.
const ROOM: usize = 0x1000;

/// A machine, whether a command ran on it, and room for one reply and its text.
#[derive(Drop)]
pub(super) struct Session {
    machine: ScriptMachine,
    commanded: bool,
    replies: Vec<Reply>,
    text: String,
}

impl Session {
    /// A session that has made nothing. Its only error is `Memory`.
    pub(super) fn new(alloc: Global) -> Result<Session, DriveFault>
        ensures begins { IfOk result (λ s. stage_of s.commanded s.machine ≡ beginning) }
        ensures refused { IfErr result (λ e. e ≡ fault.Memory) }
    {
        let replies = Vec::with_capacity(alloc, 1).map_err(|_| DriveFault::Memory)?;
        let text = String::with_capacity(alloc, ROOM).map_err(|_| DriveFault::Memory)?;
        Ok(Session {
            machine: ScriptMachine::empty(alloc),
            commanded: false,
            replies,
            text,
        })
    }

    /// Runs the line with this number, and appends its reply to what is to be written.
    pub(super) fn answer<W: Write>(
        &mut self,
        alloc: Global,
        line: &[u8],
        number: usize,
        output: &mut W,
        waiting: &mut Vec<u8>,
    ) -> Result<(), DriveFault>
        ensures { Tells (stage_of self.old.commanded self.old.machine) line.now number result
            (stage_of self.new.commanded self.new.machine)
            (W.contents output.old) waiting.old.items (W.contents output.new) waiting.new.items }
    {
        match parsed(alloc, line, number)? {
            Line::Nothing => Ok(()),
            Line::Setup(setup) => self.set_up(setup, number, output, waiting),
            Line::Command(command) => self.serve(command, number, output, waiting),
        }
    }

    fn set_up<W: Write>(
        &mut self,
        setup: Setup,
        number: usize,
        output: &mut W,
        waiting: &mut Vec<u8>,
    ) -> Result<(), DriveFault>
        ensures { TellsMeaning (stage_of self.old.commanded self.old.machine) (lines.Setup setup) number result
            (stage_of self.new.commanded self.new.machine)
            (W.contents output.old) waiting.old.items (W.contents output.new) waiting.new.items }
    {
        if self.commanded {
            return Err(DriveFault::BadLine(number));
        }
        let reply = self.machine.make(setup);
        tell(output, waiting, &mut self.text, &reply)
    }

    fn serve<W: Write>(
        &mut self,
        command: Command,
        number: usize,
        output: &mut W,
        waiting: &mut Vec<u8>,
    ) -> Result<(), DriveFault>
        ensures { TellsMeaning (stage_of self.old.commanded self.old.machine) (lines.Command command) number result
            (stage_of self.new.commanded self.new.machine)
            (W.contents output.old) waiting.old.items (W.contents output.new) waiting.new.items }
    {
        self.commanded = true;
        let answered = run_one(&mut self.machine, command, &mut self.replies);
        tell(output, waiting, &mut self.text, &answered?)
    }
}

// Runs one command, and returns its reply.
fn run_one(
    machine: &mut ScriptMachine,
    command: Command,
    replies: &mut Vec<Reply>,
) -> Result<Reply, DriveFault>
    ensures { MatchResult result (λ reply. Step (state_made machine.old) command reply (state_made machine.new))
        (λ e. e ≡ fault.Memory) }
{
    replies.clear();
    run(machine, &[command], replies).map_err(|_| DriveFault::Memory)?;
    replies.pop().ok_or(DriveFault::Memory)
}

// Appends the text of a reply to what waits to be written.
fn tell<W: Write, T: fmt::Display>(
    output: &mut W,
    waiting: &mut Vec<u8>,
    text: &mut String,
    reply: &T,
) -> Result<(), DriveFault>
    ensures { IfSome (T.output reply.now) (λ bytes. TellsText (bytes ++ 10 ∷ []) result
        (W.contents output.old) waiting.old.items (W.contents output.new) waiting.new.items) }
{
    text.clear();
    writeln!(text, "{reply}").map_err(|_| DriveFault::Memory)?;
    if put(output, waiting, text.as_bytes()) {
        Ok(())
    } else {
        Err(DriveFault::Write)
    }
}

fn parsed(alloc: Global, line: &[u8], number: usize) -> Result<Line, DriveFault>
    ensures { MatchResult result (Means line.now) (Refuses line.now number) }
{
    match line::parse(alloc, line) {
        Ok(line) => Ok(line),
        Err(LineError::Bad) => Err(DriveFault::BadLine(number)),
        Err(LineError::Memory) => Err(DriveFault::Memory),
    }
}
