//! What holds of every line and of every script: each function here is a theorem, and does nothing.
ghost use Rattle.std.specs.Prelude.{◌≡◌, ◌++◌, List, ℕ, flat_map};
ghost use Rattle.std.specs.List.{AllByRecursion};
ghost use Rattle.vm_memory.specs.Lines.{CanSpell, Means, command_fields, setup_fields};
ghost use Rattle.vm_memory.specs.Machine.{Run};
ghost use Rattle.vm_memory.specs.ScriptMachine.{no_parts, state_made};
ghost use Rattle.vm_memory.specs.Script.{Answers, Stage, beginning, state_at};
ghost use Rattle.vm_memory.specs.ScriptRun.{SetUpRun, commands_of, reply_line, setup_line, setups_of};
ghost use Rattle.vm_memory.specs.State.{State};
ghost use Rattle.vm_memory.specs.Texts.{CanTell, CanTellSetup, text_of, text_of_setup};
ghost use Rattle.vm_memory.specs.Words.{Each};
ghost use Rattle.vm_memory.specs.declared.machine.command.Command.{Command};
ghost use Rattle.vm_memory.specs.declared.machine.command.Reply.{Reply};
ghost use Rattle.vm_memory.specs.declared.script.line.Line.{Line};
ghost use Rattle.vm_memory.specs.declared.script.line.Line.TheVariants as lines;
ghost use Rattle.vm_memory.specs.declared.machine.setup.Setup.{Setup};
ghost use Rattle.vm_memory.specs.declared.machine.setup.SetupReply.{SetupReply};

/// A line means at most one thing.
pub fn lines_mean_one_thing()
    ensures { (line : List ℕ) (a b : Line) → Means line a → Means line b → a ≡ b }
{}

/// Each command and each setup line of 64-bit numbers and bytes has a line that means it.
pub fn meanings_have_lines()
    ensures command { (c : Command) → AllByRecursion CanSpell (command_fields c)
        → (line : List ℕ) × Means line (lines.Command c) }
    ensures setup { (s : Setup) → AllByRecursion CanSpell (setup_fields s)
        → (line : List ℕ) × Means line (lines.Setup s) }
{}

/// Replies that differ have texts that differ, if they have numbers of 64 bits, bytes, and kinds of I/O errors
/// that a script can meet.
pub fn replies_that_differ_have_other_texts()
    ensures replies { (r s : Reply) → CanTell r → CanTell s → text_of r ≡ text_of s → r ≡ s }
    ensures setup { (r s : SetupReply) → CanTellSetup r → CanTellSetup s → text_of_setup r ≡ text_of_setup s
        → r ≡ s }
{}

/// If lines get replies one after another, what their setup lines ask for is made first, and then their commands are a
/// run of the model. The text is that of the replies, a line each.
pub fn scripts_run_the_model()
    ensures { (lines : List (List ℕ)) (text : List ℕ) (end : Stage) → Answers beginning lines text end
        → (meanings : List Line) × (made : List SetupReply) × (start : State) × (replies : List Reply)
        × Each Means lines meanings × SetUpRun (state_made no_parts) (setups_of meanings) made start
        × Run start (commands_of meanings) replies (state_at end)
        × (text ≡ flat_map setup_line made ++ flat_map reply_line replies) }
{}
