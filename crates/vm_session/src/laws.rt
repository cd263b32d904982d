//! What holds of every session: each function here is a theorem, and does nothing.
ghost use Rattle.std.specs.Prelude.{◌≡◌, ℕ, List, All, Some, length};
ghost use Rattle.vm_memory.specs.Machine.{Run};
ghost use Rattle.vm_memory.specs.declared.machine.command.Command.{Command};
ghost use Rattle.vm_memory.specs.declared.machine.command.Reply.{Reply};
ghost use Rattle.vm_memory_device.specs.declared.chain.Segment.{Segment};
ghost use Rattle.vm_session.specs.Run.{AreDeeds, Deed, EndsFlight, Event, HappenAll, all_ran, chain_at};
ghost use Rattle.vm_session.specs.Retries.{WholeSession};
ghost use Rattle.vm_session.specs.SessionState.{SessionState};

pub mod messages;

/// Any list of calls of a session, with bytes that are lent as blocks, blocks that are given back, and a guest that
/// writes into shared blocks between them, and before each look and each store of a call on a queue and a memory, is a
/// run of the model with the same bytes and writes. Each call did nothing and was refused, or it made something, or it
/// ran a command, and its answer and its output are those of the reply; or a table took a message, or it did what the
/// call of a queue does. Commands one after another are a run of a machine.
///
/// Leaves open: that each UPDATE of announced memory first empties its table, and that each miss is reported as a table
/// that is too small. `AnswersCall`, the contract of a call, says when.
pub fn calls_run_the_model()
    ensures all { (shared : List ℕ) (es : List Event) (old new : WholeSession) → HappenAll shared old es new
        → (deeds : List Deed) × AreDeeds shared old.parts es deeds new.parts }
    ensures run { (shared : List ℕ) (es : List Event) (cs : List Command) (rs : List Reply) (old new : SessionState)
        → length cs ≡ length rs → AreDeeds shared old es (all_ran cs rs) new → Run old.machine cs rs new.machine }
{}

/// A chain in flight keeps its descriptors, whatever calls are made and whatever the guest writes to its tables between
/// them and before their looks, until a call returns it, forgets it, or resets its queue.
pub fn chains_stay_in_flight()
    ensures { (shared : List ℕ) (es : List Event) (old new : WholeSession) (number head : ℕ) (chain : List Segment)
        → HappenAll shared old es new → All (λ e. EndsFlight number head e → ⊥) es
        → chain_at old.parts number head ≡ Some chain → chain_at new.parts number head ≡ Some chain }
{}
