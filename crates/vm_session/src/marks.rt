//! The calls that mark pages.
ghost use Rattle.std.specs.Prelude.{IsTrue};
ghost use Rattle.vm_memory.specs.ScriptMachine.{state_made};
ghost use Rattle.vm_session.specs.Kinds.{marks};
ghost use Rattle.vm_session.specs.Session.{AnswersMarks};

use crate::answer::{done, moved};
use crate::call::{Answer, Call, Kind};
use vm_memory::{BlockRange, ScriptMachine};
use vm_memory_base::GuestAddress;

// Marks the pages that a call names.
pub(crate) fn mark(machine: &mut ScriptMachine, kind: Kind, call: &Call, answer: &mut Answer)
    requires { IsTrue (marks kind) }
    ensures { AnswersMarks kind (state_made machine.old) call.now answer.new (state_made machine.new) }
{
    match kind {
        Kind::MarkBlock => {
            let range = BlockRange {
                block: call.first,
                offset: call.address as usize,
                len: call.length,
            };
            done(machine.mark_block(range), answer);
        }
        Kind::MarkReached => {
            let addr = GuestAddress(call.address);
            moved(machine.mark_reached(call.first, addr, call.length), answer);
        }
        _ => unreachable!(),
    }
}
