//! The setup calls: what they ask for, and their answers.
ghost use Rattle.std.specs.Prelude.{◌≡◌, ◌==◌, false, IsTrue, MatchOption};
ghost use Rattle.vm_memory.specs.ScriptMachine.{state_made};
ghost use Rattle.vm_memory.specs.State.{State};
ghost use Rattle.vm_session.specs.Answers.{answer_of_setup};
ghost use Rattle.vm_session.specs.Kinds.{is_table, sets_up};
ghost use Rattle.vm_session.specs.Requests.{IsSetup, is_without_size};
ghost use Rattle.vm_session.specs.Retries.{limit_made};
ghost use Rattle.vm_session.specs.Session.{IsGivenBack, IsLent, IsSetUp};

use crate::call::{Answer, Call, Kind};
use crate::code;
use std::num::NonZeroUsize;
use vm_memory::{GiveBackError, ScriptMachine, Setup, SetupReply};
use vm_memory_base::GuestAddress;
use vm_memory_guest::{BlockId, HostPlace, TlbId};

// Makes what a setup call asks for, or changes nothing and says why.
pub(crate) fn set_up(machine: &mut ScriptMachine, kind: Kind, call: &Call) -> Answer
    requires { IsTrue (sets_up kind) }
    ensures { IsSetUp (state_made machine.old) kind call.now result (state_made machine.new) }
{
    match setup_of(kind, call) {
        Some(setup) => told(machine.make(setup)),
        None => Answer::of_code(code::BAD_CALL),
    }
}

// Makes a block of the bytes that lie at a place, or changes nothing and says why.
pub(crate) fn lend_block(machine: &mut ScriptMachine, place: HostPlace, page_size: usize) -> Answer
    ensures { IsLent (state_made machine.old) place.bytes page_size result (state_made machine.new) }
{
    match NonZeroUsize::new(page_size) {
        Some(page_size) => told(machine.make_block_at(place, page_size)),
        None => Answer::of_code(code::BAD_CALL),
    }
}

// Gives a block back, or changes nothing and says why.
pub(crate) fn give_back(machine: &mut ScriptMachine, block: usize) -> Answer
    ensures { IsGivenBack (state_made machine.old) block result (state_made machine.new) }
{
    match machine.give_back(BlockId(block)) {
        Ok(()) => Answer::of_code(code::DONE),
        Err(GiveBackError::NoSuch) => Answer::of_code(code::NO_SUCH),
        Err(GiveBackError::InUse) => Answer::of_code(code::IN_USE),
        Err(GiveBackError::Memory) => Answer::of_code(code::MEMORY),
    }
}

// What a call asks for, unless a page or a limit is 0.
fn setup_of(kind: Kind, call: &Call) -> Option<Setup>
    requires { IsTrue (sets_up kind) }
    ensures { MatchOption result (IsTrue (is_without_size kind call.now)) (IsSetup kind call.now) }
{
    match kind {
        Kind::Block => {
            let page_size = NonZeroUsize::new(call.other_length)?;
            Some(Setup::Block {
                size: call.length,
                page_size,
            })
        }
        Kind::Space => {
            let page_size = NonZeroUsize::new(call.other_length)?;
            Some(Setup::Space {
                size: call.length,
                page_size,
            })
        }
        Kind::Table => Some(Setup::Table(None)),
        Kind::LimitedTable => {
            let limit = NonZeroUsize::new(call.length)?;
            Some(Setup::Table(Some(limit)))
        }
        Kind::Region => Some(Setup::Region {
            block: BlockId(call.first),
            addr: GuestAddress(call.address),
        }),
        Kind::Translator => Some(Setup::Translator(TlbId(call.first))),
        _ => unreachable!(),
    }
}

// The answer to a call that makes a table, if there is no memory for it.
pub(crate) fn no_room(kind: Kind, call: &Call) -> Answer
    requires { IsTrue (is_table kind) }
    ensures answers { (now : State) → IsSetUp now kind call.now result now }
    ensures refused { (result.code == 0) ≡ false }
{
    match setup_of(kind, call) {
        Some(_) => Answer::of_code(code::MEMORY),
        None => Answer::of_code(code::BAD_CALL),
    }
}

// The limit of the table that a call makes.
pub(crate) fn limit_made(kind: Kind, call: &Call) -> Option<usize>
    ensures { result ≡ limit_made kind call.now }
{
    match kind {
        Kind::LimitedTable => Some(call.length),
        _ => None,
    }
}

// The answer to a setup line.
fn told(reply: SetupReply) -> Answer
    ensures { result ≡ answer_of_setup reply }
{
    match reply {
        SetupReply::BlockMade(number)
        | SetupReply::SpaceMade(number)
        | SetupReply::TableMade(number)
        | SetupReply::RegionMade(number)
        | SetupReply::TranslatorMade(number) => Answer::of_value(number as u64),
        SetupReply::InvalidSize => Answer::of_code(code::INVALID_SIZE),
        SetupReply::InvalidRegion => Answer::of_code(code::INVALID_REGION),
        SetupReply::NoSuch => Answer::of_code(code::NO_SUCH),
        SetupReply::Memory => Answer::of_code(code::MEMORY),
    }
}
