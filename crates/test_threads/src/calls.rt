//! Four threads that command one machine.

use crate::marks::meet;
use std::alloc::{AllocError, Global};
use std::slice;
use std::sync::Wait;
use std::sync::atomic::AtomicUsize;
use std::test::Fail;
use std::thread::{self, Threads};
use test_machines::{TestMachine, TestShared, layout_of, machine_of, read_of, run_on, write_of};
use test_regions::Place;
use test_text::expect_text;
use vm_memory::{
    Command, ExactBitmap, GuestMemoryRegion, Iommu, Journal, Machine, Reply, SharedMachine, run,
};

// How many commands a thread calls.
const CALLS: u8 = 250;

// Writes two bytes, or reads what all threads wrote. No two threads have a command in common.
fn command_of(alloc: Global, caller: u8, number: u8) -> Result<Command, AllocError> {
    if number % 2 == 0 {
        let addr = u64::from(number) * 7 % 0x1d + u64::from(caller);
        write_of(alloc, 0, addr, &[caller, number])
    } else {
        Ok(read_of(0, u64::from(caller), 0x1d))
    }
}

type Answers = Result<Vec<(usize, Reply)>, AllocError>;

// What a thread is answered.
fn answers_of<R: Wait>(
    rt: &R,
    alloc: Global,
    machine: &TestShared,
    caller: u8,
    gate: &AtomicUsize,
) -> Answers {
    meet(gate, 4);
    let mut answers = Vec::new(alloc);
    for number in 0..CALLS {
        let command = command_of(alloc, caller, number)?;
        let answer = machine.call(rt, command).map_err(|_| AllocError)?;
        answers.push(answer)?;
    }
    Ok(answers)
}

// What two threads are answered, of which the first has this number.
fn answers_of_two<R: Sync + Threads + Wait>(
    rt: &R,
    alloc: Global,
    machine: &TestShared,
    caller: u8,
    gate: &AtomicUsize,
) -> (Answers, Answers) {
    thread::join(
        rt,
        || answers_of(rt, alloc, machine, caller, gate),
        || answers_of(rt, alloc, machine, caller.wrapping_add(1), gate),
    )
}

// Fails where the entries of the answers do not follow one another, or have other commands or replies.
fn expect_answered<R: GuestMemoryRegion, I: Iommu, B: ExactBitmap>(
    alloc: Global,
    journal: &Journal<R, I, B>,
    caller: u8,
    answers: &[(usize, Reply)],
) -> Result<(), Fail> {
    let mut next = 0usize;
    for (place, (number, reply)) in answers.iter().enumerate() {
        let command = command_of(alloc, caller, (place % 256) as u8)?;
        let told = format!(in alloc; "{command:?} {reply:?}")?;
        let entry = (journal.command(*number), journal.reply(*number));
        let (Some(command), Some(reply)) = entry else {
            return Err(Fail::new(format_args!("there is no entry {number}")));
        };
        let wanted = format!(in alloc; "{command:?} {reply:?}")?;
        expect_text(*number, told.as_str(), wanted.as_str())?;
        if *number < next {
            return Err(Fail::new(format_args!("entry {number} is before {next}")));
        }
        next = number.saturating_add(1);
    }
    if answers.len() != usize::from(CALLS) {
        return Err(Fail::new("a call has no answer, or two"));
    }
    Ok(())
}

// Fails where the answers of one of the four threads are not those of its commands, or the journal has more entries.
fn expect_each_answered<R: GuestMemoryRegion, I: Iommu, B: ExactBitmap>(
    alloc: Global,
    journal: &Journal<R, I, B>,
    answers: [Answers; 4],
) -> Result<(), Fail> {
    let mut caller = 0u8;
    for answers in answers {
        expect_answered(alloc, journal, caller, answers?.as_slice())?;
        caller = caller.wrapping_add(1);
    }
    if journal.len() != 4 * usize::from(CALLS) {
        return Err(Fail::new(format_args!("{} entries", journal.len())));
    }
    Ok(())
}

// Fails where the commands of a journal, run by another machine, have other replies.
fn expect_run_again<R: GuestMemoryRegion, I: Iommu, B: ExactBitmap>(
    alloc: Global,
    journal: &Journal<R, I, B>,
    machine: &mut Machine<R, I, B>,
) -> Result<(), Fail> {
    let mut replies = Vec::new(alloc);
    for number in 0..journal.len() {
        let command = journal.command(number).ok_or("there is no command")?;
        run(machine, slice::from_ref(command), &mut replies)?;
        let told = format!(in alloc; "{:?}", journal.reply(number))?;
        let wanted = format!(in alloc; "{:?}", replies.last())?;
        expect_text(number, told.as_str(), wanted.as_str())?;
    }
    Ok(())
}

// What four threads are answered that call one machine at once.
fn answers_of_four<R: Sync + Threads + Wait>(
    rt: &R,
    alloc: Global,
    machine: &TestShared,
) -> [Answers; 4] {
    let gate = AtomicUsize::new(0);
    let ((a, b), (c, d)) = thread::join(
        rt,
        || answers_of_two(rt, alloc, machine, 0, &gate),
        || answers_of_two(rt, alloc, machine, 2, &gate),
    );
    [a, b, c, d]
}

/// A machine with a memory of one region of this many bytes.
pub fn set_up(alloc: Global, size: usize) -> Result<TestMachine, Fail> {
    let mut machine = machine_of(alloc, &[Place::Block(0, size)])?;
    let commands = vec![in alloc; layout_of(alloc, &[0])?, Command::Plain(0)]?;
    run_on(&mut machine, commands.as_slice(), &mut Vec::new(alloc))?;
    Ok(machine)
}

/// Fails if the replies of one machine to four threads are not those of its journal, all of them, or if the
/// commands of the journal, run again, have other replies.
pub fn expect_calls<R: Sync + Threads + Wait>(rt: &R, alloc: Global) -> Result<(), Fail> {
    let machine = SharedMachine::new(Journal::new(set_up(alloc, 0x20)?));
    let answers = answers_of_four(rt, alloc, &machine);
    let journal = machine.into_journal();
    expect_each_answered(alloc, &journal, answers)?;
    expect_run_again(alloc, &journal, &mut set_up(alloc, 0x20)?)
}
