//! A machine that threads command at once, and one that two command one after the other.

use std::alloc::{AllocError, Global};
use std::sync::{Barrier, Wait};
use std::test::Fail;
use std::thread::{self, Threads};
use test_machines::{TestShared, read_of, write_of};
use test_text::expect_text;
use test_threads::{expect_calls, set_up};
use vm_memory::{CallError, Command, Journal, Reply, SharedMachine};

#[test]
fn calls_of_threads_are_one_run(rt: HostRuntime) -> Result<(), Fail> {
    expect_calls(&rt, rt.alloc())
}

// Calls before the other thread goes on, or when the other has its answer.
fn call_in_turn<R: Wait>(
    rt: &R,
    machine: &TestShared,
    gate: &Barrier,
    command: Command,
    is_first: bool,
) -> Result<(usize, Reply), CallError> {
    if !is_first {
        gate.wait(rt);
    }
    let answer = machine.call(rt, command);
    if is_first {
        gate.wait(rt);
    }
    answer
}

// What two threads are answered, the second of which calls after the first has its answer.
fn answers_of<R: Sync + Threads + Wait>(
    rt: &R,
    alloc: Global,
    machine: &TestShared,
    first: Command,
    second: Command,
) -> Result<String, AllocError> {
    let gate = Barrier::new(2);
    let (one, other) = thread::join(
        rt,
        || call_in_turn(rt, machine, &gate, first, true),
        || call_in_turn(rt, machine, &gate, second, false),
    );
    format!(in alloc; "{one:?} {other:?}")
}

const ANSWERS: &str = "Ok((0, Count(3))) Ok((1, Bytes(Items { items: [0, 1, 2, 3, 0] })))";

// Entry 2 is not there.
const ENTRIES: &str = "\
count 3
bytes 0001020300
none
Some(Write { memory: 0, addr: GuestAddress(1), bytes: Items { items: [1, 2, 3] } }) Some(Count(3))
Some(Read { memory: 0, addr: GuestAddress(0), count: 5 }) Some(Bytes(Items { items: [0, 1, 2, 3, 0] }))
";

// A write, and a read of another thread that begins when the write is answered. Then what the entries are told by
// number, and the entries of the journal.
#[test]
fn a_read_after_a_write_of_another_thread_gives_its_bytes(rt: HostRuntime) -> Result<(), Fail> {
    let alloc = rt.alloc();
    let machine = SharedMachine::new(Journal::new(set_up(alloc, 0x10)?));
    let write = write_of(alloc, 0, 1, &[1, 2, 3])?;
    let told = answers_of(&rt, alloc, &machine, write, read_of(0, 0, 5))?;
    expect_text(0, told.as_str(), ANSWERS)?;
    let mut text = String::new(alloc);
    for number in 0..3 {
        match machine.fetch(&rt, number)? {
            Some(reply) => writeln!(text, "{reply}")?,
            None => writeln!(text, "none")?,
        }
    }
    let journal = machine.into_journal();
    for number in 0..journal.len() {
        let command = journal.command(number);
        let reply = journal.reply(number);
        writeln!(text, "{command:?} {reply:?}")?;
    }
    expect_text(1, text.as_str(), ENTRIES)
}
