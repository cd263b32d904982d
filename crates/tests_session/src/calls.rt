//! A call of a session. Rows of text have the others, in bindings/rust/tests/rows/session.txt.

use std::test::Fail;
use vm_session::{Call, Session};

// Makes a block of 64 bytes, with pages of 16.
const BLOCK: Call = Call {
    kind: 0,
    width: 0,
    access: 0,
    first: 0,
    second: 0,
    third: 0,
    address: 0,
    target: 0,
    length: 64,
    other_length: 16,
    value: 0,
};

// Block after block, each of which has the number of those before.
#[test]
fn calls_are_answered_by_numbers(rt: HostRuntime) -> Result<(), Fail> {
    let mut session = Session::new(rt.alloc());
    for number in 0..2u64 {
        let answer = session.call(&BLOCK, &[], &mut []);
        let (code, value) = (answer.code, answer.value);
        if (code, value) != (0, number) || (answer.count, answer.address) != (0, 0) {
            return Err(Fail::new(format_args!("block {number}: {answer:?}")));
        }
    }
    Ok(())
}

fn is_sent<T: Send>(_one: &T) {}

#[test]
fn sessions_may_go_to_another_thread(rt: HostRuntime) {
    is_sent(&Session::new(rt.alloc()));
}
