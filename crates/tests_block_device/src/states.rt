//! States of queues.

use std::test::Fail;
use test_text::expect_text;
use virtio_queue::{Queue, QueueState};

const STATE: QueueState = QueueState {
    max_size: 16,
    size: 8,
    ready: true,
    desc_table: 0x1000,
    avail_ring: 0x2000,
    used_ring: 0x3000,
    next_avail: 3,
    next_used: 2,
    event_idx_enabled: true,
};

// States, and why they are refused.
const STATES: [(QueueState, &str); 8] = [
    (
        QueueState {
            max_size: 0,
            ..STATE
        },
        "InvalidMaxSize",
    ),
    (
        QueueState {
            max_size: 12,
            ..STATE
        },
        "InvalidMaxSize",
    ),
    (QueueState { size: 0, ..STATE }, "InvalidSize"),
    (QueueState { size: 7, ..STATE }, "InvalidSize"),
    (QueueState { size: 32, ..STATE }, "InvalidSize"),
    (
        QueueState {
            desc_table: 8,
            ..STATE
        },
        "InvalidDescTableAlign",
    ),
    (
        QueueState {
            avail_ring: 1,
            ..STATE
        },
        "InvalidAvailRingAlign",
    ),
    (
        QueueState {
            used_ring: 2,
            ..STATE
        },
        "InvalidUsedRingAlign",
    ),
];

#[test]
fn states_are_taken_and_put_back(rt: HostRuntime) -> Result<(), Fail> {
    for (number, (state, wanted)) in STATES.iter().enumerate() {
        let Err(error) = Queue::from_state(*state) else {
            return Err(Fail::new("a queue took this state"));
        };
        let told = format!(in rt.alloc(); "{error:?}")?;
        expect_text(number, told.as_str(), wanted)?;
    }
    let mut queue = Queue::from_state(STATE)?;
    assert_eq!(rt; queue.state(), STATE);
    queue.go_to_previous_position();
    assert_eq!(rt; queue.next_avail(), 2);
    queue.reset();
    assert_eq!(rt; queue.state(), Queue::new(16)?.state());
    Ok(())
}
