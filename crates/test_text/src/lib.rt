//! What the tests of all layers share.
#![tactic(auto)]

use std::test::Fail;

/// Fails if a text is not the wanted one, and says in which case.
pub fn expect_text(case: usize, told: &str, wanted: &str) -> Result<(), Fail> {
    if told != wanted {
        return Err(Fail::new(format_args!("case {case}: {told}, not {wanted}")));
    }
    Ok(())
}

/// The next number, below 2^31, of a fixed sequence.
pub fn next_number(state: &mut u64) -> u64 {
    *state = state
        .wrapping_mul(6364136223846793005)
        .wrapping_add(1442695040888963407);
    *state >> 33
}
