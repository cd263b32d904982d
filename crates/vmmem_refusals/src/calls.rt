//! Calls that are refused in turn.

use crate::famine::{Famine, MOST, STEP};
use std::alloc::AllocError;
use std::test::Fail;

/// What a call returned.
#[derive(Clone, Copy, PartialEq, Eq)]
pub enum Answer {
    /// It did what it was asked for.
    Done,
    /// It was refused because an allocation failed.
    Refused,
    /// It did not run: an allocation failed for what it is called with, or for what calls it.
    NotRun,
    /// Something else.
    Other,
}

/// How many calls were refused because an allocation failed, and how many did not run for that.
#[derive(Clone, Copy)]
pub struct Refusals {
    pub refused: usize,
    pub not_run: usize,
}

impl Refusals {
    /// None yet.
    pub fn new() -> Refusals {
        Refusals {
            refused: 0,
            not_run: 0,
        }
    }

    /// Counts a call.
    pub fn count(&mut self, is_refused: bool, is_not_run: bool) {
        self.refused = self.refused.saturating_add(usize::from(is_refused));
        self.not_run = self.not_run.saturating_add(usize::from(is_not_run));
    }
}

/// Calls that may fail to allocate, by number from 0, and a state that they change.
pub trait Calls {
    /// How many calls there are.
    fn count(&self) -> usize;

    /// Makes a call.
    fn make(&mut self, number: usize) -> Answer;

    /// All that can be seen of what a call may change, and of what the last call that was done returned.
    fn seen(&mut self, number: usize) -> Result<String, Fail>;

    /// Fails if a refusal that is reported in its own way was not met.
    fn expect_met(&self) -> Result<(), Fail> {
        Ok(())
    }
}

/// Keeps what a call made.
pub fn keep<T: Drop>(made: Result<T, AllocError>, place: &mut Option<T>) -> Answer {
    match made {
        Ok(made) => {
            *place = Some(made);
            Answer::Done
        }
        Err(_) => Answer::Refused,
    }
}

fn wrong(name: &str, number: usize, what: &str) -> Fail {
    Fail::new(format_args!("{name}, call {number}: {what}"))
}

// Makes a call with no memory left, then with a little more, and so on until it is done. So each of its requests is
// refused in turn.
fn refuse(
    famine: &mut Famine,
    name: &str,
    calls: &mut impl Calls,
    number: usize,
    refusals: &mut Refusals,
) -> Result<(), Fail> {
    let before = calls.seen(number)?;
    let (mut is_refused, mut is_not_run) = (false, false);
    for step in 0..MOST / STEP {
        famine.begin(STEP * step)?;
        let answer = calls.make(number);
        famine.end();
        match answer {
            Answer::Done => {
                refusals.count(is_refused, is_not_run);
                return Ok(());
            }
            Answer::Other => return Err(wrong(name, number, "it answered something else")),
            Answer::Refused => is_refused = true,
            Answer::NotRun => is_not_run = true,
        }
        if calls.seen(number)?.as_str() != before.as_str() {
            return Err(wrong(name, number, "a refusal changed something"));
        }
    }
    Err(wrong(name, number, "it is refused where there is memory"))
}

/// Makes each call with ample memory in one state, and refuses it in the other, which is to be the same then. It tells
/// how many calls were refused.
pub fn expect_refusals<C: Calls>(
    famine: &mut Famine,
    name: &str,
    ample: &mut C,
    tried: &mut C,
) -> Result<Refusals, Fail> {
    let mut refusals = Refusals::new();
    for number in 0..ample.count() {
        if ample.make(number) != Answer::Done {
            return Err(wrong(name, number, "it is not done with ample memory"));
        }
        refuse(famine, name, tried, number, &mut refusals)?;
        if tried.seen(number)?.as_str() != ample.seen(number)?.as_str() {
            return Err(wrong(name, number, "it left something else after refusals"));
        }
    }
    Ok(refusals)
}
