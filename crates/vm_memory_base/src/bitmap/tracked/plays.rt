// The rule of the words, and the three kinds of step: a fetch_or, a swap and a load.
ghost use Rattle.vm_memory_base.specs.Tracked as tracked;

use super::view::View;
use atomic_table::{Join, Play, Split, TableRule};

pub struct Rounds;

// The key is the number of pages.
impl TableRule<(), View, usize> for Rounds {
    ghost holds = { tracked.KeepsRule };

    ghost first = { tracked.newcomer };
}

pub struct Marks;

impl Play<(), View> for Marks {
    ghost then = { tracked.Marks };
}

pub struct Looks;

impl Play<(), View> for Looks {
    ghost then = { tracked.Looks };
}

pub struct Harvests;

impl Play<(), View> for Harvests {
    ghost then = { tracked.Harvests };
}

pub struct Counts;

impl Play<(), View> for Counts {
    ghost then = { tracked.Counts };
}

// A seat that marks.
pub struct Deal;

impl Split<View> for Deal {
    ghost left = { λ v. tracked.after_deals 1 v };

    ghost right = { λ v. tracked.new_marker v.count };
}

// A note of the rounds that were seen.
pub struct Note;

impl Split<View> for Note {
    ghost left = { λ v. v };

    ghost right = { tracked.note_of };
}

pub struct Both;

impl Join<View> for Both {
    ghost both = { tracked.both };

    ghost spent = { tracked.newcomer 0 };
}
