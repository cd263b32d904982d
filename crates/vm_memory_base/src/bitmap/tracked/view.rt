// What a marker or the harvester knows.
ghost use Rattle.std.specs.Prelude.{ℕ, List};
ghost use base.Stored.{coded_ℕ};
ghost use Rattle.std.specs.Borrow.{ftrue};
ghost use Rattle.vm_memory_base.specs.Notes.{Note, notes_coded};

use std::marker::Model;

// No value of it is made.
pub struct View {
    // The number of pages that there are.
    pub ghost count: { ℕ } by { coded_ℕ },
    // How many markers it dealt.
    pub ghost dealt: { ℕ } by { coded_ℕ },
    // Of how many markers these are the notes: of one, or of those that were joined.
    pub ghost markers: { ℕ } by { coded_ℕ },
    // The pages that it marked.
    pub ghost marks: { List Note } by { notes_coded },
    // The pages that it saw set.
    pub ghost sightings: { List Note } by { notes_coded },
    // The pages that it took, a note for each harvest of a word.
    pub ghost harvests: { List Note } by { notes_coded },
    // The rounds that it saw of the words.
    pub ghost rounds: { List Note } by { notes_coded },
}

impl Model for View {
    ghost also_owns = { λ _. ftrue };
}
