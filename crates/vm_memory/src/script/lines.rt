//! The lines of a text.
ghost use Rattle.std.specs.Prelude.{◌≡◌, ◌==◌, ◌∷◌, [], MatchOption, position};
ghost use Rattle.vm_memory.specs.Told.{lines_left};
ghost use Rattle.vm_memory.specs.Words.{parts_of};

use std::marker::Model;

/// The rest of a text, whose lines end with line feeds. The last line may lack it.
#[derive(Drop)]
pub(super) struct Lines<'a> {
    rest: Option<&'a [u8]>,
}

impl<'a> Model for Lines<'a> {
    ghost use Rattle.std.specs.Prelude.{List, ℕ};
    ghost use Rattle.vm_memory.specs.Told.{lines_left};

    ghost Value = { List (List ℕ) };

    ghost view = { λ l. lines_left l.rest };
}

impl<'a> Lines<'a> {
    /// The lines of a text.
    pub(super) fn new(text: &'a [u8]) -> Lines<'a>
        ensures { result ≡ parts_of 10 text.now }
    {
        Lines { rest: Some(text) }
    }

    /// The next line, if there is one, without its line feed.
    pub(super) fn next(&mut self) -> Option<&'a [u8]>
        ensures { MatchOption result ((self.old ≡ []) × (self.new ≡ [])) (λ line. self.old ≡ line.now ∷ self.new) }
    {
        let text = self.rest?;
        match line_end(text) {
            Some(end) => {
                self.rest = Some(&text[end + 1..]);
                Some(&text[..end])
            }
            None => {
                self.rest = None;
                Some(text)
            }
        }
    }
}

// The place of the first line feed, if there is one.
fn line_end(text: &[u8]) -> Option<usize>
    ensures { result ≡ position (λ b. b == 10) text.now }
{
    text.iter().position(|byte| *byte == b'\n')
}
