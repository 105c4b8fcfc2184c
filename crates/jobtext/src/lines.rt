// The lines of a text, from first to last. Each borrows the text.
ghost use Rattle.std.specs.Prelude.{◌≡◌, [], ◌∷◌, length, MatchOption};
ghost use Rattle.jobtext.specs.Parts.{text_lines, PartsOnly};
ghost use Rattle.jobtext.specs.Lines.{unread};
ghost use Rattle.std.specs.Iterator.{at_most};

use crate::parts::cut;

// What is still to be read of a text; nothing once the last line was given.
#[derive(Clone, Copy)]
pub struct Lines<'a> {
    rest: Option<&'a [u8]>,
}

impl<'a> Lines<'a> {
    pub fn of(text: &'a [u8]) -> Lines<'a>
        ensures all { unread result ≡ text_lines text.now }
        ensures only { PartsOnly }
    {
        Lines { rest: Some(text) }
    }
}

impl<'a> Iterator for Lines<'a> {
    type Item = &'a [u8];

    ghost remaining = { λ lines. at_most (length (unread lines)) };

    ghost next_gives = { λ before line after. MatchOption line ((unread before ≡ []) × (unread after ≡ [])) (λ bytes. unread before ≡ bytes.now ∷ unread after) };

    fn next(&mut self) -> Option<&'a [u8]> {
        let (line, after) = cut(self.rest?, b'\n');
        self.rest = after;
        Some(line)
    }
}
