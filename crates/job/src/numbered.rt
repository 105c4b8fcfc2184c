// The lines of a text with their numbers, which count from 1.
ghost use Rattle.std.specs.Prelude.{◌≡◌, ◌+◌, ◌^◌, ◌<◌, ◌≤◌, [], ◌∷◌, length, MatchOption};
ghost use Rattle.std.specs.Iterator.{at_most};
ghost use Rattle.jobtext.specs.Lines.{unread};
ghost use Rattle.jobtext.specs.Parts.{text_lines};

use jobtext::Lines;

// The lines that are left, of which `read` came before.
#[derive(Clone, Copy)]
pub(crate) struct NumberedLines<'a> {
    lines: Lines<'a>,
    read: u32,
    ghost few: { read + length (unread lines) < 2 ^ 32 },
}

impl<'a> NumberedLines<'a> {
    pub(crate) fn of(text: &'a [u8]) -> NumberedLines<'a>
        requires { length text.now ≤ 32768 }
        ensures lines { unread result.lines ≡ text_lines text.now }
        ensures read { result.read ≡ 0 }
    {
        NumberedLines {
            lines: Lines::of(text),
            read: 0,
        }
    }
}

impl<'a> Iterator for NumberedLines<'a> {
    type Item = (u32, &'a [u8]);

    ghost remaining = { λ s. at_most (length (unread s.lines)) };

    ghost next_gives = { λ before line after. MatchOption line ((unread before.lines ≡ []) × (unread after.lines ≡ [])) (λ pair. (pair.0 ≡ before.read + 1) × (after.read ≡ before.read + 1) × (unread before.lines ≡ pair.1.now ∷ unread after.lines)) };

    fn next(&mut self) -> Option<(u32, &'a [u8])> {
        let line = self.lines.next()?;
        self.read += 1;
        Some((self.read, line))
    }
}
