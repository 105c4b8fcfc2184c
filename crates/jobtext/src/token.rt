// What a field of a line is: a number, a dash, a letter, or something else.
ghost use Rattle.std.specs.Prelude.{◌≡◌, ℕ, [], ◌∷◌, MatchOption, ◌≢◌, slice_index_or};
ghost use Rattle.jobtext.specs.Parts.{line_fields};
ghost use Rattle.jobtext.specs.Tokens.{TokenOf};

use crate::numbers::number;
use crate::parts::field;

// A field of a line. Each case borrows the part of the text that it was read from.
#[derive(Clone, Copy, Debug)]
pub enum Token<'a> {
    Number { text: &'a [u8], value: u32 },
    Dash(&'a [u8]),
    Other(&'a [u8]),
}

fn token_of(field: &[u8]) -> Token<'_>
    ensures { TokenOf field.now result }
{
    match number(field) {
        Some(value) => Token::Number { text: field, value },
        None => match field {
            b"-" => Token::Dash(field),
            _ => Token::Other(field),
        },
    }
}

// The token of the field at an index, counted from 0. Past the last field it is one of no bytes.
pub fn token_at(line: &[u8], index: usize) -> Token<'_>
    ensures { TokenOf (slice_index_or (line_fields line.now) index []) result }
{
    token_of(field(line, index).unwrap_or(&line[..0]))
}

fn letter_of(field: &[u8]) -> Option<char>
    ensures { MatchOption result ((letter : ℕ) → field.now ≢ letter ∷ []) (λ letter. field.now ≡ letter ∷ []) }
{
    let [byte] = field else {
        return None;
    };
    Some(char::from(*byte))
}

// The byte that the field at an index is, where it is one byte; none where it has more or fewer.
pub fn letter_at(line: &[u8], index: usize) -> Option<char>
    ensures { MatchOption result ((letter : ℕ) → slice_index_or (line_fields line.now) index [] ≢ letter ∷ []) (λ letter. slice_index_or (line_fields line.now) index [] ≡ letter ∷ []) }
{
    field(line, index).and_then(letter_of)
}
