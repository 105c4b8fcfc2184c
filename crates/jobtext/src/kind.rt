// The kinds of line, told by their letter.
ghost use Rattle.std.specs.Prelude.{◌≡◌, MatchOption, ◌≢◌};
ghost use Rattle.jobtext.specs.Tokens.{kind_letter};

#[derive(Clone, Copy, PartialEq, Eq, Debug)]
pub enum LineKind {
    // opens a job
    Job,
    // adds a block whose offers the line writes out
    Own,
    // adds a block of samples with a gain
    Gain,
    // takes the last block back
    TakeBack,
    // asks for the plan within a budget
    Plan,
    // asks for the fewest bits within a bound
    Fewest,
}

// The kind of line that a letter begins. (A table of letters with no other parameter: the form was asked for.)
pub fn line_kind(letter: char) -> Option<LineKind>
    ensures { MatchOption result ((kind : LineKind) → letter ≢ kind_letter kind) (λ kind. letter ≡ kind_letter kind) }
{
    match letter {
        'J' => Some(LineKind::Job),
        'O' => Some(LineKind::Own),
        'G' => Some(LineKind::Gain),
        'U' => Some(LineKind::TakeBack),
        'B' => Some(LineKind::Plan),
        'D' => Some(LineKind::Fewest),
        _ => None,
    }
}
