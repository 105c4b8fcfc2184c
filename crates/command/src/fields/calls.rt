// What a field is read as: its form is looked at first, then the range.
ghost use Rattle.std.specs.Prelude.{◌≡◌, ℕ, ◌-◌, ◌≤◌, ◌⊎◌, [], ◌∷◌, Ok, Err, MatchBool, MatchOption, MatchResult, ◌≢◌, slice_index_or};
ghost use Rattle.std.specs.Result.{IsErrAnd};
ghost use Rattle.jobtext.specs.Numbers.{Writes, NoNumber};
ghost use Rattle.jobtext.specs.Parts.{line_fields};
ghost use Rattle.jobtext.specs.Tokens.{dash, TokenOf};
ghost use Rattle.jobtext.specs.declared.fault.TextFault.TheVariants.{WrongForm};
ghost use Rattle.offers.specs.Faults.{rate_row};
ghost use Rattle.command.specs.declared.fault.LineFault.TheVariants.{Text};
ghost use Rattle.command.specs.Demands.{cost_letter, NumberIn, a_cost_kind, a_rate};
ghost use Rattle.command.specs.Fields.{bytes_in, ReadAs};

use crate::commands::CostKind;
use crate::fault::{FieldFault, LineFault};
use crate::fields::Field;
use jobtext::{TextFault, Token, letter_at, token_at};
use offers::checked_rate;

impl<'a> Field<'a> {
    pub(crate) fn of(line: &'a [u8], number: u32) -> Field<'a>
        requires { 1 ≤ number }
        ensures bytes { bytes_in result ≡ slice_index_or (line_fields line.now) (number - 1) [] }
        ensures number { result.number ≡ number }
    {
        Field { line, number }
    }

    fn index(self) -> usize
        ensures { result ≡ self.entry.number - 1 }
    {
        self.number as usize - 1
    }

    fn token(self) -> Token<'a>
        ensures { TokenOf (bytes_in self.entry) result }
    {
        token_at(self.line, self.index())
    }

    // The same answer, with the field beside a fault.
    pub(crate) fn here<T, F: Into<LineFault>>(self, answer: Result<T, F>) -> Result<T, FieldFault>
        ensures { MatchResult result (λ x. answer ≡ Ok x) (λ found. (found.field ≡ self.entry.number) × IsErrAnd answer (λ fault. F.converts fault found.fault)) }
    {
        answer.map_err(|fault| FieldFault {
            field: self.number,
            fault: fault.into(),
        })
    }

    // The number in the field.
    pub(crate) fn number(self) -> Result<u32, FieldFault>
        ensures { MatchResult result (λ n. Writes (bytes_in self.entry) n) (λ found. (found.field ≡ self.entry.number) × (found.fault ≡ Text WrongForm) × NoNumber (bytes_in self.entry)) }
    {
        let Token::Number { value, .. } = self.token() else {
            return self.here(Err(TextFault::WrongForm));
        };
        Ok(value)
    }

    // What is made of the number in the field.
    pub(crate) fn read<T, F: Into<LineFault>, M: FnOnce(u32) -> Result<T, F>>(
        self,
        make: M,
    ) -> Result<T, FieldFault>
        requires { M.IsAlwaysCallable make }
        ensures { MatchResult result (λ value. (n : ℕ) × Writes (bytes_in self.entry) n × M.post make n (Ok value)) (λ found. (found.field ≡ self.entry.number) × (((found.fault ≡ Text WrongForm) × NoNumber (bytes_in self.entry)) ⊎ ((n : ℕ) × Writes (bytes_in self.entry) n × ((fault : F) × M.post make n (Err fault) × F.converts fault found.fault)))) }
    {
        let n = self.number()?;
        self.here(make(n))
    }

    fn is_dash(self) -> bool
        ensures { MatchBool result (bytes_in self.entry ≡ dash) (bytes_in self.entry ≢ dash) }
    {
        matches!(self.token(), Token::Dash(_))
    }

    // A dash, where nothing else is asked for.
    pub(crate) fn dash(self) -> Result<(), FieldFault>
        ensures { MatchResult result (λ _. bytes_in self.entry ≡ dash) (λ found. (found.field ≡ self.entry.number) × (found.fault ≡ Text WrongForm) × (bytes_in self.entry ≢ dash)) }
    {
        if !self.is_dash() {
            return self.here(Err(TextFault::WrongForm));
        }
        Ok(())
    }

    // A rate, or none for a dash.
    pub(crate) fn rate(self) -> Result<Option<u32>, FieldFault>
        ensures { ReadAs a_rate self.entry (λ rate. MatchOption rate (bytes_in self.entry ≡ dash) (NumberIn rate_row (bytes_in self.entry))) result }
    {
        match self.token() {
            Token::Number { value, .. } => Ok(Some(self.here(checked_rate(value))?)),
            Token::Dash(_) => Ok(None),
            Token::Other(_) => self.here(Err(TextFault::WrongForm)),
        }
    }

    pub(crate) fn cost_kind(self) -> Result<CostKind, FieldFault>
        ensures { ReadAs a_cost_kind self.entry (λ kind. bytes_in self.entry ≡ cost_letter kind ∷ []) result }
    {
        let Some(letter) = letter_at(self.line, self.index()) else {
            return self.here(Err(TextFault::WrongForm));
        };
        self.here(CostKind::try_from(letter))
    }
}
