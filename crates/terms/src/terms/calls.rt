ghost use Rattle.std.specs.Prelude.{◌≡◌, ℕ, ◌≤◌, ◌++◌, MatchResult, IfOk};
ghost use Rattle.faults.specs.Refusals.{first, refusal};
ghost use Rattle.terms.specs.Faults.{terms_number, reset_row, charge_row, pair_row};
ghost use Rattle.terms.specs.Rules.{rules_of, charge_into, Fresh, Flat, FlatTerms, PairSet};

use super::Terms;
use crate::fault::TermsFault;
use crate::ranges::{checked_ceiling, checked_charge, checked_grades};

impl Terms {
    // One grade, ceiling 0 and no charge.
    pub fn new() -> Terms
        ensures { Fresh 1 0 result }
    {
        Terms {
            grades: 1,
            ceiling: 0,
            charges: [[0; 16]; 16],
        }
    }

    // So many grades, that ceiling, and one charge for every change of grade.
    pub fn flat(grades: u32, ceiling: u32, charge: u32) -> Result<Terms, TermsFault>
        ensures refused { refusal terms_number result ≡ first (reset_row grades ceiling ++ charge_row charge) }
        ensures made { IfOk result (FlatTerms grades ceiling charge) }
    {
        let mut terms = Terms::new();
        terms.reset(grades, ceiling)?;
        terms.set_flat(charge)?;
        Ok(terms)
    }

    // Sets the number of grades and the ceiling, and clears every charge.
    pub fn reset(&mut self, grades: u32, ceiling: u32) -> Result<(), TermsFault>
        ensures refused { refusal terms_number result ≡ first (reset_row grades ceiling) }
        ensures left { MatchResult result (λ _. Fresh grades ceiling self.new) (λ _. self.new ≡ self.old) }
    {
        *self = Terms {
            grades: checked_grades(grades)?,
            ceiling: checked_ceiling(ceiling)?,
            charges: [[0; 16]; 16],
        };
        Ok(())
    }

    // Sets one charge for every change of grade.
    pub fn set_flat(&mut self, charge: u32) -> Result<(), TermsFault>
        ensures refused { refusal terms_number result ≡ first (charge_row charge) }
        ensures left { MatchResult result (λ _. Flat self.old charge self.new) (λ _. self.new ≡ self.old) }
    {
        let charge = checked_charge(charge)?;
        let mut charges = [[charge; 16]; 16];
        for (grade, row) in charges.iter_mut().enumerate() {
            row[grade] = 0;
        }
        self.charges = charges;
        Ok(())
    }

    // Sets the charge of one change, from one grade to another.
    pub fn set_pair(&mut self, from: u8, to: u8, charge: u32) -> Result<(), TermsFault>
        ensures refused { refusal terms_number result ≡ first (pair_row self.old.grades from to charge) }
        ensures left { MatchResult result (λ _. PairSet self.old from to charge self.new) (λ _. self.new ≡ self.old) }
    {
        if from == to || from >= self.grades || to >= self.grades {
            return Err(TermsFault::PairRange);
        }
        let charge = checked_charge(charge)?;
        self.charges[from as usize][to as usize] = charge;
        Ok(())
    }

    pub fn grades(&self) -> u8
        ensures is { result ≡ self.now.grades }
        ensures some { 1 ≤ result }
        ensures few { result ≤ 16 }
    {
        self.grades
    }

    pub fn ceiling(&self) -> u32
        ensures is { result ≡ self.now.ceiling }
        ensures low { result ≤ 4095 }
    {
        self.ceiling
    }

    // The bits that tell the receiver of the grade, after the grade before it; 0 for a grade over 15.
    pub fn charge_into(&self, before: Option<u8>, grade: u8) -> u32
        ensures is { result ≡ charge_into (rules_of self.now) before grade }
        ensures low { result ≤ 255 }
    {
        match before {
            Some(before) if before < 16 && grade < 16 => {
                self.charges[before as usize][grade as usize] as u32
            }
            _ => 0,
        }
    }
}
