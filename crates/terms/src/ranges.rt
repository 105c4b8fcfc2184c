// The checks of one number at a time, for whoever reads terms field by field.
ghost use Rattle.std.specs.Prelude.{◌≡◌, IfOk};
ghost use Rattle.faults.specs.Refusals.{first, refusal};
ghost use Rattle.terms.specs.Faults.{terms_number, grades_row, ceiling_row, charge_row};

use crate::fault::TermsFault;
use faults::Limits;

const GRADES: Limits = Limits { least: 1, most: 16 };

const CEILING: Limits = Limits {
    least: 0,
    most: 4095,
};

const CHARGE: Limits = Limits {
    least: 0,
    most: 255,
};

pub fn checked_grades(grades: u32) -> Result<u8, TermsFault>
    ensures refused { refusal terms_number result ≡ first (grades_row grades) }
    ensures same { IfOk result (λ x. x ≡ grades) }
{
    let grades = GRADES.check(grades, TermsFault::GradesRange)?;
    Ok(grades as u8)
}

pub fn checked_ceiling(ceiling: u32) -> Result<u32, TermsFault>
    ensures refused { refusal terms_number result ≡ first (ceiling_row ceiling) }
    ensures same { IfOk result (λ x. x ≡ ceiling) }
{
    CEILING.check(ceiling, TermsFault::CeilingRange)
}

pub fn checked_charge(charge: u32) -> Result<u8, TermsFault>
    ensures refused { refusal terms_number result ≡ first (charge_row charge) }
    ensures same { IfOk result (λ x. x ≡ charge) }
{
    let charge = CHARGE.check(charge, TermsFault::ChargeRange)?;
    Ok(charge as u8)
}
