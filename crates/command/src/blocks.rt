// The offers of an own block: a pair of fields for each grade.
ghost use Rattle.std.specs.Prelude.{◌≡◌, ◌+◌, ◌*◌, ◌<◌, ◌≤◌, [], None, MatchResult, slice_index_or};
ghost use Rattle.faults.specs.Refusals.{first};
ghost use Rattle.jobtext.specs.Parts.{line_fields};
ghost use Rattle.offers.specs.Faults.{rate_row};
ghost use Rattle.offers.specs.Own.{own_means};
ghost use Rattle.command.specs.Demands.{NoDistortion, pairs, FirstFails};
ghost use Rattle.command.specs.Faults.{fault_number, fault_layer};
ghost use Rattle.command.specs.Fields.{bytes_in};
ghost use Rattle.command.specs.Pairs.{OfferRead, PairRead, OwnRead};

use crate::fault::FieldFault;
use crate::fields::Field;
use offers::OwnBlock;

// Sets the offer of a grade: the rate, and the distortion in the field. Grade and rate are in range, so only the distortion
// can be refused.
fn set_offer(field: Field, block: &mut OwnBlock, grade: u8, rate: u32) -> Result<(), FieldFault>
    requires { (grade < 16) × (first (rate_row rate) ≡ None) }
    ensures { MatchResult result (λ _. OfferRead (bytes_in field.entry) rate block.old block.new grade) (λ found. (found.field ≡ field.entry.number) × NoDistortion (bytes_in field.entry) (fault_layer found.fault) (fault_number found.fault)) }
{
    let distortion = field.number()?;
    field.here(block.set(grade, rate, distortion))
}

// Reads the pair of a grade into a block that has no offer there.
fn read_pair(line: &[u8], block: &mut OwnBlock, grade: u8) -> Result<(), FieldFault>
    requires { (grade < 16) × (own_means block.old grade ≡ None) }
    ensures { MatchResult result (λ _. PairRead (line_fields line.now) (3 + 2 * grade) block.old block.new grade) (λ found. FirstFails (pairs 1) [] (line_fields line.now) (3 + 2 * grade) found.field (fault_layer found.fault) (fault_number found.fault)) }
{
    let first = 4 + 2 * u32::from(grade);
    let second = Field::of(line, first + 1);
    match Field::of(line, first).rate()? {
        Some(rate) => set_offer(second, block, grade, rate),
        None => second.dash(),
    }
}

// A block of the offers that a line writes from its fourth field on.
pub(crate) fn own_block(line: &[u8], grades: u8) -> Result<OwnBlock, FieldFault>
    requires { grades ≤ 16 }
    ensures { MatchResult result (λ block. OwnRead (line_fields line.now) grades block) (λ found. FirstFails (pairs grades) (slice_index_or (line_fields line.now) 2 []) (line_fields line.now) 3 found.field (fault_layer found.fault) (fault_number found.fault)) }
{
    let mut block = OwnBlock::new();
    for grade in 0..grades {
        read_pair(line, &mut block, grade)?;
    }
    Ok(block)
}
