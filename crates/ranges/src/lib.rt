// Waits known by range: chosen delayed states of a design are replaced by states that count.
#![tactic(auto)]

ghost use Rattle.std.specs.Prelude.{◌≡◌};
ghost use Rattle.refusals.specs.Answered.{refusal_of};
ghost use Rattle.ranges.specs.Ranges.{ranges_refusal, Ranges};

mod blocks;
mod counting;
mod entries;
mod tests;

use layout::{designs, ranges as bytes};
use refusals::design_tests;
use refusals::refusal::Refusal;

// The first of 1 to 8, 22, 23 and 12 that holds, with so much room lent for the result.
fn ranges_refusal(design: &[u8], list: &[u8], room: usize) -> Result<(), Refusal>
    ensures { refusal_of result ≡ ranges_refusal design.now list.now room }
{
    design_tests::design_refusal(design)?;
    if !tests::list_right(design, list) {
        return Err(Refusal::RangeList);
    }
    if !tests::sides_fit(design, list) {
        return Err(Refusal::SideSize);
    }
    if room < design.len() {
        return Err(Refusal::Room);
    }
    Ok(())
}

// The design in which the states that the list names count their waits.
pub fn ranges(design: &[u8], list: &[u8], res: &mut [u8]) -> Result<(), Refusal>
    ensures { Ranges design.now list.now res.old result res.new }
{
    ranges_refusal(design, list, res.len())?;
    blocks::write_sides(design, list, res);
    let behind = designs::formulas_at(design);
    bytes::copy(design, behind, res, behind, design.len() - behind);
    Ok(())
}
