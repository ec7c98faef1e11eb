// The judge: whether a converter is matched to the sides of a design and keeps every rule, over lent work of 16 bytes a record; and how long its rules wait, in a lent list.
#![tactic(auto)]

ghost use Rattle.std.specs.Prelude.{◌≡◌};
ghost use Rattle.refusals.specs.Answered.{refusal_of};
ghost use Rattle.judge.specs.Judge.{judge_refusal, Judges};

pub mod quick;
mod rules;

use layout::{designs, sizes};
use refusals::refusal::Refusal;
use refusals::{converters, design_tests};

// The first of 1 to 8 and 10 to 13 that holds, with so much room lent for the cells and so many numbers for the waits.
fn judge_refusal(design: &[u8], converter: &[u8], room: usize, listed: usize) -> Result<(), Refusal>
    ensures { refusal_of result ≡ judge_refusal design.now converter.now room listed }
{
    design_tests::design_refusal(design)?;
    converters::converter_refusal(converter)?;
    if listed < designs::rule_count(design) {
        return Err(Refusal::Room);
    }
    if room < sizes::CELL_BYTES * converters::count(converter) {
        return Err(Refusal::Work);
    }
    Ok(())
}

// Whether the converter works for the design, and after a yes how long each rule waits. The cells that were used are cleared last.
pub fn judge(
    design: &[u8],
    converter: &[u8],
    work: &mut [u8],
    waits: &mut [u32],
) -> Result<(), Refusal>
    ensures { Judges design.now converter.now work.old waits.old result work.new waits.new }
{
    judge_refusal(design, converter, work.len(), waits.len())?;
    let found = rules::verdict(design, converter, work, waits);
    work[..sizes::CELL_BYTES * converters::count(converter)].fill(0);
    found
}
