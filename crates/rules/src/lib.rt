// Rules as people type them: text in, the blocks of formulas and of rules out.
#![tactic(auto)]

ghost use Rattle.std.specs.Prelude.{◌≡◌};
ghost use Rattle.rules.specs.Rules.{Ruling};

mod lines;
mod parts;
mod prefixes;
mod readers;
mod records;

use layout::{blocks, sizes};
use records::Store;
use refusals::refusal::Refusal;

// The blocks of kinds 3 and 4 that are made of a text; the answer is how many rules it has.
pub fn rules(text: &[u8], res: &mut [u8]) -> Result<usize, Refusal>
    ensures { Ruling text.now res.old result res.new }
{
    let mut store = Store::new();
    let mut numbers = [0u8; sizes::MOST_RULES];
    let Some(read) = lines::read_lines(text, &mut store, &mut numbers) else {
        return Err(Refusal::Text);
    };
    lines::text_refusal(read, res.len())?;
    let count = read.count;
    let n = read.rules;
    blocks::write(
        res,
        0,
        3,
        count as u8,
        0,
        &store.records,
        0,
        sizes::FORMULA_BYTES * count,
    );
    blocks::write(res, sizes::BLOCK_BYTES, 4, n as u8, 0, &numbers, 0, n);
    Ok(n)
}
