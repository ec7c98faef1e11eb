// The calls for C, as include/gorzhani.h declares them, and for Rust. A slice is a pointer and a length, a lent struct a pointer. Each call is the proved
// call below it, and its answer is a number: -k for a refusal k, a count, or 0 for "yes" and "done". specs/Calls says what each promises.
#![tactic(auto)]

ghost use Rattle.std.specs.Prelude.{◌≡◌, [], ◌∷◌, ◌≤◌, pos, IfOk};
ghost use Rattle.layout.specs.Sizes.{most_records};
ghost use Rattle.refusals.specs.Answered.{number, answered};
ghost use Rattle.gorzhani.specs.Codes.{refusal_code, count_code, done_code};
ghost use Rattle.gorzhani.specs.Calls.{positions_number, SearchCall, JudgeCall, VerdictCall, WriteCall, ReadCall, TickCall, RangesCall, RulesCall};

use files::{reader, writer};
use judge::quick;
use judge::quick::Outcome;
use layout::sizes;
use refusals::design_tests;
use refusals::refusal::Refusal;
use runner::Runner;

// A refusal's number, negated.
fn refused(refusal: Refusal) -> i32
    ensures { result ≡ refusal_code (number refusal) }
{
    -i32::from(refusal.number())
}

// A count of records, of blocks, of rules or of positions.
fn counted(n: usize) -> i32
    requires { n ≤ most_records }
    ensures { result ≡ pos n }
{
    n as i32
}

// The number of an answer that is a count.
fn count_code(answer: Result<usize, Refusal>) -> i32
    requires { IfOk answer (λ n. n ≤ most_records) }
    ensures { result ≡ count_code (answered answer) }
{
    match answer {
        Ok(n) => counted(n),
        Err(refusal) => refused(refusal),
    }
}

// The number of an answer that is no more than "yes" or "done".
fn done_code(answer: Result<(), Refusal>) -> i32
    ensures { result ≡ done_code (answered answer) }
{
    match answer {
        Ok(()) => 0,
        Err(refusal) => refused(refusal),
    }
}

// The positions of a design that none of 1 to 9 refuses.
fn all_positions(design: &[u8]) -> Result<usize, Refusal>
    ensures few { IfOk result (λ n. n ≤ most_records) }
    ensures number { count_code (answered result) ≡ positions_number design.now }
{
    design_tests::design_refusal(design)?;
    let n = positions::positions_of(design);
    if sizes::MOST_POSITIONS < n {
        return Err(Refusal::Positions);
    }
    Ok(n)
}

// The positions of a design, for each of which a search is lent table and work.
#[unsafe(no_mangle)]
pub extern "C" fn gorzhani_positions(design: &[u8]) -> i32
    ensures { result ≡ positions_number design.now }
{
    count_code(all_positions(design))
}

// The search: the count of records.
#[unsafe(no_mangle)]
pub extern "C" fn gorzhani_search(design: &[u8], table: &mut [u8], work: &mut [u8]) -> i32
    ensures { SearchCall design.now table.old work.old result table.new work.new }
{
    match search::search(design, table, work) {
        Ok(n) => counted(n as usize),
        Err(refusal) => refused(refusal),
    }
}

// The judge: 0 for a yes, with the waits of the rules.
#[unsafe(no_mangle)]
pub extern "C" fn gorzhani_judge(
    design: &[u8],
    converter: &[u8],
    work: &mut [u8],
    waits: &mut [u32],
) -> i32
    ensures { JudgeCall design.now converter.now work.old waits.old result work.new waits.new }
{
    done_code(judge::judge(design, converter, work, waits))
}

// The quick verdict: 0 for a yes; with -15 alone the place of the first rule that fails is written.
#[unsafe(no_mangle)]
pub extern "C" fn gorzhani_verdict(
    design: &[u8],
    converter: &[u8],
    work: &mut [u8],
    rule: &mut u8,
) -> i32
    ensures { VerdictCall design.now converter.now work.old rule.old result work.new rule.new }
{
    match quick::verdict(design, converter, work) {
        Ok(Outcome::Yes) => 0,
        Ok(Outcome::Fails(k)) => {
            *rule = k;
            refused(Refusal::RuleFails)
        }
        Err(refusal) => refused(refusal),
    }
}

// The writer: the count of blocks.
#[unsafe(no_mangle)]
pub extern "C" fn gorzhani_write(converter: &[u8], blocks: &mut [u8]) -> i32
    ensures { WriteCall converter.now blocks.old result blocks.new }
{
    count_code(writer::write(converter, blocks))
}

// The block reader: the count of records.
#[unsafe(no_mangle)]
pub extern "C" fn gorzhani_read(blocks: &[u8], converter: &mut [u8]) -> i32
    ensures { ReadCall blocks.now converter.old result converter.new }
{
    count_code(reader::read(blocks, converter))
}

// One tick: 0 where it is done.
#[unsafe(no_mangle)]
pub extern "C" fn gorzhani_tick(
    converter: &[u8],
    runner: &mut Runner,
    first: i8,
    second: i8,
    third: i8,
) -> i32
    ensures { TickCall converter.now runner.old (first ∷ second ∷ third ∷ []) result runner.new }
{
    done_code(runner::tick(converter, runner, first, second, third))
}

// Waits known by range: 0 where the new design is written.
#[unsafe(no_mangle)]
pub extern "C" fn gorzhani_ranges(design: &[u8], entries: &[u8], res: &mut [u8]) -> i32
    ensures { RangesCall design.now entries.now res.old result res.new }
{
    done_code(ranges::ranges(design, entries, res))
}

// Rules as people type them: the count of rules, whose blocks are written.
#[unsafe(no_mangle)]
pub extern "C" fn gorzhani_rules(text: &[u8], blocks: &mut [u8]) -> i32
    ensures { RulesCall text.now blocks.old result blocks.new }
{
    count_code(rules::rules(text, blocks))
}
