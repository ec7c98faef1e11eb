// Refusals 1 to 8 of a design, each over the whole input and in this order.
ghost use Rattle.std.specs.Prelude.{◌≡◌, ◌&&◌, ◌+◌, ◌<◌, ◌≤◌, T, length, take};
ghost use Rattle.model.specs.Judged.{all};
ghost use Rattle.layout.specs.Sizes.{side_count, other_blocks};
ghost use Rattle.layout.specs.Blocks.{formulas, rules, side_blocks, design_blocks};
ghost use Rattle.layout.specs.Designs.{held, Whole, design, side, side_block};
ghost use Rattle.refusals.specs.Counted.{asked_of, block, Counted};
ghost use Rattle.layout.specs.Tests.{side_right, kinds_right, forms_right, rules_right};
ghost use Rattle.refusals.specs.Refusals.{length_right, check_right, header_right, count_right, kinds_known, formulas_right, unused_right, design_refusal};
ghost use Rattle.refusals.specs.Answered.{refusal_of};

use crate::refusal::Refusal;
use crate::{blocks, state_tests};
use layout::{designs, sizes};

// ---- 1

// Whether the bytes are those of a block for each of two sides or of three, and of the two blocks behind them.
#[tactic(auto, using(std::proofs::lemmas::Bool::Decides::nat_tests), unfolding(crate::specs::Refusals::length_right))]
fn length_right(s: &[u8]) -> bool
    ensures { result ≡ length_right s.now }
{
    s.len() == sizes::BLOCK_BYTES * (sizes::LEAST_SIDES + sizes::OTHER_BLOCKS)
        || s.len() == sizes::BLOCK_BYTES * (sizes::SIDES + sizes::OTHER_BLOCKS)
}

// ---- 2, 3, 4: block by block

// What is asked of a block: its kind, and the limits of its record count.
#[derive(Clone, Copy)]
struct Asked {
    kind: usize,
    least: usize,
    most: usize,
}

const SIDE_KINDS: [usize; sizes::SIDES] = [1, 2, 6];

const FORMULAS: Asked = Asked {
    kind: 3,
    least: 0,
    most: sizes::MOST_FORMULAS,
};

const RULES: Asked = Asked {
    kind: 4,
    least: 0,
    most: sizes::MOST_RULES,
};

// Of block i, where n sides have one: behind theirs stand the formulas, and the rules last.
fn asked_at(n: usize, i: usize) -> Asked
    requires { (n ≤ side_count) × (i < n + other_blocks) }
    ensures { result ≡ asked_of (block n i) }
{
    if i < n {
        Asked {
            kind: SIDE_KINDS[i],
            least: 1,
            most: sizes::MOST_STATES,
        }
    } else if i == n {
        FORMULAS
    } else {
        RULES
    }
}

fn checks_right(s: &[u8]) -> bool
    requires { Whole s.now }
    ensures { result ≡ all (check_right s.now) (design_blocks (held s.now)) }
{
    let n = designs::held(s);
    (0..n + sizes::OTHER_BLOCKS).all(|i| blocks::check_right(s, sizes::BLOCK_BYTES * i))
}

fn headers_right(s: &[u8]) -> bool
    requires { Whole s.now }
    ensures { result ≡ all (header_right s.now) (design_blocks (held s.now)) }
{
    let n = designs::held(s);
    (0..n + sizes::OTHER_BLOCKS).all(|i| {
        let asked = asked_at(n, i);
        blocks::header_right(s, sizes::BLOCK_BYTES * i, asked.kind, 0)
    })
}

fn counts_right(s: &[u8]) -> bool
    requires { Whole s.now }
    ensures { result ≡ all (count_right s.now) (design_blocks (held s.now)) }
{
    let n = designs::held(s);
    (0..n + sizes::OTHER_BLOCKS).all(|i| {
        let asked = asked_at(n, i);
        blocks::count_right(s, sizes::BLOCK_BYTES * i, asked.least, asked.most)
    })
}

// ---- 5

// The states of side i.
fn side_right(s: &[u8], i: usize) -> bool
    requires { Counted s.now × (i < side_count) }
    ensures { result ≡ side_right (side (design s.now) i) }
{
    let n = designs::state_count(s, i);
    (0..n).all(|k| state_tests::state_right(designs::side_state(s, i, k), n))
}

fn sides_right(s: &[u8]) -> bool
    requires { Counted s.now }
    ensures { result ≡ all side_right (design s.now).sides }
{
    (0..sizes::SIDES).all(|i| side_right(s, i))
}

// ---- 6

fn side_kinds_right(s: &[u8], i: usize) -> bool
    requires { Counted s.now × (i < side_count) × T (side_right (side (design s.now) i)) }
    ensures { result ≡ kinds_right (side (design s.now) i) }
{
    let n = designs::state_count(s, i);
    (0..n).all(|k| state_tests::kind_right(designs::side_state(s, i, k)))
}

fn sides_kinds_right(s: &[u8]) -> bool
    requires { Counted s.now × T (all side_right (design s.now).sides) }
    ensures { result ≡ all kinds_right (design s.now).sides }
{
    (0..sizes::SIDES).all(|i| side_kinds_right(s, i))
}

// ---- 7

fn each_formula_right(s: &[u8]) -> bool
    requires { Counted s.now }
    ensures { result ≡ (kinds_known s.now && forms_right (design s.now).forms) }
{
    (0..designs::formula_count(s)).all(|k| designs::formula(s, k).is_right(k))
}

fn each_rule_right(s: &[u8]) -> bool
    requires { Counted s.now }
    ensures { result ≡ rules_right (length (design s.now).forms) (design s.now).rules }
{
    let formulas = designs::formula_count(s);
    (0..designs::rule_count(s)).all(|k| designs::rule(s, k) < formulas)
}

#[tactic(auto, using(std::proofs::lemmas::Bool::Decides::nat_tests), unfolding(crate::specs::Refusals::formulas_right))]
fn formulas_right(s: &[u8]) -> bool
    requires { Counted s.now }
    ensures { result ≡ formulas_right s.now }
{
    each_formula_right(s) && each_rule_right(s)
}

// ---- 8

// The block of side i, which has one.
fn side_unused_right(s: &[u8], i: usize) -> bool
    requires { Counted s.now × (i < held s.now) }
    ensures { result ≡ unused_right s.now (side_block i) }
{
    let at = sizes::BLOCK_BYTES * i;
    let n = designs::state_count(s, i);
    (0..n).all(|k| {
        blocks::state_unused_right(s, at + sizes::RECORDS_IN_BLOCK + sizes::STATE_BYTES * k)
    }) && blocks::behind_right(s, at, sizes::STATE_BYTES * n)
}

fn sides_unused_right(s: &[u8]) -> bool
    requires { Counted s.now }
    ensures { result ≡ all (unused_right s.now) (take (held s.now) side_blocks) }
{
    (0..designs::held(s)).all(|i| side_unused_right(s, i))
}

fn formulas_unused_right(s: &[u8]) -> bool
    requires { Counted s.now }
    ensures { result ≡ unused_right s.now (formulas (held s.now)) }
{
    let at = designs::formulas_at(s);
    let n = designs::formula_count(s);
    (0..n).all(|k| {
        blocks::formula_unused_right(s, at + sizes::RECORDS_IN_BLOCK + sizes::FORMULA_BYTES * k)
    }) && blocks::behind_right(s, at, sizes::FORMULA_BYTES * n)
}

fn rules_unused_right(s: &[u8]) -> bool
    requires { Counted s.now }
    ensures { result ≡ unused_right s.now (rules (held s.now)) }
{
    blocks::behind_right(s, designs::rules_at(s), designs::rule_count(s))
}

#[tactic(auto, using(std::proofs::lemmas::Bool::Decides::nat_tests, crate::proofs::DesignBlocks::sides_first))]
fn unused_right(s: &[u8]) -> bool
    requires { Counted s.now }
    ensures { result ≡ all (unused_right s.now) (design_blocks (held s.now)) }
{
    sides_unused_right(s) && formulas_unused_right(s) && rules_unused_right(s)
}

// The first of 1 to 8 that a design fails.
#[tactic(auto, using(std::proofs::lemmas::Bool::Decides::nat_tests, crate::proofs::CountedBytes::long, crate::proofs::CountedBytes::limits), unfolding(crate::specs::Refusals::design_refusal, crate::specs::Refusals::first_failing))]
pub fn design_refusal(s: &[u8]) -> Result<(), Refusal>
    ensures { refusal_of result ≡ design_refusal s.now }
{
    if !length_right(s) {
        return Err(Refusal::Length);
    }
    if !checks_right(s) {
        return Err(Refusal::BlockCheck);
    }
    if !headers_right(s) {
        return Err(Refusal::BlockHeader);
    }
    if !counts_right(s) {
        return Err(Refusal::RecordCount);
    }
    if !sides_right(s) {
        return Err(Refusal::State);
    }
    if !sides_kinds_right(s) {
        return Err(Refusal::StateKind);
    }
    if !formulas_right(s) {
        return Err(Refusal::Formula);
    }
    if !unused_right(s) {
        return Err(Refusal::UnusedByte);
    }
    Ok(())
}
