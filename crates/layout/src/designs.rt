// What a design holds, by number: the states of each side, the formulas and the rules. Sides are numbered from 0.
ghost use Rattle.std.specs.Prelude.{◌≡◌, ◌<◌, map, length, slice_index};
ghost use Rattle.layout.specs.Sizes.{side_count, most_states, most_formulas, most_rules};
ghost use Rattle.layout.specs.Blocks.{formulas, rules};
ghost use Rattle.layout.specs.Designs.{held, Whole, design, side, stored_state, stored_formula};

use crate::formulas::FormulaRecord;
use crate::states::{Place, StateRecord};
use crate::{formulas, sizes, states, words};

// How many sides have a block of their own; a side that has none rests.
pub fn held(s: &[u8]) -> usize
    requires { Whole s.now }
    ensures { result ≡ held s.now }
{
    s.len() / sizes::BLOCK_BYTES - sizes::OTHER_BLOCKS
}

// Where the blocks of formulas and of rules stand, behind those of the sides.
pub fn formulas_at(s: &[u8]) -> usize
    requires { Whole s.now }
    ensures { result ≡ (formulas (held s.now)).at }
{
    sizes::BLOCK_BYTES * held(s)
}

pub fn rules_at(s: &[u8]) -> usize
    requires { Whole s.now }
    ensures { result ≡ (rules (held s.now)).at }
{
    sizes::BLOCK_BYTES * (held(s) + 1)
}

// How many states side i has.
pub fn state_count(s: &[u8], i: usize) -> usize
    requires { Whole s.now × (i < side_count) }
    ensures { result ≡ length (side (design s.now) i) }
{
    if i < held(s) {
        words::read_byte(s, sizes::BLOCK_BYTES * i + sizes::COUNT_IN_BLOCK)
    } else {
        1
    }
}

// How many states each side has.
pub fn state_counts(s: &[u8]) -> [usize; sizes::SIDES]
    requires { Whole s.now }
    ensures { result ≡ map length (design s.now).sides }
{
    std::array::from_fn(|i| state_count(s, i))
}

// State k of side i.
pub fn side_state(s: &[u8], i: usize, k: usize) -> StateRecord
    requires { (Whole s.now) × (i < side_count) × (k < most_states) }
    ensures { result ≡ stored_state s.now i k }
{
    if i < held(s) {
        states::read_state(
            s,
            sizes::BLOCK_BYTES * i + sizes::RECORDS_IN_BLOCK + sizes::STATE_BYTES * k,
        )
    } else {
        let waits = Place {
            event: 0,
            target: 0,
        };
        StateRecord {
            label: 0,
            count: 1,
            places: [waits; sizes::PLACES],
        }
    }
}

pub fn formula_count(s: &[u8]) -> usize
    requires { Whole s.now }
    ensures { result ≡ length (design s.now).forms }
{
    words::read_byte(s, formulas_at(s) + sizes::COUNT_IN_BLOCK)
}

pub fn formula(s: &[u8], k: usize) -> FormulaRecord
    requires { (Whole s.now) × (k < most_formulas) }
    ensures { result ≡ stored_formula s.now k }
{
    formulas::read_formula(
        s,
        formulas_at(s) + sizes::RECORDS_IN_BLOCK + sizes::FORMULA_BYTES * k,
    )
}

pub fn rule_count(s: &[u8]) -> usize
    requires { Whole s.now }
    ensures { result ≡ length (design s.now).rules }
{
    words::read_byte(s, rules_at(s) + sizes::COUNT_IN_BLOCK)
}

// The formula number of rule k.
pub fn rule(s: &[u8], k: usize) -> usize
    requires { (Whole s.now) × (k < length (design s.now).rules) × (k < most_rules) }
    ensures { result ≡ slice_index (design s.now).rules k }
{
    words::read_byte(s, rules_at(s) + sizes::RECORDS_IN_BLOCK + k)
}
