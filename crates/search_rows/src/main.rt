// Runs the rows of the specification on the search. For each it writes a line: what was searched, and 0 for a converter found or the number of the refusal; then
// the positions of the design, and what the judge says of the converter found.
#![tactic(auto)]

ghost use Rattle.std.specs.Prelude.{◌*◌, ◌≤◌, length};
ghost use Rattle.layout.specs.Sizes.{formula_bytes, most_formulas, most_rules};

use layout::sizes;
use refusals::design_tests;
use row_parts::{designs, lines, tables};

// What the judge answers of a converter, as a number.
fn judged(d: &[u8], converter: &[u8], work: &mut [u8]) -> u64 {
    let mut waits = [7u32; 16];
    lines::number(judge::judge(d, converter, work, &mut waits))
}

// The positions of a design that isn't refused, 65,537 where there are more than 65,536.
fn positions(rt: &impl Print, d: &[u8]) {
    if let Ok(()) = design_tests::design_refusal(d) {
        lines::line(rt, "  positions", positions::positions_of(d) as u64);
    }
}

// Searches with room for 1,024 positions.
fn searched(rt: &impl Print, words: &str, d: &[u8]) {
    let mut table = [7u8; 53248];
    let mut work = [7u8; 16384];
    let outcome = search::search(d, &mut table, &mut work);
    lines::line(rt, words, lines::number(outcome));
    positions(rt, d);
    if let Ok(n) = outcome {
        let converter = &table[..sizes::RECORD_BYTES * (n as usize)];
        lines::line(rt, "  judged", judged(d, converter, &mut work));
    }
}

// The handshake pair with these formulas and rules.
fn pair(rt: &impl Print, words: &str, formulas: &[u8], rules: &[u8])
    requires { (length formulas.now ≤ formula_bytes * most_formulas) × (length rules.now ≤ most_rules) }
{
    let mut d = [0u8; 2048];
    designs::design(&mut d, &tables::H_KERNEL, &tables::H_HOST, formulas, rules);
    searched(rt, words, &d);
}

// The fork with these formulas and rules.
fn fork(rt: &impl Print, words: &str, formulas: &[u8], rules: &[u8])
    requires { (length formulas.now ≤ formula_bytes * most_formulas) × (length rules.now ≤ most_rules) }
{
    let mut d = [0u8; 2048];
    designs::design(&mut d, &tables::TICKING, &tables::FORK, formulas, rules);
    searched(rt, words, &d);
}

// Lock and menu with these formulas and rules.
fn lock_and_menu(rt: &impl Print, words: &str, formulas: &[u8], rules: &[u8])
    requires { (length formulas.now ≤ formula_bytes * most_formulas) × (length rules.now ≤ most_rules) }
{
    let mut d = [0u8; 2048];
    designs::design(&mut d, &tables::LOCK, &tables::MENU, formulas, rules);
    searched(rt, words, &d);
}

// Three sides with these formulas and rules: two that only tick, and the fork.
fn third_fork(rt: &impl Print, words: &str, formulas: &[u8], rules: &[u8])
    requires { (length formulas.now ≤ formula_bytes * most_formulas) × (length rules.now ≤ most_rules) }
{
    let mut d = [0u8; 2560];
    designs::design_of_three(
        &mut d,
        &tables::TICKING,
        &tables::TICKING,
        &tables::FORK,
        formulas,
        rules,
    );
    searched(rt, words, &d);
}

// The handshake pair beside a third side that has a block and only ticks.
fn pair_and_third(rt: &impl Print, words: &str, formulas: &[u8], rules: &[u8])
    requires { (length formulas.now ≤ formula_bytes * most_formulas) × (length rules.now ≤ most_rules) }
{
    let mut d = [0u8; 2560];
    designs::design_of_three(
        &mut d,
        &tables::H_KERNEL,
        &tables::H_HOST,
        &tables::TICKING,
        formulas,
        rules,
    );
    searched(rt, words, &d);
}

// The handshake pair with A(true U 1), after s0 is given a least and a greatest count of waits.
fn waiting(rt: &impl Print, words: &str, least: u8, greatest: u8) {
    let mut d = [0u8; 2048];
    designs::design(
        &mut d,
        &tables::H_KERNEL,
        &tables::H_HOST,
        &tables::UNTIL,
        &[2],
    );
    let mut new = [0u8; 2048];
    match ranges::ranges(&d, &[0, 0, least, greatest], &mut new) {
        Ok(()) => searched(rt, words, &new),
        Err(refusal) => lines::line(rt, words, u64::from(refusal.number())),
    }
}

fn in_turn(rt: &impl Print) {
    let mut d = [0u8; 2048];
    designs::design(
        &mut d,
        &tables::TURNS,
        &tables::TICKING,
        &tables::TURNS_ALWAYS,
        &[6],
    );
    searched(
        rt,
        "search: two states in turn, AG(A(true U 0) and A(true U 1))",
        &d,
    );
}

fn main(rt: HostRuntime) {
    let rt = &rt;
    pair(rt, "search: H, no rules", &[], &[]);
    pair(
        rt,
        "search: H, the four rules as printed",
        &tables::PRINTED,
        &tables::FOUR,
    );
    pair(
        rt,
        "search: H, the fourth rule mended",
        &tables::MENDED,
        &tables::FOUR,
    );
    pair(rt, "search: H, A(true U 1)", &tables::UNTIL, &[2]);
    waiting(rt, "search: H with s0 at 0 to 2, A(true U 1)", 0, 2);
    waiting(rt, "search: H with s0 at 2 or more, A(true U 1)", 2, 255);
    in_turn(rt);
    fork(rt, "search: (AX 16) or (AX 17)", &tables::EITHER, &[4]);
    fork(rt, "search: (AX 16) and (AX 17)", &tables::BOTH, &[4]);
    fork(
        rt,
        "search: AX 16 and AX 17, two rules",
        &tables::NEXTS,
        &[2, 3],
    );
    lock_and_menu(
        rt,
        "search: lock and menu, 3 and AX 19",
        &tables::LOCK_THEN_MENU,
        &[0, 2],
    );
    lock_and_menu(rt, "search: lock and menu, 19", &tables::MENU_NOW, &[0]);
    lock_and_menu(rt, "search: lock and menu, AX 3", &tables::LOCK_NEXT, &[1]);
    pair(rt, "search: H, 12 untils", &tables::UNTILS, &[]);
    pair_and_third(
        rt,
        "search: H and a third side, the four rules as printed",
        &tables::PRINTED,
        &tables::FOUR,
    );
    pair_and_third(
        rt,
        "search: H and a third side, the fourth rule mended",
        &tables::MENDED,
        &tables::FOUR,
    );
    third_fork(
        rt,
        "search: the third side, (AX 32) or (AX 33)",
        &tables::THIRD_EITHER,
        &[4],
    );
    third_fork(
        rt,
        "search: the third side, (AX 32) and (AX 33)",
        &tables::THIRD_BOTH,
        &[4],
    );
}
