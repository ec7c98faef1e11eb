// Rows of the judge. 0 is yes.
ghost use Rattle.std.specs.Prelude.{◌*◌, ◌≤◌, length};
ghost use Rattle.layout.specs.Sizes.{formula_bytes, most_formulas, most_rules};

use row_parts::{designs, lines, tables};

// The judge's answer as a number.
fn answer(d: &[u8], converter: &[u8], lent: &mut [u8]) -> u64 {
    let mut waits = [7u32; 16];
    lines::number(judge::judge(d, converter, lent, &mut waits))
}

// The answer with so many of the lent bytes, and whether the work is left as it should be: 7 everywhere at first, then 0 in so many bytes.
fn judged(rt: &impl Print, words: &str, d: &[u8], converter: &[u8], room: usize, cleared: usize)
    requires { (room ≤ 70) × (cleared ≤ 70) }
{
    let mut lent = [7u8; 70];
    let mut expected = [7u8; 70];
    lines::line(rt, words, answer(d, converter, &mut lent[..room]));
    expected[..cleared].fill(0);
    lines::yes_or_no(rt, "  work as promised", lent == expected);
}

// A converter of the handshake pair against the paper's four rules.
fn four(
    rt: &impl Print,
    words: &str,
    rules: &[u8; 144],
    converter: &[u8],
    room: usize,
    cleared: usize,
)
    requires { (room ≤ 70) × (cleared ≤ 70) }
{
    let mut d = [0u8; 2048];
    designs::design(
        &mut d,
        &tables::H_KERNEL,
        &tables::H_HOST,
        rules,
        &tables::FOUR,
    );
    judged(rt, words, &d, converter, room, cleared);
}

// And with the fourth mended.
fn mended(rt: &impl Print, words: &str, converter: &[u8], room: usize, cleared: usize)
    requires { (room ≤ 70) × (cleared ≤ 70) }
{
    four(rt, words, &tables::MENDED, converter, room, cleared);
}

// The converter that enables both inputs of the fork.
fn open_fork(rt: &impl Print) {
    let mut d = [0u8; 2048];
    designs::design(
        &mut d,
        &tables::TICKING,
        &tables::FORK,
        &tables::EITHER,
        &[4],
    );
    judged(
        rt,
        "both inputs of h0, (AX 16) or (AX 17)",
        &d,
        &tables::FORK_OPEN,
        70,
        48,
    );
}

// The converter that lets lock and menu tick, against these formulas and rules.
fn in_step(rt: &impl Print, words: &str, formulas: &[u8], rules: &[u8])
    requires { (length formulas.now ≤ formula_bytes * most_formulas) × (length rules.now ≤ most_rules) }
{
    let mut d = [0u8; 2048];
    designs::design(&mut d, &tables::LOCK, &tables::MENU, formulas, rules);
    judged(rt, words, &d, &tables::IN_STEP, 70, 32);
}

// One record for three sides of one state each, without rules. The kernel ticks or sends 1, the third side sends 3 or ticks.
fn three_sides(rt: &impl Print) {
    for (words, host, converter) in [
        (
            "two delayed and one input, a transition for each of four choices",
            &tables::READS,
            &tables::FOUR_CHOICES,
        ),
        (
            "the same without the last",
            &tables::READS,
            &tables::THREE_CHOICES,
        ),
        (
            "three delayed, all eight joint moves",
            &tables::SENDS_2,
            &tables::ALL_EIGHT,
        ),
        (
            "the same without the last",
            &tables::SENDS_2,
            &tables::SEVEN,
        ),
    ] {
        let mut d = [0u8; 2560];
        designs::design_of_three(&mut d, &tables::SENDS_1, host, &tables::SENDS_3, &[], &[]);
        judged(rt, words, &d, converter, 70, 16);
    }
}

// A design that 9 keeps from the search is judged.
fn too_large_to_search(rt: &impl Print) {
    let mut d = [0u8; 2048];
    designs::design(
        &mut d,
        &tables::H_KERNEL,
        &tables::H_HOST,
        &tables::UNTILS,
        &[],
    );
    judged(rt, "F, 196608 positions", &d, &tables::F, 48, 48);
}

pub fn rows(rt: &impl Print) {
    four(
        rt,
        "F, the four rules as printed",
        &tables::PRINTED,
        &tables::F,
        70,
        48,
    );
    mended(rt, "F, the fourth rule mended", &tables::F, 70, 48);
    mended(rt, "F without (0,0) in record 0", &tables::F_DEAF, 70, 48);
    mended(
        rt,
        "F with (0,-1) as a third transition of record 0",
        &tables::F_THIRD,
        70,
        64,
    );
    mended(rt, "F without its last byte", &tables::F[..155], 70, 0);
    mended(rt, "a converter of 0 bytes", &[], 70, 0);
    mended(rt, "F without its last record", &tables::F[..104], 70, 0);
    open_fork(rt);
    in_step(
        rt,
        "lock and menu, 3 and AX 19",
        &tables::LOCK_THEN_MENU,
        &[0, 2],
    );
    in_step(rt, "lock and menu, 19", &tables::MENU_NOW, &[0]);
    in_step(rt, "lock and menu, AX 3", &tables::LOCK_NEXT, &[1]);
    three_sides(rt);
    too_large_to_search(rt);
    mended(rt, "F, 47 bytes of work", &tables::F, 47, 0);
}
