// Rows of the quick verdict. 0 is yes; below it stands the place of the rule that is blamed, or 99 for none.
ghost use Rattle.std.specs.Prelude.{◌≤◌, length};
ghost use Rattle.layout.specs.Sizes.{most_rules};

use judge::quick;
use refusals::refusal::Refusal;
use row_parts::{designs, lines, tables};

// The converter that enables the first input of the fork alone.
const FORK_FIRST: [u8; 104] = *b"\
    \0\0\0\x01\0\xff\0\0\x01\0\0\0\0\0\0\0\0\0\0\0\0\0\0\0\0\0\0\0\0\0\0\0\0\0\0\0\0\0\0\0\0\0\0\0\0\0\0\0\0\0\0\0\
    \0\x01\0\x01\0\0\0\0\x01\0\0\0\0\0\0\0\0\0\0\0\0\0\0\0\0\0\0\0\0\0\0\0\0\0\0\0\0\0\0\0\0\0\0\0\0\0\0\0\0\0\0\0";

// Sixteen rules out of the paper's four: the fourth stands at places 5, 9 and 15.
const SIXTEEN: [u8; 16] = [26, 17, 8, 8, 26, 35, 8, 17, 26, 35, 8, 8, 17, 17, 26, 35];

// An answer as two numbers: the call's, and the place.
fn numbers(a: Result<quick::Outcome, Refusal>) -> (u64, u64) {
    match a {
        Ok(quick::Outcome::Yes) => (0, 99),
        Ok(quick::Outcome::Fails(k)) => (15, u64::from(k)),
        Err(refusal) => (u64::from(refusal.number()), 99),
    }
}

// The answer with so many of the lent bytes, and whether the work is left as it should be: 7 everywhere at first, then 0 in so many bytes.
fn blamed(rt: &impl Print, words: &str, d: &[u8], converter: &[u8], room: usize, cleared: usize)
    requires { (room ≤ 70) × (cleared ≤ 70) }
{
    let mut lent = [7u8; 70];
    let mut expected = [7u8; 70];
    let (said, rule) = numbers(quick::verdict(d, converter, &mut lent[..room]));
    lines::line(rt, words, said);
    lines::line(rt, "  rule", rule);
    expected[..cleared].fill(0);
    lines::yes_or_no(rt, "  work as promised", lent == expected);
}

// A converter of the handshake pair against these of the paper's rules.
fn handshake(
    rt: &impl Print,
    words: &str,
    formulas: &[u8; 144],
    rules: &[u8],
    converter: &[u8],
    room: usize,
    cleared: usize,
)
    requires { (length rules.now ≤ most_rules) × (room ≤ 70) × (cleared ≤ 70) }
{
    let mut d = [0u8; 2048];
    designs::design(&mut d, &tables::H_KERNEL, &tables::H_HOST, formulas, rules);
    blamed(rt, words, &d, converter, room, cleared);
}

// A converter of the fork against these rules over AX 16 and AX 17.
fn fork(rt: &impl Print, words: &str, rules: &[u8], converter: &[u8], cleared: usize)
    requires { (length rules.now ≤ most_rules) × (cleared ≤ 70) }
{
    let mut d = [0u8; 2048];
    designs::design(
        &mut d,
        &tables::TICKING,
        &tables::FORK,
        &tables::EITHER,
        rules,
    );
    blamed(rt, words, &d, converter, 70, cleared);
}

fn of_handshake(rt: &impl Print) {
    handshake(
        rt,
        "quick: F, the four rules as printed",
        &tables::PRINTED,
        &tables::FOUR,
        &tables::F,
        70,
        48,
    );
    handshake(
        rt,
        "quick: F, the four rules as printed, the last first",
        &tables::PRINTED,
        &[35, 26, 17, 8],
        &tables::F,
        48,
        48,
    );
    handshake(
        rt,
        "quick: F, sixteen rules, the fourth at places 5, 9 and 15",
        &tables::PRINTED,
        &SIXTEEN,
        &tables::F,
        70,
        48,
    );
    handshake(
        rt,
        "quick: F, the fourth rule mended",
        &tables::MENDED,
        &tables::FOUR,
        &tables::F,
        70,
        48,
    );
    handshake(
        rt,
        "quick: F, sixteen rules, the fourth mended",
        &tables::MENDED,
        &SIXTEEN,
        &tables::F,
        70,
        48,
    );
    handshake(
        rt,
        "quick: F without rules",
        &tables::PRINTED,
        &[],
        &tables::F,
        70,
        48,
    );
}

fn refused(rt: &impl Print) {
    handshake(
        rt,
        "quick: F without (0,0) in record 0",
        &tables::PRINTED,
        &tables::FOUR,
        &tables::F_DEAF,
        70,
        48,
    );
    handshake(
        rt,
        "quick: F, 47 bytes of work",
        &tables::PRINTED,
        &tables::FOUR,
        &tables::F,
        47,
        0,
    );
    handshake(
        rt,
        "quick: F without its last record, 47 bytes of work",
        &tables::PRINTED,
        &tables::FOUR,
        &tables::F[..104],
        47,
        0,
    );
    handshake(
        rt,
        "quick: F without its last byte",
        &tables::PRINTED,
        &tables::FOUR,
        &tables::F[..155],
        70,
        0,
    );
    handshake(
        rt,
        "quick: a rule that names no formula, F without its last byte",
        &tables::PRINTED,
        &[36],
        &tables::F[..155],
        70,
        0,
    );
}

pub fn rows(rt: &impl Print) {
    of_handshake(rt);
    fork(
        rt,
        "quick: both inputs of h0, (AX 16) or (AX 17)",
        &[4],
        &tables::FORK_OPEN,
        48,
    );
    fork(
        rt,
        "quick: the first input of h0, AX 16 and AX 17",
        &[2, 3],
        &FORK_FIRST,
        32,
    );
    refused(rt);
}
