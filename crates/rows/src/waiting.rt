// Rows of the waits. 0 is yes; below it stand the five numbers of a list after, each 7 at first.
ghost use Rattle.std.specs.Prelude.{◌*◌, ◌≤◌, length};
ghost use Rattle.layout.specs.Sizes.{state_bytes, formula_bytes, most_states, most_formulas, most_rules};

use row_parts::{designs, lines, tables};

// ---- H with s0 at 0 to 0, at 0 to 1 and at 0 to 2 waits: s0, s1, and the counts of s0 from 1 on; and converters that leave t0 alone, a record for each of these

const AT_ONCE: [u8; 40] = *b"\
    \x01\0\x01\0\xff\x01\0\0\0\0\0\0\0\0\0\0\0\0\0\0\
    \x02\0\x02\0\0\x01\xfe\0\0\0\0\0\0\0\0\0\0\0\0\0";

const BY_ONE: [u8; 60] = *b"\
    \x01\0\x02\0\0\x02\xff\x01\0\0\0\0\0\0\0\0\0\0\0\0\
    \x02\0\x02\0\0\x01\xfe\0\0\0\0\0\0\0\0\0\0\0\0\0\
    \x01\0\x01\0\xff\x01\0\0\0\0\0\0\0\0\0\0\0\0\0\0";

const BY_TWO: [u8; 80] = *b"\
    \x01\0\x02\0\0\x02\xff\x01\0\0\0\0\0\0\0\0\0\0\0\0\
    \x02\0\x02\0\0\x01\xfe\0\0\0\0\0\0\0\0\0\0\0\0\0\
    \x01\0\x02\0\0\x03\xff\x01\0\0\0\0\0\0\0\0\0\0\0\0\
    \x01\0\x01\0\xff\x01\0\0\0\0\0\0\0\0\0\0\0\0\0\0";

const SENT_AT_ONCE: [u8; 104] = *b"\
    \0\0\0\x01\x01\0\0\0\x01\0\0\0\0\0\0\0\0\0\0\0\0\0\0\0\0\0\0\0\0\0\0\0\0\0\0\0\0\0\0\0\0\0\0\0\0\0\0\0\0\0\0\0\
    \x01\0\0\x02\0\0\0\0\x01\0\x02\0\0\0\0\0\0\0\0\0\0\0\0\0\0\0\0\0\0\0\0\0\0\0\0\0\0\0\0\0\0\0\0\0\0\0\0\0\0\0\0\0";

const SENT_BY_ONE: [u8; 156] = *b"\
    \0\0\0\x02\0\0\0\0\x02\0\x01\0\0\0\x01\0\0\0\0\0\0\0\0\0\0\0\0\0\0\0\0\0\0\0\0\0\0\0\0\0\0\0\0\0\0\0\0\0\0\0\0\0\
    \x01\0\0\x02\0\0\0\0\x01\0\x02\0\0\0\0\0\0\0\0\0\0\0\0\0\0\0\0\0\0\0\0\0\0\0\0\0\0\0\0\0\0\0\0\0\0\0\0\0\0\0\0\0\
    \x02\0\0\x01\x01\0\0\0\x01\0\0\0\0\0\0\0\0\0\0\0\0\0\0\0\0\0\0\0\0\0\0\0\0\0\0\0\0\0\0\0\0\0\0\0\0\0\0\0\0\0\0\0";

const SENT_BY_TWO: [u8; 208] = *b"\
    \0\0\0\x02\0\0\0\0\x02\0\x01\0\0\0\x01\0\0\0\0\0\0\0\0\0\0\0\0\0\0\0\0\0\0\0\0\0\0\0\0\0\0\0\0\0\0\0\0\0\0\0\0\0\
    \x01\0\0\x02\0\0\0\0\x01\0\x02\0\0\0\0\0\0\0\0\0\0\0\0\0\0\0\0\0\0\0\0\0\0\0\0\0\0\0\0\0\0\0\0\0\0\0\0\0\0\0\0\0\
    \x02\0\0\x02\0\0\0\0\x03\0\x01\0\0\0\x01\0\0\0\0\0\0\0\0\0\0\0\0\0\0\0\0\0\0\0\0\0\0\0\0\0\0\0\0\0\0\0\0\0\0\0\0\0\
    \x03\0\0\x01\x01\0\0\0\x01\0\0\0\0\0\0\0\0\0\0\0\0\0\0\0\0\0\0\0\0\0\0\0\0\0\0\0\0\0\0\0\0\0\0\0\0\0\0\0\0\0\0\0";

// True, 0, and A(true U 0).
const IDLE: [u8; 12] = [1, 0, 0, 0, 3, 0, 0, 0, 8, 0, 1, 0];

// ---- the states in turn, and a host that reads 1 and shows a picture (16) for one tick

const IN_TURN: [u8; 104] = *b"\
    \0\0\0\x01\0\0\0\0\x01\0\0\0\0\0\0\0\0\0\0\0\0\0\0\0\0\0\0\0\0\0\0\0\0\0\0\0\0\0\0\0\0\0\0\0\0\0\0\0\0\0\0\0\
    \x01\0\0\x01\0\0\0\0\0\0\0\0\0\0\0\0\0\0\0\0\0\0\0\0\0\0\0\0\0\0\0\0\0\0\0\0\0\0\0\0\0\0\0\0\0\0\0\0\0\0\0\0";

const VIEWER: [u8; 40] = *b"\
    \0\0\x02\0\0\0\x01\x01\0\0\0\0\0\0\0\0\0\0\0\0\
    \x01\0\x01\0\0\0\0\0\0\0\0\0\0\0\0\0\0\0\0\0";

// True, 16, and A(true U 16).
const PICTURE: [u8; 12] = [1, 0, 0, 0, 3, 16, 0, 0, 8, 0, 1, 0];

// ---- the judge

// Its answer as a number.
fn answer(d: &[u8], converter: &[u8], work: &mut [u8], list: &mut [u32]) -> u64 {
    lines::number(judge::judge(d, converter, work, list))
}

// The answer, with so many of the lent bytes and of the lent numbers, and the list after.
fn waited(rt: &impl Print, words: &str, d: &[u8], converter: &[u8], room: usize, listed: usize)
    requires { (room ≤ 1600) × (listed ≤ 5) }
{
    let mut work = [7u8; 1600];
    let mut list = [7u32; 5];
    lines::line(
        rt,
        words,
        answer(d, converter, &mut work[..room], &mut list[..listed]),
    );
    for n in list {
        lines::line(rt, "  listed", u64::from(n));
    }
}

// ---- the designs

// These formulas and rules of H, with this kernel in the place of its own.
fn handshake(
    rt: &impl Print,
    words: &str,
    kernel: &[u8],
    formulas: &[u8],
    rules: &[u8],
    converter: &[u8],
    room: usize,
    listed: usize,
)
    requires { (length kernel.now ≤ state_bytes * most_states) × (length formulas.now ≤ formula_bytes * most_formulas) × (length rules.now ≤ most_rules) × (room ≤ 1600) × (listed ≤ 5) }
{
    let mut d = [0u8; 2048];
    designs::design(&mut d, kernel, &tables::H_HOST, formulas, rules);
    waited(rt, words, &d, converter, room, listed);
}

// F under the paper's four rules.
fn four(
    rt: &impl Print,
    words: &str,
    formulas: &[u8; 144],
    converter: &[u8],
    room: usize,
    listed: usize,
)
    requires { (room ≤ 1600) × (listed ≤ 5) }
{
    handshake(
        rt,
        words,
        &tables::H_KERNEL,
        formulas,
        &tables::FOUR,
        converter,
        room,
        listed,
    );
}

// A(true U 1), where s0 waits so often at the most.
fn sent(rt: &impl Print, words: &str, kernel: &[u8], converter: &[u8])
    requires { length kernel.now ≤ state_bytes * most_states }
{
    handshake(rt, words, kernel, &tables::UNTIL, &[2], converter, 64, 1);
}

// Two untils and the always over both, of the states in turn.
fn in_turn(rt: &impl Print) {
    let mut d = [0u8; 2048];
    designs::design(
        &mut d,
        &tables::TURNS,
        &tables::TICKING,
        &tables::TURNS_ALWAYS,
        &[3, 4, 6],
    );
    waited(
        rt,
        "two states in turn, A(true U 0), A(true U 1) and AG of both",
        &d,
        &IN_TURN,
        32,
        3,
    );
}

// Of a hundred records, in which both tick, each leads to the next. The last shows the picture: in the one before it the host reads 1, and it ticks back to the first.
fn chain(rt: &impl Print) {
    let mut c = [0u8; 5200];
    for i in 0..100u8 {
        let at = 52 * usize::from(i);
        c[at + 3] = 1;
        c[at + 8] = i + 1;
    }
    c[5101] = 255;
    c[5149] = 1;
    c[5156] = 0;
    let mut d = [0u8; 2048];
    designs::design(&mut d, &tables::TICKING, &VIEWER, &PICTURE, &[2]);
    waited(rt, "a chain of 100 records, A(true U 16)", &d, &c, 1600, 1);
}

pub fn rows(rt: &impl Print) {
    handshake(
        rt,
        "F, A(true U 0)",
        &tables::H_KERNEL,
        &IDLE,
        &[2],
        &tables::F,
        48,
        2,
    );
    sent(
        rt,
        "H with s0 at 0 to 0, A(true U 1)",
        &AT_ONCE,
        &SENT_AT_ONCE,
    );
    sent(
        rt,
        "H with s0 at 0 to 1, A(true U 1)",
        &BY_ONE,
        &SENT_BY_ONE,
    );
    sent(
        rt,
        "H with s0 at 0 to 2, A(true U 1)",
        &BY_TWO,
        &SENT_BY_TWO,
    );
    in_turn(rt);
    chain(rt);
    four(
        rt,
        "F, the fourth rule mended, five numbers",
        &tables::MENDED,
        &tables::F,
        48,
        5,
    );
    four(
        rt,
        "F, the fourth rule mended, three numbers",
        &tables::MENDED,
        &tables::F,
        48,
        3,
    );
    four(
        rt,
        "F, three numbers and 47 bytes of work",
        &tables::MENDED,
        &tables::F,
        47,
        3,
    );
    four(
        rt,
        "F without its last record, three numbers",
        &tables::MENDED,
        &tables::F[..104],
        48,
        3,
    );
    four(
        rt,
        "F without (0,0) in record 0, four numbers",
        &tables::MENDED,
        &tables::F_DEAF,
        48,
        4,
    );
    four(
        rt,
        "F, the four rules as printed, four numbers",
        &tables::PRINTED,
        &tables::F,
        48,
        4,
    );
    handshake(
        rt,
        "F without rules and without numbers",
        &tables::H_KERNEL,
        &tables::UNTIL,
        &[],
        &tables::F,
        48,
        0,
    );
}
