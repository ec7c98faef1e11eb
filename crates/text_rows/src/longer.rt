// Rows of texts that repeat a part: counts at their limits and far behind them. Then the order of the refusals.
ghost use Rattle.std.specs.Prelude.{◌<◌, ◌≤◌, length};

use crate::{edges, records};

// A text is filled with a part, over and over, and its last bytes become those of a tail.
fn fill(text: &mut [u8], part: &[u8], tail: &[u8])
    requires { (0 < length part.now) × (length tail.now ≤ length text.old) }
{
    for (i, b) in text.iter_mut().enumerate() {
        *b = part[i % part.len()];
    }
    let n = text.len() - tail.len();
    text[n..].copy_from_slice(tail);
}

// What a part over and over and a tail give.
fn row(rt: &impl Print, words: &str, text: &mut [u8], part: &[u8], tail: &[u8])
    requires { (0 < length part.now) × (length tail.now ≤ length text.old) }
{
    fill(text, part, tail);
    edges::row(rt, words, text);
}

// The same with the records written.
fn written(rt: &impl Print, words: &str, text: &mut [u8], part: &[u8], tail: &[u8])
    requires { (0 < length part.now) × (length tail.now ≤ length text.old) }
{
    let _ = println!(rt; "{words}");
    fill(text, part, tail);
    records::written(rt, text);
}

// ---- records and rules at their limits

fn prefixes(rt: &impl Print) {
    row(rt, "63 times AX", &mut [0u8; 192], b"AX ", b"p0\n");
    row(rt, "64 times AX", &mut [0u8; 195], b"AX ", b"p0\n");
    row(rt, "31 times AF", &mut [0u8; 96], b"AF ", b"p0\n");
    row(rt, "32 times AF", &mut [0u8; 99], b"AF ", b"p0\n");
}

fn chains(rt: &impl Print) {
    row(rt, "32 names joined by &", &mut [0u8; 96], b"p0&", b"\n");
    row(rt, "33 names joined by &", &mut [0u8; 99], b"p0&", b"\n");
    row(rt, "32 names joined by |", &mut [0u8; 96], b"p0|", b"\n");
    row(rt, "33 names joined by |", &mut [0u8; 99], b"p0|", b"\n");
    row(rt, "32 names joined by ->", &mut [0u8; 127], b"p0->", b"\n");
    row(rt, "33 names joined by ->", &mut [0u8; 131], b"p0->", b"\n");
}

fn rules(rt: &impl Print) {
    row(rt, "16 rules", &mut [0u8; 48], b"p0\n", b"");
    row(rt, "17 rules", &mut [0u8; 51], b"p0\n", b"");
    row(
        rt,
        "16 rules of 4 records",
        &mut [0u8; 192],
        b"AX AX AX p0\n",
        b"",
    );
    row(
        rt,
        "16 rules of 5 records",
        &mut [0u8; 240],
        b"AX AX AX AX p0\n",
        b"",
    );
}

// ---- far behind the limits: no count wraps, and prefixes and chains are read without a call for each

fn many_records(rt: &impl Print) {
    row(rt, "256 times AX", &mut [0u8; 771], b"AX ", b"p0\n");
    row(rt, "65,536 times AX", &mut [0u8; 196611], b"AX ", b"p0\n");
}

fn many_rules(rt: &impl Print) {
    row(rt, "257 rules", &mut [0u8; 771], b"p0\n", b"");
    row(rt, "65,537 rules", &mut [0u8; 196611], b"p0\n", b"");
}

fn many_arrows(rt: &impl Print) {
    row(
        rt,
        "65,537 names joined by ->",
        &mut [0u8; 262147],
        b"p0->",
        b"\n",
    );
}

fn many_brackets(rt: &impl Print) {
    row(
        rt,
        "100,000 round brackets",
        &mut [0u8; 100003],
        b"(",
        b"p0\n",
    );
}

fn many_negations(rt: &impl Print) {
    written(rt, "99,997 times !", &mut [0u8; 100000], b"!", b"p0\n");
    written(rt, "99,998 times !", &mut [0u8; 100001], b"!", b"p0\n");
    written(rt, "99,997 spaces", &mut [0u8; 100000], b" ", b"p0\n");
}

// ---- several reasons at once: the first of 19, 20, 21 and 12 is answered

fn late_reasons(rt: &impl Print) {
    edges::row(
        rt,
        "EX in line 1, line 2 not of the grammar",
        b"EX p0\np0 &\n",
    );
    row(
        rt,
        "18 rules, the last not of the grammar",
        &mut [0u8; 56],
        b"p0\n",
        b"p0 &\n",
    );
    row(
        rt,
        "18 rules, the last with EX",
        &mut [0u8; 57],
        b"p0\n",
        b"EX p0\n",
    );
    row(
        rt,
        "64 times AX, then EX",
        &mut [0u8; 198],
        b"AX ",
        b"EX p0\n",
    );
}

fn with_room(rt: &impl Print, words: &str, text: &[u8], room: usize)
    requires { room ≤ 1030 }
{
    let _ = println!(rt; "{words}");
    edges::answer(rt, text, room);
}

fn no_room(rt: &impl Print) {
    with_room(rt, "p0, room for 1023 bytes", b"p0\n", 1023);
    with_room(rt, "p0, room for 1024 bytes", b"p0\n", 1024);
    with_room(rt, "empty text, room for 1023 bytes", b"", 1023);
    with_room(rt, "empty text, no room", b"", 0);
    let mut text = [0u8; 51];
    fill(&mut text, b"p0\n", b"");
    with_room(rt, "17 rules, no room", &text, 0);
    with_room(rt, "EX, no room", b"EX p0\n", 0);
    with_room(rt, "p48, no room", b"p48\n", 0);
}

pub fn rows(rt: &impl Print) {
    prefixes(rt);
    chains(rt);
    rules(rt);
    many_records(rt);
    many_rules(rt);
    many_arrows(rt);
    many_brackets(rt);
    many_negations(rt);
    late_reasons(rt);
    no_room(rt);
}
