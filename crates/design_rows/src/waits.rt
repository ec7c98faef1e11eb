// Rows of waits known by range. 0 is done. What is lent for the new design is 170 everywhere at first, so that a byte that was written shows.
ghost use Rattle.std.specs.Prelude.{◌≡◌, ◌<◌, ◌≤◌, length};

use layout::sizes;
use row_parts::{designs, lines, tables};

// The answer of the call as a number.
fn answer(d: &[u8], list: &[u8], lent: &mut [u8]) -> u64 {
    lines::number(ranges::ranges(d, list, lent))
}

// ---- lists that are carried out

// A byte of the new design.
fn byte(rt: &impl Print, words: &str, lent: &[u8; 2560], at: usize)
    requires { at < 2560 }
{
    lines::line(rt, words, u64::from(lent[at]));
}

// How many states a side has in it.
fn states(rt: &impl Print, words: &str, lent: &[u8; 2560], side: usize)
    requires { side < 3 }
{
    byte(rt, words, lent, sizes::BLOCK_BYTES * side + 1);
}

// A state of a side: how many transitions it has, the low byte of its label word, and the first two places.
fn state(rt: &impl Print, words: &str, lent: &[u8; 2560], side: usize, s: usize)
    requires { (side < 3) × (s < 16) }
{
    let at = sizes::BLOCK_BYTES * side + 4 + sizes::STATE_BYTES * s;
    byte(rt, words, lent, at + 2);
    byte(rt, "    labels", lent, at);
    byte(rt, "    first event", lent, at + 4);
    byte(rt, "    its target", lent, at + 5);
    byte(rt, "    second event", lent, at + 6);
    byte(rt, "    its target", lent, at + 7);
}

// H, after a list.
fn pair(rt: &impl Print, words: &str, list: &[u8]) -> [u8; 2560]
    ensures { length result ≡ 2560 }
{
    let mut lent = [170u8; 2560];
    lines::line(rt, words, answer(&crate::handshake(), list, &mut lent));
    states(rt, "  states of the kernel", &lent, 0);
    lent
}

// H, after a list that leaves it as it is. Behind it nothing is written.
fn as_it_was(rt: &impl Print, words: &str, list: &[u8]) {
    let d = crate::handshake();
    let mut expected = [170u8; 2560];
    expected[..2048].copy_from_slice(&d);
    let mut lent = [170u8; 2560];
    lines::line(rt, words, answer(&d, list, &mut lent));
    lines::yes_or_no(rt, "  the design as it was", lent == expected);
}

fn at_once(rt: &impl Print) {
    let lent = pair(rt, "s0 at 0 to 0", &[0, 0, 0, 0]);
    state(rt, "  transitions of count 0", &lent, 0, 0);
}

fn third_to_ninth(rt: &impl Print) {
    let lent = pair(rt, "s0 at 3 to 9", &[0, 0, 3, 9]);
    state(rt, "  transitions of count 0", &lent, 0, 0);
    state(rt, "  transitions of count 2", &lent, 0, 3);
    state(rt, "  transitions of count 3", &lent, 0, 4);
    state(rt, "  transitions of count 8", &lent, 0, 9);
    state(rt, "  transitions of count 9", &lent, 0, 10);
}

fn in_order(rt: &impl Print) {
    let lent = pair(rt, "s1 at 1 to 2, s0 at 0 to 1", &[0, 1, 1, 2, 0, 0, 0, 1]);
    state(rt, "  transitions of s0", &lent, 0, 0);
    state(rt, "  transitions of s1", &lent, 0, 1);
}

fn sixteen(rt: &impl Print) {
    let _of_one = pair(rt, "s0 at 0 to 14", &[0, 0, 0, 14]);
    let _of_two = pair(rt, "s0 at 0 to 7, s1 at 0 to 7", &[0, 0, 0, 7, 0, 1, 0, 7]);
}

// Three sides of one state each, which ticks or sends back to itself: the kernel's tick stands first, and what the host sends.
fn three_senders() -> [u8; 2560] {
    let mut d = [0u8; 2560];
    designs::design_of_three(
        &mut d,
        &tables::SENDS_1,
        &tables::SENDS_2,
        &tables::SENDS_3,
        &[],
        &[],
    );
    d
}

fn each_side(rt: &impl Print) {
    let list = [0, 0, 15, 255, 1, 0, 1, 2, 2, 0, 0, 1];
    let mut lent = [170u8; 2560];
    lines::line(
        rt,
        "three senders, at 15 or more, at 1 to 2, at 0 to 1",
        answer(&three_senders(), &list, &mut lent),
    );
    states(rt, "  states of the kernel", &lent, 0);
    state(rt, "  transitions of count 14", &lent, 0, 14);
    state(rt, "  transitions of count 15", &lent, 0, 15);
    states(rt, "  states of the host", &lent, 1);
    state(rt, "  transitions of count 1", &lent, 1, 1);
    states(rt, "  states of the third side", &lent, 2);
}

// ---- lists that are refused, with so much room

fn refused(rt: &impl Print, words: &str, d: &[u8], list: &[u8], room: usize)
    requires { room ≤ 2560 }
{
    let mut lent = [170u8; 2560];
    lines::line(rt, words, answer(d, list, &mut lent[..room]));
    lines::yes_or_no(rt, "  lent bytes unchanged", lent == [170; 2560]);
}

// A list for H.
fn refused_pair(rt: &impl Print, words: &str, list: &[u8], room: usize)
    requires { room ≤ 2560 }
{
    refused(rt, words, &crate::handshake(), list, room);
}

// Lists of a single entry: the side, the state, the least and the greatest count.
fn entries(rt: &impl Print) {
    for (words, entry) in [
        ("side number 3", [3, 0, 0, 2]),
        ("side number 255", [255, 0, 0, 2]),
        ("the third side of a design of four blocks", [2, 0, 0, 2]),
        ("a state that isn't there", [0, 2, 0, 2]),
        ("an input state", [1, 0, 0, 2]),
        ("least 16", [0, 0, 16, 255]),
        ("least 255", [0, 0, 255, 255]),
        ("greatest 16", [0, 0, 0, 16]),
        ("greatest 254", [0, 0, 0, 254]),
        ("least above greatest", [0, 0, 3, 2]),
        ("s0 at 0 to 15", [0, 0, 0, 15]),
        ("s0 at 15 or more", [0, 0, 15, 255]),
    ] {
        refused_pair(rt, words, &entry, 2048);
    }
}

// s0 at 0 to 2, in what an earlier entry for s0 made of H.
fn again(rt: &impl Print, words: &str, least: u8, greatest: u8) {
    let made = pair(rt, "s0 once", &[0, 0, least, greatest]);
    refused(rt, words, &made[..2048], &[0, 0, 0, 2], 2048);
}

fn no_longer(rt: &impl Print) {
    again(rt, "s0 again, and it only sends", 0, 0);
    again(rt, "s0 again, and it only ticks", 2, 2);
    again(rt, "s0 again, and its tick leads elsewhere", 0, 2);
}

fn lists(rt: &impl Print) {
    refused_pair(rt, "a list of 5 bytes", &[0, 0, 0, 2, 0], 2048);
    refused_pair(
        rt,
        "a state named twice",
        &[0, 0, 0, 2, 0, 1, 0, 2, 0, 0, 0, 2],
        2048,
    );
    refused_pair(
        rt,
        "s0 at 0 to 7, s1 at 0 to 8",
        &[0, 0, 0, 7, 0, 1, 0, 8],
        2048,
    );
    refused_pair(rt, "room for 2047 bytes", &[0, 0, 0, 2], 2047);
}

fn too_short(rt: &impl Print) {
    refused(
        rt,
        "three senders, room for 2559 bytes",
        &three_senders(),
        &[0, 0, 0, 2],
        2559,
    );
}

// Several reasons at once: the first of 1 to 8, 22, 23 and 12 is answered.
fn first_reason(rt: &impl Print) {
    refused_pair(rt, "17 states, no room", &[0, 0, 0, 15], 0);
    refused_pair(
        rt,
        "least above greatest, 17 states, no room",
        &[0, 0, 0, 15, 0, 1, 3, 2],
        0,
    );
}

fn broken(rt: &impl Print) {
    let list = [0, 0, 0, 15, 0];
    let mut d = crate::handshake();
    crate::change(&mut d, 7, 1);
    refused(
        rt,
        "byte 3 of a state, a list of 5 bytes, no room",
        &d,
        &list,
        0,
    );
    d[0] = 9;
    refused(
        rt,
        "a wrong check, a list of 5 bytes, no room",
        &d,
        &list,
        0,
    );
}

pub fn rows(rt: &impl Print) {
    as_it_was(rt, "H and no entry", &[]);
    as_it_was(rt, "s0 at 0 or more", &[0, 0, 0, 255]);
    at_once(rt);
    third_to_ninth(rt);
    in_order(rt);
    sixteen(rt);
    each_side(rt);
    entries(rt);
    no_longer(rt);
    lists(rt);
    too_short(rt);
    first_reason(rt);
    broken(rt);
}
