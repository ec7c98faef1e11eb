// Runs the rows of the specification on the reading of a design and on waits known by range. For each it writes a line: what was read, and the number of the
// refusal, which is 0 for none.
#![tactic(auto)]

ghost use Rattle.std.specs.Prelude.{◌+◌, ◌*◌, ◌/◌, ◌<◌, ◌≤◌, length};
ghost use Rattle.layout.specs.Sizes.{block_bytes, formula_bytes, most_formulas};

mod waits;

use layout::{blocks, sizes};
use refusals::design_tests;
use row_parts::{designs, lines, tables};

// Bytes added up, wrapping at 65,536.
fn check(rt: &impl Print) {
    let sum = layout::ranges::check_of(&[255; 512], 0);
    lines::line(rt, "check of 510 bytes of 255", u64::from(sum));
}

// These bytes, read as a design.
fn read(rt: &impl Print, words: &str, d: &[u8]) {
    lines::line(rt, words, lines::number(design_tests::design_refusal(d)));
}

// So many zeros.
fn zeros(rt: &impl Print, words: &str, n: usize)
    requires { n ≤ 2561 }
{
    let d = [0u8; 2561];
    read(rt, words, &d[..n]);
}

// H with this kernel in the place of its own, these formulas and no rule.
fn pair(kernel: &[u8; 40], formulas: &[u8]) -> [u8; 2048]
    requires { length formulas.now ≤ formula_bytes * most_formulas }
{
    let mut d = [0u8; 2048];
    designs::design(&mut d, kernel, &tables::H_HOST, formulas, &[]);
    d
}

// H, with no formula and no rule.
fn handshake() -> [u8; 2048] {
    pair(&tables::H_KERNEL, &[])
}

// A byte changed, and the check of its block put right again.
fn change(d: &mut [u8], at: usize, v: u8)
    requires { block_bytes * (at / block_bytes) + block_bytes ≤ length d.old }
{
    d[at] = v;
    blocks::seal(d, sizes::BLOCK_BYTES * (at / sizes::BLOCK_BYTES));
}

// H with a byte changed.
fn one_byte(rt: &impl Print, words: &str, at: usize, v: u8)
    requires { at < 2048 }
{
    let mut d = handshake();
    change(&mut d, at, v);
    read(rt, words, &d);
}

// H and a third side of one state, whose transition has this event, with a byte changed.
fn third_side(rt: &impl Print, words: &str, event: i8, at: usize, v: u8)
    requires { at < 2560 }
{
    let mut service = tables::TICKING;
    service[4] = event.cast_unsigned();
    let mut d = [0u8; 2560];
    designs::design_of_three(
        &mut d,
        &tables::H_KERNEL,
        &tables::H_HOST,
        &service,
        &[],
        &[],
    );
    change(&mut d, at, v);
    read(rt, words, &d);
}

fn third_sides(rt: &impl Print) {
    third_side(rt, "H and a third side", 0, 1024, 6);
    third_side(rt, "a third side of kind 5", 0, 1024, 5);
    third_side(rt, "a third side of 0 states", 0, 1025, 0);
    third_side(rt, "a third side of 17 states", 0, 1025, 17);
    third_side(rt, "a third side that sends -63", -63, 1024, 6);
    third_side(rt, "a third side that sends -64", -64, 1024, 6);
    third_side(rt, "byte 3 of its state", 0, 1031, 1);
    third_side(rt, "formulas of kind 6", 0, 1536, 6);
}

// Of a design with a wrong check and a wrong kind the check wins.
fn two_faults(rt: &impl Print) {
    let mut d = handshake();
    d[0] = 9;
    d[2047] = 1;
    read(rt, "a wrong kind in block 1, a wrong check in block 4", &d);
}

fn lengths(rt: &impl Print) {
    zeros(rt, "a design of 0 bytes", 0);
    zeros(rt, "a design of 1 byte", 1);
    zeros(rt, "a design of 511 bytes", 511);
    zeros(rt, "a design of 2047 bytes", 2047);
    zeros(rt, "a design of 2049 bytes", 2049);
    zeros(rt, "a design of 2559 bytes", 2559);
    zeros(rt, "2560 zeros", 2560);
    zeros(rt, "a design of 2561 bytes", 2561);
}

// H whose s0 sends this event, and ticks to this state.
fn first_states(rt: &impl Print) {
    for (words, event, target) in [
        ("H", -1i8, 0),
        ("event -63", -63, 0),
        ("event -64", -64, 0),
        ("event -128", -128, 0),
        ("tick to another state beside a sent event", -1, 1),
        ("a target that isn't a state", -1, 2),
    ] {
        let mut kernel = tables::H_KERNEL;
        kernel[5] = target;
        kernel[6] = event.cast_unsigned();
        read(rt, words, &pair(&kernel, &[]));
    }
}

// H whose s0 has these two events.
fn two_events(rt: &impl Print) {
    for (words, one, other) in [
        ("a sent event before a tick to another state", -1i8, 0i8),
        ("two sent events", -2, -1),
        ("a read event beside a sent one", 2, -1),
    ] {
        let mut kernel = tables::H_KERNEL;
        kernel[4] = one.cast_unsigned();
        kernel[6] = other.cast_unsigned();
        read(rt, words, &pair(&kernel, &[]));
    }
}

fn changed(rt: &impl Print) {
    one_byte(rt, "0 states", 1, 0);
    one_byte(rt, "17 states", 1, 17);
    one_byte(rt, "255 states", 513, 255);
    one_byte(rt, "65 formulas", 1025, 65);
    one_byte(rt, "17 rules", 1537, 17);
    one_byte(rt, "first record 1", 1026, 1);
    one_byte(rt, "a state with 0 transitions", 6, 0);
    one_byte(rt, "a state with 255 transitions", 6, 255);
    one_byte(rt, "byte 3 of a state", 7, 1);
    one_byte(rt, "an unused place", 12, 1);
    one_byte(rt, "a byte behind the records", 1540, 1);
}

// H with one formula behind "true": its kind and its operands.
fn formulas(rt: &impl Print) {
    for (words, kind, a, b) in [
        ("AX of formula 0", 7, 0, 0),
        ("AX with a second operand", 7, 0, 1),
        ("AX of itself", 7, 1, 0),
        ("proposition 15", 3, 15, 0),
        ("proposition 16", 3, 16, 0),
        ("proposition 31", 3, 31, 0),
        ("proposition 32", 3, 32, 0),
        ("proposition 47", 3, 47, 0),
        ("proposition 48", 3, 48, 0),
        ("not proposition 47", 4, 47, 0),
        ("not proposition 48", 4, 48, 0),
        ("kind 0", 0, 0, 0),
        ("kind 10", 10, 0, 0),
    ] {
        let d = pair(&tables::H_KERNEL, &[1, 0, 0, 0, kind, a, b, 0]);
        read(rt, words, &d);
    }
}

fn main(rt: HostRuntime) {
    check(&rt);
    lengths(&rt);
    first_states(&rt);
    two_events(&rt);
    two_faults(&rt);
    changed(&rt);
    third_sides(&rt);
    formulas(&rt);
    waits::rows(&rt);
}
