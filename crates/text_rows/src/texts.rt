// The call on a text, and what it leaves. What is lent is 170 everywhere at first, so that a byte that was written shows; six bytes of it stand behind the blocks.
use refusals::design_tests;
use row_parts::{designs, lines, tables};

// The answer: whether rules were made.
pub fn answered(rt: &impl Print, text: &[u8], lent: &mut [u8]) -> bool {
    match rules::rules(text, lent) {
        Ok(n) => {
            lines::line(rt, "  rules", n as u64);
            true
        }
        Err(refusal) => {
            lines::line(rt, "  refused", u64::from(refusal.number()));
            false
        }
    }
}

// ---- the blocks

// How many formulas they have, and how many rules.
pub fn formula_count(lent: &[u8; 1030]) -> u8 {
    lent[1]
}

pub fn rule_count(lent: &[u8; 1030]) -> u8 {
    lent[513]
}

pub fn formulas(rt: &impl Print, lent: &[u8; 1030]) {
    lines::line(rt, "  formulas", u64::from(formula_count(lent)));
}

// The design of the sides of H and the blocks.
pub fn with_sides(lent: &[u8; 1030]) -> [u8; 2048] {
    let mut d = [0u8; 2048];
    designs::design(&mut d, &tables::H_KERNEL, &tables::H_HOST, &[], &[]);
    d[1024..].copy_from_slice(&lent[..1024]);
    d
}

pub fn behind_sides(rt: &impl Print, lent: &[u8; 1030]) {
    let refusal = design_tests::design_refusal(&with_sides(lent));
    lines::line(rt, "  behind H's sides", lines::number(refusal));
}

// ---- bytes that aren't written

pub fn unchanged(rt: &impl Print, lent: &[u8; 1030]) {
    lines::yes_or_no(rt, "  lent bytes unchanged", *lent == [170; 1030]);
}

pub fn unchanged_behind(rt: &impl Print, lent: &[u8; 1030]) {
    lines::yes_or_no(
        rt,
        "  bytes behind the blocks unchanged",
        lent[1024..] == [170; 6],
    );
}
