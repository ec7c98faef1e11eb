// Rows of typed rules behind the sides of H: the design that they make, what the judge says of F under it, and what the search finds. 0 is yes, or a converter.
ghost use Rattle.std.specs.Prelude.{◌*◌, ◌≤◌, length};
ghost use Rattle.layout.specs.Sizes.{formula_bytes, most_formulas, most_rules};

use crate::texts;
use layout::sizes;
use row_parts::{designs, lines, tables};

// ---- the judge and the search, and their answers as a number

fn judged(d: &[u8], converter: &[u8], work: &mut [u8]) -> u64 {
    let mut waits = [7u32; 16];
    lines::number(judge::judge(d, converter, work, &mut waits))
}

// Searches with room for 1,024 positions. Of a converter found, what the judge answers.
fn searched(rt: &impl Print, d: &[u8]) {
    let mut table = [7u8; 53248];
    let mut work = [7u8; 16384];
    let outcome = search::search(d, &mut table, &mut work);
    lines::line(rt, "  search", lines::number(outcome));
    if let Ok(n) = outcome {
        let converter = &table[..sizes::RECORD_BYTES * (n as usize)];
        lines::line(
            rt,
            "  the converter found judged",
            judged(d, converter, &mut work),
        );
    }
}

// ---- the design

// The rules of a text, and H with these formulas and rules.
fn pair(rt: &impl Print, words: &str, text: &str, formulas: &[u8], rules: &[u8])
    requires { (length formulas.now ≤ formula_bytes * most_formulas) × (length rules.now ≤ most_rules) }
{
    let _ = print!(rt; "{words}\n{text}");
    let mut lent = [170u8; 1030];
    if !texts::answered(rt, text.as_bytes(), &mut lent) {
        return;
    }
    texts::formulas(rt, &lent);
    texts::behind_sides(rt, &lent);
    let d = texts::with_sides(&lent);
    let mut expected = [0u8; 2048];
    designs::design(
        &mut expected,
        &tables::H_KERNEL,
        &tables::H_HOST,
        formulas,
        rules,
    );
    lines::yes_or_no(rt, "  the design of the tables", d == expected);
    lines::line(rt, "  F judged", judged(&d, &tables::F, &mut [7; 48]));
    searched(rt, &d);
}

pub fn rows(rt: &impl Print) {
    pair(rt, "H and empty text", "", &[], &[]);
    pair(
        rt,
        "H as printed",
        "AG (p0 & p18 -> AX (p1 | !p19))\n\
        AG (p19 & p1 -> AX (p0 | !p18))\n\
        AG (p1 & p18 -> AX (p19 | !p0))\n\
        AG (p0 & p19 -> AX (!p1 | !p18))\n",
        &tables::PRINTED,
        &tables::FOUR,
    );
    pair(
        rt,
        "H with the fourth rule mended",
        "AG (p0 & p18 -> AX (p1 | !p19))\n\
        AG (p19 & p1 -> AX (p0 | !p18))\n\
        AG (p1 & p18 -> AX (p19 | !p0))\n\
        AG (p0 & p19 -> AX (!p1 | p18))\n",
        &tables::MENDED,
        &tables::FOUR,
    );
    pair(rt, "H and an until", "AF p1\n", &tables::UNTIL, &[2]);
}
