// Rows of texts whose records are written, each with its kind and its two operands.
use crate::texts;

fn formula(rt: &impl Print, lent: &[u8; 1030], i: u8) {
    let at = 4 + 4 * usize::from(i);
    let _ = println!(rt;
        "  formula {i}: {} {} {}",
        lent[at],
        lent[at + 1],
        lent[at + 2]
    );
}

fn rule(rt: &impl Print, lent: &[u8; 1030], i: u8) {
    let _ = println!(rt; "  rule {i}: {}", lent[516 + usize::from(i)]);
}

// The rules that a text of any length makes, and their records.
pub fn written(rt: &impl Print, text: &[u8]) {
    let mut lent = [170u8; 1030];
    if !texts::answered(rt, text, &mut lent) {
        return;
    }
    for i in 0..texts::formula_count(&lent) {
        formula(rt, &lent, i);
    }
    for i in 0..texts::rule_count(&lent) {
        rule(rt, &lent, i);
    }
    texts::behind_sides(rt, &lent);
}

// The same below each text itself.
fn typed(rt: &impl Print, texts: &[&str]) {
    for text in texts {
        let _ = print!(rt; "{text}");
        written(rt, text.as_bytes());
    }
}

fn names(rt: &impl Print) {
    typed(rt, &["p0\n", "p9\n", "p10\n", "p47\n", "TRUE\n", "FALSE\n"]);
}

fn negations(rt: &impl Print) {
    typed(
        rt,
        &[
            "!p0\n",
            "!!p0\n",
            "!TRUE\n",
            "!FALSE\n",
            "!p0 & p1\n",
            "!(p0 & !p1 | TRUE)\n",
            "!(p0 -> p1)\n",
            "!(!p0 -> !(p1 -> p2))\n",
        ],
    );
}

fn chains(rt: &impl Print) {
    typed(
        rt,
        &[
            "p0 & p1 & p2\n",
            "p0 | p1 | p2\n",
            "p0 -> p1 -> p2\n",
            "(p0 -> p1) -> p2\n",
            "p0 & p1 | p2\n",
            "p0 | p1 & p2\n",
            "p0 & (p1 | p2)\n",
            "p0 & p1 | p2 -> p3\n",
            "p0 -> p1 | p2 & p3\n",
            "p0 & p0\n",
        ],
    );
}

fn temporal_parts(rt: &impl Print) {
    typed(
        rt,
        &[
            "AX p0\n",
            "AG p4\n",
            "AF p3\n",
            "A [ p0 U p1 ]\n",
            "AX p0 & p1\n",
            "AG (p0 & p1)\n",
            "AX AX p0\n",
            "AG AF p2\n",
            "AF AX p2\n",
            "AF AF p0\n",
            "AX !p0\n",
            "p0 -> AX p1\n",
            "A [ p0 -> p1 U p2 | AX p3 ]\n",
            "A [ A [ p0 U p1 ] U AG p2 ]\n",
        ],
    );
}

fn spaces(rt: &impl Print) {
    typed(
        rt,
        &[
            "AX(p0)\n",
            "AX!p0\n",
            "A[(p0)U(p1)]\n",
            "A[p0 U p1]\n",
            "p0->p1\n",
            "  p0  &  ( ! p1 )  \n",
        ],
    );
}

fn two_lines(rt: &impl Print) {
    typed(rt, &["p0\np0\n", "AX p0\np0 -> AF p1\n"]);
}

pub fn rows(rt: &impl Print) {
    names(rt);
    negations(rt);
    chains(rt);
    temporal_parts(rt);
    spaces(rt);
    two_lines(rt);
}
