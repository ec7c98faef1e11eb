// Rows of texts at the edge of a refusal.
ghost use Rattle.std.specs.Prelude.{◌≤◌};

use crate::texts;

// What a text gives with so much room.
pub fn answer(rt: &impl Print, text: &[u8], room: usize)
    requires { room ≤ 1030 }
{
    let mut lent = [170u8; 1030];
    if texts::answered(rt, text, &mut lent[..room]) {
        texts::formulas(rt, &lent);
        texts::behind_sides(rt, &lent);
        texts::unchanged_behind(rt, &lent);
    } else {
        texts::unchanged(rt, &lent);
    }
}

// The same below words, and below each text itself.
pub fn row(rt: &impl Print, words: &str, text: &[u8]) {
    let _ = println!(rt; "{words}");
    answer(rt, text, 1030);
}

fn typed(rt: &impl Print, texts: &[&str]) {
    for text in texts {
        let _ = print!(rt; "{text}");
        answer(rt, text.as_bytes(), 1030);
    }
}

// ---- 19

fn ends_of_lines(rt: &impl Print) {
    row(rt, "empty text", b"");
    row(rt, "an empty line", b"\n");
    row(rt, "a line of spaces", b"   \n");
    row(rt, "an empty line before a rule", b"\np0\n");
    row(rt, "an empty line behind a rule", b"p0\n\n");
    row(rt, "no newline at the end", b"p0");
    row(rt, "no newline behind the second rule", b"p0\np1");
    row(rt, "spaces behind the last newline", b"p0\n  ");
    row(rt, "a space alone", b" ");
    row(rt, "a rule over two lines", b"p0 &\np1\n");
}

fn other_bytes(rt: &impl Print) {
    row(rt, "a tab", b"p0\t& p1\n");
    row(rt, "a carriage return", b"p0\r\n");
    row(rt, "a byte of 0", b"p0\0\n");
    row(rt, "a byte of 160", b"p0\xa0\n");
}

fn words(rt: &impl Print) {
    typed(
        rt,
        &[
            "AXp0\n",
            "A[p0Up1]\n",
            "A X p0\n",
            "p\n",
            "p01\n",
            "p48\n",
            "p303\n",
            "P0\n",
            "true\n",
            "TRUEp0\n",
            "p0 U p1\n",
        ],
    );
}

fn signs(rt: &impl Print) {
    typed(
        rt,
        &[
            "p0 - > p1\n",
            "p0 - p1\n",
            "p0 && p1\n",
            "p0 p1\n",
            "p0 &\n",
            "& p0\n",
            "!\n",
            "AX\n",
            "(p0\n",
            "p0)\n",
            "()\n",
            "(p0]\n",
            "[p0]\n",
            "A (p0 U p1)\n",
            "A [ p0 ]\n",
        ],
    );
}

// ---- 20

fn some_path(rt: &impl Print) {
    typed(
        rt,
        &[
            "EX p0\n",
            "EF p0\n",
            "EG p0\n",
            "E [ p0 U p1 ]\n",
            "AX EX p0\n",
            "A [ p0 U EF p1 ]\n",
        ],
    );
}

fn under_negation(rt: &impl Print) {
    typed(
        rt,
        &[
            "! AX p0\n",
            "!!AX p0\n",
            "!A [ p0 U p1 ]\n",
            "!(p0 & AG p1)\n",
            "!(p0 -> AX p1)\n",
            "AX !AF p0\n",
            "AX p0 -> p1\n",
            "p0 -> AX p1 -> p2\n",
            "(p0 -> AX p1) -> p2\n",
            "p0 & AF p1 | p2 -> p3\n",
        ],
    );
}

// ---- depth

fn round(rt: &impl Print) {
    row(
        rt,
        "32 round brackets",
        b"((((((((((((((((((((((((((((((((\
        p0\
        ))))))))))))))))))))))))))))))))\n",
    );
    row(
        rt,
        "33 round brackets",
        b"((((((((((((((((((((((((((((((((\
        (p0)\
        ))))))))))))))))))))))))))))))))\n",
    );
    row(
        rt,
        "32 round brackets twice",
        b"((((((((((((((((((((((((((((((((\
        p0\
        )))))))))))))))))))))))))))))))) & ((((((((((((((((((((((((((((((((\
        p1\
        ))))))))))))))))))))))))))))))))\n",
    );
}

fn square(rt: &impl Print) {
    row(
        rt,
        "32 square brackets, 65 records",
        b"A[A[A[A[A[A[A[A[A[A[A[A[A[A[A[A[\
        A[A[A[A[A[A[A[A[A[A[A[A[A[A[A[A[\
        p0\
        \x20U p1] U p1] U p1] U p1] U p1] U p1] U p1] U p1] U p1] U p1] U p1] U p1] U p1] U p1] U p1] U p1]\
        \x20U p1] U p1] U p1] U p1] U p1] U p1] U p1] U p1] U p1] U p1] U p1] U p1] U p1] U p1] U p1] U p1]\n",
    );
    row(
        rt,
        "33 square brackets",
        b"A[A[A[A[A[A[A[A[A[A[A[A[A[A[A[A[\
        A[A[A[A[A[A[A[A[A[A[A[A[A[A[A[A[\
        A[p0 U p1]\
        \x20U p1] U p1] U p1] U p1] U p1] U p1] U p1] U p1] U p1] U p1] U p1] U p1] U p1] U p1] U p1] U p1]\
        \x20U p1] U p1] U p1] U p1] U p1] U p1] U p1] U p1] U p1] U p1] U p1] U p1] U p1] U p1] U p1] U p1]\n",
    );
}

fn mixed(rt: &impl Print) {
    row(
        rt,
        "16 round and 16 square brackets",
        b"A[(A[(A[(A[(A[(A[(A[(A[(A[(A[(A[(A[(A[(A[(A[(A[(\
        p0\
        ) U p1]) U p1]) U p1]) U p1]) U p1]) U p1]) U p1]) U p1]\
        ) U p1]) U p1]) U p1]) U p1]) U p1]) U p1]) U p1]) U p1]\n",
    );
    row(
        rt,
        "17 round and 16 square brackets",
        b"A[(A[(A[(A[(A[(A[(A[(A[(A[(A[(A[(A[(A[(A[(A[(A[(\
        (p0)\
        ) U p1]) U p1]) U p1]) U p1]) U p1]) U p1]) U p1]) U p1]\
        ) U p1]) U p1]) U p1]) U p1]) U p1]) U p1]) U p1]) U p1]\n",
    );
    row(
        rt,
        "16 round and 17 square brackets",
        b"A[(A[(A[(A[(A[(A[(A[(A[(A[(A[(A[(A[(A[(A[(A[(A[(\
        A[p0 U p1]\
        ) U p1]) U p1]) U p1]) U p1]) U p1]) U p1]) U p1]) U p1]\
        ) U p1]) U p1]) U p1]) U p1]) U p1]) U p1]) U p1]) U p1]\n",
    );
}

fn in_square(rt: &impl Print) {
    row(
        rt,
        "31 round brackets behind U",
        b"A [ p0 U (((((((((((((((((((((((((((((((\
        p1\
        ))))))))))))))))))))))))))))))) ]\n",
    );
    row(
        rt,
        "32 round brackets behind U",
        b"A [ p0 U (((((((((((((((((((((((((((((((\
        (p1)\
        ))))))))))))))))))))))))))))))) ]\n",
    );
    row(
        rt,
        "31 round brackets in E [",
        b"E [ (((((((((((((((((((((((((((((((\
        p0\
        ))))))))))))))))))))))))))))))) U p1 ]\n",
    );
    row(
        rt,
        "32 round brackets in E [",
        b"E [ (((((((((((((((((((((((((((((((\
        (p0)\
        ))))))))))))))))))))))))))))))) U p1 ]\n",
    );
}

pub fn rows(rt: &impl Print) {
    ends_of_lines(rt);
    other_bytes(rt);
    words(rt);
    signs(rt);
    some_path(rt);
    under_negation(rt);
    round(rt);
    square(rt);
    mixed(rt);
    in_square(rt);
}
