// The prefixes of a closest part, in a loop.
ghost use Rattle.std.specs.Prelude.{◌≡◌, ◌+◌, ◌<◌, ◌^◌};
ghost use Rattle.rules.specs.Grades.{asked_behind};
ghost use Rattle.rules.specs.Reading.{Begins, Pends, Prefixing};

use crate::parts::{self, Grade};
use crate::records::{Kind, Store};
use tokens::{Operator, Quantifier, Token};

// The place behind the prefixes, the grade that they give the part at least, whether there is a negation among them, and whether they are odd in number.
#[derive(Clone, Copy)]
pub struct Prefixes {
    pub next: usize,
    pub grade: Grade,
    pub negations: bool,
    pub odd: bool,
}

// The record that an operator makes before those of its operand, and its entry.
fn pend(store: &mut Store, o: Operator)
    requires { (store.old.count + 1 < 2 ^ 64) × (store.old.height + 1 < 2 ^ 64) }
    ensures { Pends o store.old store.new }
{
    match o {
        Operator::Next => store.push(Kind::Next, 0),
        Operator::Always => store.push(Kind::Always, 0),
        Operator::Eventually => {
            let first = store.count;
            store.add(Kind::True, 0, 0);
            store.push(Kind::Until, first);
        }
    }
}

// What a quantifier asks for behind prefixes.
fn asked_grade(negations: bool, q: Quantifier) -> Grade
    ensures { result ≡ asked_behind negations q }
{
    if negations {
        Grade::Refused
    } else {
        parts::asked_by(q)
    }
}

// Not inlined, so that its loop has the registers to itself.
#[inline(never)]
pub fn read_prefixes(text: &[u8], from: usize, store: &mut Store) -> Prefixes
    requires { Begins text.now from store.old }
    ensures { Prefixing text.now from store.old result store.new }
{
    let mut begun = Prefixes {
        next: from,
        grade: Grade::Plain,
        negations: false,
        odd: false,
    };
    // From `from` to begun.next there are prefixes.
    loop {
        let found = tokens::scan(text, begun.next);
        match found.token {
            Token::Not => {
                begun.negations = true;
                begun.odd = !begun.odd;
            }
            Token::Temporal(q, o) => {
                pend(store, o);
                begun.grade = begun.grade.max(asked_grade(begun.negations, q));
            }
            _ => return begun,
        }
        begun.next = found.next;
    }
}
