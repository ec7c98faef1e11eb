// The readers of implications, chains and closest parts. They call each other in a cycle, which is entered again for each open bracket alone: chains and prefixes are loops.
// `room` is how many brackets may still be opened. Each answers none where no such part stands.
ghost use Rattle.std.specs.Prelude.{◌≡◌, false, ◌+◌, ◌≤◌, ◌<◌, ◌^◌, length, drop};
ghost use Rattle.tokens.specs.Tokens.{scanned};
ghost use Rattle.typed.specs.Grammar.{closest, conjunction, implication};
ghost use Rattle.rules.specs.Grades.{prefixed, worse};
ghost use Rattle.rules.specs.Reading.{Begins, Reading, Leaf, Expecting, is_prefix};
ghost use Rattle.rules.specs.Chains.{sign, whole, inner, kind_of};

use crate::parts::{Grade, Part};
use crate::records::{Kind, Store};
use crate::{parts, prefixes};
use tokens::{Quantifier, Token};

// The place behind a token, where it is the first from `at` on. Inlined, since each caller names its token.
#[inline(always)]
pub fn expect(text: &[u8], at: usize, token: Token) -> Option<usize>
    requires { (at ≤ length text.now) × (token ≡ Token.End → ⊥) }
    ensures { Expecting text.now at token result }
{
    let found = tokens::scan(text, at);
    if found.token == token {
        Some(found.next)
    } else {
        None
    }
}

// The grade of a part behind prefixes.
fn prefixed_grade(g: Grade, negations: bool, part: Grade) -> Grade
    ensures { result ≡ worse g (prefixed negations part) }
{
    g.max(if negations {
        parts::under_negation(part)
    } else {
        part
    })
}

// A name or a constant: one record.
fn leaf(store: &mut Store, kind: Kind, a: u8, next: usize) -> Part
    requires { store.old.count + 1 < 2 ^ 64 }
    ensures { Leaf kind a next store.old result store.new }
{
    store.add(kind, usize::from(a), 0);
    Part {
        next,
        count: store.count,
        grade: Grade::Plain,
    }
}

// A rule in round brackets, of which the first stands at `at`.
#[cycle(reading)]
fn read_bracketed(text: &[u8], at: usize, room: usize, store: &mut Store) -> Option<Part>
    requires { Begins text.now at store.old × ((scanned (drop at text.now)).token ≡ Token.Open) }
    ensures { Reading text.now closest room at store.old result store.new }
{
    let inside = room.checked_sub(1)?;
    let open = tokens::scan(text, at);
    let part = read_implication(text, open.next, inside, store)?;
    let next = expect(text, part.next, Token::Close)?;
    Some(Part { next, ..part })
}

// A [ f U g ] or E [ f U g ], of which the first word stands at `at`.
#[cycle(reading)]
fn read_until(text: &[u8], at: usize, room: usize, store: &mut Store, q: Quantifier) -> Option<Part>
    requires { Begins text.now at store.old × ((scanned (drop at text.now)).token ≡ Token.Path q) }
    ensures { Reading text.now closest room at store.old result store.new }
{
    let inside = room.checked_sub(1)?;
    let path = tokens::scan(text, at);
    let open = expect(text, path.next, Token::OpenSquare)?;
    let left = read_implication(text, open, inside, store)?;
    let until = expect(text, left.next, Token::Until)?;
    let right = read_implication(text, until, inside, store)?;
    let next = expect(text, right.next, Token::CloseSquare)?;
    let joined = parts::join(store, Kind::Until, left, right);
    Some(Part {
        next,
        grade: parts::asked_by(q).max(joined.grade),
        ..joined
    })
}

// A closest part without prefixes.
#[cycle(reading)]
fn read_atom(text: &[u8], at: usize, room: usize, store: &mut Store) -> Option<Part>
    requires { Begins text.now at store.old × (is_prefix (scanned (drop at text.now)).token ≡ false) }
    ensures { Reading text.now closest room at store.old result store.new }
{
    let found = tokens::scan(text, at);
    match found.token {
        Token::Name(p) => Some(leaf(store, Kind::Proposition, p, found.next)),
        Token::True => Some(leaf(store, Kind::True, 0, found.next)),
        Token::False => Some(leaf(store, Kind::False, 0, found.next)),
        Token::Path(q) => read_until(text, at, room, store, q),
        Token::Open => read_bracketed(text, at, room, store),
        _ => None,
    }
}

// Prefixes and what they stand before.
#[cycle(reading)]
fn read_closest(text: &[u8], at: usize, room: usize, store: &mut Store) -> Option<Part>
    requires { Begins text.now at store.old }
    ensures { Reading text.now closest room at store.old result store.new }
{
    let base = store.height;
    let begun = prefixes::read_prefixes(text, at, store);
    let first = store.count;
    let part = read_atom(text, begun.next, room, store)?;
    if begun.odd {
        store.negate(first);
    }
    store.unwind(base);
    Some(Part {
        next: part.next,
        count: store.count,
        grade: prefixed_grade(begun.grade, begun.negations, part.grade),
    })
}

// What joins the parts of a chain.
#[derive(Clone, Copy)]
enum Connective {
    And,
    Or,
}

impl Connective {
    fn sign(self) -> Token
        ensures { result ≡ sign self }
    {
        match self {
            Connective::And => Token::And,
            Connective::Or => Token::Or,
        }
    }

    // The kind of its records.
    fn kind(self) -> Kind
        ensures { result ≡ kind_of self }
    {
        match self {
            Connective::And => Kind::And,
            Connective::Or => Kind::Or,
        }
    }
}

// Closest parts joined by &.
#[cycle(reading)]
fn read_conjunction(text: &[u8], at: usize, room: usize, store: &mut Store) -> Option<Part>
    requires { Begins text.now at store.old }
    ensures { Reading text.now conjunction room at store.old result store.new }
{
    read_chain(Connective::And, text, at, room, store)
}

// Parts joined by & or by |: & joins closest parts, and | chains of those. Inlined, since each caller names its connective: so there are two loops, one inside the other.
#[cycle(reading)]
#[inline(always)]
fn read_chain(
    chain: Connective,
    text: &[u8],
    at: usize,
    room: usize,
    store: &mut Store,
) -> Option<Part>
    requires { Begins text.now at store.old }
    ensures { Reading text.now (whole chain) room at store.old result store.new }
{
    let mut left = None;
    let mut from = at;
    // Left of `from` there is a chain and its sign, or nothing.
    loop {
        let right = match chain {
            Connective::And => read_closest(text, from, room, store),
            Connective::Or => read_conjunction(text, from, room, store),
        }?;
        let part = match left {
            Some(left) => parts::join(store, chain.kind(), left, right),
            None => right,
        };
        let Some(next) = expect(text, part.next, chain.sign()) else {
            return Some(part);
        };
        left = Some(part);
        from = next;
    }
}

// Disjunctions joined by ->. The left ones are negated, and wait for what stands behind them.
#[cycle(reading)]
pub fn read_implication(text: &[u8], at: usize, room: usize, store: &mut Store) -> Option<Part>
    requires { Begins text.now at store.old }
    ensures { Reading text.now implication room at store.old result store.new }
{
    let base = store.height;
    let mut from = at;
    let mut grade = Grade::Plain;
    // From `at` to `from` there are the left parts of arrows.
    loop {
        let left = store.count;
        let part = read_chain(Connective::Or, text, from, room, store)?;
        let Some(next) = expect(text, part.next, Token::Implies) else {
            store.unwind(base);
            return Some(Part {
                next: part.next,
                count: store.count,
                grade: grade.max(part.grade),
            });
        };
        store.negate(left);
        store.push(Kind::Or, part.count - 1);
        grade = grade.max(parts::under_negation(part.grade));
        from = next;
    }
}
