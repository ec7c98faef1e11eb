// Parts of a rule as they are read: what 20 says of them, and how many records there are then.
ghost use Rattle.std.specs.Prelude.{◌≡◌, ◌+◌, ◌≤◌, ◌<◌, ◌^◌};
ghost use Rattle.rules.specs.Grades.{worse, under, asked};
ghost use Rattle.rules.specs.Joins.{Joins};

use crate::records::{Kind, Store};
use tokens::Quantifier;

// What 20 says of a part: it has no temporal part, it has some, or it is refused. Each is worse than those before it.
#[derive(Clone, Copy, PartialEq, Eq, PartialOrd, Ord, Debug)]
pub enum Grade {
    Plain,
    Temporal,
    Refused,
}

// A part that was read: the place behind it, how many records there are then, and its grade. Its last record is the last of these.
#[derive(Clone, Copy)]
pub struct Part {
    pub next: usize,
    pub count: usize,
    pub grade: Grade,
}

// Under a negation, or left of an arrow.
pub fn under_negation(a: Grade) -> Grade
    ensures { result ≡ under a }
{
    match a {
        Grade::Plain => Grade::Plain,
        Grade::Temporal | Grade::Refused => Grade::Refused,
    }
}

// What a quantifier asks for.
pub fn asked_by(q: Quantifier) -> Grade
    ensures { result ≡ asked q }
{
    match q {
        Quantifier::All => Grade::Temporal,
        Quantifier::Some => Grade::Refused,
    }
}

// Two parts joined by a record of their own.
pub fn join(store: &mut Store, kind: Kind, left: Part, right: Part) -> Part
    requires { (1 ≤ left.count) × (1 ≤ right.count) × (right.count ≡ store.old.count) × (right.count + 1 < 2 ^ 64) }
    ensures { Joins kind left right store.old result store.new }
{
    store.add(kind, left.count - 1, right.count - 1);
    Part {
        next: right.next,
        count: store.count,
        grade: left.grade.max(right.grade),
    }
}
