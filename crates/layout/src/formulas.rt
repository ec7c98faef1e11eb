// A formula record by value, and the formula that it stands for.
ghost use Rattle.std.specs.Prelude.{◌≡◌, ◌+◌, ◌≤◌, ◌&&◌, length};
ghost use Rattle.layout.specs.Sizes.{formula_bytes};
ghost use Rattle.layout.specs.Bytes.{all_zero};
ghost use Rattle.layout.specs.Formulas.{formula_at, formula_of, known_kind, absent};
ghost use Rattle.layout.specs.Forms.{form_as};
ghost use Rattle.layout.specs.Tests.{form_right};

use crate::sizes;

// The kind, 1 to 9, and the operands; an operand that the kind doesn't have is 0. The kind is the number that is stored: one that isn't known is refused.
#[derive(Clone, Copy, PartialEq, Eq, Debug)]
pub struct FormulaRecord {
    pub kind: u8,
    pub a: u8,
    pub b: u8,
}

// A formula by its kind, with a proposition or the numbers of formulas as operands.
#[derive(Clone, Copy, PartialEq, Eq, Debug)]
pub enum Form {
    True,
    False,
    Holds(u8),
    Lacks(u8),
    And(u8, u8),
    Or(u8, u8),
    // AX a
    Next(u8),
    // A(a U b)
    Until(u8, u8),
    // AG a
    Always(u8),
}

#[tactic(auto, unfolding(crate::specs::Formulas::formula_at))]
pub fn read_formula(s: &[u8], at: usize) -> FormulaRecord
    requires { at + formula_bytes ≤ length s.now }
    ensures { result ≡ formula_at s.now at }
{
    FormulaRecord {
        kind: s[at],
        a: s[at + 1],
        b: s[at + 2],
    }
}

impl FormulaRecord {
    // The formula; an unknown kind stands for true.
    #[tactic(auto, unfolding(crate::specs::Formulas::form_of))]
    pub fn form(self) -> Form
        ensures { form_as result ≡ formula_of self }
    {
        match self.kind {
            2 => Form::False,
            3 => Form::Holds(self.a),
            4 => Form::Lacks(self.a),
            5 => Form::And(self.a, self.b),
            6 => Form::Or(self.a, self.b),
            7 => Form::Next(self.a),
            8 => Form::Until(self.a, self.b),
            9 => Form::Always(self.a),
            _ => Form::True,
        }
    }

    // Whether the kind is known, and the operands are lower than the formula's own number k or, of a proposition, a label of one of the sides.
    pub fn is_right(self, k: usize) -> bool
        ensures { result ≡ (known_kind self.kind && form_right k (formula_of self)) }
    {
        let known = 1 <= self.kind && self.kind <= 9;
        known && self.form().is_right(k)
    }

    // Whether the operands that the kind doesn't have are zero.
    pub fn absent_right(self) -> bool
        ensures { result ≡ all_zero (absent (formula_of self) self.a self.b) }
    {
        self.form().absent_right(self.a, self.b)
    }
}

impl Form {
    // Whether the operands are lower than the formula's own number k or, of a proposition, a label of one of the sides.
    #[tactic(auto, unfolding(crate::specs::Tests::form_right))]
    fn is_right(self, k: usize) -> bool
        ensures { result ≡ form_right k (form_as self) }
    {
        match self {
            Form::True | Form::False => true,
            Form::Holds(p) | Form::Lacks(p) => usize::from(p) <= sizes::LAST_PROPOSITION,
            Form::Next(a) | Form::Always(a) => usize::from(a) < k,
            Form::And(a, b) | Form::Or(a, b) | Form::Until(a, b) => {
                usize::from(a) < k && usize::from(b) < k
            }
        }
    }

    // Whether those of the operands a and b that the formula doesn't have are zero.
    #[tactic(auto, unfolding(crate::specs::Formulas::absent, crate::specs::Bytes::all_zero, model::specs::Judged::all))]
    fn absent_right(self, a: u8, b: u8) -> bool
        ensures { result ≡ all_zero (absent (form_as self) a b) }
    {
        match self {
            Form::True | Form::False => a == 0 && b == 0,
            Form::Holds(_) | Form::Lacks(_) | Form::Next(_) | Form::Always(_) => b == 0,
            Form::And(..) | Form::Or(..) | Form::Until(..) => true,
        }
    }
}
