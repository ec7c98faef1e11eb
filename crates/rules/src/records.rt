// Records as they are made: each is put behind the last, as far as there is room for 64. What a prefix or the left of an implication will still need is kept in a pile of pending
// entries, of which each makes one record more, so there is room for as many of them.
ghost use Rattle.std.specs.Prelude.{◌≡◌, [], ◌∷◌, ◌+◌, ◌%◌, ◌≤◌, ◌<◌, ◌^◌, length};
ghost use Rattle.rules.specs.Making.{record_room, number, opposite_kind};

use layout::sizes;

pub const RECORD_ROOM: usize = sizes::FORMULA_BYTES * sizes::MOST_FORMULAS;

// The kinds of formulas, by the numbers that their records have.
#[derive(Clone, Copy, PartialEq, Eq, Debug)]
pub enum Kind {
    True = 1,
    False = 2,
    Proposition = 3,
    Negated = 4,
    And = 5,
    Or = 6,
    Next = 7,
    Until = 8,
    Always = 9,
}

impl Kind {
    // A record's first byte.
    fn number(self) -> u8
        ensures { result ≡ number self }
    {
        self as u8
    }
}

// What will make a record: its kind, and its first operand.
#[derive(Clone, Copy)]
pub struct Entry {
    pub kind: Kind,
    pub a: u8,
}

// The records and how many there are, also of those that have no room; and the pending entries, and how high their pile is.
#[derive(Drop)]
pub struct Store {
    pub records: [u8; RECORD_ROOM],
    pub count: usize,
    pub pending: [Entry; sizes::MOST_FORMULAS],
    pub height: usize,
    // What the type says, for the proofs of those that are lent a store.
    ghost all_records: { length records ≡ record_room },
}

// The kind of the negated formula, as a record's byte: true and false, a proposition and its negation, and and or change places.
#[tactic(auto, unfolding(crate::specs::Making::opposite_kind))]
fn opposite(kind: u8) -> u8
    ensures { result ≡ opposite_kind kind }
{
    match kind {
        1 => 2,
        2 => 1,
        3 => 4,
        4 => 3,
        5 => 6,
        6 => 5,
        _ => kind,
    }
}

impl Store {
    ghost use Rattle.rules.specs.Stores.{Adds, Negates, Pushes, Pops, Unwinds};

    pub fn new() -> Self
        ensures { (result.count ≡ 0) × (result.height ≡ 0) }
    {
        let none = Entry {
            kind: Kind::True,
            a: 0,
        };
        Store {
            records: [0; RECORD_ROOM],
            count: 0,
            pending: [none; sizes::MOST_FORMULAS],
            height: 0,
        }
    }

    // One record more.
    pub fn add(&mut self, kind: Kind, a: usize, b: usize)
        requires { self.old.count + 1 < 2 ^ 64 }
        ensures { Adds (number kind ∷ a % 256 ∷ b % 256 ∷ 0 ∷ []) self.old self.new }
    {
        if self.count < sizes::MOST_FORMULAS {
            let at = sizes::FORMULA_BYTES * self.count;
            let record = [kind.number(), (a % 256) as u8, (b % 256) as u8, 0];
            self.records[at..at + sizes::FORMULA_BYTES].copy_from_slice(&record);
        }
        self.count += 1;
    }

    // The records from number `from` on are negated, where there was room for all of them.
    pub fn negate(&mut self, from: usize)
        ensures { Negates from self.old self.new }
    {
        for i in from..self.count.min(sizes::MOST_FORMULAS) {
            let at = sizes::FORMULA_BYTES * i;
            self.records[at] = opposite(self.records[at]);
        }
    }

    // One entry more.
    pub fn push(&mut self, kind: Kind, a: usize)
        requires { self.old.height + 1 < 2 ^ 64 }
        ensures { Pushes (record { kind = kind; a = a % 256 }) self.old self.new }
    {
        if self.height < sizes::MOST_FORMULAS {
            self.pending[self.height] = Entry {
                kind,
                a: (a % 256) as u8,
            };
        }
        self.height += 1;
    }

    // The record of the last entry, of which the last record is the last operand, and the only one of AX and AG. The pile is lower by it.
    #[tactic(auto, unfolding(crate::specs::Making::entry, crate::specs::Making::closing))]
    fn pop(&mut self)
        requires { (1 ≤ self.old.height) × (1 ≤ self.old.count) × (self.old.count + 1 < 2 ^ 64) }
        ensures { Pops self.old self.new }
    {
        self.height -= 1;
        let last = self.count - 1;
        if self.height < sizes::MOST_FORMULAS {
            let Entry { kind, a } = self.pending[self.height];
            match kind {
                Kind::Next | Kind::Always => self.add(kind, last, 0),
                _ => self.add(kind, usize::from(a), last),
            }
        } else {
            self.count += 1;
        }
    }

    // The records of the entries from number `base` on, the last entry's first.
    pub fn unwind(&mut self, base: usize)
        requires { (1 ≤ self.old.count) × (base ≤ self.old.height) × (self.old.count + self.old.height < 2 ^ 64) }
        ensures { Unwinds base self.old self.new }
    {
        while base < self.height {
            self.pop();
        }
    }
}
