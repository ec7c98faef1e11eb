// The refusals by name, with the numbers of the specification's table ("When a call declines").
ghost use Rattle.std.specs.Prelude.{◌≡◌};
ghost use Rattle.refusals.specs.Answered.{number};

use std::fmt;

#[derive(Clone, Copy, PartialEq, Eq, Debug)]
pub enum Refusal {
    // a design, or a converter file, is not of a right length
    Length = 1,
    // a block's last two bytes are not the check of those before them
    BlockCheck = 2,
    // a block's kind or first record is not the one of its place
    BlockHeader = 3,
    // a block has too few or too many records, or a converter file too many
    RecordCount = 4,
    // a state has no transition or over 8, an event out of range or twice, or a target that isn't there
    State = 5,
    // a state is not input, not output-only and not delayed
    StateKind = 6,
    // a formula's kind, operand or proposition is wrong, or a rule names no formula
    Formula = 7,
    // an unused byte isn't zero
    UnusedByte = 8,
    // the design has too many positions
    Positions = 9,
    // a converter in memory is not of a right length
    ConverterSize = 10,
    // a record of a converter is wrong
    ConverterRecord = 11,
    // the lent result is too short
    Room = 12,
    // the lent work is too short
    Work = 13,
    // the converter isn't matched to the sides
    Unmatched = 14,
    // the converter is matched, and some rule doesn't hold
    RuleFails = 15,
    // no converter works
    NoneWorks = 16,
    // a runner has no step: no such record, a shown event out of range, or no transition that fits
    NoStep = 17,
    // a text of rules isn't of the grammar, or is too deep
    Text = 19,
    // a rule of a text asks for some run, where rules ask of every run
    Existential = 20,
    // a text of rules makes too many formulas, or has too many rules
    TextSize = 21,
    // a list of ranges is wrong
    RangeList = 22,
    // a side has too many states after replacement
    SideSize = 23,
}

impl Refusal {
    // Its number.
    pub fn number(self) -> u8
        ensures { result ≡ number self }
    {
        self as u8
    }
}

impl From<Refusal> for u8 {
    ghost from_gives = { λ refusal n. n ≡ number refusal };

    fn from(refusal: Refusal) -> u8 {
        refusal.number()
    }
}

impl fmt::Display for Refusal {
    fn fmt<W: fmt::Write>(&self, f: &mut fmt::Formatter<W>) -> fmt::Result {
        f.write_str(match self {
            Refusal::Length => "the bytes have a wrong length",
            Refusal::BlockCheck => "a block's check is wrong",
            Refusal::BlockHeader => "a block has a wrong kind or first record",
            Refusal::RecordCount => "a block has too few or too many records",
            Refusal::State => "a state is wrong",
            Refusal::StateKind => "a state is not input, not output-only and not delayed",
            Refusal::Formula => "a formula or a rule is wrong",
            Refusal::UnusedByte => "an unused byte isn't zero",
            Refusal::Positions => "the design has too many positions",
            Refusal::ConverterSize => "the converter has a wrong length",
            Refusal::ConverterRecord => "a record of the converter is wrong",
            Refusal::Room => "the lent result is too short",
            Refusal::Work => "the lent work is too short",
            Refusal::Unmatched => "the converter isn't matched to the sides",
            Refusal::RuleFails => "a rule doesn't hold",
            Refusal::NoneWorks => "no converter works",
            Refusal::NoStep => "the runner has no step",
            Refusal::Text => "the text isn't of the grammar",
            Refusal::Existential => "a rule asks for some run",
            Refusal::TextSize => "the text makes too many formulas or rules",
            Refusal::RangeList => "the list of ranges is wrong",
            Refusal::SideSize => "a side has too many states after replacement",
        })
    }
}
