// Bytes: words, events, blocks, and the records of designs and of converters by value. Offsets stand here and nowhere above.
#![tactic(auto)]

pub mod blocks;
pub mod designs;
pub mod events;
pub mod formulas;
pub mod ranges;
pub mod records;
pub mod sizes;
pub mod states;
pub mod words;
