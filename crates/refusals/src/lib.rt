// The refusals by name, and what is refused of a design (1 to 8) and of a converter in memory (10, 11), each number over the whole input.
#![tactic(auto)]

pub mod blocks;
pub mod converters;
pub mod design_tests;
pub mod refusal;
pub mod state_tests;
