// Converter files: blocks of kind 5, 9 records each, the last 1 to 9.
#![tactic(auto)]

pub mod reader;
pub mod writer;
