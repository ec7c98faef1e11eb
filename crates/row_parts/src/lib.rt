// What the programs that run the rows of the specification share: a design made of its records, the tables of the rows, and lines of output.
// No contract can say what is written, so a line promises nothing of it; what the programs write is compared with their files `stdout`.
#![tactic(auto)]

pub mod designs;
pub mod lines;
pub mod tables;
