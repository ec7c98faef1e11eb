// Runs the rows of the specification on the quick verdict. For each it writes a line: what was tried, and the answer, which is 0 for yes, or the number of a refusal. Lines below it
// say which rule is blamed and what the call left behind.
#![tactic(auto)]

mod blaming;

fn main(rt: HostRuntime) {
    blaming::rows(&rt);
}
