// Runs the rows of the specification on the judge, its waits and the tick. For each it writes a line: what was tried, and the answer, which is 0 for yes and done, or the
// number of a refusal. Lines below it say what the call left behind.
#![tactic(auto)]

mod judging;
mod ticks;
mod waiting;

fn main(rt: HostRuntime) {
    judging::rows(&rt);
    waiting::rows(&rt);
    ticks::rows(&rt);
}
