// Runs rows on the typed rules. For each it writes the text, or what text it is, and below it what the call answered: the count of rules, or the number of the refusal.
// Of rules that were made it writes the records, or how many there are, and the number that refuses a design of the sides of H and these blocks, which is 0 for none.
#![tactic(auto)]

mod edges;
mod handshake;
mod longer;
mod records;
mod texts;

fn main(rt: HostRuntime) {
    records::rows(&rt);
    edges::rows(&rt);
    longer::rows(&rt);
    handshake::rows(&rt);
}
