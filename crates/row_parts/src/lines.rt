// Lines of output.
ghost use Rattle.std.specs.Prelude.{◌≡◌};
ghost use Rattle.refusals.specs.Answered.{refusal_of};

use refusals::refusal::Refusal;
use std::convert::AsSlice;
use std::io::{self, Write};

// What a call answered, by number: 0, or the refusal's.
pub fn number<T: Copy>(answer: Result<T, Refusal>) -> u64
    ensures { result ≡ refusal_of answer }
{
    match answer {
        Ok(_) => 0,
        Err(refusal) => u64::from(refusal.number()),
    }
}

// The words of a line, which are text or bytes. A write that fails is passed over here and below, and the next is tried.
fn begin(rt: &impl Print, words: impl AsSlice<u8> + Drop) {
    let _ = io::writer(rt).write_all(words.as_slice());
}

// A line: the words, and a number.
pub fn line(rt: &impl Print, words: impl AsSlice<u8> + Drop, n: u64) {
    begin(rt, words);
    let _ = println!(rt; ": {n}");
}

// A line: the words, and whether it is so.
pub fn yes_or_no(rt: &impl Print, words: impl AsSlice<u8> + Drop, is: bool) {
    begin(rt, words);
    let _ = println!(rt; ": {}", if is { "yes" } else { "no" });
}
