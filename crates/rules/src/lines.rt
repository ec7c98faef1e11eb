// The lines of a text, one rule each.
ghost use Rattle.std.specs.Prelude.{◌≡◌, ◌%◌, length};
ghost use Rattle.layout.specs.Sizes.{most_rules};
ghost use Rattle.refusals.specs.Answered.{refusal_of};
ghost use Rattle.rules.specs.Lining.{Ruled, Lining, text_refusal};

use crate::parts::Grade;
use crate::readers;
use crate::records::Store;
use layout::sizes;
use refusals::refusal::Refusal;
use tokens::Token;

// Brackets that may be open together.
pub const MOST_DEPTH: usize = 32;

// The rules of a text: how many there are, how many records they have, and the worst of their grades.
#[derive(Clone, Copy)]
pub struct Text {
    pub rules: usize,
    pub count: usize,
    pub grade: Grade,
}

// Rule number n is record number r.
fn put_rule(rules: &mut [u8], n: usize, r: usize)
    requires { length rules.old ≡ most_rules }
    ensures { Ruled rules.old n (r % 256) rules.new }
{
    if n < sizes::MOST_RULES {
        rules[n] = (r % 256) as u8;
    }
}

// None, where some line isn't a rule.
pub fn read_lines(text: &[u8], store: &mut Store, rules: &mut [u8]) -> Option<Text>
    requires { (store.old.count ≡ 0) × (store.old.height ≡ 0) × (length rules.old ≡ most_rules) }
    ensures { Lining text.now result store.new.records rules.new }
{
    let mut read = Text {
        rules: 0,
        count: 0,
        grade: Grade::Plain,
    };
    let mut at = 0;
    // The lines before `at` are read.
    while at < text.len() {
        let part = readers::read_implication(text, at, MOST_DEPTH, store)?;
        let Some(next) = readers::expect(text, part.next, Token::Line) else {
            return None;
        };
        at = next;
        put_rule(rules, read.rules, part.count - 1);
        read.rules += 1;
        read.count = part.count;
        read.grade = read.grade.max(part.grade);
    }
    Some(read)
}

// The first of 20, 21 and 12 that holds of what was read, with so much room lent for the blocks.
#[tactic(auto, unfolding(crate::specs::Lining::text_refusal, refusals::specs::Refusals::first_failing))]
pub fn text_refusal(t: Text, room: usize) -> Result<(), Refusal>
    ensures { refusal_of result ≡ text_refusal t room }
{
    if t.grade == Grade::Refused {
        return Err(Refusal::Existential);
    }
    if sizes::MOST_FORMULAS < t.count || sizes::MOST_RULES < t.rules {
        return Err(Refusal::TextSize);
    }
    if room < 2 * sizes::BLOCK_BYTES {
        return Err(Refusal::Room);
    }
    Ok(())
}
