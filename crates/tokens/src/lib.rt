// The words and signs of a text of typed rules. Spaces may stand around each; letters and digits that touch are one word.
#![tactic(auto)]

ghost use Rattle.std.specs.Prelude.{◌≡◌, ◌∷◌, ◌≤◌, length, drop};
ghost use Rattle.tokens.specs.Tokens.{worded, operator_of, word_of, sign_of, arrow};
ghost use Rattle.tokens.specs.Scans.{SpacesEnd, WordEnd, Scanning, Scans};

use layout::sizes;

// On every path, or on some path.
#[derive(Clone, Copy, PartialEq, Eq, Debug)]
pub enum Quantifier {
    All,
    Some,
}

// At the next step, at every step, at some step.
#[derive(Clone, Copy, PartialEq, Eq, Debug)]
pub enum Operator {
    Next,
    Always,
    Eventually,
}

#[derive(Clone, Copy, PartialEq, Eq, Debug)]
pub enum Token {
    // p0 to p47
    Name(u8),
    True,
    False,
    // !
    Not,
    // AX, AG, AF, EX, EG, EF
    Temporal(Quantifier, Operator),
    // A, E
    Path(Quantifier),
    // U
    Until,
    // &
    And,
    // |
    Or,
    // ->
    Implies,
    // ( )
    Open,
    Close,
    // [ ]
    OpenSquare,
    CloseSquare,
    // the end of a line
    Line,
    // the end of the text
    End,
    // no word and no sign
    Wrong,
}

// A token, and the place behind it.
#[derive(Clone, Copy, PartialEq, Eq, Debug)]
pub struct Found {
    pub token: Token,
    pub next: usize,
}

// Whether a byte is a letter or a digit. Most signs stand below the digits, and are told by the first test.
#[tactic(auto, unfolding(crate::specs::Tokens::worded))]
fn is_worded(b: u8) -> bool
    ensures { result ≡ worded b }
{
    b'0' <= b && b.is_ascii_alphanumeric()
}

// The first place from `at` on that has no space.
fn spaces_end(text: &[u8], at: usize) -> usize
    requires { at ≤ length text.now }
    ensures { SpacesEnd text.now at result }
{
    let mut i = at;
    // From `at` to i there are spaces.
    while i < text.len() && text[i] == b' ' {
        i += 1;
    }
    i
}

// The first place from `at` on that has no letter and no digit.
fn word_end(text: &[u8], at: usize) -> usize
    requires { at ≤ length text.now }
    ensures { WordEnd text.now at result }
{
    at + text[at..].iter().take_while(|&&b| is_worded(b)).count()
}

// ---- words

// The letter behind A or E.
#[tactic(auto, unfolding(crate::specs::Tokens::operator_of))]
fn quantified(q: Quantifier, b: u8) -> Token
    ensures { result ≡ operator_of q b }
{
    match b {
        b'X' => Token::Temporal(q, Operator::Next),
        b'G' => Token::Temporal(q, Operator::Always),
        b'F' => Token::Temporal(q, Operator::Eventually),
        _ => Token::Wrong,
    }
}

// The digits behind p: one, or two of which the first isn't 0.
#[tactic(auto, using(crate::proofs::Lengths::digits))]
fn name(digits: &[u8]) -> Token
    ensures { result ≡ word_of (112 ∷ digits.now) }
{
    match digits {
        [ones @ b'0'..=b'9'] => Token::Name(*ones - b'0'),
        [tens @ b'1'..=b'9', ones @ b'0'..=b'9'] => {
            let number = 10 * (*tens - b'0') + (*ones - b'0');
            if usize::from(number) <= sizes::LAST_PROPOSITION {
                Token::Name(number)
            } else {
                Token::Wrong
            }
        }
        _ => Token::Wrong,
    }
}

// The token that letters and digits spell.
#[tactic(auto, using(crate::proofs::Lengths::letters))]
fn word(letters: &[u8]) -> Token
    ensures { result ≡ word_of letters.now }
{
    match letters {
        [b'p', digits @ ..] => name(digits),
        b"A" => Token::Path(Quantifier::All),
        b"E" => Token::Path(Quantifier::Some),
        b"U" => Token::Until,
        [b'A', b] => quantified(Quantifier::All, *b),
        [b'E', b] => quantified(Quantifier::Some, *b),
        b"TRUE" => Token::True,
        b"FALSE" => Token::False,
        _ => Token::Wrong,
    }
}

// ---- signs

// The sign of one byte.
#[tactic(auto, unfolding(crate::specs::Tokens::sign_of))]
fn sign(b: u8) -> Token
    ensures { result ≡ sign_of b }
{
    match b {
        b'!' => Token::Not,
        b'&' => Token::And,
        b'|' => Token::Or,
        b'(' => Token::Open,
        b')' => Token::Close,
        b'[' => Token::OpenSquare,
        b']' => Token::CloseSquare,
        b'\n' => Token::Line,
        _ => Token::Wrong,
    }
}

// What a hyphen in front of `at` begins.
fn arrow_head(text: &[u8], at: usize) -> Found
    requires { at ≤ length text.now }
    ensures { Scanning (arrow (drop at text.now)) text.now at result }
{
    if at < text.len() && text[at] == b'>' {
        return Found {
            token: Token::Implies,
            next: at + 1,
        };
    }
    Found {
        token: Token::Wrong,
        next: at,
    }
}

// The first token from `from` on.
pub fn scan(text: &[u8], from: usize) -> Found
    requires { from ≤ length text.now }
    ensures { Scans text.now from result }
{
    let at = spaces_end(text, from);
    if at == text.len() {
        return Found {
            token: Token::End,
            next: at,
        };
    }
    match text[at] {
        b if is_worded(b) => {
            let next = word_end(text, at);
            Found {
                token: word(&text[at..next]),
                next,
            }
        }
        b'-' => arrow_head(text, at + 1),
        b => Found {
            token: sign(b),
            next: at + 1,
        },
    }
}
