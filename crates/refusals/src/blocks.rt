// One block of an input: its check, its header, its record count, and the unused bytes of its records.
ghost use Rattle.std.specs.Prelude.{◌≡◌, ◌+◌, ◌-◌, ◌*◌, ◌≤◌, length};
ghost use Rattle.layout.specs.Sizes.{state_bytes, formula_bytes, block_bytes, records_in_block, check_in_block};
ghost use Rattle.layout.specs.Bytes.{part, all_zero};
ghost use Rattle.layout.specs.Unused.{state_record, formula_record, unused};
ghost use Rattle.layout.specs.Blocks.{Block};
ghost use Rattle.refusals.specs.Refusals.{check_right, header_right, count_right};

use layout::{formulas, ranges, sizes, words};

// Whether the check of the block at `at` is right.
pub fn check_right(s: &[u8], at: usize) -> bool
    requires { at + block_bytes ≤ length s.now }
    ensures { (b : Block) → b.at ≡ at → result ≡ check_right s.now b }
{
    words::read_word(s, at + sizes::CHECK_IN_BLOCK) == ranges::check_of(s, at)
}

// Whether the block at `at` has this kind and this first record.
#[tactic(auto, using(std::proofs::lemmas::Bool::Decides::nat_tests), unfolding(crate::specs::Refusals::header_right))]
pub fn header_right(s: &[u8], at: usize, kind: usize, first: u16) -> bool
    requires { at + block_bytes ≤ length s.now }
    ensures { (b : Block) → b.at ≡ at → b.kind ≡ kind → b.first ≡ first → result ≡ header_right s.now b }
{
    words::read_byte(s, at) == kind && words::read_word(s, at + sizes::FIRST_IN_BLOCK) == first
}

// Whether the record count of the block at `at` is within these limits.
#[tactic(auto, using(std::proofs::lemmas::Bool::Decides::nat_tests), unfolding(crate::specs::Refusals::count_right))]
pub fn count_right(s: &[u8], at: usize, least: usize, most: usize) -> bool
    requires { at + block_bytes ≤ length s.now }
    ensures { (b : Block) → b.at ≡ at → b.least ≡ least → b.most ≡ most → result ≡ count_right s.now b }
{
    (least..=most).contains(&words::read_byte(s, at + sizes::COUNT_IN_BLOCK))
}

// Whether the unused bytes of the state record at `at` are zero.
pub fn state_unused_right(s: &[u8], at: usize) -> bool
    requires { at + state_bytes ≤ length s.now }
    ensures { result ≡ all_zero (unused state_record s.now at) }
{
    let n = words::read_byte(s, at + sizes::COUNT_AT);
    words::read_byte(s, at + sizes::GAP_AT) == 0
        && (sizes::PLACES < n
            || ranges::is_zero(
                s,
                at + sizes::PLACES_AT + sizes::MOVE_BYTES * n,
                sizes::MOVE_BYTES * (sizes::PLACES - n),
            ))
}

// Whether the unused bytes of the formula record at `at` are zero: byte 3, and the operands that its kind doesn't have.
pub fn formula_unused_right(s: &[u8], at: usize) -> bool
    requires { at + formula_bytes ≤ length s.now }
    ensures { result ≡ all_zero (unused formula_record s.now at) }
{
    words::read_byte(s, at + sizes::GAP_AT) == 0 && formulas::read_formula(s, at).absent_right()
}

// Whether the bytes of the block at `at` behind so many bytes of records are zero.
pub fn behind_right(s: &[u8], at: usize, used: usize) -> bool
    requires { (at + block_bytes ≤ length s.now) × (records_in_block + used ≤ check_in_block) }
    ensures { result ≡ all_zero (part s.now (at + records_in_block + used) (check_in_block - records_in_block - used)) }
{
    ranges::is_zero(
        s,
        at + sizes::RECORDS_IN_BLOCK + used,
        sizes::CHECK_IN_BLOCK - sizes::RECORDS_IN_BLOCK - used,
    )
}
