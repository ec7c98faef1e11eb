// A block of any kind, written: header, records, zeros and check.
ghost use Rattle.std.specs.Prelude.{◌≡◌, ◌+◌, ◌≤◌, ◌∷◌, length};
ghost use Rattle.layout.specs.Sizes.{block_bytes, check_in_block, records_in_block};
ghost use Rattle.layout.specs.Bytes.{part, check, word_bytes, put};
ghost use Rattle.layout.specs.Blocks.{sealed};

use crate::{ranges, sizes, words};

// The first four bytes of a block.
fn write_header(s: &mut [u8], at: usize, kind: u8, count: u8, first: u16)
    requires { at + records_in_block ≤ length s.old }
    ensures { s.new ≡ put s.old at (kind ∷ count ∷ word_bytes first) }
{
    s[at] = kind;
    s[at + sizes::COUNT_IN_BLOCK] = count;
    words::write_word(s, at + sizes::FIRST_IN_BLOCK, first);
}

// The check of the block at `at`, put right.
pub fn seal(s: &mut [u8], at: usize)
    requires { at + block_bytes ≤ length s.old }
    ensures { s.new ≡ put s.old (at + check_in_block) (word_bytes (check (part s.old at check_in_block))) }
{
    let check = ranges::check_of(s, at);
    words::write_word(s, at + sizes::CHECK_IN_BLOCK, check);
}

// The block at `at`. Its records are the n bytes of `records` from `from` on.
pub fn write(
    s: &mut [u8],
    at: usize,
    kind: u8,
    count: u8,
    first: u16,
    records: &[u8],
    from: usize,
    n: usize,
)
    requires { (at + block_bytes ≤ length s.old) × (from + n ≤ length records.now) × (records_in_block + n ≤ check_in_block) }
    ensures { s.new ≡ put s.old at (sealed kind count first (part records.now from n)) }
{
    let behind = at + sizes::RECORDS_IN_BLOCK;
    write_header(s, at, kind, count, first);
    ranges::copy(records, from, s, behind, n);
    ranges::fill(
        s,
        behind + n,
        sizes::CHECK_IN_BLOCK - sizes::RECORDS_IN_BLOCK - n,
        0,
    );
    seal(s, at);
}
