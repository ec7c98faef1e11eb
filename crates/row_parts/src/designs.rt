// A design, made of its records.
ghost use Rattle.std.specs.Prelude.{◌≡◌, ◌+◌, ◌*◌, ◌/◌, ◌<◌, ◌≤◌, length};
ghost use Rattle.layout.specs.Sizes.{block_bytes, records_in_block, check_in_block, state_bytes, most_states, formula_bytes, most_formulas, most_rules};
ghost use Rattle.layout.specs.Bytes.{put};
ghost use Rattle.layout.specs.Blocks.{sealed};
ghost use Rattle.row_parts.specs.Made.{made, made_of_three};

use layout::{blocks, sizes};

// Where the third block, the fourth and the fifth stand.
const THIRD: usize = 2 * sizes::BLOCK_BYTES;

const FOURTH: usize = 3 * sizes::BLOCK_BYTES;

const FIFTH: usize = 4 * sizes::BLOCK_BYTES;

// A block at `at`, whose records have this size each. The number of its first record is 0.
fn block(s: &mut [u8], at: usize, kind: u8, size: usize, records: &[u8])
    requires { (at + block_bytes ≤ length s.old) × (0 < size) × (length records.now / size < 256) × (records_in_block + length records.now ≤ check_in_block) }
    ensures { s.new ≡ put s.old at (sealed kind (length records.now / size) 0 records.now) }
{
    let n = records.len();
    blocks::write(s, at, kind, (n / size) as u8, 0, records, 0, n);
}

// The four blocks of a design of two sides, from the bytes of their records: the states of each side, the formulas and the rules.
pub fn design(d: &mut [u8; 2048], kernel: &[u8], host: &[u8], formulas: &[u8], rules: &[u8])
    requires { (length kernel.now ≤ state_bytes * most_states) × (length host.now ≤ state_bytes * most_states) × (length formulas.now ≤ formula_bytes * most_formulas) × (length rules.now ≤ most_rules) }
    ensures { d.new ≡ made kernel.now host.now formulas.now rules.now }
{
    block(d, 0, 1, sizes::STATE_BYTES, kernel);
    block(d, sizes::BLOCK_BYTES, 2, sizes::STATE_BYTES, host);
    block(d, THIRD, 3, sizes::FORMULA_BYTES, formulas);
    block(d, FOURTH, 4, 1, rules);
}

// The five blocks of a design of three sides.
pub fn design_of_three(
    d: &mut [u8; 2560],
    kernel: &[u8],
    host: &[u8],
    service: &[u8],
    formulas: &[u8],
    rules: &[u8],
)
    requires { (length kernel.now ≤ state_bytes * most_states) × (length host.now ≤ state_bytes * most_states) × (length service.now ≤ state_bytes * most_states) × (length formulas.now ≤ formula_bytes * most_formulas) × (length rules.now ≤ most_rules) }
    ensures { d.new ≡ made_of_three kernel.now host.now service.now formulas.now rules.now }
{
    block(d, 0, 1, sizes::STATE_BYTES, kernel);
    block(d, sizes::BLOCK_BYTES, 2, sizes::STATE_BYTES, host);
    block(d, THIRD, 6, sizes::STATE_BYTES, service);
    block(d, FOURTH, 3, sizes::FORMULA_BYTES, formulas);
    block(d, FIFTH, 4, 1, rules);
}
