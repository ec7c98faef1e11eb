// The blocks of the sides after replacement.
ghost use Rattle.std.specs.Prelude.{◌≡◌, true, ◌+◌, ◌*◌, ◌<◌, ◌≤◌, length};
ghost use mathlib.Core.List.{flatten};
ghost use Rattle.model.specs.Ranges.{last_count, counted, counts};
ghost use Rattle.layout.specs.Sizes.{side_count, place_count, state_bytes, most_states, block_bytes};
ghost use Rattle.layout.specs.Tables.{table};
ghost use Rattle.layout.specs.Bytes.{part, put};
ghost use Rattle.layout.specs.States.{state_of, state_to};
ghost use Rattle.layout.specs.Blocks.{sealed};
ghost use Rattle.layout.specs.Designs.{held, side_block, design, side};
ghost use Rattle.refusals.specs.Refusals.{design_refusal};
ghost use Rattle.ranges.specs.Entries.{range_of, new_side, list_right, sides_fit};
ghost use Rattle.ranges.specs.Ranges.{states_to, ranged_block};

use crate::entries::Entry;
use crate::{counting, entries};
use layout::states::StateRecord;
use layout::{blocks, designs, sizes, states};

// The bytes of all states that a side may have.
const STATES_BYTES: usize = sizes::STATE_BYTES * sizes::MOST_STATES;

// The kind of the block of each side.
const SIDE_KINDS: [u8; sizes::SIDES] = [1, 2, 6];

// Count 0 of the state q in its place, and its later counts behind the n states that there are.
fn replace(s: &mut [u8], n: usize, q: StateRecord, e: Entry)
    requires { (state_bytes * most_states ≤ length s.old) × (q.count ≤ place_count) × (e.state < n) × (n + last_count (range_of e) ≤ most_states) }
    ensures { s.new ≡ put (put s.old (state_bytes * e.state) (state_to (counted (range_of e) n (state_of q) 0))) (state_bytes * n) (states_to (counts (range_of e) n (state_of q) 1 (last_count (range_of e)))) }
{
    states::write_state(
        s,
        sizes::STATE_BYTES * usize::from(e.state),
        counting::counted(q, e, n, 0),
    );
    for k in 0..entries::last_count(e) {
        states::write_state(
            s,
            sizes::STATE_BYTES * (n + k),
            counting::counted(q, e, n, k + 1),
        );
    }
}

// The states of side i as they were, from the front on.
fn old_states(d: &[u8], i: usize, s: &mut [u8])
    requires { (design_refusal d.now ≡ 0) × (i < side_count) × (state_bytes * most_states ≤ length s.old) }
    ensures { s.new ≡ put s.old 0 (states_to (side (design d.now) i)) }
{
    for k in 0..designs::state_count(d, i) {
        states::write_state(s, sizes::STATE_BYTES * k, designs::side_state(d, i, k));
    }
}

// The states of side i after replacement, from the front on; the answer is how many they are.
fn new_states(d: &[u8], list: &[u8], i: usize, s: &mut [u8]) -> usize
    requires { (design_refusal d.now ≡ 0) × (list_right d.now list.now ≡ true) × (sides_fit d.now list.now ≡ true) × (i < side_count) × (state_bytes * most_states ≤ length s.old) }
    ensures { (result ≡ length (new_side d.now list.now i)) × (s.new ≡ put s.old 0 (states_to (new_side d.now list.now i))) }
{
    old_states(d, i, s);
    let mut n = designs::state_count(d, i);
    // The n states are those after the first j entries.
    for j in 0..entries::count(list) {
        let e = entries::read_entry(list, j);
        if usize::from(e.side) == i {
            replace(s, n, designs::side_state(d, i, usize::from(e.state)), e);
            n += entries::last_count(e);
        }
    }
    n
}

// The block of side i with these n states.
fn write_states(res: &mut [u8], i: usize, s: &[u8], n: usize)
    requires { (i < side_count) × (n ≤ most_states) × (state_bytes * n ≤ length s.now) × (block_bytes * i + block_bytes ≤ length res.old) }
    ensures { res.new ≡ put res.old (block_bytes * i) (sealed (side_block i).kind n 0 (part s.now 0 (state_bytes * n))) }
{
    blocks::write(
        res,
        sizes::BLOCK_BYTES * i,
        SIDE_KINDS[i],
        n as u8,
        0,
        s,
        0,
        sizes::STATE_BYTES * n,
    );
}

// The block of side i after replacement.
fn write_side(d: &[u8], list: &[u8], i: usize, res: &mut [u8])
    requires { (design_refusal d.now ≡ 0) × (list_right d.now list.now ≡ true) × (sides_fit d.now list.now ≡ true) × (i < side_count) × (block_bytes * i + block_bytes ≤ length res.old) }
    ensures { res.new ≡ put res.old (block_bytes * i) (ranged_block d.now list.now i) }
{
    let mut s = [0; STATES_BYTES];
    let n = new_states(d, list, i, &mut s);
    write_states(res, i, &s, n);
}

// The blocks of the sides that have one, one behind the other.
pub fn write_sides(d: &[u8], list: &[u8], res: &mut [u8])
    requires { (design_refusal d.now ≡ 0) × (list_right d.now list.now ≡ true) × (sides_fit d.now list.now ≡ true) × (length d.now ≤ length res.old) }
    ensures { res.new ≡ put res.old 0 (flatten (table (held d.now) (ranged_block d.now list.now))) }
{
    for i in 0..designs::held(d) {
        write_side(d, list, i, res);
    }
}
