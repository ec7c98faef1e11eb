// 22 and 23: a list of right entries, and sides that have room for the states that count.
ghost use Rattle.std.specs.Prelude.{◌≡◌, not, ◌&&◌, ◌||◌, ◌<◌, eqb, leb, length};
ghost use Rattle.layout.specs.Sizes.{side_count, most_states};
ghost use Rattle.layout.specs.Tables.{every};
ghost use Rattle.layout.specs.States.{move_of, state_of};
ghost use Rattle.layout.specs.Designs.{design};
ghost use Rattle.refusals.specs.Refusals.{design_refusal};
ghost use Rattle.ranges.specs.Entries.{most_waits, no_greatest, entry_count, entry_at, sends_or_returns, waits_itself, entry_right, same_state, list_right, new_side, sides_fit};

use crate::entries;
use crate::entries::Entry;
use layout::states::{Place, StateRecord};
use layout::{designs, sizes};
use refusals::state_tests;

// ---- 22

// Whether m is sent and w ticks back to state k.
fn sends_or_returns(k: usize, m: Place, w: Place) -> bool
    ensures { result ≡ sends_or_returns k (move_of m) (move_of w) }
{
    state_tests::sends_or_waits(m, w) && usize::from(w.target) == k
}

// Whether state number k is delayed with its tick to itself.
fn waits_itself(q: StateRecord, k: usize) -> bool
    ensures { result ≡ waits_itself k (state_of q) }
{
    let [a, b, ..] = q.places;
    q.count == 2 && (sends_or_returns(k, a, b) || sends_or_returns(k, b, a))
}

// Whether the counts of an entry are within their limits, and the least is not above the greatest.
fn counts_right(e: Entry) -> bool
    ensures { result ≡ (leb e.least most_waits && (leb e.greatest most_waits || eqb e.greatest no_greatest) && leb e.least e.greatest) }
{
    e.least <= entries::MOST_WAITS
        && (e.greatest <= entries::MOST_WAITS || e.greatest == entries::NO_GREATEST)
        && e.least <= e.greatest
}

// Whether an entry is right for the design.
fn entry_right(d: &[u8], e: Entry) -> bool
    requires { design_refusal d.now ≡ 0 }
    ensures { result ≡ entry_right (design d.now) e }
{
    let i = usize::from(e.side);
    let k = usize::from(e.state);
    i < sizes::SIDES
        && k < designs::state_count(d, i)
        && waits_itself(designs::side_state(d, i, k), k)
        && counts_right(e)
}

// Whether none of the entries before entry j names its state.
fn fresh(list: &[u8], j: usize) -> bool
    requires { j < entry_count list.now }
    ensures { result ≡ every j (λ i. not (same_state (entry_at list.now i) (entry_at list.now j))) }
{
    let here = entries::read_entry(list, j);
    (0..j).all(|i| {
        let there = entries::read_entry(list, i);
        !(there.side == here.side && there.state == here.state)
    })
}

// Whether the list is of whole entries, all right, none for a state that another names.
pub fn list_right(d: &[u8], list: &[u8]) -> bool
    requires { design_refusal d.now ≡ 0 }
    ensures { result ≡ list_right d.now list.now }
{
    list.len() % entries::ENTRY_BYTES == 0
        && (0..entries::count(list)).all(|j| entry_right(d, entries::read_entry(list, j))
            && fresh(list, j))
}

// ---- 23

// Whether side i has at most 16 states after replacement.
fn side_fits(d: &[u8], list: &[u8], i: usize) -> bool
    requires { (design_refusal d.now ≡ 0) × (i < side_count) }
    ensures { result ≡ leb (length (new_side d.now list.now i)) most_states }
{
    let mut n = designs::state_count(d, i);
    // n is the number of states with the first j entries.
    for j in 0..entries::count(list) {
        let e = entries::read_entry(list, j);
        if usize::from(e.side) == i {
            n += entries::last_count(e);
            if sizes::MOST_STATES < n {
                return false;
            }
        }
    }
    true
}

// Whether every side has at most 16 states after replacement.
pub fn sides_fit(d: &[u8], list: &[u8]) -> bool
    requires { design_refusal d.now ≡ 0 }
    ensures { result ≡ sides_fit d.now list.now }
{
    (0..sizes::SIDES).all(|i| side_fits(d, list, i))
}
