// A state that counts its waits: which transitions each count has, and where they lead.
ghost use Rattle.std.specs.Prelude.{◌≡◌, cond, ◌≤◌, leb};
ghost use Rattle.model.specs.Events.{sent};
ghost use Rattle.model.specs.Ranges.{below, onward, counted};
ghost use Rattle.layout.specs.Sizes.{place_count, most_states};
ghost use Rattle.layout.specs.States.{move_of, state_of};
ghost use Rattle.ranges.specs.Entries.{most_waits, range_of};

use crate::entries;
use crate::entries::Entry;
use layout::states::{Place, StateRecord};
use layout::{events, sizes};

// Whether count k is below the greatest.
fn is_below(e: Entry, k: usize) -> bool
    ensures { result ≡ below k (range_of e).greatest }
{
    entries::greatest(e).is_none_or(|g| k < usize::from(g))
}

// The number of the state to which a tick leads from count k.
fn onward(e: Entry, n: usize, k: usize) -> u8
    requires { (n ≤ most_states) × (k ≤ most_waits) }
    ensures { result ≡ onward (range_of e) n k }
{
    entries::count_number(e, n, (k + 1).min(entries::last_count(e)))
}

// Whether count k keeps a transition with this event: a send from the least on, any other below the greatest.
fn keeps(e: Entry, k: usize, event: i8) -> bool
    ensures { result ≡ cond (sent event) (leb e.least k) (below k (range_of e).greatest) }
{
    if events::is_sent(event) {
        usize::from(e.least) <= k
    } else {
        is_below(e, k)
    }
}

// A transition as count k has it: a send as it was, any other onward.
fn placed(e: Entry, n: usize, k: usize, m: Place) -> Place
    requires { (n ≤ most_states) × (k ≤ most_waits) }
    ensures { move_of result ≡ cond (sent m.event) (move_of m) (record { event = m.event; target = onward (range_of e) n k }) }
{
    if events::is_sent(m.event) {
        m
    } else {
        Place {
            event: m.event,
            target: onward(e, n, k),
        }
    }
}

// Count k of the state q, where the later counts stand from number n on.
pub fn counted(q: StateRecord, e: Entry, n: usize, k: usize) -> StateRecord
    requires { (q.count ≤ place_count) × (n ≤ most_states) × (k ≤ most_waits) }
    ensures { (state_of result ≡ counted (range_of e) n (state_of q) k) × (result.count ≤ place_count) }
{
    let unused = Place {
        event: 0,
        target: 0,
    };
    let mut places = [unused; sizes::PLACES];
    let mut kept = 0;
    // What stands for the transitions so far is in the first `kept` places.
    for m in &q.places[..usize::from(q.count)] {
        if keeps(e, k, m.event) {
            places[kept] = placed(e, n, k, *m);
            kept += 1;
        }
    }
    StateRecord {
        label: q.label,
        count: kept as u8,
        places,
    }
}
