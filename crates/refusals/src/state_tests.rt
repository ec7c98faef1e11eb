// Tests 5 and 6 of a state record.
ghost use Rattle.std.specs.Prelude.{◌≡◌, not, ◌≤◌, ◌<◌, get_or};
ghost use Rattle.model.specs.Events.{same_event};
ghost use Rattle.layout.specs.Sizes.{place_count};
ghost use Rattle.layout.specs.Tables.{every};
ghost use Rattle.layout.specs.States.{no_place, move_of, state_of};
ghost use Rattle.layout.specs.Tests.{state_right, sends_or_waits, kind_right};

use joint::sides;
use layout::states::{Place, StateRecord};
use layout::{events, sizes};

// ---- 5

// Whether the event of place k stands at no earlier place.
fn event_fresh(q: &StateRecord, k: usize) -> bool
    requires { k < place_count }
    ensures { result ≡ every k (λ j. not (same_event (get_or q.now.places j no_place).event (get_or q.now.places k no_place).event)) }
{
    let event = q.places[k].event;
    (0..k).all(|j| q.places[j].event != event)
}

// A state of a side that has n: 1 to 8 transitions, events in range and none twice, targets that are states.
pub fn state_right(q: StateRecord, n: usize) -> bool
    ensures { result ≡ state_right n (state_of q) }
{
    let count = usize::from(q.count);
    (1..=sizes::PLACES).contains(&count)
        && (0..count).all(|k| {
            let m = q.places[k];
            events::in_range(m.event) && event_fresh(&q, k) && usize::from(m.target) < n
        })
}

// ---- 6

// Whether m is sent and w is the tick.
pub fn sends_or_waits(m: Place, w: Place) -> bool
    ensures { result ≡ sends_or_waits (move_of m) (move_of w) }
{
    events::is_sent(m.event) && w.event == 0
}

// Whether a state is input, output-only or delayed.
#[tactic(auto, using(std::proofs::lemmas::Bool::Decides::nat_tests, crate::proofs::StateRecords::kind_by_count))]
pub fn kind_right(q: StateRecord) -> bool
    requires { q.count ≤ place_count }
    ensures { result ≡ kind_right (state_of q) }
{
    let [a, b, ..] = q.places;
    !sides::sends(q)
        || q.count == 1
        || q.count == 2 && (sends_or_waits(a, b) || sends_or_waits(b, a))
}
