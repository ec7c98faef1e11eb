// A state record by value.
ghost use Rattle.std.specs.Prelude.{◌≡◌, ◌+◌, ◌*◌, ◌<◌, ◌≤◌, length, slice_index_or};
ghost use Rattle.model.specs.Sides.{no_move};
ghost use Rattle.layout.specs.Sizes.{place_count, state_bytes, move_bytes};
ghost use Rattle.layout.specs.Bytes.{put};
ghost use Rattle.layout.specs.States.{place_at, state_at, move_of, state_of, move_to, moves_to, state_to};

use crate::{events, sizes, words};

// A transition place of a state.
#[derive(Clone, Copy, PartialEq, Eq, Debug)]
pub struct Place {
    pub event: i8,
    pub target: u8,
}

#[derive(Clone, Copy, PartialEq, Eq, Debug)]
pub struct StateRecord {
    pub label: u16,
    pub count: u8,
    pub places: [Place; sizes::PLACES],
}

// Place k of the state record at `at`.
pub fn read_place(s: &[u8], at: usize, k: usize) -> Place
    requires { (k < place_count) × (at + state_bytes ≤ length s.now) }
    ensures { result ≡ place_at s.now at k }
{
    let i = at + sizes::PLACES_AT + sizes::MOVE_BYTES * k;
    Place {
        event: events::read_event(s, i),
        target: s[i + 1],
    }
}

pub fn read_state(s: &[u8], at: usize) -> StateRecord
    requires { at + state_bytes ≤ length s.now }
    ensures { result ≡ state_at s.now at }
{
    StateRecord {
        label: words::read_word(s, at),
        count: s[at + sizes::COUNT_AT],
        places: std::array::from_fn(|k| read_place(s, at, k)),
    }
}

// Place k of a state; past its transitions the tick to 0.
fn used_place(q: StateRecord, k: usize) -> Place
    requires { k < place_count }
    ensures { move_of result ≡ slice_index_or (state_of q).moves k no_move }
{
    if k < usize::from(q.count) {
        q.places[k]
    } else {
        Place {
            event: 0,
            target: 0,
        }
    }
}

// A transition place, written at `at`.
fn write_place(s: &mut [u8], at: usize, p: Place)
    requires { at + move_bytes ≤ length s.old }
    ensures { s.new ≡ put s.old at (move_to (move_of p)) }
{
    s[at] = events::to_byte(p.event);
    s[at + 1] = p.target;
}

// The eight places of a state, written at `at`.
fn write_places(s: &mut [u8], at: usize, q: StateRecord)
    requires { at + move_bytes * place_count ≤ length s.old }
    ensures { s.new ≡ put s.old at (moves_to (state_of q)) }
{
    for k in 0..sizes::PLACES {
        write_place(s, at + sizes::MOVE_BYTES * k, used_place(q, k));
    }
}

// A state, written at `at`; the places that it doesn't use become zero.
pub fn write_state(s: &mut [u8], at: usize, q: StateRecord)
    requires { at + state_bytes ≤ length s.old }
    ensures { s.new ≡ put s.old at (state_to (state_of q)) }
{
    words::write_word(s, at, q.label);
    s[at + sizes::COUNT_AT] = q.count;
    s[at + sizes::GAP_AT] = 0;
    write_places(s, at + sizes::PLACES_AT, q);
}
