// A converter record by value.
ghost use Rattle.std.specs.Prelude.{◌≡◌, ◌+◌, ◌*◌, ◌<◌, ◌≤◌, length};
ghost use Rattle.model.specs.Judged.{same_events};
ghost use Rattle.layout.specs.Sizes.{side_count, place_count, places_at, record_bytes, transition_bytes};
ghost use Rattle.layout.specs.Bytes.{put};
ghost use Rattle.layout.specs.Records.{names_at, events_at, transition_at, record_at, names_to, events_to, transition_to, header_to, places_to, record_to, named, present, added};

use crate::{events, sizes, words};

// A transition place of a converter record: an event for each side, and the next record.
#[derive(Clone, Copy, PartialEq, Eq, Debug)]
pub struct Transition {
    pub events: [i8; sizes::SIDES],
    pub next: u16,
}

// The state of each side that the record names, and its transitions.
#[derive(Clone, Copy, PartialEq, Eq, Debug)]
pub struct Record {
    pub names: [u8; sizes::SIDES],
    pub count: u8,
    pub places: [Transition; sizes::PLACES],
}

#[derive(Clone, Copy, PartialEq, Eq, Debug)]
pub enum Outcome {
    Added,
    // The events are there already.
    Present,
    // All places are used.
    Full,
}

// The record as it is after an addition.
#[derive(Clone, Copy, PartialEq, Eq, Debug)]
pub struct Addition {
    pub outcome: Outcome,
    pub left: Record,
}

// The side states that are named from `at` on.
pub fn read_names(s: &[u8], at: usize) -> [u8; sizes::SIDES]
    requires { at + side_count ≤ length s.now }
    ensures { result ≡ names_at s.now at }
{
    std::array::from_fn(|i| s[at + i])
}

// The events of the sides from `at` on.
fn read_events(s: &[u8], at: usize) -> [i8; sizes::SIDES]
    requires { at + side_count ≤ length s.now }
    ensures { result ≡ events_at s.now at }
{
    std::array::from_fn(|i| events::read_event(s, at + i))
}

// Place k of the converter record at `at`.
pub fn read_transition(s: &[u8], at: usize, k: usize) -> Transition
    requires { (k < place_count) × (at + record_bytes ≤ length s.now) }
    ensures { result ≡ transition_at s.now at k }
{
    let i = at + sizes::PLACES_AT + sizes::TRANSITION_BYTES * k;
    Transition {
        events: read_events(s, i),
        next: words::read_word(s, i + sizes::NEXT_AT),
    }
}

pub fn read_record(s: &[u8], at: usize) -> Record
    requires { at + record_bytes ≤ length s.now }
    ensures { result ≡ record_at s.now at }
{
    Record {
        names: read_names(s, at),
        count: s[at + sizes::EDGE_COUNT_AT],
        places: std::array::from_fn(|k| read_transition(s, at, k)),
    }
}

// Whether two lists of events, one a side, are the same.
pub fn same_events(x: [i8; sizes::SIDES], y: [i8; sizes::SIDES]) -> bool
    ensures { result ≡ same_events x y }
{
    x == y
}

impl Record {
    // A record that names these side states and has no transition yet.
    pub fn new(names: [u8; sizes::SIDES]) -> Record
        ensures { result ≡ named names }
    {
        let unused = Transition {
            events: [0; sizes::SIDES],
            next: 0,
        };
        Record {
            names,
            count: 0,
            places: [unused; sizes::PLACES],
        }
    }

    // Whether the record has a transition for these events.
    pub fn has(self, events: [i8; sizes::SIDES]) -> bool
        requires { self.count ≤ place_count }
        ensures { result ≡ present self events }
    {
        self.places[..usize::from(self.count)]
            .iter()
            .any(|t| t.events == events)
    }

    // One transition more, unless its events are there already or all places are used.
    pub fn add(self, t: Transition) -> Addition
        requires { self.count ≤ place_count }
        ensures { result ≡ added self t }
    {
        let mut left = self;
        let n = usize::from(self.count);
        let outcome = if self.has(t.events) {
            Outcome::Present
        } else if n < sizes::PLACES {
            left.places[n] = t;
            left.count += 1;
            Outcome::Added
        } else {
            Outcome::Full
        };
        Addition { outcome, left }
    }
}

// The events of the sides, written at `at`.
fn write_events(s: &mut [u8], at: usize, written: [i8; sizes::SIDES])
    requires { at + side_count ≤ length s.old }
    ensures { s.new ≡ put s.old at (events_to written) }
{
    s[at..at + sizes::SIDES].copy_from_slice(&written.map(events::to_byte));
}

// The side states that a record names, written at `at`.
fn write_names(s: &mut [u8], at: usize, names: [u8; sizes::SIDES])
    requires { at + side_count ≤ length s.old }
    ensures { s.new ≡ put s.old at (names_to names) }
{
    s[at..at + sizes::SIDES].copy_from_slice(&names);
}

// A transition place, written at `at`.
pub fn write_transition(s: &mut [u8], at: usize, t: Transition)
    requires { at + transition_bytes ≤ length s.old }
    ensures { s.new ≡ put s.old at (transition_to t) }
{
    write_events(s, at, t.events);
    s[at + sizes::SIDES] = 0;
    words::write_word(s, at + sizes::NEXT_AT, t.next);
}

// The names and the count of a record, written at `at`.
fn write_header(s: &mut [u8], at: usize, r: Record)
    requires { at + places_at ≤ length s.old }
    ensures { s.new ≡ put s.old at (header_to r) }
{
    write_names(s, at, r.names);
    s[at + sizes::EDGE_COUNT_AT] = r.count;
}

// The eight places of a record, written at `at`.
fn write_places(s: &mut [u8], at: usize, r: Record)
    requires { at + transition_bytes * place_count ≤ length s.old }
    ensures { s.new ≡ put s.old at (places_to r) }
{
    for k in 0..sizes::PLACES {
        write_transition(s, at + sizes::TRANSITION_BYTES * k, r.places[k]);
    }
}

// A record, written at `at`.
pub fn write_record(s: &mut [u8], at: usize, r: Record)
    requires { at + record_bytes ≤ length s.old }
    ensures { s.new ≡ put s.old at (record_to r) }
{
    write_header(s, at, r);
    write_places(s, at + sizes::PLACES_AT, r);
}
