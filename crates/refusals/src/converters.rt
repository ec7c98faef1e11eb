// A converter in memory: records of 52 bytes, one after the other; refusals 10 and 11, and what each record holds.
ghost use Rattle.std.specs.Prelude.{◌≡◌, not, ◌&&◌, ◌+◌, ◌*◌, ◌<◌, ◌≤◌, ltb, length, get_or};
ghost use Rattle.model.specs.Converters.{node, edge};
ghost use Rattle.model.specs.Judged.{all, same_events};
ghost use Rattle.layout.specs.Sizes.{record_bytes, most_states, place_count};
ghost use Rattle.layout.specs.Tables.{every};
ghost use Rattle.layout.specs.Bytes.{all_zero};
ghost use Rattle.layout.specs.Records.{no_transition, node_of, edge_of};
ghost use Rattle.layout.specs.Unused.{place_gaps};
ghost use Rattle.layout.specs.Converters.{records, converter};
ghost use Rattle.layout.specs.Tests.{in_range, node_right};
ghost use Rattle.refusals.specs.Refusals.{size_right, record_right, records_right, converter_refusal};
ghost use Rattle.refusals.specs.Answered.{refusal_of};

use crate::refusal::Refusal;
use layout::records::{Record, Transition};
use layout::{events, ranges, records, sizes, words};

// How many records there are.
pub fn count(s: &[u8]) -> usize
    ensures { result ≡ records s.now }
{
    s.len() / sizes::RECORD_BYTES
}

// ---- what record c holds

pub fn record(s: &[u8], c: usize) -> Record
    requires { c < records s.now }
    ensures { node_of result ≡ node (converter s.now) c }
{
    records::read_record(s, sizes::RECORD_BYTES * c)
}

// The states of the sides that it names.
pub fn names(s: &[u8], c: usize) -> [u8; sizes::SIDES]
    requires { c < records s.now }
    ensures { result ≡ (node (converter s.now) c).names }
{
    records::read_names(s, sizes::RECORD_BYTES * c)
}

// How many transitions it has.
pub fn edge_count(s: &[u8], c: usize) -> usize
    requires { c < records s.now }
    ensures { result ≡ length (node (converter s.now) c).edges }
{
    words::read_byte(s, sizes::RECORD_BYTES * c + sizes::EDGE_COUNT_AT)
}

// Its transition k.
pub fn edge_at(s: &[u8], c: usize, k: usize) -> Transition
    requires { (c < records s.now) × (k < length (node (converter s.now) c).edges) × (k < place_count) }
    ensures { edge_of result ≡ edge (node (converter s.now) c) k }
{
    records::read_transition(s, sizes::RECORD_BYTES * c, k)
}

// ---- refusals 10 and 11

// Whether there are 1 to 65,536 whole records (10).
#[tactic(auto, using(std::proofs::lemmas::Bool::Decides::nat_tests), unfolding(crate::specs::Refusals::size_right))]
pub fn size_right(s: &[u8]) -> bool
    ensures { result ≡ size_right s.now }
{
    !s.is_empty() && s.len() % sizes::RECORD_BYTES == 0 && count(s) <= sizes::MOST_RECORDS
}

// Whether each is a number that a state can have.
fn names_right(names: [u8; sizes::SIDES]) -> bool
    ensures { result ≡ all (λ s. ltb s most_states) names }
{
    names.iter().all(|&s| usize::from(s) < sizes::MOST_STATES)
}

// Whether a transition has events in range and a next record that is there, of n.
fn transition_right(t: Transition, n: usize) -> bool
    ensures { result ≡ (all in_range t.events && ltb t.next n) }
{
    t.events.iter().all(|&e| events::in_range(e)) && usize::from(t.next) < n
}

// Whether the events of place k stand at no earlier place.
fn events_fresh(r: &Record, k: usize) -> bool
    requires { k < place_count }
    ensures { result ≡ every k (λ j. not (same_events (get_or r.now.places j no_transition).events (get_or r.now.places k no_transition).events)) }
{
    let events = r.places[k].events;
    (0..k).all(|j| r.places[j].events != events)
}

// Whether a record by itself is right, among n (11).
fn node_right(r: Record, n: usize) -> bool
    ensures { result ≡ node_right n (node_of r) }
{
    let count = usize::from(r.count);
    names_right(r.names)
        && (1..=sizes::PLACES).contains(&count)
        && (0..count).all(|k| transition_right(r.places[k], n) && events_fresh(&r, k))
}

// Whether the byte between the events and the next record is zero in each of the first n places of the record at `at`.
fn gaps_right(s: &[u8], at: usize, n: usize) -> bool
    requires { (at + record_bytes ≤ length s.now) × (n ≤ place_count) }
    ensures { result ≡ all_zero (place_gaps n s.now at) }
{
    (0..n).all(|k| s[at + sizes::PLACES_AT + sizes::TRANSITION_BYTES * k + sizes::SIDES] == 0)
}

// Whether the record at `at` is right, in a converter of n records (11).
pub fn record_right(s: &[u8], n: usize, at: usize) -> bool
    requires { at + record_bytes ≤ length s.now }
    ensures { result ≡ record_right s.now n at }
{
    let r = records::read_record(s, at);
    let count = usize::from(r.count);
    node_right(r, n)
        && gaps_right(s, at, count)
        && ranges::is_zero(
            s,
            at + sizes::PLACES_AT + sizes::TRANSITION_BYTES * count,
            sizes::TRANSITION_BYTES * (sizes::PLACES - count),
        )
}

// Whether all records are right (11).
pub fn records_right(s: &[u8]) -> bool
    ensures { result ≡ records_right s.now }
{
    let n = count(s);
    (0..n).all(|k| record_right(s, n, sizes::RECORD_BYTES * k))
}

// The first of 10 and 11 that bytes fail, which are then no converter.
#[tactic(auto, using(std::proofs::lemmas::Bool::Decides::nat_tests), unfolding(crate::specs::Refusals::converter_refusal, crate::specs::Refusals::first_failing))]
pub fn converter_refusal(s: &[u8]) -> Result<(), Refusal>
    ensures { refusal_of result ≡ converter_refusal s.now }
{
    if !size_right(s) {
        return Err(Refusal::ConverterSize);
    }
    if !records_right(s) {
        return Err(Refusal::ConverterRecord);
    }
    Ok(())
}
