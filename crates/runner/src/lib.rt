// One tick of a converter over its bytes: the sides show events, the first transition of the runner's record that fits is taken, and its
// events are delivered.
#![tactic(auto)]

ghost use Rattle.std.specs.Prelude.{◌≡◌, true, [], ◌∷◌, ◌*◌, ◌<◌};
ghost use Rattle.model.specs.Converters.{node};
ghost use Rattle.model.specs.Judged.{all};
ghost use Rattle.model.specs.Runs.{fits, all_fit, first_fit};
ghost use Rattle.layout.specs.Sizes.{record_bytes};
ghost use Rattle.layout.specs.Converters.{records, converter};
ghost use Rattle.refusals.specs.Refusals.{record_right};
ghost use Rattle.refusals.specs.Answered.{refusal_of};
ghost use Rattle.runner.specs.Ticks.{can_show, tick_refusal, taken, ticked, ticked_as, Ticks};

use layout::{events, sizes};
use refusals::converters;
use refusals::refusal::Refusal;

// What a host lends: the number of a record, and the events last delivered to the sides.
#[repr(C)]
#[derive(Clone, Copy, PartialEq, Eq, Debug)]
pub struct Runner {
    pub record: u16,
    pub first: i8,
    pub second: i8,
    pub third: i8,
}

// ---- what fits

// Whether a side can show an event: one that is not above 0 and not below -63.
fn can_show(x: i8) -> bool
    ensures { result ≡ can_show x }
{
    x <= 0 && events::in_range(x)
}

// The same of all sides.
fn can_show_all(shown: [i8; sizes::SIDES]) -> bool
    ensures { result ≡ all can_show shown }
{
    shown.iter().all(|&x| can_show(x))
}

// Whether a shown event fits an event of its side: the event that it equals, and 0 any event that is not sent.
fn fits_event(shown: i8, event: i8) -> bool
    ensures { result ≡ fits shown event }
{
    if shown == 0 {
        0 <= event
    } else {
        shown < 0 && shown == event
    }
}

// The same of all sides.
fn fits_events(shown: [i8; sizes::SIDES], events: [i8; sizes::SIDES]) -> bool
    ensures { result ≡ all_fit shown events }
{
    shown.iter().zip(&events).all(|(&x, &e)| fits_event(x, e))
}

// ---- the tick

// The refusal of the first test that fails.
#[tactic(auto, using(std::proofs::lemmas::Bool::Decides::nat_tests), unfolding(crate::specs::Ticks::tick_refusal, refusals::specs::Refusals::first_failing))]
fn tick_refusal(s: &[u8], c: usize, shown: [i8; sizes::SIDES]) -> Result<(), Refusal>
    ensures { refusal_of result ≡ tick_refusal s.now c shown }
{
    if !converters::size_right(s) {
        return Err(Refusal::ConverterSize);
    }
    let n = converters::count(s);
    if n <= c {
        return Err(Refusal::NoStep);
    }
    if !converters::record_right(s, n, sizes::RECORD_BYTES * c) {
        return Err(Refusal::ConverterRecord);
    }
    if !can_show_all(shown) {
        return Err(Refusal::NoStep);
    }
    Ok(())
}

// The first transition of record c that fits is taken, where c is a right record.
fn take_first(
    s: &[u8],
    c: usize,
    runner: Runner,
    shown: [i8; sizes::SIDES],
) -> Result<Runner, Refusal>
    requires { (c < records s.now) × (record_right s.now (records s.now) (record_bytes * c) ≡ true) }
    ensures { ticked_as runner result ≡ taken runner (first_fit shown (node (converter s.now) c).edges) }
{
    // None of the first k transitions fits.
    for k in 0..converters::edge_count(s, c) {
        let t = converters::edge_at(s, c, k);
        // The sides' events are the duals of those in the record.
        let events = events::duals(t.events);
        if fits_events(shown, events) {
            let [first, second, third] = events;
            return Ok(Runner {
                record: t.next,
                first,
                second,
                third,
            });
        }
    }
    Err(Refusal::NoStep)
}

// A tick with the runner by value.
pub fn step(
    converter: &[u8],
    runner: Runner,
    first: i8,
    second: i8,
    third: i8,
) -> Result<Runner, Refusal>
    ensures { ticked_as runner result ≡ ticked converter.now runner (first ∷ second ∷ third ∷ []) }
{
    let c = usize::from(runner.record);
    let shown = [first, second, third];
    tick_refusal(converter, c, shown)?;
    take_first(converter, c, runner, shown)
}

// A tick with the runner lent. A refusal leaves it as it was.
pub fn tick(
    converter: &[u8],
    runner: &mut Runner,
    first: i8,
    second: i8,
    third: i8,
) -> Result<(), Refusal>
    ensures { Ticks converter.now runner.old (first ∷ second ∷ third ∷ []) result runner.new }
{
    *runner = step(converter, *runner, first, second, third)?;
    Ok(())
}
