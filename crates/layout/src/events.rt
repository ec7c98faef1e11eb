// Events: signed bytes, two's complement.
ghost use Rattle.std.specs.Prelude.{◌≡◌, ℕ, ◌<◌, length, slice_index_or};
ghost use Rattle.model.specs.Events.{tick, InRange, sent, dual, duals, same_event};
ghost use Rattle.layout.specs.Sizes.{side_count};
ghost use Rattle.layout.specs.Bytes.{byte, event_of, event_byte};
ghost use Rattle.layout.specs.Tests.{in_range};

use crate::sizes;

// The event that a byte stands for.
pub fn to_event(b: u8) -> i8
    ensures { result ≡ event_of b }
{
    b.cast_signed()
}

// The byte that stands for an event.
pub fn to_byte(e: i8) -> u8
    ensures { result ≡ event_byte e }
{
    e.cast_unsigned()
}

pub fn read_event(s: &[u8], at: usize) -> i8
    requires { at < length s.now }
    ensures { result ≡ event_of (byte s.now at) }
{
    to_event(s[at])
}

// An event from -63 to 63.
pub fn in_range(e: i8) -> bool
    ensures { result ≡ in_range e }
{
    -63 <= e && e <= 63
}

// The sent events are the negative ones.
pub fn is_sent(e: i8) -> bool
    ensures { result ≡ sent e }
{
    e < 0
}

// The dual of an event. -128 has none, so the range comes first.
pub fn dual_of(e: i8) -> i8
    requires { InRange e }
    ensures { result ≡ dual e }
{
    -e
}

// The dual of the event of each side.
pub fn duals(e: [i8; sizes::SIDES]) -> [i8; sizes::SIDES]
    requires { (i : ℕ) → i < side_count → InRange (slice_index_or e i tick) }
    ensures { result ≡ duals e }
{
    e.map(dual_of)
}

pub fn same(a: i8, b: i8) -> bool
    ensures { result ≡ same_event a b }
{
    a == b
}
