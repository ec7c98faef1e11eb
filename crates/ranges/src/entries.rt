// The lent list: four bytes an entry.
ghost use Rattle.std.specs.Prelude.{◌≡◌, cond, ◌<◌, ◌≤◌, eqb, None, Some};
ghost use Rattle.model.specs.Ranges.{last_count, count_number};
ghost use Rattle.layout.specs.Sizes.{most_states};
ghost use Rattle.ranges.specs.Entries.{no_greatest, entry_count, entry_at, range_of};

// Bytes of an entry, the most waits that a count may be, and what stands for no greatest.
pub const ENTRY_BYTES: usize = 4;

pub const MOST_WAITS: u8 = 15;

pub const NO_GREATEST: u8 = 255;

// How often a state of a side may wait.
#[derive(Clone, Copy)]
pub struct Entry {
    pub side: u8,
    pub state: u8,
    pub least: u8,
    pub greatest: u8,
}

// How many whole entries the list has.
pub fn count(entries: &[u8]) -> usize
    ensures { result ≡ entry_count entries.now }
{
    entries.len() / ENTRY_BYTES
}

// Entry j.
pub fn read_entry(entries: &[u8], j: usize) -> Entry
    requires { j < entry_count entries.now }
    ensures { result ≡ entry_at entries.now j }
{
    let at = ENTRY_BYTES * j;
    Entry {
        side: entries[at],
        state: entries[at + 1],
        least: entries[at + 2],
        greatest: entries[at + 3],
    }
}

// The greatest count, where there is one.
pub fn greatest(e: Entry) -> Option<u8>
    ensures { result ≡ cond (eqb e.greatest no_greatest) None (Some e.greatest) }
{
    if e.greatest == NO_GREATEST {
        None
    } else {
        Some(e.greatest)
    }
}

// The last count that has a state: with no greatest it is the least.
pub fn last_count(e: Entry) -> usize
    ensures { result ≡ last_count (range_of e) }
{
    usize::from(greatest(e).unwrap_or(e.least))
}

// The number of count k, where the later counts stand from number n on.
pub fn count_number(e: Entry, n: usize, k: usize) -> u8
    requires { (n ≤ most_states) × (k ≤ most_states) }
    ensures { result ≡ count_number (range_of e) n k }
{
    if k == 0 { e.state } else { (n + (k - 1)) as u8 }
}
