// Every size and every limit, in one place, as in specs/Sizes.

// What a design has.
pub const SIDES: usize = 3;

pub const MOST_STATES: usize = 16;

pub const MOST_FORMULAS: usize = 64;

pub const MOST_RULES: usize = 16;

// Labels of a side, the bits of its label word; a proposition is a label of one of the sides.
pub const SIDE_LABELS: usize = 16;

pub const LAST_PROPOSITION: usize = SIDE_LABELS * SIDES - 1;

// Transition places of a state, and of a converter record.
pub const PLACES: usize = 8;

// The states of all sides.
pub const ALL_STATES: usize = MOST_STATES * SIDES;

// Joint states, joint moves of one of them, and what these show: a send or none of each side.
pub const MOST_JOINTS: usize = 4096;

pub const MOST_MOVES: usize = 512;

pub const SHOWS: usize = 8;

// The search takes a design with at most so many positions.
pub const MOST_POSITIONS: usize = 65536;

// Lent work: so many bytes for each position of a search and for each record that is judged.
pub const CELL_BYTES: usize = 16;

// Records: their bytes, where a record with places has its count (a converter record behind the names), its unused byte and its places, and the bytes of a place.
pub const STATE_BYTES: usize = 20;

pub const FORMULA_BYTES: usize = 4;

pub const RECORD_BYTES: usize = 52;

pub const COUNT_AT: usize = 2;

pub const EDGE_COUNT_AT: usize = SIDES;

pub const GAP_AT: usize = 3;

pub const PLACES_AT: usize = 4;

pub const MOVE_BYTES: usize = 2;

pub const TRANSITION_BYTES: usize = 6;

pub const NEXT_AT: usize = 4;

// Blocks.
pub const BLOCK_BYTES: usize = 512;

pub const COUNT_IN_BLOCK: usize = 1;

pub const FIRST_IN_BLOCK: usize = 2;

pub const RECORDS_IN_BLOCK: usize = 4;

pub const CHECK_IN_BLOCK: usize = 510;

// A design has a block for each of two sides at least, and behind the sides' blocks two more, of formulas and of rules.
pub const LEAST_SIDES: usize = 2;

pub const OTHER_BLOCKS: usize = 2;

// Converters.
pub const CONVERTER_KIND: u8 = 5;

pub const BLOCK_RECORDS: usize = 9;

pub const MOST_RECORDS: usize = 65536;

pub const MOST_BLOCKS: usize = 7282;
