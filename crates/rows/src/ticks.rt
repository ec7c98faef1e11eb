// Rows of the tick.
use layout::events;
use row_parts::{lines, tables};
use runner::Runner;

// One tick of a converter from a record: the answer, and what the library left of the runner that it was lent, after a refusal too.
fn tick(rt: &impl Print, words: &str, converter: &[u8], record: u16, shown: (i8, i8, i8)) {
    let mut then = Runner {
        record,
        first: 0,
        second: 0,
        third: 0,
    };
    let (first, second, third) = shown;
    let answer = runner::tick(converter, &mut then, first, second, third);
    lines::line(rt, words, lines::number(answer));
    lines::line(rt, "  then at record", u64::from(then.record));
    for (side, event) in [(1, then.first), (2, then.second), (3, then.third)] {
        let _ = println!(rt;
            "  delivered to side {side}, as a byte: {}",
            events::to_byte(event)
        );
    }
}

pub fn rows(rt: &impl Print) {
    for (words, converter, record, shown) in [
        (
            "F at record 1, shown -2 and 0",
            &tables::F[..],
            1,
            (-2, 0, 0),
        ),
        ("F at record 0, shown -2 and 0", &tables::F, 0, (-2, 0, 0)),
        ("F at record 3, shown 0 and 0", &tables::F, 3, (0, 0, 0)),
        ("F at record 0, shown 1 and 0", &tables::F, 0, (1, 0, 0)),
        (
            "F at record 1, shown -2 and 0, and -1 by the third side",
            &tables::F,
            1,
            (-2, 0, -1),
        ),
        (
            "eight joint moves, shown -1, 0 and -3",
            &tables::ALL_EIGHT,
            0,
            (-1, 0, -3),
        ),
    ] {
        tick(rt, words, converter, record, shown);
    }
}
