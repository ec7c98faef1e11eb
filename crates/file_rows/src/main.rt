// Runs the rows of the specification on the writer and the block reader. For each it writes a line: what was tried, and the answer, which is a count or the
// number of a refusal. What is lent for a result is 170 everywhere at first, so that a byte that was written shows; a second line says whether it is as it was.
#![tactic(auto)]

ghost use Rattle.std.specs.Prelude.{◌<◌, ◌≤◌, length};

use layout::{blocks, sizes};
use row_parts::{lines, tables};

// ---- the calls, and their answers as a number

fn write_front(converter: &[u8], lent: &mut [u8]) -> u64 {
    match files::writer::write(converter, lent) {
        Ok(n) => n as u64,
        Err(refusal) => u64::from(refusal.number()),
    }
}

fn read_front(file: &[u8], lent: &mut [u8]) -> u64 {
    match files::reader::read(file, lent) {
        Ok(n) => n as u64,
        Err(refusal) => u64::from(refusal.number()),
    }
}

// ---- what a call answers with so many of the lent bytes, and whether it left them as they were

fn unchanged(rt: &impl Print, lent: &[u8; 1024]) {
    lines::yes_or_no(rt, "  lent bytes unchanged", *lent == [170; 1024]);
}

fn write(rt: &impl Print, words: &str, converter: &[u8], room: usize)
    requires { room ≤ 1024 }
{
    let mut lent = [170u8; 1024];
    lines::line(rt, words, write_front(converter, &mut lent[..room]));
    unchanged(rt, &lent);
}

fn read(rt: &impl Print, words: &str, file: &[u8], room: usize)
    requires { room ≤ 1024 }
{
    let mut lent = [170u8; 1024];
    lines::line(rt, words, read_front(file, &mut lent[..room]));
    unchanged(rt, &lent);
}

// ---- the writer

// F with a byte changed.
fn changed_record(rt: &impl Print, words: &str, at: usize, v: u8)
    requires { at < 156 }
{
    let mut c = tables::F;
    c[at] = v;
    write(rt, words, &c, 512);
}

fn writer(rt: &impl Print) {
    write(rt, "a converter of 0 bytes", &[], 512);
    write(rt, "a converter of 51 bytes", &[0; 51], 512);
    write(rt, "a converter of 53 bytes", &[0; 53], 512);
    changed_record(rt, "a record of state 16", 0, 16);
    changed_record(rt, "a record with 0 transitions", 3, 0);
    changed_record(rt, "a record with 9 transitions", 3, 9);
    changed_record(rt, "a record with 255 transitions", 3, 255);
    changed_record(rt, "the zero inside a place of a record", 7, 1);
    changed_record(rt, "event -64 in a record", 4, 192);
    changed_record(rt, "the events of the sides twice", 10, 1);
    changed_record(rt, "a next record that isn't there", 8, 3);
    changed_record(rt, "an unused place of a record", 51, 1);
    write(rt, "F, 511 bytes lent", &tables::F, 511);
    write(rt, "F, 512 bytes lent, blocks", &tables::F, 512);
}

// ---- the block reader

// F five times over: fifteen records.
fn fifteen() -> [u8; 780] {
    let mut c = [0u8; 780];
    for i in 0..5 {
        c[156 * i..156 * (i + 1)].copy_from_slice(&tables::F);
    }
    c
}

// Their file: a block of nine records, and one of six.
fn two_blocks() -> [u8; 1024] {
    let mut file = [0u8; 1024];
    let _blocks = files::writer::write(&fifteen(), &mut file);
    file
}

// The file with a byte changed, and the check of its block put right again where that is asked.
fn changed_file(rt: &impl Print, words: &str, at: usize, v: u8, sealed: bool)
    requires { at < 1024 }
{
    let mut file = two_blocks();
    file[at] = v;
    if sealed {
        blocks::seal(&mut file, sizes::BLOCK_BYTES * (at / sizes::BLOCK_BYTES));
    }
    read(rt, words, &file, 780);
}

// The file as it is.
fn whole_file(rt: &impl Print, words: &str, room: usize)
    requires { room ≤ 1024 }
{
    read(rt, words, &two_blocks(), room);
}

fn reader(rt: &impl Print) {
    read(rt, "a file of 0 bytes", &[], 780);
    read(rt, "a file of 1 byte", &[0], 780);
    read(rt, "a file of 511 bytes", &[0; 511], 780);
    read(rt, "a file of 513 bytes", &[0; 513], 780);
    changed_file(rt, "a wrong check", 510, 1, false);
    changed_file(rt, "a wrong kind and a wrong check", 512, 9, false);
    changed_file(rt, "a wrong kind", 512, 9, true);
    changed_file(rt, "a wrong first record", 514, 10, true);
    changed_file(rt, "a last block with 0 records", 513, 0, true);
    changed_file(rt, "a last block with 10 records", 513, 10, true);
    changed_file(rt, "a last block with 255 records", 513, 255, true);
    changed_file(rt, "an earlier block with 8 records", 1, 8, true);
    changed_file(rt, "an earlier block with 255 records", 1, 255, true);
    changed_file(rt, "a byte behind the last record", 828, 1, true);
    changed_file(rt, "a record of state 16 in a file", 4, 16, true);
    changed_file(rt, "a next record past the file", 12, 15, true);
    changed_file(rt, "the zero inside a place in a file", 11, 1, true);
    whole_file(rt, "15 records, 779 bytes lent", 779);
    whole_file(rt, "15 records, 780 bytes lent, records", 780);
}

// ---- what is written is read back the same, and no byte behind it is changed

// A converter, and as many bytes as its file has.
fn back(rt: &impl Print, words: &str, converter: &[u8], file: &mut [u8])
    requires { length converter.now ≤ 1024 }
{
    let mut lent = [170u8; 1024];
    let mut expected = [170u8; 1024];
    let _blocks = files::writer::write(converter, file);
    let _records = files::reader::read(file, &mut lent);
    expected[..converter.len()].copy_from_slice(converter);
    lines::yes_or_no(rt, words, lent == expected);
}

fn main(rt: HostRuntime) {
    writer(&rt);
    reader(&rt);
    back(&rt, "F written and read back", &tables::F, &mut [0; 512]);
    back(
        &rt,
        "15 records written and read back",
        &fifteen(),
        &mut [0; 1024],
    );
}
