// Reads a design from standard input and writes the blocks of a converter for it to standard output; or one line, the word "refused" and the number.
#![tactic(auto)]

ghost use Rattle.std.specs.Prelude.{◌*◌, ◌≤◌, length};
ghost use Rattle.layout.specs.Sizes.{block_bytes};
ghost use Rattle.layout.specs.Converters.{records};
ghost use Rattle.files.specs.Files.{blocks_for};
ghost use Rattle.convert.specs.Convert.{Converts};

use files::writer;
use layout::sizes;
use refusals::refusal::Refusal;
use std::io::{self, Read, Write};

// The blocks of the converter that a search finds. So many blocks are lent as the records that the table holds may fill, so that the writer refuses nothing.
fn convert(
    design: &[u8],
    table: &mut [u8],
    work: &mut [u8],
    blocks: &mut [u8],
) -> Result<usize, Refusal>
    requires { block_bytes * blocks_for (records table.old) ≤ length blocks.old }
    ensures { Converts design.now table.old work.old blocks.old result table.new work.new blocks.new }
{
    let n = search::search(design, table, work)?;
    let size = sizes::RECORD_BYTES * (n as usize);
    writer::write(&table[..size], blocks)
}

// What there is to say of a design: 1,152 records of table, 18,432 bytes of work, and 128 blocks, which hold that many records. The arrays are what
// docs/SPECIFICATION.md says of the program's memory. A write that fails is passed over.
fn answer(rt: &impl Print, design: &[u8]) {
    let mut table = [0u8; 59904];
    let mut work = [0u8; 18432];
    let mut blocks = [0u8; 65536];
    match convert(design, &mut table, &mut work, &mut blocks) {
        Ok(n) => {
            let size = sizes::BLOCK_BYTES * n;
            let _ = io::writer(rt).write_all(&blocks[..size]);
        }
        Err(refusal) => {
            let _ = println!(rt; "refused {}", refusal.number());
        }
    }
}

// Reads until the buffer is full, the input ends or a read fails: how many bytes of the buffer were read.
fn read_front(input: &mut impl Read, buf: &mut [u8]) -> usize
    ensures { result ≤ length buf.new }
{
    let mut n = 0;
    // A while: a read may give fewer bytes than there is room for.
    while n < buf.len() {
        let more = input.read(&mut buf[n..]).unwrap_or(0);
        if more == 0 {
            break;
        }
        n += more;
    }
    n
}

// A byte more than the longest design has is asked for, so that a longer input is seen to be one.
fn main(rt: HostRuntime) {
    let mut design = [0u8; 2561];
    let n = read_front(&mut rt.reader(), &mut design);
    answer(&rt, &design[..n]);
}
