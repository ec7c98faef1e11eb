// The writer: a converter to blocks of kind 5, 9 records each, the last 1 to 9.
ghost use Rattle.std.specs.Prelude.{◌≡◌, ◌+◌, ◌-◌, ◌*◌, ◌<◌, ◌≤◌, min, length};
ghost use Rattle.layout.specs.Sizes.{block_bytes, block_records, most_records};
ghost use Rattle.layout.specs.Bytes.{put};
ghost use Rattle.layout.specs.Converters.{records};
ghost use Rattle.refusals.specs.Answered.{refusal_of};
ghost use Rattle.refusals.specs.Refusals.{converter_refusal};
ghost use Rattle.files.specs.Files.{blocks_for, written_block, written};
ghost use Rattle.files.specs.FileRefusals.{write_refusal};
ghost use Rattle.files.specs.Answers.{Writes};

use layout::sizes;
use refusals::converters;
use refusals::refusal::Refusal;

// How many blocks n records fill.
pub fn blocks_for(n: usize) -> usize
    requires { n ≤ most_records }
    ensures { result ≡ blocks_for n }
{
    n.div_ceil(sizes::BLOCK_RECORDS)
}

// The first of 10 to 12 that holds, with so much room lent for the blocks.
pub fn write_refusal(converter: &[u8], room: usize) -> Result<(), Refusal>
    ensures { refusal_of result ≡ write_refusal converter.now room }
{
    converters::converter_refusal(converter)?;
    if room < sizes::BLOCK_BYTES * blocks_for(converters::count(converter)) {
        return Err(Refusal::Room);
    }
    Ok(())
}

// How many records block k holds, of n.
fn count_in_block(n: usize, k: usize) -> usize
    requires { block_records * k < n }
    ensures { result ≡ min block_records (n - block_records * k) }
{
    sizes::BLOCK_RECORDS.min(n - sizes::BLOCK_RECORDS * k)
}

// Block k of the file of a converter, written at its place.
fn write_block(converter: &[u8], k: usize, blocks: &mut [u8])
    requires { (converter_refusal converter.now ≡ 0) × (k < blocks_for (records converter.now)) × (block_bytes * k + block_bytes ≤ length blocks.old) }
    ensures { blocks.new ≡ put blocks.old (block_bytes * k) (written_block converter.now k) }
{
    let at = sizes::BLOCK_BYTES * k;
    let first = sizes::BLOCK_RECORDS * k;
    let count = count_in_block(converters::count(converter), k);
    layout::blocks::write(
        blocks,
        at,
        sizes::CONVERTER_KIND,
        count as u8,
        first as u16,
        converter,
        sizes::RECORD_BYTES * first,
        sizes::RECORD_BYTES * count,
    );
}

// All blocks of the file of a converter.
fn write_blocks(converter: &[u8], blocks: &mut [u8])
    requires { write_refusal converter.now (length blocks.old) ≡ 0 }
    ensures { blocks.new ≡ put blocks.old 0 (written converter.now) }
{
    for k in 0..blocks_for(converters::count(converter)) {
        write_block(converter, k, blocks);
    }
}

// A converter to blocks; the answer is how many they are.
pub fn write(converter: &[u8], blocks: &mut [u8]) -> Result<usize, Refusal>
    ensures { Writes converter.now blocks.old blocks.new result }
{
    write_refusal(converter, blocks.len())?;
    write_blocks(converter, blocks);
    Ok(blocks_for(converters::count(converter)))
}
