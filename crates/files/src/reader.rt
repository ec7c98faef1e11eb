// The block reader: blocks of kind 5 to a converter in memory.
ghost use Rattle.std.specs.Prelude.{◌≡◌, true, cond, ◌+◌, ◌*◌, ◌/◌, ◌%◌, ◌<◌, ◌≤◌, leb, length};
ghost use Rattle.layout.specs.Sizes.{record_bytes, block_bytes, records_in_block, block_records, most_records, most_blocks};
ghost use Rattle.layout.specs.Bytes.{put};
ghost use Rattle.refusals.specs.Answered.{refusal_of};
ghost use Rattle.refusals.specs.Refusals.{first_failing, block_tests, records_right};
ghost use Rattle.files.specs.Files.{blocks, file_block, file_count, file_records};
ghost use Rattle.files.specs.FileRefusals.{earlier, file_size_right, file_tests, read_refusal};
ghost use Rattle.files.specs.Answers.{Reads};

use layout::{ranges, sizes, words};
use refusals::refusal::Refusal;
use refusals::{blocks, converters};

// How many blocks there are.
pub fn block_count(s: &[u8]) -> usize
    ensures { result ≡ blocks s.now }
{
    s.len() / sizes::BLOCK_BYTES
}

// Whether there are 1 to 7,282 whole blocks (1).
fn file_size_right(s: &[u8]) -> bool
    ensures { result ≡ file_size_right s.now }
{
    !s.is_empty() && s.len() % sizes::BLOCK_BYTES == 0 && block_count(s) <= sizes::MOST_BLOCKS
}

// How many records block k of n has at least: all but the last are full.
fn least_count(n: usize, k: usize) -> usize
    requires { k < n }
    ensures { result ≡ (file_block n k).least }
{
    if k + 1 == n { 1 } else { sizes::BLOCK_RECORDS }
}

// The first of 2, 3, 4 and 8 that block k of n fails.
fn block_refusal(s: &[u8], n: usize, k: usize) -> Result<(), Refusal>
    requires { (k < n) × (n ≤ most_blocks) × (block_bytes * n ≤ length s.now) }
    ensures { refusal_of result ≡ first_failing (block_tests s.now (file_block n k)) }
{
    let at = sizes::BLOCK_BYTES * k;
    let first = (sizes::BLOCK_RECORDS * k) as u16;
    if !blocks::check_right(s, at) {
        return Err(Refusal::BlockCheck);
    }
    if !blocks::header_right(s, at, usize::from(sizes::CONVERTER_KIND), first) {
        return Err(Refusal::BlockHeader);
    }
    if !blocks::count_right(s, at, least_count(n, k), sizes::BLOCK_RECORDS) {
        return Err(Refusal::RecordCount);
    }
    let count = words::read_byte(s, at + sizes::COUNT_IN_BLOCK);
    if !blocks::behind_right(s, at, sizes::RECORD_BYTES * count) {
        return Err(Refusal::UnusedByte);
    }
    Ok(())
}

// ---- all blocks

// Of two answers the refusal that comes first.
fn earlier(a: Result<(), Refusal>, b: Result<(), Refusal>) -> Result<(), Refusal>
    ensures { refusal_of result ≡ earlier (refusal_of a) (refusal_of b) }
{
    match (a, b) {
        (Ok(()), _) => b,
        (_, Ok(())) => a,
        (Err(x), Err(y)) => { if x.number() <= y.number() { a } else { b } }
    }
}

// How many records the file has, whose earlier blocks are taken to be full.
pub fn record_count(s: &[u8]) -> usize
    requires { file_size_right s.now ≡ true }
    ensures { result ≡ file_count s.now }
{
    let last = block_count(s) - 1;
    sizes::BLOCK_RECORDS * last
        + words::read_byte(s, sizes::BLOCK_BYTES * last + sizes::COUNT_IN_BLOCK)
}

// 4 where that is over 65,536.
fn count_refusal(s: &[u8]) -> Result<(), Refusal>
    requires { file_size_right s.now ≡ true }
    ensures { refusal_of result ≡ cond (leb (file_count s.now) most_records) 0 4 }
{
    if sizes::MOST_RECORDS < record_count(s) {
        return Err(Refusal::RecordCount);
    }
    Ok(())
}

// Where record j stands.
fn record_place(j: usize) -> usize
    requires { j < most_records }
    ensures { result ≡ block_bytes * (j / block_records) + records_in_block + record_bytes * (j % block_records) }
{
    sizes::BLOCK_BYTES * (j / sizes::BLOCK_RECORDS)
        + sizes::RECORDS_IN_BLOCK
        + sizes::RECORD_BYTES * (j % sizes::BLOCK_RECORDS)
}

// Whether all records are right (11).
fn file_records_right(s: &[u8]) -> bool
    requires { (file_size_right s.now ≡ true) × (file_count s.now ≤ most_records) × (file_count s.now ≤ block_records * blocks s.now) }
    ensures { result ≡ records_right (file_records s.now) }
{
    let n = record_count(s);
    (0..n).all(|j| converters::record_right(s, n, record_place(j)))
}

// The records of the file, one after the other.
fn read_records(s: &[u8], converter: &mut [u8])
    requires { (file_size_right s.now ≡ true) × (file_count s.now ≤ most_records) × (file_count s.now ≤ block_records * blocks s.now)
        × (record_bytes * file_count s.now ≤ length converter.old) }
    ensures { converter.new ≡ put converter.old 0 (file_records s.now) }
{
    for j in 0..record_count(s) {
        ranges::copy(
            s,
            record_place(j),
            converter,
            sizes::RECORD_BYTES * j,
            sizes::RECORD_BYTES,
        );
    }
}

// The first of 1 to 4, 8 and 11 that holds. Each block is tested once: the first refusal of the file is the earliest that
// any of its blocks gives.
pub fn file_refusal(s: &[u8]) -> Result<(), Refusal>
    ensures { refusal_of result ≡ first_failing (file_tests s.now) }
{
    if !file_size_right(s) {
        return Err(Refusal::Length);
    }
    let n = block_count(s);
    let mut first = count_refusal(s);
    // first is the earliest refusal by the record count and the first k blocks.
    for k in 0..n {
        first = earlier(first, block_refusal(s, n, k));
    }
    first?;
    if !file_records_right(s) {
        return Err(Refusal::ConverterRecord);
    }
    Ok(())
}

// The same, then 12 with so much room lent for the records.
pub fn read_refusal(s: &[u8], room: usize) -> Result<(), Refusal>
    ensures { refusal_of result ≡ read_refusal s.now room }
{
    file_refusal(s)?;
    if room < sizes::RECORD_BYTES * record_count(s) {
        return Err(Refusal::Room);
    }
    Ok(())
}

// Blocks to a converter; the answer is how many records it has. Every test comes before the first byte is written.
pub fn read(blocks: &[u8], converter: &mut [u8]) -> Result<usize, Refusal>
    ensures { Reads blocks.now converter.old converter.new result }
{
    read_refusal(blocks, converter.len())?;
    read_records(blocks, converter);
    Ok(record_count(blocks))
}
