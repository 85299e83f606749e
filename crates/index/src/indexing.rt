// An index of the combinations, made once for a build: where those of each phone end, then rows of bits.
// There is a row for each column left of the centre and each phone; it has a bit for each combination, set
// where that column has the phone. Each word of a row is a set of places, 1 to 64. What has no room in the
// index is left out.
ghost use Rattle.std.specs.Prelude.{◌≡◌, ◌≤◌, length};
ghost use Rattle.definitions.specs.Combinations.{most_combinations};
ghost use Rattle.index.specs.Filling.{Narrow, InRows, Markable, Fillable, PlaceMarked, PhonesMarked};
ghost use Rattle.index.specs.Filling.{ColumnsMarked, CombinationsMarked, Noted, Filled};
ghost use Rattle.index.specs.RecordWords.{count_in};
ghost use Rattle.index.specs.Indexing.{ends_size, blocks_in, row_at, farthest, NearRow, MemberFound};

use crate::records::{count_of, record_at};
use definitions::sizes::combination_size;
use definitions::{Header, wide};
use matrix::sets::alone;

// How many combinations have their bits in one word, and how many words the ends take.
pub const BLOCK_SIZE: usize = 64;

pub const ENDS_SIZE: usize = 65;

// The first member of a set, from one on.
pub fn next_member(set: u64, from: u32) -> Option<u32>
    requires { (1 ≤ from) × (from ≤ 65) }
    ensures { MemberFound set from result }
{
    if 64 < from {
        return None;
    }
    let next = from + u64::trailing_zeros(set >> (from - 1));
    if next <= 64 { Some(next) } else { None }
}

// How many words a row takes.
pub fn blocks_in(half: u32, combinations: &[u64]) -> usize
    ensures { result ≡ blocks_in half combinations.now }
{
    count_of(half, combinations) / BLOCK_SIZE + 1
}

// Where the row of a column and a phone begins.
pub fn row_at(header: Header, blocks: usize, column: usize, phone: u32) -> usize
    requires { NearRow header.phones blocks column × (phone ≤ 65) }
    ensures { (result ≡ row_at header.phones blocks column phone) × (result ≤ farthest) }
{
    ENDS_SIZE + (column * wide(header.phones) + wide(phone)) * blocks
}

// Sets the bit at a place of a word, if the index has the word.
fn mark(index: &mut [u64], at: usize, place: u32)
    requires { InRows at place }
    ensures { PlaceMarked at place index.old index.new }
{
    if at < index.len() {
        index[at] |= alone(place);
    }
}

// Sets a combination's bit in the rows of the phones that one of its columns has.
fn mark_column(
    header: Header,
    blocks: usize,
    number: usize,
    column: usize,
    set: u64,
    index: &mut [u64],
)
    requires { NearRow header.phones blocks column × (number ≤ most_combinations) }
    ensures { PhonesMarked header.phones blocks number column set index.old 65 index.new }
{
    let mut from = 1;
    // No `for`: the phones between two members are leapt over.
    while let Some(phone) = next_member(set, from) {
        let at = row_at(header, blocks, column, phone) + number / BLOCK_SIZE;
        mark(index, at, (number % BLOCK_SIZE) as u32 + 1);
        from = phone + 1;
    }
}

// Sets a combination's bit in the rows of its columns left of the centre.
fn mark_columns(
    header: Header,
    combinations: &[u64],
    blocks: usize,
    number: usize,
    index: &mut [u64],
)
    requires { Markable header combinations.now blocks number }
    ensures { ColumnsMarked header blocks combinations.now number index.old
        header.half index.new }
{
    let record = record_at(combinations, combination_size(header.half), number);
    for column in 0..wide(header.half) {
        mark_column(header, blocks, number, column, record[4 + column], index);
    }
}

// Sets the bits of all combinations.
fn mark_all(header: Header, combinations: &[u64], index: &mut [u64])
    requires { Narrow header × (count_in header.half combinations.now ≤ most_combinations) }
    ensures { CombinationsMarked header combinations.now index.old
        (count_in header.half combinations.now) index.new }
{
    let blocks = blocks_in(header.half, combinations);
    for number in 0..count_of(header.half, combinations) {
        mark_columns(header, combinations, blocks, number, index);
    }
}

// Notes where the combinations of each phone end.
fn note_ends(ends: &[u32], index: &mut [u64])
    requires { (length ends.now ≡ ends_size) × (ends_size ≤ length index.old) }
    ensures { Noted ends.now index.old ends_size index.new }
{
    for (i, end) in ends.iter().enumerate() {
        index[i] = u64::from(*end);
    }
}

// Fills the index.
// The words stay apart from the index, which is still being filled.
pub fn fill_index(header: Header, combinations: &[u64], ends: &[u32], index: &mut [u64])
    requires { Fillable header combinations.now ends.now index.old }
    ensures { Filled header combinations.now ends.now index.old index.new }
{
    note_ends(ends, index);
    mark_all(header, combinations, index);
}
