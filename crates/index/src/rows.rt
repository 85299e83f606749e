// Rows of the index for a matrix: where a column left of the centre has one phone alone, none but the
// combinations in that phone's row can follow. Of each other column there is no row; its place is the index's
// end, where all bits count as set. What has no room in the index ends there too: one test serves both, and an Option
// would need a second.
ghost use Rattle.std.specs.Prelude.{ℕ, ◌≤◌, ◌<◌, T};
ghost use Rattle.definitions.specs.PhoneSets.{has};
ghost use Rattle.matrix.specs.Shapes.{matrix_in};
ghost use Rattle.index.specs.Combinations.{combinations_in};
ghost use Rattle.index.specs.Indexing.{IsSet};
ghost use Rattle.index.specs.Rows.{Admits, Admitting, Near, HasAllSet, AlongRows, MarkedFound};
ghost use Rattle.index.specs.Seeking.{Seeking};

use crate::Combinations;
use crate::indexing::{BLOCK_SIZE, blocks_in, next_member, row_at};
use definitions::wide;
use matrix::Matrix;
use matrix::sets::alone;

// Where the rows for a matrix begin.
#[derive(Clone, Copy)]
pub struct Rows {
    first: usize,
    second: usize,
    third: usize,
}

impl Combinations<'_> {
    // The row for a column of a matrix.
    fn row_for(self, column: usize, shifted: Matrix) -> usize
        requires { Seeking self.header self.words.now self.index.now shifted.columns × (column < 3) }
        ensures { Admits (matrix_in self.entry.header.half shifted.columns)
            (combinations_in self.entry.header self.entry.words.now) self.entry.index.now result }
    {
        let header = self.header;
        if wide(header.half) <= column {
            return self.index.len();
        }
        let set = shifted.columns[column];
        match next_member(set, 1) {
            Some(phone) if set == alone(phone) => {
                row_at(header, blocks_in(header.half, self.words), column, phone)
            }
            _ => self.index.len(),
        }
    }

    // The rows for a matrix.
    pub fn rows_for(self, shifted: Matrix) -> Rows
        requires { Seeking self.header self.words.now self.index.now shifted.columns }
        ensures { Admitting (matrix_in self.entry.header.half shifted.columns)
            (combinations_in self.entry.header self.entry.words.now) self.entry.index.now result }
    {
        Rows {
            first: self.row_for(0, shifted),
            second: self.row_for(1, shifted),
            third: self.row_for(2, shifted),
        }
    }
}

// A word of the index; one with all bits set where the index ends before it.
fn row_word(index: &[u64], at: usize) -> u64
    ensures { (p : ℕ) → 1 ≤ p → p ≤ 64 → IsSet index.now at p → T (has p result) }
{
    if at < index.len() {
        index[at]
    } else {
        u64::MAX
    }
}

// The combinations of a block whose bits are set in all rows.
fn marked_in(index: &[u64], rows: Rows, block: usize) -> u64
    requires { Near rows × (block ≤ 1024) }
    ensures { HasAllSet index.now rows block result }
{
    row_word(index, rows.first + block)
        & row_word(index, rows.second + block)
        & row_word(index, rows.third + block)
}

// The first combination, from one on, whose bits are set in all rows.
pub fn next_marked(index: &[u64], rows: Rows, from: usize, count: usize) -> Option<usize>
    requires { AlongRows rows from count }
    ensures { MarkedFound index.now rows from count result }
{
    let mut number = from;
    // No `for`: whole blocks of combinations are leapt over.
    while number < count {
        let block = number / BLOCK_SIZE;
        let place = (number % BLOCK_SIZE) as u32 + 1;
        if let Some(next) = next_member(marked_in(index, rows, block), place) {
            let marked = BLOCK_SIZE * block + wide(next) - 1;
            return if marked < count { Some(marked) } else { None };
        }
        number = count.min(BLOCK_SIZE * (block + 1));
    }
    None
}
