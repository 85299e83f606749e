// Matrices in lent words, alone and after a number: leaves and metastates are held so.
ghost use Rattle.std.specs.Prelude.{◌∷◌, ◌≡◌, ◌+◌, ◌≤◌, length, take, drop};
ghost use Rattle.definitions.specs.Lists.{padded, same};
ghost use Rattle.definitions.specs.Matrices.{most_columns};
ghost use Rattle.matrix.specs.Words.{overwritten};

use crate::Matrix;
use definitions::MOST_COLUMNS;

// The matrix in seven words that are all there. Word by word: with `copy_from_slice` the search for leaves that meet,
// where the first empty column ends a meeting, took five times as long.
pub fn whole_matrix(words: &[u64], from: usize) -> Matrix
    requires { from + most_columns ≤ length words.now }
    ensures { result.columns ≡ take most_columns (padded most_columns (drop from words.now)) }
{
    let mut columns = [0u64; 7];
    for c in 0..MOST_COLUMNS {
        columns[c] = words[from + c];
    }
    Matrix { columns }
}

// The matrix in the seven words from a place on; words that are not there count as 0.
pub fn matrix_at(words: &[u64], from: usize) -> Matrix
    ensures { result.columns ≡ take most_columns (padded most_columns (drop from words.now)) }
{
    let mut columns = [0u64; 7];
    if from < words.len() {
        let there = (words.len() - from).min(MOST_COLUMNS);
        columns[..there].copy_from_slice(&words[from..from + there]);
    }
    Matrix { columns }
}

// Writes a number and a matrix into the eight words from a place on, or as many as are there.
pub fn put_numbered(words: &mut [u64], at: usize, number: u64, m: Matrix)
    ensures { words.new ≡ overwritten words.old at (number ∷ m.columns) }
{
    if at < words.len() {
        words[at] = number;
        let there = (words.len() - at - 1).min(MOST_COLUMNS);
        words[at + 1..at + 1 + there].copy_from_slice(&m.columns[..there]);
    }
}

// Whether words are this number and the first columns of this matrix, as many as there are words for.
pub fn is_numbered(words: &[u64], number: u64, m: Matrix) -> bool
    ensures { result ≡ same words.now (take (length words.now) (number ∷ m.columns)) }
{
    match words {
        [] => true,
        [first, rest @ ..] => *first == number && m.columns.starts_with(rest),
    }
}
