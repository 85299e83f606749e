// Matrices made anew, and the shift.
ghost use Rattle.std.specs.Prelude.{◌≡◌, ◌<◌, take};
ghost use Rattle.definitions.specs.Lists.{◌!◌};
ghost use Rattle.definitions.specs.Matrices.{most_columns, matrix_words};
ghost use Rattle.matrix.specs.Shapes.{columns_around, shifted_column, shifted_words};

use crate::Matrix;
use definitions::wide;

// The set in a column of a matrix that has n columns of one set, the centre, and n columns of another.
fn column_around(half: u32, left: u64, centre: u64, right: u64, column: usize) -> u64
    ensures { result ≡ columns_around half left centre right ! column }
{
    let n = wide(half);
    if column < n {
        left
    } else if column == n {
        centre
    } else if column <= 2 * n {
        right
    } else {
        0
    }
}

impl Matrix {
    // The matrix with one set in the n columns left of the centre, and one in the n columns right of it.
    pub fn around(half: u32, left: u64, centre: u64, right: u64) -> Matrix
        ensures { result.columns ≡ take most_columns (matrix_words (columns_around half left centre right)) }
    {
        let mut columns = [0u64; 7];
        for c in 0..7 {
            columns[c] = column_around(half, left, centre, right, c);
        }
        Matrix { columns }
    }

    // What a column is after the shift of the columns up to `last`.
    fn shifted_column(self, last: usize, all: u64, column: usize) -> u64
        requires { column < most_columns }
        ensures { result ≡ shifted_column last all self.columns column }
    {
        if column == last {
            all
        } else if last < column {
            self.columns[column]
        } else if column == 6 {
            0
        } else {
            self.columns[column + 1]
        }
    }

    // The shift: column c takes old column c+1, the last column takes all phones.
    pub fn shift(self, last: usize, all: u64) -> Matrix
        ensures { result.columns ≡ shifted_words last all self.columns }
    {
        let mut columns = [0u64; 7];
        for c in 0..7 {
            columns[c] = self.shifted_column(last, all, c);
        }
        Matrix { columns }
    }
}
