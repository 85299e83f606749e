// The hull of a list: in each column the phones that some matrix has there.
ghost use Rattle.std.specs.Prelude.{◌≡◌, ◌≤◌};
ghost use Rattle.definitions.specs.Matrices.{most_half, matrix_words};
ghost use Rattle.matrix.specs.Shapes.{width_of, matrix_in};
ghost use Rattle.lists.specs.Held.{list_in, Holds};
ghost use Rattle.lists.specs.Joining.{join, hull};

use crate::places::{matrices_in, matrix_at, width_of};
use matrix::Matrix;

// Two matrices joined column by column.
fn join(half: u32, a: Matrix, b: Matrix) -> Matrix
    requires { half ≤ most_half }
    ensures { result.columns ≡ matrix_words (join (matrix_in half a.columns) (matrix_in half b.columns)) }
{
    let mut columns = [0u64; 7];
    for c in 0..width_of(half) {
        columns[c] = a.columns[c] | b.columns[c];
    }
    Matrix { columns }
}

pub fn hull(half: u32, list: &[u64]) -> Matrix
    requires { Holds half list.now }
    ensures { result.columns ≡ matrix_words (hull (width_of half) (list_in half list.now)) }
{
    let mut sofar = Matrix { columns: [0u64; 7] };
    for place in 0..matrices_in(list) {
        sofar = join(half, sofar, matrix_at(half, list, place));
    }
    sofar
}
