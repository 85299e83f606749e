// Where the matrices of a list stand, how many there are, and a matrix of a list by value.
ghost use Rattle.std.specs.Prelude.{◌≡◌, [], ◌+◌, ◌≤◌, ◌<◌, length, get_or};
ghost use Rattle.definitions.specs.Lists.{◌!◌};
ghost use Rattle.definitions.specs.Matrices.{most_half, most_columns, matrix_words};
ghost use Rattle.definitions.specs.MatrixLists.{most_matrices};
ghost use Rattle.matrix.specs.Shapes.{width_of};
ghost use Rattle.lists.specs.Held.{start_of, columns_at, matrix_at, list_in, Holds};

use definitions::sizes::matrix_size;
use definitions::wide;
use matrix::Matrix;

// How many columns a matrix has.
pub fn width_of(half: u32) -> usize
    requires { half ≤ most_half }
    ensures { (result ≡ width_of half) × (result ≤ most_columns) }
{
    2 * wide(half) + 1
}

// The first word of the matrix at a place.
pub fn start_of(half: u32, place: usize) -> usize
    requires { (half ≤ most_half) × (place ≤ most_matrices) }
    ensures { result ≡ start_of half place }
{
    1 + matrix_size(half) * place
}

// How many matrices there are.
pub fn matrices_in(list: &[u64]) -> usize
    requires { 0 < length list.now }
    ensures { result ≡ list.now ! 0 }
{
    list[0] as usize
}

// The columns of the matrix at a place of a list.
pub(crate) fn columns_at(half: u32, list: &[u64], place: usize) -> &[u64]
    requires { Holds half list.now × (place < list.now ! 0) }
    ensures columns { result.now ≡ matrix_at half list.now place }
    ensures width { length result.now ≡ width_of half }
{
    let from = start_of(half, place);
    &list[from..from + width_of(half)]
}

// The matrix in the words from a place on.
pub fn matrix_from(half: u32, words: &[u64], from: usize) -> Matrix
    requires { (half ≤ most_half) × (from + width_of half ≤ length words.now) }
    ensures { result.columns ≡ matrix_words (columns_at half words.now from) }
{
    let width = width_of(half);
    let mut columns = [0u64; 7];
    columns[..width].copy_from_slice(&words[from..from + width]);
    Matrix { columns }
}

// The matrix at a place of a list.
pub(crate) fn matrix_at(half: u32, list: &[u64], place: usize) -> Matrix
    requires { Holds half list.now × (place < list.now ! 0) }
    ensures { result.columns ≡ matrix_words (get_or (list_in half list.now) place []) }
{
    matrix_from(half, list, start_of(half, place))
}
