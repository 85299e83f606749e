// How many words the records take that hold a matrix, by the half-width of the book.
ghost use Rattle.std.specs.Prelude.{◌≡◌, ◌<◌};
ghost use Rattle.definitions.specs.Combinations.{combination_size};
ghost use Rattle.definitions.specs.Matrices.{matrix_size};
ghost use Rattle.definitions.specs.Metastates.{metastate_size};

use crate::MOST_COLUMNS;

// A matrix in a record: as many as it has as a value.
pub fn matrix_size(half: u32) -> usize
    ensures { (result ≡ matrix_size half) × (result < 17179869184) }
{
    MOST_COLUMNS
}

// A combination: its phone, three leaf nodes and its matrix.
pub fn combination_size(half: u32) -> usize
    ensures { result ≡ combination_size half }
{
    4 + matrix_size(half)
}

// A metastate: its combination's number and its matrix.
pub fn metastate_size(half: u32) -> usize
    ensures { result ≡ metastate_size half }
{
    1 + matrix_size(half)
}
