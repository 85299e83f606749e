// Tests of a matrix's columns.
ghost use Rattle.std.specs.Prelude.{◌≡◌, ◌+◌, ◌*◌, take};
ghost use Rattle.definitions.specs.Matrices.{valid, ends_here};

use crate::Matrix;
use crate::sets::has_phone;
use definitions::wide;

impl Matrix {
    // Whether none of the first `width` columns is empty.
    pub fn valid(self, width: usize) -> bool
        ensures { result ≡ valid (take width self.columns) }
    {
        self.columns.iter().take(width).all(|column| *column != 0)
    }

    // Whether silence may stand to the right: columns n+1..2n all hold phone 1.
    pub fn ends_here(self, half: u32) -> bool
        ensures { result ≡ ends_here half (take (2 * half + 1) self.columns) }
    {
        let n = wide(half);
        self.columns
            .iter()
            .take(2 * n + 1)
            .skip(n + 1)
            .all(|column| has_phone(*column, 1))
    }
}
