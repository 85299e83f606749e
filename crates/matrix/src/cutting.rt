// The two sides of a question: one column is cut by a mask.
ghost use Rattle.std.specs.Prelude.{◌≡◌, set};
ghost use Rattle.std.specs.Int.Bits.{bit_and};
ghost use Rattle.definitions.specs.Lists.{◌!◌};
ghost use Rattle.definitions.specs.Matrices.{yes_side, no_side};

use crate::Matrix;
use definitions::{MOST_COLUMNS, wide};

impl Matrix {
    // Keeps in one column the members of a mask, if there is that column.
    fn cut(self, position: u32, mask: u64) -> Matrix
        ensures { result.columns ≡ set self.columns position (bit_and (self.columns ! position) mask) }
    {
        let mut columns = self.columns;
        let at = wide(position);
        if at < MOST_COLUMNS {
            columns[at] &= mask;
        }
        Matrix { columns }
    }

    // Yes keeps in the question's column the class's members.
    pub fn yes_side(self, position: u32, class: u64) -> Matrix
        ensures { result.columns ≡ yes_side position class self.columns }
    {
        self.cut(position, class)
    }

    // No keeps the others.
    pub fn no_side(self, position: u32, class: u64) -> Matrix
        ensures { result.columns ≡ no_side position class self.columns }
    {
        self.cut(position, !class)
    }
}
