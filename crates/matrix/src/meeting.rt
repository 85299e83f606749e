// Two matrices meet column by column, from column 0 up and no further than the first empty column.
ghost use Rattle.std.specs.Prelude.{◌≡◌, ◌<◌, take};
ghost use Rattle.definitions.specs.Matrices.{valid, meet};
ghost use Rattle.definitions.specs.Meeting.{columns_met, met_words};

use crate::{Matrix, Met};

impl Matrix {
    // The meeting of the first `width` columns.
    pub fn meet(self, other: Matrix, width: usize) -> Met
        ensures matrix { result.matrix.columns ≡ met_words (take width self.columns) (take width other.columns) }
        ensures count { result.count ≡ columns_met (take width self.columns) (take width other.columns) }
    {
        let mut columns = [0u64; 7];
        for c in 0..7 {
            if width <= c {
                return Met {
                    matrix: Matrix { columns },
                    count: c,
                };
            }
            let both = self.columns[c] & other.columns[c];
            if both == 0 {
                return Met {
                    matrix: Matrix { columns: [0u64; 7] },
                    count: c + 1,
                };
            }
            columns[c] = both;
        }
        Met {
            matrix: Matrix { columns },
            count: 7,
        }
    }

    // Whether two matrices meet validly in their first columns: then the first word of their meeting is not 0.
    pub fn meets(self, other: Matrix, width: usize) -> bool
        requires { 0 < width }
        ensures { result ≡ valid (meet (take width self.columns) (take width other.columns)) }
    {
        self.meet(other, width).matrix.columns[0] != 0
    }
}
