// The place of a matrix in the order of a list: by columns as numbers.
ghost use Rattle.matrix.specs.Shapes.{matrix_in};
ghost use Rattle.lists.specs.Held.{list_in, Holds};
ghost use Rattle.lists.specs.Ordering.{BelongsAt};

use crate::places::{columns_at, matrices_in, width_of};
use matrix::Matrix;
use std::cmp::Ordering;

// The place of a matrix in a list, before the first that is not less; none where it is there.
pub fn place_for(half: u32, list: &[u64], m: Matrix) -> Option<usize>
    requires { Holds half list.now }
    ensures { BelongsAt (matrix_in half m.columns) (list_in half list.now) result }
{
    let count = matrices_in(list);
    let columns = &m.columns[..width_of(half)];
    for place in 0..count {
        match columns.cmp(columns_at(half, list, place)) {
            Ordering::Less => return Some(place),
            Ordering::Equal => return None,
            Ordering::Greater => {}
        }
    }
    Some(count)
}
