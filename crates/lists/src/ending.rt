// Whether a path may end: one matrix of a list has silence in all columns to the right.
ghost use Rattle.std.specs.Prelude.{◌≡◌};
ghost use Rattle.definitions.specs.MatrixLists.{list_ends};
ghost use Rattle.lists.specs.Held.{list_in, Holds};

use crate::places::{matrices_in, matrix_at};

pub fn ends_in(half: u32, list: &[u64]) -> bool
    requires { Holds half list.now }
    ensures { result ≡ list_ends half (list_in half list.now) }
{
    for place in 0..matrices_in(list) {
        if matrix_at(half, list, place).ends_here(half) {
            return true;
        }
    }
    false
}
