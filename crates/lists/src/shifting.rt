// The shift of a list, matrix by matrix, into other words. What comes out is not in order and may repeat.
ghost use Rattle.std.specs.Prelude.{true, map, ◌+◌, ◌≤◌, length};
ghost use Rattle.definitions.specs.Matrices.{most_half};
ghost use Rattle.matrix.specs.Shapes.{width_of};
ghost use Rattle.lists.specs.Held.{columns_at, list_in, HasRoom, Holds, Became};
ghost use Rattle.lists.specs.Inserting.{Put};
ghost use Rattle.lists.specs.Shifting.{shifted_by};

use crate::places::{matrices_in, start_of, width_of};

// Writes the matrix in the words from a place on, shifted, into other words at the same place.
fn shift_columns(half: u32, words: &[u64], from: usize, all: u64, out: &mut [u64])
    requires { (half ≤ most_half) × (from + width_of half ≤ length words.now) × (from + width_of half ≤ length out.old) }
    ensures { Put (shifted_by all (columns_at half words.now from)) from (width_of half)
        out.old out.new }
{
    let last = from + width_of(half) - 1;
    out[from..last].copy_from_slice(&words[from + 1..last + 1]);
    out[last] = all;
}

// The shifted list: column c takes old column c+1, the last column takes all phones.
pub fn shift_into(half: u32, list: &[u64], all: u64, out: &mut [u64])
    requires { (Holds half list.now) × (HasRoom half out.old) }
    ensures { Became half (map (shifted_by all) (list_in half list.now)) true
        out.old out.new }
{
    let count = matrices_in(list);
    out[0] = count as u64;
    for place in 0..count {
        shift_columns(half, list, start_of(half, place), all, out);
    }
}
