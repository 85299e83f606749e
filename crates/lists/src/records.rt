// A list copied into its part of a record. The record is cleared before, so what is not written stays 0.
ghost use Rattle.std.specs.Prelude.{◌≡◌, ◌+◌, ◌≤◌, length};
ghost use Rattle.definitions.specs.Lists.{cleared};
ghost use Rattle.definitions.specs.Matrices.{most_half};
ghost use Rattle.definitions.specs.MatrixLists.{list_size, list_record};
ghost use Rattle.matrix.specs.Shapes.{width_of};
ghost use Rattle.lists.specs.Held.{columns_at, list_in, Holds};
ghost use Rattle.lists.specs.Inserting.{Put};

use crate::places::{matrices_in, start_of, width_of};

// Copies the matrix in the words from a place on to the same place of other words.
fn copy_columns(half: u32, words: &[u64], from: usize, out: &mut [u64])
    requires { (half ≤ most_half) × (from + width_of half ≤ length words.now) × (from + width_of half ≤ length out.old) }
    ensures { Put (columns_at half words.now from) from (width_of half) out.old out.new }
{
    let end = from + width_of(half);
    out[from..end].copy_from_slice(&words[from..end]);
}

pub fn put_list(half: u32, list: &[u64], out: &mut [u64])
    requires { (Holds half list.now) × (out.old ≡ cleared (list_size half)) }
    ensures { out.new ≡ list_record half (list_in half list.now) }
{
    let count = matrices_in(list);
    out[0] = count as u64;
    for place in 0..count {
        copy_columns(half, list, start_of(half, place), out);
    }
}
