// A matrix put into a list in its order, unless it is there. A ninth does not fit.
ghost use Rattle.std.specs.Prelude.{◌+◌, ◌≤◌, length};
ghost use Rattle.definitions.specs.Lists.{◌!◌};
ghost use Rattle.definitions.specs.Matrices.{most_half};
ghost use Rattle.definitions.specs.MatrixLists.{insert_matrix, added};
ghost use Rattle.matrix.specs.Shapes.{width_of, matrix_in};
ghost use Rattle.lists.specs.Held.{list_in, Holds, Became};
ghost use Rattle.lists.specs.Inserting.{Opened, Put};
ghost use Rattle.lists.specs.Ordering.{inserted_at};

use crate::ordering::place_for;
use crate::places::{matrices_in, start_of, width_of};
use definitions::sizes::matrix_size;
use matrix::Matrix;

// Moves the words between two places on by `size`.
fn open_gap(words: &mut [u64], from: usize, end: usize, size: usize)
    requires { (from ≤ end) × (end + size ≤ length words.old) }
    ensures { Opened size from end words.old words.new }
{
    words.copy_within(from..end, from + size);
}

// Writes the columns of a matrix from a place on.
fn put_columns(half: u32, words: &mut [u64], from: usize, m: Matrix)
    requires { (half ≤ most_half) × (from + width_of half ≤ length words.old) }
    ensures { Put m.columns from (width_of half) words.old words.new }
{
    let width = width_of(half);
    words[from..from + width].copy_from_slice(&m.columns[..width]);
}

// Puts a matrix at a place of a list, after those before it and before the others.
fn insert_at(half: u32, list: &mut [u64], place: usize, m: Matrix) -> bool
    requires { (Holds half list.old) × (place ≤ list.old ! 0) }
    ensures { Became half (inserted_at place (matrix_in half m.columns) (list_in half list.old))
        result list.old list.new }
{
    let count = matrices_in(list);
    if count == 8 {
        return false;
    }
    let from = start_of(half, place);
    open_gap(list, from, start_of(half, count), matrix_size(half));
    put_columns(half, list, from, m);
    list[0] = (count + 1) as u64;
    true
}

// Puts a matrix into a list, and answers whether the list still is one: a ninth matrix does not fit.
pub fn insert(half: u32, list: &mut [u64], m: Matrix) -> bool
    requires { Holds half list.old }
    ensures { Became half (insert_matrix (matrix_in half m.columns) (list_in half list.old))
        result list.old list.new }
{
    match place_for(half, list, m) {
        Some(place) => insert_at(half, list, place, m),
        None => true,
    }
}

// Adds a matrix to a list, if it is valid.
pub fn add(half: u32, list: &mut [u64], m: Matrix) -> bool
    requires { Holds half list.old }
    ensures { Became half (added (list_in half list.old) (matrix_in half m.columns))
        result list.old list.new }
{
    !m.valid(width_of(half)) || insert(half, list, m)
}
