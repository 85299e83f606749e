// A list meets another matrix by matrix; what is valid is put into a third list, from the first pair to the last.
ghost use Rattle.std.specs.Prelude.{map, ◌≡◌};
ghost use Rattle.definitions.specs.Matrices.{meet};
ghost use Rattle.definitions.specs.MatrixLists.{added, gather, meet_lists, holds_some};
ghost use Rattle.matrix.specs.Shapes.{width_of, matrix_in, HasWidth};
ghost use Rattle.lists.specs.Held.{list_in, HasRoom, Holds, Became};
ghost use Rattle.lists.specs.Meeting.{meets_some};

use crate::inserting::insert;
use crate::places::{matrices_in, matrix_at, width_of};
use matrix::Matrix;

// Adds the meet of two matrices to a list, where it is valid: then its first word is not 0.
fn add_met(half: u32, m: Matrix, other: Matrix, out: &mut [u64]) -> bool
    requires { HasWidth (width_of half) other.columns × Holds half out.old }
    ensures { Became half
        (added (list_in half out.old)
        (meet (matrix_in half m.columns) (matrix_in half other.columns)))
        result out.old out.new }
{
    let met = m.meet(other, width_of(half)).matrix;
    met.columns[0] == 0 || insert(half, out, met)
}

// Adds the meets of a matrix and those of a list to another list.
// Words and place stay apart: what is lent is a list in words, as the pages name it.
fn meet_each(half: u32, m: Matrix, list: &[u64], out: &mut [u64]) -> bool
    requires { (Holds half list.now) × (Holds half out.old) }
    ensures { Became half
        (gather (list_in half out.old)
        (map (meet (matrix_in half m.columns)) (list_in half list.now)))
        result out.old out.new }
{
    for place in 0..matrices_in(list) {
        if !add_met(half, m, matrix_at(half, list, place), out) {
            return false;
        }
    }
    true
}

// The meet of two lists, into words that may hold anything; answers whether it has at most eight matrices.
pub fn meet_lists(half: u32, a: &[u64], b: &[u64], out: &mut [u64]) -> bool
    requires { (Holds half a.now) × (Holds half b.now) × (HasRoom half out.old) }
    ensures { Became half (meet_lists (list_in half a.now) (list_in half b.now))
        result out.old out.new }
{
    out[0] = 0;
    for place in 0..matrices_in(a) {
        if !meet_each(half, matrix_at(half, a, place), b, out) {
            return false;
        }
    }
    true
}

// Whether a matrix meets one of a list validly; ends at the first that it meets so.
fn meets_one(half: u32, m: Matrix, list: &[u64]) -> bool
    requires { Holds half list.now }
    ensures { result ≡ meets_some (list_in half list.now) (matrix_in half m.columns) }
{
    for place in 0..matrices_in(list) {
        if m.meets(matrix_at(half, list, place), width_of(half)) {
            return true;
        }
    }
    false
}

// Whether the meet of two lists has a matrix; no list is made.
pub fn lists_meet(half: u32, a: &[u64], b: &[u64]) -> bool
    requires { (Holds half a.now) × (Holds half b.now) }
    ensures { result ≡ holds_some (meet_lists (list_in half a.now) (list_in half b.now)) }
{
    for place in 0..matrices_in(a) {
        if meets_one(half, matrix_at(half, a, place), b) {
            return true;
        }
    }
    false
}
