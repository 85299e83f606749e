// Two lists compared, whole or without their first columns.
ghost use Rattle.std.specs.Prelude.{map, ◌≡◌, ◌≤◌, drop};
ghost use Rattle.definitions.specs.MatrixLists.{same_list};
ghost use Rattle.lists.specs.Held.{list_in, Holds};
ghost use Rattle.lists.specs.Shifting.{SameShifted};

use crate::places::{columns_at, matrices_in};

// Whether two lists are the same from a column on, the first or the second.
fn same_beyond(half: u32, a: &[u64], b: &[u64], first: usize) -> bool
    requires { (Holds half a.now) × (Holds half b.now) × (first ≤ 1) }
    ensures { result ≡ same_list (map (drop first) (list_in half a.now))
        (map (drop first) (list_in half b.now)) }
{
    let count = matrices_in(a);
    if count != matrices_in(b) {
        return false;
    }
    for place in 0..count {
        if columns_at(half, a, place)[first..] != columns_at(half, b, place)[first..] {
            return false;
        }
    }
    true
}

pub fn same_list(half: u32, a: &[u64], b: &[u64]) -> bool
    requires { (Holds half a.now) × (Holds half b.now) }
    ensures { result ≡ same_list (list_in half a.now) (list_in half b.now) }
{
    same_beyond(half, a, b, 0)
}

// Whether two lists are the same once shifted, whatever all phones are; no shift is made.
pub fn same_shifted(half: u32, a: &[u64], b: &[u64]) -> bool
    requires { (Holds half a.now) × (Holds half b.now) }
    ensures { SameShifted (list_in half a.now) (list_in half b.now) result }
{
    same_beyond(half, a, b, 1)
}
