// A table of where the arcs of each state begin, so that they need not be searched for.
ghost use Rattle.std.specs.Prelude.{◌≡◌, ◌/◌, ◌≤◌, T, length, take};
ghost use Rattle.definitions.specs.Arcs.{arc_size};
ghost use Rattle.definitions.specs.Building.{most_arcs};
ghost use Rattle.definitions.specs.NetworkText.{never_descending};
ghost use Rattle.arcs.specs.Below.{below, Started};
ghost use Rattle.arcs.specs.Whole.{all_arcs};

use crate::leaving::arcs_below;
use definitions::{ARC_SIZE, wide};

// How many arcs have a source below a state, counted on from some of them.
fn counted_on(arcs: &[u32], some: usize, state: usize) -> usize
    requires { T (never_descending (all_arcs arcs.now)) × (some ≤ below state (all_arcs arcs.now)) }
    ensures { result ≡ below state (all_arcs arcs.now) }
{
    let count = arcs.len() / ARC_SIZE;
    for at in some..count {
        if state <= wide(arcs[ARC_SIZE * at]) {
            return at;
        }
    }
    count
}

// Fills the places of the states to the last that an arc leaves, as far as there are places; answers how many.
pub fn fill_starts(arcs: &[u32], starts: &mut [u32]) -> usize
    requires { T (never_descending (all_arcs arcs.now)) × (length arcs.now / arc_size ≤ most_arcs) }
    ensures { (result ≤ length starts.new) × Started arcs.now (take result starts.new) }
{
    let count = arcs.len() / ARC_SIZE;
    let mut at = 0;
    for state in 0..starts.len() {
        at = counted_on(arcs, at, state);
        if at == count {
            return state;
        }
        starts[state] = at as u32;
    }
    starts.len()
}

// How many arcs have a source below a state: from the table, or by bisection where it has no place for the state.
pub fn arcs_before(arcs: &[u32], starts: &[u32], state: usize) -> usize
    requires { T (never_descending (all_arcs arcs.now)) × Started arcs.now starts.now }
    ensures { result ≡ below state (all_arcs arcs.now) }
{
    match starts.get(state) {
        Some(start) => wide(*start),
        None => arcs_below(arcs, state),
    }
}
