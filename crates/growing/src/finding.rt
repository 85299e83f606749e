// The walk along a chain to the element that is looked for.
ghost use Rattle.std.specs.Prelude.{List, ℕ};
ghost use Rattle.growing.specs.Walks.{Walkable, Walked};
ghost use Rattle.growing.specs.Chains.{heads_in};

use crate::linking::head_of;
use definitions::wide;

// The place on the chain of a key where the element stands that is looked for, or none; `stands_at` tells of a place
// whether it stands there.
pub fn walk<F: Fn(usize) -> bool>(chains: &[u32], key: usize, stands_at: F) -> Option<usize>
    requires { (keys : List ℕ) × Walkable (λ i. F.pre stands_at i) chains.now keys }
    ensures { (keys : List ℕ) → Walkable (λ i. F.pre stands_at i) chains.now keys
        → Walked (λ i b. F.post stands_at i b) (heads_in chains.now) keys key result }
{
    let heads = chains.len() / 2;
    let mut next = wide(chains[head_of(heads, key)]).checked_sub(1);
    // No `for`: each place is read from the one before it.
    while let Some(place) = next {
        if stands_at(place) {
            return Some(place);
        }
        next = wide(chains[heads + place]).checked_sub(1);
    }
    None
}
