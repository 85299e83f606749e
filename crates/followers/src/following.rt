// The arcs to the metastates that a shifted matrix leads to.
ghost use Rattle.metastates.specs.Outcomes.{followed_from};
ghost use Rattle.metastates.specs.Steps.{StepLeft};
ghost use Rattle.followers.specs.Turns.{Following};

use crate::{Search, Source};
use definitions::{Fault, wide};
use growing::Sizes;
use index::records::matrix_of;
use index::{Combinations, Follower};
use matrix::Matrix;
use metastates::adding::enter;

// Appends the arcs from a state into the metastates that a shifted matrix leads to, in combination order. A combination
// that the search finds meets the matrix validly.
pub fn follow(
    search: Search,
    metastates: &mut [u64],
    arcs: &mut [u32],
    chains: &mut [u32],
    source: Source,
    shifted: Matrix,
) -> Result<Sizes, Fault>
    requires { Following search.rules.header search.rules.nodes.now search.rules.combinations.now search.index.now
        metastates.old arcs.old chains.old source.sizes shifted.columns }
    ensures { StepLeft search.entry.rules.header search.entry.rules.combinations.now metastates.old arcs.old chains.old
        (followed_from search.entry.rules.header search.entry.rules.nodes.now search.entry.rules.combinations.now
        metastates.old arcs.old source.sizes source.state shifted.columns)
        result metastates.new arcs.new chains.new }
{
    let rules = search.rules;
    let header = rules.header;
    let combinations = rules.combinations;
    let listed = Combinations {
        header,
        words: combinations,
        index: search.index,
    };
    let rows = listed.rows_for(shifted);
    let width = 2 * wide(header.half) + 1;
    let mut now = source.sizes;
    let mut next = listed.next_follower(rows, 0, shifted);
    // No `for`: the index leaps over combinations that cannot follow.
    while let Some(number) = next {
        let own = matrix_of(header.half, combinations, number);
        let met = shifted.meet(own, width).matrix;
        let follower = Follower { number, met };
        now = enter(rules, metastates, arcs, chains, now, source.state, follower)?;
        next = listed.next_follower(rows, number + 1, shifted);
    }
    Ok(now)
}
