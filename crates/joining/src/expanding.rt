// One turn: all moves from a joined state, along the arcs of its network state.
ghost use Rattle.std.specs.Prelude.{◌≡◌, ◌+◌, ◌*◌, ◌≤◌, length};
ghost use Rattle.definitions.specs.Joining.{joined_size};
ghost use Rattle.joined.specs.States.{joined_of, joined_in, row_at};
ghost use Rattle.joined.specs.Joins.{Left, Holding};
ghost use Rattle.joining.specs.Turns.{Expands, expanded};

use crate::Network;
use arcs::putting::arc_at;
use arcs::starting::arcs_before;
use definitions::{Fault, wide};
use joined::rows::joined_at;
use joined::{Join, Joined};
use marks::Mark;
use marks::wanting::wanted;
use moves::following::follow;
use moves::skipping::next_arc;
use moves::{Hop, Vocabulary};

// The joined state at a place.
fn state_at(join: &Join, place: usize) -> Joined
    requires { joined_size * place + joined_size ≤ length join.now.states.now }
    ensures { joined_of result ≡ joined_in (row_at join.now.states.now place) }
{
    joined_at(join.states, place)
}

// Appends the arcs of all moves from the joined state at a place. What leads nowhere is passed over from arc to arc.
pub fn expand(
    join: &mut Join,
    network: Network,
    known: Vocabulary,
    place: usize,
) -> Result<(), Fault>
    requires { Expands network known join.old place }
    ensures left { Left join.old (expanded network.entry known.entry join.old place) result join.new }
    ensures same { Holding join.old join.new }
{
    let x = state_at(join, place);
    let mark = Mark {
        word: x.word,
        mark: x.mark,
    };
    let wants = wanted(known.words, mark);
    let arcs = network.arcs;
    let mut from = arcs_before(arcs, network.starts, wide(x.state));
    // No `for`: arcs that lead nowhere are leapt over.
    while let Some(at) = next_arc(arcs, from, x.state, wants) {
        let hop = Hop {
            from: place as u32,
            arc: arc_at(arcs, at),
        };
        follow(join, known, hop, mark, wants)?;
        from = at + 1;
    }
    Ok(())
}
