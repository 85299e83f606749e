// Turns: the oldest joined state that is not yet expanded, until none is left.
ghost use Rattle.joined.specs.Joins.{Left, Holding};
ghost use Rattle.joining.specs.Turns.{Turns, turned};

use crate::Network;
use crate::expanding::expand;
use definitions::Fault;
use joined::Join;
use moves::Vocabulary;

// The table grows meanwhile, so its length is asked anew before each turn.
pub fn take_turns(join: &mut Join, network: Network, known: Vocabulary) -> Result<(), Fault>
    requires { Turns network known join.old }
    ensures left { Left join.old (turned network.entry known.entry join.old) result join.new }
    ensures same { Holding join.old join.new }
{
    let mut turns = 0;
    // No `for`: the end moves with each turn.
    while turns < join.sizes.table {
        expand(join, network, known, turns)?;
        turns += 1;
    }
    Ok(())
}
