// The joined states that are there before the first turn, and working space for the turns.
ghost use Rattle.std.specs.Prelude.{◌<◌};
ghost use Rattle.joining.specs.Beginning.{Startable, Chainable, Begun, JoinLeft};

use crate::Network;
use crate::turning::take_turns;
use arcs::starting::fill_starts;
use definitions::{Fault, MOST_JOINED, MOST_METASTATES, MOST_WORDS};
use growing::Sizes;
use joined::entering::{add_joined, state_room};
use joined::{Join, Joined};
use marks::indexing::fill_index;
use moves::Vocabulary;

// Space for fewer joined states than these gets short chains, a head and a link for each of so many, and a short table
// of where the arcs of network states begin.
const FEW: usize = 4096;

const SHORT_CHAINS: usize = 2 * FEW;

// Else there is one more head and link than there are joined states at most,
const LONG_CHAINS: usize = 2 * (MOST_JOINED + 1);

// and a place for each state of the largest network, of three states a metastate.
const LONG_STARTS: usize = 2 + 3 * MOST_METASTATES;

// The index of the words: a place for each phone, and one for each word.
const INDEX_SIZE: usize = 64 + MOST_WORDS;

// State 0 is INITIAL with 0, 0, state 1 is FINAL with 0, 2.
fn begin(states: &mut [u32], chains: &mut [u32])
    requires { Chainable states.old chains.old }
    ensures { Begun states.old chains.old states.new chains.new }
{
    add_joined(
        states,
        chains,
        0,
        Joined {
            state: 0,
            word: 0,
            mark: 0,
        },
    );
    add_joined(
        states,
        chains,
        1,
        Joined {
            state: 1,
            word: 0,
            mark: 2,
        },
    );
}

// Joins with cleared words for chains, more heads than the joined states have room for, and words for a table of where
// arcs begin.
// The lent slices stay apart up to here; from here on they are one join.
fn join_with(
    arcs: &[u32],
    words: &[u32],
    states: &mut [u32],
    joined: &mut [u32],
    chains: &mut [u32],
    starts: &mut [u32],
) -> Result<Sizes, Fault>
    requires { Startable arcs.now words.now states.old joined.old × Chainable states.old chains.old }
    ensures { JoinLeft arcs.now words.now states.old joined.old
        result states.new joined.new }
{
    let placed = fill_starts(arcs, starts);
    let mut index = [0u32; INDEX_SIZE];
    fill_index(words, &mut index);
    begin(states, chains);
    let mut join = Join {
        states,
        arcs: joined,
        chains,
        sizes: Sizes { table: 2, arcs: 0 },
    };
    let network = Network {
        arcs,
        starts: &starts[..placed],
    };
    let known = Vocabulary {
        words,
        index: &index,
    };
    take_turns(&mut join, network, known)?;
    Ok(join.sizes)
}

// Joins into cleared space. Space for fewer than 4096 joined states gets short tables, so that a small join clears few
// words.
// Two sizes by hand: a function over both sizes would be as long as the two blocks.
pub fn join_known(
    arcs: &[u32],
    words: &[u32],
    states: &mut [u32],
    joined: &mut [u32],
) -> Result<Sizes, Fault>
    requires { Startable arcs.now words.now states.old joined.old }
    ensures { JoinLeft arcs.now words.now states.old joined.old
        result states.new joined.new }
{
    if state_room(states.len()) < FEW {
        let mut chains = [0u32; SHORT_CHAINS];
        let mut starts = [0u32; FEW];
        join_with(arcs, words, states, joined, &mut chains, &mut starts)
    } else {
        let mut chains = [0u32; LONG_CHAINS];
        let mut starts = [0u32; LONG_STARTS];
        join_with(arcs, words, states, joined, &mut chains, &mut starts)
    }
}
