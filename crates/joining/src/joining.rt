// The join of lent arcs and a lent table of words: 18, then 31 or 32 as construction meets them.
ghost use Rattle.std.specs.Prelude.{◌≡◌};
ghost use Rattle.definitions.specs.Joining.{join, join_left};
ghost use Rattle.definitions.specs.Said.{result_of};
ghost use Rattle.joining.specs.Answers.{space_of, counts_of, JoinHeld};
ghost use Rattle.joining.specs.Answers.{KeepsPaths};
ghost use Rattle.joining.specs.Beginning.{Cleared};

use crate::JoinedCounts;
use crate::beginning::join_known;
use arcs::known::network_known;
use definitions::{ARC_SIZE, Counts, Fault, Refusal, WORD_SIZE, wide};
use joined::entering::state_room;
use words::known::words_known;

// Judges what is lent, and joins into cleared space; where it refuses, the space may hold what was joined before.
// What is lent stays one parameter each, as in `fulgwerz_join`, the function for C.
// The lent slices stay apart, as C lends them to the entry.
fn join_cleared(
    counts: Counts,
    arcs: &[u32],
    count: usize,
    words: &[u32],
    states: &mut [u32],
    joined: &mut [u32],
) -> Result<JoinedCounts, Refusal>
    requires { Cleared states.old × Cleared joined.old }
    ensures answer { result ≡ result_of counts_of (join counts arcs.now count words.now
        (space_of states.old joined.old)) }
    ensures left { JoinHeld counts arcs.now count words.now states.old joined.old
        states.new joined.new }
{
    if !network_known(counts, arcs) || !words_known(count, words) {
        return Err(Fault::Foreign.into());
    }
    if state_room(states.len()) < 2 {
        return Err(Fault::Crowd.into());
    }
    let used = ARC_SIZE * wide(counts.arcs);
    let spelled = WORD_SIZE * count;
    let sizes = join_known(&arcs[..used], &words[..spelled], states, joined)?;
    Ok(JoinedCounts {
        states: sizes.table,
        arcs: sizes.arcs,
    })
}

// Joins a network with the words of a word book.
// The lent slices stay apart, as C lends them to the entry.
pub fn join(
    counts: Counts,
    arcs: &[u32],
    count: usize,
    words: &[u32],
    states: &mut [u32],
    joined: &mut [u32],
) -> Result<JoinedCounts, Refusal>
    ensures answer { result ≡ result_of counts_of (join counts arcs.now count words.now
        (space_of states.old joined.old)) }
    ensures states { states.new
        ≡ (join_left (space_of states.old joined.old)
        (join counts arcs.now count words.now
        (space_of states.old joined.old))).states }
    ensures joined { joined.new
        ≡ (join_left (space_of states.old joined.old)
        (join counts arcs.now count words.now
        (space_of states.old joined.old))).arcs }
    ensures paths { KeepsPaths counts arcs.now count words.now result joined.new }
{
    states.fill(0);
    joined.fill(0);
    let answer = join_cleared(counts, arcs, count, words, states, joined);
    if answer.is_err() {
        states.fill(0);
        joined.fill(0);
    }
    answer
}
