// Between words: the closing silence first, then the words that begin with the phone of an arc, ascending.
ghost use Rattle.std.specs.Prelude.{map};
ghost use Rattle.definitions.specs.Joining.{◌⊚◌, move_by, moves_along};
ghost use Rattle.marks.specs.Lexicon.{spelled};
ghost use Rattle.joined.specs.Joins.{Left, Holding};
ghost use Rattle.moves.specs.Moving.{hop_arc, moved, allowed, openings, Follows, Opens};

use crate::moving::move_into;
use crate::{Hop, Vocabulary};
use definitions::{Fault, wide};
use joined::Join;
use marks::wanting::spoken_to;
use marks::{BETWEEN, CLOSED};

// The words that begin with the phone of an arc, along the index, in whose lent words 0 ends a chain.
fn open_words(join: &mut Join, known: Vocabulary, hop: Hop) -> Result<(), Fault>
    requires { Opens hop known join.old }
    ensures left { Left join.old
        (moved join.old hop.from
        (allowed (map (move_by (hop_arc hop)) (openings (spelled known.entry.words.now) hop.arc.phone 1))))
        result join.new }
    ensures same { Holding join.old join.new }
{
    let index = known.index;
    let mut word = index[wide(hop.arc.phone) - 1];
    // No `for` and no Option: each word is read from the one before it, and a lent word says 0 for none.
    while word != 0 {
        move_into(join, hop, spoken_to(known.words, word, 1), word)?;
        word = index[64 + wide(word) - 1];
    }
    Ok(())
}

// All moves along an arc from between words.
pub fn follow_between(join: &mut Join, known: Vocabulary, hop: Hop) -> Result<(), Fault>
    requires { Follows hop known join.old }
    ensures left { Left join.old
        (moved join.old hop.from (moves_along (spelled known.entry.words.now) (0 ⊚ 1) (hop_arc hop)))
        result join.new }
    ensures same { Holding join.old join.new }
{
    if hop.arc.phone == 0 {
        return move_into(join, hop, BETWEEN, 0);
    }
    if hop.arc.phone == 1 {
        move_into(join, hop, CLOSED, 0)?;
    }
    open_words(join, known, hop)
}
