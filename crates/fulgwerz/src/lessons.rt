// Lessons, for C: word books read, and networks joined with their words.
ghost use Rattle.std.specs.Prelude.{◌≡◌, length};
ghost use Rattle.definitions.specs.Said.{said_of};
ghost use Rattle.definitions.specs.WordBooks.{word_count, read_words, words_left};
ghost use Rattle.definitions.specs.Joining.{join, join_left};
ghost use Rattle.joining.specs.Answers.{space_of, counts_of, no_counts};
ghost use Rattle.fulgwerz.specs.Answers.{count_answer, join_answer, KeepsPaths};

use crate::{CountAnswer, JoinAnswer};
use definitions::Counts;
use joining::joining::join;
use words::reader::read;

// Reads a word book into a lent table, and counts its words.
#[unsafe(no_mangle)]
pub extern "C" fn fulgwerz_read_words(text: &[u8], words: &mut [u32]) -> CountAnswer
    ensures answer { result ≡ count_answer (said_of word_count 0
        (read_words (length words.old) text.now)) }
    ensures words { words.new ≡ words_left (length words.old)
        (read_words (length words.old) text.now) }
{
    read(text, words).into()
}

// Joins a network with the words of a table.
#[unsafe(no_mangle)]
pub extern "C" fn fulgwerz_join(
    counts: Counts,
    arcs: &[u32],
    count: usize,
    words: &[u32],
    states: &mut [u32],
    joined: &mut [u32],
) -> JoinAnswer
    ensures answer { result ≡ join_answer (said_of counts_of no_counts (join counts arcs.now count words.now
        (space_of states.old joined.old))) }
    ensures states { states.new
        ≡ (join_left (space_of states.old joined.old)
        (join counts arcs.now count words.now
        (space_of states.old joined.old))).states }
    ensures joined { joined.new
        ≡ (join_left (space_of states.old joined.old)
        (join counts arcs.now count words.now
        (space_of states.old joined.old))).arcs }
    ensures paths { KeepsPaths counts arcs.now count words.now result joined.new }
{
    join(counts, arcs, count, words, states, joined).into()
}
