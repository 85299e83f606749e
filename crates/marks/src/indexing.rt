// Words by their first phone: the first 64 places of an index have for each phone the first word that begins with it,
// the others for each word the next that begins with the same phone. Words count from 1 and 0 ends such a chain, since a
// lent word holds no Option.
ghost use Rattle.std.specs.Prelude.{◌≡◌, ◌+◌, ◌≤◌, length};
ghost use Rattle.definitions.specs.Lists.{cleared};
ghost use Rattle.marks.specs.Lexicon.{spelled, Lexicon};
ghost use Rattle.marks.specs.Openings.{Opened};

use definitions::{WORD_SIZE, wide};

// How many phones there are.
const PHONES: usize = 64;

// The index of the words in a table, into cleared words; from the last word down, so that the first comes to the front.
pub fn fill_index(words: &[u32], index: &mut [u32])
    requires { Lexicon words.now × (index.old ≡ cleared (length index.old))
        × (64 + length (spelled words.now) ≤ length index.old) }
    ensures { Opened (spelled words.now) index.new }
{
    for word in (0..words.len() / WORD_SIZE).rev() {
        let phone = wide(words[WORD_SIZE * word + 1]);
        index[PHONES + word] = index[phone - 1];
        index[phone - 1] = (word + 1) as u32;
    }
}
