// A line's phone put into the lent table.
ghost use Rattle.std.specs.Prelude.{◌≡◌, ◌≤◌};
ghost use Rattle.definitions.specs.Forms.{most_places};
ghost use Rattle.words.specs.Entries.{entry_line};
ghost use Rattle.words.specs.Storing.{words_after};

use crate::Entry;
use definitions::WORD_SIZE;
use lines::counting::from_zero;

// One line more in the table: the word's length so far, and its phone; nothing where the table has no record for the
// word.
pub fn store(line: Entry, words: &mut [u32])
    requires { (1 ≤ line.place) × (line.place ≤ most_places) }
    ensures { words.new ≡ words_after (entry_line line) words.old }
{
    let before = from_zero(line.word);
    if words.len() / WORD_SIZE <= before {
        return;
    }
    let at = WORD_SIZE * before;
    let phones = at + 1;
    words[at] = line.place;
    words[phones + from_zero(line.place)] = line.phone;
}
