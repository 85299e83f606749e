// Reading a word book: how many words it has, and the words in a lent table; or the refusal, and the table cleared.
ghost use Rattle.std.specs.Prelude.{◌≡◌, length};
ghost use Rattle.definitions.specs.Said.{result_of};
ghost use Rattle.definitions.specs.WordBooks.{word_count, read_words, words_left};
ghost use Rattle.words.specs.Taking.{Cleared, Read};

use crate::Entry;
use crate::taking::{finish, take_line};
use definitions::{Fault, Refusal};
use lines::texts::whole_lines;

// Reads all lines into a cleared table. Where one is refused, the table holds the words that were read before it.
fn read_lines(text: &[u8], words: &mut [u32]) -> Result<usize, Refusal>
    requires { Cleared words.old }
    ensures answer { result ≡ result_of word_count (read_words (length words.old) text.now) }
    ensures words { Read (length words.old) text.now words.new }
{
    if !whole_lines(text) {
        return Err(Fault::Ragged.into());
    }
    let mut last = Entry {
        word: 0,
        place: 0,
        phone: 0,
    };
    for i in 0..text.len() / 32 {
        let line = &text[32 * i..32 * i + 32];
        // A match, since with `map_err` and `?` the proof did not close.
        match take_line(last, line, words) {
            Ok(next) => last = next,
            Err(fault) => return Err(fault.at(i + 1)),
        }
    }
    finish(last, words.len())
}

// Reads a word book.
pub fn read(text: &[u8], words: &mut [u32]) -> Result<usize, Refusal>
    ensures answer { result ≡ result_of word_count (read_words (length words.old) text.now) }
    ensures words { words.new ≡ words_left (length words.old)
        (read_words (length words.old) text.now) }
{
    words.fill(0);
    let answer = read_lines(text, words);
    if answer.is_err() {
        words.fill(0);
    }
    answer
}
