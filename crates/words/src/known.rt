// The test for foreign tables of words (18): whether a lent table, with its count of words, is one that the reader
// leaves.
ghost use Rattle.std.specs.Prelude.{◌≡◌, ◌/◌, length};
ghost use Rattle.definitions.specs.BookLines.{is_phone};
ghost use Rattle.definitions.specs.Forms.{most_phone};
ghost use Rattle.definitions.specs.Lists.{every, records};
ghost use Rattle.definitions.specs.WordBooks.{word_size, word_known, words_known};

use definitions::{MOST_PHONE, MOST_WORDS, WORD_SIZE, wide};
use tables::holding::holds_only;

// Whether all words are phones that a V line has.
fn phones_known(phones: &[u32]) -> bool
    ensures { result ≡ every (is_phone most_phone) phones.now }
{
    phones
        .iter()
        .all(|phone| 1 <= *phone && *phone <= MOST_PHONE)
}

// Whether a record is one that V lines leave: a length, so many phones, then 0.
fn word_known(row: &[u32]) -> bool
    requires { length row.now ≡ word_size }
    ensures { result ≡ word_known row.now }
{
    let count = wide(row[0]);
    if count == 0 || WORD_SIZE <= count {
        return false;
    }
    let end = count + 1;
    phones_known(&row[1..end]) && holds_only(row, end, 0)
}

// Whether all records are such.
fn records_known(words: &[u32]) -> bool
    ensures { result ≡ every word_known (records word_size (length words.now / word_size) words.now) }
{
    words.chunks_exact(WORD_SIZE).all(word_known)
}

// Whether the reader of word books leaves this table with this count.
pub fn words_known(count: usize, words: &[u32]) -> bool
    ensures { result ≡ words_known count words.now }
{
    if count == 0 || MOST_WORDS < count {
        return false;
    }
    let used = WORD_SIZE * count;
    holds_only(words, used, 0) && records_known(&words[..used])
}
