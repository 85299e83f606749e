// What a line of a word book says, the tests that document 02 puts to it, and the first that fails.
ghost use Rattle.std.specs.Prelude.{◌≡◌};
ghost use Rattle.definitions.specs.WordBooks.{word_line, comes_next};
ghost use Rattle.lines.specs.Judging.{verdict_of};
ghost use Rattle.lines.specs.Rows.{line_in, row_of};
ghost use Rattle.words.specs.Entries.{entry_line};
ghost use Rattle.words.specs.Taking.{tests_in};

use crate::Entry;
use definitions::{Fault, wide};
use lines::ranges::in_fixed_ranges;
use lines::{Letters, Row};

// What a row says.
// No `From`: it asks that the row is one that was read.
pub fn entry_of(row: Row) -> Entry
    requires { row ≡ row_of (line_in row) }
    ensures { entry_line result ≡ word_line (line_in row) }
{
    let n = row.numbers;
    Entry {
        word: n[0],
        place: n[1],
        phone: n[2],
    }
}

// 14: whether a line's place is the next of the last word, or the first of the next word.
fn comes_next(last: Entry, line: Entry) -> bool
    ensures { result ≡ comes_next (entry_line last) (entry_line line) }
{
    if line.word == last.word {
        wide(line.place) == wide(last.place) + 1
    } else {
        wide(line.word) == wide(last.word) + 1 && line.place == 1
    }
}

// The first test of a row and of what it says that fails: 13, then 14.
pub fn judge_line(last: Entry, row: Row, line: Entry) -> Result<(), Fault>
    ensures { result ≡ verdict_of (tests_in (entry_line last) (line_in row) (entry_line line)) }
{
    if !in_fixed_ranges(Letters::Words, row) {
        return Err(Fault::Range);
    }
    if !comes_next(last, line) {
        return Err(Fault::Order);
    }
    Ok(())
}
