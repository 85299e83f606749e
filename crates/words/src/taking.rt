// Taking one line of a word book, and what is judged after the last.
ghost use Rattle.std.specs.Prelude.{◌≡◌};
ghost use Rattle.words.specs.Entries.{entry_line};
ghost use Rattle.words.specs.Taking.{finish_of, step_of, words_taken};

use crate::Entry;
use crate::judging::{entry_of, judge_line};
use crate::storing::store;
use definitions::{Fault, Refusal, WORD_SIZE, wide};
use lines::Letters;
use lines::parsing::parse;

// Takes one more line after the last: its phone into the lent table; or its fault.
pub fn take_line(last: Entry, bytes: &[u8], words: &mut [u32]) -> Result<Entry, Fault>
    ensures step { result ≡ step_of (entry_line last) bytes.now }
    ensures words { words.new ≡ words_taken result words.old }
{
    let row = parse(Letters::Words, bytes).ok_or(Fault::Misprint)?;
    let line = entry_of(row);
    judge_line(last, row, line)?;
    store(line, words);
    Ok(line)
}

// What is judged after the last line: 51 where a table of so many words of 32 bits has no record for its word.
pub fn finish(last: Entry, lent: usize) -> Result<usize, Refusal>
    ensures { result ≡ finish_of lent (entry_line last) }
{
    let count = wide(last.word);
    if lent / WORD_SIZE < count {
        return Err(Fault::Vocabulary.into());
    }
    Ok(count)
}
