// The phone that leads on from a mark, and to which mark.
ghost use Rattle.std.specs.Prelude.{◌≡◌};
ghost use Rattle.marks.specs.Lexicon.{spelled, Lexicon};
ghost use Rattle.marks.specs.Wanting.{mark_of, Leads, IsWord};
ghost use Rattle.definitions.specs.Joining.{spoken_to};

use crate::{BETWEEN, Mark, Wanted};
use definitions::{WORD_SIZE, wide};

// The mark where so many phones of a word are spoken: between words after its last.
// The table stays lent words here and below: the pages name what these promise of them.
pub fn spoken_to(words: &[u32], word: u32, mark: u32) -> Mark
    requires { Lexicon words.now × IsWord words.now word }
    ensures { mark_of result ≡ spoken_to (spelled words.now) word mark }
{
    if words[WORD_SIZE * (wide(word) - 1)] == mark {
        BETWEEN
    } else {
        Mark { word, mark }
    }
}

// What is wanted in a word.
fn within(words: &[u32], mark: Mark) -> Wanted
    requires { Lexicon words.now × IsWord words.now mark.word }
    ensures { Leads (spelled words.now) mark.word mark.mark result }
{
    if 64 <= mark.mark {
        return Wanted::Nothing;
    }
    Wanted::Phone {
        phone: words[WORD_SIZE * (wide(mark.word) - 1) + 1 + wide(mark.mark)],
        next: spoken_to(words, mark.word, mark.mark + 1),
    }
}

// What is wanted from a mark.
pub fn wanted(words: &[u32], mark: Mark) -> Wanted
    requires { Lexicon words.now }
    ensures { Leads (spelled words.now) mark.word mark.mark result }
{
    match (mark.word, mark.mark) {
        (0, 1) => Wanted::Words,
        (0, 0) => Wanted::Phone {
            phone: 1,
            next: BETWEEN,
        },
        (0, _) => Wanted::Nothing,
        _ if words.len() / WORD_SIZE < wide(mark.word) => Wanted::Nothing,
        _ => within(words, mark),
    }
}
