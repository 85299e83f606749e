// A row of a tree book as what it says, by its letter.
ghost use Rattle.std.specs.Prelude.{◌≡◌};
ghost use Rattle.definitions.specs.BookLines.{book_line};
ghost use Rattle.lines.specs.Rows.{line_in, row_of};
ghost use Rattle.booklines.specs.Entries.{entry_line};

use crate::{Entry, Member};
use definitions::Header;
use lines::Row;

// What a row says; one of another letter than these says what an R line says. It is no `From`, since it requires
// that the numbers beyond the line's are 0.
#[tactic(auto, using(crate::specs::Laws::Rows::row_says), unfolding(crate::specs::Entries::entry_line, definitions::specs::BookLines::book_line))]
pub fn entry_of(row: Row) -> Entry
    requires { row ≡ row_of (line_in row) }
    ensures { entry_line result ≡ book_line (line_in row) }
{
    let n = row.numbers;
    match row.letter {
        b'H' => Entry::H(Header {
            half: n[0],
            states: n[1],
            phones: n[2],
            classes: n[3],
            nodes: n[4],
        }),
        b'Q' => Entry::Q(Member {
            class: n[0],
            phone: n[1],
        }),
        b'N' => Entry::N {
            node: n[0],
            class: n[1],
            position: n[2],
            yes: n[3],
            no: n[4],
        },
        b'L' => Entry::L {
            node: n[0],
            model: n[1],
        },
        b'B' => Entry::B {
            boundary: n[0],
            plain: n[1],
        },
        _ => Entry::R {
            phone: n[0],
            state: n[1],
            root: n[2],
        },
    }
}
