// The R lines of roots, in order of phones and states. A root that no R line gives has none.
ghost use Rattle.std.specs.Prelude.{[], ◌∷◌, ◌+◌, ◌≤◌, ◌<◌, length};
ghost use Rattle.booktext.specs.Parts.{root_lines};
ghost use Rattle.booktext.specs.Putting.{Countable, Put, RowFor};

use crate::putting::put_rows;
use definitions::{NO_ROOT, wide};
use lines::Row;

// The R line of the root at a place, where there is one.
#[tactic(auto, unfolding(definitions::specs::BookText::roots_listed, definitions::specs::BookText::book_line_for, lines::specs::Rows::line_in))]
fn root_row(states: u32, place: usize, root: u32) -> Option<Row>
    requires { (1 ≤ states) × (place + 1 < 4294967296) }
    ensures { RowFor (root_lines states place (root ∷ [])) result }
{
    if root == NO_ROOT {
        return None;
    }
    let each = wide(states);
    let phone = (place / each + 1) as u32;
    let state = (place % each + 1) as u32;
    Some(Row {
        letter: b'R',
        used: 3,
        numbers: [phone, state, root, 0, 0],
    })
}

// The R lines of all roots.
pub fn put_roots(states: u32, roots: &[u32], text: &mut [u8], count: usize) -> usize
    requires { (1 ≤ states) × (length roots.now < 4294967296) × Countable (root_lines states 0 roots.now) count }
    ensures { Put (root_lines states 0 roots.now) text.old count text.new result }
{
    let row_at = |place: usize| root_row(states, place, roots[place]);
    put_rows(row_at, roots.len(), text, count)
}
