// The B lines of boundary phones, from the words of their plain phones.
ghost use Rattle.std.specs.Prelude.{[], ◌∷◌, ◌<◌, length};
ghost use Rattle.booktext.specs.Parts.{boundary_lines};
ghost use Rattle.booktext.specs.Putting.{Countable, Put, RowFor};

use crate::putting::put_rows;
use lines::Row;

// The B line of a phone, where its word names a plain phone.
#[tactic(auto, unfolding(definitions::specs::BookText::boundaries_from, definitions::specs::BookText::book_line_for, lines::specs::Rows::line_in))]
fn boundary_row(phone: u32, plain: u32) -> Option<Row>
    ensures { RowFor (boundary_lines phone (plain ∷ [])) result }
{
    if plain == 0 {
        return None;
    }
    Some(Row {
        letter: b'B',
        used: 2,
        numbers: [phone, plain, 0, 0, 0],
    })
}

// The B lines of all phones.
pub fn put_boundaries(plains: &[u32], text: &mut [u8], count: usize) -> usize
    requires { (length plains.now < 4294967296) × Countable (boundary_lines 1 plains.now) count }
    ensures { Put (boundary_lines 1 plains.now) text.old count text.new result }
{
    let row_at = |i: usize| boundary_row((i + 1) as u32, plains[i]);
    put_rows(row_at, plains.len(), text, count)
}
