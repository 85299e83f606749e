// One line, as the next of a text, and the lines of rows, one after the other.
ghost use Rattle.std.specs.Prelude.{List, [], ◌∷◌, ℕ, ◌≤◌, ◌<◌, Option};
ghost use Rattle.definitions.specs.Lines.{Line};
ghost use Rattle.lines.specs.Rows.{line_in};
ghost use Rattle.booktext.specs.Putting.{Countable, Given, Put};

use lines::Row;
use writing::writing::write as write_line;

// Writes a row as the next line, where there is room. Answers how many lines there are then.
// Text and count stay apart: a struct that holds the text would say in each contract that it still does.
pub fn put_line(row: Row, text: &mut [u8], count: usize) -> usize
    requires { (row.used ≤ 5) × Countable (line_in row ∷ []) count }
    ensures { Put (line_in row ∷ []) text.old count text.new result }
{
    if text.len() / 32 <= count {
        return count + 1;
    }
    let from = 32 * count;
    let end = from + 32;
    write_line(row, &mut text[from..end]);
    count + 1
}

// Writes the rows of so many places, in order, where a place has one. Answers how many lines there are then.
pub fn put_rows<F: Fn(usize) -> Option<Row>>(
    row_at: F,
    places: usize,
    text: &mut [u8],
    count: usize,
) -> usize
    requires callable { (place : ℕ) → place < places → F.pre row_at place }
    requires narrow { (place : ℕ) (row : Row) → place < places → F.post row_at place (Some row) → row.used ≤ 5 }
    requires countable { (some : ℕ) (lines : List Line) → some ≤ places
        → Given (λ place row. F.post row_at place row) some lines → Countable lines count }
    ensures { (lines : List Line) × Given (λ place row. F.post row_at place row) places lines
        × Put lines text.old count text.new result }
{
    let mut next = count;
    for place in 0..places {
        if let Some(row) = row_at(place) {
            next = put_line(row, text, next);
        }
    }
    next
}
