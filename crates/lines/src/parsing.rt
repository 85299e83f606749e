// A line read by the table of its letter. A line that is not well formed is fault 12.
ghost use Rattle.std.specs.Prelude.{◌≡◌, ◌<◌, ltb};
ghost use Rattle.definitions.specs.Lines.{line_of};
ghost use Rattle.lines.specs.Entries.{field_at, entry_of};
ghost use Rattle.lines.specs.Rows.{forms_of, field_in, parsed_of};

use crate::fields::read_field;
use crate::forms::{place_of, used_at};
use crate::{Field, Letters, Row};

// The field at a place of a line, of fewer bytes where the line ends in it.
fn field_at(bytes: &[u8], field: usize) -> Field
    requires { field < 5 }
    ensures { field_in result ≡ field_at bytes.now field }
{
    let from = 1 + 6 * field;
    if bytes.len() <= from {
        return Field::Blank;
    }
    let end = from + 6;
    if bytes.len() < end {
        return read_field(&bytes[from..]);
    }
    read_field(&bytes[from..end])
}

// What the field at a place gives the row of a letter that uses so many fields: a used field has a number, one that is
// not used is blank, and 0 stands for it; else the line is malformed.
fn entry_at(bytes: &[u8], field: usize, used: usize) -> Option<u32>
    requires { field < 5 }
    ensures { result ≡ entry_of (ltb field used) (field_at bytes.now field) }
{
    match field_at(bytes, field) {
        Field::Number(n) if field < used => Some(n),
        Field::Blank if used <= field => Some(0),
        _ => None,
    }
}

// The row of a line's bytes.
pub fn parse(letters: Letters, bytes: &[u8]) -> Option<Row>
    ensures { result ≡ parsed_of (line_of (forms_of letters) bytes.now) }
{
    let letter = *bytes.first()?;
    let place = place_of(letters, letter)?;
    let used = used_at(place);
    let mut numbers = [0u32; 5];
    for field in 0..5 {
        numbers[field] = entry_at(bytes, field, used)?;
    }
    Some(Row {
        letter,
        used,
        numbers,
    })
}
