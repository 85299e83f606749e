// Whether a line's numbers lie in the fixed ranges of its letter, else it is fault 13.
ghost use Rattle.std.specs.Prelude.{◌≡◌};
ghost use Rattle.definitions.specs.Lines.{in_fixed_ranges};
ghost use Rattle.lines.specs.Rows.{forms_of, line_in};

use crate::forms::{in_range, place_of, used_at};
use crate::{Letters, Row};

pub fn in_fixed_ranges(letters: Letters, row: Row) -> bool
    ensures { result ≡ in_fixed_ranges (forms_of letters) (line_in row) }
{
    let Some(place) = place_of(letters, row.letter) else {
        return false;
    };
    let used = used_at(place);
    if row.used < used {
        return false;
    }
    let numbers = row.numbers;
    for field in 0..used {
        if !in_range(place, field, numbers[field]) {
            return false;
        }
    }
    true
}
