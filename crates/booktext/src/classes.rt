// The Q lines of classes, from their sets of phones.
ghost use Rattle.std.specs.Prelude.{[], ◌∷◌, ◌<◌, length};
ghost use Rattle.definitions.specs.Lists.{up_from};
ghost use Rattle.booktext.specs.Parts.{member_lines, class_lines};
ghost use Rattle.booktext.specs.Putting.{Countable, Put, RowFor};

use crate::putting::put_rows;
use definitions::wide;
use lines::Row;
use matrix::sets::has_phone;

// The Q line of a class with a phone, where its set has that phone.
#[tactic(auto, unfolding(definitions::specs::Lists::select, definitions::specs::BookText::book_line_for, lines::specs::Rows::line_in))]
fn member_row(class: u32, set: u64, phone: u32) -> Option<Row>
    ensures { RowFor (member_lines class set (phone ∷ [])) result }
{
    if !has_phone(set, phone) {
        return None;
    }
    Some(Row {
        letter: b'Q',
        used: 2,
        numbers: [class, phone, 0, 0, 0],
    })
}

// The Q lines of a class.
fn put_class(phones: u32, class: u32, set: u64, text: &mut [u8], count: usize) -> usize
    requires { Countable (member_lines class set (up_from 1 phones)) count }
    ensures { Put (member_lines class set (up_from 1 phones)) text.old count text.new result }
{
    let row_at = |i: usize| member_row(class, set, (i + 1) as u32);
    put_rows(row_at, wide(phones), text, count)
}

// The Q lines of all classes, which have these sets.
pub fn put_classes(phones: u32, sets: &[u64], text: &mut [u8], count: usize) -> usize
    requires { (length sets.now < 4294967296) × Countable (class_lines phones 1 sets.now) count }
    ensures { Put (class_lines phones 1 sets.now) text.old count text.new result }
{
    let mut next = count;
    for (i, set) in sets.iter().enumerate() {
        let class = (i + 1) as u32;
        next = put_class(phones, class, *set, text, next);
    }
    next
}
