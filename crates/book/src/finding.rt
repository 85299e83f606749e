// A line found again in the text. It is looked for only where a book is refused, so a book that is accepted is read
// in one pass.
ghost use Rattle.std.specs.Prelude.{◌≡◌, Bool};
ghost use Rattle.definitions.specs.BookLines.{BookLine};
ghost use Rattle.definitions.specs.BookReading.{is_line_of};
ghost use Rattle.booklines.specs.Entries.{entry_line};
ghost use Rattle.book.specs.Steps.{names_plain_in, line_number_of, Seeks};

use booklines::Entry;
use booklines::entries::entry_of;
use definitions::wide;
use lines::Letters;
use lines::parsing::parse;
use matrix::sets::has_phone;

// Whether a line is a node's N or L line.
#[tactic(auto, unfolding(booklines::specs::Entries::entry_line, definitions::specs::BookReading::is_line_of, definitions::specs::BookLines::node_line_in, definitions::specs::Lists::at_least_one))]
pub fn is_line_of(entry: Entry, node: usize) -> bool
    ensures { result ≡ is_line_of node (entry_line entry) }
{
    match entry {
        Entry::N { node: own, .. } | Entry::L { node: own, .. } => node == wide(own),
        _ => false,
    }
}

// Whether a line is a B line whose plain phone is in a set.
#[tactic(auto, unfolding(booklines::specs::Entries::entry_line, crate::specs::Steps::names_plain_in, definitions::specs::BookLines::boundary_in, definitions::specs::Lists::at_least_one))]
pub fn names_plain_in(entry: Entry, set: u64) -> bool
    ensures { result ≡ names_plain_in set (entry_line entry) }
{
    match entry {
        Entry::B { plain, .. } => has_phone(set, plain),
        _ => false,
    }
}

// The number of the first line in a text that is sought; one past the last where none is.
// A number where there is none too, as `line_number_of` says; a refusal always has one.
pub fn line_where<F: Fn(Entry) -> bool>(text: &[u8], sought: F) -> usize
    requires { F.IsAlwaysCallable sought }
    ensures { (test : BookLine → Bool) → Seeks (F.post sought) test → result ≡ line_number_of text.now test }
{
    let count = text.len() / 32;
    for i in 0..count {
        if let Some(row) = parse(Letters::Book, &text[32 * i..32 * i + 32]) {
            if sought(entry_of(row)) {
                return i + 1;
            }
        }
    }
    count + 1
}
