// The roots in force: a boundary phone takes its plain phone's trees.
ghost use Rattle.std.specs.Prelude.{◌++◌, ◌≡◌, ◌≤◌, ◌<◌, length, drop};
ghost use Rattle.definitions.specs.BookLines.{root_count};
ghost use Rattle.definitions.specs.Lists.{◌!◌};
ghost use Rattle.definitions.specs.Tables.{tree_phone};
ghost use Rattle.tables.specs.Forcing.{forced_roots, Forceable};

use crate::records::word_at;
use crate::roots::root_of;
use definitions::{Header, wide};
use lines::counting::from_zero;

// How many roots a book has at most, for 64 phones of 3 states.
pub const MOST_ROOTS: usize = 64 * 3;

// The phone whose trees a phone has: its plain phone, where it is a boundary phone.
#[tactic(auto, unfolding(definitions::specs::Tables::tree_phone))]
pub fn tree_phone(plains: &[u32], phone: u32) -> u32
    ensures { result ≡ tree_phone plains.now phone }
{
    let plain = word_at(plains, from_zero(phone));
    if plain != 0 { plain } else { phone }
}

// The root in force at a place in R order.
fn root_in_force(header: Header, roots: &[u32], plains: &[u32], place: u32) -> u32
    requires { Forceable header roots.now plains.now × (place < root_count header) }
    ensures { result ≡ forced_roots header roots.now plains.now ! place }
{
    let phone = tree_phone(plains, place / header.states + 1);
    root_of(header, roots, phone, place % header.states + 1)
}

// The roots in force of all phones and states, from the front of the buffer.
// The lent slices stay apart, as C lends them to the entry.
pub fn roots_in_force(header: Header, roots: &[u32], plains: &[u32], forced: &mut [u32])
    requires { Forceable header roots.now plains.now × (root_count header ≤ length forced.old) }
    ensures { forced.new ≡ forced_roots header roots.now plains.now
        ++ drop (root_count header) forced.old }
{
    let count = header.phones * header.states;
    for place in 0..count {
        forced[wide(place)] = root_in_force(header, roots, plains, place);
    }
}
