// The root of a phone's tree for a state, out of the table of roots.
ghost use Rattle.std.specs.Prelude.{◌≡◌};
ghost use Rattle.definitions.specs.BookLines.{root_place};
ghost use Rattle.definitions.specs.Lists.{◌!◌};

use crate::records::word_at;
use definitions::Header;
use lines::counting::root_place;

// The root of a phone's tree for a state, 0 beyond the table; a phone or state 0 counts as 1.
pub fn root_of(header: Header, roots: &[u32], phone: u32, state: u32) -> u32
    ensures { result ≡ roots.now ! root_place header.states phone state }
{
    word_at(roots, root_place(header.states, phone, state))
}
