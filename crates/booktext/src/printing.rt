// All lines of a book in tables.
ghost use Rattle.std.specs.Prelude.{◌≤◌, length};
ghost use Rattle.definitions.specs.Forms.{most_nodes};
ghost use Rattle.booktext.specs.Parts.{book_lines};
ghost use Rattle.booktext.specs.Putting.{Put};

use crate::boundaries::put_boundaries;
use crate::classes::put_classes;
use crate::nodes::put_nodes;
use crate::putting::put_line;
use crate::roots::put_roots;
use definitions::Header;

// Writes the lines of a book with its header, where there is room. Answers how many there are.
// The lent slices stay apart, as C lends them to the entry.
pub fn put_book(
    header: Header,
    nodes: &[u32],
    sets: &[u64],
    roots: &[u32],
    plains: &[u32],
    text: &mut [u8],
) -> usize
    requires { (1 ≤ header.states) × (length sets.now ≤ most_nodes) × (length roots.now ≤ most_nodes)
        × (length plains.now ≤ most_nodes) }
    ensures { Put (book_lines header nodes.now sets.now roots.now plains.now)
        text.old 0 text.new result }
{
    let heading = put_line(header.into(), text, 0);
    let members = put_classes(header.phones, sets, text, heading);
    let all_nodes = put_nodes(header.nodes, nodes, text, members);
    let boundaries = put_boundaries(plains, text, all_nodes);
    put_roots(header.states, roots, text, boundaries)
}
