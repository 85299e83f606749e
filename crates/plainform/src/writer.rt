// Writing the plain form of lent tables: 18, then 33.
ghost use Rattle.std.specs.Prelude.{true, map, ◌≡◌, length};
ghost use Rattle.definitions.specs.BookText.{book_line_for};
ghost use Rattle.definitions.specs.Faults.{answer_left};
ghost use Rattle.definitions.specs.ForeignTables.{tables_known};
ghost use Rattle.definitions.specs.PlainForm.{plain_lines, write_plain};
ghost use Rattle.definitions.specs.Said.{result_of};
ghost use Rattle.definitions.specs.Tables.{tables_contents};
ghost use Rattle.tables.specs.Lending.{lent_tables};
ghost use Rattle.booktext.specs.Putting.{Put};

use crate::trees::LentTrees;
use booktext::printing::put_book;
use definitions::{Fault, Header, MOST_NODES, NODE_SIZE, Refusal, wide};
use tables::foreign::tables_known;

// Words for the nodes of the plain form, and for its roots.
const NODE_WORDS: usize = NODE_SIZE * MOST_NODES;

const ROOT_WORDS: usize = 192;

// Writes the lines of the plain form of known tables, where there is room. Answers how many there are.
// The lent slices stay apart, as C lends them to the entry.
fn put_plain(
    header: Header,
    nodes: &[u32],
    classes: &[u64],
    roots: &[u32],
    plains: &[u32],
    text: &mut [u8],
) -> usize
    requires { tables_known header (lent_tables nodes.now classes.now roots.now plains.now) ≡ true }
    ensures { Put (map book_line_for (plain_lines (tables_contents header
        (lent_tables nodes.now classes.now roots.now plains.now))))
        text.old 0 text.new result }
{
    let held = wide(header.classes);
    let phones = wide(header.phones);
    let many = phones * wide(header.states);
    let kept = &classes[..held];
    let given = &roots[..many];
    let mut sets = [0u64; MOST_NODES];
    let trees = LentTrees {
        header,
        nodes,
        classes: kept,
    };
    let used = trees.collect_all(given, &mut sets);
    let own = &sets[..used];
    let mut table = [0u32; NODE_WORDS];
    let mut starts = [0u32; ROOT_WORDS];
    trees.number_all(given, own, &mut table, &mut starts);
    let plain = Header {
        classes: used as u32,
        ..header
    };
    put_book(plain, &table, own, &starts[..many], &plains[..phones], text)
}

// Writes the plain form of lent tables, and 0 in the rest of the buffer.
// The lent slices stay apart, as C lends them to the entry.
pub fn write(
    header: Header,
    nodes: &[u32],
    classes: &[u64],
    roots: &[u32],
    plains: &[u32],
    text: &mut [u8],
) -> Result<usize, Refusal>
    ensures answer { result ≡ result_of length (write_plain header
        (lent_tables nodes.now classes.now roots.now plains.now)
        (length text.old)) }
    ensures leaves { text.new ≡ answer_left (length text.old) (write_plain header
        (lent_tables nodes.now classes.now roots.now plains.now)
        (length text.old)) }
{
    text.fill(0);
    if !tables_known(header, nodes, classes, roots, plains) {
        return Err(Fault::Foreign.into());
    }
    let count = put_plain(header, nodes, classes, roots, plains, text);
    if text.len() / 32 < count {
        text.fill(0);
        return Err(Fault::Short.into());
    }
    Ok(32 * count)
}
