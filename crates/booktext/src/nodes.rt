// The N and L lines of nodes, from their records.
ghost use Rattle.std.specs.Prelude.{◌≡◌};
ghost use Rattle.booktext.specs.Parts.{lines_at, node_lines};
ghost use Rattle.booktext.specs.Putting.{Countable, Put, RowFor};

use crate::putting::put_rows;
use definitions::wide;
use lines::Row;
use tables::records::node_at;

// The N or L line of a node.
#[tactic(auto, unfolding(definitions::specs::Tables::tree_node, definitions::specs::BookText::book_line_for, lines::specs::Rows::line_in))]
fn node_row(words: &[u32], node: u32) -> Row
    ensures { RowFor (lines_at words.now node) (Some result) }
{
    let record = node_at(words, node);
    if record.kind == 1 {
        Row {
            letter: b'N',
            used: 5,
            numbers: [node, record.value, record.position, record.yes, record.no],
        }
    } else {
        Row {
            letter: b'L',
            used: 2,
            numbers: [node, record.value, 0, 0, 0],
        }
    }
}

// The lines of so many nodes.
pub fn put_nodes(nodes: u32, words: &[u32], text: &mut [u8], count: usize) -> usize
    requires { Countable (node_lines nodes 0 words.now) count }
    ensures { Put (node_lines nodes 0 words.now) text.old count text.new result }
{
    let row_at = |node: usize| Some(node_row(words, node as u32));
    put_rows(row_at, wide(nodes), text, count)
}
