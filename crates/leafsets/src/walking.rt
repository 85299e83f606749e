// The depth-first walk of a tree that computes the matrices of its leaves.
ghost use Rattle.std.specs.Prelude.{[], ◌∷◌, ◌++◌, ◌≡◌, ◌+◌, ◌*◌, ◌≤◌, ◌<◌, T, length, take, drop};
ghost use Rattle.definitions.specs.Combinations.{leaves_below};
ghost use Rattle.definitions.specs.ForeignTables.{header_known, nodes_known};
ghost use Rattle.definitions.specs.Tables.{node_records};
ghost use Rattle.tables.specs.Usable.{book_with};
ghost use Rattle.matrix.specs.Shapes.{width_of, matrix_in, HasWidth};
ghost use Rattle.leafsets.specs.Leaves.{leaf_size, put_leaves, last_node};

use crate::LEAF_SIZE;
use definitions::{Header, wide};
use matrix::Matrix;
use matrix::words::put_numbered;
use tables::records::node_at;

// Writes 1, which marks the record as used, and a matrix into the record of a node.
fn put_leaf(table: &mut [u64], node: u32, m: Matrix)
    requires { leaf_size * node + leaf_size ≤ length table.old }
    ensures { table.new
        ≡ take (leaf_size * node) table.old ++ (1 ∷ m.columns)
        ++ drop (leaf_size * node + leaf_size) table.old }
{
    put_numbered(table, LEAF_SIZE * wide(node), 1, m);
}

// Puts the matrix of each leaf below a node into the leaf's record, 1 before it; answers the greatest node of these
// leaves. Children are greater than their node, so the node count minus the node falls at each call.
pub fn walk(
    header: Header,
    nodes: &[u32],
    classes: &[u64],
    node: u32,
    m: Matrix,
    table: &mut [u64],
) -> u32
    requires { T (header_known header) × T (nodes_known header 0 (node_records header nodes.now))
        × (header.classes ≤ length classes.now) × (node < header.nodes)
        × HasWidth (width_of header.half) m.columns
        × (length table.old ≡ leaf_size * header.nodes) }
    ensures table { table.new
        ≡ put_leaves table.old (leaves_below header.nodes
        (book_with header nodes.now classes.now [])
        (matrix_in header.half m.columns) node) }
    ensures last { result ≡ last_node (leaves_below header.nodes
        (book_with header nodes.now classes.now [])
        (matrix_in header.half m.columns) node) }
{
    let record = node_at(nodes, node);
    if record.kind != 1 {
        put_leaf(table, node, m);
        return node;
    }
    let set = classes[wide(record.value) - 1];
    let on_yes = walk(
        header,
        nodes,
        classes,
        record.yes,
        m.yes_side(record.position, set),
        table,
    );
    let on_no = walk(
        header,
        nodes,
        classes,
        record.no,
        m.no_side(record.position, set),
        table,
    );
    on_yes.max(on_no)
}
