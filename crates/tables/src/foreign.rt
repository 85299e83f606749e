// The test for foreign tables (18), for every entry that is lent tables.
ghost use Rattle.std.specs.Prelude.{◌&&◌, [], map, ◌≡◌, ◌*◌, ◌≤◌, T, ltb, eqb, length};
ghost use Rattle.definitions.specs.BookLines.{children_of, root_count};
ghost use Rattle.definitions.specs.BookReading.{node_size};
ghost use Rattle.definitions.specs.ForeignTables.{header_known, holds_only, node_table_known, class_table_known};
ghost use Rattle.definitions.specs.ForeignTables.{named_once, tables_known};
ghost use Rattle.definitions.specs.Lists.{concat_map};
ghost use Rattle.definitions.specs.Lookup.{lookup_known};
ghost use Rattle.definitions.specs.Tables.{node_records, tree_node, tables_contents};
ghost use Rattle.tables.specs.Lending.{lent_tables};
ghost use Rattle.tables.specs.Naming.{named_all};

use crate::known::{
    class_table_known, header_known, node_table_known, plain_table_known, root_table_known,
};
use crate::naming::{first_misnamed, name_node};
use crate::records::node_at;
use definitions::{Header, MOST_NODES, Node, wide};

// Counts the children that a record names.
fn name_children(counts: &mut [u32], node: Node)
    ensures { counts.new ≡ named_all counts.old (children_of (tree_node node)) }
{
    if node.kind == 1 {
        name_node(counts, node.yes);
        name_node(counts, node.no);
    }
}

// Counts the children of all nodes.
fn name_all_children(counts: &mut [u32], header: Header, words: &[u32])
    ensures { counts.new
        ≡ named_all counts.old
        (concat_map children_of (map tree_node (node_records header words.now))) }
{
    for at in 0..header.nodes {
        name_children(counts, node_at(words, at));
    }
}

// Counts the roots.
fn name_roots(counts: &mut [u32], roots: &[u32])
    ensures { counts.new ≡ named_all counts.old roots.now }
{
    for root in roots {
        name_node(counts, *root);
    }
}

// Whether every node is named exactly once, as a child or as a root.
fn named_once(header: Header, nodes: &[u32], roots: &[u32]) -> bool
    requires { T (header_known header) × (root_count header ≤ length roots.now) }
    ensures { result ≡ named_once (tables_contents header (lent_tables nodes.now [] roots.now [])) }
{
    let mut counts = [0u32; MOST_NODES];
    name_all_children(&mut counts, header, nodes);
    let used = wide(header.phones) * wide(header.states);
    name_roots(&mut counts, &roots[..used]);
    let count = wide(header.nodes);
    first_misnamed(&counts[..count]).is_none()
}

// Whether reading leaves these records and classes with this header.
fn records_known(header: Header, nodes: &[u32], classes: &[u64]) -> bool
    ensures { result ≡ (header_known header && node_table_known header nodes.now
        && class_table_known header classes.now) }
{
    header_known(header) && node_table_known(header, nodes) && class_table_known(header, classes)
}

// Whether reading leaves these tables with this header. They stay apart, as C lends them to the entries that README names.
#[tactic(auto, unfolding(definitions::specs::ForeignTables::tables_known, definitions::specs::ForeignTables::named_once, definitions::specs::Tables::tables_contents))]
pub fn tables_known(
    header: Header,
    nodes: &[u32],
    classes: &[u64],
    roots: &[u32],
    plains: &[u32],
) -> bool
    ensures { result ≡ tables_known header (lent_tables nodes.now classes.now roots.now
        plains.now) }
{
    records_known(header, nodes, classes)
        && plain_table_known(header, plains)
        && root_table_known(header, plains, roots)
        && named_once(header, nodes, roots)
}

// Whether reading leaves these records and classes with this header, and the root is one of the nodes. How
// often nodes are named is not judged.
pub fn lookup_known(header: Header, nodes: &[u32], classes: &[u64], root: u32) -> bool
    ensures { result ≡ (holds_only (node_size * header.nodes) nodes.now
        && lookup_known header classes.now (node_records header nodes.now) root) }
{
    records_known(header, nodes, classes) && root < header.nodes
}

// The same of a list of so many node records, but for the records, which are judged one by one.
pub fn list_known(header: Header, count: usize, classes: &[u64], root: u32) -> bool
    ensures { result ≡ (header_known header && eqb count header.nodes && class_table_known header classes.now
        && ltb root header.nodes) }
{
    header_known(header)
        && count == wide(header.nodes)
        && class_table_known(header, classes)
        && root < header.nodes
}
