// The leaf that a context reaches from a root, and the questions met on the way, over a lent slice of node structs: 18,
// then 13.
ghost use Rattle.std.specs.Prelude.{◌≡◌};
ghost use Rattle.definitions.specs.Lookup.{leaf_lookup, lookup_known};
ghost use Rattle.definitions.specs.Said.{result_of};
ghost use Rattle.tables.specs.Records.{record_at};
ghost use Rattle.trees.specs.Answers.{walked_of};

use crate::Walked;
use crate::contexts::is_context;
use crate::walking::walk;
use definitions::{Fault, Header, Node, Refusal, wide};
use tables::foreign::list_known;
use tables::nodes::nodes_known;

// The record of a node, of zeros beyond the list.
#[tactic(auto, unfolding(definitions::specs::Tables::node_of))]
fn node_in(nodes: &[Node], node: u32) -> Node
    ensures { result ≡ record_at nodes.now node }
{
    nodes.get(wide(node)).copied().unwrap_or(Node {
        kind: 0,
        value: 0,
        position: 0,
        yes: 0,
        no: 0,
    })
}

// Whether reading leaves these records and classes with this header, and the root is one of the nodes.
fn lookup_known(header: Header, nodes: &[Node], classes: &[u64], root: u32) -> bool
    ensures { result ≡ lookup_known header classes.now nodes.now root }
{
    list_known(header, nodes.len(), classes, root)
        && nodes_known(header, |node| node_in(nodes, node))
}

// The tables stay apart, as C lends them.
pub fn leaf_of(
    header: Header,
    nodes: &[Node],
    classes: &[u64],
    root: u32,
    context: &[u32],
) -> Result<Walked, Refusal>
    ensures { result ≡ result_of walked_of
        (leaf_lookup header classes.now nodes.now root context.now) }
{
    if !lookup_known(header, nodes, classes, root) {
        return Err(Fault::Foreign.at(0));
    }
    if !is_context(header, context) {
        return Err(Fault::Range.at(0));
    }
    Ok(walk(header, |node| node_in(nodes, node), classes, context, root))
}
