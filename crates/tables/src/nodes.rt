// Whether N and L lines leave a record, and the records of all nodes.
ghost use Rattle.std.specs.Prelude.{◌||◌, ◌≡◌, List};
ghost use Rattle.definitions.specs.declared.Node.{Node};
ghost use Rattle.definitions.specs.ForeignTables.{question_known, leaf_known, nodes_known};
ghost use Rattle.tables.specs.Records.{Gives};

use definitions::{Header, MOST_MODEL, Node, wide};

// A record that an N line leaves as node `at`.
#[tactic(auto, unfolding(definitions::specs::ForeignTables::question_known))]
fn question_known(header: Header, at: u32, node: Node) -> bool
    ensures { result ≡ question_known header at node }
{
    node.kind == 1
        && 1 <= node.value
        && node.value <= header.classes
        && wide(node.position) <= 2 * wide(header.half)
        && at < node.yes
        && node.yes < header.nodes
        && at < node.no
        && node.no < header.nodes
}

// A record that an L line leaves.
#[tactic(auto, unfolding(definitions::specs::ForeignTables::leaf_known))]
fn leaf_known(node: Node) -> bool
    ensures { result ≡ leaf_known node }
{
    node.kind == 2
        && 1 <= node.value
        && node.value <= MOST_MODEL
        && node.position == 0
        && node.yes == 0
        && node.no == 0
}

// A record that an N or L line leaves as node `at`.
pub fn record_known(header: Header, at: u32, node: Node) -> bool
    ensures { result ≡ (question_known header at node || leaf_known node) }
{
    question_known(header, at, node) || leaf_known(node)
}

// Records that N and L lines leave as the nodes of a book; `node_at` gives the record of a node. Inlined: where the caller
// has tested the table's length, no word is tested against it again.
#[inline(always)]
pub fn nodes_known<F: Fn(u32) -> Node>(header: Header, node_at: F) -> bool
    requires { F.IsAlwaysCallable node_at }
    ensures { (nodes : List Node) → Gives (F.post node_at) header.nodes nodes
        → result ≡ nodes_known header 0 nodes }
{
    for node in 0..header.nodes {
        if !record_known(header, node, node_at(node)) {
            return false;
        }
    }
    true
}
