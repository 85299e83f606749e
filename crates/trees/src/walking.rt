// The walk from a root to the leaf that a context reaches.
ghost use Rattle.std.specs.Prelude.{if◌then◌else◌, ◌≡◌, ◌<◌, List, T};
ghost use Rattle.definitions.specs.declared.Node.{Node};
ghost use Rattle.definitions.specs.ForeignTables.{nodes_known};
ghost use Rattle.definitions.specs.Lookup.{answers};
ghost use Rattle.definitions.specs.Tables.{asked_of};
ghost use Rattle.tables.specs.Records.{Gives};
ghost use Rattle.trees.specs.Answers.{Walks};

use crate::Walked;
use definitions::{Header, Node, wide};
use matrix::sets::has_phone;
use tables::classes::set_of;
use tables::records::word_at;

// The child of a question that a context goes to.
#[tactic(auto, unfolding(definitions::specs::Lookup::answers))]
pub fn child_of(node: Node, classes: &[u64], context: &[u32]) -> u32
    ensures { result ≡ (if answers classes.now context.now (asked_of node)
        then node.yes else node.no) }
{
    let set = set_of(classes, node.value);
    let phone = word_at(context, wide(node.position));
    if has_phone(set, phone) {
        node.yes
    } else {
        node.no
    }
}

// The leaf that a context reaches from a root, and how many questions are met on the way; `node_at` gives the record of a
// node. Children are greater than their node, so the walk ends before it has met as many as there are nodes.
pub fn walk<F: Fn(u32) -> Node>(
    header: Header,
    node_at: F,
    classes: &[u64],
    context: &[u32],
    root: u32,
) -> Walked
    requires { F.IsAlwaysCallable node_at }
    ensures { (nodes : List Node) → Gives (F.post node_at) header.nodes nodes
        → T (nodes_known header 0 nodes) → root < header.nodes
        → Walks header nodes classes.now context.now root result }
{
    let mut node = root;
    for questions in 0..header.nodes {
        let record = node_at(node);
        if record.kind != 1 {
            return Walked {
                leaf: node,
                questions,
            };
        }
        node = child_of(record, classes, context);
    }
    Walked {
        leaf: node,
        questions: header.nodes,
    }
}
