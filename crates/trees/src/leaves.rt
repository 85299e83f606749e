// The leaf that a context reaches from a root, and the questions met on the way, over lent tables: 18, then 13.
ghost use Rattle.std.specs.Prelude.{◌≡◌};
ghost use Rattle.definitions.specs.Lookup.{leaf_lookup_in_table};
ghost use Rattle.definitions.specs.Said.{result_of};
ghost use Rattle.trees.specs.Answers.{walked_of};

use crate::Walked;
use crate::contexts::is_context;
use crate::walking::walk;
use definitions::{Fault, Header, Refusal};
use tables::foreign::lookup_known;
use tables::records::node_at;

// The tables stay apart, as C lends them. The other lookup is as short, over structs.
pub fn leaf_of(
    header: Header,
    nodes: &[u32],
    classes: &[u64],
    root: u32,
    context: &[u32],
) -> Result<Walked, Refusal>
    ensures { result ≡ result_of walked_of
        (leaf_lookup_in_table header classes.now nodes.now root context.now) }
{
    if !lookup_known(header, nodes, classes, root) {
        return Err(Fault::Foreign.at(0));
    }
    if !is_context(header, context) {
        return Err(Fault::Range.at(0));
    }
    Ok(walk(header, |node| node_at(nodes, node), classes, context, root))
}
