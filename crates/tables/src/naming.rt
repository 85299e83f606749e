// How often nodes are named, as children or as roots: a count for each node.
ghost use Rattle.std.specs.Prelude.{◌≡◌};
ghost use Rattle.tables.specs.Naming.{named_again, misnamed_place};

use definitions::wide;

// Counts a node as named once more; a node without a count, or one that is full, stays as it is.
pub fn name_node(counts: &mut [u32], node: u32)
    ensures { counts.new ≡ named_again counts.old node }
{
    let at = wide(node);
    if at < counts.len() {
        // By its place: through `get_mut` the check knows nothing of what is written.
        counts[at] = counts[at].saturating_add(1);
    }
}

// The lowest node whose count is not 1.
pub fn first_misnamed(counts: &[u32]) -> Option<usize>
    ensures { result ≡ misnamed_place counts.now }
{
    counts.iter().position(|count| *count != 1)
}
