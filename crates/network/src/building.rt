// The build from lent tables into lent space: 18, then 30, then 31 or 32 as construction meets them.
ghost use Rattle.std.specs.Prelude.{◌≡◌, ◌*◌, ◌≤◌, length, take};
ghost use Rattle.definitions.specs.Building.{build};
ghost use Rattle.definitions.specs.Combinations.{combination_size};
ghost use Rattle.definitions.specs.Said.{result_of};
ghost use Rattle.tables.specs.Lending.{lent_tables};
ghost use Rattle.metastates.specs.Outcomes.{connected_in};
ghost use Rattle.network.specs.Answers.{build_of, lent_space, lent_buffers, build_left};
ghost use Rattle.network.specs.Connected.{BuiltIn};
ghost use Rattle.network.specs.Workspace.{Ready};

use crate::Build;
use crate::connecting::connect;
use combinations::combining::combine;
use definitions::sizes::combination_size;
use definitions::{Header, Refusal};
use metastates::Rules;

// Connects the combinations in the space; all three buffers are cleared where there is no room.
// The lent slices stay apart, as C lends them to the entry.
fn connect_in(
    header: Header,
    nodes: &[u32],
    count: usize,
    ends: &[u32],
    combinations: &mut [u64],
    metastates: &mut [u64],
    arcs: &mut [u32],
    limit: u32,
) -> Result<Build, Refusal>
    requires { (combination_size header.half * count ≤ length combinations.old)
        × Ready header nodes.now (take (combination_size header.half * count) combinations.old) ends.now
        metastates.old arcs.old }
    ensures { BuiltIn header combinations.old metastates.old arcs.old
        (connected_in header nodes.now
        (take (combination_size header.half * count) combinations.old)
        metastates.old arcs.old limit)
        result combinations.new metastates.new arcs.new }
{
    let used = combination_size(header.half) * count;
    let rules = Rules {
        header,
        nodes,
        combinations: &combinations[..used],
    };
    let answer = connect(rules, ends, metastates, arcs, limit);
    if answer.is_err() {
        combinations.fill(0);
        metastates.fill(0);
        arcs.fill(0);
    }
    answer
}

// Builds the network of a book.
// The lent slices stay apart, as C lends them to the entry.
pub fn build(
    header: Header,
    nodes: &[u32],
    classes: &[u64],
    roots: &[u32],
    plains: &[u32],
    combinations: &mut [u64],
    metastates: &mut [u64],
    arcs: &mut [u32],
    limit: u32,
) -> Result<Build, Refusal>
    ensures answer { result ≡ result_of (build_of header.states)
        (build header
        (lent_tables nodes.now classes.now roots.now plains.now)
        (lent_space combinations.old metastates.old arcs.old) limit) }
    ensures leaves { lent_buffers combinations.new metastates.new arcs.new
        ≡ build_left header
        (lent_tables nodes.now classes.now roots.now plains.now)
        (lent_space combinations.old metastates.old arcs.old) limit }
{
    metastates.fill(0);
    arcs.fill(0);
    let found = combine(header, nodes, classes, roots, plains, combinations)?;
    connect_in(
        header,
        nodes,
        found.count,
        &found.ends,
        combinations,
        metastates,
        arcs,
        limit,
    )
}
