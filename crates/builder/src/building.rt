// Reads a tree book and builds its network: the tables, the combinations, the metastates and the arcs in lent
// buffers; or the refusal, and all of them cleared.
ghost use Rattle.std.specs.Prelude.{◌≡◌};
ghost use Rattle.definitions.specs.BookBuilding.{build_book, tables_after, buffers_after};
ghost use Rattle.definitions.specs.Building.{build};
ghost use Rattle.tables.specs.Lending.{lengths_of, lent_tables};
ghost use Rattle.network.specs.Answers.{lent_space, lent_buffers, build_answer, build_left};
ghost use Rattle.builder.specs.Answers.{book_answer, MeetsDemand3, KeepsFinalLast};
ghost use Rattle.builder.specs.Tables.{tables_kept};

use book::reader::read;
use definitions::{Header, Refusal};
use network::Build;
use network::building::build;

// Builds from the tables that reading left; they are cleared where the build is refused.
// The lent slices stay apart, as C lends them to the entry.
fn build_read(
    header: Header,
    nodes: &mut [u32],
    classes: &mut [u64],
    roots: &mut [u32],
    plains: &mut [u32],
    combinations: &mut [u64],
    metastates: &mut [u64],
    arcs: &mut [u32],
    limit: u32,
) -> Result<Build, Refusal>
    ensures answer { result ≡ build_answer header
        (lent_tables nodes.old classes.old roots.old plains.old)
        (lent_space combinations.old metastates.old arcs.old) limit }
    ensures tables { lent_tables nodes.new classes.new roots.new plains.new
        ≡ tables_kept
        (lent_tables nodes.old classes.old roots.old plains.old)
        (build header
        (lent_tables nodes.old classes.old roots.old plains.old)
        (lent_space combinations.old metastates.old arcs.old) limit) }
    ensures leaves { lent_buffers combinations.new metastates.new arcs.new
        ≡ build_left header
        (lent_tables nodes.old classes.old roots.old plains.old)
        (lent_space combinations.old metastates.old arcs.old) limit }
{
    let built = build(
        header,
        nodes,
        classes,
        roots,
        plains,
        combinations,
        metastates,
        arcs,
        limit,
    );
    if built.is_err() {
        nodes.fill(0);
        classes.fill(0);
        roots.fill(0);
        plains.fill(0);
    }
    built
}

// Reads a book and builds its network.
// The lent slices stay apart, as C lends them to the entry.
pub fn build_book(
    text: &[u8],
    nodes: &mut [u32],
    classes: &mut [u64],
    roots: &mut [u32],
    plains: &mut [u32],
    combinations: &mut [u64],
    metastates: &mut [u64],
    arcs: &mut [u32],
    limit: u32,
) -> Result<Build, Refusal>
    ensures answer { result ≡ book_answer (build_book
        (lengths_of nodes.old classes.old roots.old plains.old)
        (lent_space combinations.old metastates.old arcs.old) limit
        text.now) }
    ensures tables { lent_tables nodes.new classes.new roots.new plains.new
        ≡ tables_after
        (lengths_of nodes.old classes.old roots.old plains.old)
        (build_book
        (lengths_of nodes.old classes.old roots.old plains.old)
        (lent_space combinations.old metastates.old arcs.old) limit
        text.now) }
    ensures leaves { lent_buffers combinations.new metastates.new arcs.new
        ≡ buffers_after
        (lengths_of nodes.old classes.old roots.old plains.old)
        (lent_space combinations.old metastates.old arcs.old)
        (build_book
        (lengths_of nodes.old classes.old roots.old plains.old)
        (lent_space combinations.old metastates.old arcs.old) limit
        text.now) }
    ensures demand { MeetsDemand3
        (lengths_of nodes.old classes.old roots.old plains.old)
        text.now result arcs.new }
    ensures ending { KeepsFinalLast result arcs.new }
{
    match read(text, nodes, classes, roots, plains) {
        Ok(header) => build_read(
            header,
            nodes,
            classes,
            roots,
            plains,
            combinations,
            metastates,
            arcs,
            limit,
        ),
        Err(refusal) => {
            combinations.fill(0);
            metastates.fill(0);
            arcs.fill(0);
            Err(refusal)
        }
    }
}
