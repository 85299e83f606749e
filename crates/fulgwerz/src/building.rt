// Building, for C: the combinations of lent tables, their network, and the network of a book's text.
ghost use Rattle.std.specs.Prelude.{◌≡◌, length};
ghost use Rattle.definitions.specs.BookBuilding.{build_book, tables_after, buffers_after};
ghost use Rattle.definitions.specs.Building.{build};
ghost use Rattle.definitions.specs.Combinations.{combine, combination_space};
ghost use Rattle.definitions.specs.Said.{said_of, progress_of, no_progress, book_progress};
ghost use Rattle.tables.specs.Lending.{lengths_of, lent_tables};
ghost use Rattle.network.specs.Answers.{build_left, lent_buffers, lent_space};
ghost use Rattle.fulgwerz.specs.Answers.{count_answer, build_answer, MeetsDemand3, KeepsFinalLast};

use crate::{BuildAnswer, CountAnswer};
use builder::building::build_book;
use combinations::combining::combine;
use definitions::Header;
use network::building::build;

// Fills in the combinations, and counts them.
#[unsafe(no_mangle)]
pub extern "C" fn fulgwerz_combine(
    header: Header,
    nodes: &[u32],
    classes: &[u64],
    roots: &[u32],
    plains: &[u32],
    combinations: &mut [u64],
) -> CountAnswer
    ensures answer { result ≡ count_answer (said_of length 0
        (combine header
        (lent_tables nodes.now classes.now roots.now plains.now)
        (length combinations.old))) }
    ensures leaves { combinations.new ≡ combination_space header.half (length combinations.old)
        (combine header
        (lent_tables nodes.now classes.now roots.now plains.now)
        (length combinations.old)) }
{
    combine(header, nodes, classes, roots, plains, combinations).into()
}

// Builds the network of lent tables.
#[unsafe(no_mangle)]
pub extern "C" fn fulgwerz_build(
    header: Header,
    nodes: &[u32],
    classes: &[u64],
    roots: &[u32],
    plains: &[u32],
    combinations: &mut [u64],
    metastates: &mut [u64],
    arcs: &mut [u32],
    limit: u32,
) -> BuildAnswer
    ensures answer { result ≡ build_answer (said_of (progress_of header.states) no_progress
        (build header
        (lent_tables nodes.now classes.now roots.now plains.now)
        (lent_space combinations.old metastates.old arcs.old) limit)) }
    ensures leaves { lent_buffers combinations.new metastates.new arcs.new
        ≡ build_left header
        (lent_tables nodes.now classes.now roots.now plains.now)
        (lent_space combinations.old metastates.old arcs.old) limit }
{
    build(
        header,
        nodes,
        classes,
        roots,
        plains,
        combinations,
        metastates,
        arcs,
        limit,
    )
    .into()
}

// Reads a tree book and builds its network.
#[unsafe(no_mangle)]
pub extern "C" fn fulgwerz_build_book(
    text: &[u8],
    nodes: &mut [u32],
    classes: &mut [u64],
    roots: &mut [u32],
    plains: &mut [u32],
    combinations: &mut [u64],
    metastates: &mut [u64],
    arcs: &mut [u32],
    limit: u32,
) -> BuildAnswer
    ensures answer { result ≡ build_answer (said_of book_progress no_progress (build_book
        (lengths_of nodes.old classes.old roots.old plains.old)
        (lent_space combinations.old metastates.old arcs.old) limit
        text.now)) }
    ensures tables { lent_tables nodes.new classes.new roots.new plains.new
        ≡ tables_after
        (lengths_of nodes.old classes.old roots.old plains.old)
        (build_book
        (lengths_of nodes.old classes.old roots.old plains.old)
        (lent_space combinations.old metastates.old arcs.old) limit
        text.now) }
    ensures leaves { lent_buffers combinations.new metastates.new arcs.new
        ≡ buffers_after
        (lengths_of nodes.old classes.old roots.old plains.old)
        (lent_space combinations.old metastates.old arcs.old)
        (build_book
        (lengths_of nodes.old classes.old roots.old plains.old)
        (lent_space combinations.old metastates.old arcs.old) limit
        text.now) }
    ensures demand { MeetsDemand3
        (lengths_of nodes.old classes.old roots.old plains.old)
        text.now result arcs.new }
    ensures ending { KeepsFinalLast result arcs.new }
{
    build_book(
        text,
        nodes,
        classes,
        roots,
        plains,
        combinations,
        metastates,
        arcs,
        limit,
    )
    .into()
}
