// The combinations of a book, in lent space: 18, then 30.
ghost use Rattle.std.specs.Prelude.{◌≡◌, ◌*◌, ◌≤◌, length};
ghost use Rattle.definitions.specs.Combinations.{combinations_of, combine, combination_space};
ghost use Rattle.definitions.specs.Said.{result_of};
ghost use Rattle.definitions.specs.Tables.{tables_book};
ghost use Rattle.tables.specs.Lending.{lent_tables};
ghost use Rattle.tables.specs.Trees.{trees_book};
ghost use Rattle.leafsets.specs.Leaves.{leaf_size};
ghost use Rattle.leafsets.specs.Working.{IsPhone, Working, Worked};
ghost use Rattle.choices.specs.Space.{Holding, Added};
ghost use Rattle.combinations.specs.Answers.{by_phone, Clear, AllAdded};

use crate::ByPhone;
use choices::Choice;
use choices::choosing::choose;
use definitions::{Fault, Header, MOST_NODES, Refusal, wide};
use leafsets::LEAF_SIZE;
use leafsets::collecting::list_leaves;
use matrix::Matrix;
use matrix::sets::{all_phones, alone};
use tables::forcing::{MOST_ROOTS, roots_in_force};
use tables::foreign::tables_known;
use tables::trees::Trees;

// Up to so many nodes a book gets short lists: a record for each node, of these or of all that a book may have.
const FEW_NODES: usize = 1024;

const SHORT_LIST: usize = LEAF_SIZE * FEW_NODES;

const LONG_LIST: usize = LEAF_SIZE * MOST_NODES;

// Adds the combinations of a phone.
// The working lists stay apart: `choose` takes them one place on at each call.
fn choose_phone(
    trees: Trees,
    phone: u32,
    table: &mut [u64],
    first: &mut [u64],
    second: &mut [u64],
    third: &mut [u64],
    space: &mut [u64],
    count: usize,
) -> Result<usize, Fault>
    requires { IsPhone trees.header phone
        × Working trees.header.nodes table.old first.old second.old third.old
        × Holding trees.header.half space.old count }
    ensures space { Added trees.entry.header.half space.old count
        (combinations_of (trees_book trees.entry) phone) result space.new }
    ensures lists { Worked trees.entry.header.nodes
        table.old first.old second.old third.old
        table.new first.new second.new third.new }
{
    let header = trees.header;
    let a = list_leaves(trees, phone, 1, table, first);
    let b = list_leaves(trees, phone, 2, table, second);
    let c = list_leaves(trees, phone, 3, table, third);
    let all = all_phones(header.phones);
    let start = Choice {
        phone,
        taken: 0,
        leaves: [0, 0, 0],
        matrix: Matrix::around(header.half, all, alone(phone), all),
    };
    choose(
        &first[..LEAF_SIZE * a],
        &second[..LEAF_SIZE * b],
        &third[..LEAF_SIZE * c],
        header.states,
        header.half,
        start,
        space,
        count,
    )
}

// Adds the combinations of all phones, and notes how many there are after each. The working lists are lent.
// The lists and the space stay apart: a struct of them would have to say in each contract which it keeps.
fn choose_phones(
    trees: Trees,
    table: &mut [u64],
    first: &mut [u64],
    second: &mut [u64],
    third: &mut [u64],
    space: &mut [u64],
    ends: &mut [u32],
) -> Result<usize, Fault>
    requires { Clear space.old ends.old
        × Working trees.header.nodes table.old first.old second.old third.old }
    ensures { AllAdded (trees_book trees.entry) space.old result space.new ends.new }
{
    let mut count = 0;
    for phone in 1..trees.header.phones + 1 {
        count = choose_phone(trees, phone, table, first, second, third, space, count)?;
        ends[wide(phone)] = count as u32;
    }
    Ok(count)
}

// Adds the combinations of all phones, in arrays of so many words for the table and the lists.
fn choose_in<const N: usize>(
    trees: Trees,
    space: &mut [u64],
    ends: &mut [u32],
) -> Result<usize, Fault>
    requires { Clear space.old ends.old
        × (leaf_size * trees.header.nodes ≤ N) × (N ≤ 32768) }
    ensures { AllAdded (trees_book trees.entry) space.old result space.new ends.new }
{
    let mut table = [0u64; N];
    let mut first = [0u64; N];
    let mut second = [0u64; N];
    let mut third = [0u64; N];
    let size = LEAF_SIZE * wide(trees.header.nodes);
    choose_phones(
        trees,
        &mut table[..size],
        &mut first,
        &mut second,
        &mut third,
        space,
        ends,
    )
}

// Adds the combinations of all phones. A short table of leaves gets short arrays, for itself and for the lists,
// so that few words are cleared for a small book.
fn choose_all(trees: Trees, space: &mut [u64], ends: &mut [u32]) -> Result<usize, Fault>
    requires { Clear space.old ends.old }
    ensures { AllAdded (trees_book trees.entry) space.old result space.new ends.new }
{
    if wide(trees.header.nodes) <= FEW_NODES {
        choose_in::<SHORT_LIST>(trees, space, ends)
    } else {
        choose_in::<LONG_LIST>(trees, space, ends)
    }
}

// The combinations of a book, as records in the lent space, 0 after the last.
// The lent slices stay apart, as C lends them to the entry.
pub fn combine(
    header: Header,
    nodes: &[u32],
    classes: &[u64],
    roots: &[u32],
    plains: &[u32],
    space: &mut [u64],
) -> Result<ByPhone, Refusal>
    ensures answer { result ≡ result_of
        (by_phone (tables_book header
        (lent_tables nodes.now classes.now roots.now plains.now)))
        (combine header
        (lent_tables nodes.now classes.now roots.now plains.now)
        (length space.old)) }
    ensures leaves { space.new ≡ combination_space header.half (length space.old)
        (combine header
        (lent_tables nodes.now classes.now roots.now plains.now)
        (length space.old)) }
{
    space.fill(0);
    if !tables_known(header, nodes, classes, roots, plains) {
        return Err(Fault::Foreign.at(0));
    }
    let mut forced = [0u32; MOST_ROOTS];
    roots_in_force(header, roots, plains, &mut forced);
    let mut ends = [0u32; 65];
    let trees = Trees {
        header,
        nodes,
        classes,
        roots: &forced,
    };
    match choose_all(trees, space, &mut ends) {
        Ok(count) => Ok(ByPhone { count, ends }),
        Err(fault) => {
            space.fill(0);
            Err(fault.at(0))
        }
    }
}
