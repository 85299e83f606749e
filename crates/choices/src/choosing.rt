// The combinations of leaves, one from each tree, whose matrices meet in a valid matrix.
ghost use Rattle.std.specs.Prelude.{[], ◌∷◌, ◌++◌, ◌≡◌, ◌+◌, ◌*◌, ◌≤◌, length, take, drop};
ghost use Rattle.definitions.specs.Combinations.{combination_room};
ghost use Rattle.definitions.specs.Matrices.{most_columns};
ghost use Rattle.matrix.specs.Shapes.{width_of, HasWidth};
ghost use Rattle.leafsets.specs.Leaves.{leaf_size, leaves_in, IsList};
ghost use Rattle.choices.specs.Choices.{Chosen, combination_of, Takeable, WithLeaf, FitFound, Choosable};
ghost use Rattle.choices.specs.Choices.{chosen_from};
ghost use Rattle.choices.specs.Space.{Holding, Added};

use crate::Choice;
use definitions::sizes::combination_size;
use definitions::{Fault, MOST_COMBINATIONS, wide};
use leafsets::LEAF_SIZE;
use matrix::Matrix;
use matrix::words::whole_matrix;

// How many combinations the lent words have room for.
pub fn room_in(half: u32, words: usize) -> usize
    ensures { result ≡ combination_room half words }
{
    (words / combination_size(half)).min(MOST_COMBINATIONS)
}

// Writes as many words of a combination as a record has: phone, three leaf nodes, matrix.
fn put_choice(words: &mut [u64], choice: Choice)
    requires { (4 ≤ length words.old) × (length words.old ≤ 4 + most_columns) }
    ensures { words.new
        ≡ take (length words.old) (choice.phone ∷ (choice.leaves ++ choice.matrix.columns)) }
{
    let columns = words.len() - 4;
    words[0] = u64::from(choice.phone);
    words[1..4].copy_from_slice(&choice.leaves);
    words[4..].copy_from_slice(&choice.matrix.columns[..columns]);
}

// Adds a combination, if its matrix is valid; answers how many there are then.
fn add_choice(half: u32, choice: Choice, space: &mut [u64], count: usize) -> Result<usize, Fault>
    requires { Holding half space.old count × Chosen (width_of half) choice }
    ensures { Added half space.old count (combination_of (width_of half) choice ∷ []) result space.new }
{
    if !choice.matrix.valid(2 * wide(half) + 1) {
        return Ok(count);
    }
    if room_in(half, space.len()) <= count {
        return Err(Fault::Choices);
    }
    let size = combination_size(half);
    let at = size * count;
    put_choice(&mut space[at..at + size], choice);
    Ok(count + 1)
}

// The matrix in the record at a place of a list of leaves.
fn leaf_matrix(leaves: &[u64], place: usize) -> Matrix
    requires { leaf_size * place + leaf_size ≤ length leaves.now }
    ensures { result.columns ≡ take most_columns (drop (leaf_size * place + 1) leaves.now) }
{
    whole_matrix(leaves, LEAF_SIZE * place + 1)
}

// The first place from one on whose leaf meets a matrix validly.
fn next_fit(leaves: &[u64], from: usize, m: Matrix, half: u32) -> Option<usize>
    requires { (width_of half ≤ most_columns) × IsList (width_of half) leaves.now
        × (from ≤ length (leaves_in (width_of half) leaves.now)) × HasWidth (width_of half) m.columns }
    ensures { FitFound (take (width_of half) m.columns) (leaves_in (width_of half) leaves.now) from result }
{
    let width = 2 * wide(half) + 1;
    for place in from..leaves.len() / LEAF_SIZE {
        if m.meets(leaf_matrix(leaves, place), width) {
            return Some(place);
        }
    }
    None
}

// The choice with the leaf at a place taken too, which fits.
fn with_leaf(half: u32, choice: Choice, leaves: &[u64], place: usize) -> Choice
    requires { Takeable (width_of half) choice leaves.now place }
    ensures { WithLeaf (width_of half) choice leaves.now place result }
{
    let mut nodes = choice.leaves;
    nodes[choice.taken] = leaves[LEAF_SIZE * place];
    let met = choice
        .matrix
        .meet(leaf_matrix(leaves, place), 2 * wide(half) + 1);
    Choice {
        phone: choice.phone,
        taken: choice.taken + 1,
        leaves: nodes,
        matrix: met.matrix,
    }
}

// Adds the combinations that begin with a choice and take one leaf of each further tree, and answers how many there are
// then: `trees` trees are left, whose leaves are `first`, then `second`, then `third`. A leaf whose matrix does not meet
// the choice's validly is passed over before any further tree is tried. The call for the further trees moves the lists
// up by one; what then stands last is not looked at.
// Three lists, since a book has at most three states; a slice of slices would need their lengths beside it.
pub fn choose(
    first: &[u64],
    second: &[u64],
    third: &[u64],
    trees: u32,
    half: u32,
    choice: Choice,
    space: &mut [u64],
    count: usize,
) -> Result<usize, Fault>
    requires { Choosable (width_of half) trees first.now second.now third.now choice
        × Holding half space.old count }
    ensures { Added half space.old count
        (chosen_from (width_of half) trees first.now second.now third.now choice)
        result space.new }
{
    if trees == 0 {
        return add_choice(half, choice, space, count);
    }
    let mut total = count;
    let mut from = 0;
    // No `for`: each leaf is looked for from the one after the last that fitted.
    while let Some(place) = next_fit(first, from, choice.matrix, half) {
        let next = with_leaf(half, choice, first, place);
        total = choose(second, third, third, trees - 1, half, next, space, total)?;
        from = place + 1;
    }
    Ok(total)
}
