// The leaf sets: the leaves of a book's trees with their matrices.
#![tactic(auto)]

pub mod collecting;
pub mod walking;

use definitions::MOST_COLUMNS;

// How many words a leaf takes in a list of leaves: its node and its matrix.
pub const LEAF_SIZE: usize = 1 + MOST_COLUMNS;
