// The valid choices of leaves, one from each tree of a phone, added to lent space as combinations.
#![tactic(auto)]

pub mod choosing;

use matrix::Matrix;

// A phone with the leaves chosen so far, one from each of its first trees, and the meet of their matrices.
#[derive(Clone, Copy)]
pub struct Choice {
    pub phone: u32,
    // No heap: three places for leaves, and how many of them are taken.
    pub taken: usize,
    pub leaves: [u64; 3],
    pub matrix: Matrix,
}
