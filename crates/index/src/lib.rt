// Combinations in lent words, an index of them, and the search for those that follow a matrix.
#![tactic(auto)]

pub mod indexing;
pub mod records;
pub mod rows;
pub mod searching;

use definitions::Header;
use matrix::Matrix;

// The combinations of a book, in lent words, and the index of them.
#[derive(Clone, Copy)]
pub struct Combinations<'a> {
    pub header: Header,
    pub words: &'a [u64],
    pub index: &'a [u64],
}

// A combination that follows, and the matrix that it meets the shifted matrix in: a metastate to enter.
#[derive(Clone, Copy)]
pub struct Follower {
    pub number: usize,
    pub met: Matrix,
}
