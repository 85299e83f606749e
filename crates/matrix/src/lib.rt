// Sets of phones as 64-bit words, and matrices of such sets, passed by value.
#![tactic(auto)]

pub mod cutting;
pub mod meeting;
pub mod sets;
pub mod shaping;
pub mod testing;
pub mod words;

// A matrix of 2n+1 columns, each a set of phones; the unused columns are 0.
#[derive(Clone, Copy, PartialEq, Eq)]
pub struct Matrix {
    pub columns: [u64; 7],
}

// What a meeting gives: the matrix, and how many columns were met. Document 02, P3, wants the matrix of an invalid
// meeting to be seven words 0, so it is no Option.
#[derive(Clone, Copy)]
pub struct Met {
    pub matrix: Matrix,
    pub count: usize,
}
