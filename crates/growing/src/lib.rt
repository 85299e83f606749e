// A growing table in lent words: its elements are found by chains, and its arcs stand in lent arcs.
#![tactic(auto)]

pub mod adding;
pub mod finding;
pub mod linking;

// How many elements and arcs have grown so far.
#[derive(Clone, Copy, PartialEq, Eq)]
pub struct Sizes {
    pub table: usize,
    pub arcs: usize,
}
