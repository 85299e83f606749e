// Network text: written from lent arcs, and read into them.
#![tactic(auto)]

mod judging;
pub mod reader;
mod states;
mod storing;
mod taking;
pub mod writer;

use arcs::Arc;
use definitions::Counts;

// What a line says, by its letter.
#[derive(Clone, Copy, PartialEq, Eq)]
enum Entry {
    W(Counts),
    A(Arc),
}

// What is kept of the lines taken so far.
#[derive(Clone, Copy, PartialEq, Eq)]
struct State {
    lines: usize,
    counts: Counts,
    arcs: usize,
    // The source of the last arc, 0 before the first.
    // No Option: a source is only tested not to be less than it, and none is less than 0.
    last: u32,
}
