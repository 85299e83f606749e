// A network joined with the words of a word book: joined states are expanded in the order of their numbers, along the
// arcs of their network states.
#![tactic(auto)]

mod beginning;
mod expanding;
pub mod joining;
mod turning;

// How many joined states and arcs there are.
#[derive(Clone, Copy, PartialEq, Eq)]
pub struct JoinedCounts {
    pub states: usize,
    pub arcs: usize,
}

// The arcs of a network without the words beyond them, and a table of where those of each source begin.
#[derive(Clone, Copy)]
struct Network<'a> {
    arcs: &'a [u32],
    starts: &'a [u32],
}
