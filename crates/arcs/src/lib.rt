// Lent arcs: the test for 18, the arcs that leave a state and where they begin, and the words of an arc.
#![tactic(auto)]

pub mod known;
pub mod leaving;
pub mod putting;
pub mod starting;

// The four words of an arc.
#[derive(Clone, Copy, PartialEq, Eq)]
pub struct Arc {
    pub from: u32,
    pub to: u32,
    pub model: u32,
    pub phone: u32,
}

// Where the arcs that leave a state stand in the lent arcs, counted in words.
#[derive(Clone, Copy, PartialEq, Eq)]
pub struct Span {
    pub start: usize,
    pub length: usize,
}
