// The followers of a matrix entered one by one, and those of a metastate with the same shifted matrix copied.
#![tactic(auto)]

pub mod following;
pub mod repeating;

use growing::Sizes;
use matrix::Matrix;
use metastates::Rules;

// What followers are looked for in: the rules, and the index of their combinations.
#[derive(Clone, Copy)]
pub struct Search<'a> {
    pub rules: Rules<'a>,
    pub index: &'a [u64],
}

// Where arcs leave from: a state, and how large the network is by now.
#[derive(Clone, Copy)]
pub struct Source {
    pub state: u32,
    pub sizes: Sizes,
}

// A metastate whose own arcs were added: its place, its matrix shifted, and how large the network is by now.
#[derive(Clone, Copy)]
pub struct Expanded {
    pub place: usize,
    pub shifted: Matrix,
    pub sizes: Sizes,
}

// Where the arcs to the followers of the metastate at a place begin and end.
#[derive(Clone, Copy)]
pub struct Span {
    pub place: usize,
    pub first: usize,
    pub end: usize,
}
