// One turn: a metastate's own arcs, the arc to FINAL where it may end, and the arcs to its followers.
#![tactic(auto)]

pub mod appending;
pub mod expanding;

use growing::Sizes;

// A metastate whose turn it is: its place, and how large the network is before.
#[derive(Clone, Copy)]
pub struct Turn {
    pub place: usize,
    pub sizes: Sizes,
}

// Up to three arcs, as words. The library takes no heap, so they stand in an array, with their count beside it.
#[derive(Clone, Copy)]
pub struct Arcs {
    pub count: usize,
    pub words: [u32; 12],
}
