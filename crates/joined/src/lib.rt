// The table of joined states, found by chains, and the arc into each: new ones are entered, known ones found.
#![tactic(auto)]

pub mod entering;
mod finding;
pub mod rows;

use growing::Sizes;

// A joined state: the network state, and how far words are spoken.
#[derive(Clone, Copy, PartialEq, Eq)]
pub struct Joined {
    pub state: u32,
    pub word: u32,
    pub mark: u32,
}

// A join as far as it has grown: the lent words of its joined states, arcs and chains, and how many there are. Each has
// a lifetime of its own, since two are lent at once. That the words hold so many and nothing else is asked by each method
// and is no invariant of the type, since after 32 a state stands there without its arc.
#[derive(Drop)]
pub struct Join<'s, 'a, 'c> {
    pub states: &'s mut [u32],
    pub arcs: &'a mut [u32],
    pub chains: &'c mut [u32],
    pub sizes: Sizes,
}
