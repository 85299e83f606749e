// The moves of a join along one arc of the network: the words that begin on it, or the one phone that is wanted.
#![tactic(auto)]

pub mod following;
pub mod moving;
pub mod opening;
pub mod skipping;

use arcs::Arc;

// An arc of the network, with the number of the joined state that it is followed from.
#[derive(Clone, Copy, PartialEq, Eq)]
pub struct Hop {
    pub from: u32,
    pub arc: Arc,
}

// A lent table of words, with its index of words by their first phone.
#[derive(Clone, Copy)]
pub struct Vocabulary<'a> {
    pub words: &'a [u32],
    pub index: &'a [u32],
}
