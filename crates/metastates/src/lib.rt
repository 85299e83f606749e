// The table of metastates, found by chains, and the arc into each: new ones are entered, known ones found.
#![tactic(auto)]

pub mod adding;
pub mod chains;

use definitions::Header;

// What a network is built from: a book's header and nodes, and its combinations. (The words that it grows in stay
// parameters of their own: of a struct that holds a `&mut` each contract would have to say which words it keeps.)
#[derive(Clone, Copy)]
pub struct Rules<'a> {
    pub header: Header,
    pub nodes: &'a [u32],
    pub combinations: &'a [u64],
}
