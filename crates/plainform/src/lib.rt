// The plain form of a book: its trees numbered anew, depth first and yes before no, with one class for each set
// that is asked for.
#![tactic(auto)]

mod collecting;
mod numbering;
mod sets;
mod trees;
pub mod writer;
