// Word books: read into a lent table, and the test for foreign tables of words.
#![tactic(auto)]

mod judging;
pub mod known;
pub mod reader;
mod storing;
mod taking;

// What a line says: a word, a place in it, and the phone there. Of the lines taken so far the last one is kept; before
// the first, one of word 0 and place 0.
#[derive(Clone, Copy, PartialEq, Eq)]
struct Entry {
    word: u32,
    place: u32,
    phone: u32,
}
