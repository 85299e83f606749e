// How words are spoken: words by their first phone, and the phone that leads on from a mark. A table of words is lent
// without the words of 32 bits beyond its records.
#![tactic(auto)]

pub mod indexing;
pub mod wanting;

// How far words are spoken, in the words of a joined state, whose numbers are fixed: 0, 0 before the first silence, 0, 1
// between words, 0, 2 after the closing silence, else a word and how many of its phones are spoken.
#[derive(Clone, Copy, PartialEq, Eq)]
pub struct Mark {
    pub word: u32,
    pub mark: u32,
}

// Between words, and after the closing silence.
pub const BETWEEN: Mark = Mark { word: 0, mark: 1 };

pub const CLOSED: Mark = Mark { word: 0, mark: 2 };

// What leads on from a mark: between words the words that begin, else a phone, to the next mark, or nothing.
#[derive(Clone, Copy, PartialEq, Eq)]
pub enum Wanted {
    Words,
    Phone { phone: u32, next: Mark },
    Nothing,
}
