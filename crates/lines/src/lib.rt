// The line of 32 bytes that tree books, network text and word books share, read by the table of its letter; and places
// of what is counted from 1.
#![tactic(auto)]

pub mod counting;
mod fields;
mod forms;
pub mod parsing;
pub mod ranges;
pub mod texts;

ghost use Rattle.std.specs.Prelude.{◌≡◌};
ghost use Rattle.lines.specs.Rows.{header_row, counts_row};

use definitions::{Counts, Header};

// The letters that a kind of text has.
#[derive(Clone, Copy, PartialEq, Eq)]
pub enum Letters {
    Book,
    Network,
    Words,
}

// A line's letter and the numbers in its used fields, which come first; the other numbers are 0.
#[derive(Clone, Copy, PartialEq, Eq)]
pub struct Row {
    pub letter: u8,
    // No heap: five numbers, and how many of them are the line's.
    pub used: usize,
    pub numbers: [u32; 5],
}

// The row of an H line.
impl From<Header> for Row {
    ghost from_gives = { λ header row. row ≡ header_row header };

    fn from(header: Header) -> Row {
        Row {
            letter: b'H',
            used: 5,
            numbers: [
                header.half,
                header.states,
                header.phones,
                header.classes,
                header.nodes,
            ],
        }
    }
}

// The row of a W line.
impl From<Counts> for Row {
    ghost from_gives = { λ counts row. row ≡ counts_row counts };

    fn from(counts: Counts) -> Row {
        Row {
            letter: b'W',
            used: 3,
            numbers: [counts.states, counts.metastates, counts.arcs, 0, 0],
        }
    }
}

// One field of six bytes.
#[derive(Clone, Copy, PartialEq, Eq)]
enum Field {
    Blank,
    Malformed,
    Number(u32),
}
