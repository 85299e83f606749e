// What every layer shares: the sizes of records, a book's header, a tree's node, a network's counts, and refusals by
// fault. Header, node and counts are laid out as in C, since C programs hand them over.
#![tactic(auto)]

pub mod sizes;

ghost use Rattle.std.specs.Prelude.{◌≡◌};
ghost use Rattle.definitions.specs.Faults.{number_of};

use std::fmt;

// How many words a node and an arc take, and a matrix where it is a value.
pub const NODE_SIZE: usize = 5;

pub const ARC_SIZE: usize = 4;

pub const MOST_COLUMNS: usize = 7;

// A word of a word book: its length and its phones. A joined state: network state, word, mark.
pub const WORD_SIZE: usize = 65;

pub const JOINED_SIZE: usize = 3;

// How many nodes a book has at most; how many combinations, metastates and arcs.
pub const MOST_NODES: usize = 4096;

// What stands for a root that no R line gives.
// In lent tables, as C sees them, a root is a word: no Option.
pub const NO_ROOT: u32 = 4096;

pub const MOST_COMBINATIONS: usize = 65535;

pub const MOST_METASTATES: usize = 65535;

pub const MOST_ARCS: usize = 999999;

// How many words a word book has at most, and how many joined states there are.
pub const MOST_WORDS: usize = 9999;

pub const MOST_JOINED: usize = 65535;

// How many phones a sequence has at most that is transcribed.
pub const MOST_SOUNDS: usize = 1000000;

// The greatest phone, the greatest model, and the greatest number of a field: six digits.
pub const MOST_PHONE: u32 = 64;

pub const MOST_MODEL: u32 = 65535;

pub const MOST_NUMBER: u32 = 999999;

// The numbers of an H line.
#[repr(C)]
#[derive(Clone, Copy, PartialEq, Eq)]
pub struct Header {
    // The half-width n: a context has 2n+1 phones.
    pub half: u32,
    // States per phone, k.
    pub states: u32,
    pub phones: u32,
    pub classes: u32,
    pub nodes: u32,
}

// The five words of a node record; the last three are 0 at a leaf.
#[repr(C)]
#[derive(Clone, Copy, PartialEq, Eq)]
pub struct Node {
    // 1 for a question, 2 for a leaf.
    pub kind: u32,
    // A question's class, a leaf's model.
    pub value: u32,
    pub position: u32,
    pub yes: u32,
    pub no: u32,
}

// The numbers of a W line.
#[repr(C)]
#[derive(Clone, Copy, PartialEq, Eq)]
pub struct Counts {
    // States per metastate, k.
    pub states: u32,
    pub metastates: u32,
    pub arcs: u32,
}

// The faults of documents 01 and 02, by their words and in the order of their numbers.
#[derive(Clone, Copy, PartialEq, Eq)]
pub enum Fault {
    Ragged,
    Misprint,
    Range,
    Order,
    Backward,
    Orphan,
    Count,
    Foreign,
    Narrow,
    Chained,
    Long,
    Choices,
    Crowd,
    Tangle,
    Short,
    Utterance,
    State,
    Vocabulary,
}

// A fault and the line it was met at, 0 where no line is meant.
#[derive(Clone, Copy, PartialEq, Eq)]
pub struct Refusal {
    pub fault: Fault,
    pub line: usize,
}

impl Fault {
    // The refusal at a line.
    pub fn at(self, line: usize) -> Refusal
        ensures { result ≡ record { fault = self; line = line } }
    {
        Refusal { fault: self, line }
    }
}

// Where no line is meant.
impl From<Fault> for Refusal {
    ghost from_gives = { λ fault refusal. refusal ≡ record { fault = fault; line = 0 } };

    fn from(fault: Fault) -> Refusal {
        fault.at(0)
    }
}

// The number that the documents give to a fault.
impl From<Fault> for u32 {
    ghost from_gives = { λ fault number. number ≡ number_of fault };

    fn from(fault: Fault) -> u32 {
        match fault {
            Fault::Ragged => 11,
            Fault::Misprint => 12,
            Fault::Range => 13,
            Fault::Order => 14,
            Fault::Backward => 15,
            Fault::Orphan => 16,
            Fault::Count => 17,
            Fault::Foreign => 18,
            Fault::Narrow => 20,
            Fault::Chained => 21,
            Fault::Long => 22,
            Fault::Choices => 30,
            Fault::Crowd => 31,
            Fault::Tangle => 32,
            Fault::Short => 33,
            Fault::Utterance => 41,
            Fault::State => 42,
            Fault::Vocabulary => 51,
        }
    }
}

// As number and line.
impl fmt::Display for Refusal {
    fn fmt<W: fmt::Write>(&self, f: &mut fmt::Formatter<W>) -> fmt::Result {
        let number = u32::from(self.fault);
        write!(f, "{number} at line {}", self.line)
    }
}

// A 32-bit word as a place in a slice.
pub fn wide(word: u32) -> usize
    ensures { result ≡ word }
{
    word as usize
}
