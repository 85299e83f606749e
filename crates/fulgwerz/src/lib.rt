// The entries as functions for C, with the structs that they answer. Each calls one function and answers what that
// answers. A fault and its line are 0 where nothing is wrong; where something is, all else is 0.
#![tactic(auto)]

mod answers;
mod books;
mod building;
mod lessons;
mod lookups;
mod networks;

use definitions::{Counts, Header};

// Of reading a tree book.
#[repr(C)]
#[derive(Clone, Copy)]
pub struct ReadAnswer {
    pub fault: u32,
    pub line: usize,
    pub header: Header,
}

// Of a lookup.
#[repr(C)]
#[derive(Clone, Copy)]
pub struct LeafAnswer {
    pub fault: u32,
    pub line: usize,
    // The node number of the leaf.
    pub leaf: u32,
    // How many questions were met on the way to it.
    pub questions: u32,
}

// Of a transcription.
#[repr(C)]
#[derive(Clone, Copy)]
pub struct TranscriptAnswer {
    pub fault: u32,
    pub line: usize,
    // How many models there are.
    pub count: usize,
    // How many questions were put in all.
    pub questions: u64,
}

// Of another entry that fills a buffer: how many combinations, bytes or words there are.
#[repr(C)]
#[derive(Clone, Copy)]
pub struct CountAnswer {
    pub fault: u32,
    pub line: usize,
    pub count: usize,
}

// Of a build.
#[repr(C)]
#[derive(Clone, Copy)]
pub struct BuildAnswer {
    pub fault: u32,
    pub line: usize,
    // Not finished: stopped, with a metastate still unexpanded, or refused.
    // A flag, since C has no enum with values.
    pub finished: bool,
    pub turns: u32,
    pub counts: Counts,
}

// Of reading network text.
#[repr(C)]
#[derive(Clone, Copy)]
pub struct NetworkAnswer {
    pub fault: u32,
    pub line: usize,
    pub counts: Counts,
}

// Of joining a network with words.
#[repr(C)]
#[derive(Clone, Copy)]
pub struct JoinAnswer {
    pub fault: u32,
    pub line: usize,
    pub states: usize,
    pub arcs: usize,
}

// Where a part of the lent arcs stands, in words.
#[repr(C)]
#[derive(Clone, Copy)]
pub struct PartAnswer {
    pub fault: u32,
    pub line: usize,
    pub start: usize,
    pub length: usize,
}
