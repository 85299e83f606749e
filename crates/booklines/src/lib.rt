// The lines of a tree book: what each says, its tests in order, and what is kept of those taken so far.
#![tactic(auto)]

pub mod entries;
pub mod judging;
mod leaving;
pub mod states;

use definitions::Header;

// A class and its phone, as a Q line says; they are ordered by class and phone.
#[derive(Clone, Copy, PartialEq, Eq, PartialOrd, Ord)]
pub struct Member {
    pub class: u32,
    pub phone: u32,
}

// What a line says, by its letter.
#[derive(Clone, Copy, PartialEq, Eq)]
pub enum Entry {
    H(Header),
    Q(Member),
    N {
        node: u32,
        class: u32,
        position: u32,
        yes: u32,
        no: u32,
    },
    L {
        node: u32,
        model: u32,
    },
    B {
        boundary: u32,
        plain: u32,
    },
    R {
        phone: u32,
        state: u32,
        root: u32,
    },
}

// What is kept of the lines taken so far. That a header has states is no invariant: `state_of` of specs/States.antt,
// which says what is kept of any lines, has also headers without states.
#[derive(Clone, Copy, PartialEq, Eq)]
pub struct State {
    // Header and lines are 0 before the H line, as `state_of` of specs/States.antt has them: no Option.
    pub lines: usize,
    pub header: Header,
    // What the last Q line says.
    pub last: Option<Member>,
    pub nodes: u32,
    // The lowest phone that the next B line may name.
    pub after: usize,
    // The set of the boundary phones, and that of their plain phones.
    pub boundaries: u64,
    pub plains: u64,
    // The place after the last R line's.
    pub next: usize,
}

// The lengths of the lent tables.
#[derive(Clone, Copy, PartialEq, Eq)]
pub struct Lengths {
    pub nodes: usize,
    pub classes: usize,
    pub roots: usize,
    pub plains: usize,
}
