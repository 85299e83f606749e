// The trees of a book at work: the leaf that a context reaches.
#![tactic(auto)]

pub mod contexts;
pub mod leaves;
pub mod structs;
pub mod walking;

// What a walk gives: the node number of its leaf, and how many questions were met on the way.
#[derive(Clone, Copy, PartialEq, Eq)]
pub struct Walked {
    pub leaf: u32,
    pub questions: u32,
}
