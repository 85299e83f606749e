// The combinations of a book, in lent space.
#![tactic(auto)]

pub mod combining;

// How many combinations there are, and how many of them belong to phones up to each phone.
#[derive(Clone, Copy)]
pub struct ByPhone {
    pub count: usize,
    // No heap: a place for each of 64 phones, and one before the first.
    pub ends: [u32; 65],
}
