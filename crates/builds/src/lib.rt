// Builds of a book, printed for the example programs.
#![tactic(auto)]

pub mod networks;
