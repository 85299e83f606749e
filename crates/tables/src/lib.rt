// The tables that reading leaves, as other entries are lent them: their records, sets and roots, the roots in force,
// how often nodes are named, words used only up to a place, and the test for foreign tables (18).
#![tactic(auto)]

pub mod classes;
pub mod forcing;
pub mod foreign;
pub mod holding;
mod known;
pub mod naming;
pub mod nodes;
mod phones;
pub mod records;
pub mod roots;
pub mod trees;
