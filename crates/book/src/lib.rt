// Reading a tree book into lent tables.
#![tactic(auto)]

mod finding;
pub mod reader;
mod storing;
mod taking;

// The lent tables of a book.
#[derive(Drop)]
struct Tables<'a> {
    nodes: &'a mut [u32],
    classes: &'a mut [u64],
    roots: &'a mut [u32],
    plains: &'a mut [u32],
}
