// What lookups and transcription answer, shown: on the trees of a book, and on tables a word away from them.
#![tactic(auto)]

pub mod answers;
pub mod foreign;
pub mod sequences;

use definitions::Header;

// A book's header and tables, as they are lent.
#[derive(Clone, Copy)]
struct Lent<'a> {
    header: Header,
    nodes: &'a [u32],
    classes: &'a [u64],
    roots: &'a [u32],
    plains: &'a [u32],
}
