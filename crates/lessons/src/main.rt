// Reads the networks and word books of standard input, prints what reading answered and left, and joins each accepted
// word book with the network last read. A text stands below its title, a line that begins with '='; it ends where the
// next title begins. It is a network where it begins with 'W'. Where a word book's title begins with '+', it is also
// joined in space of other sizes, and with foreign arcs and words.
#![tactic(auto)]

mod books;
mod foreign;
mod joins;
mod texts;

use definitions::Counts;
use showing::reading::{INPUT_SIZE, read_full};
use showing::titles::{Texts, Titled};
use std::io;
use texts::show_text;

// The network last read, in space for twelve arcs and two words of 32 bits.
#[derive(Clone, Copy)]
struct Network {
    counts: Counts,
    arcs: [u32; 50],
}

// A word book that was read, in a table for four words and three words of 32 bits.
#[derive(Clone, Copy)]
struct Book {
    count: usize,
    words: [u32; 263],
}

// The counts before the first network, and where one is refused.
const NO_COUNTS: Counts = Counts {
    states: 0,
    metastates: 0,
    arcs: 0,
};

fn show_all(rt: &impl Print, input: &[u8]) -> io::Result<()> {
    let mut network = Network {
        counts: NO_COUNTS,
        arcs: [0; 50],
    };
    for Titled { title, text } in Texts(input.get(1..).unwrap_or(&[])) {
        show_text(rt, title, text, &mut network)?;
    }
    Ok(())
}

fn main(rt: HostRuntime) -> io::Result<()> {
    let mut input = [0u8; INPUT_SIZE];
    let got = read_full(&mut rt.stdin(), &mut input)?;
    show_all(&rt, &input[..got])
}
