// Reads each tree book of standard input, prints its plain form, and says whether it is the same book as the one that
// it is compared with. A book stands below its title, a line that begins with '='; it ends where the next title begins.
// Where a title begins with '+', the books after it are compared with its book.
#![tactic(auto)]

mod books;
mod spelled;

use definitions::Header;
use showing::reading::{INPUT_SIZE, read_full};
use showing::titles::{Texts, Titled};
use spelled::show_book;
use std::io;

// How many bytes there are for a plain form.
const TEXT_SIZE: usize = 512;

// A book that was read, in tables for twelve nodes and two words, nine classes, seven roots and five phones.
#[derive(Clone, Copy)]
struct Book {
    header: Header,
    nodes: [u32; 62],
    classes: [u64; 9],
    roots: [u32; 7],
    plains: [u32; 5],
}

fn show_all(rt: &impl Print, input: &[u8]) -> io::Result<()> {
    let mut other = [0u8; TEXT_SIZE];
    for Titled { title, text } in Texts(input.get(1..).unwrap_or(&[])) {
        show_book(rt, title, text, &mut other)?;
    }
    Ok(())
}

fn main(rt: HostRuntime) -> io::Result<()> {
    let mut input = [0u8; INPUT_SIZE];
    let got = read_full(&mut rt.stdin(), &mut input)?;
    show_all(&rt, &input[..got])
}
