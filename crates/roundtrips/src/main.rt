// Reads each network text of standard input, prints what reading answered and left, and writes the networks of
// accepted ones again. A text stands below its title, a line that begins with '='; it ends where the next title begins.
#![tactic(auto)]

mod texts;
mod written;

use showing::reading::{INPUT_SIZE, read_full};
use showing::titles::{Texts, Titled};
use std::io;
use texts::show_text;

// How many words there are for the arcs: for twelve of them, and two more.
const ARC_WORDS: usize = 50;

fn show_all(rt: &impl Print, input: &[u8]) -> io::Result<()> {
    for Titled { title, text } in Texts(input.get(1..).unwrap_or(&[])) {
        show_text(rt, title, text)?;
    }
    Ok(())
}

fn main(rt: HostRuntime) -> io::Result<()> {
    let mut input = [0u8; INPUT_SIZE];
    let got = read_full(&mut rt.stdin(), &mut input)?;
    show_all(&rt, &input[..got])
}
