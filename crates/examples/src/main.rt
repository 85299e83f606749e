// Reads each tree book of standard input, prints what reading answered and left, puts the trees of accepted books to
// work and builds their networks. A book stands below its title, a line that begins with '='; it ends where the next
// title begins. Of a book whose title begins with '=+' only the tables and the network are shown.
#![tactic(auto)]

mod cases;

use builds::networks::show_sizes;
use cases::show_case;
use showing::reading::{INPUT_SIZE, read_full};
use showing::titles::{Texts, Titled};
use std::io;

// Shows the books of a text, one after the other, the first one also in space of several sizes.
fn show_all(rt: &impl Print, input: &[u8]) -> io::Result<()> {
    for (i, Titled { title, text }) in Texts(input.get(1..).unwrap_or(&[])).enumerate() {
        show_case(rt, title, text)?;
        if i == 0 {
            show_sizes(rt, text)?;
        }
    }
    Ok(())
}

fn main(rt: HostRuntime) -> io::Result<()> {
    let mut input = [0u8; INPUT_SIZE];
    let got = read_full(&mut rt.stdin(), &mut input)?;
    show_all(&rt, &input[..got])
}
