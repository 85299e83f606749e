// A network joined with words in space of several sizes, and what is left in it.
ghost use Rattle.std.specs.Prelude.{◌≤◌, length};

use crate::{Book, Network};
use definitions::{ARC_SIZE, JOINED_SIZE, Refusal};
use joining::JoinedCounts;
use joining::joining::join;
use showing::printing::{print_numbers, print_used};
use showing::using::used;
use std::io;

// The used part of lent space by records, and what stands after it.
fn print_left(rt: &impl Print, words: &[u32], size: usize, used: usize) -> io::Result<()>
    requires { (1 ≤ size) × (used ≤ length words.now) }
{
    for record in words[..used].chunks(size) {
        print!(rt; " |")?;
        print_numbers(rt, record)?;
    }
    print_used(rt, &words[used..])
}

fn print_joined(
    rt: &impl Print,
    counts: JoinedCounts,
    states: &[u32],
    joined: &[u32],
) -> io::Result<()> {
    println!(rt; " states {}, arcs {}", counts.states, counts.arcs)?;
    print!(rt; "    states")?;
    if counts.states <= states.len() / JOINED_SIZE {
        print_left(rt, states, JOINED_SIZE, JOINED_SIZE * counts.states)?;
    }
    print!(rt; "    arcs")?;
    if counts.arcs <= joined.len() / ARC_SIZE {
        print_left(rt, joined, ARC_SIZE, ARC_SIZE * counts.arcs)?;
    }
    Ok(())
}

fn print_refused(
    rt: &impl Print,
    refusal: Refusal,
    states: &[u32],
    joined: &[u32],
) -> io::Result<()> {
    print!(rt; " {refusal}")?;
    if used(states) == 0 {
        print!(rt; ", states cleared")?;
    }
    if used(joined) == 0 {
        print!(rt; ", arcs cleared")?;
    }
    println!(rt; "")
}

// Joins, and prints the answer and what is left.
pub fn show_answer(
    rt: &impl Print,
    network: &Network,
    book: &Book,
    states: &mut [u32],
    joined: &mut [u32],
) -> io::Result<()> {
    let Network { counts, arcs } = network;
    match join(*counts, arcs, book.count, &book.words, states, joined) {
        Ok(counts) => print_joined(rt, counts, states, joined),
        Err(refusal) => print_refused(rt, refusal, states, joined),
    }
}

// Joins in space of so many words of 32 bits, where something stood before.
pub fn show_size(
    rt: &impl Print,
    network: &Network,
    book: &Book,
    of_states: usize,
    of_arcs: usize,
) -> io::Result<()> {
    let mut states = [7; 62];
    let mut joined = [7; 167];
    print!(rt;
        "  space for states {}, arcs {}:",
        of_states / JOINED_SIZE,
        of_arcs / ARC_SIZE
    )?;
    if of_states <= states.len() && of_arcs <= joined.len() {
        show_answer(
            rt,
            network,
            book,
            &mut states[..of_states],
            &mut joined[..of_arcs],
        )?;
    }
    Ok(())
}

// The sizes around those that document 01's example needs with the words 2 and 2 2: 9 states, 14 arcs. Some have words
// beside that are too few for one more.
pub fn show_sizes(rt: &impl Print, network: &Network, book: &Book) -> io::Result<()> {
    for (of_states, of_arcs) in [
        (29, 59),
        (27, 56),
        (26, 56),
        (27, 55),
        (24, 28),
        (24, 27),
        (9, 0),
        (6, 0),
        (5, 56),
        (0, 56),
    ] {
        show_size(rt, network, book, of_states, of_arcs)?;
    }
    Ok(())
}
