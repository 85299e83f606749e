// A network written again, into buffers of several lengths; and networks that reading never leaves.
use crate::ARC_WORDS;
use definitions::Counts;
use nettext::reader::read;
use nettext::writer::write;
use showing::using::used;
use std::io;

// The bytes of a W line and of twelve A lines, and four more.
const BUFFER_SIZE: usize = 420;

// A network: its counts, and its arcs in lent words.
#[derive(Clone, Copy)]
pub struct Network<'a> {
    pub counts: Counts,
    pub arcs: &'a [u32],
}

// Writes a network into a buffer, and prints whether its text stands there and what follows it.
fn show_written(
    rt: &impl Print,
    network: Network,
    text: &[u8],
    buffer: &mut [u8],
) -> io::Result<()> {
    print!(rt; "  written into {} bytes:", buffer.len())?;
    match write(network.counts, network.arcs, buffer) {
        Ok(length) => {
            print!(rt; " {length}")?;
            if &buffer[..used(buffer)] == text {
                print!(rt; ", the same text")?;
            }
        }
        Err(refusal) => print!(rt; " {refusal}")?,
    }
    println!(rt; ", then 0 to the end: {}", buffer.len() - used(buffer))
}

// Into as many bytes, where there are so many.
fn show_into(rt: &impl Print, network: Network, text: &[u8], size: usize) -> io::Result<()> {
    let mut buffer = [7u8; BUFFER_SIZE];
    if let Some(part) = buffer.get_mut(..size) {
        show_written(rt, network, text, part)?;
    }
    Ok(())
}

// Reads a text into arcs where something stood before, and prints whether the counts and the arcs are the same.
fn show_read_again(rt: &impl Print, network: Network, text: &[u8]) -> io::Result<()> {
    let mut again = [7u32; ARC_WORDS];
    if read(text, &mut again) == Ok(network.counts) && network.arcs == &again[..] {
        println!(rt; "  read again: the same network")?;
    }
    Ok(())
}

// A network written, and what was written read again.
fn show_both_ways(rt: &impl Print, network: Network) -> io::Result<()> {
    let mut buffer = [7u8; BUFFER_SIZE];
    if let Ok(length) = write(network.counts, network.arcs, &mut buffer) {
        if let Some(text) = buffer.get(..length) {
            show_read_again(rt, network, text)?;
        }
    }
    Ok(())
}

// A network written into a buffer with more bytes than its text has, with as many, and with one less; and read again.
pub fn show_again(rt: &impl Print, network: Network, text: &[u8]) -> io::Result<()> {
    let size = text.len();
    show_into(rt, network, text, BUFFER_SIZE)?;
    show_into(rt, network, text, size)?;
    if 0 < size {
        show_into(rt, network, text, size - 1)?;
    }
    show_both_ways(rt, network)
}

// What writing a network answers that no text leaves.
fn show_foreign_case(rt: &impl Print, what: &str, network: Network) -> io::Result<()> {
    let mut buffer = [7u8; BUFFER_SIZE];
    print!(rt; "  {what}:")?;
    match write(network.counts, network.arcs, &mut buffer) {
        Ok(length) => print!(rt; " {length}")?,
        Err(refusal) => print!(rt; " {refusal}")?,
    }
    if buffer.iter().all(|byte| *byte == 0) {
        print!(rt; ", text cleared")?;
    }
    println!(rt; "")
}

// A network with one of its counts or one of its words changed.
pub fn show_foreign(rt: &impl Print, counts: Counts, arcs: &[u32; ARC_WORDS]) -> io::Result<()> {
    let others = [
        (
            "four states",
            Counts {
                states: 4,
                ..counts
            },
        ),
        (
            "no metastates",
            Counts {
                metastates: 0,
                ..counts
            },
        ),
        ("no arcs", Counts { arcs: 0, ..counts }),
        ("more arcs than words", Counts { arcs: 13, ..counts }),
    ];
    for (what, counts) in others {
        show_foreign_case(rt, what, Network { counts, arcs })?;
    }
    let words = [
        ("first arc from state 3", 0, 3),
        ("phone 65", 3, 65),
        ("a word beyond the arcs", 49, 1),
    ];
    for (what, place, word) in words {
        let mut other = *arcs;
        if let Some(there) = other.get_mut(place) {
            *there = word;
        }
        let arcs = &other;
        show_foreign_case(rt, what, Network { counts, arcs })?;
    }
    Ok(())
}
