// One text: a network, which is kept, or a word book.
use crate::books::show_book;
use crate::{NO_COUNTS, Network};
use nettext::reader::read;
use std::io;

// Reads a network in the place of the last one.
fn show_network(rt: &impl Print, text: &[u8], network: &mut Network) -> io::Result<()> {
    match read(text, &mut network.arcs) {
        Ok(counts) => {
            network.counts = counts;
            println!(rt;
                " network, counts {} {} {}",
                counts.states, counts.metastates, counts.arcs
            )
        }
        Err(refusal) => {
            network.counts = NO_COUNTS;
            println!(rt; " {refusal}")
        }
    }
}

pub fn show_text(
    rt: &impl Print,
    title: &[u8],
    text: &[u8],
    network: &mut Network,
) -> io::Result<()> {
    rt.write_all(b"=")?;
    rt.write_all(title)?;
    rt.write_all(b":")?;
    if text.starts_with(b"W") {
        show_network(rt, text, network)
    } else {
        show_book(rt, text, network, title.starts_with(b"+"))
    }
}
