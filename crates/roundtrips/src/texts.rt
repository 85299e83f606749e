// One network text: what reading answers and leaves, and the network written again.
use crate::ARC_WORDS;
use crate::written::{Network, show_again, show_foreign};
use definitions::Counts;
use nettext::reader::read;
use showing::printing::print_used;
use std::io;

fn show_counts(rt: &impl Print, counts: Counts) -> io::Result<()> {
    let Counts {
        states,
        metastates,
        arcs,
    } = counts;
    println!(rt; "  counts {states} {metastates} {arcs}")
}

// Reads a text into words where something stood before.
pub fn show_text(rt: &impl Print, title: &[u8], text: &[u8]) -> io::Result<()> {
    let mut arcs = [7u32; ARC_WORDS];
    rt.write_all(b"=")?;
    rt.write_all(title)?;
    print!(rt; ":")?;
    match read(text, &mut arcs) {
        Ok(counts) => {
            println!(rt; " accepted")?;
            show_counts(rt, counts)?;
            print!(rt; "  arcs")?;
            print_used(rt, &arcs)?;
            let network = Network {
                counts,
                arcs: &arcs,
            };
            show_again(rt, network, text)?;
            show_foreign(rt, counts, &arcs)
        }
        Err(refusal) => {
            print!(rt; " {refusal}")?;
            if arcs.iter().all(|word| *word == 0) {
                print!(rt; ", arcs cleared")?;
            }
            println!(rt; "")
        }
    }
}
