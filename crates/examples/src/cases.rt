// One book: what reading answers and leaves, and then its trees and its network.
use book::reader::read;
use builds::networks::show_whole;
use definitions::Header;
use lookups::answers::print_cleared;
use lookups::foreign::show_foreign;
use lookups::sequences::show_trees;
use showing::printing::print_numbers;
use std::io;

fn print_header(rt: &impl Print, header: Header) -> io::Result<()> {
    let Header {
        half,
        states,
        phones,
        classes,
        nodes,
    } = header;
    println!(rt; "  header {half} {states} {phones} {classes} {nodes}")
}

fn print_tables(
    rt: &impl Print,
    nodes: &[u32],
    classes: &[u64],
    roots: &[u32],
    plains: &[u32],
) -> io::Result<()> {
    print!(rt; "  nodes")?;
    print_numbers(rt, nodes)?;
    print!(rt; "\n  classes")?;
    print_numbers(rt, classes)?;
    print!(rt; "\n  roots")?;
    print_numbers(rt, roots)?;
    print!(rt; "\n  plain phones")?;
    print_numbers(rt, plains)?;
    println!(rt)
}

// Reads a book into tables for ten nodes and two words, three classes, seven roots and five phones, where something
// stood before. Where its title begins with '+', its network alone is shown.
pub fn show_case(rt: &impl Print, title: &[u8], text: &[u8]) -> io::Result<()> {
    let mut nodes = [7u32; 52];
    let mut classes = [7u64; 3];
    let mut roots = [7u32; 7];
    let mut plains = [7u32; 5];
    print!(rt; "=")?;
    rt.write_all(title)?;
    print!(rt; ":")?;
    match read(text, &mut nodes, &mut classes, &mut roots, &mut plains) {
        Ok(header) => {
            println!(rt; " accepted")?;
            print_header(rt, header)?;
            print_tables(rt, &nodes, &classes, &roots, &plains)?;
            if !title.starts_with(b"+") {
                show_trees(rt, header, &nodes, &classes, &roots, &plains)?;
                show_foreign(
                    rt,
                    header,
                    &mut nodes,
                    &mut classes,
                    &mut roots,
                    &mut plains,
                )?;
            }
            show_whole(rt, text)
        }
        Err(refusal) => {
            print!(rt; " {refusal}")?;
            print_cleared(rt, &nodes, &classes, &roots, &plains)
        }
    }
}
