// The trees of a book at work: sequences transcribed, and leaves looked up.
use crate::Lent;
use crate::answers::{print_lookup, print_phones, print_transcript};
use definitions::Header;
use showing::printing::print_numbers;
use std::io;
use transcripts::transcription::transcribe;
use trees::leaves::leaf_of;

// Transcribes a sequence into a buffer, where something stood before.
fn show_models(
    rt: &impl Print,
    lent: Lent,
    sequence: &[u32],
    models: &mut [u32],
) -> io::Result<()> {
    let Lent {
        header,
        nodes,
        classes,
        roots,
        plains,
    } = lent;
    print_phones(rt, "phones", sequence)?;
    print_transcript(
        rt,
        transcribe(header, nodes, classes, roots, plains, sequence, models),
    )?;
    print!(rt; ", buffer")?;
    print_numbers(rt, models)?;
    println!(rt;)
}

// Looks a leaf up.
fn show_leaf(rt: &impl Print, lent: Lent, root: u32, context: &[u32]) -> io::Result<()> {
    print_phones(rt, "context", context)?;
    print!(rt; " root {root} leads to")?;
    print_lookup(
        rt,
        leaf_of(lent.header, lent.nodes, lent.classes, root, context),
    )?;
    println!(rt;)
}

fn show_sequences(rt: &impl Print, lent: Lent) -> io::Result<()> {
    let sequences: [&[u32]; 10] = [
        &[1],
        &[1, 2, 1],
        &[1, 2, 2, 1],
        &[1, 3, 2, 3, 1],
        &[1, 3, 2, 2, 1],
        &[],
        &[2, 1],
        &[1, 2],
        &[1, 4, 1],
        &[1, 0, 1],
    ];
    for sequence in sequences {
        let mut models = [7u32; 12];
        show_models(rt, lent, sequence, &mut models)?;
    }
    Ok(())
}

// Buffers that just suffice for one state a phone, that are too short, and that are too short for what is no utterance.
fn show_buffers(rt: &impl Print, lent: Lent) -> io::Result<()> {
    show_models(rt, lent, &[1, 2, 1], &mut [7u32; 3])?;
    show_models(rt, lent, &[1, 2, 1], &mut [7u32; 2])?;
    show_models(rt, lent, &[2, 1], &mut [7u32; 1])
}

fn show_leaves(rt: &impl Print, lent: Lent) -> io::Result<()> {
    let leaves: [(u32, &[u32]); 10] = [
        (1, &[1, 2, 1]),
        (1, &[2, 2, 1]),
        (2, &[2, 2, 1]),
        (2, &[1, 1, 2, 1, 1]),
        (2, &[2, 1, 2, 1, 1]),
        (1, &[1, 2]),
        (1, &[0, 2, 1]),
        (1, &[1, 2, 4]),
        (10, &[1, 2, 1]),
        (10, &[1, 2]),
    ];
    for (root, context) in leaves {
        show_leaf(rt, lent, root, context)?;
    }
    Ok(())
}

pub fn show_trees(
    rt: &impl Print,
    header: Header,
    nodes: &[u32],
    classes: &[u64],
    roots: &[u32],
    plains: &[u32],
) -> io::Result<()> {
    let lent = Lent {
        header,
        nodes,
        classes,
        roots,
        plains,
    };
    show_sequences(rt, lent)?;
    show_buffers(rt, lent)?;
    show_leaves(rt, lent)
}
