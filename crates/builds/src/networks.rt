// A book read and its network built into space of several sizes; what is left in it, and the arcs that leave the first states.
ghost use Rattle.std.specs.Prelude.{◌<◌};

use arcs::leaving::leaving;
use builder::building::build_book;
use definitions::{Counts, Refusal};
use lookups::answers::print_cleared;
use network::{Build, Totals};
use showing::printing::{print_numbers, print_used};
use std::io;

// The turns done, and the counts.
fn print_totals(rt: &impl Print, word: &str, totals: Totals) -> io::Result<()> {
    let Totals { turns, counts } = totals;
    let metastates = counts.metastates;
    let arcs = counts.arcs;
    println!(rt; " {word} after {turns} turns, {metastates} metastates, {arcs} arcs")
}

// The answer of a build in words, and whether a refusal left the tables cleared.
fn print_build(
    rt: &impl Print,
    answer: Result<Build, Refusal>,
    nodes: &[u32],
    classes: &[u64],
    roots: &[u32],
    plains: &[u32],
) -> io::Result<()> {
    match answer {
        Ok(Build::Finished(totals)) => print_totals(rt, "finished", totals),
        Ok(Build::Stopped(totals)) => print_totals(rt, "stopped", totals),
        Err(refusal) => {
            print!(rt; " {refusal}")?;
            print_cleared(rt, nodes, classes, roots, plains)
        }
    }
}

// What a build left: the words up to the last that is not 0, and how many follow.
fn print_space(
    rt: &impl Print,
    combinations: &[u64],
    metastates: &[u64],
    arcs: &[u32],
) -> io::Result<()> {
    print!(rt; "    combinations")?;
    print_used(rt, combinations)?;
    print!(rt; "    metastates")?;
    print_used(rt, metastates)?;
    print!(rt; "    arcs")?;
    print_used(rt, arcs)
}

// The arcs that leave a state. The line of a fault is always 0 here.
fn show_leaving(rt: &impl Print, counts: Counts, arcs: &[u32], state: u32) -> io::Result<()> {
    let mut fault = 7;
    let mut line = 7;
    let part = leaving(counts, arcs, state, &mut fault, &mut line);
    print!(rt; "    leaving {state}: fault {fault}:")?;
    print_numbers(rt, part)?;
    println!(rt)
}

// The arcs that leave the first states, some of which may not be there, and arcs that are counted wrong.
fn show_states(rt: &impl Print, totals: Totals, arcs: &[u32]) -> io::Result<()> {
    let counts = totals.counts;
    for state in 0..7 {
        show_leaving(rt, counts, arcs, state)?;
    }
    show_leaving(rt, Counts { arcs: 0, ..counts }, arcs, 0)
}

// Builds the network of a book into space where something stood before, and prints the answer and what is left.
fn show_build(
    rt: &impl Print,
    text: &[u8],
    combinations: &mut [u64],
    metastates: &mut [u64],
    arcs: &mut [u32],
    limit: u32,
) -> io::Result<Result<Build, Refusal>> {
    let mut nodes = [7u32; 52];
    let mut classes = [7u64; 3];
    let mut roots = [7u32; 7];
    let mut plains = [7u32; 5];
    let most = (
        combinations.len() / 11,
        metastates.len() / 8,
        arcs.len() / 4,
    );
    print!(rt;
        "  space for {} {} {} and {limit} turns:",
        most.0, most.1, most.2
    )?;
    let answer = build_book(
        text,
        &mut nodes,
        &mut classes,
        &mut roots,
        &mut plains,
        combinations,
        metastates,
        arcs,
        limit,
    );
    print_build(rt, answer, &nodes, &classes, &roots, &plains)?;
    print_space(rt, combinations, metastates, arcs)?;
    Ok(answer)
}

// The network in much space, and the arcs that leave its states.
pub fn show_whole(rt: &impl Print, text: &[u8]) -> io::Result<()> {
    let mut arcs = [7u32; 800];
    match show_build(rt, text, &mut [7u64; 220], &mut [7u64; 320], &mut arcs, 40)? {
        Ok(Build::Finished(totals) | Build::Stopped(totals)) => show_states(rt, totals, &arcs),
        Err(_) => Ok(()),
    }
}

// The network in space of so many words.
fn show_in<const COMBINATIONS: usize, const METASTATES: usize, const ARCS: usize>(
    rt: &impl Print,
    text: &[u8],
    limit: u32,
) -> io::Result<()>
    requires { (COMBINATIONS < 1000) × (METASTATES < 1000) × (ARCS < 1000) }
{
    let mut combinations = [7u64; COMBINATIONS];
    let mut metastates = [7u64; METASTATES];
    let mut arcs = [7u32; ARCS];
    let _ = show_build(
        rt,
        text,
        &mut combinations,
        &mut metastates,
        &mut arcs,
        limit,
    )?;
    Ok(())
}

// The sizes around those that document 01's example needs: 3 combinations, 4 metastates, 11 arcs, 4 turns. Some have words
// beside that are too few for one more.
pub fn show_sizes(rt: &impl Print, text: &[u8]) -> io::Result<()> {
    show_in::<33, 32, 44>(rt, text, 4)?;
    show_in::<34, 39, 47>(rt, text, 3)?;
    show_in::<33, 32, 44>(rt, text, 0)?;
    show_in::<33, 31, 44>(rt, text, 4)?;
    show_in::<33, 32, 43>(rt, text, 4)?;
    show_in::<33, 24, 20>(rt, text, 4)?;
    show_in::<32, 32, 44>(rt, text, 4)
}
