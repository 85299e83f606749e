// Joins with arcs and words that reading never leaves, beside a few that it may leave.
use crate::joins::show_answer;
use crate::{Book, Network};
use definitions::Counts;
use std::io;
use words::known::words_known;

// What joining answers in space for one state: 18 comes before 31.
fn show_case(rt: &impl Print, what: &str, network: &Network, book: &Book) -> io::Result<()> {
    print!(rt; "  {what}:")?;
    if words_known(book.count, &book.words) {
        print!(rt; " known words,")?;
    }
    show_answer(rt, network, book, &mut [7; 5], &mut [7; 3])
}

// Another word at a place, if it is there.
fn set(words: &mut [u32], place: usize, word: u32) {
    if let Some(old) = words.get_mut(place) {
        *old = word;
    }
}

// The network with one count or one word changed.
pub fn show_foreign_arcs(rt: &impl Print, network: &Network, book: &Book) -> io::Result<()> {
    let Network { counts, arcs } = *network;
    for (what, counts) in [
        (
            "three states",
            Counts {
                states: 3,
                ..counts
            },
        ),
        (
            "no metastates",
            Counts {
                metastates: 0,
                ..counts
            },
        ),
        ("ten arcs", Counts { arcs: 10, ..counts }),
        ("more arcs than words", Counts { arcs: 13, ..counts }),
    ] {
        show_case(rt, what, &Network { counts, arcs }, book)?;
    }
    for (what, place, word) in [
        ("an arc's phone 65", 3, 65),
        ("first arc into state 6", 1, 6),
        ("first arc from state 3", 0, 3),
        ("a 1 beyond the arcs", 49, 1),
    ] {
        let mut changed = *network;
        set(&mut changed.arcs, place, word);
        show_case(rt, what, &changed, book)?;
    }
    Ok(())
}

// The words with another count, or with one word of 32 bits changed.
pub fn show_foreign_words(rt: &impl Print, network: &Network, book: &Book) -> io::Result<()> {
    let words = book.words;
    for (what, count) in [
        ("no words", 0),
        ("one word", 1),
        ("three words", 3),
        ("five words", 5),
    ] {
        show_case(rt, what, network, &Book { count, words })?;
    }
    for (what, place, word) in [
        ("word 1 of phone 64", 1, 64),
        ("word 1 of phone 65", 1, 65),
        ("word 2 of length 1", 65, 1),
        ("a 1 beyond the words", 262, 1),
    ] {
        let mut changed = *book;
        set(&mut changed.words, place, word);
        show_case(rt, what, network, &changed)?;
    }
    Ok(())
}
