// One word book: what reading answers and leaves, and then its joins.
use crate::foreign::{show_foreign_arcs, show_foreign_words};
use crate::joins::{show_size, show_sizes};
use crate::{Book, Network};
use definitions::{Refusal, WORD_SIZE};
use showing::printing::print_used;
use showing::using::used;
use std::io;
use words::known::words_known;
use words::reader::read;

// How many words there are, whether the table is known with them, and the table: each word's length and phones, and
// what stands beyond them.
fn print_table(rt: &impl Print, book: &Book) -> io::Result<()> {
    let known = if words_known(book.count, &book.words) {
        ", known"
    } else {
        ""
    };
    println!(rt; " accepted, words {}{known}", book.count)?;
    if book.count <= book.words.len() / WORD_SIZE {
        let (kept, beyond) = book.words.split_at(WORD_SIZE * book.count);
        for word in kept.chunks_exact(WORD_SIZE) {
            print!(rt; "    kept")?;
            print_used(rt, word)?;
        }
        print!(rt; "    beyond")?;
        print_used(rt, beyond)?;
    }
    Ok(())
}

fn print_refused(rt: &impl Print, refusal: Refusal, words: &[u32]) -> io::Result<()> {
    let cleared = if used(words) == 0 {
        ", words cleared"
    } else {
        ""
    };
    println!(rt; " {refusal}{cleared}")
}

// Reads a word book into a table where something stood before, and shows its joins where it is accepted: all, or one.
pub fn show_book(rt: &impl Print, text: &[u8], network: &Network, more: bool) -> io::Result<()> {
    let mut words = [7; 263];
    match read(text, &mut words) {
        Ok(count) => {
            let book = Book { count, words };
            print_table(rt, &book)?;
            show_size(rt, network, &book, 62, 167)?;
            if more {
                show_sizes(rt, network, &book)?;
                show_foreign_arcs(rt, network, &book)?;
                show_foreign_words(rt, network, &book)?;
            }
            Ok(())
        }
        Err(refusal) => print_refused(rt, refusal, &words),
    }
}
