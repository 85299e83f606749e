// One book: its plain form, and whether that is another book's.
use crate::{Book, TEXT_SIZE};
use showing::using::used;
use std::io;

// Says whether the plain form is the other book's.
fn compare(rt: &impl Print, text: &[u8], other: &[u8]) -> io::Result<()> {
    if text == other {
        println!(rt; "  the same book")
    } else {
        println!(rt; "  another book")
    }
}

// A plain form read into the tables that its book fitted, and written again.
pub fn show_again(rt: &impl Print, text: &[u8]) -> io::Result<()> {
    let Ok(book) = Book::read(text) else {
        return Ok(());
    };
    book.show_models(rt)?;
    let mut again = [7u8; TEXT_SIZE];
    if let Ok(count) = book.write(&mut again) {
        if again.get(..count) == Some(text) {
            println!(rt; "  read and written again: the same text")?;
        }
    }
    Ok(())
}

// The plain form, in a buffer where something stood before; and what a buffer with one byte less gives.
fn show_plain(rt: &impl Print, book: &Book, other: &[u8]) -> io::Result<()> {
    let mut text = [7u8; TEXT_SIZE];
    match book.write(&mut text) {
        Ok(count) => {
            let Some(written) = text.get(..count) else {
                return Ok(());
            };
            rt.write_all(written)?;
            println!(rt;
                "  bytes {count}, then 0 to the end: {}",
                text.len() - used(&text)
            )?;
            compare(rt, &text, other)?;
            book.show_models(rt)?;
            show_again(rt, written)?;
            let mut short = [7u8; TEXT_SIZE];
            match written.len() {
                0 => Ok(()),
                size => book.show_refused(rt, "one byte less", &mut short[..size - 1]),
            }
        }
        Err(refusal) => print!(rt; " {refusal}"),
    }
}

// Shows a book. Where its title begins with '+', its plain form is the other one from here on.
pub fn show_book(rt: &impl Print, title: &[u8], text: &[u8], other: &mut [u8]) -> io::Result<()> {
    print!(rt; "=")?;
    rt.write_all(title)?;
    print!(rt; ":")?;
    match Book::read(text) {
        Ok(book) => {
            println!(rt; " accepted")?;
            if title.starts_with(b"+") {
                let _ = book.write(other);
                show_plain(rt, &book, other)?;
                book.show_foreign(rt)
            } else {
                show_plain(rt, &book, other)
            }
        }
        Err(refusal) => println!(rt; " {refusal}"),
    }
}
