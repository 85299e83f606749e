// Prints what the build program answers to each input: the books of standard input, and inputs of 65536 bytes and of
// one more. A book stands below its title, a line that begins with '='; it ends where the next title begins.
#![tactic(auto)]

ghost use Rattle.program.specs.Reading.{ReadInto};

use program::running::run;
use program::{BUFFER_SIZE, LONGEST_INPUT};
use showing::reading::{INPUT_SIZE, read_full};
use showing::titles::{Texts, Titled};
use std::io;

// What the program prints; of a network of more than 48 lines the first 48, and how many bytes there are.
fn show_run(rt: &impl Print, buffer: &[u8; BUFFER_SIZE], got: usize) -> io::Result<()> {
    let output = run(buffer, got);
    let bytes = output.bytes;
    let length = output.length;
    if length <= 1536 {
        return rt.write_all(&bytes[..length]);
    }
    rt.write_all(&bytes[0..1536])?;
    println!(rt; ".. {length} bytes")
}

fn show_title(rt: &impl Print, title: &[u8]) -> io::Result<()> {
    rt.write_all(b"=")?;
    rt.write_all(title)?;
    rt.write_all(b"\n")
}

// Reads an input into a buffer, until it ends or the buffer is full, and counts the bytes.
fn read_into(input: &[u8], buffer: &mut [u8]) -> usize
    ensures { ReadInto buffer.new result input.now }
{
    let got = input.len().min(buffer.len());
    buffer[..got].copy_from_slice(&input[..got]);
    got
}

fn show_book(rt: &impl Print, book: &[u8]) -> io::Result<()> {
    let mut buffer = [0u8; BUFFER_SIZE];
    let got = read_into(book, &mut buffer);
    show_run(rt, &buffer, got)
}

fn show_all(rt: &impl Print, input: &[u8]) -> io::Result<()> {
    for Titled { title, text } in Texts(input.get(1..).unwrap_or(&[])) {
        show_title(rt, title)?;
        show_book(rt, text)?;
    }
    Ok(())
}

fn main(rt: HostRuntime) -> io::Result<()> {
    let mut input = [0u8; INPUT_SIZE];
    let got = read_full(&mut rt.stdin(), &mut input)?;
    show_all(&rt, &input[..got])?;
    let long = [b' '; BUFFER_SIZE];
    show_title(&rt, b" 22 before 11: 65537 blanks")?;
    show_run(&rt, &long, BUFFER_SIZE)?;
    show_title(&rt, b" 11: 65536 blanks")?;
    show_run(&rt, &long, LONGEST_INPUT)
}
