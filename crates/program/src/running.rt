// The program's work: a book's network text, or the line of its refusal.
ghost use Rattle.std.specs.Prelude.{◌≡◌, ◌*◌, ◌≤◌, T, length, take};
ghost use Rattle.definitions.specs.Forms.{most_number};
ghost use Rattle.definitions.specs.Arcs.{arc_size};
ghost use Rattle.definitions.specs.NetworkText.{network_known};
ghost use Rattle.definitions.specs.Program.{refusal_text, program};
ghost use Rattle.program.specs.Demand.{PrintsDemand3};
ghost use Rattle.program.specs.Printing.{output_size, Empty, Prints, counts_told, text_in, book_text};
ghost use Rattle.program.specs.Reading.{PrintsInput};

use crate::{BUFFER_SIZE, LONGEST_INPUT, OUTPUT_SIZE, Output};
use builder::building::build_book;
use definitions::{ARC_SIZE, Counts, Fault, MOST_COLUMNS, NODE_SIZE, Refusal};
use lines::Row;
use nettext::writer::write as write_network;
use network::Build;
use writing::writing::write as write_line;

// One line X with number and line.
fn print_refusal(refusal: Refusal, output: &mut [u8]) -> usize
    requires { (refusal.line ≤ most_number) × Empty output.old }
    ensures { Prints (refusal_text refusal) output.new result }
{
    let row = Row {
        letter: b'X',
        used: 2,
        numbers: [refusal.fault.into(), refusal.line as u32, 0, 0, 0],
    };
    write_line(row, output);
    32
}

// The text of a network that was built.
fn print_network(counts: Counts, arcs: &[u32], output: &mut [u8]) -> usize
    requires { T (network_known counts arcs.now) × (length arcs.now ≡ arc_size * 2000) × Empty output.old }
    ensures { Prints (text_in counts arcs.now) output.new result }
{
    write_network(counts, arcs, output).unwrap_or(0)
}

// The counts of a network that was built, finished or not.
fn counts_of(built: Build) -> Counts
    ensures { result ≡ counts_told built }
{
    match built {
        Build::Finished(totals) | Build::Stopped(totals) => totals.counts,
    }
}

// The network of a book, built in the program's space and turns.
fn print_built(text: &[u8], output: &mut [u8]) -> usize
    requires { (length text.now ≤ 65536) × Empty output.old }
    ensures { Prints (book_text text.now) output.new result }
{
    let mut nodes = [0u32; 1024 * NODE_SIZE];
    let mut classes = [0u64; 255];
    let mut roots = [0u32; 192];
    let mut plains = [0u32; 64];
    let mut combinations = [0u64; 512 * (4 + MOST_COLUMNS)];
    let mut metastates = [0u64; 512 * (1 + MOST_COLUMNS)];
    let mut arcs = [0u32; 2000 * ARC_SIZE];
    let built = build_book(
        text,
        &mut nodes,
        &mut classes,
        &mut roots,
        &mut plains,
        &mut combinations,
        &mut metastates,
        &mut arcs,
        512,
    );
    match built {
        Ok(built) => print_network(counts_of(built), &arcs, output),
        Err(refusal) => print_refusal(refusal, output),
    }
}

// 22 before all others, for an input of more bytes than a book may have.
fn print_all(input: &[u8], output: &mut [u8]) -> usize
    requires { Empty output.old }
    ensures { Prints (program input.now) output.new result }
{
    if input.len() > LONGEST_INPUT {
        return print_refusal(Fault::Long.into(), output);
    }
    print_built(input, output)
}

// The first bytes of a buffer, as many as were read; all of them where the count is greater.
fn bytes_read<'a>(buffer: &'a [u8], got: usize) -> &'a [u8]
    ensures { result.now ≡ take got buffer.now }
{
    &buffer[..got.min(buffer.len())]
}

// What the program prints for an input, of which as many bytes as are counted stand in the buffer. The buffer has
// room for one byte more than a book may have: so it is what is printed for the whole of any input that was read
// into it until its end or the buffer's.
pub fn run(buffer: &[u8; BUFFER_SIZE], got: usize) -> Output
    ensures prints { Prints (program (take got buffer.now)) result.bytes result.length }
    ensures demand { PrintsDemand3 (take got buffer.now) (take result.length result.bytes) }
    ensures fits { (output_size ≡ length result.bytes) × (result.length ≤ output_size) }
    ensures whole { PrintsInput buffer.now got result.bytes result.length }
{
    let mut bytes = [0u8; OUTPUT_SIZE];
    let length = print_all(bytes_read(buffer, got), &mut bytes);
    Output { bytes, length }
}
