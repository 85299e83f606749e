// Tree books, for C: read into tables, and written in plain form.
ghost use Rattle.std.specs.Prelude.{◌≡◌, length};
ghost use Rattle.definitions.specs.BookLines.{no_header, header_of};
ghost use Rattle.definitions.specs.BookReading.{read_book};
ghost use Rattle.definitions.specs.Faults.{answer_left};
ghost use Rattle.definitions.specs.PlainForm.{write_plain};
ghost use Rattle.definitions.specs.Said.{said_of};
ghost use Rattle.definitions.specs.Tables.{tables_left};
ghost use Rattle.tables.specs.Lending.{lengths_of, lent_tables};
ghost use Rattle.fulgwerz.specs.Answers.{read_answer, count_answer};

use crate::{CountAnswer, ReadAnswer};
use book::reader::read;
use definitions::Header;
use plainform::writer::write;

// Reads a tree book into lent tables.
#[unsafe(no_mangle)]
pub extern "C" fn fulgwerz_read(
    text: &[u8],
    nodes: &mut [u32],
    classes: &mut [u64],
    roots: &mut [u32],
    plains: &mut [u32],
) -> ReadAnswer
    ensures answer { result ≡ read_answer (said_of header_of no_header
        (read_book (lengths_of nodes.old classes.old roots.old plains.old)
        text.now)) }
    ensures tables { lent_tables nodes.new classes.new roots.new plains.new
        ≡ tables_left
        (lengths_of nodes.old classes.old roots.old plains.old)
        (read_book (lengths_of nodes.old classes.old roots.old plains.old)
        text.now) }
{
    read(text, nodes, classes, roots, plains).into()
}

// Writes the plain form of lent tables, and counts its bytes.
#[unsafe(no_mangle)]
pub extern "C" fn fulgwerz_write_book(
    header: Header,
    nodes: &[u32],
    classes: &[u64],
    roots: &[u32],
    plains: &[u32],
    text: &mut [u8],
) -> CountAnswer
    ensures answer { result ≡ count_answer (said_of length 0 (write_plain header
        (lent_tables nodes.now classes.now roots.now plains.now)
        (length text.old))) }
    ensures leaves { text.new ≡ answer_left (length text.old) (write_plain header
        (lent_tables nodes.now classes.now roots.now plains.now)
        (length text.old)) }
{
    write(header, nodes, classes, roots, plains, text).into()
}
