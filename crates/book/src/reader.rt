// Reading a tree book: its header, and its nodes, classes, roots and plain phones in lent tables; or the refusal, and
// the tables cleared.
ghost use Rattle.std.specs.Prelude.{◌≡◌};
ghost use Rattle.definitions.specs.BookLines.{header_of};
ghost use Rattle.definitions.specs.BookReading.{read_book};
ghost use Rattle.definitions.specs.Said.{result_of};
ghost use Rattle.definitions.specs.Tables.{tables_left};
ghost use Rattle.tables.specs.Lending.{lengths_of, lent_tables};
ghost use Rattle.book.specs.Tables.{lengths_in, SameLent};
ghost use Rattle.book.specs.Taking.{Cleared, ClearedFrom, Read};

use crate::Tables;
use crate::taking::finish;
use booklines::State;
use definitions::{Fault, Header, MOST_NODES, Refusal};
use lines::texts::whole_lines;

impl Tables<'_> {
    // Clears the four tables.
    fn clear(&mut self)
        ensures same { SameLent self.new self.old }
        ensures cleared { ClearedFrom
            self.old.nodes.now self.old.classes.now self.old.roots.now self.old.plains.now
            self.new.nodes.now self.new.classes.now self.new.roots.now self.new.plains.now }
    {
        self.nodes.fill(0);
        self.classes.fill(0);
        self.roots.fill(0);
        self.plains.fill(0);
    }

    // Reads all lines into cleared tables. Where a line is refused, the tables hold what was read before it.
    fn read_lines(&mut self, text: &[u8]) -> Result<Header, Refusal>
        requires { Cleared self.old.nodes.now self.old.classes.now self.old.roots.now self.old.plains.now }
        ensures same { SameLent self.new self.old }
        ensures answer { result ≡ result_of header_of (read_book (lengths_in self.old) text.now) }
        ensures tables { Read (lengths_in self.old) text.now
            self.new.nodes.now self.new.classes.now self.new.roots.now self.new.plains.now }
    {
        if !whole_lines(text) {
            return Err(Fault::Ragged.into());
        }
        let mut counts = [0u32; MOST_NODES];
        let mut state = State::new();
        for i in 0..text.len() / 32 {
            let line = &text[32 * i..32 * i + 32];
            match self.take_line(state, line, &mut counts) {
                Ok(next) => state = next,
                Err(fault) => return Err(fault.at(i + 1)),
            }
        }
        finish(text, state, &counts)
    }
}

// Reads a tree book.
// The lent slices stay apart, as C lends them to the entry.
pub fn read(
    text: &[u8],
    nodes: &mut [u32],
    classes: &mut [u64],
    roots: &mut [u32],
    plains: &mut [u32],
) -> Result<Header, Refusal>
    ensures answer { result ≡ result_of header_of (read_book
        (lengths_of nodes.old classes.old roots.old plains.old)
        text.now) }
    ensures tables { lent_tables nodes.new classes.new roots.new plains.new
        ≡ tables_left
        (lengths_of nodes.old classes.old roots.old plains.old)
        (read_book
        (lengths_of nodes.old classes.old roots.old plains.old)
        text.now) }
{
    let mut tables = Tables {
        nodes,
        classes,
        roots,
        plains,
    };
    tables.clear();
    let answer = tables.read_lines(text);
    if answer.is_err() {
        tables.clear();
    }
    answer
}
