// What a line of network text says, the tests that document 01 puts to it, and the first that fails.
ghost use Rattle.std.specs.Prelude.{◌≡◌, ◌*◌, leb};
ghost use Rattle.definitions.specs.Arcs.{arc_size};
ghost use Rattle.definitions.specs.NetworkText.{network_line, counts_in_line, within_counts};
ghost use Rattle.lines.specs.Judging.{verdict_of};
ghost use Rattle.lines.specs.Rows.{line_in, row_of};
ghost use Rattle.nettext.specs.Entries.{entry_line};
ghost use Rattle.nettext.specs.States.{follows_in, in_order_in, tests_in};

use crate::{Entry, State};
use arcs::Arc;
use arcs::known::is_state;
use definitions::{ARC_SIZE, Counts, Fault, wide};
use lines::ranges::in_fixed_ranges;
use lines::{Letters, Row};

impl Entry {
    // What a row says. A row of another letter than W says what an A line says.
    // No `From`: it asks that the row is one that was read.
    pub fn entry_of(row: Row) -> Entry
        requires { row ≡ row_of (line_in row) }
        ensures { entry_line result ≡ network_line (line_in row) }
    {
        let n = row.numbers;
        if row.letter == b'W' {
            Entry::W(Counts {
                states: n[0],
                metastates: n[1],
                arcs: n[2],
            })
        } else {
            Entry::A(Arc {
                from: n[0],
                to: n[1],
                model: n[2],
                phone: n[3],
            })
        }
    }

    // 13 by the counts of the W line.
    #[tactic(auto, unfolding(definitions::specs::NetworkText::within_counts))]
    fn within_counts(self, counts: Counts) -> bool
        ensures { result ≡ within_counts counts (entry_line self) }
    {
        match self {
            Entry::W(_) => true,
            Entry::A(arc) => is_state(counts, arc.from) && is_state(counts, arc.to),
        }
    }

    // 20 at the W line: whether so many words have room for its arcs.
    #[tactic(auto, unfolding(definitions::specs::NetworkText::counts_in_line))]
    fn table_fits(self, lent: usize) -> bool
        ensures { result ≡ leb (arc_size * (counts_in_line (entry_line self)).arcs) lent }
    {
        match self {
            Entry::W(counts) => ARC_SIZE * wide(counts.arcs) <= lent,
            Entry::A(_) => true,
        }
    }
}

impl State {
    // 14 for the letter: whether a line of this letter may stand next.
    fn follows(self, entry: Entry) -> bool
        ensures { result ≡ follows_in self (entry_line entry) }
    {
        match entry {
            Entry::W(_) => self.lines == 0,
            Entry::A(_) => 0 < self.lines,
        }
    }

    // 14 for the numbers: sources never descend.
    fn in_order(self, entry: Entry) -> bool
        ensures { result ≡ in_order_in self (entry_line entry) }
    {
        match entry {
            Entry::W(_) => true,
            Entry::A(arc) => self.last <= arc.from,
        }
    }

    // The first test of a row and of what it says that fails.
    #[tactic(auto, unfolding(definitions::specs::NetworkText::network_tests, lines::specs::Judging::verdict_of))]
    pub fn judge_line(self, lent: usize, row: Row, entry: Entry) -> Result<(), Fault>
        ensures { result ≡ verdict_of (tests_in lent self (line_in row) (entry_line entry)) }
    {
        if !self.follows(entry) {
            return Err(Fault::Order);
        }
        if !in_fixed_ranges(Letters::Network, row) {
            return Err(Fault::Range);
        }
        if !entry.within_counts(self.counts) {
            return Err(Fault::Range);
        }
        if !self.in_order(entry) {
            return Err(Fault::Order);
        }
        if !entry.table_fits(lent) {
            return Err(Fault::Narrow);
        }
        Ok(())
    }
}
