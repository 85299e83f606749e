// What is kept of the lines taken so far, from line to line.
ghost use Rattle.std.specs.Prelude.{[], ◌≡◌};
ghost use Rattle.nettext.specs.Entries.{entry_line};
ghost use Rattle.nettext.specs.States.{Countable, complete_in, next_state, state_of};

use crate::{Entry, State};
use definitions::{Counts, wide};

impl State {
    // Before the first line.
    pub fn no_lines() -> State
        ensures { result ≡ state_of [] }
    {
        State {
            lines: 0,
            counts: Counts {
                states: 0,
                metastates: 0,
                arcs: 0,
            },
            arcs: 0,
            last: 0,
        }
    }

    // Whether the lines so far are all that the W line promised.
    pub fn complete(self) -> bool
        ensures { result ≡ complete_in self }
    {
        0 < self.lines && self.arcs == wide(self.counts.arcs)
    }

    // The state after one more line.
    #[tactic(auto, unfolding(definitions::specs::NetworkText::counts_in_line))]
    pub fn next_state(self, entry: Entry) -> State
        requires { Countable self }
        ensures { result ≡ next_state self (entry_line entry) }
    {
        let lines = self.lines + 1;
        match entry {
            Entry::W(counts) => State {
                lines,
                counts,
                ..self
            },
            Entry::A(arc) => State {
                lines,
                arcs: self.arcs + 1,
                last: arc.from,
                ..self
            },
        }
    }
}
