// What is kept of the lines taken so far, from line to line.
ghost use Rattle.std.specs.Prelude.{[], ◌≡◌, ◌≤◌};
ghost use Rattle.booklines.specs.Entries.{entry_line};
ghost use Rattle.booklines.specs.States.{Countable, HasStates, PhonesFit, full_in, enough_in, chained_in};
ghost use Rattle.booklines.specs.States.{next_state, state_of, with_node, with_boundary, with_root};

use crate::leaving::may_leave_out;
use crate::{Entry, State};
use definitions::{Header, wide};
use lines::counting::root_place;
use matrix::sets::alone;

impl State {
    // Before the first line.
    pub fn new() -> State
        ensures { result ≡ state_of [] }
    {
        State {
            lines: 0,
            header: Header {
                half: 0,
                states: 0,
                phones: 0,
                classes: 0,
                nodes: 0,
            },
            last: None,
            nodes: 0,
            after: 0,
            boundaries: 0,
            plains: 0,
            next: 0,
        }
    }

    // Whether the last phone's last R line was read, so that no line may follow.
    #[tactic(auto, unfolding(crate::specs::States::full_in, definitions::specs::BookLines::root_count))]
    pub fn full(self) -> bool
        ensures { result ≡ full_in self }
    {
        self.lines > 0 && self.next == wide(self.header.phones) * wide(self.header.states)
    }

    // Whether the lines so far are all that the header promised, but for what may be left out.
    #[tactic(auto, unfolding(crate::specs::States::enough_in, crate::specs::States::left_out_in, definitions::specs::BookLines::root_count))]
    pub fn enough(self) -> bool
        requires { HasStates self }
        ensures { result ≡ enough_in self }
    {
        let roots = wide(self.header.phones) * wide(self.header.states);
        self.lines > 0 && may_leave_out(self.boundaries, self.header.states, self.next, roots)
    }

    // Whether some plain phone is a boundary phone.
    #[tactic(auto, unfolding(crate::specs::States::chained_in))]
    pub fn chained(self) -> bool
        ensures { result ≡ chained_in self }
    {
        self.boundaries & self.plains != 0
    }

    // The state after a node's line.
    #[tactic(auto, unfolding(crate::specs::States::with_node))]
    fn with_node(self) -> State
        requires { Countable self }
        ensures { result ≡ with_node self }
    {
        State {
            lines: self.lines + 1,
            nodes: self.nodes + 1,
            ..self
        }
    }

    // The state after a B line.
    #[tactic(auto, unfolding(crate::specs::States::with_boundary))]
    fn with_boundary(self, boundary: u32, plain: u32) -> State
        requires { Countable self × (boundary ≤ 64) × (plain ≤ 64) }
        ensures { result ≡ with_boundary self boundary plain }
    {
        State {
            lines: self.lines + 1,
            after: wide(boundary) + 1,
            boundaries: self.boundaries | alone(boundary),
            plains: self.plains | alone(plain),
            ..self
        }
    }

    // The state after an R line.
    #[tactic(auto, unfolding(crate::specs::States::with_root))]
    fn with_root(self, phone: u32, state: u32) -> State
        requires { Countable self }
        ensures { result ≡ with_root self phone state }
    {
        State {
            lines: self.lines + 1,
            next: root_place(self.header.states, phone, state) + 1,
            ..self
        }
    }

    // The state after one more line.
    #[tactic(auto, unfolding(crate::specs::Entries::entry_line, crate::specs::States::next_state, definitions::specs::BookLines::header_in))]
    pub fn next(self, entry: Entry) -> State
        requires { Countable self × PhonesFit (entry_line entry) }
        ensures { result ≡ next_state self (entry_line entry) }
    {
        let lines = self.lines + 1;
        match entry {
            Entry::H(header) => State {
                lines,
                header,
                ..self
            },
            Entry::Q(member) => State {
                lines,
                last: Some(member),
                ..self
            },
            Entry::N { .. } | Entry::L { .. } => self.with_node(),
            Entry::B { boundary, plain } => self.with_boundary(boundary, plain),
            Entry::R { phone, state, .. } => self.with_root(phone, state),
        }
    }
}
