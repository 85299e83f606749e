// The tests of a line, each after what document 01 asks, and the first that fails.
ghost use Rattle.std.specs.Prelude.{◌≡◌, ◌≤◌, T};
ghost use Rattle.definitions.specs.BookLines.{header_in, root_place};
ghost use Rattle.definitions.specs.BookReading.{within_header, children_greater, wide_enough};
ghost use Rattle.lines.specs.Judging.{verdict_of};
ghost use Rattle.lines.specs.Rows.{line_in};
ghost use Rattle.booklines.specs.Entries.{entry_line, lent_of, member_of};
ghost use Rattle.booklines.specs.States.{follows_in, in_order_in, after_last_member, tests_in, HasStates};
ghost use Rattle.booklines.specs.States.{left_out_in};

use crate::leaving::may_leave_out;
use crate::{Entry, Lengths, Member, State};
use definitions::{Fault, Header, NODE_SIZE, wide};
use lines::counting::root_place;
use lines::ranges::in_fixed_ranges;
use lines::{Letters, Row};

impl Entry {
    // 13 by the header's counts.
    #[tactic(auto, unfolding(crate::specs::Entries::entry_line, definitions::specs::BookReading::within_header))]
    fn within(self, header: Header) -> bool
        ensures { result ≡ within_header header (entry_line self) }
    {
        match self {
            Entry::H(_) => true,
            Entry::Q(member) => member.class <= header.classes && member.phone <= header.phones,
            Entry::N {
                node,
                class,
                position,
                yes,
                no,
            } => {
                node < header.nodes
                    && class <= header.classes
                    && wide(position) <= 2 * wide(header.half)
                    && yes < header.nodes
                    && no < header.nodes
            }
            Entry::L { node, .. } => node < header.nodes,
            Entry::B { boundary, plain } => boundary <= header.phones && plain <= header.phones,
            Entry::R { phone, state, root } => {
                phone <= header.phones && state <= header.states && root < header.nodes
            }
        }
    }

    // 15: whether a question's children are greater than its node.
    #[tactic(auto, unfolding(crate::specs::Entries::entry_line, definitions::specs::BookReading::children_greater))]
    fn children_greater(self) -> bool
        ensures { result ≡ children_greater (entry_line self) }
    {
        match self {
            Entry::N { node, yes, no, .. } => node < yes && node < no,
            _ => true,
        }
    }
}

impl Lengths {
    // 20: whether the lent tables are wide enough for a header.
    #[tactic(auto, unfolding(definitions::specs::BookReading::wide_enough, definitions::specs::BookLines::root_count))]
    fn wide_enough(self, header: Header) -> bool
        ensures { result ≡ wide_enough (lent_of self) header }
    {
        NODE_SIZE * wide(header.nodes) <= self.nodes
            && wide(header.classes) <= self.classes
            && wide(header.phones) * wide(header.states) <= self.roots
            && wide(header.phones) <= self.plains
    }

    // 20 at the header's line.
    #[tactic(auto, using(crate::specs::Laws::Judged::no_header_fits), unfolding(crate::specs::Entries::entry_line, definitions::specs::BookLines::header_in))]
    fn fit(self, entry: Entry) -> bool
        ensures { result ≡ wide_enough (lent_of self) (header_in (entry_line entry)) }
    {
        match entry {
            Entry::H(header) => self.wide_enough(header),
            _ => true,
        }
    }
}

impl State {
    // 14 for the letter: whether a line of this letter may stand next.
    #[tactic(auto, unfolding(crate::specs::Entries::entry_line, crate::specs::States::follows_in))]
    fn may_follow(self, entry: Entry) -> bool
        ensures { result ≡ follows_in self (entry_line entry) }
    {
        match entry {
            Entry::H(_) => self.lines == 0,
            Entry::Q(_) => self.lines > 0 && self.nodes == 0,
            Entry::N { .. } | Entry::L { .. } => self.nodes < self.header.nodes,
            Entry::B { .. } => self.lines > 0 && self.nodes == self.header.nodes && self.next == 0,
            Entry::R { .. } => self.lines > 0 && self.nodes == self.header.nodes,
        }
    }

    // Whether a member comes after the last Q line's, by class and phone.
    #[tactic(auto, unfolding(crate::specs::States::after_last_member, definitions::specs::BookReading::comes_before))]
    fn member_may_follow(self, member: Member) -> bool
        ensures { result ≡ after_last_member self.last (member_of member) }
    {
        match self.last {
            None => true,
            Some(last) => last < member,
        }
    }

    // Whether a root may stand next: between it and the last stand only boundary phones.
    #[tactic(auto, unfolding(crate::specs::States::left_out_in))]
    fn root_may_follow(self, phone: u32, state: u32) -> bool
        requires { 1 ≤ self.header.states }
        ensures { result ≡ left_out_in self (root_place self.header.states phone state) }
    {
        let place = root_place(self.header.states, phone, state);
        may_leave_out(self.boundaries, self.header.states, self.next, place)
    }

    // 14 for the numbers.
    #[tactic(auto, using(crate::specs::Laws::Judged::root_after_header), unfolding(crate::specs::Entries::entry_line, crate::specs::States::in_order_in))]
    fn in_order(self, entry: Entry) -> bool
        requires { HasStates self × T (follows_in self (entry_line entry)) }
        ensures { result ≡ in_order_in self (entry_line entry) }
    {
        match entry {
            Entry::H(_) => true,
            Entry::Q(member) => self.member_may_follow(member),
            Entry::N { node, .. } | Entry::L { node, .. } => node == self.nodes,
            Entry::B { boundary, .. } => self.after <= wide(boundary),
            Entry::R { phone, state, .. } => self.root_may_follow(phone, state),
        }
    }

    // The first test of a row and of what it says that fails.
    #[tactic(auto, unfolding(crate::specs::States::tests_in, definitions::specs::BookReading::book_tests, lines::specs::Judging::verdict_of))]
    pub fn judge_line(self, lengths: Lengths, row: Row, entry: Entry) -> Result<(), Fault>
        requires { HasStates self }
        ensures { result ≡ verdict_of (tests_in (lent_of lengths) self (line_in row) (entry_line entry)) }
    {
        if !self.may_follow(entry) {
            return Err(Fault::Order);
        }
        if !in_fixed_ranges(Letters::Book, row) || !entry.within(self.header) {
            return Err(Fault::Range);
        }
        if !self.in_order(entry) {
            return Err(Fault::Order);
        }
        if !entry.children_greater() {
            return Err(Fault::Backward);
        }
        if !lengths.fit(entry) {
            return Err(Fault::Narrow);
        }
        Ok(())
    }
}
