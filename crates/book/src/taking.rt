// Taking one line of a tree book, and what is judged after the last.
ghost use Rattle.std.specs.Prelude.{◌≡◌};
ghost use Rattle.book.specs.Steps.{finish_of, step_of};
ghost use Rattle.book.specs.Taking.{Endable, Ready, nodes_taken, classes_taken, roots_taken, plains_taken};
ghost use Rattle.book.specs.Taking.{counts_taken};
ghost use Rattle.book.specs.Tables.{lengths_in, SameLent};

use crate::Tables;
use crate::finding::{is_line_of, line_where, names_plain_in};
use booklines::entries::entry_of;
use booklines::{Lengths, State};
use definitions::{Fault, Header, Refusal, wide};
use lines::Letters;
use lines::parsing::parse;
use tables::naming::first_misnamed;

impl Tables<'_> {
    // Takes one more line: its words into the tables, and the state after it; or its fault.
    #[tactic(auto, unfolding(crate::specs::Steps::where_taken))]
    pub fn take_line(&mut self, s: State, bytes: &[u8], counts: &mut [u32]) -> Result<State, Fault>
        requires { Ready (lengths_in self.old) s bytes.now }
        ensures same { SameLent self.new self.old }
        ensures step { result ≡ step_of (lengths_in self.old) s bytes.now }
        ensures nodes { self.new.nodes.now ≡ nodes_taken result bytes.now self.old.nodes.now }
        ensures classes { self.new.classes.now ≡ classes_taken result bytes.now self.old.classes.now }
        ensures roots { self.new.roots.now
            ≡ roots_taken s.header.states result bytes.now self.old.roots.now }
        ensures plains { self.new.plains.now ≡ plains_taken result bytes.now self.old.plains.now }
        ensures counts { counts.new ≡ counts_taken result bytes.now counts.old }
    {
        if s.full() {
            return Err(Fault::Count);
        }
        let row = parse(Letters::Book, bytes).ok_or(Fault::Misprint)?;
        let entry = entry_of(row);
        let lengths = Lengths {
            nodes: self.nodes.len(),
            classes: self.classes.len(),
            roots: self.roots.len(),
            plains: self.plains.len(),
        };
        s.judge_line(lengths, row, entry)?;
        self.store(s.header.states, entry, counts);
        Ok(s.next(entry))
    }
}

// What is judged after the last line of a text: 17 where lines are missing, then 21, then 16.
pub fn finish(text: &[u8], s: State, counts: &[u32]) -> Result<Header, Refusal>
    requires { Endable s counts.now }
    ensures { result ≡ finish_of text.now s counts.now }
{
    if !s.enough() {
        return Err(Fault::Count.at(s.lines + 1));
    }
    if s.chained() {
        let line = line_where(text, |entry| names_plain_in(entry, s.boundaries));
        return Err(Fault::Chained.at(line));
    }
    if let Some(node) = first_misnamed(&counts[..wide(s.nodes)]) {
        let line = line_where(text, |entry| is_line_of(entry, node));
        return Err(Fault::Orphan.at(line));
    }
    Ok(s.header)
}
