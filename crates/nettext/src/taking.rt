// Taking one line of network text, and what is judged after the last.
ghost use Rattle.std.specs.Prelude.{◌≡◌, ◌<◌, length};
ghost use Rattle.nettext.specs.Taking.{Ready, arcs_taken, finish_of, step_of};

use crate::{Entry, State};
use definitions::{Counts, Fault, Refusal};
use lines::Letters;
use lines::parsing::parse;

impl State {
    // Takes one more line: its arc into the lent arcs, and the state after it; or its fault.
    pub fn take_line(self, bytes: &[u8], arcs: &mut [u32]) -> Result<State, Fault>
        requires { Ready (length arcs.old) self bytes.now }
        ensures step { result ≡ step_of (length arcs.old) self bytes.now }
        ensures arcs { arcs.new
            ≡ arcs_taken (length arcs.old) self.arcs result bytes.now arcs.old }
    {
        if self.complete() {
            return Err(Fault::Count);
        }
        let row = parse(Letters::Network, bytes).ok_or(Fault::Misprint)?;
        let entry = Entry::entry_of(row);
        self.judge_line(arcs.len(), row, entry)?;
        entry.store(self.arcs, arcs);
        Ok(self.next_state(entry))
    }

    // What is judged after the last line: 17 where lines are missing.
    pub fn finish(self) -> Result<Counts, Refusal>
        requires { self.lines < 18446744073709551615 }
        ensures { result ≡ finish_of self }
    {
        if self.complete() {
            Ok(self.counts)
        } else {
            Err(Fault::Count.at(self.lines + 1))
        }
    }
}
