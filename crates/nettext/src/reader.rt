// Reading network text: its counts, and its arcs in lent words; or the refusal, and the words cleared.
ghost use Rattle.std.specs.Prelude.{◌≡◌, length};
ghost use Rattle.definitions.specs.NetworkText.{counts_of, read_network, arcs_left};
ghost use Rattle.definitions.specs.Said.{result_of};
ghost use Rattle.nettext.specs.Taking.{Cleared, Read};

use crate::State;
use definitions::{Counts, Fault, Refusal};
use lines::texts::whole_lines;

// Reads all lines into cleared words. Where a line is refused, they hold the arcs that were read before it.
fn read_lines(text: &[u8], arcs: &mut [u32]) -> Result<Counts, Refusal>
    requires { Cleared arcs.old }
    ensures answer { result ≡ result_of counts_of (read_network (length arcs.old) text.now) }
    ensures arcs { Read (length arcs.old) text.now arcs.new }
{
    if !whole_lines(text) {
        return Err(Fault::Ragged.into());
    }
    let mut state = State::no_lines();
    for i in 0..text.len() / 32 {
        let line = &text[32 * i..32 * i + 32];
        // A match, since with `map_err` and `?` the proof did not close.
        match state.take_line(line, arcs) {
            Ok(next) => state = next,
            Err(fault) => return Err(fault.at(i + 1)),
        }
    }
    state.finish()
}

// Reads network text.
// Clear, read, clear again: one function for this and the reader of word books would be no shorter.
pub fn read(text: &[u8], arcs: &mut [u32]) -> Result<Counts, Refusal>
    ensures answer { result ≡ result_of counts_of (read_network (length arcs.old) text.now) }
    ensures arcs { arcs.new ≡ arcs_left (length arcs.old)
        (read_network (length arcs.old) text.now) }
{
    arcs.fill(0);
    let answer = read_lines(text, arcs);
    if answer.is_err() {
        arcs.fill(0);
    }
    answer
}
