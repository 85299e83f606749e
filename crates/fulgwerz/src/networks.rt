// Networks, for C: where the arcs that leave a state stand, and network text, written and read.
ghost use Rattle.std.specs.Prelude.{◌≡◌, length};
ghost use Rattle.definitions.specs.Faults.{answer_left};
ghost use Rattle.definitions.specs.Leaving.{leaving};
ghost use Rattle.definitions.specs.NetworkText.{no_counts, counts_of, write_network, read_network, arcs_left};
ghost use Rattle.definitions.specs.Said.{said_of, span_of, no_span};
ghost use Rattle.fulgwerz.specs.Answers.{part_answer, count_answer, network_answer};

use crate::{CountAnswer, NetworkAnswer, PartAnswer};
use arcs::leaving::part_leaving;
use definitions::Counts;
use nettext::reader::read;
use nettext::writer::write;

// Says where the arcs that leave a state stand. A slice cannot be answered to C, so start and length are.
#[unsafe(no_mangle)]
pub extern "C" fn fulgwerz_leaving(counts: Counts, arcs: &[u32], state: u32) -> PartAnswer
    ensures { result ≡ part_answer (said_of span_of no_span (leaving counts arcs.now state)) }
{
    part_leaving(counts, arcs, state).into()
}

// Writes the text of a network, and counts its bytes.
#[unsafe(no_mangle)]
pub extern "C" fn fulgwerz_write(counts: Counts, arcs: &[u32], text: &mut [u8]) -> CountAnswer
    ensures answer { result ≡ count_answer (said_of length 0
        (write_network counts arcs.now (length text.old))) }
    ensures leaves { text.new ≡ answer_left (length text.old)
        (write_network counts arcs.now (length text.old)) }
{
    write(counts, arcs, text).into()
}

// Reads network text into lent arcs.
#[unsafe(no_mangle)]
pub extern "C" fn fulgwerz_read_network(text: &[u8], arcs: &mut [u32]) -> NetworkAnswer
    ensures answer { result ≡ network_answer (said_of counts_of no_counts
        (read_network (length arcs.old) text.now)) }
    ensures arcs { arcs.new ≡ arcs_left (length arcs.old)
        (read_network (length arcs.old) text.now) }
{
    read(text, arcs).into()
}
