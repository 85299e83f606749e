// Writing network text from lent arcs: 18, then 33.
ghost use Rattle.std.specs.Prelude.{◌≡◌, ◌*◌, ◌/◌, T, length};
ghost use Rattle.definitions.specs.Arcs.{arc_size, arcs_in};
ghost use Rattle.definitions.specs.Faults.{answer_left};
ghost use Rattle.definitions.specs.Lists.{concat_map, every};
ghost use Rattle.definitions.specs.Lines.{line_text};
ghost use Rattle.definitions.specs.NetworkText.{line_of_counts, line_of_arc, write_network};
ghost use Rattle.definitions.specs.Said.{result_of};
ghost use Rattle.lines.specs.Rows.{line_in};
ghost use Rattle.arcs.specs.Arc.{the_arc};
ghost use Rattle.nettext.specs.Writing.{arc_in_range};

use arcs::Arc;
use arcs::known::network_known;
use arcs::putting::arc_at;
use definitions::{ARC_SIZE, Counts, Fault, Refusal, wide};
use lines::Row;
use writing::writing::write as write_line;

// The W line of counts.
#[tactic(auto, unfolding(definitions::specs::NetworkText::line_of_counts, lines::specs::Rows::line_in))]
fn counts_row(counts: Counts) -> Row
    ensures { line_in result ≡ line_of_counts counts }
{
    counts.into()
}

// The A line of an arc.
#[tactic(auto, unfolding(definitions::specs::Arcs::arc_words, definitions::specs::NetworkText::line_of_arc, lines::specs::Rows::line_in))]
fn arc_row(arc: Arc) -> Row
    ensures { line_in result ≡ line_of_arc (the_arc arc) }
{
    Row {
        letter: b'A',
        used: 4,
        numbers: [arc.from, arc.to, arc.model, arc.phone, 0],
    }
}

// The A lines of all arcs.
fn write_arcs(arcs: &[u32], text: &mut [u8])
    requires { T (every arc_in_range (arcs_in (length arcs.now / arc_size) arcs.now))
        × (length text.old ≡ 32 * (length arcs.now / arc_size)) }
    ensures { text.new ≡ concat_map (λ a. line_text (line_of_arc a))
        (arcs_in (length arcs.now / arc_size) arcs.now) }
{
    for i in 0..arcs.len() / ARC_SIZE {
        let from = 32 * i;
        let end = from + 32;
        write_line(arc_row(arc_at(arcs, i)), &mut text[from..end]);
    }
}

// Writes the text of a network, and 0 in the rest of the buffer.
pub fn write(counts: Counts, arcs: &[u32], text: &mut [u8]) -> Result<usize, Refusal>
    ensures answer { result ≡ result_of length
        (write_network counts arcs.now (length text.old)) }
    ensures leaves { text.new ≡ answer_left (length text.old)
        (write_network counts arcs.now (length text.old)) }
{
    text.fill(0);
    if !network_known(counts, arcs) {
        return Err(Fault::Foreign.into());
    }
    let count = wide(counts.arcs);
    let used = ARC_SIZE * count;
    let end = 32 + 32 * count;
    if text.len() < end {
        return Err(Fault::Short.into());
    }
    write_line(counts_row(counts), text);
    write_arcs(&arcs[..used], &mut text[32..end]);
    Ok(end)
}
