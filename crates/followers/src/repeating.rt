// Metastates with the same shifted matrix have the same followers, so the arcs to the followers of one are
// copied for the next, with another source: no matrices meet, and no metastate is looked for. `spans` has
// slots of three words: a metastate, its place counted from 1, since a lent word holds no Option, and where the arcs to
// its followers begin and end. Where a metastate is noted depends on its shifted matrix, but is only a matter of speed: what a slot
// has is compared before it is used.
ghost use Rattle.std.specs.Prelude.{◌≡◌, ◌+◌, ◌*◌, ◌≤◌, ◌<◌, length};
ghost use Rattle.definitions.specs.Building.{most_metastates};
ghost use Rattle.metastates.specs.Outcomes.{followed_on};
ghost use Rattle.followers.specs.Spans.{span_size, SlotWithin, span_in, noted_in};
ghost use Rattle.followers.specs.Repeating.{with_copies, Copyable, Repeatable, Repeated};
ghost use Rattle.followers.specs.Repeating.{Repeats, Notable};
ghost use Rattle.followers.specs.Turns.{TurnLeft, Onward};

use crate::following::follow;
use crate::{Expanded, Search, Source, Span};
use arcs::Arc;
use arcs::putting::{arc_at, put_arc};
use definitions::sizes::metastate_size;
use definitions::{Fault, Header, wide};
use growing::Sizes;
use growing::adding::arc_room;
use index::records::metastate_at;
use matrix::Matrix;
use matrix::sets::all_phones;
use metastates::adding::last_state;
use metastates::chains::key_of;

// How many words a span takes.
pub const SPAN_SIZE: usize = 3;

// Appends copies of `many` arcs, from the first on, with another source.
fn copy_span(arcs: &mut [u32], count: usize, first: usize, many: usize, from: u32)
    requires { Copyable arcs.old count first many }
    ensures { arcs.new ≡ with_copies arcs.old count first many from }
{
    for i in 0..many {
        let arc = arc_at(arcs, first + i);
        put_arc(arcs, count + i, Arc { from, ..arc });
    }
}

// The arcs of a span once more, with another source, if they have room.
fn repeat(arcs: &mut [u32], sizes: Sizes, span: Span, from: u32) -> Result<Sizes, Fault>
    requires { Repeatable sizes span.first span.end arcs.old }
    ensures { Repeated sizes span.first span.end from arcs.old result arcs.new }
{
    let many = span.end - span.first;
    if arc_room(arcs.len()) < sizes.arcs + many {
        return Err(Fault::Tangle);
    }
    copy_span(arcs, sizes.arcs, span.first, many, from);
    Ok(Sizes {
        table: sizes.table,
        arcs: sizes.arcs + many,
    })
}

// The span in a slot, if one is noted there.
fn span_at(spans: &[u32], slot: usize) -> Option<Span>
    requires { SlotWithin spans.now slot }
    ensures { result ≡ span_in spans.now slot }
{
    let at = SPAN_SIZE * slot;
    let place = wide(spans[at]).checked_sub(1)?;
    Some(Span {
        place,
        first: wide(spans[at + 1]),
        end: wide(spans[at + 2]),
    })
}

// Whether the metastate at a place has this matrix after the shift.
fn repeats(header: Header, metastates: &[u64], place: usize, shifted: Matrix) -> bool
    requires { header.half ≤ 3 }
    ensures { Repeats header metastates.now place shifted.columns result }
{
    if metastates.len() / metastate_size(header.half) <= place {
        return false;
    }
    let own = metastate_at(header.half, metastates, place).met;
    own.shift(2 * wide(header.half), all_phones(header.phones)) == shifted
}

// The slot for a shifted matrix: where it is noted, or the first empty one of the next few, or else the one
// of its key.
fn slot_for(header: Header, metastates: &[u64], spans: &[u32], shifted: Matrix) -> usize
    requires { (header.half ≤ 3) × (span_size ≤ length spans.now) }
    ensures { SlotWithin spans.now result × (result ≤ most_metastates) }
{
    let slots = spans.len() / SPAN_SIZE;
    let own = key_of(0, shifted) % slots;
    for i in 0..8 {
        let slot = (own + i) % slots;
        match span_at(spans, slot) {
            Some(span) if !repeats(header, metastates, span.place, shifted) => {}
            _ => return slot,
        }
    }
    own
}

// Notes a span in a slot.
fn note_span(spans: &mut [u32], slot: usize, span: Span)
    requires { Notable spans.old slot span.place span.first span.end }
    ensures { spans.new ≡ noted_in spans.old slot span.place span.first span.end }
{
    let at = SPAN_SIZE * slot;
    spans[at] = (span.place + 1) as u32;
    spans[at + 1] = span.first as u32;
    spans[at + 2] = span.end as u32;
}

// Appends the arcs from a metastate's last state to its followers, as `follow` does: copied where an earlier
// metastate with the same shifted matrix is noted, else entered one by one and noted.
pub fn follow_on(
    search: Search,
    metastates: &mut [u64],
    arcs: &mut [u32],
    chains: &mut [u32],
    spans: &mut [u32],
    expanded: Expanded,
) -> Result<Sizes, Fault>
    requires { Onward search.rules.header search.rules.nodes.now search.rules.combinations.now search.index.now
        metastates.old arcs.old chains.old spans.old expanded.sizes expanded.place expanded.shifted.columns }
    ensures { TurnLeft search.entry.rules.header search.entry.rules.nodes.now search.entry.rules.combinations.now
        metastates.old arcs.old chains.old spans.old
        (followed_on search.entry.rules.header search.entry.rules.nodes.now search.entry.rules.combinations.now
        metastates.old arcs.old expanded.sizes expanded.place expanded.shifted.columns)
        result metastates.new arcs.new chains.new spans.new }
{
    let Expanded {
        place,
        shifted,
        sizes,
    } = expanded;
    let header = search.rules.header;
    let slot = slot_for(header, metastates, spans, shifted);
    let from = last_state(header, place);
    if let Some(span) = span_at(spans, slot)
        && repeats(header, metastates, span.place, shifted)
    {
        return repeat(arcs, sizes, span, from);
    }
    let source = Source { state: from, sizes };
    let next = follow(search, metastates, arcs, chains, source, shifted)?;
    let first = sizes.arcs;
    note_span(
        spans,
        slot,
        Span {
            place,
            first,
            end: next.arcs,
        },
    );
    Ok(next)
}
