// The test for foreign arcs (18): whether lent arcs, with their counts, are some that the network reader leaves.
ghost use Rattle.std.specs.Prelude.{◌≡◌, ◌&&◌, [], ◌∷◌, ◌/◌, length};
ghost use Rattle.definitions.specs.Arcs.{arc_size, arc_words, arcs_in};
ghost use Rattle.definitions.specs.Forms.{form_w, form_a};
ghost use Rattle.definitions.specs.Lines.{in_ranges};
ghost use Rattle.definitions.specs.Lists.{every};
ghost use Rattle.definitions.specs.NetworkText.{is_state, arc_known, never_descending, network_known};
ghost use Rattle.arcs.specs.Arc.{the_arc};

use crate::Arc;
use crate::putting::arc_at;
use definitions::{ARC_SIZE, Counts, MOST_MODEL, MOST_PHONE, wide};
use lines::Letters;
use lines::ranges::in_fixed_ranges;
use tables::holding::holds_only;

// Counts that a W line states.
fn counts_known(counts: Counts) -> bool
    ensures { result ≡ in_ranges form_w.fields (counts.states ∷ counts.metastates ∷ counts.arcs ∷ []) }
{
    in_fixed_ranges(Letters::Network, counts.into())
}

// Whether the network has a state.
pub fn is_state(counts: Counts, state: u32) -> bool
    ensures { result ≡ is_state counts state }
{
    wide(state) < 2 + wide(counts.states) * wide(counts.metastates)
}

// The greatest state that an A line names.
const MOST_STATE: u32 = 196606;

// Whether the words of an arc lie in the fixed ranges of an A line. The ranges are written out, since every lent arc
// is tested.
fn arc_ranged(arc: Arc) -> bool
    ensures { result ≡ in_ranges form_a.fields (arc_words (the_arc arc)) }
{
    arc.from <= MOST_STATE
        && arc.to <= MOST_STATE
        && arc.model <= MOST_MODEL
        && arc.phone <= MOST_PHONE
}

// Whether the words of an arc are some that an A line leaves.
fn arc_known(counts: Counts, arc: Arc) -> bool
    ensures { result ≡ arc_known counts (the_arc arc) }
{
    arc_ranged(arc) && is_state(counts, arc.from) && is_state(counts, arc.to)
}

// Whether all arcs are such, and their sources never descend.
fn arcs_known(counts: Counts, arcs: &[u32]) -> bool
    ensures { result ≡ (every (arc_known counts) (arcs_in (length arcs.now / arc_size) arcs.now)
        && never_descending (arcs_in (length arcs.now / arc_size) arcs.now)) }
{
    let mut last = 0;
    for i in 0..arcs.len() / ARC_SIZE {
        let arc = arc_at(arcs, i);
        if !arc_known(counts, arc) || arc.from < last {
            return false;
        }
        last = arc.from;
    }
    true
}

// Whether the network reader leaves these arcs under these counts. (Counts and arcs stay two parameters here and in
// `leaving`, since docs/ names these functions and what they take.)
pub fn network_known(counts: Counts, arcs: &[u32]) -> bool
    ensures { result ≡ network_known counts arcs.now }
{
    let used = ARC_SIZE * wide(counts.arcs);
    counts_known(counts) && holds_only(arcs, used, 0) && arcs_known(counts, &arcs[..used])
}
