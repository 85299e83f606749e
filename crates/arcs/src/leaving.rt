// The arcs that leave a state, handed out as a part of the lent arcs: 18, then 42.
ghost use Rattle.std.specs.Prelude.{◌≡◌, ◌+◌, ◌*◌, T};
ghost use Rattle.definitions.specs.Arcs.{arc_size};
ghost use Rattle.definitions.specs.Faults.{fault_of, fault_line};
ghost use Rattle.definitions.specs.Leaving.{leaving, part_handed, part_words};
ghost use Rattle.definitions.specs.NetworkText.{never_descending};
ghost use Rattle.definitions.specs.Said.{result_of};
ghost use Rattle.arcs.specs.Below.{below};
ghost use Rattle.arcs.specs.Spans.{span_at};
ghost use Rattle.arcs.specs.Whole.{all_arcs};

use crate::Span;
use crate::known::{is_state, network_known};
use definitions::{ARC_SIZE, Counts, Fault, Refusal, wide};

// How many arcs have a source below a state, by bisection: sources never descend. (The library bisects single elements,
// not records of four words.)
pub fn arcs_below(arcs: &[u32], state: usize) -> usize
    requires { T (never_descending (all_arcs arcs.now)) }
    ensures { result ≡ below state (all_arcs arcs.now) }
{
    let mut low = 0;
    let mut high = arcs.len() / ARC_SIZE;
    while low < high {
        let middle = low + (high - low) / 2;
        if wide(arcs[ARC_SIZE * middle]) < state {
            low = middle + 1;
        } else {
            high = middle;
        }
    }
    low
}

// Where the arcs that leave a state stand.
pub fn part_leaving(counts: Counts, arcs: &[u32], state: u32) -> Result<Span, Refusal>
    ensures { result ≡ result_of span_at (leaving counts arcs.now state) }
{
    if !network_known(counts, arcs) {
        return Err(Fault::Foreign.into());
    }
    if !is_state(counts, state) {
        return Err(Fault::State.into());
    }
    let used = &arcs[..ARC_SIZE * wide(counts.arcs)];
    let first = arcs_below(used, wide(state));
    let end = arcs_below(used, wide(state) + 1);
    Ok(Span {
        start: ARC_SIZE * first,
        length: ARC_SIZE * (end - first),
    })
}

// Hands out the arcs that leave a state; `fault` and `line` become 0, or the number and line of the fault. The part's
// address says where it stands, also where it has no arcs. Fault and line stand beside the part, and not in an Err, since
// a part is promised on a refusal too.
pub fn leaving<'a>(
    counts: Counts,
    arcs: &'a [u32],
    state: u32,
    fault: &mut u32,
    line: &mut usize,
) -> &'a [u32]
    ensures fault { fault.new ≡ fault_of (leaving counts arcs.now state) }
    ensures line { line.new ≡ fault_line (leaving counts arcs.now state) }
    ensures address { result.ref_ptr ≡ (
      arcs.entry.ref_ptr.0,
      arc_size * (part_handed (leaving counts arcs.now state)).start * 4 + arcs.entry.ref_ptr.1,
    ) }
    ensures part { result.now ≡ part_words arcs.now (part_handed (leaving counts arcs.now state)) }
{
    match part_leaving(counts, arcs, state) {
        Ok(span) => {
            *fault = 0;
            *line = 0;
            &arcs[span.start..span.start + span.length]
        }
        Err(refusal) => {
            *fault = refusal.fault.into();
            *line = refusal.line;
            &arcs[..0]
        }
    }
}
