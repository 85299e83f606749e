// Arcs appended to lent arcs, within their room.
ghost use Rattle.std.specs.Prelude.{◌≡◌, ◌/◌, ◌≤◌, min};
ghost use Rattle.definitions.specs.Arcs.{arc_size};
ghost use Rattle.definitions.specs.Building.{most_arcs};
ghost use Rattle.arcs.specs.Arc.{the_arc};
ghost use Rattle.growing.specs.Steps.{arc_room, ArcAdded};

use crate::Sizes;
use arcs::Arc;
use arcs::putting::put_arc;
use definitions::{ARC_SIZE, Fault, MOST_ARCS};

// How many arcs the lent words have room for.
// Beside the room for combinations, metastates and joined states: one line each, of sizes of their own.
pub fn arc_room(words: usize) -> usize
    ensures { result ≡ min (words / arc_size) most_arcs }
{
    (words / ARC_SIZE).min(MOST_ARCS)
}

// Appends an arc after those that have grown, or 32 where it has no room.
pub fn add_arc(arcs: &mut [u32], sizes: Sizes, arc: Arc) -> Result<Sizes, Fault>
    requires { sizes.arcs ≤ arc_room arcs.old }
    ensures { ArcAdded sizes (the_arc arc) arcs.old result arcs.new }
{
    if arc_room(arcs.len()) <= sizes.arcs {
        return Err(Fault::Tangle);
    }
    put_arc(arcs, sizes.arcs, arc);
    Ok(Sizes {
        table: sizes.table,
        arcs: sizes.arcs + 1,
    })
}
