// Up to three arcs appended to lent arcs, within their room.
ghost use Rattle.std.specs.Prelude.{◌≡◌, ◌≤◌};
ghost use Rattle.growing.specs.Steps.{arc_room};
ghost use Rattle.turns.specs.Arcs.{ArcsAdded};

use crate::Arcs;
use definitions::{ARC_SIZE, Fault};
use growing::Sizes;
use growing::adding::arc_room;

// Appends new arcs after those that have grown, or 32 where not all have room.
pub fn add_arcs(arcs: &mut [u32], sizes: Sizes, new: Arcs) -> Result<Sizes, Fault>
    requires { (sizes.arcs ≤ arc_room arcs.old) × (new.count ≤ 3) }
    ensures { ArcsAdded sizes new arcs.old result arcs.new }
{
    let count = sizes.arcs + new.count;
    if arc_room(arcs.len()) < count {
        return Err(Fault::Tangle);
    }
    let used = ARC_SIZE * new.count;
    let from = ARC_SIZE * sizes.arcs;
    arcs[from..from + used].copy_from_slice(&new.words[..used]);
    Ok(Sizes {
        table: sizes.table,
        arcs: count,
    })
}
