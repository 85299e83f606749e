// A move into a joined state, unless it enters FINAL with anything but 0, 2.
ghost use Rattle.std.specs.Prelude.{not, [], ◌∷◌, ◌≡◌};
ghost use Rattle.definitions.specs.Joining.{step, joined, may_enter, move_by};
ghost use Rattle.marks.specs.Wanting.{mark_of};
ghost use Rattle.joined.specs.Joins.{Grows, Left, Holding};
ghost use Rattle.moves.specs.Moving.{hop_arc, moved, allowed};

use crate::Hop;
use definitions::Fault;
use joined::{Join, Joined};
use marks::{CLOSED, Mark};

// Whether FINAL may not be entered with a mark.
fn is_barred(to: u32, mark: Mark) -> bool
    ensures { not result ≡ may_enter (joined to mark.word mark.mark) }
{
    to == 1 && mark != CLOSED
}

// Enters the joined state that an arc and a mark lead to, where it may be entered. Inlined, as `enter` is: as
// calls, with the join in memory, they made large joins a third slower.
#[inline(always)]
pub fn move_into(join: &mut Join, hop: Hop, mark: Mark, label: u32) -> Result<(), Fault>
    requires { Grows join.old }
    ensures left { Left join.old
        (moved join.old hop.from (allowed (move_by (hop_arc hop) (step label (mark_of mark)) ∷ [])))
        result join.new }
    ensures same { Holding join.old join.new }
{
    if is_barred(hop.arc.to, mark) {
        return Ok(());
    }
    let target = Joined {
        state: hop.arc.to,
        word: mark.word,
        mark: mark.mark,
    };
    join.enter(hop.from, target, hop.arc.model, label)
}
