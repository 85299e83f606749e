// An arc in the four words that it takes.
ghost use Rattle.std.specs.Prelude.{◌≡◌, ◌+◌, ◌*◌, ◌≤◌, length};
ghost use Rattle.definitions.specs.Arcs.{arc_size, arc_words};
ghost use Rattle.lines.specs.Putting.{put_at};
ghost use Rattle.arcs.specs.Arc.{the_arc};
ghost use Rattle.arcs.specs.Whole.{arc_at};

use crate::Arc;
use definitions::ARC_SIZE;

// The arc at a place.
pub fn arc_at(arcs: &[u32], place: usize) -> Arc
    requires { arc_size * place + arc_size ≤ length arcs.now }
    ensures { the_arc result ≡ arc_at arcs.now place }
{
    let at = ARC_SIZE * place;
    Arc {
        from: arcs[at],
        to: arcs[at + 1],
        model: arcs[at + 2],
        phone: arcs[at + 3],
    }
}

// Writes the words of an arc at a place.
pub fn put_arc(arcs: &mut [u32], place: usize, arc: Arc)
    requires { arc_size * place + arc_size ≤ length arcs.old }
    ensures { arcs.new ≡ put_at (arc_size * place) (arc_words (the_arc arc)) arcs.old }
{
    let at = ARC_SIZE * place;
    arcs[at] = arc.from;
    arcs[at + 1] = arc.to;
    arcs[at + 2] = arc.model;
    arcs[at + 3] = arc.phone;
}
