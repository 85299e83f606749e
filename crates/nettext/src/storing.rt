// A line's arc put into the lent arcs.
ghost use Rattle.std.specs.Prelude.{◌≡◌, length};
ghost use Rattle.nettext.specs.Entries.{entry_line};
ghost use Rattle.nettext.specs.Storing.{HasRoom, arcs_after};

use crate::Entry;
use arcs::putting::put_arc;

impl Entry {
    // One line more in the arcs, where so many were there.
    pub fn store(self, before: usize, arcs: &mut [u32])
        requires { HasRoom before (length arcs.old) (entry_line self) }
        ensures { arcs.new ≡ arcs_after before (entry_line self) arcs.old }
    {
        if let Entry::A(arc) = self {
            put_arc(arcs, before, arc);
        }
    }
}
