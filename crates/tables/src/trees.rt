// The trees of a book in force, which every walk goes over.
ghost use Rattle.std.proofs.Props.{props};
ghost use Rattle.tables.specs.Known.{Distinct-prop};
ghost use Rattle.tables.specs.Usable.{Fit};

use definitions::Header;

// A book's header, with its records, its classes and the roots in force of all phones and states, as they are lent. They
// fit the header, so walks need no more tests.
#[derive(Clone, Copy)]
pub struct Trees<'a> {
    pub header: Header,
    pub nodes: &'a [u32],
    pub classes: &'a [u64],
    pub roots: &'a [u32],
    ghost fit: { Fit header nodes.now classes.now roots.now } by { Prim.hlevel (props, Distinct-prop) },
}
