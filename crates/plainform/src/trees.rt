// The trees that lent words hold.
ghost use Rattle.std.specs.Prelude.{T};
ghost use Rattle.definitions.specs.Tables.{node_records};
ghost use Rattle.definitions.specs.ForeignTables.{nodes_known};

use definitions::Header;

// A header, the known records of its nodes, and the sets of its classes. Roots are given beside them: some may be left
// out here, as the roots in force of crate tables never are.
#[derive(Clone, Copy)]
pub struct LentTrees<'t> {
    pub header: Header,
    pub nodes: &'t [u32],
    pub classes: &'t [u64],
    ghost known: { T (nodes_known header 0 (node_records header nodes.now)) },
}
