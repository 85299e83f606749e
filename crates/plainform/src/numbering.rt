// Trees numbered anew, depth first and yes before no: their node records and roots, put into tables.
ghost use Rattle.std.specs.Prelude.{[], ◌∷◌, ◌≡◌, ◌≤◌, ◌<◌, length};
ghost use Rattle.definitions.specs.PlainForm.{size_of, all_nodes, roots_from};
ghost use Rattle.lines.specs.Putting.{put_at};
ghost use Rattle.plainform.specs.LentTrees.{tree_in, trees_in, there_in, Listed};
ghost use Rattle.plainform.specs.Numbering.{all_words, start_of, Numberable, Numbered, NumberedTrees};

use crate::sets::class_among;
use crate::trees::LentTrees;
use definitions::NO_ROOT;
use tables::records::{leaf_node, node_at, put_node, question_node};

// The new root for a root, where the next node has number `at`.
fn start_of(root: u32, at: u32) -> u32
    ensures { result ≡ start_of root at }
{
    if root == NO_ROOT { NO_ROOT } else { at }
}

impl<'t> LentTrees<'t> {
    // Puts the records of the tree at a node into a table, its root as number `at`, where the classes have these sets.
    // Answers the number after the last. Children are greater than their node, so the node count minus the node falls
    // at each call.
    fn number(&self, node: u32, sets: &[u64], table: &mut [u32], at: u32) -> u32
        requires { (node < self.now.header.nodes)
            × Numberable sets.now at (size_of (tree_in self.now.header self.now.nodes.now self.now.classes.now node)) table.old }
        ensures { Numbered sets.now at
            (tree_in self.now.header self.now.nodes.now self.now.classes.now node)
            table.old result table.new }
    {
        let record = node_at(self.nodes, node);
        if record.kind != 1 {
            put_node(table, at, leaf_node(record.value));
            return at + 1;
        }
        let middle = self.number(record.yes, sets, table, at + 1);
        let class = class_among(self.classes, sets, record.value);
        put_node(
            table,
            at,
            question_node(class, record.position, at + 1, middle),
        );
        self.number(record.no, sets, table, middle)
    }

    // Puts the records of the tree at a root, if there is one, as `number` does.
    fn number_root(&self, root: u32, sets: &[u64], table: &mut [u32], at: u32) -> u32
        requires { Listed self.now.header (root ∷ [])
            × Numberable sets.now at
            (length (all_nodes sets.now at
            (there_in self.now.header self.now.nodes.now self.now.classes.now (root ∷ []))))
            table.old }
        ensures { NumberedTrees sets.now at
            (there_in self.now.header self.now.nodes.now self.now.classes.now (root ∷ []))
            table.old result table.new }
    {
        if root == NO_ROOT {
            at
        } else {
            self.number(root, sets, table, at)
        }
    }

    // Puts the records of the trees at these roots into a table, one tree after the other, and their new roots into
    // another.
    pub fn number_all(&self, roots: &[u32], sets: &[u64], table: &mut [u32], starts: &mut [u32])
        requires { Listed self.now.header roots.now
            × Numberable sets.now 0
            (length (all_nodes sets.now 0
            (there_in self.now.header self.now.nodes.now self.now.classes.now roots.now))) table.old
            × (length roots.now ≤ length starts.old) }
        ensures table { table.new ≡ put_at 0
            (all_words sets.now 0
            (there_in self.now.header self.now.nodes.now self.now.classes.now roots.now))
            table.old }
        ensures starts { starts.new ≡ put_at 0
            (roots_from 0 (trees_in self.now.header self.now.nodes.now self.now.classes.now roots.now))
            starts.old }
    {
        let mut at = 0;
        for (i, root) in roots.iter().enumerate() {
            starts[i] = start_of(*root, at);
            at = self.number_root(*root, sets, table, at);
        }
    }
}
