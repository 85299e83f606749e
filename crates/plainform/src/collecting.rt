// The sets that trees ask for, each once, in the order of their first use.
ghost use Rattle.std.specs.Prelude.{[], ◌∷◌, ◌+◌, ◌-◌, ◌≤◌, ◌<◌, length};
ghost use Rattle.definitions.specs.Lists.{◌!◌};
ghost use Rattle.definitions.specs.PlainForm.{sets_in};
ghost use Rattle.plainform.specs.Collecting.{Collected};
ghost use Rattle.plainform.specs.LentTrees.{tree_in, uses_in, Listed};

use crate::trees::LentTrees;
use definitions::NO_ROOT;
use tables::classes::set_of;
use tables::records::node_at;

// Notes the set of a class after those that were noted, unless it is one of them. Answers how many are noted.
// Sets and their count stay apart: the caller cuts the sets by the count that it is answered.
fn note_set(classes: &[u64], class: u32, sets: &mut [u64], used: usize) -> usize
    requires { used < length sets.old }
    ensures { Collected sets.old used ((classes.now ! (class - 1)) ∷ []) result sets.new }
{
    let set = set_of(classes, class);
    if sets[..used].contains(&set) {
        return used;
    }
    sets[used] = set;
    used + 1
}

impl<'t> LentTrees<'t> {
    // Notes the sets that the tree at a node asks for. Children are greater than their node, so the node count minus
    // the node falls at each call. The trees are lent, here and in numbering: a copy at each level took half as much
    // stack again.
    fn collect(&self, node: u32, sets: &mut [u64], used: usize) -> usize
        requires { (node < self.now.header.nodes)
            × (used + length (sets_in (tree_in self.now.header self.now.nodes.now self.now.classes.now node))
            ≤ length sets.old) }
        ensures { Collected sets.old used
            (sets_in (tree_in self.now.header self.now.nodes.now self.now.classes.now node)) result sets.new }
    {
        let record = node_at(self.nodes, node);
        if record.kind != 1 {
            return used;
        }
        let own = note_set(self.classes, record.value, sets, used);
        let left = self.collect(record.yes, sets, own);
        self.collect(record.no, sets, left)
    }

    // Notes the sets that the tree at a root asks for, if there is one.
    fn collect_root(&self, root: u32, sets: &mut [u64], used: usize) -> usize
        requires { Listed self.now.header (root ∷ [])
            × (used + length (uses_in self.now.header self.now.nodes.now self.now.classes.now (root ∷ []))
            ≤ length sets.old) }
        ensures { Collected sets.old used
            (uses_in self.now.header self.now.nodes.now self.now.classes.now (root ∷ [])) result sets.new }
    {
        if root == NO_ROOT {
            used
        } else {
            self.collect(root, sets, used)
        }
    }

    // Notes the sets that the trees at these roots ask for. Answers how many there are.
    pub fn collect_all(&self, roots: &[u32], sets: &mut [u64]) -> usize
        requires { Listed self.now.header roots.now
            × (length (uses_in self.now.header self.now.nodes.now self.now.classes.now roots.now)
            ≤ length sets.old) }
        ensures { Collected sets.old 0
            (uses_in self.now.header self.now.nodes.now self.now.classes.now roots.now) result sets.new }
    {
        let mut used = 0;
        for root in roots {
            used = self.collect_root(*root, sets, used);
        }
        used
    }
}
