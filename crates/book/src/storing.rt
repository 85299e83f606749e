// A line's words put into the lent tables, and its names counted.
ghost use Rattle.std.specs.Prelude.{◌≡◌, ◌-◌, ◌≤◌, length, set, replicate};
ghost use Rattle.std.specs.Int.Bits.{bit_or};
ghost use Rattle.definitions.specs.Lists.{◌!◌};
ghost use Rattle.definitions.specs.PhoneSets.{alone};
ghost use Rattle.definitions.specs.BookLines.{root_count, no_root};
ghost use Rattle.lines.specs.Putting.{put_at};
ghost use Rattle.book.specs.Tables.{lengths_in, SameLent};
ghost use Rattle.booklines.specs.Entries.{entry_line};
ghost use Rattle.book.specs.Storing.{HasRoom, nodes_after, classes_after, roots_after, plains_after, counts_after};

use crate::Tables;
use booklines::{Entry, Member};
use definitions::{Header, NO_ROOT, wide};
use lines::counting::{from_zero, root_place};
use matrix::sets::alone;
use tables::naming::name_node;
use tables::records::{leaf_node, put_node, question_node};

// A phone put into the set of a class.
fn put_member(sets: &mut [u64], member: Member)
    requires { (1 ≤ member.class) × (member.class ≤ length sets.old)
        × (1 ≤ member.phone) × (member.phone ≤ 64) }
    ensures { sets.new
        ≡ set sets.old (member.class - 1) (bit_or (sets.old ! (member.class - 1)) (alone member.phone)) }
{
    sets[from_zero(member.class)] |= alone(member.phone);
}

// Words for all roots, which no R line has given yet.
fn put_no_roots(roots: &mut [u32], header: Header)
    requires { root_count header ≤ length roots.old }
    ensures { roots.new ≡ put_at 0 (replicate (root_count header) no_root) roots.old }
{
    let end = wide(header.phones) * wide(header.states);
    roots[..end].fill(NO_ROOT);
}

impl Tables<'_> {
    // One line more in the tables and counts, where there are so many states.
    #[tactic(auto, unfolding(booklines::specs::Entries::entry_line, crate::specs::Storing::nodes_after, crate::specs::Storing::classes_after, crate::specs::Storing::roots_after, crate::specs::Storing::plains_after, crate::specs::Storing::counts_after, crate::specs::Storing::names_in, tables::specs::Naming::named_all, definitions::specs::BookLines::header_in))]
    pub fn store(&mut self, states: u32, entry: Entry, counts: &mut [u32])
        requires { HasRoom states (lengths_in self.old) (entry_line entry) }
        ensures same { SameLent self.new self.old }
        ensures nodes { self.new.nodes.now ≡ nodes_after (entry_line entry) self.old.nodes.now }
        ensures classes { self.new.classes.now ≡ classes_after (entry_line entry) self.old.classes.now }
        ensures roots { self.new.roots.now ≡ roots_after states (entry_line entry) self.old.roots.now }
        ensures plains { self.new.plains.now ≡ plains_after (entry_line entry) self.old.plains.now }
        ensures counts { counts.new ≡ counts_after (entry_line entry) counts.old }
    {
        match entry {
            Entry::H(header) => put_no_roots(self.roots, header),
            Entry::Q(member) => put_member(self.classes, member),
            Entry::N {
                node,
                class,
                position,
                yes,
                no,
            } => {
                put_node(self.nodes, node, question_node(class, position, yes, no));
                name_node(counts, yes);
                name_node(counts, no);
            }
            Entry::L { node, model } => put_node(self.nodes, node, leaf_node(model)),
            Entry::B { boundary, plain } => self.plains[from_zero(boundary)] = plain,
            Entry::R { phone, state, root } => {
                self.roots[root_place(states, phone, state)] = root;
                name_node(counts, root);
            }
        }
    }
}
