// Each table by itself: whether its words are some that reading leaves under a header.
ghost use Rattle.std.specs.Prelude.{◌≡◌, ◌≤◌, ◌^◌, T, ltb, length, take};
ghost use Rattle.definitions.specs.BookLines.{root_count};
ghost use Rattle.definitions.specs.ForeignTables.{header_known, node_table_known, class_table_known, plains_known};
ghost use Rattle.definitions.specs.ForeignTables.{plain_table_known, roots_known, root_table_known};
ghost use Rattle.definitions.specs.Lists.{every};

use crate::holding::holds_only;
use crate::nodes::nodes_known;
use crate::phones::{plain_known, roots_given};
use crate::records::{node_at, word_at};
use definitions::{Header, NODE_SIZE, wide};
use lines::Letters;
use lines::ranges::in_fixed_ranges;

// A header that an H line states.
pub fn header_known(header: Header) -> bool
    ensures { result ≡ header_known header }
{
    in_fixed_ranges(Letters::Book, header.into())
}

// Records that N and L lines leave, and nothing beyond them.
pub fn node_table_known(header: Header, words: &[u32]) -> bool
    ensures { result ≡ node_table_known header words.now }
{
    holds_only(words, NODE_SIZE * wide(header.nodes), 0)
        && nodes_known(header, |node| node_at(words, node))
}

// Sets that hold no phone beyond the header's: nothing is left of them when the phones but one are shifted
// out, but that one.
fn sets_within(sets: &[u64], phones: u32) -> bool
    requires { (1 ≤ phones) × (phones ≤ 64) }
    ensures { result ≡ every (λ set. ltb set (2 ^ phones)) sets.now }
{
    sets.iter().all(|set| *set >> (phones - 1) <= 1)
}

// Sets of the header's phones, and nothing beyond them.
#[tactic(auto, unfolding(definitions::specs::ForeignTables::class_table_known, definitions::specs::ForeignTables::holds_only))]
pub fn class_table_known(header: Header, sets: &[u64]) -> bool
    requires { T (header_known header) }
    ensures { result ≡ class_table_known header sets.now }
{
    let classes = wide(header.classes);
    holds_only(sets, classes, 0) && sets_within(&sets[..classes], header.phones)
}

// Plain phones that are no boundary phones, and none for silence.
fn plains_known(header: Header, plains: &[u32]) -> bool
    ensures { result ≡ plains_known header plains.now }
{
    word_at(plains, 0) == 0
        && plains
            .iter()
            .all(|plain| plain_known(header, plains, *plain))
}

// Plain phones that B lines name, and nothing beyond them.
#[tactic(auto, unfolding(definitions::specs::ForeignTables::plain_table_known, definitions::specs::ForeignTables::holds_only))]
pub fn plain_table_known(header: Header, words: &[u32]) -> bool
    ensures { result ≡ plain_table_known header words.now }
{
    let phones = wide(header.phones);
    holds_only(words, phones, 0) && plains_known(header, &words[..phones])
}

// The roots of all phones, each phone's as R lines leave them.
fn roots_known(header: Header, plains: &[u32], roots: &[u32]) -> bool
    requires { root_count header ≡ length roots.now }
    ensures { result ≡ roots_known header (take header.phones plains.now) roots.now }
{
    let phones = wide(header.phones);
    let states = wide(header.states);
    for i in 0..phones {
        let from = i * states;
        let end = from + states;
        if !roots_given(&roots[from..end], word_at(plains, i), header.nodes) {
            return false;
        }
    }
    true
}

// Roots that R lines leave beside these plain phones, and nothing beyond them.
pub fn root_table_known(header: Header, plains: &[u32], words: &[u32]) -> bool
    ensures { result ≡ root_table_known header (take header.phones plains.now) words.now }
{
    let roots = wide(header.phones) * wide(header.states);
    holds_only(words, roots, 0) && roots_known(header, plains, &words[..roots])
}
