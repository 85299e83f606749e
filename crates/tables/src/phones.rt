// A phone's words: its plain phone, and its roots; whether B and R lines leave them.
ghost use Rattle.std.specs.Prelude.{◌&&◌, ◌||◌, not, ◌≡◌, ltb, eqb};
ghost use Rattle.definitions.specs.BookLines.{no_root};
ghost use Rattle.definitions.specs.ForeignTables.{plain_known};
ghost use Rattle.definitions.specs.Lists.{every};

use crate::records::word_at;
use definitions::{Header, NO_ROOT};
use lines::counting::from_zero;

// A plain phone that a B line names: a phone that is no boundary phone; or 0.
#[tactic(auto, unfolding(definitions::specs::ForeignTables::plain_known))]
pub fn plain_known(header: Header, plains: &[u32], plain: u32) -> bool
    ensures { result ≡ plain_known header plains.now plain }
{
    plain <= header.phones && word_at(plains, from_zero(plain)) == 0
}

// Numbers below a bound.
fn all_below(words: &[u32], bound: u32) -> bool
    ensures { result ≡ every (λ word. ltb word bound) words.now }
{
    words.iter().all(|word| *word < bound)
}

// Roots that no R line gives.
fn all_left_out(roots: &[u32]) -> bool
    ensures { result ≡ every (λ root. eqb root no_root) roots.now }
{
    roots.iter().all(|root| *root == NO_ROOT)
}

// A phone's roots that R lines leave in a book of so many nodes: they are nodes, or a boundary phone's left out all
// together.
pub fn roots_given(roots: &[u32], plain: u32, nodes: u32) -> bool
    ensures { result ≡ (every (λ root. ltb root nodes) roots.now
        || (not (eqb plain 0) && every (λ root. eqb root no_root) roots.now)) }
{
    all_below(roots, nodes) || (plain != 0 && all_left_out(roots))
}
