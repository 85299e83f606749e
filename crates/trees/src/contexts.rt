// Whether phones are phones of the book, and whether they are a context.
ghost use Rattle.std.specs.Prelude.{◌≡◌};
ghost use Rattle.definitions.specs.BookLines.{is_phone};
ghost use Rattle.definitions.specs.Lists.{every};
ghost use Rattle.definitions.specs.Lookup.{is_context};

use definitions::{Header, wide};

// Whether all are phones of the book.
pub fn are_phones(sequence: &[u32], phones: u32) -> bool
    ensures { result ≡ every (is_phone phones) sequence.now }
{
    sequence.iter().all(|phone| 1 <= *phone && *phone <= phones)
}

// Whether these are 2n+1 phones of the book.
#[tactic(auto, unfolding(definitions::specs::Lookup::is_context))]
pub fn is_context(header: Header, context: &[u32]) -> bool
    ensures { result ≡ is_context header context.now }
{
    context.len() == 2 * wide(header.half) + 1 && are_phones(context, header.phones)
}
