// Lent words that are used only up to a place.
ghost use Rattle.std.specs.Prelude.{◌&&◌, ◌≡◌, leb, length, drop};
ghost use Rattle.definitions.specs.Lists.{every};

// At least `count` words, and `zero`, which is 0, in every word beyond them: `holds_only`.
pub fn holds_only<T: Copy + PartialEq>(words: &[T], count: usize, zero: T) -> bool
    ensures { result ≡ (leb count (length words.now)
        && every (λ word. T.eq word zero) (drop count words.now)) }
{
    count <= words.len() && words[count..].iter().all(|word| *word == zero)
}
