// Chains: the first half of `chains` has for each head the latest element of that head, the second half for each
// element the one before it of the same head. Places in it count from 1 and 0 ends a chain, since a lent word holds no
// Option. An element's head is its key, cut to the number of heads, which is a power of 2.
ghost use Rattle.std.specs.Prelude.{◌≡◌, ◌<◌};
ghost use Rattle.growing.specs.Chains.{head_of, heads_in, linked_to};

// The head of a key's chain, of so many.
pub fn head_of(heads: usize, key: usize) -> usize
    requires { 0 < heads }
    ensures { (result ≡ head_of heads key) × (result < heads) }
{
    key & (heads - 1)
}

// Puts the element that stands at a place, with this key, at the front of its chain.
// No map of the library: it takes heap, and chains stand in lent words and arrays.
pub fn link(chains: &mut [u32], place: usize, key: usize)
    requires { (place < heads_in chains.old) × (place < 4294967295) }
    ensures { chains.new ≡ linked_to (heads_in chains.old) chains.old place key }
{
    let heads = chains.len() / 2;
    let head = head_of(heads, key);
    chains[heads + place] = chains[head];
    chains[head] = (place + 1) as u32;
}
