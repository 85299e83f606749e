// Metastates are found through chains. A metastate's key takes in its columns one by one, turned by 26 bits for each,
// so that the phones of neighbouring columns seldom meet; its remainder by 65521, the largest prime below 65536,
// spreads.
ghost use Rattle.std.specs.Prelude.{◌∷◌, ◌≡◌, ◌≤◌, ◌<◌};
ghost use Rattle.matrix.specs.Shapes.{width_of, HasWidth};
ghost use Rattle.definitions.specs.Lists.{same};
ghost use Rattle.definitions.specs.Metastates.{metastate_size, metastate_words};
ghost use Rattle.index.specs.RecordWords.{RecordWithin, record_of};
ghost use Rattle.growing.specs.Chains.{elements_in, Findable, Found};
ghost use Rattle.metastates.specs.Keys.{key_of};
ghost use Rattle.metastates.specs.Networks.{metastate_with, metastate_code};

use definitions::sizes::metastate_size;
use growing::finding::walk;
use index::records::record_at;
use matrix::Matrix;
use matrix::words::is_numbered;

// The key of a metastate.
pub fn key_of(number: u64, m: Matrix) -> usize
    ensures { (result ≡ key_of (number ∷ m.columns)) × (result < 65521) }
{
    let mut key = number;
    for column in m.columns {
        key = (key << 26) ^ (key >> 38) ^ column;
    }
    (key % 65521) as usize
}

// Whether the words at a place are those of a metastate.
fn stands_at(half: u32, metastates: &[u64], place: usize, number: u64, m: Matrix) -> bool
    requires { RecordWithin (metastate_size half) metastates.now place × HasWidth (width_of half) m.columns
        × (half ≤ 3) }
    ensures { result ≡ same (record_of (metastate_size half) metastates.now place)
        (metastate_words half (metastate_with half number m.columns)) }
{
    let record = record_at(metastates, metastate_size(half), place);
    is_numbered(record, number, m)
}

// The place of a metastate in the table, or none where it is new.
pub fn find(half: u32, metastates: &[u64], chains: &[u32], number: u64, m: Matrix) -> Option<usize>
    requires { Findable (metastate_code half) metastates.now chains.now × HasWidth (width_of half) m.columns
        × (half ≤ 3) }
    ensures { Found (metastate_code half) (elements_in (metastate_code half) metastates.now)
        (metastate_with half number m.columns) result }
{
    walk(
        chains,
        key_of(number, m),
        |place| stands_at(half, metastates, place, number, m),
    )
}
