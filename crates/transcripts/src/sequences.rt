// Whether phones are an utterance; and the phones around a place, silence beyond either end.
ghost use Rattle.std.specs.Prelude.{[], ◌≡◌, ◌+◌, ◌*◌, ◌≤◌, ◌<◌, length, get_or};
ghost use Rattle.definitions.specs.Lists.{◌!◌};
ghost use Rattle.definitions.specs.Transcription.{is_utterance};
ghost use Rattle.definitions.specs.TreesGive.{contexts};

use definitions::MOST_SOUNDS;
use trees::contexts::are_phones;

// Whether these are phones of the book with silence at both ends, and no more than can be counted for.
#[tactic(auto, unfolding(definitions::specs::Transcription::is_utterance, definitions::specs::TreesGive::silent_ends))]
pub fn is_utterance(phones: u32, sequence: &[u32]) -> bool
    ensures { result ≡ is_utterance phones sequence.now }
{
    let count = sequence.len();
    0 < count
        && count <= MOST_SOUNDS
        && are_phones(sequence, phones)
        && sequence[0] == 1
        && sequence[count - 1] == 1
}

// The phone in a column of the context of a place.
fn phone_at(sequence: &[u32], half: usize, place: usize, column: usize) -> u32
    requires { (half ≤ 3) × (place < length sequence.now) × (column < 2 * half + 1) }
    ensures { result ≡ get_or (contexts half sequence.now) place [] ! column }
{
    let around = place + column;
    if around < half {
        return 1;
    }
    sequence.get(around - half).copied().unwrap_or(1)
}

// The context of a place: 2n+1 phones, silence beyond either end.
pub fn fill_context(sequence: &[u32], half: usize, place: usize, context: &mut [u32])
    requires { (half ≤ 3) × (place < length sequence.now) × (length context.old ≡ 2 * half + 1) }
    ensures { context.new ≡ get_or (contexts half sequence.now) place [] }
{
    for column in 0..context.len() {
        context[column] = phone_at(sequence, half, place, column);
    }
}
