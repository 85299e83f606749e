// R lines that may be left out: those of boundary phones, all of a phone together.
ghost use Rattle.std.specs.Prelude.{◌≡◌, ◌≤◌};
ghost use Rattle.definitions.specs.BookReading.{left_out};
ghost use Rattle.definitions.specs.PhoneSets.{has};

use definitions::wide;
use matrix::sets::has_phone;

// Whether a set has a phone: a word has none beyond 64.
fn set_has(set: u64, phone: usize) -> bool
    ensures { result ≡ has phone set }
{
    phone <= 64 && has_phone(set, phone as u32)
}

// Whether from one place up to another stand whole phones, all of them boundary phones.
#[tactic(auto, unfolding(definitions::specs::BookReading::left_out))]
pub fn may_leave_out(boundaries: u64, states: u32, from: usize, to: usize) -> bool
    requires { 1 ≤ states }
    ensures { result ≡ left_out (λ p. has p boundaries) states from to }
{
    let states = wide(states);
    from == to
        || (from < to
            && from % states == 0
            && to % states == 0
            && (from / states..to / states).all(|i| set_has(boundaries, i + 1)))
}
