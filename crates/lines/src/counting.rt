// Numbers counted from 1, as phones, states and classes are, as places counted from 0.
ghost use Rattle.std.specs.Prelude.{◌≡◌, ◌-◌, ◌<◌};
ghost use Rattle.definitions.specs.BookLines.{root_place};

use definitions::wide;

// A number counted from 1, as one counted from 0; 0 counts as 1.
pub fn from_zero(number: u32) -> usize
    ensures { result ≡ number - 1 }
{
    wide(number.saturating_sub(1))
}

// The place of a root, "in R order"; a phone or state 0 counts as 1. The next place is a number of 64 bits too.
pub fn root_place(states: u32, phone: u32, state: u32) -> usize
    ensures place { result ≡ root_place states phone state }
    ensures within { result < 18446744073709551615 }
{
    from_zero(phone) * wide(states) + from_zero(state)
}
