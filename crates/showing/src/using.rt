// How much of a buffer is used.
ghost use Rattle.std.specs.Prelude.{◌≡◌, ◌==◌, ◌≤◌, ℕ, length, map};
ghost use Rattle.showing.specs.Used.{used_of};

use std::fmt;

// The numbers that buffers hold.
pub trait Number: Copy + fmt::Display {
    ghost value: { Self → ℕ };

    fn is_zero(self) -> bool
        ensures { result ≡ (value self == 0) };
}

impl Number for u8 {
    ghost value = { λ n. n };

    fn is_zero(self) -> bool {
        self == 0
    }
}

impl Number for u32 {
    ghost value = { λ n. n };

    fn is_zero(self) -> bool {
        self == 0
    }
}

impl Number for u64 {
    ghost value = { λ n. n };

    fn is_zero(self) -> bool {
        self == 0
    }
}

// How many numbers come before the zeros at the end: none where all are cleared.
pub fn used<N: Number>(numbers: &[N]) -> usize
    ensures within { result ≤ length numbers.now }
    ensures used { result ≡ used_of (map N.value numbers.now) }
{
    for i in (0..numbers.len()).rev() {
        if !numbers[i].is_zero() {
            return i + 1;
        }
    }
    0
}
