// The build program, from the bytes it reads to the bytes it prints.
#![tactic(auto)]

pub mod running;

// As many bytes as a book may have: a longer input is refused by 22.
pub const LONGEST_INPUT: usize = 65536;

// The bytes that are read of an input: one more than a book may have, so that a longer input is seen to be longer.
pub const BUFFER_SIZE: usize = LONGEST_INPUT + 1;

// The longest network text that is printed: a W line and 2000 A lines of 32 bytes.
pub const OUTPUT_SIZE: usize = 32 * (1 + 2000);

// What the program prints: the first `length` bytes; the others are 0.
#[derive(Clone, Copy)]
pub struct Output {
    pub bytes: [u8; OUTPUT_SIZE],
    // No heap: a fixed array, and how much of it is printed.
    pub length: usize,
}
