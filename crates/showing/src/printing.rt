// Numbers on standard output. Each function answers the error of a write that fails, and prints nothing after it.
use crate::using::{Number, used};
use std::{fmt, io};

// Each after a space.
pub fn print_numbers<N: fmt::Display>(rt: &impl Print, numbers: &[N]) -> io::Result<()> {
    for number in numbers {
        print!(rt; " {number}")?;
    }
    Ok(())
}

// The numbers up to the last that is not 0, and how many are after it.
pub fn print_used<N: Number>(rt: &impl Print, numbers: &[N]) -> io::Result<()> {
    let used = used(numbers);
    print_numbers(rt, &numbers[..used])?;
    println!(rt; ", then 0 to the end: {}", numbers.len() - used)
}
