// The build program: a tree book on standard input, its network text on standard output, or one line X with the
// number of the fault and the line of the book. What it prints is `program::running::run` of what it reads. A read or a
// write that fails ends it with that error.
#![tactic(auto)]

use program::running::run;
use program::{BUFFER_SIZE, Output};
use showing::reading::read_full;
use std::io;

fn main(rt: HostRuntime) -> io::Result<()> {
    let mut buffer = [0u8; BUFFER_SIZE];
    let got = read_full(&mut rt.stdin(), &mut buffer)?;
    let Output { bytes, length } = run(&buffer, got);
    rt.write_all(&bytes[..length])
}
