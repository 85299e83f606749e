// Bytes of standard input.
ghost use Rattle.std.specs.Prelude.{◌≡◌, ◌<◌, ◌≤◌, length, take, IfOk};
ghost use Rattle.std.specs.Io.KnownBytes.{Consumes, IsAtEnd};

use std::io;
use std::io::Read;

// As many bytes of standard input as the example programs read.
pub const INPUT_SIZE: usize = 65536;

// Reads until the buffer is full or the input ends, and counts the bytes; or answers the error of a read that fails. The
// buffer begins with what the input lost, and the input has ended where the buffer is not full.
pub fn read_full<R: Read>(input: &mut R, buffer: &mut [u8]) -> io::Result<usize>
    ensures within { IfOk result (λ got. got ≤ length buffer.new) }
    ensures whole { length buffer.new ≡ length buffer.old }
    ensures bytes { IfOk result (λ got.
        Consumes (R.remaining input.old) (R.remaining input.new) (take got buffer.new)) }
    ensures end { IfOk result (λ got.
        got < length buffer.new → IsAtEnd (R.remaining input.new)) }
{
    let mut got = 0;
    // No `for`: a read takes as many bytes as it gets.
    while got < buffer.len() {
        let more = input.read(&mut buffer[got..])?;
        if more == 0 {
            return Ok(got);
        }
        got += more;
    }
    Ok(got)
}
