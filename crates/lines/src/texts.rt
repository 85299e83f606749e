// A text in whole lines, else it is fault 11.
ghost use Rattle.std.specs.Prelude.{◌≡◌};
ghost use Rattle.definitions.specs.Lines.{whole_lines};

// Whether a text has lines, each of 32 bytes with a line feed as the last.
pub fn whole_lines(text: &[u8]) -> bool
    ensures { result ≡ whole_lines text.now }
{
    if text.is_empty() || text.len() % 32 != 0 {
        return false;
    }
    for i in 0..text.len() / 32 {
        if text[32 * i + 31] != b'\n' {
            return false;
        }
    }
    true
}
