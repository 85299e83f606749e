// Texts that stand one after the other, each below its title, a line that begins with '='.
// A text is given from the byte after that '=' on.
ghost use Rattle.std.specs.Prelude.{◌≡◌, ◌≤◌, length};
ghost use Rattle.std.specs.Iterator.{at_most};
ghost use Rattle.showing.specs.Titles.{place_of, title_of, end_of, text_of, Gives};

// The place of a byte, or where the text ends.
// A number where there is none too: what is cut ends there.
fn place(text: &[u8], byte: u8) -> usize
    ensures within { result ≤ length text.now }
    ensures found { result ≡ place_of byte text.now }
{
    text.iter().position(|b| *b == byte).unwrap_or(text.len())
}

// Its title.
pub fn title_of<'a>(text: &'a [u8]) -> &'a [u8]
    ensures { result.now ≡ title_of text.now }
{
    &text[..place(text, b'\n')]
}

// Where what stands below its title ends.
pub fn end_of(text: &[u8]) -> usize
    ensures within { result ≤ length text.now }
    ensures found { result ≡ end_of text.now }
{
    let line = place(text, b'\n');
    line + place(&text[line..], b'=')
}

// What stands below its title.
pub fn text_of<'a>(text: &'a [u8]) -> &'a [u8]
    ensures { result.now ≡ text_of text.now }
{
    let line = place(text, b'\n');
    let end = end_of(text);
    if line < end {
        return &text[line + 1..end];
    }
    &[]
}

// A title, and the text below it.
#[derive(Clone, Copy)]
pub struct Titled<'a> {
    pub title: &'a [u8],
    pub text: &'a [u8],
}

// The texts that are left, from the byte after the '=' of the next title on.
#[derive(Clone, Copy)]
pub struct Texts<'a>(pub &'a [u8]);

impl<'a> Iterator for Texts<'a> {
    type Item = Titled<'a>;

    ghost next_gives = { λ here given next. Gives here.0.now given next.0.now };

    ghost remaining = { λ here. at_most (length here.0.now) };

    fn next(&mut self) -> Option<Titled<'a>> {
        let left = self.0;
        if left.is_empty() {
            return None;
        }
        self.0 = left.get(end_of(left) + 1..).unwrap_or(&[]);
        Some(Titled {
            title: title_of(left),
            text: text_of(left),
        })
    }
}
