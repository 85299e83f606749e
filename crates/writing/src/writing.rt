// A line written: its letter, its numbers right-justified, spaces in the other fields, a line feed.
ghost use Rattle.std.specs.Prelude.{if◌then◌else◌, ◌≡◌, true, ◌&&◌, ◌*◌, ◌≤◌, ◌<◌, leb, length, take, drop};
ghost use Rattle.definitions.specs.Forms.{most_number};
ghost use Rattle.definitions.specs.Lines.{field_text};
ghost use Rattle.lines.specs.Rows.{line_in};
ghost use Rattle.writing.specs.Writing.{writable, written, digit_byte, last_byte, fields_text};

use definitions::MOST_NUMBER;
use lines::Row;

// The digit byte of a number below ten.
fn digit_byte(n: u32) -> u8
    requires { n < 10 }
    ensures { result ≡ digit_byte n }
{
    b'0' + n as u8
}

// The byte before another digit: the last digit of the rest, or a space where nothing is left.
fn last_byte(rest: u32) -> u8
    ensures { result ≡ last_byte rest }
{
    if rest == 0 {
        b' '
    } else {
        digit_byte(rest % 10)
    }
}

// A number right-justified in a field of six bytes, from the right.
fn write_number(n: u32, field: &mut [u8])
    requires { (n ≤ most_number) × (length field.old ≡ 6) }
    ensures { field.new ≡ field_text n }
{
    field[5] = digit_byte(n % 10);
    let mut rest = n / 10;
    for i in (0..5).rev() {
        field[i] = last_byte(rest);
        rest /= 10;
    }
}

// One field of a row that fits a line: its number, or spaces where the row has no number there. The row is lent: a copy
// for each field made writing a third slower.
fn write_field(row: &Row, field: usize, bytes: &mut [u8])
    requires { (writable row.now ≡ true) × (field < 5) × (length bytes.old ≡ 6) }
    ensures { bytes.new ≡ take 6 (drop (6 * field) (fields_text (line_in row.now).numbers)) }
{
    if field < row.used {
        write_number(row.numbers[field], bytes);
    } else {
        bytes.fill(b' ');
    }
}

// The five fields of a row that fits a line.
fn write_fields(row: Row, bytes: &mut [u8])
    requires { (writable row ≡ true) × (length bytes.old ≡ 30) }
    ensures { bytes.new ≡ fields_text (line_in row).numbers }
{
    for field in 0..5 {
        // By its place: of what stands behind a part that `chunks_exact_mut` lends, a proof knows the length alone.
        let from = 6 * field;
        let end = from + 6;
        write_field(&row, field, &mut bytes[from..end]);
    }
}

// Whether a row has at most five numbers of at most six digits.
fn is_writable(row: Row) -> bool
    ensures { result ≡ writable row }
{
    row.used <= 5 && row.numbers[..row.used].iter().all(|n| *n <= MOST_NUMBER)
}

// Writes a row as a line into the first 32 bytes of a buffer. It answers false and writes nothing where the
// buffer is shorter or the row does not fit a line.
// A `bool`, as its clause promises: there is one way to fail.
pub fn write(row: Row, bytes: &mut [u8]) -> bool
    ensures answer { result ≡ (leb 32 (length bytes.old) && writable row) }
    ensures leaves { bytes.new ≡ (if result then written row bytes.old else bytes.old) }
{
    if bytes.len() < 32 || !is_writable(row) {
        return false;
    }
    bytes[0] = row.letter;
    write_fields(row, &mut bytes[1..31]);
    bytes[31] = b'\n';
    true
}
