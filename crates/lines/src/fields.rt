// One field of six bytes: blank, a number right-justified with spaces, or malformed.
ghost use Rattle.std.specs.Prelude.{◌≡◌, ◌≤◌, length};
ghost use Rattle.definitions.specs.Lines.{skip_spaces, digits_field, field_of};
ghost use Rattle.lines.specs.Rows.{field_in};

use crate::Field;

// The bytes after a field's leading spaces.
fn after_spaces(bytes: &[u8]) -> &[u8]
    ensures within { length result.now ≤ length bytes.now }
    ensures found { result.now ≡ skip_spaces bytes.now }
{
    for (i, byte) in bytes.iter().enumerate() {
        if *byte != b' ' {
            return &bytes[i..];
        }
    }
    &[]
}

// A number's digits to the field's end, without leading zeros.
fn digits(bytes: &[u8]) -> Field
    requires { length bytes.now ≤ 6 }
    ensures { field_in result ≡ digits_field bytes.now }
{
    if bytes.is_empty() {
        return Field::Blank;
    }
    if bytes.len() > 1 && bytes[0] == b'0' {
        return Field::Malformed;
    }
    let mut value = 0;
    for byte in bytes {
        if !byte.is_ascii_digit() {
            return Field::Malformed;
        }
        value = value * 10 + u32::from(byte - b'0');
    }
    Field::Number(value)
}

// The field that these bytes are.
pub fn read_field(bytes: &[u8]) -> Field
    requires { length bytes.now ≤ 6 }
    ensures { field_in result ≡ field_of bytes.now }
{
    digits(after_spaces(bytes))
}
