ghost use Rattle.std.specs.Prelude.{◌≡◌};
ghost use Rattle.text.specs.Numbers.{number_of, digits_from};

use crate::faults::FieldFault;

// The most digits that a number has.
pub const MAX_DIGITS: usize = 4;

// Reads the number that a line or a field writes; a refusal names the first wrong byte.
pub fn number(field: &[u8], line: usize) -> Result<usize, FieldFault>
    ensures { result ≡ number_of line field.now }
{
    match field {
        [] | [b'0', _, ..] => Err(FieldFault::NoNumber { line, byte: 1 }),
        [b'0'] => Ok(0),
        _ => digits(field, line),
    }
}

// Reads at most four digits, leading zeros among them.
fn digits(field: &[u8], line: usize) -> Result<usize, FieldFault>
    ensures { result ≡ digits_from line 0 0 field.now }
{
    let mut value = 0;
    for (i, b) in field.iter().enumerate() {
        if i >= MAX_DIGITS || !b.is_ascii_digit() {
            return Err(FieldFault::NoNumber { line, byte: i + 1 });
        }
        value = value * 10 + (*b - b'0') as usize;
    }
    Ok(value)
}
