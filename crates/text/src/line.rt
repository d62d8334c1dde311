ghost use Rattle.std.specs.Prelude.{◌≡◌, ◌<◌, ◌≤◌, length, IfOk};
ghost use Rattle.text.specs.Lines.{line_end_of};

use crate::faults::FieldFault;
use crate::find::{find, rest_from};

// Finds where the line that begins at `at` ends: the position of its line feed.
pub fn line_end(text: &[u8], line: usize, at: usize) -> Result<usize, FieldFault>
    ensures value { result ≡ line_end_of line at text.now }
    ensures inside { IfOk result (λ end. (at ≤ end) × (end < length text.now)) }
{
    match find(rest_from(text, at), b'\n') {
        Some(length) => Ok(at + length),
        None => Err(FieldFault::NoLineFeed { line }),
    }
}
