ghost use Rattle.std.specs.Prelude.{◌≡◌, ◌+◌, ◌≤◌, [], ◌∷◌, length, MatchOption};
ghost use Rattle.query.specs.Fields.{field_end_of, fields_of};
ghost use Rattle.query.specs.Lefts.{left, read_as};
ghost use Rattle.std.specs.Iterator.{at_most};

use super::{Field, Fields};
use text::find::{find, rest_from};

impl<'a> Fields<'a> {
    // The first field of a line, and those behind it.
    pub(crate) fn split(line: &'a [u8]) -> (Field<'a>, Fields<'a>)
        ensures fields { fields_of line.now ≡ read_as result.0 ∷ left result.1 }
        ensures line { result.1.line.now ≡ line.now }
    {
        let at = field_end(line, 0);
        let first = Field {
            byte: 1,
            bytes: &line[..at],
        };
        (first, Fields { line, at })
    }

    // The byte behind the line, counted from 1.
    pub(crate) fn end(&self) -> usize
        ensures byte { result ≡ length self.now.line.now + 1 }
    {
        self.line.len() + 1
    }
}

impl<'a> Iterator for Fields<'a> {
    type Item = Field<'a>;

    ghost next_gives = { λ before r after. (after.line ≡ before.line)
        × MatchOption r (left before ≡ []) (λ field. left before ≡ read_as field ∷ left after) };

    ghost remaining = { λ fields. at_most (length (left fields)) };

    // The next field.
    fn next(&mut self) -> Option<Field<'a>> {
        if self.at == self.line.len() {
            return None;
        }
        let start = self.at + 1;
        self.at = field_end(self.line, start);
        Some(Field {
            byte: start + 1,
            bytes: &self.line[start..self.at],
        })
    }
}

// Finds where the field that begins at `at` ends: the position of the next comma, or the line's end.
fn field_end(line: &[u8], at: usize) -> usize
    requires inside { at ≤ length line.now }
    ensures value { result ≡ field_end_of at line.now }
    ensures behind { at ≤ result }
    ensures inside { result ≤ length line.now }
{
    match find(rest_from(line, at), b',') {
        Some(length) => at + length,
        None => line.len(),
    }
}
