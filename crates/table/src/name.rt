ghost use Rattle.std.specs.Prelude.{◌≡◌, not, position};
ghost use Rattle.table.specs.Names.{wrong_byte_of, name_byte};
ghost use Rattle.table.specs.Reading.{name_item};

use crate::faults::TableFault;
use crate::item::LineItem;
use crate::lines::Line;
use crate::place::Place;

// The most bytes that a name has.
pub const MAX_NAME: usize = 40;

// A name: the place where it stands.
#[derive(Clone, Copy)]
pub(crate) struct NamePlace;

impl LineItem for NamePlace {
    type Value = Place;

    ghost item = { λ _. name_item };

    fn read(&self, line: Line) -> Result<Place, TableFault> {
        match wrong_byte(line.bytes) {
            Some(byte) => Err(TableFault::NotName {
                line: line.number,
                byte,
            }),
            None => Ok(Place {
                start: line.start,
                length: line.bytes.len(),
            }),
        }
    }
}

// Finds the byte, counted from 1, at which these bytes are no name; none where they are one.
#[tactic(auto, using(crate::proofs::Wrong::wrong_counted))]
pub fn wrong_byte(bytes: &[u8]) -> Option<usize>
    ensures { result ≡ wrong_byte_of bytes.now }
{
    if bytes.is_empty() || bytes.len() > MAX_NAME {
        return Some(1);
    }
    first_wrong(bytes).map(|i| i + 1)
}

// Finds the first byte, counted from 0, that a name may not have.
fn first_wrong(bytes: &[u8]) -> Option<usize>
    ensures { result ≡ position (λ b. not (name_byte b)) bytes.now }
{
    bytes.iter().position(|b| !allowed(*b))
}

// Tells whether a name may have this byte: printable, and no comma.
fn allowed(byte: u8) -> bool
    ensures { result ≡ name_byte byte }
{
    matches!(byte, b' '..=b'~') && byte != b','
}
