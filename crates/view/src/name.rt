ghost use Rattle.std.specs.Prelude.{◌≡◌, ◌+◌, ◌≤◌, length};
ghost use Rattle.table.specs.Names.{part_at};

use table::place::Place;

// A name as a part of the text that holds it, with the place where it stands.
#[derive(Clone, Copy)]
pub struct Name<'t> {
    pub bytes: &'t [u8],
    pub place: Place,
}

impl<'t> Name<'t> {
    // The part of the text at a place inside it.
    pub(crate) fn new(text: &'t [u8], place: Place) -> Self
        requires { place.start + place.length ≤ length text.now }
        ensures place { result.place ≡ place }
        ensures bytes { result.bytes.now ≡ part_at text.now place }
    {
        let Place { start, length } = place;
        Name {
            bytes: &text[start..start + length],
            place,
        }
    }
}
