ghost use Rattle.std.specs.Prelude.{◌≡◌, true};
ghost use Rattle.view.specs.Views.{fit};

use table::place::Place;

mod calls;
mod parts;

// A table as it lies in memory: the text that holds the names, a word for each row, and the places of the row names and then of the signal names.
#[derive(Clone, Copy)]
pub struct TableView<'t, 'r, 'p> {
    text: &'t [u8],
    words: &'r [u64],
    places: &'p [Place],
    ghost fit: { fit text.now words.now places.now ≡ true },
}
