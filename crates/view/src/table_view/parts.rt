ghost use Rattle.std.specs.Prelude.{◌≡◌};

use super::TableView;
use table::place::Place;

impl<'t, 'r, 'p> TableView<'t, 'r, 'p> {
    // The rows, a word for each.
    pub fn words(&self) -> &'r [u64]
        ensures words { result.now ≡ self.now.words.now }
    {
        self.words
    }

    // The text that holds the names.
    pub(crate) fn text(&self) -> &'t [u8]
        ensures text { result.now ≡ self.now.text.now }
    {
        self.text
    }

    // The places of the row names and then of the signal names.
    pub(crate) fn places(&self) -> &'p [Place]
        ensures places { result.now ≡ self.now.places.now }
    {
        self.places
    }
}
