ghost use Rattle.std.specs.Prelude.{◌≡◌, true, [], length, if◌then◌else◌, slice_index_or};
ghost use Rattle.std.specs.List.{list_all};
ghost use Rattle.table.specs.Names.{part_at};
ghost use Rattle.table.specs.Tables.{Lawful};
ghost use Rattle.view.specs.Shown.{shown, signal_count};
ghost use Rattle.view.specs.Views.{absent, fit, holds_name_at, row_place, signal_place};

use super::TableView;
use crate::fit::fits;
use crate::name::Name;
use table::place::Place;

impl<'t, 'r, 'p> TableView<'t, 'r, 'p> {
    // Shows the parts of a table; parts that are not those of a table show the empty table.
    pub fn new(text: &'t [u8], words: &'r [u64], places: &'p [Place]) -> Self
        ensures text { result.text.now ≡ (if fit text.now words.now places.now then text.now else []) }
        ensures words { result.words.now ≡ (if fit text.now words.now places.now then words.now else []) }
        ensures places { result.places.now ≡ (if fit text.now words.now places.now then places.now else []) }
        ensures lawful { Lawful (shown result) }
    {
        if !fits(text, words, places) {
            return TableView {
                text: &[],
                words: &[],
                places: &[],
            };
        }
        TableView {
            text,
            words,
            places,
        }
    }

    // Counts the rows.
    pub fn rows(&self) -> usize
        ensures count { result ≡ length self.now.words.now }
    {
        self.words.len()
    }

    // Counts the signals.
    pub fn signals(&self) -> usize
        ensures count { result ≡ signal_count self.now }
    {
        self.places.len() - self.rows()
    }

    // The name of a row; the empty part at 0 where there is no such row.
    pub fn row_name(&self, row: usize) -> Name<'t>
        ensures place { result.place ≡ row_place (length self.now.words.now) self.now.places.now row }
        ensures bytes { result.bytes.now ≡ part_at self.now.text.now result.place }
    {
        self.name_among(&self.places[..self.rows()], row)
    }

    // The name of a signal; the empty part at 0 where there is no such signal.
    pub fn signal_name(&self, signal: usize) -> Name<'t>
        ensures place { result.place ≡ signal_place (length self.now.words.now) self.now.places.now signal }
        ensures bytes { result.bytes.now ≡ part_at self.now.text.now result.place }
    {
        self.name_among(&self.places[self.rows()..], signal)
    }

    // The name at one of these places; the empty part at 0 where there is no such place.
    fn name_among(&self, places: &[Place], index: usize) -> Name<'t>
        requires { list_all (holds_name_at self.now.text.now) places.now ≡ true }
        ensures place { result.place ≡ slice_index_or places.now index absent }
        ensures bytes { result.bytes.now ≡ part_at self.now.text.now result.place }
    {
        let place = places.get(index).copied().unwrap_or_default();
        Name::new(self.text, place)
    }
}
