ghost use Rattle.std.specs.Prelude.{◌≡◌, ◌+◌, ◌≤◌, true, length, take};
ghost use Rattle.view.specs.Views.{fit};

use table::place::Place;
use table::read::Reading;
use view::table_view::TableView;

// Shows the table that was read from a text, by the fronts of the memory that it was read into.
pub(crate) fn view_read<'t, 'r, 'p>(
    text: &'t [u8],
    words: &'r [u64],
    places: &'p [Place],
    reading: Reading,
) -> TableView<'t, 'r, 'p>
    requires rows { reading.rows ≤ length words.now }
    requires names { reading.rows + reading.signals ≤ length places.now }
    requires fit { fit text.now (take reading.rows words.now) (take (reading.rows + reading.signals) places.now) ≡ true }
    ensures text { result.text.now ≡ text.now }
    ensures words { result.words.now ≡ take reading.rows words.now }
    ensures places { result.places.now ≡ take (reading.rows + reading.signals) places.now }
{
    let names = reading.rows + reading.signals;
    TableView::new(text, &words[..reading.rows], &places[..names])
}
