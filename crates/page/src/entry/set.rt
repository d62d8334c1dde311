ghost use Rattle.std.specs.Prelude.{◌≡◌};
ghost use Rattle.page.specs.Lines.{PutsLine};
ghost use Rattle.page.specs.Pages.{line_of_set, set_line_some, shown_set};
ghost use Rattle.view.specs.Shown.{signal_names};

use super::kinds::Kind;
use super::{Entry, check_room};
use crate::chosen::Chosen;
use crate::faults::PageFault;
use output::number::digits;
use output::output::Output;
use sets::set::Set;
use view::table_view::TableView;

// The bytes of a set's line besides its place and its names.
const SET_BYTES: usize = 5;

impl Kind for Set {}

// A closed set, on the closed page.
impl Entry for Set {
    ghost shown = { shown_set };

    ghost some = { set_line_some };

    fn put_line(
        &self,
        out: &mut Output,
        kept: Option<usize>,
        view: &TableView,
        place: usize,
    ) -> Result<(), PageFault>
        ensures puts { PutsLine (line_of_set (signal_names view.now) place self.now) kept out.old result out.new }
    {
        let names = Chosen::of(*self, view)?;
        let bytes = SET_BYTES + digits(place) + names.bytes();
        check_room(out, kept, bytes)?;
        out.put(b"set,")?;
        out.put_number(place)?;
        names.put(out)?;
        Ok(out.put(b"\n")?)
    }
}
