ghost use Rattle.std.specs.Prelude.{◌≡◌};
ghost use Rattle.view.specs.Shown.{signal_count};

use sets::set::Set;
use view::table_view::TableView;

mod calls;
mod names;

// The signals of a view that belong to a set of its width.
#[derive(Clone, Copy)]
pub(crate) struct Chosen<'t, 'r, 'p> {
    view: TableView<'t, 'r, 'p>,
    set: Set,
    ghost whole: { set.width ≡ signal_count view },
}
