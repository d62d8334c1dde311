ghost use Rattle.std.specs.Prelude.{◌≡◌, length};
ghost use Rattle.view.specs.Shown.{signal_count};

use sets::rule::Rule;
use view::table_view::TableView;

// The base of a table, for reading: the rules of a draft that was closed, with the table.
#[derive(Clone, Copy)]
pub struct Base<'t, 'r, 'p, 'm> {
    view: TableView<'t, 'r, 'p>,
    rules: &'m [Rule],
}

impl<'t, 'r, 'p, 'm> Base<'t, 'r, 'p, 'm> {
    // A base of these rules.
    pub(crate) fn new(view: TableView<'t, 'r, 'p>, rules: &'m [Rule]) -> Self
        ensures view { result.view ≡ view.entry }
        ensures rules { result.rules.now ≡ rules.now }
    {
        Base { view, rules }
    }

    // The rules, in the lectic order of their premises.
    pub fn rules(&self) -> &'m [Rule]
        ensures value { result.now ≡ self.now.rules.now }
    {
        self.rules
    }

    // The number of rules.
    pub fn count(&self) -> usize
        ensures value { result ≡ length self.now.rules.now }
    {
        self.rules.len()
    }

    // The table.
    pub fn view(&self) -> TableView<'t, 'r, 'p>
        ensures value { result ≡ self.now.view }
    {
        self.view
    }

    // The number of signals of the table.
    pub fn width(&self) -> usize
        ensures value { result ≡ signal_count self.now.view }
    {
        self.view.signals()
    }
}
