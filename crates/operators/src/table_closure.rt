ghost use Rattle.std.specs.Prelude.{◌≡◌, ◌^◌, ◌<◌, ◌≤◌, Decides, IfSome, ◌≢◌};
ghost use Rattle.operators.specs.TableClosure.{Shared, closure_in, rows_close};
ghost use Rattle.theory.specs.Rows.{common};
ghost use Rattle.theory.specs.Words.{max_signals};
ghost use Rattle.view.specs.Shown.{signal_count};
ghost use Rattle.std.proofs.Props.{props};

use crate::columns::Columns;
use crate::operator::Operator;
use crate::word::{all_signals, with_word};
use sets::set::Set;
use view::table_view::TableView;

// A table is kept by columns where it has more than one row for this many signals; the rows of another are gone through.
const SIGNALS_PER_ROW: usize = 4;

// The closure G over the rows of a table: the signals common to all rows that contain a set; a table of many rows is kept by columns too.
#[derive(Clone, Copy)]
pub struct TableClosure<'t, 'r, 'p> {
    view: TableView<'t, 'r, 'p>,
    columns: Option<Columns<'r>>,
    ghost of_view: { IfSome columns (λ c. (c.rows.now ≡ view.words.now) × (c.width ≡ signal_count view)) } by { Prim.hlevel props },
}

impl<'t, 'r, 'p> TableClosure<'t, 'r, 'p> {
    // The closure over the rows of the table.
    pub fn new(view: TableView<'t, 'r, 'p>) -> Self
        ensures view { result.view ≡ view.entry }
    {
        let (rows, width) = (view.words(), view.signals());
        let columns = (rows.len() > width / SIGNALS_PER_ROW).then(|| Columns::new(rows, width));
        TableClosure { view, columns }
    }

    // The table.
    pub fn view(&self) -> TableView<'t, 'r, 'p>
        ensures value { result ≡ self.now.view }
    {
        self.view
    }

    // Whether the set has as many signals as the table.
    fn spans(&self, set: Set) -> bool
        ensures told { Decides result (set.width ≡ signal_count self.now.view) }
    {
        set.width() == self.view.signals()
    }

    // The word of the signals common to all rows that contain the wanted ones.
    fn common_word(&self, wanted: u64) -> u64
        requires { wanted < 2 ^ signal_count self.now.view }
        ensures common { result ≡ closure_in self.now.view wanted }
    {
        match &self.columns {
            Some(columns) => columns.common(wanted),
            None => common_signals(self.view.words(), self.view.signals(), wanted),
        }
    }
}

impl<'t, 'r, 'p> Operator for TableClosure<'t, 'r, 'p> {
    const LETTER: u8 = b'G';

    ghost letter = { 71 };

    ghost span = { λ s. signal_count s.view };

    ghost means = { λ s. closure_in s.view };

    ghost closes = { λ s. rows_close s.view.text.now s.view.words.now s.view.places.now s.view.fit };

    // The letter that pages over the operator carry.
    fn mark(&self) -> u8 {
        Self::LETTER
    }

    // The number of signals of the table.
    fn width(&self) -> usize {
        self.view.signals()
    }

    // The signals common to all rows that contain the set, all signals where no row does; a set of another width is given back.
    fn closure(&self, set: Set) -> Set
        ensures width { result.width ≡ set.width }
        ensures closed { set.width ≡ signal_count self.now.view
            → result.word ≡ closure_in self.now.view set.word }
        ensures other { (set.width ≢ signal_count self.now.view) → result ≡ set }
        ensures signals { set.width ≡ signal_count self.now.view
            → Shared set.width self.now.view.words.now set.word result.word }
    {
        if !self.spans(set) {
            return set;
        }
        with_word(set, self.common_word(set.word()))
    }
}

// The signals common to all rows that contain the wanted ones.
fn common_signals(rows: &[u64], width: usize, wanted: u64) -> u64
    requires { width ≤ max_signals }
    ensures common { result ≡ common width rows.now wanted }
{
    // One fold with the test in it: with a filter before it the rows cost half as much again.
    rows.iter().copied().fold(all_signals(width), |word, row| {
        if wanted & row == wanted {
            word & row
        } else {
            word
        }
    })
}
