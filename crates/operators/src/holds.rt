ghost use Rattle.operators.specs.Entailment.{HoldsIn};
ghost use Rattle.std.specs.Prelude.{Decides};
ghost use Rattle.theory.specs.Rows.{Holds};
ghost use Rattle.theory.specs.Words.{Sub};

use sets::set::Set;
use view::table_view::TableView;

// Whether each row of the table that contains the premise contains the conclusion; not where a set has another width than the table.
pub fn holds(view: &TableView, premise: Set, conclusion: Set) -> bool
    ensures told { Decides result (HoldsIn view.now.words.now view.now.places.now premise conclusion) }
{
    let width = view.signals();
    premise.width() == width
        && conclusion.width() == width
        && rows_hold(view.words(), premise.word(), conclusion.word())
}

// Whether each row that contains the premise contains the conclusion.
pub fn rows_hold(rows: &[u64], premise: u64, conclusion: u64) -> bool
    ensures told { Decides result (Holds rows.now premise conclusion) }
{
    rows.iter().all(|row| row_holds(*row, premise, conclusion))
}

// Whether the row lacks a signal of the premise, or contains the conclusion.
fn row_holds(row: u64, premise: u64, conclusion: u64) -> bool
    ensures told { Decides result (Sub premise row → Sub conclusion row) }
{
    premise & row != premise || conclusion & row == conclusion
}
