ghost use Rattle.std.specs.Prelude.{◌≡◌, min, length, IfOk};
ghost use Rattle.draft.specs.Laws.{DraftLaw};
ghost use Rattle.operators.specs.TableClosure.{closure_in};
ghost use Rattle.survey.specs.Tracks.{Law, fresh};
ghost use Rattle.tray.specs.Tray.{entries, max_entries};
ghost use Rattle.view.specs.Shown.{signal_count};

use crate::call::DraftCall;
use crate::run::{Drafted, run};
use operators::table_closure::TableClosure;
use sets::rule::Rule;
use std::alloc::{AllocError, Global};
use survey::call::{Answer, Call};
use survey::run::run as run_survey;
use tray::Tray;
use view::table_view::TableView;

// The answers of a survey of a table, and a draft of its base, each after a list of calls.
#[derive(Drop)]
pub struct Ran<'t, 'r, 'p, 'm> {
    pub listed: Vec<Answer>,
    pub drafted: Drafted<'t, 'r, 'p, 'm>,
}

// Surveys the closed sets of a table by one list of calls, and drafts its base by another.
pub fn run_both<'t, 'r, 'p, 'm>(
    alloc: Global,
    view: TableView<'t, 'r, 'p>,
    rules: Tray<'m, Rule>,
    survey_calls: &[Call],
    draft_calls: &[DraftCall],
) -> Result<Ran<'t, 'r, 'p, 'm>, AllocError>
    ensures listing { IfOk result (λ ran. Law (signal_count view.entry) (closure_in view.entry) (fresh 0) survey_calls.now ran.listed.items) }
    ensures base { IfOk result (λ ran. DraftLaw view.entry.words.now view.entry.places.now (min (length rules.entry.memory.now) max_entries)
        draft_calls.now ran.drafted.answers.items (entries ran.drafted.draft.rules) ran.drafted.draft.mark) }
    ensures view { IfOk result (λ ran. ran.drafted.draft.closure.view ≡ view.entry) }
    ensures size { IfOk result (λ ran. length ran.drafted.draft.rules.memory.now ≡ length rules.entry.memory.now) }
{
    let listed = run_survey(alloc, TableClosure::new(view), survey_calls)?;
    let drafted = run(alloc, view, rules, draft_calls)?;
    Ok(Ran { listed, drafted })
}
