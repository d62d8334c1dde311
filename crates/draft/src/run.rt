ghost use Rattle.std.specs.Prelude.{◌≡◌, min, length, IfOk};
ghost use Rattle.draft.specs.Laws.{DraftLaw};
ghost use Rattle.tray.specs.Tray.{entries, max_entries};

use crate::call::{DraftAnswer, DraftCall};
use crate::draft::Draft;
use sets::rule::Rule;
use std::alloc::{AllocError, Global};
use tray::Tray;
use view::table_view::TableView;

// A draft after a list of calls, with the answer to each.
#[derive(Drop)]
pub struct Drafted<'t, 'r, 'p, 'm> {
    pub draft: Draft<'t, 'r, 'p, 'm>,
    pub answers: Vec<DraftAnswer>,
}

// Begins a draft on a table and a tray, and makes the calls one after another.
pub fn run<'t, 'r, 'p, 'm>(
    alloc: Global,
    view: TableView<'t, 'r, 'p>,
    rules: Tray<'m, Rule>,
    calls: &[DraftCall],
) -> Result<Drafted<'t, 'r, 'p, 'm>, AllocError>
    ensures law { IfOk result (λ d. DraftLaw view.entry.words.now view.entry.places.now (min (length rules.entry.memory.now) max_entries)
        calls.now d.answers.items (entries d.draft.rules) d.draft.mark) }
    ensures view { IfOk result (λ d. d.draft.closure.view ≡ view.entry) }
    ensures size { IfOk result (λ d. length d.draft.rules.memory.now ≡ length rules.entry.memory.now) }
{
    let mut draft = Draft::begin(view, rules);
    let mut answers = Vec::new(alloc);
    // A loop: of a chain whose closure changes the draft nothing is known afterwards.
    for call in calls {
        answers.push(draft.answer(*call))?;
    }
    Ok(Drafted { draft, answers })
}
