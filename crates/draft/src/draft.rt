ghost use Rattle.draft.specs.Advances.{Advances, AtFull};
ghost use Rattle.draft.specs.Calls.{Does};
ghost use Rattle.draft.specs.Faults.{fault_of};
ghost use Rattle.draft.specs.Laws.{closed_to};
ghost use Rattle.fault.specs.Layers.{in_drafts};
ghost use Rattle.operators.specs.TableClosure.{closure_in};
ghost use Rattle.std.specs.Prelude.{◌≡◌, [], None, MatchResult};
ghost use Rattle.tray.specs.Tray.{Kept, capacity, entries};
ghost use Rattle.view.specs.Shown.{signal_count};

use crate::advance::advance_over;
use crate::base::Base;
use crate::call::{Advance, DraftAnswer, DraftCall, DraftGranted};
use crate::faults::DraftFault;
use crate::full::is_at_full;
use operators::operator::Operator;
use operators::table_closure::TableClosure;
use sets::rule::Rule;
use sets::set::Set;
use tray::Tray;
use view::table_view::TableView;

// The base of a table in the making: the closure over the table, the rules found so far, and the set that the latest advance took.
#[derive(Drop)]
pub struct Draft<'t, 'r, 'p, 'm> {
    closure: TableClosure<'t, 'r, 'p>,
    rules: Tray<'m, Rule>,
    mark: Option<Set>,
}

impl<'t, 'r, 'p, 'm> Draft<'t, 'r, 'p, 'm> {
    // Begins a draft on a table, with no mark, and empties the tray that takes its rules.
    pub fn begin(view: TableView<'t, 'r, 'p>, rules: Tray<'m, Rule>) -> Self
        ensures view { result.closure.view ≡ view.entry }
        ensures empty { entries result.rules ≡ [] }
        ensures memory { result.rules.memory.now ≡ rules.entry.memory.now }
        ensures link { result.rules.memory.ghost_name ≡ rules.entry.memory.ghost_name }
        ensures mark { result.mark ≡ None }
    {
        let mut rules = rules;
        rules.clear();
        Draft {
            closure: TableClosure::new(view),
            rules,
            mark: None,
        }
    }

    // Takes the next set, and puts its rule where it is not closed.
    pub fn advance(&mut self) -> Result<Advance, DraftFault>
        ensures advances { Advances
            (signal_count self.old.closure.view) (closure_in self.old.closure.view)
            (capacity self.old.rules) (entries self.old.rules) self.old.mark result (entries self.new.rules) self.new.mark }
        ensures closure { self.new.closure ≡ self.old.closure }
        ensures kept { Kept self.old.rules self.new.rules }
    {
        advance_over(&self.closure, &mut self.rules, &mut self.mark)
    }

    // Whether the draft can be closed to the base of its table: refused while the mark is not the full set.
    pub fn try_close(&self) -> Result<(), DraftFault>
        ensures answer { MatchResult result
            (λ _. AtFull (signal_count self.now.closure.view) self.now.mark)
            (λ fault. (AtFull (signal_count self.now.closure.view) self.now.mark → ⊥) × (fault_of fault ≡ in_drafts 23)) }
    {
        if is_at_full(self.closure.width(), self.mark) {
            Ok(())
        } else {
            Err(DraftFault::NotAtEnd)
        }
    }

    // Makes one call.
    pub fn answer(&mut self, call: DraftCall) -> DraftAnswer
        ensures does { Does
            (signal_count self.old.closure.view) (closure_in self.old.closure.view)
            (capacity self.old.rules) call (entries self.old.rules) self.old.mark result (entries self.new.rules) self.new.mark }
        ensures closure { self.new.closure ≡ self.old.closure }
        ensures kept { Kept self.old.rules self.new.rules }
    {
        match call {
            DraftCall::Advance => Ok(DraftGranted::Advanced(self.advance()?)),
            DraftCall::TryClose => {
                self.try_close()?;
                Ok(DraftGranted::Ready)
            }
        }
    }

    // Ends the draft, and gives the base of its table; while the mark is not the full set, the base of the empty table.
    pub fn close(self) -> Base<'t, 'r, 'p, 'm>
        ensures rules { result.rules.now ≡ closed_to (signal_count self.entry.closure.view) self.entry.mark (entries self.entry.rules) }
        ensures text { result.view.text.now ≡ closed_to (signal_count self.entry.closure.view) self.entry.mark self.entry.closure.view.text.now }
        ensures words { result.view.words.now ≡ closed_to (signal_count self.entry.closure.view) self.entry.mark self.entry.closure.view.words.now }
        ensures places { result.view.places.now ≡ closed_to (signal_count self.entry.closure.view) self.entry.mark self.entry.closure.view.places.now }
    {
        let Draft {
            closure,
            rules,
            mark,
        } = self;
        if is_at_full(closure.width(), mark) {
            Base::new(closure.view(), rules.into_slice())
        } else {
            Base::new(TableView::new(&[], &[], &[]), &[])
        }
    }
}
