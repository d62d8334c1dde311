ghost use Rattle.std.specs.Prelude.{◌≡◌, ◌^◌, ◌<◌, ◌≤◌, min, length, take, IfOk, MatchResult};
ghost use Rattle.draft.specs.Faults.{fault_of};
ghost use Rattle.draft.specs.Fills.{Filled, whole_base};
ghost use Rattle.draft.specs.Laws.{implications};
ghost use Rattle.fault.specs.Layers.{in_trays};
ghost use Rattle.std.specs.List.{AllByRecursion};
ghost use Rattle.theory.specs.Bases.{BaseUpto};
ghost use Rattle.tray.specs.Tray.{Kept, capacity, entries, max_entries};

use crate::advance::advance_over;
use crate::faults::DraftFault;
use crate::full::is_at_full;
use operators::operator::Operator;
use sets::rule::Rule;
use tray::Tray;

// Empties the tray, and puts every rule of the operator's base into it, in the lectic order of the premises; refused where it is full, with the rules that fitted kept.
pub fn fill<O: Operator>(operator: &O, rules: &mut Tray<Rule>) -> Result<(), DraftFault>
    ensures rules { implications (entries rules.new) ≡ take (capacity rules.old) (whole_base (O.Operator.span operator.now) (O.Operator.means operator.now)) }
    ensures base { IfOk result (λ _. BaseUpto (O.Operator.span operator.now) (O.Operator.means operator.now) (2 ^ O.Operator.span operator.now) (implications (entries rules.new))) }
    ensures widths { AllByRecursion (λ r. r.premise.width ≡ O.Operator.span operator.now) (entries rules.new) }
    ensures answer { MatchResult result
        (λ _. length (whole_base (O.Operator.span operator.now) (O.Operator.means operator.now)) ≤ capacity rules.old)
        (λ fault. (capacity rules.old < length (whole_base (O.Operator.span operator.now) (O.Operator.means operator.now))) × (fault_of fault ≡ in_trays 21)) }
    ensures kept { Kept rules.old rules.new }
{
    rules.clear();
    let mut mark = None;
    while !is_at_full(operator.width(), mark) {
        advance_over(operator, rules, &mut mark)?;
    }
    Ok(())
}

// Fills the front of lent memory with the rules of the operator's base, in the lectic order of the premises, and tells how many there are; refused where it is full, with the rules that fitted kept.
pub fn fill_memory<O: Operator>(operator: &O, memory: &mut [Rule]) -> Result<usize, DraftFault>
    ensures rules { Filled (O.Operator.span operator.now) (O.Operator.means operator.now) memory.old memory.new }
    ensures answer { MatchResult result
        (λ count. (count ≡ length (whole_base (O.Operator.span operator.now) (O.Operator.means operator.now))) × (count ≤ min (length memory.old) max_entries))
        (λ fault. (min (length memory.old) max_entries < length (whole_base (O.Operator.span operator.now) (O.Operator.means operator.now))) × (fault_of fault ≡ in_trays 21)) }
{
    // As the survey's: one function for both would take the filling as a closure over a tray, and be longer than these lines.
    let mut rules = Tray::new(memory);
    fill(operator, &mut rules)?;
    Ok(rules.count())
}
