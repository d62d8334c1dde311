ghost use Rattle.std.specs.Prelude.{◌≡◌, ◌<◌, ◌≤◌, min, length, take, MatchResult};
ghost use Rattle.fault.specs.Layers.{in_trays};
ghost use Rattle.std.specs.List.{AllByRecursion};
ghost use Rattle.survey.specs.Fills.{Filled, all_closed, words_of};
ghost use Rattle.tray.specs.Fault.{fault_of};
ghost use Rattle.tray.specs.Tray.{Kept, capacity, entries, max_entries};

use crate::survey::Survey;
use operators::operator::Operator;
use sets::set::Set;
use tray::Tray;
use tray::faults::TrayFault;

// Empties the tray, and puts every closed set of the operator into it, in the lectic order; refused where it is full, with the sets that fitted kept.
pub fn fill<O: Operator + Drop>(operator: O, tray: &mut Tray<Set>) -> Result<(), TrayFault>
    ensures sets { words_of (entries tray.new) ≡ take (capacity tray.old) (all_closed (O.Operator.span operator) (O.Operator.means operator)) }
    ensures widths { AllByRecursion (λ s. s.width ≡ O.Operator.span operator) (entries tray.new) }
    ensures answer { MatchResult result
        (λ _. length (all_closed (O.Operator.span operator) (O.Operator.means operator)) ≤ capacity tray.old)
        (λ fault. (capacity tray.old < length (all_closed (O.Operator.span operator) (O.Operator.means operator))) × (fault_of fault ≡ in_trays 21)) }
    ensures kept { Kept tray.old tray.new }
{
    tray.clear();
    let mut survey = Survey::open(operator);
    while let Ok((set, _, _)) = survey.step() {
        tray.put(set)?;
    }
    Ok(())
}

// Fills the front of lent memory with the closed sets of the operator, in the lectic order, and tells how many there are; refused where it is full, with the sets that fitted kept.
pub fn fill_memory<O: Operator + Drop>(operator: O, memory: &mut [Set]) -> Result<usize, TrayFault>
    ensures sets { Filled (O.Operator.span operator) (O.Operator.means operator) memory.old memory.new }
    ensures answer { MatchResult result
        (λ count. (count ≡ length (all_closed (O.Operator.span operator) (O.Operator.means operator))) × (count ≤ min (length memory.old) max_entries))
        (λ fault. (min (length memory.old) max_entries < length (all_closed (O.Operator.span operator) (O.Operator.means operator))) × (fault_of fault ≡ in_trays 21)) }
{
    // As the draft's: one function for both would take the filling as a closure over a tray, and be longer than these lines.
    let mut tray = Tray::new(memory);
    fill(operator, &mut tray)?;
    Ok(tray.count())
}
