ghost use Rattle.std.specs.Prelude.{◌≡◌, ◌≤◌};
ghost use Rattle.draft.specs.Advances.{Advances, Next};
ghost use Rattle.sets.specs.Set.{Inside};
ghost use Rattle.theory.specs.Words.{max_signals};
ghost use Rattle.tray.specs.Tray.{Kept, capacity, entries};

use crate::call::Advance;
use crate::faults::DraftFault;
use operators::operator::Operator;
use operators::proper_rule_closure::ProperRuleClosure;
use sets::faults::SetFault;
use sets::rule::Rule;
use sets::set::Set;
use survey::next::least_after;
use tray::Tray;

// Takes the least set after the mark that is closed under S over the rules, or the least of all without a mark; where it is not closed under the operator, puts its rule.
pub fn advance_over<O: Operator>(
    operator: &O,
    rules: &mut Tray<Rule>,
    mark: &mut Option<Set>,
) -> Result<Advance, DraftFault>
    ensures advances { Advances (O.Operator.span operator.now) (O.Operator.means operator.now) (capacity rules.old)
        (entries rules.old) mark.old result (entries rules.new) mark.new }
    ensures kept { Kept rules.old rules.new }
{
    let set = next_set(operator.width(), rules.entries(), *mark)?;
    let closed = operator.closure(set);
    let found = if closed.word() == set.word() {
        Advance::Closed
    } else {
        rules.put(rule_between(set, closed))?;
        Advance::Rule
    };
    *mark = Some(set);
    Ok(found)
}

// The least set of the width after the mark that is closed under S over the rules, or the least of all without a mark; refused for a mark of another width, and at the full set.
fn next_set(width: usize, rules: &[Rule], mark: Option<Set>) -> Result<Set, DraftFault>
    requires { width ≤ max_signals }
    ensures next { Next width rules.now mark result }
{
    let empty = Set::new(width, 0).unwrap();
    let under = ProperRuleClosure::new(rules, empty);
    let Some(last) = mark else {
        return Ok(under.closure(empty));
    };
    if last.width() != width {
        return Err(DraftFault::Set(SetFault::OtherWidth));
    }
    least_after(&under, last).ok_or(DraftFault::AtEnd)
}

// The rule from a set to its closure.
fn rule_between(set: Set, closed: Set) -> Rule
    requires { Inside set closed }
    ensures premise { result.premise ≡ set }
    ensures conclusion { result.conclusion ≡ closed }
{
    Rule::new(set, closed).unwrap()
}
