ghost use Rattle.operators.specs.Entailment.{EntailedBy};
ghost use Rattle.std.specs.Prelude.{Decides};

use crate::operator::Operator;
use crate::rule_closure::RuleClosure;
use sets::rule::Rule;
use sets::set::Set;

// Whether the rules entail that the conclusion follows from the premise; not where the widths differ.
pub fn entails(rules: &[Rule], premise: Set, conclusion: Set) -> bool
    ensures told { Decides result (EntailedBy rules.now premise conclusion) }
{
    conclusion.within(&RuleClosure::new(rules, premise).closure(premise))
}
