ghost use Rattle.std.specs.Prelude.{◌≡◌, MatchResult, bit_and};
ghost use Rattle.fault.specs.Layers.{in_sets};
ghost use Rattle.sets.specs.Fault.{fault_of};
ghost use Rattle.sets.specs.Set.{Inside};

use crate::faults::SetFault;
use crate::set::Set;

// A rule (an implication): where every signal of the premise is present, so is every signal of the conclusion.
#[derive(Clone, Copy, PartialEq, Eq, Debug)]
pub struct Rule {
    premise: Set,
    conclusion: Set,
    ghost same: { premise.width ≡ conclusion.width },
    ghost inside: { bit_and premise.word conclusion.word ≡ premise.word },
}

impl Rule {
    // The rule from the premise to the conclusion, or a refusal where the premise does not lie inside it.
    pub fn new(premise: Set, conclusion: Set) -> Result<Rule, SetFault>
        ensures answer { MatchResult result
            (λ rule. Inside premise conclusion × (rule.premise ≡ premise) × (rule.conclusion ≡ conclusion))
            (λ fault. (Inside premise conclusion → ⊥) × (fault_of fault ≡ in_sets 12)) }
    {
        if premise.within(&conclusion) {
            Ok(Rule {
                premise,
                conclusion,
            })
        } else {
            Err(SetFault::NotInside)
        }
    }

    // The set that a set of signals must contain for the rule to apply to it.
    pub fn premise(&self) -> Set
        ensures value { result ≡ self.now.premise }
    {
        self.premise
    }

    // The set that follows, with the premise in it.
    pub fn conclusion(&self) -> Set
        ensures value { result ≡ self.now.conclusion }
    {
        self.conclusion
    }
}

// The rule from the empty set of no signals to itself.
impl Default for Rule {
    ghost is_default = { λ rule. (rule.premise.width ≡ 0) × (rule.premise.word ≡ 0) × (rule.conclusion.word ≡ 0) };

    fn default() -> Rule {
        let empty = Set::default();
        Rule {
            premise: empty,
            conclusion: empty,
        }
    }
}
