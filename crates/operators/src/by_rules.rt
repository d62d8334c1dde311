ghost use Rattle.std.specs.Prelude.{◌≡◌, ◌^◌, ◌<◌, ◌≤◌, MatchOption, ◌≢◌};
ghost use Rattle.operators.specs.Heeded.{heeded};
ghost use Rattle.operators.specs.Trials.{Alike, Tried};
ghost use Rattle.theory.specs.Rules.{LeastKeeping, Trigger, close};

use crate::word::with_word;
use sets::rule::Rule;
use sets::set::Set;
use std::marker::PhantomData;
use theory::MAX_SIGNALS;

// How the rules of a list apply to a set.
pub trait Firing {
    // When a rule applies.
    ghost trigger: { Trigger };

    // The word of the least set that contains the set and keeps every rule that counts; none where it brings a signal above the bit.
    fn least(rules: &[Rule], set: Set, bit: usize) -> Option<u64>
        ensures { MatchOption result
            (Alike bit (close trigger set.width (heeded set.width rules.now) set.word) set.word → ⊥)
            (λ word. (word ≡ close trigger set.width (heeded set.width rules.now) set.word) × Alike bit word set.word) };
}

// The closure over a list of rules, of sets as wide as the one that it keeps.
#[derive(Clone, Copy)]
pub struct ByRules<'a, F> {
    pub(crate) rules: &'a [Rule],
    pub(crate) like: Set,
    firing: PhantomData<F>,
}

impl<'a, F: Firing> ByRules<'a, F> {
    // The closure over the rules, of sets as wide as the one given.
    pub fn new(rules: &'a [Rule], set: Set) -> Self
        ensures rules { result.rules.now ≡ rules.now }
        ensures like { result.like ≡ set }
    {
        ByRules {
            rules,
            like: set,
            firing: PhantomData,
        }
    }

    // The least set that contains the set and keeps every rule that counts; a set of another width is given back.
    pub(crate) fn least_from(&self, set: Set) -> Set
        ensures width { result.width ≡ set.width }
        ensures closed { set.width ≡ self.now.like.width
            → result.word ≡ close F.trigger self.now.like.width (heeded self.now.like.width self.now.rules.now) set.word }
        ensures other { (set.width ≢ self.now.like.width) → result ≡ set }
        ensures least { set.width ≡ self.now.like.width
            → LeastKeeping F.trigger set.width (heeded set.width self.now.rules.now) set.word result.word }
    {
        if set.width() != self.like.width() {
            return set;
        }
        let word = F::least(self.rules, set, MAX_SIGNALS).unwrap_or(set.word());
        with_word(set, word)
    }

    // That set, or none where it brings a signal above the bit.
    pub(crate) fn least_tried(&self, set: Set, bit: usize) -> Option<Set>
        ensures tried { Tried self.now.like.width (close F.trigger self.now.like.width (heeded self.now.like.width self.now.rules.now)) set bit result }
    {
        if set.width() != self.like.width() {
            return Some(set);
        }
        let word = F::least(self.rules, set, bit)?;
        Some(with_word(set, word))
    }
}
