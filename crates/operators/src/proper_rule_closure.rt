ghost use Rattle.std.specs.Prelude.{◌≡◌, take, Decides, MatchOption, ◌≢◌, bit_and};
ghost use Rattle.operators.specs.Heeded.{heeded, of_width, of_width_within, max_rules};
ghost use Rattle.operators.specs.Trials.{Alike};
ghost use Rattle.theory.specs.Rules.{LeastKeeping, close_s, pass, proper};
ghost use Rattle.theory.proofs.Rules.{close_closure};

use crate::by_rules::{ByRules, Firing};
use crate::heeded::first_rules;
use crate::operator::Operator;
use crate::word::are_alike;
use sets::rule::Rule;
use sets::set::Set;

// A rule applies only where its premise is a proper part of the set so far.
#[derive(Clone, Copy)]
pub struct WhereProper;

// The closure S over a list of rules.
pub type ProperRuleClosure<'a> = ByRules<'a, WhereProper>;

// An impl for each closure, and not one for both: of a constant that a type parameter gives nothing is known, and the clause of `mark` would not hold it.
impl<'a> Operator for ByRules<'a, WhereProper> {
    const LETTER: u8 = b'S';

    ghost letter = { 83 };

    ghost span = { λ s. s.like.width };

    ghost means = { λ s. close_s s.like.width (heeded s.like.width s.rules.now) };

    ghost closes = { λ s. close_closure proper s.like.width (heeded s.like.width s.rules.now) (of_width_within s.like.width (take max_rules s.rules.now)) s.like.narrow };

    // The letter that pages over the operator carry.
    fn mark(&self) -> u8 {
        Self::LETTER
    }

    // The number of signals of the sets that the operator closes.
    fn width(&self) -> usize {
        self.like.width()
    }

    // The least set that contains the set and keeps every rule that counts; a set of another width is given back.
    fn closure(&self, set: Set) -> Set
        ensures width { result.width ≡ set.width }
        ensures closed { set.width ≡ self.now.like.width
            → result.word ≡ close_s self.now.like.width (heeded self.now.like.width self.now.rules.now) set.word }
        ensures other { (set.width ≢ self.now.like.width) → result ≡ set }
        ensures least { set.width ≡ self.now.like.width
            → LeastKeeping proper set.width (heeded set.width self.now.rules.now) set.word result.word }
    {
        self.least_from(set)
    }

    // The closure of a set, or none where it brings a signal above the bit.
    fn trial(&self, set: Set, bit: usize) -> Option<Set> {
        self.least_tried(set, bit)
    }
}

impl Firing for WhereProper {
    ghost trigger = { proper };

    // The word of the closure by passes over the rules; the first rule that brings a signal above the bit breaks them off.
    fn least(rules: &[Rule], set: Set, bit: usize) -> Option<u64> {
        saturated(first_rules(rules), set, bit)
    }
}

// The word after passes over the rules until one changes nothing; none as soon as one brings a signal above the bit.
fn saturated(rules: &[Rule], set: Set, bit: usize) -> Option<u64>
    ensures closed { MatchOption result
        (Alike bit (close_s set.width (of_width set.width rules.now) set.word) set.word → ⊥)
        (λ word. (word ≡ close_s set.width (of_width set.width rules.now) set.word) × Alike bit word set.word) }
{
    let (width, start) = (set.width(), set.word());
    let mut word = start;
    loop {
        let next = one_pass(rules, width, word, bit)?;
        if next == word {
            return Some(word);
        }
        word = next;
    }
}

// The word after each rule was tried once, in order; none as soon as one brings a signal above the bit.
fn one_pass(rules: &[Rule], width: usize, start: u64, bit: usize) -> Option<u64>
    ensures passed { MatchOption result
        (Alike bit (pass proper (of_width width rules.now) start) start → ⊥)
        (λ word. (word ≡ pass proper (of_width width rules.now) start) × Alike bit word start) }
{
    let mut word = start;
    for rule in rules {
        let premise = rule.premise();
        let (needed, span) = (premise.word(), premise.width());
        if is_proper_part(needed, word) && span == width {
            word |= rule.conclusion().word();
            if !are_alike(word, start, bit) {
                return None;
            }
        }
    }
    Some(word)
}

// Whether every signal of the one word is in the other, which has more.
fn is_proper_part(part: u64, word: u64) -> bool
    ensures told { Decides result ((bit_and part word ≡ part) × (part ≡ word → ⊥)) }
{
    part & word == part && part != word
}
