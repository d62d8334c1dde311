ghost use Rattle.std.specs.Prelude.{◌≡◌, ◌≤◌, length, take, MatchOption, ◌≢◌};
ghost use Rattle.operators.specs.Counting.{AllCounted, Follows};
ghost use Rattle.operators.specs.Heeded.{heeded, of_width, of_width_within, max_rules};
ghost use Rattle.operators.specs.Trials.{Alike};
ghost use Rattle.theory.specs.Rules.{LeastKeeping, close_r, inside};
ghost use Rattle.theory.specs.Words.{Sub};
ghost use Rattle.theory.proofs.Rules.{close_closure};

use crate::by_rules::{ByRules, Firing};
use crate::heeded::{MAX_RULES, first_rules};
use crate::operator::Operator;
use crate::word::are_alike;
use sets::rule::Rule;
use sets::set::Set;

// A rule applies where its premise lies inside the set so far.
#[derive(Clone, Copy)]
pub struct WhereInside;

// The closure R over a list of rules.
pub type RuleClosure<'a> = ByRules<'a, WhereInside>;

// An impl for each closure, and not one for both: of a constant that a type parameter gives nothing is known, and the clause of `mark` would not hold it.
impl<'a> Operator for ByRules<'a, WhereInside> {
    const LETTER: u8 = b'R';

    ghost letter = { 82 };

    ghost span = { λ s. s.like.width };

    ghost means = { λ s. close_r s.like.width (heeded s.like.width s.rules.now) };

    ghost closes = { λ s. close_closure inside s.like.width (heeded s.like.width s.rules.now) (of_width_within s.like.width (take max_rules s.rules.now)) s.like.narrow };

    // The letter that pages over the operator carry.
    fn mark(&self) -> u8 {
        Self::LETTER
    }

    // The number of signals of the sets that the operator closes.
    fn width(&self) -> usize {
        self.like.width()
    }

    // The least set that contains the set and keeps every rule that counts; a set of another width is given back.
    fn closure(&self, set: Set) -> Set
        ensures width { result.width ≡ set.width }
        ensures closed { set.width ≡ self.now.like.width
            → result.word ≡ close_r self.now.like.width (heeded self.now.like.width self.now.rules.now) set.word }
        ensures other { (set.width ≢ self.now.like.width) → result ≡ set }
        ensures least { set.width ≡ self.now.like.width
            → LeastKeeping inside set.width (heeded set.width self.now.rules.now) set.word result.word }
    {
        self.least_from(set)
    }

    // The closure of a set, or none where it brings a signal above the bit.
    fn trial(&self, set: Set, bit: usize) -> Option<Set> {
        self.least_tried(set, bit)
    }
}

impl Firing for WhereInside {
    ghost trigger = { inside };

    // The word of the closure by LinClosure, or none where it brings a signal above the bit.
    fn least(rules: &[Rule], set: Set, bit: usize) -> Option<u64> {
        let word = linear_closure(first_rules(rules), set);
        are_alike(word, set.word(), bit).then_some(word)
    }
}

// The closure of a set by LinClosure: each rule's missing premise signals are counted down, and at 0 its conclusion comes in.
fn linear_closure(rules: &[Rule], set: Set) -> u64
    requires few { length rules.now ≤ max_rules }
    ensures closed { result ≡ close_r set.width (of_width set.width rules.now) set.word }
{
    let (width, start) = (set.width(), set.word());
    let mut missing = [0u8; MAX_RULES];
    let mut word = count_missing(rules, width, start, &mut missing);
    let mut done = start;
    while done != word {
        let grown = take_waiting(rules, width, done, word, &mut missing);
        done = word;
        word = grown;
    }
    word
}

// Counts what the word lacks of each premise, and gives the word with the conclusions of the premises that lack nothing.
fn count_missing(rules: &[Rule], width: usize, start: u64, missing: &mut [u8]) -> u64
    requires room { length rules.now ≤ length missing.old }
    ensures counted { AllCounted width rules.now missing.new 0 (length rules.now) start result }
    ensures contains { Sub start result }
    ensures follows { Follows width rules.now start result }
{
    let mut word = start;
    // By index: of counts that are lent to a zipped iterator nothing is known afterwards but their number.
    for (i, rule) in rules.iter().enumerate() {
        let premise = rule.premise();
        if premise.width() != width {
            continue;
        }
        let needed = premise.word();
        let lacking = (needed.count_ones() - (needed & start).count_ones()) as u8;
        missing[i] = lacking;
        if lacking == 0 {
            word |= rule.conclusion().word();
        }
    }
    word
}

// Takes the signals that the word has and the done ones lack off the counts, and gives the word with the conclusions of the counts that reach 0.
fn take_waiting(rules: &[Rule], width: usize, done: u64, word: u64, missing: &mut [u8]) -> u64
    requires room { length rules.now ≤ length missing.old }
    requires inside { Sub done word }
    requires counted { AllCounted width rules.now missing.old 0 (length rules.now) done word }
    ensures counted { AllCounted width rules.now missing.new 0 (length rules.now) word result }
    ensures contains { Sub word result }
    ensures follows { Follows width rules.now word result }
{
    let waiting = word ^ done;
    let mut grown = word;
    // By index, as the counts are made.
    for (i, rule) in rules.iter().enumerate() {
        let premise = rule.premise();
        let found = (premise.word() & waiting).count_ones() as u8;
        if found == 0 || premise.width() != width {
            continue;
        }
        let lacking = missing[i] - found;
        missing[i] = lacking;
        if lacking == 0 {
            grown |= rule.conclusion().word();
        }
    }
    grown
}
