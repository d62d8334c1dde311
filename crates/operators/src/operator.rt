ghost use Rattle.std.specs.Prelude.{◌≡◌, ℕ, ◌≢◌};
ghost use Rattle.operators.specs.Trials.{Tried};
ghost use Rattle.theory.specs.Closures.{Closure};

use crate::word::are_alike;
use sets::set::Set;

// A closure operator: it has a width, a letter that its pages carry, and one question, the closure of a set.
pub trait Operator {
    // The letter that pages over the operator carry.
    const LETTER: u8;

    // That letter, as clauses name it.
    ghost letter: { ℕ };

    // The number of signals of the sets that the operator closes.
    ghost span: { Self → ℕ };

    // What the operator means: the closure of each word.
    ghost means: { Self → ℕ → ℕ };

    // Every operator shows the laws of a closure operator.
    ghost closes: { (s : Self) → Closure (span s) (means s) };

    // The letter that pages over the operator carry.
    fn mark(&self) -> u8
        ensures { result ≡ letter };

    // The number of signals of the sets that the operator closes.
    fn width(&self) -> usize
        ensures { result ≡ span self.now };

    // The closure of a set; a set of another width is given back.
    fn closure(&self, set: Set) -> Set
        ensures width { result.width ≡ set.width }
        ensures closed { set.width ≡ span self.now → result.word ≡ means self.now set.word }
        ensures other { (set.width ≢ span self.now) → result ≡ set };

    // The closure of a set, or none where it brings a signal above the bit; a set of another width is given back.
    fn trial(&self, set: Set, bit: usize) -> Option<Set>
        ensures { Tried (span self.now) (means self.now) set bit result }
    {
        let closed = self.closure(set);
        are_alike(closed.word(), set.word(), bit).then_some(closed)
    }
}
