ghost use Rattle.std.specs.Prelude.{◌≡◌, true, Decides, MatchResult};
ghost use Rattle.fault.specs.Layers.{in_sets};
ghost use Rattle.sets.specs.Fault.{fault_of};
ghost use Rattle.sets.specs.Set.{Fit, HasSignal, Inside, Precedes};
ghost use Rattle.theory.specs.Words.{Sub};

use super::Set;
use crate::faults::SetFault;
use theory::MAX_SIGNALS;

impl Set {
    // The set that the word stands for, or a refusal of a width or a word that does not fit.
    pub fn new(width: usize, word: u64) -> Result<Set, SetFault>
        ensures answer { MatchResult result
            (λ set. Fit width word × (set.width ≡ width) × (set.word ≡ word))
            (λ fault. (Fit width word → ⊥) × (fault_of fault ≡ in_sets 11)) }
    {
        if width > MAX_SIGNALS || word >> width != 0 {
            return Err(SetFault::Unfit);
        }
        Ok(Set { width, word })
    }

    // Whether the signal belongs to the set.
    pub fn has(&self, signal: usize) -> bool
        ensures told { Decides result (HasSignal self.now signal) }
    {
        signal < self.width && (self.word >> (self.width - 1 - signal)) % 2 == 1
    }

    // Whether the set comes before the other in the lectic order.
    // No `PartialOrd`: a derived one would order sets of different widths, of which neither precedes.
    pub fn precedes(&self, other: &Set) -> bool
        ensures told { Decides result (Precedes self.now other.now) }
    {
        self.width == other.width && self.word < other.word
    }

    // Whether every signal of the set is one of the other.
    pub fn within(&self, other: &Set) -> bool
        ensures told { Decides result (Inside self.now other.now) }
        ensures words { result ≡ true → Sub self.now.word other.now.word }
    {
        self.width == other.width && self.word & other.word == self.word
    }
}
