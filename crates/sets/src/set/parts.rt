ghost use Rattle.std.specs.Prelude.{◌≡◌};

use super::Set;

impl Set {
    // The number of signals.
    pub fn width(&self) -> usize
        ensures value { result ≡ self.now.width }
    {
        self.width
    }

    // The word that stands for the set.
    pub fn word(&self) -> u64
        ensures value { result ≡ self.now.word }
    {
        self.word
    }
}

// The empty set of no signals.
impl Default for Set {
    ghost is_default = { λ set. (set.width ≡ 0) × (set.word ≡ 0) };

    fn default() -> Set {
        Set { width: 0, word: 0 }
    }
}
