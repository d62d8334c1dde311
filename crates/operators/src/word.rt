ghost use Rattle.std.specs.Prelude.{◌≡◌, ◌-◌, ◌^◌, ◌<◌, ◌≤◌, Decides};
ghost use Rattle.operators.specs.Trials.{Alike};
ghost use Rattle.theory.specs.Words.{max_signals};

use sets::set::Set;

// The highest bit of a word.
const TOP_BIT: usize = 63;

// The set of the same width that another word stands for.
pub(crate) fn with_word(set: Set, word: u64) -> Set
    requires { word < 2 ^ set.width }
    ensures width { result.width ≡ set.width }
    ensures word { result.word ≡ word }
{
    Set::new(set.width(), word).unwrap_or(set)
}

// Whether two words have the same signals above the bit.
pub(crate) fn are_alike(a: u64, b: u64, bit: usize) -> bool
    ensures told { Decides result (Alike bit a b) }
{
    bit >= TOP_BIT || a >> bit >> 1 == b >> bit >> 1
}

// The word of all signals of a width.
pub(crate) fn all_signals(width: usize) -> u64
    requires { width ≤ max_signals }
    ensures full { result ≡ 2 ^ width - 1 }
{
    (1 << width) - 1
}
