ghost use Rattle.std.specs.Prelude.{◌^◌, ◌<◌, ◌≤◌};
ghost use Rattle.theory.specs.Words.{max_signals};

mod calls;
mod parts;

// A set of signals: signal i belongs to it where the bit of weight 2^(width - 1 - i) of the word is 1.
#[derive(Clone, Copy, PartialEq, Eq, Debug)]
pub struct Set {
    width: usize,
    word: u64,
    ghost narrow: { width ≤ max_signals },
    ghost below: { word < 2 ^ width },
}
