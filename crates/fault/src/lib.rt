//! What a refusal tells: the letter of the layer where it arose, its number, and the line and byte of the text.

#![tactic(auto)]

ghost use Rattle.std.specs.Prelude.{◌≡◌};
ghost use Rattle.fault.specs.Layers.{in_text, textless};

pub mod refusal;

// A refusal as its fault line tells it. Line and byte count from 1, and are 0 where no text is concerned.
// Letter and number stand as they are printed; what was refused is told by the enum of the layer.
#[derive(Clone, Copy, PartialEq, Eq, Debug)]
pub struct Fault {
    pub letter: u8,
    pub number: u8,
    pub line: usize,
    pub byte: usize,
}

impl Fault {
    // A refusal where no text is concerned.
    pub fn textless(letter: u8, number: u8) -> Fault
        ensures told { result ≡ textless letter number }
    {
        Fault::in_text(letter, number, 0, 0)
    }

    // A refusal of a text, at a line and a byte of that line.
    pub fn in_text(letter: u8, number: u8, line: usize, byte: usize) -> Fault
        ensures told { result ≡ in_text letter number line byte }
    {
        Fault {
            letter,
            number,
            line,
            byte,
        }
    }
}
