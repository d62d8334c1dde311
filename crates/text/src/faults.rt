ghost use Rattle.text.specs.Faults.{fault_of};

use fault::Fault;
use fault::refusal::Refusal;

// Why a line or a field is refused.
#[derive(Clone, Copy, PartialEq, Eq, Debug)]
pub enum FieldFault {
    // The line has no line feed at its end.
    NoLineFeed { line: usize },
    // There is no number from 0 to 9999 without a leading zero.
    NoNumber { line: usize, byte: usize },
}

impl Refusal for FieldFault {
    ghost tells = { fault_of };

    // What the refusal tells.
    fn fault(&self) -> Fault {
        let (number, line, byte) = match *self {
            FieldFault::NoLineFeed { line } => (32, line, 1),
            FieldFault::NoNumber { line, byte } => (33, line, byte),
        };
        Fault::in_text(b'F', number, line, byte)
    }
}
