ghost use Rattle.output.specs.Faults.{fault_of};

use fault::Fault;
use fault::refusal::Refusal;

// Why something is not put into the output.
#[derive(Clone, Copy, PartialEq, Eq, Debug)]
pub enum OutputFault {
    // The output has too few bytes left.
    Full,
}

impl Refusal for OutputFault {
    ghost tells = { fault_of };

    // What the refusal tells.
    fn fault(&self) -> Fault {
        match self {
            OutputFault::Full => Fault::textless(b'P', 51),
        }
    }
}
