ghost use Rattle.tray.specs.Fault.{fault_of};

use fault::Fault;
use fault::refusal::Refusal;

// Why an entry was not put.
#[derive(Clone, Copy, PartialEq, Eq, Debug)]
pub enum TrayFault {
    // The tray has no place left.
    Full,
}

impl Refusal for TrayFault {
    ghost tells = { fault_of };

    // What the refusal tells.
    fn fault(&self) -> Fault {
        match self {
            TrayFault::Full => Fault::textless(b'C', 21),
        }
    }
}
