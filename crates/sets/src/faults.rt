ghost use Rattle.sets.specs.Fault.{fault_of};

use fault::Fault;
use fault::refusal::Refusal;

// Why a set or a rule was not made, or a survey did not take a call.
#[derive(Clone, Copy, PartialEq, Eq, Debug)]
pub enum SetFault {
    // The width is over the limit, or the word has a bit past the width.
    Unfit,
    // The widths differ, or the premise does not lie inside the conclusion.
    NotInside,
    // The set is of another width.
    OtherWidth,
    // The full set has been listed.
    Ended,
}

impl Refusal for SetFault {
    ghost tells = { fault_of };

    // What the refusal tells.
    fn fault(&self) -> Fault {
        let number = match self {
            SetFault::Unfit => 11,
            SetFault::NotInside => 12,
            SetFault::OtherWidth => 13,
            SetFault::Ended => 14,
        };
        Fault::textless(b'S', number)
    }
}
