ghost use Rattle.std.specs.Prelude.{◌≡◌};
ghost use Rattle.page.specs.declared.faults.PageFault.TheVariants.{Set, Output};
ghost use Rattle.page.specs.Faults.{fault_of};

use fault::Fault;
use fault::refusal::Refusal;
use output::faults::OutputFault;
use sets::faults::SetFault;

// Why a page does not take a line.
#[derive(Clone, Copy, PartialEq, Eq, Debug)]
pub enum PageFault {
    // The set is not one that the page shows.
    Set(SetFault),
    // The page or its output is full.
    Output(OutputFault),
}

impl Refusal for PageFault {
    ghost tells = { fault_of };

    // What the refusal tells: a refusal is passed up whole.
    fn fault(&self) -> Fault {
        match self {
            PageFault::Set(inner) => inner.fault(),
            PageFault::Output(inner) => inner.fault(),
        }
    }
}

// Each `From` is by hand: a derived one would have no contract, and clauses name the refusal.

// A refusal of a set, as a page tells it.
impl From<SetFault> for PageFault {
    ghost from_gives = { λ e r. r ≡ Set e };

    fn from(inner: SetFault) -> PageFault {
        PageFault::Set(inner)
    }
}

// A refusal of the output, as a page tells it.
impl From<OutputFault> for PageFault {
    ghost from_gives = { λ e r. r ≡ Output e };

    fn from(inner: OutputFault) -> PageFault {
        PageFault::Output(inner)
    }
}
