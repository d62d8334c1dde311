ghost use Rattle.draft.specs.Faults.{fault_of};
ghost use Rattle.draft.specs.declared.faults.DraftFault.TheVariants.{Set, Tray};
ghost use Rattle.std.specs.Prelude.{◌≡◌};

use fault::Fault;
use fault::refusal::Refusal;
use sets::faults::SetFault;
use tray::faults::TrayFault;

// Why a draft does not take a call.
#[derive(Clone, Copy, PartialEq, Eq, Debug)]
pub enum DraftFault {
    // The mark is a set of another width than the operator's.
    Set(SetFault),
    // A rule is needed, and the tray has no place left.
    Tray(TrayFault),
    // The mark is the full set, so that no set comes after it.
    AtEnd,
    // The mark is not the full set.
    NotAtEnd,
}

impl Refusal for DraftFault {
    ghost tells = { fault_of };

    // What the refusal tells; that of a set or a tray is passed up whole.
    fn fault(&self) -> Fault {
        match *self {
            DraftFault::Set(inner) => inner.fault(),
            DraftFault::Tray(inner) => inner.fault(),
            DraftFault::AtEnd => Fault::textless(b'D', 22),
            DraftFault::NotAtEnd => Fault::textless(b'D', 23),
        }
    }
}

// Each `From` is by hand: a derived one would have no contract, and clauses name the refusal.

// A refusal of a set, as a draft tells it.
impl From<SetFault> for DraftFault {
    ghost from_gives = { λ e r. r ≡ Set e };

    fn from(inner: SetFault) -> DraftFault {
        DraftFault::Set(inner)
    }
}

// A refusal of a tray, as a draft tells it.
impl From<TrayFault> for DraftFault {
    ghost from_gives = { λ e r. r ≡ Tray e };

    fn from(inner: TrayFault) -> DraftFault {
        DraftFault::Tray(inner)
    }
}
