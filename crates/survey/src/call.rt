use sets::faults::SetFault;
use sets::set::Set;

// What a survey is asked.
#[derive(Clone, Copy)]
pub enum Call {
    // List the next closed set.
    Step,
    // Begin anew from a set.
    Seek(Set),
    // Begin anew from the empty set.
    Rewind,
}

// What a survey grants.
#[derive(Clone, Copy, PartialEq, Eq, Debug)]
pub enum Granted {
    // A step lists the set, with its number since the start and the number of signals tried.
    Listed {
        set: Set,
        serial: u64,
        trials: usize,
    },
    // The survey has begun anew.
    Moved,
}

// What a survey answers: what it grants, or why the call is refused and all is as before.
pub type Answer = Result<Granted, SetFault>;
