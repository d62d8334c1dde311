use crate::faults::DraftFault;

// What a draft is asked.
#[derive(Clone, Copy)]
pub enum DraftCall {
    // Take the next set.
    Advance,
    // Tell whether the draft can be closed.
    TryClose,
}

// What an advance found of the set that it took.
#[derive(Clone, Copy, PartialEq, Eq, Debug)]
pub enum Advance {
    // The set is closed.
    Closed,
    // The set is not closed, and its rule was put.
    Rule,
}

// What a draft grants.
#[derive(Clone, Copy, PartialEq, Eq, Debug)]
pub enum DraftGranted {
    // An advance took the next set.
    Advanced(Advance),
    // The draft can be closed.
    Ready,
}

// What a draft answers: what it grants, or why the call is refused and all is as before.
pub type DraftAnswer = Result<DraftGranted, DraftFault>;
