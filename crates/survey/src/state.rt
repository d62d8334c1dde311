use sets::set::Set;

// Where a survey stands.
#[derive(Clone, Copy)]
pub enum State {
    // No set has been listed since the start, which is this set.
    Fresh { start: Set },
    // The set listed last, and the number of sets listed since the start.
    Running { last: Set, serial: u64 },
    // The full set has been listed since the start.
    Ended,
}
