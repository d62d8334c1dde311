//! Words of signals: subsets and the lectic order, as definitions and theorems.

#![tactic(auto)]

// The greatest number of signals of a set.
pub const MAX_SIGNALS: usize = 60;
