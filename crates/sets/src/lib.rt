//! Sets of signals, rules over them, and what making one refuses.

#![tactic(auto)]

pub mod edge;
pub mod faults;
pub mod rule;
pub mod set;
