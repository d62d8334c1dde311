//! Texts in lines: where a line ends, and what number a line or a field writes.

#![tactic(auto)]

pub mod faults;
pub mod find;
pub mod line;
pub mod number;
