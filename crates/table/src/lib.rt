//! The plant table as a text: its names, its refusals, and reading it.

#![tactic(auto)]

mod counts;
pub mod faults;
mod head;
mod item;
pub mod limits;
mod lines;
pub mod name;
pub mod place;
pub mod read;
mod row;
