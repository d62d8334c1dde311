//! The whole job over lent memory: a table text and queries in, pages and answers out.

#![tactic(auto)]

mod answers;
pub mod closed;
pub mod faults;
mod frame;
mod part;
mod reading;
pub mod report;
pub mod run;
mod sheet;
