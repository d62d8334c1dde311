//! Queries to a table: names that join the known set, and whether names follow from others in every row.

#![tactic(auto)]

pub mod base_query;
pub mod faults;
mod field;
pub mod known;
mod names;
pub mod query;
pub mod reply;
#[cfg(test)]
mod tests;
