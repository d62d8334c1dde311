//! Pages of output: a head, lines and a foot that a begun page must be given.

#![tactic(auto)]

mod chosen;
pub mod entry;
pub mod faults;
pub mod page;
#[cfg(test)]
mod tests;
