//! The draft: the making of the Duquenne-Guigues base of a table, set by set, the base that it closes to, and their law.

#![tactic(auto)]

pub mod advance;
pub mod base;
pub mod both;
pub mod call;
pub mod draft;
pub mod faults;
pub mod fill;
mod full;
pub mod run;
#[cfg(test)]
mod tests;
