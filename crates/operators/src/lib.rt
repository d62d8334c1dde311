//! Closure operators on sets of signals: one interface, and the operators behind it.

#![tactic(auto)]

mod bits;
pub mod by_rules;
mod columns;
pub mod entails;
pub mod heeded;
pub mod holds;
pub mod operator;
pub mod plants;
pub mod proper_rule_closure;
pub mod rule_closure;
pub mod table_closure;
#[cfg(test)]
mod tests;
mod word;
