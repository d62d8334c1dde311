//! The survey: the closed sets of an operator, one by one in the lectic order (NextClosure), and the law of their listing.

#![tactic(auto)]

pub mod call;
pub mod fill;
pub mod next;
pub mod run;
pub mod state;
pub mod survey;
#[cfg(test)]
mod tests;
