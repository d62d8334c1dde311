//! Bytes and numbers put into lent output.

#![tactic(auto)]

pub mod faults;
pub mod number;
pub mod output;
pub mod record;
