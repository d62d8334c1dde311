//! Tests of reading, viewing, writing and reporting a table, and of listing its closed sets.

#![tactic(auto)]

#[cfg(test)]
mod closings;
#[cfg(test)]
mod limits;
#[cfg(test)]
mod outcome;
#[cfg(test)]
mod refusals;
#[cfg(test)]
mod reports;
#[cfg(test)]
mod views;
