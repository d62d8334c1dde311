//! The view of a table that was read: its parts checked once, its names handed out, and its text written again.

#![tactic(auto)]

mod fit;
pub mod name;
pub mod table_view;
pub mod write;
