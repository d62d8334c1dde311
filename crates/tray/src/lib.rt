//! Trays: entries kept in order in lent memory.

#![tactic(auto)]

ghost use Rattle.std.specs.Prelude.{◌≤◌, length};
ghost use Rattle.tray.specs.declared.TheConstants.{MAX_ENTRIES};

mod calls;
pub mod faults;
#[cfg(test)]
mod tests;

// The most entries of a tray.
pub const MAX_ENTRIES: usize = 4096;

// Entries in lent memory, in the order in which they were put.
#[derive(Drop)]
pub struct Tray<'a, T> {
    memory: &'a mut [T],
    count: usize,
    ghost within: { count ≤ length memory.now },
    ghost few: { count ≤ MAX_ENTRIES },
}
