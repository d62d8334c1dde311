ghost use Rattle.std.specs.Prelude.{◌≡◌, ◌<◌, ◌≤◌, [], ◌∷◌, ◌++◌, length, MatchOption, MatchResult, slice_index_or};
ghost use Rattle.fault.specs.Layers.{in_trays};
ghost use Rattle.tray.specs.Fault.{fault_of};
ghost use Rattle.tray.specs.Tray.{Kept, capacity, entries};

use crate::faults::TrayFault;
use crate::{MAX_ENTRIES, Tray};

impl<'a, T: Copy> Tray<'a, T> {
    // A tray with no entries.
    pub fn new(memory: &'a mut [T]) -> Self
        ensures empty { entries result ≡ [] }
        ensures memory { result.memory.now ≡ memory.old }
        ensures link { result.memory.ghost_name ≡ memory.entry.ghost_name }
    {
        Tray { memory, count: 0 }
    }

    // The number of entries.
    pub fn count(&self) -> usize
        ensures value { result ≡ length (entries self.now) }
    {
        let Tray { count, .. } = self;
        *count
    }

    // The number of entries that the tray has place for.
    pub fn capacity(&self) -> usize
        ensures value { result ≡ capacity self.now }
    {
        self.memory.len().min(MAX_ENTRIES)
    }

    // The entry at the place, if there is one.
    pub fn get(&self, place: usize) -> Option<T>
        ensures answer { MatchOption result
            (length (entries self.now) ≤ place)
            (λ entry. (place < length (entries self.now)) × (entry ≡ slice_index_or (entries self.now) place entry)) }
    {
        self.entries().get(place).copied()
    }

    // The entries, first to last.
    pub fn entries(&self) -> &[T]
        ensures value { result.now ≡ entries self.now }
    {
        &self.memory[..self.count]
    }

    // Takes out every entry, and leaves the memory as it is.
    pub fn clear(&mut self)
        ensures empty { entries self.new ≡ [] }
        ensures memory { self.new.memory.now ≡ self.old.memory.now }
        ensures link { self.new.memory.ghost_name ≡ self.old.memory.ghost_name }
    {
        self.count = 0;
    }

    // Puts the entry behind the last one, or refuses where the tray is full.
    pub fn put(&mut self, entry: T) -> Result<(), TrayFault>
        ensures answer { MatchResult result
            (λ _. (length (entries self.old) < capacity self.old) × (entries self.new ≡ entries self.old ++ entry ∷ []))
            (λ fault. (length (entries self.old) ≡ capacity self.old) × (self.new ≡ self.old) × (fault_of fault ≡ in_trays 21)) }
        ensures kept { Kept self.old self.new }
    {
        if self.count == self.capacity() {
            return Err(TrayFault::Full);
        }
        self.memory[self.count] = entry;
        self.count += 1;
        Ok(())
    }

    // Ends the tray, and gives its entries for reading.
    pub fn into_slice(self) -> &'a [T]
        ensures value { result.now ≡ entries self.entry }
    {
        let Tray { memory, count } = self;
        &memory[..count]
    }
}
