use theory::MAX_SIGNALS;

// The most bytes that a text has.
pub const MAX_TEXT: usize = 65_000;

// The most rows that a table has.
pub const MAX_ROWS: usize = 512;

// The most names that a table has, of rows and of signals.
pub const MAX_NAMES: usize = MAX_ROWS + MAX_SIGNALS;
