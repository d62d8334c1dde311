ghost use Rattle.std.specs.Prelude.{◌≤◌};
ghost use Rattle.table.specs.declared.limits.TheConstants.{MAX_ROWS};
ghost use Rattle.theory.specs.declared.TheConstants.{MAX_SIGNALS};

// How many rows and signals a table has.
#[derive(Clone, Copy)]
pub(crate) struct Counts {
    pub rows: usize,
    pub signals: usize,
    ghost few: { rows ≤ MAX_ROWS },
    ghost narrow: { signals ≤ MAX_SIGNALS },
}
