ghost use Rattle.std.specs.Prelude.{◌≡◌};

use super::Chosen;
use std::ops::Range;

mod next;

// The names of the signals of a set that are left: those of the signals that are to come.
#[derive(Drop)]
pub(super) struct Names<'t, 'r, 'p> {
    of: Chosen<'t, 'r, 'p>,
    signals: Range<usize>,
    ghost all: { signals.end ≡ of.set.width },
}
