ghost use Rattle.std.specs.Prelude.{◌≡◌};
ghost use Rattle.draft.specs.Advances.{at_full};

use sets::set::Set;

// Whether the mark is the full set of so many signals.
pub(crate) fn is_at_full(width: usize, mark: Option<Set>) -> bool
    ensures told { result ≡ at_full width mark }
{
    mark.is_some_and(|set| set.width() == width && set.word() == (1 << set.width()) - 1)
}
