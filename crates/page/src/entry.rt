ghost use Rattle.std.specs.Prelude.{◌≡◌, ℕ, ◌<◌, List, length, Ok, Err, if◌then◌else◌};
ghost use Rattle.output.specs.declared.faults.OutputFault.TheVariants.{Full};
ghost use Rattle.page.specs.Lines.{PutsLine, fits_leaving};
ghost use Rattle.page.specs.Pages.{Line};
ghost use Rattle.view.specs.Shown.{signal_names};

use crate::faults::PageFault;
use output::faults::OutputFault;
use output::output::Output;
use view::table_view::TableView;

mod rule;
mod set;

// The kinds of entries: no other crate can add one, so that every line of a page is that of a set or of a rule.
mod kinds {
    // An entry of a kind that pages show.
    pub trait Kind {}
}

// What a page shows on one line.
pub trait Entry: kinds::Kind {
    // The line, by the names of the signals and the entry's place in its list.
    ghost shown: { Self → List (List ℕ) → ℕ → Line };

    // No line is empty.
    ghost some: { (entry : Self) (names : List (List ℕ)) (place : ℕ) → 0 < length (shown entry names place).bytes };

    // Puts the line, and leaves `kept` bytes free behind it, or with none to keep finds the output full; an entry of another width than the view's, and a line that does not fit, leave all as before.
    fn put_line(
        &self,
        out: &mut Output,
        kept: Option<usize>,
        view: &TableView,
        place: usize,
    ) -> Result<(), PageFault>
        ensures puts { PutsLine (shown self.now (signal_names view.now) place) kept out.old result out.new };
}

// Refuses bytes that an output has no room for where `kept` bytes stay free behind them, and all where there is no such number.
pub(crate) fn check_room(out: &Output, kept: Option<usize>, bytes: usize) -> Result<(), OutputFault>
    requires some { 0 < bytes }
    ensures answer { result ≡ (if fits_leaving kept out.now.at bytes (length out.now.bytes.now) then Ok tt else Err Full) }
{
    let kept = kept.ok_or(OutputFault::Full)?;
    match out.room().checked_sub(kept) {
        Some(room) if bytes <= room => Ok(()),
        _ => Err(OutputFault::Full),
    }
}
