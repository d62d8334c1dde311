ghost use Rattle.std.specs.Prelude.{◌≡◌, ◌+◌, ◌*◌, ◌≤◌, length, MatchResult};
ghost use Rattle.output.specs.Outputs.{Puts};
ghost use Rattle.page.specs.Names.{names_of};
ghost use Rattle.page.specs.Pages.{counted_names};
ghost use Rattle.sets.specs.declared.faults.SetFault.TheVariants.{OtherWidth};
ghost use Rattle.theory.specs.Words.{max_signals};
ghost use Rattle.view.specs.Shown.{signal_count};

use super::Chosen;
use output::faults::OutputFault;
use output::number::digits;
use output::output::Output;
use sets::faults::SetFault;
use sets::set::Set;
use view::table_view::TableView;

impl<'t, 'r, 'p> Chosen<'t, 'r, 'p> {
    // The signals of a set; a set of another width than the view's is refused.
    pub(crate) fn of(set: Set, view: &TableView<'t, 'r, 'p>) -> Result<Self, SetFault>
        ensures answer { MatchResult result
            (λ chosen. (set.width ≡ signal_count view.now) × (chosen.view ≡ view.now) × (chosen.set ≡ set))
            (λ refusal. (set.width ≡ signal_count view.now → ⊥) × (refusal ≡ OtherWidth)) }
    {
        if set.width() != view.signals() {
            return Err(SetFault::OtherWidth);
        }
        Ok(Chosen { view: *view, set })
    }

    // Counts the signals.
    fn count(&self) -> usize
        ensures value { result ≡ length (names_of self.now) }
    {
        self.set.word().count_ones() as usize
    }

    // Counts the bytes of the number and the names of the signals, with a comma before each.
    pub(crate) fn bytes(&self) -> usize
        ensures count { result ≡ length (counted_names (names_of self.now)) }
        ensures short { result ≤ 21 + 41 * max_signals }
    {
        let mut bytes = 1 + digits(self.count());
        for name in self.names() {
            bytes += 1 + name.len();
        }
        bytes
    }

    // Puts the number and the names of the signals, each behind a comma.
    pub(crate) fn put(&self, out: &mut Output) -> Result<(), OutputFault>
        requires room { out.old.at + length (counted_names (names_of self.now)) ≤ length out.old.bytes.now }
        ensures puts { Puts (counted_names (names_of self.now)) out.old result out.new }
    {
        out.put(b",")?;
        out.put_number(self.count())?;
        for name in self.names() {
            out.put(b",")?;
            out.put(name)?;
        }
        Ok(())
    }
}
