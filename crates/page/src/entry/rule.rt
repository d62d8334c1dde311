ghost use Rattle.std.specs.Prelude.{◌≡◌, MatchResult, bit_xor};
ghost use Rattle.page.specs.Lines.{PutsLine};
ghost use Rattle.page.specs.Pages.{line_of_rule, rule_line_some, shown_rule};
ghost use Rattle.sets.specs.Set.{Fit};
ghost use Rattle.view.specs.Shown.{signal_names};

use super::kinds::Kind;
use super::{Entry, check_room};
use crate::chosen::Chosen;
use crate::faults::PageFault;
use output::output::Output;
use sets::faults::SetFault;
use sets::rule::Rule;
use sets::set::Set;
use view::table_view::TableView;

// The bytes of a rule's line besides its names.
const RULE_BYTES: usize = 5;

impl Kind for Rule {}

// A rule, on the rules page.
impl Entry for Rule {
    ghost shown = { shown_rule };

    ghost some = { rule_line_some };

    fn put_line(
        &self,
        out: &mut Output,
        kept: Option<usize>,
        view: &TableView,
        _place: usize,
    ) -> Result<(), PageFault>
        ensures puts { PutsLine (line_of_rule (signal_names view.now) self.now) kept out.old result out.new }
    {
        let premise = Chosen::of(self.premise(), view)?;
        let more = Chosen::of(added(self)?, view)?;
        let bytes = RULE_BYTES + premise.bytes() + more.bytes();
        check_room(out, kept, bytes)?;
        out.put(b"rule")?;
        premise.put(out)?;
        more.put(out)?;
        Ok(out.put(b"\n")?)
    }
}

// The signals that a rule adds to its premise.
fn added(rule: &Rule) -> Result<Set, SetFault>
    ensures answer { MatchResult result
        (λ set. (set.width ≡ rule.now.premise.width) × (set.word ≡ bit_xor rule.now.conclusion.word rule.now.premise.word))
        (λ _. Fit rule.now.premise.width (bit_xor rule.now.conclusion.word rule.now.premise.word) → ⊥) }
{
    let premise = rule.premise();
    Set::new(premise.width(), rule.conclusion().word() ^ premise.word())
}
