ghost use Rattle.std.specs.Prelude.{◌≡◌, ◌≤◌, length, IfOk};
ghost use Rattle.draft.specs.Fills.{Filled as Ruled};
ghost use Rattle.job.specs.Jobs.{Put, behind, common_in, closed_page, rules_page};
ghost use Rattle.survey.specs.Fills.{Filled};
ghost use Rattle.view.specs.Shown.{signal_count};

use crate::faults::JobFault;
use crate::sheet::{put_closed, put_rules};
use draft::fill::fill_memory as fill_rules;
use operators::table_closure::TableClosure;
use sets::rule::Rule;
use sets::set::Set;
use survey::fill::fill_memory as fill_sets;

// Fills the memory of the sets with the closed sets of a table, and puts their page at position `at`.
// Output and position come apart here and in the next call, as pages take them; the two fill by calls with contracts of their own.
pub(crate) fn write_closed(
    out: &mut [u8],
    at: usize,
    closure: &TableClosure,
    sets: &mut [Set],
) -> Result<usize, JobFault>
    ensures answer { result ≡ behind at (closed_page closure.now.view (length sets.old) at (length out.old)) }
    ensures output { Put at (closed_page closure.now.view (length sets.old) at (length out.old)) out.old out.new }
    ensures sets { Filled (signal_count closure.now.view) (common_in closure.now.view) sets.old sets.new }
    ensures inside { IfOk result (λ end. end ≤ length out.old) }
{
    let count = fill_sets(*closure, sets)?;
    Ok(put_closed(out, at, closure, &closure.view(), &sets[..count])?)
}

// Fills the memory of the rules with the base of a table, and puts their page at position `at`.
pub(crate) fn write_rules(
    out: &mut [u8],
    at: usize,
    closure: &TableClosure,
    rules: &mut [Rule],
) -> Result<usize, JobFault>
    ensures answer { result ≡ behind at (rules_page closure.now.view (length rules.old) at (length out.old)) }
    ensures output { Put at (rules_page closure.now.view (length rules.old) at (length out.old)) out.old out.new }
    ensures rules { Ruled (signal_count closure.now.view) (common_in closure.now.view) rules.old rules.new }
    ensures inside { IfOk result (λ end. end ≤ length out.old) }
{
    let count = fill_rules(closure, rules)?;
    Ok(put_rules(out, at, &closure.view(), &rules[..count])?)
}
