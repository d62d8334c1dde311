ghost use Rattle.std.specs.Prelude.{◌≡◌, ◌+◌, ◌≤◌, ◌++◌, length, IfOk, if◌then◌else◌, Ok, Err, OnOk};
ghost use Rattle.job.specs.Lists.{Fits, end_answer, lines_of, page_answer_of, page_of};
ghost use Rattle.output.specs.Puts.{put_at};
ghost use Rattle.output.specs.declared.faults.OutputFault.TheVariants.{Full};
ghost use Rattle.page.specs.Pages.{closed_head, fits_before, foot, max_lines, reserve, rules_head, shown_rule, shown_set};
ghost use Rattle.page.specs.declared.faults.PageFault.TheVariants.{Output};
ghost use Rattle.view.specs.Shown.{signal_count, signal_names};

use operators::operator::Operator;
use page::entry::Entry;
use page::faults::PageFault;
use page::page::Page;
use sets::rule::Rule;
use sets::set::Set;
use view::table_view::TableView;

// Puts the page of the sets of an operator at position `at`, and answers the position behind it.
// Output and position come apart here and in the next call, as pages take them.
pub(crate) fn put_closed<O: Operator>(
    out: &mut [u8],
    at: usize,
    operator: &O,
    view: &TableView,
    sets: &[Set],
) -> Result<usize, PageFault>
    requires widths { Fits shown_set (signal_names view.now) sets.now }
    requires few { length sets.now ≤ max_lines }
    ensures answer { result ≡ page_answer_of at (closed_head O.Operator.letter (signal_count view.now)) (lines_of shown_set (signal_names view.now) 0 sets.now) (foot (length sets.now)) (length out.old) }
    ensures output { OnOk result (out.new ≡ put_at at (page_of (closed_head O.Operator.letter (signal_count view.now)) (lines_of shown_set (signal_names view.now) 0 sets.now) (foot (length sets.now))) out.old) }
    ensures inside { IfOk result (λ end. end ≤ length out.old) }
{
    let page = Page::begin_closed(out, at, operator, view)?;
    finish(page, out, view, sets)
}

// Puts the page of rules at position `at`, and answers the position behind it.
pub(crate) fn put_rules(
    out: &mut [u8],
    at: usize,
    view: &TableView,
    rules: &[Rule],
) -> Result<usize, PageFault>
    requires widths { Fits shown_rule (signal_names view.now) rules.now }
    requires few { length rules.now ≤ max_lines }
    ensures answer { result ≡ page_answer_of at (rules_head (signal_count view.now)) (lines_of shown_rule (signal_names view.now) 0 rules.now) (foot (length rules.now)) (length out.old) }
    ensures output { OnOk result (out.new ≡ put_at at (page_of (rules_head (signal_count view.now)) (lines_of shown_rule (signal_names view.now) 0 rules.now) (foot (length rules.now))) out.old) }
    ensures inside { IfOk result (λ end. end ≤ length out.old) }
{
    let page = Page::begin_rules(out, at, view)?;
    finish(page, out, view, rules)
}

// Puts the lines of entries and the foot behind the head of a begun page, and answers the position behind it.
fn finish<E: Entry>(
    mut page: Page,
    out: &mut [u8],
    view: &TableView,
    entries: &[E],
) -> Result<usize, PageFault>
    requires begun { page.lines ≡ 0 }
    requires widths { Fits E.Entry.shown (signal_names view.now) entries.now }
    requires few { length entries.now ≤ max_lines }
    requires room { page.at + reserve ≤ length out.old }
    ensures answer { result ≡ end_answer page.at (lines_of E.Entry.shown (signal_names view.now) 0 entries.now) (foot (length entries.now)) out.old }
    ensures inside { IfOk result (λ end. end ≤ length out.old) }
    ensures output { OnOk result (out.new ≡ put_at page.at (lines_of E.Entry.shown (signal_names view.now) 0 entries.now ++ foot (length entries.now)) out.old) }
{
    let done = put_lines(&mut page, out, view, entries);
    let end = page.foot(out);
    done?;
    Ok(end?)
}

// Puts the lines of entries into a page, each at the number of the lines before it.
fn put_lines<E: Entry>(
    page: &mut Page,
    out: &mut [u8],
    view: &TableView,
    entries: &[E],
) -> Result<(), PageFault>
    requires widths { Fits E.Entry.shown (signal_names view.now) entries.now }
    requires few { page.old.lines + length entries.now ≤ max_lines }
    requires room { page.old.at + reserve ≤ length out.old }
    ensures answer { result ≡ (if fits_before page.old.at (lines_of E.Entry.shown (signal_names view.now) page.old.lines entries.now) out.old then Ok tt else Err (Output Full)) }
    ensures at { OnOk result (page.new.at ≡ page.old.at + length (lines_of E.Entry.shown (signal_names view.now) page.old.lines entries.now)) }
    ensures lines { OnOk result (page.new.lines ≡ page.old.lines + length entries.now) }
    ensures output { OnOk result (out.new ≡ put_at page.old.at (lines_of E.Entry.shown (signal_names view.now) page.old.lines entries.now) out.old) }
    ensures reserved { page.new.at + reserve ≤ length out.new }
{
    for entry in entries {
        let place = page.lines();
        page.line(out, view, place, entry)?;
    }
    Ok(())
}
