ghost use Rattle.std.specs.Prelude.{cond, ◌≡◌, ◌<◌, ◌≤◌, ◌^◌, length, drop, if◌then◌else◌, nat_lt};
ghost use Rattle.job.specs.Closed.{SetsAfter};
ghost use Rattle.job.specs.Jobs.{Put, RulesAfter, RulesReached, behind, closed_page, common_in, first_line, parts_on, read_parts, rooms_of, whole_job};
ghost use Rattle.job.specs.Reports.{count_of, min_output, output_after};
ghost use Rattle.survey.specs.Fills.{Filled};
ghost use Rattle.table.specs.Reading.{places_after, read_of, words_after};
ghost use Rattle.view.specs.Shown.{signal_count};

use crate::answers::write_answers;
use crate::faults::JobFault;
use crate::frame::{clear, settle};
use crate::part::{write_closed, write_rules};
use crate::reading::view_read;
use operators::table_closure::TableClosure;
use output::output::Output;
use sets::rule::Rule;
use sets::set::Set;
use table::place::Place;
use table::read::read;
use view::table_view::TableView;

// The lines of a table text before the names.
const HEAD_LINES: usize = 5;

// Runs a job, a table text and then query lines: leaves the closed page and the rules page of the table and one line for each query in the output; a refusal leaves one fault line and zeros.
pub fn run(
    text: &[u8],
    words: &mut [u64],
    places: &mut [Place],
    sets: &mut [Set],
    rules: &mut [Rule],
    out: &mut [u8],
) -> Result<usize, JobFault>
    ensures answer { result ≡ count_of (whole_job (rooms_of sets.old rules.old out.old) text.now (length words.old) (length places.old)) }
    ensures output { out.new ≡ output_after (length out.old) (whole_job (rooms_of sets.old rules.old out.old) text.now (length words.old) (length places.old)) }
    ensures words { words.new ≡ (if nat_lt (length out.old) min_output then words.old else words_after (read_of text.now (length words.old) (length places.old)) words.old) }
    ensures places { places.new ≡ (if nat_lt (length out.old) min_output then places.old else places_after (read_of text.now (length words.old) (length places.old)) places.old) }
    ensures sets { cond (nat_lt (length out.old) min_output) (sets.new ≡ sets.old) (SetsAfter (read_of text.now (length words.old) (length places.old)) sets.old sets.new) }
    ensures rules { cond (nat_lt (length out.old) min_output) (rules.new ≡ rules.old) (RulesAfter (rooms_of sets.old rules.old out.old) text.now (read_of text.now (length words.old) (length places.old)) rules.old rules.new) }
{
    clear(out)?;
    let answer = write_job(text, words, places, sets, rules, out);
    settle(out, answer)
}

// Reads the table text, and puts the parts of the job at the front of the output.
fn write_job(
    text: &[u8],
    words: &mut [u64],
    places: &mut [Place],
    sets: &mut [Set],
    rules: &mut [Rule],
    out: &mut [u8],
) -> Result<usize, JobFault>
    ensures answer { result ≡ behind 0 (read_parts (rooms_of sets.old rules.old out.old) text.now (read_of text.now (length words.old) (length places.old))) }
    ensures output { Put 0 (read_parts (rooms_of sets.old rules.old out.old) text.now (read_of text.now (length words.old) (length places.old))) out.old out.new }
    ensures words { words.new ≡ words_after (read_of text.now (length words.old) (length places.old)) words.old }
    ensures places { places.new ≡ places_after (read_of text.now (length words.old) (length places.old)) places.old }
    ensures sets { SetsAfter (read_of text.now (length words.old) (length places.old)) sets.old sets.new }
    ensures rules { RulesAfter (rooms_of sets.old rules.old out.old) text.now (read_of text.now (length words.old) (length places.old)) rules.old rules.new }
{
    let reading = read(text, words, places)?;
    let view = view_read(text, words, places, reading);
    write_parts(out, &view, sets, rules, &text[reading.bytes..])
}

// Puts the parts of the job on a table and the queries behind it at the front of the output.
fn write_parts(
    out: &mut [u8],
    view: &TableView,
    sets: &mut [Set],
    rules: &mut [Rule],
    queries: &[u8],
) -> Result<usize, JobFault>
    requires near { length queries.now < 2 ^ 32 }
    ensures answer { result ≡ behind 0 (parts_on (rooms_of sets.old rules.old out.old) view.now queries.now) }
    ensures output { Put 0 (parts_on (rooms_of sets.old rules.old out.old) view.now queries.now) out.old out.new }
    ensures sets { Filled (signal_count view.now) (common_in view.now) sets.old sets.new }
    ensures rules { RulesReached (signal_count view.now) (common_in view.now) (closed_page view.now (length sets.old) 0 (length out.old)) rules.old rules.new }
{
    let closure = TableClosure::new(*view);
    let end = write_closed(out, 0, &closure, sets)?;
    let at = write_rules(out, end, &closure, rules)?;
    let mut rest = Output::new(out, at);
    write_answers(&mut rest, view, queries, first_query(view))?;
    Ok(rest.at())
}

// The number of the line behind the text of a table: its head, its names and its rows come before.
fn first_query(view: &TableView) -> usize
    ensures line { result ≡ first_line view.now.words.now view.now.places.now }
    ensures few { result ≤ 2000 }
{
    HEAD_LINES + view.rows() + view.signals() + view.rows() + 1
}
