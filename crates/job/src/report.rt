ghost use Rattle.std.specs.Prelude.{◌≡◌, length, if◌then◌else◌, OnOk, nat_lt};
ghost use Rattle.job.specs.Jobs.{Put, behind};
ghost use Rattle.job.specs.Reports.{count_of, fitted, job_of, min_output, output_after, report_of};
ghost use Rattle.output.specs.Puts.{put_answer_of, put_at};
ghost use Rattle.table.specs.Reading.{places_after, read_of, words_after};

use crate::faults::JobFault;
use crate::frame::{clear, settle};
use crate::reading::view_read;
use output::faults::OutputFault;
use output::output::Output;
use table::place::Place;
use table::read::read;
use view::table_view::TableView;
use view::write::write_table;

// The fewest bytes of an output, which a fault line never passes.
pub const MIN_OUTPUT: usize = 32;

// Reads a table text, and reports what was read and the table as it is written; a refusal leaves one fault line and zeros.
pub fn report(
    text: &[u8],
    words: &mut [u64],
    places: &mut [Place],
    out: &mut [u8],
) -> Result<usize, JobFault>
    ensures answer { result ≡ count_of (job_of text.now (length words.old) (length places.old) (length out.old)) }
    ensures output { out.new ≡ output_after (length out.old) (job_of text.now (length words.old) (length places.old) (length out.old)) }
    ensures words { words.new ≡ (if nat_lt (length out.old) min_output then words.old else words_after (read_of text.now (length words.old) (length places.old)) words.old) }
    ensures places { places.new ≡ (if nat_lt (length out.old) min_output then places.old else places_after (read_of text.now (length words.old) (length places.old)) places.old) }
{
    clear(out)?;
    let answer = report_table(text, words, places, out);
    settle(out, answer)
}

// Reads the text, and puts the report at the front of the output.
fn report_table(
    text: &[u8],
    words: &mut [u64],
    places: &mut [Place],
    out: &mut [u8],
) -> Result<usize, JobFault>
    ensures answer { result ≡ behind 0 (fitted text.now (length out.old) (read_of text.now (length words.old) (length places.old))) }
    ensures output { Put 0 (fitted text.now (length out.old) (read_of text.now (length words.old) (length places.old))) out.old out.new }
    ensures words { words.new ≡ words_after (read_of text.now (length words.old) (length places.old)) words.old }
    ensures places { places.new ≡ places_after (read_of text.now (length words.old) (length places.old)) places.old }
{
    let reading = read(text, words, places)?;
    let view = view_read(text, words, places, reading);
    Ok(put_report(out, &view, reading.bytes)?)
}

// Puts the line that tells what was read, and the table's text behind it, at the front of the output.
fn put_report(out: &mut [u8], view: &TableView, taken: usize) -> Result<usize, OutputFault>
    ensures answer { result ≡ put_answer_of 0 (report_of view.now taken) out.old }
    ensures output { OnOk result (out.new ≡ put_at 0 (report_of view.now taken) out.old) }
{
    let mut output = Output::new(out, 0);
    output.put_record(b"read", &[view.rows(), view.signals(), taken])?;
    write_table(view, &mut output)?;
    Ok(output.at())
}
