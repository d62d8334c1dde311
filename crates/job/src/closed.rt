ghost use Rattle.std.specs.Prelude.{◌≡◌, cond, length, if◌then◌else◌, nat_lt};
ghost use Rattle.job.specs.Closed.{SetsAfter, closed_job_of, listed};
ghost use Rattle.job.specs.Jobs.{Put, behind};
ghost use Rattle.job.specs.Reports.{count_of, min_output, output_after};
ghost use Rattle.table.specs.Reading.{places_after, read_of, words_after};

use crate::faults::JobFault;
use crate::frame::{clear, settle};
use crate::part::write_closed;
use crate::reading::view_read;
use operators::table_closure::TableClosure;
use sets::set::Set;
use table::place::Place;
use table::read::read;

// Reads a table text, and leaves the page of the table's closed sets in the output; a refusal leaves one fault line and zeros.
pub fn list_closed(
    text: &[u8],
    words: &mut [u64],
    places: &mut [Place],
    sets: &mut [Set],
    out: &mut [u8],
) -> Result<usize, JobFault>
    ensures answer { result ≡ count_of (closed_job_of text.now (length words.old) (length places.old) (length sets.old) (length out.old)) }
    ensures output { out.new ≡ output_after (length out.old) (closed_job_of text.now (length words.old) (length places.old) (length sets.old) (length out.old)) }
    ensures words { words.new ≡ (if nat_lt (length out.old) min_output then words.old else words_after (read_of text.now (length words.old) (length places.old)) words.old) }
    ensures places { places.new ≡ (if nat_lt (length out.old) min_output then places.old else places_after (read_of text.now (length words.old) (length places.old)) places.old) }
    ensures sets { cond (nat_lt (length out.old) min_output) (sets.new ≡ sets.old) (SetsAfter (read_of text.now (length words.old) (length places.old)) sets.old sets.new) }
{
    clear(out)?;
    let answer = list_table(text, words, places, sets, out);
    settle(out, answer)
}

// Reads the text, and puts the page of the table's closed sets at the front of the output.
fn list_table(
    text: &[u8],
    words: &mut [u64],
    places: &mut [Place],
    sets: &mut [Set],
    out: &mut [u8],
) -> Result<usize, JobFault>
    ensures answer { result ≡ behind 0 (listed text.now (length sets.old) (length out.old) (read_of text.now (length words.old) (length places.old))) }
    ensures output { Put 0 (listed text.now (length sets.old) (length out.old) (read_of text.now (length words.old) (length places.old))) out.old out.new }
    ensures words { words.new ≡ words_after (read_of text.now (length words.old) (length places.old)) words.old }
    ensures places { places.new ≡ places_after (read_of text.now (length words.old) (length places.old)) places.old }
    ensures sets { SetsAfter (read_of text.now (length words.old) (length places.old)) sets.old sets.new }
{
    let reading = read(text, words, places)?;
    let view = view_read(text, words, places, reading);
    write_closed(out, 0, &TableClosure::new(view), sets)
}
