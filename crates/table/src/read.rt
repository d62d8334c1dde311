ghost use Rattle.std.specs.Prelude.{◌≡◌, ◌≤◌, length, IfErr};
ghost use Rattle.fault.specs.Layers.{Near};
ghost use Rattle.table.specs.Cursors.{AtNames, HasRoom, body_at, ended};
ghost use Rattle.table.specs.Faults.{fault_of};
ghost use Rattle.table.specs.Grammar.{Grammar};
ghost use Rattle.table.specs.Reading.{read_into, answer_of, bytes_of, words_after, places_after, filled, held};

use crate::counts::Counts;
use crate::faults::TableFault;
use crate::head::read_head;
use crate::limits::{MAX_NAMES, MAX_ROWS, MAX_TEXT};
use crate::lines::Lines;
use crate::name::NamePlace;
use crate::place::Place;
use crate::row::Row;

// What was read: the numbers of rows and signals, and the bytes taken.
#[derive(Clone, Copy, PartialEq, Eq, Debug)]
pub struct Reading {
    pub rows: usize,
    pub signals: usize,
    pub bytes: usize,
}

// Reads a table text into a word for each row and a place for each name; a refusal leaves both as they were.
pub fn read(text: &[u8], words: &mut [u64], places: &mut [Place]) -> Result<Reading, TableFault>
    ensures answer { result ≡ answer_of (read_into text.now words.old places.old) }
    ensures words { words.new ≡ words_after (read_into text.now words.old places.old) words.old }
    ensures places { places.new ≡ places_after (read_into text.now words.old places.old) places.old }
    ensures grammar { Grammar text.now (length words.old) (length places.old) (held result words.new places.new) }
    ensures near { IfErr result (λ e. Near (fault_of e)) }
{
    if text.len() > MAX_TEXT {
        return Err(TableFault::TooLong);
    }
    let mut lines = Lines::new(text);
    let counts = read_head(&mut lines, words.len(), places.len())?;
    read_body(&mut lines, counts, words, places)?;
    Ok(Reading {
        rows: counts.rows,
        signals: counts.signals,
        bytes: lines.taken(),
    })
}

// Reads the names and rows behind the first five lines.
fn read_body(
    lines: &mut Lines,
    counts: Counts,
    words: &mut [u64],
    places: &mut [Place],
) -> Result<(), TableFault>
    requires names { AtNames lines.old }
    requires room { HasRoom counts (length words.old) (length places.old) }
    ensures answer { ended result lines.new ≡ bytes_of (body_at counts lines.old) }
    ensures words { words.new ≡ words_after (body_at counts lines.old) words.old }
    ensures places { places.new ≡ places_after (body_at counts lines.old) places.old }
{
    let Counts { rows, signals } = counts;
    // What is found lies here until all is read, since a refusal leaves the memory as it was and nothing is allocated.
    let mut found_places = [Place::default(); MAX_NAMES];
    let mut found_words = [0; MAX_ROWS];
    let found_places = &mut found_places[..rows + signals];
    let found_words = &mut found_words[..rows];
    lines.read_each(&NamePlace, found_places)?;
    lines.read_each(&Row { signals }, found_words)?;
    fill(words, found_words);
    fill(places, found_places);
    Ok(())
}

// Fills the front of the memory with what was found.
fn fill<T: Copy>(memory: &mut [T], found: &[T])
    requires { length found.now ≤ length memory.old }
    ensures { memory.new ≡ filled found.now memory.old }
{
    memory[..found.len()].copy_from_slice(found);
}
