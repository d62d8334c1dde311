ghost use Rattle.std.specs.Prelude.{◌≡◌, ◌+◌, ◌*◌, ◌^◌, ◌<◌, ◌≤◌, length, sum_by, take};
ghost use Rattle.output.specs.Outputs.{Puts};
ghost use Rattle.table.specs.Grammar.{ReadAgain};
ghost use Rattle.table.specs.Tables.{cells, line};
ghost use Rattle.table.specs.declared.name.TheConstants.{MAX_NAME};
ghost use Rattle.table.specs.declared.place.Place.{Place};
ghost use Rattle.theory.specs.declared.TheConstants.{MAX_SIGNALS};
ghost use Rattle.view.specs.Shown.{name_lines, row_lines, shown, table_text};
ghost use Rattle.view.specs.Texts.{cell_of, head_text};

use crate::name::Name;
use crate::table_view::TableView;
use output::faults::OutputFault;
use output::number::digits;
use output::output::Output;
use table::place::Place;
use theory::MAX_SIGNALS;

// The bytes of the first five lines besides the two numbers.
const HEAD_BYTES: usize = 6;

// Writes the text of the table behind what was put; where it does not fit, all stays as before.
pub fn write_table(view: &TableView, out: &mut Output) -> Result<(), OutputFault>
    ensures puts { Puts (table_text view.now) out.old result out.new }
    ensures again { ReadAgain (shown view.now) }
{
    if text_length(view) > out.room() {
        return Err(OutputFault::Full);
    }
    put_head(out, view.rows(), view.signals())?;
    put_names(out, view)?;
    put_rows(out, view)
}

// Counts the bytes of the table's text.
fn text_length(view: &TableView) -> usize
    ensures count { result ≡ length (table_text view.now) }
{
    let rows = view.rows();
    let signals = view.signals();
    HEAD_BYTES + digits(rows) + digits(signals) + names_length(view) + rows * (signals + 1)
}

// Counts the bytes of the lines of the names.
fn names_length(view: &TableView) -> usize
    ensures count { result ≡ length (name_lines view.now) }
    ensures few { result ≤ (MAX_NAME + 1) * length view.now.places.now }
{
    let places = view.places();
    bytes_at(places) + places.len()
}

// Counts the bytes at these places.
fn bytes_at(places: &[Place]) -> usize
    requires { sum_by (λ (place : Place). place.length) places.now < 2 ^ 64 }
    ensures { result ≡ sum_by (λ (place : Place). place.length) places.now }
{
    places.iter().map(|place| place.length).sum()
}

// Puts the first five lines.
fn put_head(out: &mut Output, rows: usize, signals: usize) -> Result<(), OutputFault>
    requires room { out.old.at + length (head_text rows signals) ≤ length out.old.bytes.now }
    ensures puts { Puts (head_text rows signals) out.old result out.new }
{
    out.put(b"B\n\n")?;
    out.put_number(rows)?;
    out.put(b"\n")?;
    out.put_number(signals)?;
    out.put(b"\n\n")
}

// Puts the lines of the row names and then of the signal names.
fn put_names(out: &mut Output, view: &TableView) -> Result<(), OutputFault>
    requires room { out.old.at + length (name_lines view.now) ≤ length out.old.bytes.now }
    ensures puts { Puts (name_lines view.now) out.old result out.new }
{
    for place in view.places() {
        put_line(out, Name::new(view.text(), *place).bytes)?;
    }
    Ok(())
}

// Puts the lines of the rows.
fn put_rows(out: &mut Output, view: &TableView) -> Result<(), OutputFault>
    requires room { out.old.at + length (row_lines view.now) ≤ length out.old.bytes.now }
    ensures puts { Puts (row_lines view.now) out.old result out.new }
{
    let signals = view.signals();
    for word in view.words() {
        let row = row_cells(*word, signals);
        put_line(out, &row[..signals])?;
    }
    Ok(())
}

// The cells of a row, one for each signal from the first on.
fn row_cells(word: u64, signals: usize) -> [u8; MAX_SIGNALS]
    requires { signals ≤ MAX_SIGNALS }
    ensures row { take signals result ≡ cells signals word }
{
    let mut row = [b'.'; MAX_SIGNALS];
    for (signal, byte) in row[..signals].iter_mut().enumerate() {
        *byte = cell(word, signals, signal);
    }
    row
}

// The cell of a signal in a row: X where the row contains the signal, else a full stop.
fn cell(word: u64, signals: usize, signal: usize) -> u8
    requires narrow { signals ≤ MAX_SIGNALS }
    requires within { signal < signals }
    ensures mark { result ≡ cell_of signals word signal }
{
    if (word >> (signals - 1 - signal)) % 2 == 1 {
        b'X'
    } else {
        b'.'
    }
}

// Puts a line and its line feed.
fn put_line(out: &mut Output, bytes: &[u8]) -> Result<(), OutputFault>
    requires room { out.old.at + length (line bytes.now) ≤ length out.old.bytes.now }
    ensures puts { Puts (line bytes.now) out.old result out.new }
{
    out.put(bytes)?;
    out.put(b"\n")
}
