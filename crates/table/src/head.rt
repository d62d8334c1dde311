ghost use Rattle.std.specs.Prelude.{◌≡◌, IfOk};
ghost use Rattle.table.specs.Cursors.{AtNames, HasRoom, IsFresh, head_read};
ghost use Rattle.table.specs.Reading.{head_of, letter_item, empty_item, size_item};

use crate::counts::Counts;
use crate::faults::TableFault;
use crate::item::LineItem;
use crate::limits::MAX_ROWS;
use crate::lines::{Line, Lines};
use text::number::number;
use theory::MAX_SIGNALS;

// Reads the first five lines, and tests that there is room for a word a row and a place a name.
pub(crate) fn read_head(
    lines: &mut Lines,
    row_room: usize,
    place_room: usize,
) -> Result<Counts, TableFault>
    requires { IsFresh lines.old }
    ensures value { head_read result lines.new ≡ head_of lines.old.text.now row_room place_room }
    ensures names { IfOk result (λ _. AtNames lines.new) }
    ensures text { lines.new.text.now ≡ lines.old.text.now }
    ensures room { IfOk result (λ counts. HasRoom counts row_room place_room) }
{
    lines.read(&Letter)?;
    lines.read(&Empty)?;
    let rows = lines.read(&Size { limit: MAX_ROWS })?;
    let signals = lines.read(&Size { limit: MAX_SIGNALS })?;
    if row_room < rows || place_room < rows + signals {
        return Err(TableFault::NoRoom);
    }
    lines.read(&Empty)?;
    Ok(Counts { rows, signals })
}

// The letter B alone.
#[derive(Clone, Copy)]
struct Letter;

impl LineItem for Letter {
    type Value = ();

    ghost item = { λ _. letter_item };

    fn read(&self, line: Line) -> Result<(), TableFault> {
        match line.bytes {
            [b'B'] => Ok(()),
            _ => Err(TableFault::NotB),
        }
    }
}

// An empty line.
#[derive(Clone, Copy)]
struct Empty;

impl LineItem for Empty {
    type Value = ();

    ghost item = { λ _. empty_item };

    fn read(&self, line: Line) -> Result<(), TableFault> {
        match line.bytes {
            [] => Ok(()),
            _ => Err(TableFault::NotEmpty { line: line.number }),
        }
    }
}

// A number up to a limit.
#[derive(Clone, Copy)]
struct Size {
    limit: usize,
}

impl LineItem for Size {
    type Value = usize;

    ghost item = { λ size. size_item size.limit };

    fn read(&self, line: Line) -> Result<usize, TableFault> {
        let value = number(line.bytes, line.number)?;
        if value > self.limit {
            return Err(TableFault::TooMany { line: line.number });
        }
        Ok(value)
    }
}
