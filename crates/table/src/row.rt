ghost use Rattle.std.specs.Prelude.{◌≡◌, ◌≤◌, length, if◌then◌else◌, Some, None, nat_eq};
ghost use Rattle.table.specs.Reading.{row_item, cells_from};
ghost use Rattle.theory.specs.declared.TheConstants.{MAX_SIGNALS};

use crate::faults::TableFault;
use crate::item::LineItem;
use crate::lines::Line;
use theory::MAX_SIGNALS;

// A row of cells, one for each signal: its word.
#[derive(Clone, Copy)]
pub(crate) struct Row {
    pub signals: usize,
    ghost narrow: { signals ≤ MAX_SIGNALS },
}

impl LineItem for Row {
    type Value = u64;

    ghost item = { λ row. row_item row.signals };

    fn read(&self, line: Line) -> Result<u64, TableFault> {
        if line.bytes.len() != self.signals {
            return Err(TableFault::CellCount { line: line.number });
        }
        row_word(line.bytes, line.number)
    }
}

// Reads cells as a word: each is one more binary digit.
fn row_word(cells: &[u8], line: usize) -> Result<u64, TableFault>
    requires { length cells.now ≤ MAX_SIGNALS }
    ensures { result ≡ cells_from line 0 1 cells.now }
{
    let mut word = 0;
    // A slice pattern takes the cells apart, as each line of a table is taken apart.
    let mut left = cells;
    while let [first, rest @ ..] = left {
        let Some(digit) = cell(*first) else {
            return Err(TableFault::NotCell {
                line,
                byte: cells.len() - rest.len(),
            });
        };
        word = word * 2 + digit;
        left = rest;
    }
    Ok(word)
}

// Tells the binary digit that a cell stands for: 1 for X, and 0 for a full stop.
fn cell(byte: u8) -> Option<u64>
    ensures { result ≡ (if nat_eq byte 88 then Some 1 else (if nat_eq byte 46 then Some 0 else None)) }
{
    match byte as char {
        'X' => Some(1),
        '.' => Some(0),
        _ => None,
    }
}
