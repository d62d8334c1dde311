ghost use Rattle.std.specs.Prelude.{◌≡◌};
ghost use Rattle.table.specs.Faults.{fault_of};
ghost use Rattle.table.specs.declared.faults.TableFault.TheVariants.{Field};

use fault::Fault;
use fault::refusal::Refusal;
use text::faults::FieldFault;

// Why a table text is refused.
#[derive(Clone, Copy, PartialEq, Eq, Debug)]
pub enum TableFault {
    // A line without its line feed, or without its number.
    Field(FieldFault),
    // The text has more bytes than a text may have.
    TooLong,
    // The first line is not the letter B alone.
    NotB,
    // Line 2 or 5 is not empty.
    NotEmpty { line: usize },
    // More rows or more signals than a table may have.
    TooMany { line: usize },
    // The row words or the name places handed in are too few.
    NoRoom,
    // The line is no name.
    NotName { line: usize, byte: usize },
    // The row has not one cell for each signal.
    CellCount { line: usize },
    // The cell is neither X nor full stop.
    NotCell { line: usize, byte: usize },
}

impl Refusal for TableFault {
    ghost tells = { fault_of };

    // What the refusal tells; that of a field is passed up whole.
    fn fault(&self) -> Fault {
        let (number, line, byte) = match *self {
            TableFault::Field(inner) => return inner.fault(),
            TableFault::TooLong => (31, 1, 1),
            TableFault::NotB => (34, 1, 1),
            TableFault::NotEmpty { line } => (35, line, 1),
            TableFault::TooMany { line } => (36, line, 1),
            TableFault::NoRoom => (37, 4, 1),
            TableFault::NotName { line, byte } => (38, line, byte),
            TableFault::CellCount { line } => (39, line, 1),
            TableFault::NotCell { line, byte } => (40, line, byte),
        };
        Fault::in_text(b'T', number, line, byte)
    }
}

// Each `From` is by hand: a derived one would have no contract, and clauses name the refusal.
impl From<FieldFault> for TableFault {
    ghost from_gives = { λ e r. r ≡ Field e };

    fn from(inner: FieldFault) -> TableFault {
        TableFault::Field(inner)
    }
}
