ghost use Rattle.std.specs.Prelude.{◌≡◌};
ghost use Rattle.table.specs.Reading.{Item};

use crate::faults::TableFault;
use crate::lines::Line;

// What a line must be.
pub(crate) trait LineItem {
    // What is kept of the line.
    type Value: Copy;

    // What the line is read as, by its number, its position and its bytes.
    ghost item: { Self → Item Self.Value };

    // Reads a line as this item.
    fn read(&self, line: Line) -> Result<Self::Value, TableFault>
        ensures { result ≡ item self.now line.entry.number line.entry.start line.entry.bytes.now };
}
