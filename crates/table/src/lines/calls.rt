ghost use Rattle.std.specs.Prelude.{◌≡◌, ◌+◌, length, IfOk};
ghost use Rattle.table.specs.Cursors.{IsFresh, ended, line_as, lines_as, read_to};
ghost use Rattle.table.specs.Reading.{kept_as};

use super::{Line, Lines};
use crate::faults::TableFault;
use crate::item::LineItem;
use text::line::line_end;

impl<'t> Lines<'t> {
    // All lines of a text.
    pub(crate) fn new(text: &'t [u8]) -> Self
        ensures text { result.text.now ≡ text.now }
        ensures fresh { IsFresh result }
    {
        Lines {
            text,
            line: 1,
            at: 0,
        }
    }

    // Counts the bytes of the lines that were taken.
    pub(crate) fn taken(&self) -> usize
        ensures { result ≡ self.now.at }
    {
        self.at
    }

    // Takes the next line and reads it as an item.
    pub(crate) fn read<I: LineItem>(&mut self, item: &I) -> Result<I::Value, TableFault>
        ensures value { read_to result self.new ≡ line_as (I.item item.now) self.old }
        ensures line { IfOk result (λ _. self.new.line ≡ self.old.line + 1) }
        ensures text { self.new.text.now ≡ self.old.text.now }
    {
        let end = line_end(self.text, self.line, self.at)?;
        let line = Line {
            number: self.line,
            start: self.at,
            bytes: &self.text[self.at..end],
        };
        self.at = end + 1;
        self.line += 1;
        item.read(line)
    }

    // Takes a line for each entry of the memory, and keeps there what each is read as.
    pub(crate) fn read_each<I: LineItem>(
        &mut self,
        item: &I,
        memory: &mut [I::Value],
    ) -> Result<(), TableFault>
        ensures values { kept_as (ended result self.new) memory.new ≡ lines_as (I.item item.now) (length memory.old) self.old }
        ensures line { IfOk result (λ _. self.new.line ≡ self.old.line + length memory.old) }
        ensures text { self.new.text.now ≡ self.old.text.now }
    {
        for value in memory.iter_mut() {
            *value = self.read(item)?;
        }
        Ok(())
    }
}
