ghost use Rattle.std.specs.Prelude.{◌≡◌, length, Decides, MatchOption, ◌≤◌};
ghost use Rattle.query.specs.Lefts.{left, read_as};
ghost use Rattle.query.specs.Meaning.{Means, Unmeant};
ghost use Rattle.query.specs.Names.{name_word_of, with_names};
ghost use Rattle.table.specs.Names.{part_at};
ghost use Rattle.theory.specs.Words.{max_signals};
ghost use Rattle.view.specs.Shown.{signal_names};
ghost use Rattle.view.specs.Views.{signal_place};

use crate::faults::QueryFault;
use crate::field::{Field, Fields};
use view::table_view::TableView;

// The names of a table's signals, for the query on the line of this number.
#[derive(Clone, Copy)]
pub(crate) struct Names<'t, 'r, 'p> {
    pub view: TableView<'t, 'r, 'p>,
    pub line: usize,
}

impl Names<'_, '_, '_> {
    // The set of the signal that a field names.
    pub(crate) fn word(&self, field: Field) -> Result<u64, QueryFault>
        ensures word { result ≡ name_word_of (signal_names self.now.view) self.now.line (read_as field.entry) }
    {
        match self.find(field.bytes) {
            Some(signal) => Ok(1 << (self.count() - 1 - signal)),
            None => Err(QueryFault::NoName {
                line: self.line,
                byte: field.byte,
            }),
        }
    }

    // The set with the signals that the fields name.
    pub(crate) fn joined(&self, set: u64, fields: Fields) -> Result<u64, QueryFault>
        ensures word { result ≡ with_names (signal_names self.now.view) self.now.line set (left fields.entry) }
    {
        let mut word = set;
        for field in fields {
            word |= self.word(field)?;
        }
        Ok(word)
    }

    // Finds the lowest-numbered signal with these bytes for its name.
    fn find(&self, bytes: &[u8]) -> Option<usize>
        ensures found { MatchOption result (Unmeant (signal_names self.now.view) bytes.now) (Means (signal_names self.now.view) bytes.now) }
    {
        (0..self.count()).find(|signal| self.is_named(*signal, bytes))
    }

    // Tells whether the name that the view hands out for a signal has these bytes.
    fn is_named(&self, signal: usize, bytes: &[u8]) -> bool
        ensures told { Decides result (part_at self.now.view.text.now (signal_place (length self.now.view.words.now) self.now.view.places.now signal) ≡ bytes.now) }
    {
        self.view.signal_name(signal).bytes == bytes
    }

    // Counts the names.
    fn count(&self) -> usize
        ensures count { result ≡ length (signal_names self.now.view) }
        ensures few { result ≤ max_signals }
    {
        self.view.signals()
    }
}
