ghost use Rattle.query.specs.Meaning.{Replies};
ghost use Rattle.query.specs.Queries.{known_after, reply_of};
ghost use Rattle.std.specs.Prelude.{◌≡◌};
ghost use Rattle.view.specs.Shown.{signal_names};

use crate::faults::QueryFault;
use crate::known::Known;
use crate::query::ask;
use crate::reply::Reply;
use draft::base::Base;

// Queries put to a base one after another, with the known set that they share.
#[derive(Clone, Copy)]
pub struct Query<'t, 'r, 'p, 'm> {
    base: Base<'t, 'r, 'p, 'm>,
    known: Known,
}

impl<'t, 'r, 'p, 'm> Query<'t, 'r, 'p, 'm> {
    // Queries to a base, with nothing known yet.
    pub fn new(base: Base<'t, 'r, 'p, 'm>) -> Self
        ensures base { result.base ≡ base.entry }
        ensures known { result.known.word ≡ 0 }
    {
        Query {
            base,
            known: Known::new(),
        }
    }

    // The known set.
    pub fn known(&self) -> Known
        ensures value { result ≡ self.now.known }
    {
        self.known
    }

    // Answers the query on the first line of the text, which has the number `line`, by the rows of the base's table.
    pub fn ask(&mut self, line: usize, text: &[u8]) -> Result<Reply, QueryFault>
        ensures answer { result ≡ reply_of (signal_names self.old.base.view) self.old.base.view.words.now self.old.known.word line text.now }
        ensures known { self.new.known.word ≡ known_after (signal_names self.old.base.view) self.old.known.word line text.now }
        ensures meaning { Replies (signal_names self.old.base.view) self.old.base.view.words.now self.old.known.word self.new.known.word text.now result }
        ensures base { self.new.base ≡ self.old.base }
    {
        ask(&self.base.view(), &mut self.known, line, text)
    }
}
