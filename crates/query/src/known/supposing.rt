ghost use Rattle.std.specs.Prelude.{◌≡◌, bit_or};

use super::Known;

// The known set while signals are supposed, with the word that it has again afterwards.
pub(crate) struct Supposing<'a> {
    known: &'a mut Known,
    old: u64,
}

impl<'a> Supposing<'a> {
    // Nothing is supposed yet.
    pub(crate) fn new(known: &'a mut Known) -> Self
        ensures known { result.known.now ≡ known.entry.now }
        ensures old { result.old ≡ known.entry.now.word }
        ensures lender { result.known.ghost_name ≡ known.entry.ghost_name }
    {
        let old = known.word;
        Supposing { known, old }
    }

    // Supposes the signals of a word too.
    pub(crate) fn add(&mut self, word: u64)
        ensures known { self.exit.now.known.now.word ≡ bit_or self.entry.now.known.now.word word }
        ensures old { self.exit.now.old ≡ self.entry.now.old }
        ensures lender { self.exit.now.known.ghost_name ≡ self.entry.now.known.ghost_name }
    {
        self.known.word |= word;
    }

    // The word of the known set with what is supposed.
    pub(crate) fn word(&self) -> u64
        ensures word { result ≡ self.entry.now.known.now.word }
    {
        self.known.word
    }
}

impl Drop for Supposing<'_> {
    // Gives the known set its old word again.
    fn drop(self)
        ensures known { self.exit.0.now.word ≡ self.entry.old }
    {
        let old = self.old;
        self.known.word = old;
        let Supposing { known: _, old: _ } = self;
    }
}
