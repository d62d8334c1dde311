ghost use Rattle.std.specs.Prelude.{◌≡◌};

pub(crate) mod supposing;

// The known set: the word of the signals that are taken as given.
#[derive(Clone, Copy, PartialEq, Eq, Debug)]
pub struct Known {
    word: u64,
}

impl Known {
    // The empty set.
    pub fn new() -> Self
        ensures empty { result.word ≡ 0 }
    {
        Known { word: 0 }
    }

    // The word of the set.
    pub fn word(&self) -> u64
        ensures word { result ≡ self.now.word }
    {
        self.word
    }

    // Replaces the word of the set.
    pub(crate) fn set(&mut self, word: u64)
        ensures word { self.new.word ≡ word }
    {
        *self = Known { word };
    }
}
