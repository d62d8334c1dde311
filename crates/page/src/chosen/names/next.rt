ghost use Rattle.std.specs.Iterator.{YieldsFirstRef, item_count};
ghost use Rattle.std.specs.Prelude.{◌≡◌};
ghost use Rattle.page.specs.Names.{left, names_of};

use super::Names;
use crate::chosen::Chosen;

impl<'t, 'r, 'p> Chosen<'t, 'r, 'p> {
    // The names of the signals.
    pub(in crate::chosen) fn names(&self) -> Names<'t, 'r, 'p>
        ensures all { left result ≡ names_of self.now }
    {
        Names {
            of: *self,
            signals: 0..self.set.width(),
        }
    }
}

// The names come in the order of the signals.
impl<'t, 'r, 'p> Iterator for Names<'t, 'r, 'p> {
    type Item = &'t [u8];

    ghost next_gives = { YieldsFirstRef left };

    ghost remaining = { item_count left };

    fn next(&mut self) -> Option<&'t [u8]> {
        let set = self.of.set;
        let signal = self.signals.find(|signal| set.has(*signal))?;
        Some(self.of.view.signal_name(signal).bytes)
    }
}
