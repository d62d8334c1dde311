ghost use Rattle.operators.specs.Columns.{TakesBit};
ghost use Rattle.std.specs.Iterator.{at_most};

// The bits of a word, lowest first.
#[derive(Drop)]
pub(crate) struct Bits(pub(crate) u64);

impl Iterator for Bits {
    type Item = usize;

    ghost next_gives = { λ s r t. TakesBit s.0 r t.0 };

    ghost remaining = { λ s. at_most s.0 };

    fn next(&mut self) -> Option<usize> {
        if self.0 == 0 {
            return None;
        }
        let bit = self.0.trailing_zeros() as usize;
        self.0 ^= 1 << bit;
        Some(bit)
    }
}
