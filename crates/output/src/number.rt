ghost use Rattle.std.specs.Prelude.{◌≡◌, ◌≤◌, length, decimal};
ghost use Rattle.output.specs.Outputs.{Puts};

use crate::faults::OutputFault;
use crate::output::Output;
use itoa::Buffer;

impl Output<'_> {
    // Puts the number's decimal digits behind what was put; where they do not fit, all stays as before.
    pub fn put_number(&mut self, n: usize) -> Result<(), OutputFault>
        ensures puts { Puts (decimal n) self.old result self.new }
    {
        let mut buffer = Buffer::new();
        self.put(buffer.format(n).as_bytes())
    }
}

// The most digits that a number has.
pub const MAX_DIGITS: usize = 20;

// Counts the decimal digits of a number.
pub fn digits(n: usize) -> usize
    ensures count { result ≡ length (decimal n) }
    ensures few { result ≤ 20 }
{
    match n.checked_ilog10() {
        Some(power) => power as usize + 1,
        None => 1,
    }
}
