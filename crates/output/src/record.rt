ghost use Rattle.std.specs.Prelude.{◌≡◌, ◌+◌, ◌≤◌, ◌∷◌, length, decimal, nat_le};
ghost use Rattle.output.specs.Outputs.{Puts};
ghost use Rattle.output.specs.Records.{number_fields, record_line};

use crate::faults::OutputFault;
use crate::number::digits;
use crate::output::Output;

impl Output<'_> {
    // Puts a line of a word and numbers, parted by commas, behind what was put; where it does not fit, all stays as before.
    pub fn put_record(&mut self, word: &[u8], numbers: &[usize]) -> Result<(), OutputFault>
        ensures puts { Puts (record_line word.now numbers.now) self.old result self.new }
    {
        if !has_room(self.room(), word, numbers) {
            return Err(OutputFault::Full);
        }
        self.put(word)?;
        self.put_numbers(numbers)?;
        self.put(b"\n")
    }

    // Puts each number behind a comma.
    fn put_numbers(&mut self, numbers: &[usize]) -> Result<(), OutputFault>
        requires room { self.old.at + length (number_fields numbers.now) ≤ length self.old.bytes.now }
        ensures puts { Puts (number_fields numbers.now) self.old result self.new }
    {
        for number in numbers {
            self.put_field(*number)?;
        }
        Ok(())
    }

    // Puts a comma and a number.
    fn put_field(&mut self, number: usize) -> Result<(), OutputFault>
        requires room { self.old.at + length (44 ∷ decimal number) ≤ length self.old.bytes.now }
        ensures puts { Puts (44 ∷ decimal number) self.old result self.new }
    {
        self.put(b",")?;
        self.put_number(number)
    }
}

// Tells whether `left` bytes are enough for a line of a word and numbers.
fn has_room(left: usize, word: &[u8], numbers: &[usize]) -> bool
    ensures answer { result ≡ nat_le (length (record_line word.now numbers.now)) left }
{
    if left <= word.len() {
        return false;
    }
    let mut room = left - word.len() - 1;
    for number in numbers {
        let bytes = digits(*number) + 1;
        if room < bytes {
            return false;
        }
        room -= bytes;
    }
    true
}
